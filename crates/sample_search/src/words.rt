ghost use Rattle.std.specs.Prelude.{◌≡◌, ◌+◌, ◌<◌, ◌^◌};
ghost use Rattle.strategy.specs.Words.{word_at};

use rand_core::utils::NextWord;
use rand_pcg::Pcg32;
use std::marker::Model;

/// The stream of the generator: its increment is 2 · `STREAM` + 1.
const STREAM: u64 = 54;

/// Contracts see the seed, and the number of words that were drawn.
#[derive(Drop)]
pub(crate) struct RandomWords {
    seed: u64,
    drawn: u64,
    generator: Pcg32,
}

impl Model for RandomWords {
    ghost use Rattle.std.specs.Prelude.{◌≡◌};
    ghost use Rattle.sample_search.specs.Words.{WordsData, generator_at};

    ghost Value = { WordsData };

    ghost view = { λ w. record { seed = w.seed; drawn = w.drawn } };

    ghost invariant = { λ w. w.generator ≡ generator_at w.seed w.drawn };
}

impl RandomWords {
    pub(crate) fn new(seed: u64) -> RandomWords
        ensures { result ≡ record { seed = seed; drawn = 0 } }
    {
        RandomWords {
            seed,
            drawn: 0,
            generator: Pcg32::new(seed, STREAM),
        }
    }

    #[tactic(auto, unfolding(strategy::specs::Words::word_at))]
    pub(crate) fn next(&mut self) -> u32
        requires { self.old.drawn + 1 < 2 ^ 64 }
        ensures word { result ≡ word_at self.old.seed self.old.drawn }
        ensures drawn { self.new ≡ record self.old { drawn = self.old.drawn + 1 } }
    {
        self.drawn += 1;
        self.generator.next_word()
    }
}
