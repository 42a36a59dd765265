ghost use Rattle.std.specs.Prelude.{◌≡◌, ◌+◌, ◌<◌, ◌^◌, option_and_then};
ghost use Rattle.strategy.specs.Words.{word_at};
ghost use Rattle.sample_search.specs.Draw.{drawn_candidate, after_words};

use crate::words::RandomWords;
use serial_pass::{Candidate, PartialSchedule};

/// `first` draws an activity, `second` one of its allowed modes. `None` if it has none, or the pass
/// is void.
#[inline(always)]
fn draw_candidate(pass: &PartialSchedule, first: u32, second: u32) -> Option<Candidate>
    ensures { result ≡ option_and_then (drawn_candidate pass.now.project first second) pass.now.placed }
{
    let activity = pass.draw_activity(first)?;
    let mode = pass.draw_mode(activity, second)?;
    Some(Candidate { activity, mode })
}

#[inline(always)]
fn run_drawn(pass: &mut PartialSchedule, first: u32, second: u32)
    ensures { pass.new ≡ record pass.old { placed = after_words pass.old.project first second pass.old.placed } }
{
    let chosen = draw_candidate(pass, first, second);
    pass.run(chosen);
}

/// A void pass draws its words too. Takes no memory.
#[inline(always)]
pub(crate) fn run_node(pass: &mut PartialSchedule, words: &mut RandomWords)
    requires few { words.old.drawn + 2 < 2 ^ 64 }
    ensures words { words.new ≡ record words.old { drawn = words.old.drawn + 2 } }
    ensures pass { let first = word_at words.old.seed words.old.drawn in
        let second = word_at words.old.seed (words.old.drawn + 1) in
        pass.new ≡ record pass.old { placed = after_words pass.old.project first second pass.old.placed } }
{
    let first = words.next();
    let second = words.next();
    run_drawn(pass, first, second);
}
