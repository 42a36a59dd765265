ghost use Rattle.std.specs.Prelude.{◌≡◌, ◌+◌, ◌≤◌, ◌<◌, IsFalse, false};
ghost use Rattle.std.specs.Option.{option_copied};
ghost use Rattle.quanta_till.specs.Lease.{LeaseValue, after_draw, after_use, after_settle};
ghost use Rattle.strategy.specs.Search.{Meaning, shown_best, shown_closed, shown_verdict, funded, advanced, ran_on, nodes_within, settled, emptied};

use crate::{Plan, Verdict};
use mrcpsp::Schedule;
use quanta_till::LEASE_LIMIT;

/// A `Strategy` is a search for one plan of one tenant, which pays a quantum for each node. None of
/// its calls takes memory.
pub trait Strategy: Send + Drop {
    ghost meaning: { Self → Meaning };

    ghost lease: { Self → LeaseValue };

    fn tenant(&self) -> u32
        ensures shown { result ≡ (meaning self.now).tenant }
        ensures owned { result ≡ (lease self.now).tenant };

    fn plan(&self) -> &Plan
        ensures { result.now ≡ (meaning self.now).plan };

    fn nodes(&self) -> u64
        ensures shown { result ≡ (meaning self.now).nodes }
        ensures paid { result ≡ (lease self.now).used };

    fn left(&self) -> u64
        ensures shown { result ≡ (meaning self.now).left }
        ensures held { result ≡ (lease self.now).left };

    fn closed(&self) -> bool
        ensures { result ≡ shown_closed (meaning self.now) };

    fn verdict(&self) -> Verdict
        ensures { result ≡ shown_verdict (meaning self.now) };

    fn best(&self) -> Option<&Schedule>
        ensures { option_copied result ≡ shown_best (meaning self.now) };

    fn fund(&mut self, quanta: u64)
        requires going { IsFalse (shown_closed (meaning self.old)) }
        requires limited { (meaning self.old).nodes + (meaning self.old).left + quanta ≤ LEASE_LIMIT }
        ensures shown { meaning self.new ≡ funded quanta (meaning self.old) }
        ensures drawn { lease self.new ≡ after_draw (lease self.old) quanta };

    fn advance(&mut self)
        requires going { IsFalse (shown_closed (meaning self.old)) }
        requires paid { 0 < (meaning self.old).left }
        ensures shown { meaning self.new ≡ advanced (meaning self.old) }
        ensures used { lease self.new ≡ after_use (lease self.old) 1 };

    /// May pay once at the end, so that searches of one till do not wait at each node.
    fn run(&mut self, most: u64) -> u64
        requires { (meaning self.old).taken ≡ false }
        ensures ran { result ≡ nodes_within most (meaning self.old) }
        ensures shown { meaning self.new ≡ ran_on result (meaning self.old) }
        ensures used { lease self.new ≡ after_use (lease self.old) result }
    {
        let mut ran = 0;
        while ran < most && 0 < self.left() && !self.closed() {
            self.advance();
            ran += 1;
        }
        ran
    }

    fn settle(&mut self)
        ensures shown { meaning self.new ≡ settled (meaning self.old) }
        ensures back { lease self.new ≡ after_settle (lease self.old) };

    /// From then on the search has no best schedule, and is closed.
    fn take_best(&mut self) -> Option<Schedule>
        ensures best { result ≡ shown_best (meaning self.old) }
        ensures taken { meaning self.new ≡ emptied (meaning self.old) }
        ensures kept { lease self.new ≡ lease self.old };
}

impl Strategy for Box<dyn Strategy> {
    ghost meaning = { λ b. (Strategy-box b).meaning b.value };

    ghost lease = { λ b. (Strategy-box b).lease b.value };

    fn tenant(&self) -> u32 {
        (**self).tenant()
    }

    fn plan(&self) -> &Plan {
        (**self).plan()
    }

    fn nodes(&self) -> u64 {
        (**self).nodes()
    }

    fn left(&self) -> u64 {
        (**self).left()
    }

    fn closed(&self) -> bool {
        (**self).closed()
    }

    fn verdict(&self) -> Verdict {
        (**self).verdict()
    }

    fn best(&self) -> Option<&Schedule> {
        (**self).best()
    }

    fn fund(&mut self, quanta: u64) {
        (**self).fund(quanta)
    }

    fn advance(&mut self) {
        (**self).advance()
    }

    fn run(&mut self, most: u64) -> u64 {
        (**self).run(most)
    }

    fn settle(&mut self) {
        (**self).settle()
    }

    fn take_best(&mut self) -> Option<Schedule> {
        (**self).take_best()
    }
}
