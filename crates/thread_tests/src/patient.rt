//! A search that waits at its first node for another one's.
ghost use Rattle.std.specs.Prelude.{◌≡◌};

use crate::gates::Meeting;
use mrcpsp::Schedule;
use rule_search::RuleSearch;
use std::alloc::Global;
use std::sync::Arc;
use strategy::{Plan, Strategy, Verdict};

/// A search by a rule whose first node waits at a meeting.
#[derive(Drop)]
pub(crate) struct Patient {
    search: RuleSearch,
    meeting: Arc<Meeting, Global>,
    begun: bool,
}

impl Patient {
    pub(crate) fn new(search: RuleSearch, meeting: Arc<Meeting, Global>) -> Patient
        ensures { result.search ≡ search }
    {
        Patient {
            search,
            meeting,
            begun: false,
        }
    }

    /// Waits at the meeting, the first time.
    fn meet(&mut self)
        ensures { self.new.search ≡ self.old.search }
    {
        if !self.begun {
            self.begun = true;
            self.meeting.wait();
        }
    }
}

impl Strategy for Patient {
    ghost meaning = { λ s. s.search.0 };

    ghost lease = { λ s. s.search.1 };

    fn tenant(&self) -> u32 {
        self.search.tenant()
    }

    fn plan(&self) -> &Plan {
        self.search.plan()
    }

    fn nodes(&self) -> u64 {
        self.search.nodes()
    }

    fn left(&self) -> u64 {
        self.search.left()
    }

    fn closed(&self) -> bool {
        self.search.closed()
    }

    fn verdict(&self) -> Verdict {
        self.search.verdict()
    }

    fn best(&self) -> Option<&Schedule> {
        self.search.best()
    }

    fn fund(&mut self, quanta: u64) {
        self.search.fund(quanta);
    }

    fn advance(&mut self) {
        self.meet();
        self.search.advance();
    }

    fn settle(&mut self) {
        self.search.settle();
    }

    fn take_best(&mut self) -> Option<Schedule> {
        self.search.take_best()
    }
}
