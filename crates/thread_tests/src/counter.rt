//! A counter: a number that takes what is added as long as it fits.
ghost use Rattle.std.specs.Prelude.{◌≡◌, [], ⊤};
ghost use Rattle.thread_tests.specs.Counting.{total};

use std::alloc::Global;
use turn_lock::{Kept, Runs};

#[derive(Clone, Copy, Debug, PartialEq, Eq)]
pub struct Added {
    pub amount: u64,
}

#[derive(Drop)]
pub enum Ask {
    Add(u64),
    Total,
}

/// A `Reply` is the answer of a counter.
#[derive(Clone, Copy, Debug, PartialEq, Eq, Drop)]
pub enum Reply {
    /// The number after the call.
    Is(u64),
    /// The sum does not fit, or there is no memory.
    NoRoom,
}

/// A `Counter` is a number, and all that was added to it.
#[derive(Drop)]
pub struct Counter {
    start: u64,
    sum: u64,
    history: Vec<Added>,
    ghost replays: { sum ≡ total start history.items },
}

impl Counter {
    pub fn new(alloc: Global, start: u64) -> Counter
        ensures opening { result.start ≡ start }
        ensures empty { result.history.items ≡ [] }
    {
        Counter {
            start,
            sum: start,
            history: Vec::new(alloc),
        }
    }

    /// In the order of the calls.
    pub fn added(&self) -> &[Added]
        ensures { result.now ≡ self.now.history.items }
    {
        self.history.as_slice()
    }
}

impl Kept for Counter {
    type Said = Ask;

    type Told = Reply;

    type Event = Added;

    type Opening = u64;

    ghost use Rattle.thread_tests.specs.Counting.{Counted};

    ghost opening = { λ c. c.start };

    ghost events = { λ c. c.history.items };

    ghost relation = { Counted };

    fn events(&self) -> u64 {
        self.history.len() as u64
    }
}

impl Runs for Counter {
    type Call = Ask;

    type Answer = Reply;

    type Says = Ask;

    type Tells = Reply;

    ghost use Rattle.std.specs.Prelude.{⊤};
    ghost use Rattle.thread_tests.specs.Counting.{Counts};

    ghost said = { λ call. call };

    ghost told = { λ answer. answer };

    ghost may = { λ counter call. ⊤ };

    ghost does = { λ old call answer new. Counts old.start old.history.items call answer new.start new.history.items };

    fn apply(&mut self, call: Ask) -> Reply {
        match call {
            Ask::Total => Reply::Is(self.sum),
            Ask::Add(amount) => {
                if amount > u64::MAX - self.sum {
                    return Reply::NoRoom;
                }
                match self.history.push(Added { amount }) {
                    Ok(()) => {
                        self.sum += amount;
                        Reply::Is(self.sum)
                    }
                    Err(_) => Reply::NoRoom,
                }
            }
        }
    }
}
