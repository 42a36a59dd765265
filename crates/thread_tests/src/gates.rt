//! Gates.
use farm_pool::Gate;
use std::alloc::Global;
use std::sync::Arc;
use std::sync::atomic::{AtomicU64, Ordering};

const MOST_POLLS: u64 = 1_000_000_000;

/// A gate that holds nobody. A worker ends if it finds nothing to take.
pub(crate) struct Open;

impl Gate for Open {
    fn before(&self, _tenant: u32, _seq: u64) {}

    fn after(&self, _tenant: u32, _seq: u64) {}

    fn idle(&self) -> bool {
        false
    }
}

/// A gate that holds nobody, and counts how often its worker asked whether to go on. It ends then.
#[derive(Drop)]
pub(crate) struct Counting {
    times: AtomicU64,
}

impl Counting {
    pub(crate) fn new() -> Counting {
        Counting {
            times: AtomicU64::new(0),
        }
    }

    pub(crate) fn asked(&self) -> u64 {
        self.times.load(Ordering::SeqCst)
    }
}

impl Gate for Counting {
    fn before(&self, _tenant: u32, _seq: u64) {}

    fn after(&self, _tenant: u32, _seq: u64) {}

    fn idle(&self) -> bool {
        self.times.fetch_add(1, Ordering::SeqCst);
        false
    }
}

/// The first to come waits for the second.
#[derive(Drop)]
pub(crate) struct Meeting {
    come: AtomicU64,
    /// How many have gone on without another one.
    alone: AtomicU64,
}

impl Meeting {
    pub(crate) fn new() -> Meeting {
        Meeting {
            come: AtomicU64::new(0),
            alone: AtomicU64::new(0),
        }
    }

    /// Comes, and goes on at once.
    fn come(&self) {
        self.come.fetch_add(1, Ordering::SeqCst);
    }

    fn here(&self) -> u64 {
        self.come.load(Ordering::SeqCst)
    }

    /// Comes, and waits for another one.
    pub(crate) fn wait(&self) {
        self.come();
        for _ in 0..MOST_POLLS {
            if self.here() >= 2 {
                return;
            }
        }
        self.alone.fetch_add(1, Ordering::SeqCst);
    }

    /// Whether two have come, and nobody has gone on alone.
    pub(crate) fn was_met(&self) -> bool {
        self.here() >= 2 && self.alone.load(Ordering::SeqCst) == 0
    }
}

/// A gate that holds the first turn until a second one has begun.
#[derive(Drop)]
pub(crate) struct Pair {
    pub(crate) meeting: Meeting,
}

impl Gate for Pair {
    fn before(&self, _tenant: u32, _seq: u64) {
        self.meeting.wait();
    }

    fn after(&self, _tenant: u32, _seq: u64) {}

    fn idle(&self) -> bool {
        false
    }
}

/// A gate for one turn, whose first node comes to a meeting. The gate comes there before the node,
/// and leaves after it.
#[derive(Drop)]
pub(crate) struct Escort {
    meeting: Arc<Meeting, Global>,
    /// How often a node had come before the gate, or had not come when it was left.
    astray: AtomicU64,
}

impl Escort {
    pub(crate) fn new(meeting: Arc<Meeting, Global>) -> Escort {
        Escort {
            meeting,
            astray: AtomicU64::new(0),
        }
    }

    pub(crate) fn has_met(&self) -> bool {
        self.meeting.was_met() && self.astray.load(Ordering::SeqCst) == 0
    }

    /// Counts it as astray if not `wanted` have come.
    fn look(&self, wanted: u64) {
        if self.meeting.here() != wanted {
            self.astray.fetch_add(1, Ordering::SeqCst);
        }
    }
}

impl Gate for Escort {
    fn before(&self, _tenant: u32, _seq: u64) {
        self.look(0);
        self.meeting.come();
    }

    fn after(&self, _tenant: u32, _seq: u64) {
        self.look(2);
    }

    fn idle(&self) -> bool {
        false
    }
}

/// A gate that checks whether each turn ends before its worker's next one. Its worker goes on
/// twice.
#[derive(Drop)]
pub(crate) struct Witness {
    /// Whose turn is inside: 0, or 1,000 for each tenant before its own, and the job's number.
    inside: AtomicU64,
    /// The turns of the first tenant that went out.
    of_a: AtomicU64,
    /// The turns of the second tenant that went out.
    of_b: AtomicU64,
    /// The turns that came in or went out at a wrong time.
    astray: AtomicU64,
    /// How often the worker asked whether to go on.
    asked: AtomicU64,
}

impl Witness {
    pub(crate) fn new() -> Witness {
        Witness {
            inside: AtomicU64::new(0),
            of_a: AtomicU64::new(0),
            of_b: AtomicU64::new(0),
            astray: AtomicU64::new(0),
            asked: AtomicU64::new(0),
        }
    }

    /// Whether each turn went through in its time, with these counts of turns and of questions.
    pub(crate) fn has_seen(&self, of_a: u64, of_b: u64, asked: u64) -> bool {
        let turns = (
            self.of_a.load(Ordering::SeqCst),
            self.of_b.load(Ordering::SeqCst),
        );
        let rest = (
            self.astray.load(Ordering::SeqCst),
            self.asked.load(Ordering::SeqCst),
        );
        turns == (of_a, of_b) && rest == (0, asked)
    }

    /// Puts `to` inside, and counts it as astray if `from` was not there.
    fn change(&self, from: u64, to: u64) {
        if self.inside.load(Ordering::SeqCst) != from {
            self.astray.fetch_add(1, Ordering::SeqCst);
        }
        self.inside.store(to, Ordering::SeqCst);
    }
}

fn mark_of(tenant: u32, seq: u64) -> u64 {
    u64::from(tenant).saturating_mul(1000).saturating_add(seq)
}

impl Gate for Witness {
    fn before(&self, tenant: u32, seq: u64) {
        self.change(0, mark_of(tenant, seq));
    }

    fn after(&self, tenant: u32, seq: u64) {
        self.change(mark_of(tenant, seq), 0);
        let count = if tenant == 0 { &self.of_a } else { &self.of_b };
        count.fetch_add(1, Ordering::SeqCst);
    }

    fn idle(&self) -> bool {
        self.asked.fetch_add(1, Ordering::SeqCst) < 2
    }
}
