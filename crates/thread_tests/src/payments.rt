//! When a search pays: a till's words while its nodes run.
ghost use Rattle.std.specs.Prelude.{◌≡◌};

use crate::fixtures::sample_of;
use crate::leases::words;
use quanta_till::{Desk, Till};
use sample_search::SampleSearch;
use std::sync::atomic::{AtomicU64, Ordering};
use std::test::Fail;
use std::thread;
use strategy::Strategy;

/// The nodes of one thread: they take far longer than the other thread's looks.
const NODES: u64 = 300_000;

/// How often the other thread looks.
const LOOKS: u64 = 1_000;

const MOST_POLLS: u64 = 1_000_000_000;

/// How far the thread that runs nodes has come.
#[derive(Drop)]
struct Progress {
    begun: AtomicU64,
    ended: AtomicU64,
}

impl Progress {
    fn new() -> Progress {
        Progress {
            begun: AtomicU64::new(0),
            ended: AtomicU64::new(0),
        }
    }

    fn run(&self, search: &mut SampleSearch) -> u64 {
        if search.closed() {
            return 0;
        }
        self.begun.store(1, Ordering::SeqCst);
        let ran = search.run(NODES);
        self.ended.store(1, Ordering::SeqCst);
        ran
    }

    /// Waits until the nodes begin.
    fn wait(&self) {
        for _ in 0..MOST_POLLS {
            if self.begun.load(Ordering::SeqCst) > 0 {
                return;
            }
        }
    }

    /// Returns how often something was spent before the nodes had ended.
    fn looks(&self, till: &Till, desk: &mut Desk) -> u64
        requires { desk.old.id ≡ till.now.id }
    {
        self.wait();
        let mut early = 0u64;
        for _ in 0..LOOKS {
            let is_spent = till.words(desk).spent > 0;
            if is_spent && self.ended.load(Ordering::SeqCst) == 0 {
                early = early.saturating_add(1);
            }
        }
        early
    }
}

// A search pays at the end of a run: nothing is spent while its nodes run. A look may fall between
// payment and end; half of the looks may not.
#[test]
fn nodes_are_paid_once_they_have_run(rt: HostRuntime) -> Result<(), Fail> {
    let (till, mut desk) = Till::new(rt.alloc(), 1, NODES)?;
    let mut beside = till.desk(&mut desk);
    let mut search = sample_of(&rt, rt.alloc(), till.lease(&mut desk, 1)?);
    assert!(rt; !search.closed() && search.nodes() == 0 && search.left() == 0);
    search.fund(NODES);
    let progress = Progress::new();
    let (ran, early) = thread::join(
        &rt,
        || progress.run(&mut search),
        || progress.looks(&till, &mut beside),
    );
    drop(search);
    assert!(rt; ran == NODES);
    assert!(rt; early < LOOKS / 2);
    assert!(rt; till.words(&mut desk) == words(0, NODES, NODES));
    Ok(())
}
