//! The words of tills whose leases are used in several threads at once.
ghost use Rattle.std.specs.Prelude.{◌≡◌};

use crate::leases::words;
use quanta_till::{Desk, Lease, Till};
use std::alloc::AllocError;
use std::sync::{Mutex, Wait};
use std::test::Fail;
use std::thread;
use std::thread::Threads;

// Draws 7 and uses 3 of them, `rounds` times. The rest goes back by `settle`, or by the drop at the
// end.
fn spend(mut lease: Lease, rounds: u64) {
    for round in 0..rounds {
        if lease.left() == 0 {
            lease.draw(7);
        }
        for _ in 0..3 {
            if lease.left() > 0 {
                lease.use_one();
            }
        }
        if round + 1 < rounds {
            lease.settle();
        }
    }
}

// Forty leases, one after the other, of 25 rounds each: they use 3,000.
fn leases_in_turn(till: &Till, desk: &mut Desk) -> Result<(), AllocError>
    requires { desk.old.id ≡ till.now.id }
{
    for _ in 0..40 {
        spend(till.lease(desk, 1)?, 25);
    }
    Ok(())
}

#[test]
fn two_threads_add_up(rt: HostRuntime) -> Result<(), Fail> {
    let (till, mut desk) = Till::new(rt.alloc(), 1, 10_000)?;
    let mut first = till.desk(&mut desk);
    let mut second = till.desk(&mut desk);
    let (one, two) = thread::join(
        &rt,
        || leases_in_turn(&till, &mut first),
        || leases_in_turn(&till, &mut second),
    );
    one?;
    two?;
    assert!(rt; till.words(&mut desk) == words(4_000, 6_000, 10_000));
    Ok(())
}

// The leases were made by one thread. Four others draw, use and drop them at once.
#[test]
fn four_threads_add_up(rt: HostRuntime) -> Result<(), Fail> {
    let (till, mut desk) = Till::new(rt.alloc(), 1, 10_000)?;
    let first = till.lease(&mut desk, 1)?;
    let second = till.lease(&mut desk, 1)?;
    let third = till.lease(&mut desk, 1)?;
    let fourth = till.lease(&mut desk, 1)?;
    thread::join(
        &rt,
        || thread::join(&rt, || spend(first, 500), || spend(second, 500)),
        || thread::join(&rt, || spend(third, 500), || spend(fourth, 500)),
    );
    assert!(rt; till.words(&mut desk) == words(4_000, 6_000, 10_000));
    Ok(())
}

trait Work: Send + Drop {
    fn advance(&mut self);
}

#[derive(Drop)]
struct Worker {
    lease: Lease,
}

impl Work for Worker {
    fn advance(&mut self) {
        if self.lease.left() == 0 {
            self.lease.draw(10);
        }
        self.lease.use_one();
    }
}

// Takes a box to another thread. It works twice there, and is dropped.
fn end_elsewhere(rt: &impl Threads, boxed: Box<dyn Work>) -> Result<(), AllocError> {
    let child = thread::spawn(rt, move || {
        let mut boxed = boxed;
        boxed.advance();
        boxed.advance();
    })?;
    child.join(rt);
    Ok(())
}

#[test]
fn leases_in_boxes_end_in_other_threads(rt: HostRuntime) -> Result<(), Fail> {
    let (till, mut desk) = Till::new(rt.alloc(), 1, 1_000)?;
    let lease = till.lease(&mut desk, 1)?;
    let mut first: Box<dyn Work> = Box::new(rt.alloc(), Worker { lease })?;
    let lease = till.lease(&mut desk, 1)?;
    let second: Box<dyn Work> = Box::new(rt.alloc(), Worker { lease })?;
    first.advance();
    assert!(rt; till.words(&mut desk) == words(990, 1, 1_000));
    end_elsewhere(&rt, first)?;
    assert!(rt; till.words(&mut desk) == words(997, 3, 1_000));
    end_elsewhere(&rt, second)?;
    assert!(rt; till.words(&mut desk) == words(995, 5, 1_000));
    Ok(())
}

// Ten times: takes a box out of the lock, works with it outside, and puts it back.
fn take_turns<R: Wait>(rt: &R, waiting: &Mutex<Vec<Box<dyn Work>>>) {
    for _ in 0..10 {
        let taken = waiting.lock(rt).pop();
        if let Some(mut boxed) = taken {
            boxed.advance();
            let _ = waiting.lock(rt).push(boxed);
        }
    }
}

// Two threads take turns with three boxes, so that a box always waits.
#[test]
fn leases_in_boxes_wait_behind_a_lock(rt: HostRuntime) -> Result<(), Fail> {
    let (till, mut desk) = Till::new(rt.alloc(), 1, 500)?;
    let mut waiting: Vec<Box<dyn Work>> = Vec::with_capacity(rt.alloc(), 3)?;
    let lease = till.lease(&mut desk, 1)?;
    waiting.push(Box::new(rt.alloc(), Worker { lease })?)?;
    let lease = till.lease(&mut desk, 1)?;
    waiting.push(Box::new(rt.alloc(), Worker { lease })?)?;
    let lease = till.lease(&mut desk, 1)?;
    waiting.push(Box::new(rt.alloc(), Worker { lease })?)?;
    let waiting = Mutex::new(waiting);
    thread::join(
        &rt,
        || take_turns(&rt, &waiting),
        || take_turns(&rt, &waiting),
    );
    drop(waiting);
    assert!(rt; till.words(&mut desk) == words(480, 20, 500));
    Ok(())
}
