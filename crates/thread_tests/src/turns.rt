//! A counter under the lock, at which many threads take turns.
use crate::{Added, Counter, crowd};
use std::test::Fail;
use turn_lock::TurnLock;

/// Whether each thread's answers are the sums at its own entries, in order. Thread i adds i + 1,
/// and the last thread comes first.
fn stands(start: u64, history: &[Added], told: &[Vec<u64>]) -> bool {
    let mut now = start;
    let mut next: [usize; 16] = [0; 16];
    for added in history.iter() {
        now = now.wrapping_add(added.amount);
        let thread = (added.amount.wrapping_sub(1) % 16) as usize;
        let row = told.len().wrapping_sub(1).wrapping_sub(thread);
        let Some(answers) = told.get(row) else {
            return false;
        };
        if answers.get(next[thread]) != Some(&now) {
            return false;
        }
        next[thread] = next[thread].wrapping_add(1);
    }
    true
}

#[test]
fn each_call_stands_once_in_one_history(rt: HostRuntime) -> Result<(), Fail> {
    for (threads, calls) in [(2, 20000), (4, 10000), (16, 2500)] {
        let made = TurnLock::new(rt.alloc(), Counter::new(rt.alloc(), 5));
        let (lock, pass) = made.ok().ok_or("memory")?;
        let (pass, told) = crowd(&rt, rt.alloc(), &lock, pass, threads, calls);
        let counter = lock.close(pass).ok_or("a counter")?;
        let history = counter.added();
        assert!(rt;
            told.len() as u64 == threads && history.len() as u64 == threads.wrapping_mul(calls)
        );
        assert!(rt; stands(5, history, &told));
    }
    Ok(())
}
