//! What workers are asked for, and when they have to end.
use crate::known::Answer;
use mrcpsp::Schedule;
use std::sync::Wait;
use std::sync::atomic::{AtomicBool, Ordering};
use std::time::{Clock, Duration, Instant};

/// The limits of a run.
#[derive(Clone, Copy, Debug)]
pub struct Limits {
    /// The time that all workers have, or none.
    pub time: Option<Duration>,
    /// The most words of four bytes that a worker's search holds in clauses.
    pub words: usize,
    /// The most conflicts of all searches of a worker.
    pub conflicts: u64,
}

/// A `ProofTask` is how a project is worked on.
#[derive(Clone, Copy, Debug)]
pub struct ProofTask<'a> {
    /// How many workers there are.
    pub jobs: usize,
    pub limits: Limits,
    /// A schedule to begin with. It is checked.
    pub first: Option<&'a Schedule>,
    /// The workers end soon after it is set.
    pub stop: &'a AtomicBool,
}

/// A `Proved` is what is known in the end, with the conflicts of all workers.
#[derive(Debug, Drop)]
pub struct Proved {
    pub answer: Answer,
    pub conflicts: u64,
}

/// A `Pace` is how much of a time limit is spent, and how much is left.
#[derive(Clone, Copy, Debug)]
pub struct Pace {
    pub spent: Duration,
    pub left: Duration,
}

/// A `Deadline` is when all workers have to end.
#[derive(Debug, Drop)]
pub(crate) struct Deadline<'a, R> {
    pub(crate) rt: &'a R,
    pub(crate) begun: Instant,
    pub(crate) time: Option<Duration>,
    pub(crate) stop: &'a AtomicBool,
}

impl<R: Wait + Clock> Deadline<'_, R> {
    pub(crate) fn is_over(&self) -> bool {
        if self.stop.load(Ordering::SeqCst) {
            return true;
        }
        let Some(limit) = self.time else {
            return false;
        };
        match self.begun.elapsed(self.rt) {
            Ok(spent) => spent >= limit,
            Err(_) => true,
        }
    }

    /// `None` without a time limit, or without a clock.
    pub(crate) fn pace(&self) -> Option<Pace> {
        let limit = self.time?;
        let spent = self.begun.elapsed(self.rt).ok()?;
        Some(Pace {
            spent,
            left: limit.saturating_sub(spent),
        })
    }

    /// Ends all workers, if there is no time limit.
    pub(crate) fn end(&self) {
        if self.time.is_none() {
            self.stop.store(true, Ordering::SeqCst);
        }
    }
}
