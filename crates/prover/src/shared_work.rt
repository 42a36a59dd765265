//! What the workers of a project share.
ghost use Rattle.std.specs.Prelude.{◌≡◌, ◌+◌, ◌≤◌, IfSome};
ghost use Rattle.mrcpsp.specs.Schedule.{IsFeasible, IsInfeasible, makespan};
ghost use Rattle.price_search.specs.LowerBound.{TakesAtLeast};
ghost use Rattle.schedule_prices.specs.Choices.{EachExceeds};
ghost use Rattle.prover.specs.Known.{IsBest};
ghost use Rattle.prover.specs.Decided.{IsDecided};

use crate::decide::Decision;
use crate::herald::Herald;
use crate::known::{BestKnown, Known, Question, Subject};
use crate::task::{Deadline, Limits};
use mrcpsp::{Project, Schedule, check};
use std::alloc::{AllocError, Global};
use std::sync::atomic::{AtomicBool, AtomicU64, Ordering};
use std::sync::{Mutex, Wait};
use std::thread;
use std::time::{Clock, Duration};

/// How long a worker that has nothing to ask waits between two looks, in milliseconds.
const WAIT: u64 = 20;

/// A `SharedWork` is what the workers of a project share.
#[derive(Drop)]
pub(crate) struct SharedWork<'a, F: Subject, R, H> {
    pub(crate) alloc: Global,
    pub(crate) project: &'a Project,
    pub(crate) known: &'a Mutex<Known<F>>,
    /// The conflicts of all workers.
    pub(crate) conflicts: &'a AtomicU64,
    pub(crate) deadline: Deadline<'a, R>,
    pub(crate) limits: Limits,
    /// How many workers there are.
    pub(crate) jobs: usize,
    /// A worker leads a team, or will once it is called.
    pub(crate) is_teamed: &'a AtomicBool,
    /// The question of the lowest bound is hard: it is for the team.
    pub(crate) is_called: &'a AtomicBool,
    /// A schedule to begin with.
    pub(crate) first: Option<&'a Schedule>,
    pub(crate) herald: &'a H,
    ghost same: { project.now ≡ F.project },
}

/// What a decision has changed.
#[derive(Clone, Copy, Debug, PartialEq, Eq)]
pub(crate) enum Gain {
    Shorter,
    Higher,
    Nothing,
}

impl<F: Subject, R: Wait + Clock, H: Herald> SharedWork<'_, F, R, H> {
    pub(crate) fn is_decided(&self) -> bool {
        self.known.lock(self.deadline.rt).is_decided()
    }

    pub(crate) fn is_moot(&self, question: Question) -> bool {
        self.known.lock(self.deadline.rt).is_moot(question)
    }

    pub(crate) fn count(&self, conflicts: u64) {
        let _ = self.conflicts.fetch_add(conflicts, Ordering::SeqCst);
    }

    /// The lower bound, and the makespan of the best schedule if there is one.
    pub(crate) fn gap(&self) -> (u32, Option<u32>) {
        let known = self.known.lock(self.deadline.rt);
        (known.bound(), known.makespan())
    }

    /// Calls the team, if a schedule is known.
    pub(crate) fn call_the_team(&self) {
        if let (_, Some(_)) = self.gap() {
            self.is_called.store(true, Ordering::SeqCst);
        }
    }

    pub(crate) fn is_called(&self) -> bool {
        self.is_called.load(Ordering::SeqCst)
    }

    /// Whether the team asks all that is left for clauses.
    pub(crate) fn is_left_to_the_team(&self) -> bool {
        self.is_teamed.load(Ordering::SeqCst) && self.is_called() && !self.is_decided()
    }

    /// Waits for a moment.
    pub(crate) fn wait(&self) {
        thread::sleep(self.deadline.rt, Duration::from_millis(WAIT));
    }

    /// Waits while all that is left is asked by the team.
    pub(crate) fn rest(&self) {
        for _ in self.deadline.rt.forever() {
            if self.deadline.is_over() || !self.is_left_to_the_team() {
                return;
            }
            self.wait();
        }
    }

    /// Keeps a schedule if it is shorter than the best one.
    pub(crate) fn offer(&self, best: BestKnown)
        requires { IsBest F.project best }
    {
        let mut known = self.known.lock(self.deadline.rt);
        if !known.offer(best) {
            return;
        }
        if let Some(best) = known.best() {
            self.herald.better(self.project, best, known.bound());
        }
    }

    /// Raises the bound.
    pub(crate) fn raise(&self, bound: u32)
        requires { TakesAtLeast F.project bound }
    {
        let mut known = self.known.lock(self.deadline.rt);
        if known.raise(bound) {
            self.herald.higher(self.project, bound);
        }
    }

    /// Keeps a copy of a schedule if it is feasible and shorter than the best one.
    pub(crate) fn offer_copy(&self, schedule: &Schedule) -> Result<(), AllocError> {
        let copy = Schedule {
            modes: schedule.modes.clone_in(self.alloc)?,
            starts: schedule.starts.clone_in(self.alloc)?,
        };
        if let Ok(makespan) = check(self.project, &copy) {
            self.offer(BestKnown {
                schedule: copy,
                makespan,
            });
        }
        Ok(())
    }

    /// Keeps a copy of the schedule to begin with, if it is feasible.
    pub(crate) fn offer_first(&self) -> Result<(), AllocError> {
        match self.first {
            Some(schedule) => self.offer_copy(schedule),
            None => Ok(()),
        }
    }

    /// Takes the answer to a question in.
    #[tactic(auto, using(crate::proofs::SharedWorkLemmas::bound_rules))]
    pub(crate) fn take_in(&self, question: Question, decision: Decision) -> Gain
        requires { IsDecided F.project question.within decision }
    {
        match decision {
            Decision::Found(best) => {
                self.offer(best);
                Gain::Shorter
            }
            Decision::None => {
                if question.within < u32::MAX {
                    self.raise(question.within + 1);
                }
                Gain::Higher
            }
            Decision::Open => Gain::Nothing,
            Decision::Full => Gain::Nothing,
        }
    }

    pub(crate) fn rule_out(&self)
        requires { IsInfeasible F.project }
    {
        self.known.lock(self.deadline.rt).rule_out();
    }
}
