//! What each worker does.
ghost use Rattle.std.specs.Prelude.{◌≡◌, ◌<◌, ◌≤◌, IfOk, IfSome, IfNone, IsSomeAnd};

use crate::decide::{SearchObserver, decide_within, exceeds_stocks};
use crate::herald::Herald;
use crate::improver::Improver;
use crate::known::{Question, Subject};
use crate::shared_work::{Gain, SharedWork};
use crate::team::ask_together;
use price_search::lower_bound;
use schedule_clauses::CertificateFault;
use std::alloc::AllocError;
use std::sync::Wait;
use std::sync::atomic::Ordering;
use std::thread::Threads;
use std::time::Clock;

/// A `Lane` is what a worker does.
#[derive(Clone, Copy, Debug, PartialEq, Eq)]
pub enum Lane {
    /// Prices, then bounds from below by clauses.
    Low,
    /// A schedule a period shorter than the best one, by clauses.
    High,
    /// Local search; once the team is called, a schedule a third of the way from the bound to the
    /// best one, by a team of searches of clauses.
    Middle,
    /// Local search.
    Improve,
}

/// A `Worker` is a lane with the seed of its local search.
#[derive(Clone, Copy, Debug)]
pub struct Worker {
    pub lane: Lane,
    pub seed: u64,
}

/// The steps of prices for a question.
pub(crate) const PRICE_STEPS: u32 = 1_000;

/// The schedules of local search between two looks at what is known.
pub(crate) const CHUNK: u64 = 256;

/// The most conflicts between two looks at a search.
pub(crate) const SLICE: u64 = 200;

/// The conflicts of a question of the lowest bound after which the team is called.
const HARD: u64 = 10_000;

/// The conflicts of a question that is more than a period above the bound.
pub(crate) const LEAP: u64 = 2_000;

/// A `Shift` is a worker with the question that it asks.
#[derive(Drop)]
struct Shift<'a, 'b, F: Subject, R, H> {
    shared: &'a SharedWork<'b, F, R, H>,
    lane: Lane,
    improver: Improver,
    question: Question,
    /// The most conflicts of the question.
    most: u64,
    conflicts: u64,
}

impl<F: Subject, R: Wait + Clock, H: Herald> SearchObserver for Shift<'_, '_, F, R, H> {
    fn look(&mut self, conflicts: u64) -> u64 {
        let shared = self.shared;
        if self.lane == Lane::Low && conflicts >= HARD {
            shared.call_the_team();
        }
        if shared.deadline.is_over()
            || shared.is_moot(self.question)
            || shared.is_left_to_the_team()
        {
            return 0;
        }
        SLICE.min(self.most.saturating_sub(conflicts))
    }

    fn end(&mut self, conflicts: u64) {
        self.conflicts = conflicts;
        self.shared.count(conflicts);
    }
}

/// The question of a lane at a distance from the bound, or `None` if nothing is open.
pub(crate) fn question_of(
    lane: Lane,
    bound: u32,
    makespan: Option<u32>,
    stride: u32,
) -> Option<Question>
    ensures bound { IfSome result (λ question. bound ≤ question.within) }
    ensures shorter { IfSome result (λ question. IfSome makespan (λ m. question.within < m)) }
    ensures none { IfNone result (IsSomeAnd makespan (λ m. m ≤ bound)) }
{
    let highest = match makespan {
        Some(makespan) => {
            if makespan <= bound {
                return None;
            }
            makespan - 1
        }
        None => u32::MAX,
    };
    let within = match lane {
        Lane::High => highest,
        Lane::Middle => bound + (highest - bound.min(highest)) / 3,
        _ => bound.saturating_add(stride - stride.min(1)).min(highest),
    };
    Some(Question { within })
}

/// Asks the question. Only want of memory is an error; a question of too many clauses decides
/// nothing.
fn ask<F: Subject, R: Wait + Clock, H: Herald>(
    shift: &mut Shift<'_, '_, F, R, H>,
) -> Result<Gain, AllocError> {
    let (shared, question) = (shift.shared, shift.question);
    shift.conflicts = 0;
    match decide_within(
        shared.alloc,
        shared.project,
        question.within,
        shared.limits.words,
        shift,
    ) {
        Ok(decision) => Ok(shared.take_in(question, decision)),
        Err(CertificateFault::NoMemory) => Err(AllocError),
        Err(_) => Ok(Gain::Nothing),
    }
}

/// The bound of prices; and whether no choice of modes keeps the stocks, if no schedule is known.
fn begin<F: Subject, R: Wait + Clock, H: Herald>(
    shift: &mut Shift<'_, '_, F, R, H>,
) -> Result<(), AllocError> {
    let shared = shift.shared;
    shared.offer_first()?;
    shared.raise(lower_bound(shared.alloc, shared.project, PRICE_STEPS)?);
    let (_, makespan) = shared.gap();
    if makespan.is_some() {
        return Ok(());
    }
    shift.question = Question { within: u32::MAX };
    shift.most = shared.limits.conflicts;
    if exceeds_stocks(shared.alloc, shared.project, shared.limits.words, shift)? {
        shared.rule_out();
    }
    Ok(())
}

/// How far above the bound the next question is.
pub(crate) fn stride_after(stride: u32, taken: Gain, conflicts: u64) -> u32
    ensures { 0 < result }
{
    match taken {
        Gain::Higher => {
            if conflicts < LEAP {
                stride.max(1).saturating_mul(2)
            } else {
                1
            }
        }
        Gain::Shorter => 1,
        Gain::Nothing => (stride / 2).max(1),
    }
}

/// Asks the question of the stride. Returns the next stride, or `None` if the worker has to stop.
fn step<F: Subject, R: Wait + Clock, H: Herald>(
    shift: &mut Shift<'_, '_, F, R, H>,
    stride: u32,
    left: u64,
) -> Result<Option<u32>, AllocError> {
    let shared = shift.shared;
    shared.rest();
    let (bound, makespan) = shared.gap();
    let Some(question) = question_of(Lane::Low, bound, makespan, stride) else {
        return Ok(None);
    };
    if shared.deadline.is_over() || shared.is_decided() || left == 0 {
        return Ok(None);
    }
    shift.question = question;
    shift.most = if stride > 1 { LEAP.min(left) } else { left };
    let taken = ask(shift)?;
    let is_left = shared.is_left_to_the_team();
    if taken == Gain::Nothing && stride <= 1 && !shared.is_moot(question) && !is_left {
        return Ok(None);
    }
    Ok(Some(stride_after(stride, taken, shift.conflicts)))
}

/// Refutes bounds from below until nothing is open, or a question ends without an answer.
fn climb<F: Subject, R: Wait + Clock, H: Herald>(
    shift: &mut Shift<'_, '_, F, R, H>,
) -> Result<(), AllocError> {
    begin(shift)?;
    let shared = shift.shared;
    let (mut stride, mut left) = (1u32, shared.limits.conflicts);
    for _ in shared.deadline.rt.forever() {
        match step(shift, stride, left)? {
            Some(next) => stride = next,
            None => return Ok(()),
        }
        left = left.saturating_sub(shift.conflicts);
    }
    Ok(())
}

/// Generates a chunk of schedules. Returns false if there is nothing to search.
fn improve_once<F: Subject, R: Wait + Clock, H: Herald>(
    shift: &mut Shift<'_, '_, F, R, H>,
) -> Result<bool, AllocError> {
    let shared = shift.shared;
    let pace = if shift.improver.is_ended() {
        shared.deadline.pace()
    } else {
        None
    };
    let goes_on = (shift.improver).work(shared.alloc, shared.project, CHUNK, pace)?;
    if let Some(schedule) = shift.improver.news() {
        shared.offer_copy(schedule)?;
    }
    Ok(goes_on)
}

/// Asks the question of the lane. Returns false if it was left open.
fn ask_of_lane<F: Subject + Send + Sync, R: Threads + Wait + Clock + Sync, H: Herald + Sync>(
    shift: &mut Shift<'_, '_, F, R, H>,
    question: Question,
) -> Result<bool, AllocError> {
    let shared = shift.shared;
    shift.question = question;
    shift.most = shared.limits.conflicts;
    if shift.lane == Lane::Middle {
        ask_together(shared, question)?;
        return Ok(shared.is_moot(question));
    }
    let is_answered = ask(shift)? != Gain::Nothing;
    Ok(is_answered || shared.is_moot(question) || shared.is_left_to_the_team())
}

/// Asks for shorter schedules until nothing is open, or a question ends without an answer.
fn descend<F: Subject + Send + Sync, R: Threads + Wait + Clock + Sync, H: Herald + Sync>(
    shift: &mut Shift<'_, '_, F, R, H>,
) -> Result<(), AllocError> {
    let shared = shift.shared;
    for _ in shared.deadline.rt.forever() {
        if shift.lane == Lane::High {
            shared.rest();
        }
        let (bound, makespan) = shared.gap();
        let Some(question) = question_of(shift.lane, bound, makespan, 1) else {
            return Ok(());
        };
        if shared.deadline.is_over() || shared.is_decided() {
            return Ok(());
        }
        let goes_on = if makespan.is_none() {
            improve_once(shift)?
        } else {
            ask_of_lane(shift, question)?
        };
        if !goes_on {
            return Ok(());
        }
    }
    Ok(())
}

/// Searches for shorter schedules until the team is called.
fn await_call<F: Subject, R: Wait + Clock, H: Herald>(
    shift: &mut Shift<'_, '_, F, R, H>,
) -> Result<(), AllocError> {
    let shared = shift.shared;
    for _ in shared.deadline.rt.forever() {
        if shared.deadline.is_over() || shared.is_decided() || shared.is_called() {
            return Ok(());
        }
        if !improve_once(shift)? {
            shared.wait();
        }
    }
    Ok(())
}

/// Improves, and once the team is called asks its questions.
fn lead<F: Subject + Send + Sync, R: Threads + Wait + Clock + Sync, H: Herald + Sync>(
    shift: &mut Shift<'_, '_, F, R, H>,
) -> Result<(), AllocError> {
    let is_teamed = shift.shared.is_teamed;
    is_teamed.store(true, Ordering::SeqCst);
    let descended = match await_call(shift) {
        Ok(()) => descend(shift),
        Err(fault) => Err(fault),
    };
    is_teamed.store(false, Ordering::SeqCst);
    descended
}

/// Searches for shorter schedules until nothing is open.
fn improve<F: Subject, R: Wait + Clock, H: Herald>(
    shift: &mut Shift<'_, '_, F, R, H>,
) -> Result<(), AllocError> {
    let shared = shift.shared;
    for _ in shared.deadline.rt.forever() {
        if shared.deadline.is_over() || shared.is_decided() || !improve_once(shift)? {
            return Ok(());
        }
    }
    Ok(())
}

/// Works as the lane asks, and then, if there is a time limit, improves. Without one, all workers
/// end with the one that raises the bound: its conflicts or its memory are used up.
fn run_lane<F: Subject + Send + Sync, R: Threads + Wait + Clock + Sync, H: Herald + Sync>(
    shift: &mut Shift<'_, '_, F, R, H>,
) -> Result<(), AllocError> {
    match shift.lane {
        Lane::Low => {
            let climbed = climb(shift);
            shift.shared.call_the_team();
            shift.shared.deadline.end();
            climbed?;
        }
        Lane::High => descend(shift)?,
        Lane::Middle => lead(shift)?,
        Lane::Improve => improve(shift)?,
    }
    if shift.shared.limits.time.is_some() {
        improve(shift)?;
    }
    Ok(())
}

fn shift_at<'a, 'b, F: Subject, R, H>(
    shared: &'a SharedWork<'b, F, R, H>,
    worker: Worker,
) -> Shift<'a, 'b, F, R, H> {
    Shift {
        shared,
        lane: worker.lane,
        improver: Improver::new(worker.seed),
        question: Question { within: u32::MAX },
        most: shared.limits.conflicts,
        conflicts: 0,
    }
}

/// Works until nothing is open, the limits are met, or memory is wanting.
pub(crate) fn work<F: Subject + Send + Sync, R: Threads + Wait + Clock + Sync, H: Herald + Sync>(
    shared: &SharedWork<'_, F, R, H>,
    worker: Worker,
) {
    let mut shift = shift_at(shared, worker);
    let _ = run_lane(&mut shift);
}
