//! The only worker, without threads, locks or a clock: what it does follows from the project, its
//! allowance and its overseer alone.
ghost use Rattle.std.specs.Prelude.{◌≡◌, ◌≤◌, ◌<◌, IfOk, IfSome};
ghost use Rattle.std.specs.Option.{option_copied};
ghost use Rattle.mrcpsp.specs.Schedule.{IsInfeasible};
ghost use Rattle.price_search.specs.LowerBound.{TakesAtLeast};
ghost use Rattle.prover.specs.Answers.{IsAnswer};
ghost use Rattle.prover.specs.Decided.{IsDecided};
ghost use Rattle.prover.specs.Known.{IsBest};

use crate::decide::{Decision, SearchObserver, decide_within, exceeds_stocks};
use crate::improver::Improver;
use crate::known::{BestKnown, Known, Question, Subject};
use crate::lanes::{CHUNK, LEAP, Lane, PRICE_STEPS, SLICE, question_of, stride_after};
use crate::shared_work::Gain;
use crate::task::{Pace, Proved};
use mrcpsp::{Project, Schedule, check};
use price_search::lower_bound;
use schedule_clauses::CertificateFault;
use std::alloc::{AllocError, Global};
use std::marker::Brand;

/// The chunks of local search before the first question.
const FIRST_CHUNKS: u32 = 80;

/// The seed of its local search.
const SEED: u64 = 1;

/// An `Overseer` is what looks at the only worker now and then.
pub trait Overseer {
    /// Returns whether the worker goes on. It has had `conflicts` conflicts, and no schedule takes
    /// fewer periods than `bound`.
    fn look(
        &mut self,
        project: &Project,
        conflicts: u64,
        best: Option<&BestKnown>,
        bound: u32,
    ) -> bool
        requires best { IfSome (option_copied best) (IsBest project.now) }
        requires bound { TakesAtLeast project.now bound };

    /// The worker's time limit, if it has one.
    fn pace(&self) -> Option<Pace>;
}

/// An `Allowance` is what the only worker may use.
#[derive(Clone, Copy, Debug)]
pub struct Allowance {
    /// The most words of four bytes that a search holds in clauses.
    pub words: usize,
    /// The most conflicts of all searches.
    pub conflicts: u64,
    /// Whether local search goes on behind the last question, until the overseer ends it.
    pub is_endless: bool,
}

/// A `Notebook` is what the only worker knows of its project.
#[derive(Drop)]
struct Notebook<'a, F: Subject> {
    alloc: Global,
    project: &'a Project,
    known: Known<F>,
    ghost same: { project.now ≡ F.project },
}

impl<F: Subject> Notebook<'_, F> {
    /// Keeps a copy of a schedule if it is feasible and shorter than the best one.
    fn offer_copy(&mut self, schedule: &Schedule) -> Result<(), AllocError> {
        let copy = Schedule {
            modes: schedule.modes.clone_in(self.alloc)?,
            starts: schedule.starts.clone_in(self.alloc)?,
        };
        if let Ok(makespan) = check(self.project, &copy) {
            self.known.offer(BestKnown {
                schedule: copy,
                makespan,
            });
        }
        Ok(())
    }

    fn raise(&mut self, bound: u32)
        requires { TakesAtLeast F.project bound }
        ensures { bound ≤ self.new.known.bound }
    {
        self.known.raise(bound);
    }

    fn rule_out(&mut self)
        requires { IsInfeasible F.project }
    {
        self.known.rule_out();
    }

    /// Takes the answer to a question in.
    #[tactic(auto, using(crate::proofs::SharedWorkLemmas::bound_rules))]
    fn take_in(&mut self, question: Question, decision: Decision) -> Gain
        requires { IsDecided F.project question.within decision }
        ensures { decision ≡ Decision.None → question.within < u32.MAX
            → question.within < self.new.known.bound }
    {
        match decision {
            Decision::Found(best) => {
                self.known.offer(best);
                Gain::Shorter
            }
            Decision::None => {
                if question.within < u32::MAX {
                    self.raise(question.within + 1);
                }
                Gain::Higher
            }
            Decision::Open => Gain::Nothing,
            Decision::Full => Gain::Nothing,
        }
    }
}

/// A `Solo` is the only worker, with the question that it asks.
#[derive(Drop)]
struct Solo<'a, F: Subject, O> {
    notebook: Notebook<'a, F>,
    overseer: O,
    improver: Improver,
    allowance: Allowance,
    /// The conflicts before the question.
    spent: u64,
    question: Question,
    /// The most conflicts of the question.
    most: u64,
    conflicts: u64,
    is_over: bool,
}

impl<F: Subject, O: Overseer> SearchObserver for Solo<'_, F, O> {
    fn look(&mut self, conflicts: u64) -> u64 {
        self.conflicts = conflicts;
        let _ = self.improve_once();
        if self.is_over || self.notebook.known.is_moot(self.question) {
            return 0;
        }
        SLICE.min(self.most.saturating_sub(conflicts))
    }

    fn end(&mut self, conflicts: u64) {
        self.conflicts = 0;
        self.spent = self.spent.saturating_add(conflicts);
    }
}

impl<F: Subject, O: Overseer> Solo<'_, F, O> {
    fn left(&self) -> u64 {
        self.allowance.conflicts.saturating_sub(self.spent)
    }

    fn show(&mut self) {
        let notebook = &self.notebook;
        let known = &notebook.known;
        let conflicts = self.spent.saturating_add(self.conflicts);
        if !self
            .overseer
            .look(notebook.project, conflicts, known.best(), known.bound())
        {
            self.is_over = true;
        }
    }

    /// Generates a chunk of schedules. Returns false if there is nothing to search.
    fn improve_once(&mut self) -> Result<bool, AllocError> {
        let (alloc, project) = (self.notebook.alloc, self.notebook.project);
        let pace = if self.improver.is_ended() {
            self.overseer.pace()
        } else {
            None
        };
        let goes_on = self.improver.work(alloc, project, CHUNK, pace)?;
        if let Some(schedule) = self.improver.news() {
            self.notebook.offer_copy(schedule)?;
        }
        self.show();
        Ok(goes_on)
    }
}

/// Asks the question. Only want of memory is an error; a question of too many clauses decides
/// nothing.
fn ask<F: Subject, O: Overseer>(solo: &mut Solo<'_, F, O>) -> Result<Gain, AllocError> {
    let (alloc, project, question) = (solo.notebook.alloc, solo.notebook.project, solo.question);
    let words = solo.allowance.words;
    match decide_within(alloc, project, question.within, words, solo) {
        Ok(decision) => Ok(solo.notebook.take_in(question, decision)),
        Err(CertificateFault::NoMemory) => Err(AllocError),
        Err(_) => Ok(Gain::Nothing),
    }
}

/// Improves for a while; then the bound of prices, and whether no choice of modes keeps the stocks,
/// if no schedule is known.
fn begin<F: Subject, O: Overseer>(solo: &mut Solo<'_, F, O>) -> Result<(), AllocError> {
    for _ in 0..FIRST_CHUNKS {
        if solo.is_over || !solo.improve_once()? {
            break;
        }
    }
    let (alloc, project) = (solo.notebook.alloc, solo.notebook.project);
    let bound = lower_bound(alloc, project, PRICE_STEPS)?;
    solo.notebook.raise(bound);
    solo.show();
    if solo.notebook.known.makespan().is_some() {
        return Ok(());
    }
    solo.question = Question { within: u32::MAX };
    solo.most = solo.left();
    if exceeds_stocks(alloc, project, solo.allowance.words, solo)? {
        solo.notebook.rule_out();
    }
    Ok(())
}

/// Asks the question of the stride. Returns the next stride, or `None` if the worker has to stop.
fn step<F: Subject, O: Overseer>(
    solo: &mut Solo<'_, F, O>,
    stride: u32,
) -> Result<Option<u32>, AllocError> {
    let (bound, makespan) = (solo.notebook.known.bound(), solo.notebook.known.makespan());
    let Some(question) = question_of(Lane::Low, bound, makespan, stride) else {
        return Ok(None);
    };
    let (left, spent) = (solo.left(), solo.spent);
    if solo.is_over || solo.notebook.known.is_decided() || left == 0 {
        return Ok(None);
    }
    solo.question = question;
    solo.most = if stride > 1 { LEAP.min(left) } else { left };
    let taken = ask(solo)?;
    solo.show();
    if taken == Gain::Nothing && stride <= 1 && !solo.notebook.known.is_moot(question) {
        return Ok(None);
    }
    let conflicts = solo.spent.saturating_sub(spent);
    Ok(Some(stride_after(stride, taken, conflicts)))
}

/// Refutes bounds from below until nothing is open, or a question ends without an answer.
fn climb<F: Subject, O: Overseer>(solo: &mut Solo<'_, F, O>) -> Result<(), AllocError> {
    let mut stride = 1u32;
    for _ in 0..u64::MAX {
        match step(solo, stride)? {
            Some(next) => stride = next,
            None => return Ok(()),
        }
    }
    Ok(())
}

/// Searches for shorter schedules until nothing is open.
fn improve<F: Subject, O: Overseer>(solo: &mut Solo<'_, F, O>) -> Result<(), AllocError> {
    for _ in 0..u64::MAX {
        if solo.is_over || solo.notebook.known.is_decided() || !solo.improve_once()? {
            return Ok(());
        }
    }
    Ok(())
}

fn run<F: Subject, O: Overseer>(
    solo: &mut Solo<'_, F, O>,
    first: Option<&Schedule>,
) -> Result<(), AllocError> {
    if let Some(schedule) = first {
        solo.notebook.offer_copy(schedule)?;
        solo.show();
    }
    begin(solo)?;
    climb(solo)?;
    if solo.allowance.is_endless {
        improve(solo)?;
    }
    Ok(())
}

fn proved_by<F: Subject, O: Overseer + Drop>(solo: Solo<'_, F, O>, most: u64) -> Proved
    ensures answer { IsAnswer F.project result.answer }
    ensures few { result.conflicts ≤ most }
{
    let conflicts = solo.spent.min(most);
    let Solo { notebook, .. } = solo;
    let Notebook { known, .. } = notebook;
    Proved {
        answer: known.into_answer(),
        conflicts,
    }
}

fn prove_as<F: Subject, O: Overseer + Drop>(
    alloc: Global,
    project: &Project,
    allowance: Allowance,
    first: Option<&Schedule>,
    overseer: O,
) -> Proved
    requires { project.now ≡ F.project }
    ensures answer { IsAnswer F.project result.answer }
    ensures few { result.conflicts ≤ allowance.conflicts }
{
    let known = Known::<F>::new();
    let notebook = Notebook {
        alloc,
        project,
        known,
    };
    let mut solo = Solo {
        notebook,
        overseer,
        improver: Improver::new(SEED),
        allowance,
        spent: 0,
        question: Question { within: u32::MAX },
        most: 0,
        conflicts: 0,
        is_over: false,
    };
    let _ = run(&mut solo, first);
    proved_by(solo, allowance.conflicts)
}

/// Proves what one worker can within its allowance, beginning with `first` if that is feasible. The
/// answer is true of the project, whatever the worker did. Want of memory ends it.
pub fn prove_alone<O: Overseer + Drop>(
    alloc: Global,
    project: &Project,
    allowance: Allowance,
    first: Option<&Schedule>,
    overseer: O,
) -> Proved
    ensures answer { IsAnswer project.now result.answer }
    ensures few { result.conflicts ≤ allowance.conflicts }
{
    prove_as::<Brand, O>(alloc, project, allowance, first, overseer)
}
