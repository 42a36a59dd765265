//! Whether a feasible schedule is within a number of periods, by a search of clauses.
ghost use Rattle.std.specs.Prelude.{◌≡◌, ◌+◌, ◌≤◌, ◌<◌, length, IfOk, IfSome, true};
ghost use Rattle.mrcpsp.specs.Schedule.{IsInfeasible};
ghost use Rattle.clause_kernel.specs.Clauses.{IsUnsatisfiable};
ghost use Rattle.schedule_prices.specs.Choices.{EachExceeds};
ghost use Rattle.schedule_clauses.specs.Satisfied.{SatisfiedByShort, SatisfiedByFeasible};
ghost use Rattle.prover.specs.Decided.{IsDecided};
ghost use Rattle.prover.specs.Known.{IsBest};

use crate::known::BestKnown;
use clause_kernel::{ClauseList, Kernel};
use clause_search::{Search, SearchAnswer, SearchLimits};
use mrcpsp::{Project, Schedule, Sequence, check};
use schedule_clauses::{CertificateFault, Fact, ScheduleFormula, open_clauses, stock_clauses};
use std::alloc::{AllocError, Global};
use std::marker::Brand;

/// A `Decision` is the answer to a question.
#[derive(Debug, Drop)]
pub enum Decision {
    /// A feasible schedule within the bound.
    Found(BestKnown),
    /// No feasible schedule is within the bound.
    None,
    /// The watch ended the search.
    Open,
    /// The memory was not enough.
    Full,
}

/// A `SearchObserver` is what looks at a search of clauses now and then.
pub trait SearchObserver {
    /// Returns how many conflicts may follow until the next look, after `conflicts` conflicts; 0
    /// ends the search.
    fn look(&mut self, conflicts: u64) -> u64;

    /// The search has ended after `conflicts` conflicts.
    fn end(&mut self, conflicts: u64);
}

fn zeros(alloc: Global, count: usize) -> Result<Vec<u32>, AllocError> {
    let mut numbers = Vec::with_capacity(alloc, count)?;
    numbers.resize(count, 0)?;
    Ok(numbers)
}

fn note(modes: &mut [u32], starts: &mut [u32], fact: Fact) {
    match fact {
        Fact::InMode { activity, mode } => {
            if activity < modes.len() && mode < 1_000_000_000 {
                modes[activity] = mode as u32 + 1;
            }
        }
        Fact::StartsBy { activity, time } => {
            if activity < starts.len() && time < starts[activity] {
                starts[activity] = time;
            }
        }
        _ => {}
    }
}

/// The schedule that the values of variables describe. It is not checked.
pub(crate) fn schedule_of(
    alloc: Global,
    size: usize,
    meanings: &[Fact],
    values: &[bool],
) -> Result<Schedule, AllocError> {
    let mut modes = zeros(alloc, size)?;
    let mut starts = zeros(alloc, size)?;
    for start in starts.iter_mut() {
        *start = u32::MAX;
    }
    for variable in 1..meanings.len().min(values.len()) {
        if values[variable] {
            note(&mut modes, &mut starts, meanings[variable]);
        }
    }
    for start in starts.iter_mut() {
        if *start == u32::MAX {
            *start = 0;
        }
    }
    Ok(Schedule {
        modes: Sequence::from(modes),
        starts: Sequence::from(starts),
    })
}

/// The decision that values describe: a schedule that is feasible and within the bound, or nothing.
pub(crate) fn found_by(project: &Project, bound: u32, schedule: Schedule) -> Decision
    ensures { IsDecided project.now bound result }
{
    match check(project, &schedule) {
        Ok(makespan) => {
            if makespan <= bound {
                Decision::Found(BestKnown { schedule, makespan })
            } else {
                Decision::Open
            }
        }
        Err(_) => Decision::Open,
    }
}

/// The end of a search of clauses, whatever they mean.
#[derive(Clone, Copy, PartialEq, Eq)]
enum Outcome {
    Values,
    Refuted,
    Open,
    Full,
}

fn outcome_of<F: clause_kernel::Formula, W: SearchObserver>(
    kernel: &mut Kernel<F>,
    search: &mut Search,
    watch: &mut W,
) -> Result<Outcome, AllocError>
    ensures { IfOk result (λ outcome. outcome ≡ Outcome.Refuted → IsUnsatisfiable F.clauses) }
{
    for _ in 0..u64::MAX {
        let slice = watch.look(search.conflicts());
        let answer = search.run(kernel, slice)?;
        if kernel.is_refuted() {
            return Ok(Outcome::Refuted);
        }
        match answer {
            SearchAnswer::Satisfied => return Ok(Outcome::Values),
            SearchAnswer::Full => return Ok(Outcome::Full),
            _ => {}
        }
        if search.refused() > 0 || slice == 0 {
            return Ok(Outcome::Open);
        }
    }
    Ok(Outcome::Open)
}

#[tactic(auto, using(crate::proofs::DecideLemmas::decide_rules))]
fn decide_as<F: clause_kernel::Formula, W: SearchObserver>(
    alloc: Global,
    project: &Project,
    bound: u32,
    formula: &ScheduleFormula,
    words: usize,
    watch: &mut W,
) -> Result<Decision, AllocError>
    requires clauses { formula.now.clauses ≡ F.clauses }
    requires short { SatisfiedByShort project.now bound F.clauses }
    ensures { IfOk result (IsDecided project.now bound) }
{
    let mut kernel = Kernel::<F>::new(alloc, &formula.clauses)?;
    let mut search = Search::new(alloc, &formula.clauses, SearchLimits { words })?;
    let outcome = outcome_of(&mut kernel, &mut search, watch)?;
    watch.end(search.conflicts());
    match outcome {
        Outcome::Values => {
            let size = project.size();
            let schedule = schedule_of(alloc, size, &formula.meanings, search.values())?;
            Ok(found_by(project, bound, schedule))
        }
        Outcome::Refuted => Ok(Decision::None),
        Outcome::Open => Ok(Decision::Open),
        Outcome::Full => Ok(Decision::Full),
    }
}

/// Decides whether a feasible schedule takes at most `bound` periods: by prices, or else by a search
/// of clauses, which holds at most `words` words of four bytes in clauses.
pub fn decide_within<W: SearchObserver>(
    alloc: Global,
    project: &Project,
    bound: u32,
    words: usize,
    watch: &mut W,
) -> Result<Decision, CertificateFault>
    ensures { IfOk result (IsDecided project.now bound) }
{
    let Some(formula) = open_clauses(alloc, project, bound)? else {
        return Ok(Decision::None);
    };
    match decide_as::<Brand, W>(alloc, project, bound, &formula, words, watch) {
        Ok(decision) => Ok(decision),
        Err(_) => Err(CertificateFault::NoMemory),
    }
}

#[tactic(auto, using(crate::proofs::DecideLemmas::stock_rules))]
fn exceeds_stocks_as<F: clause_kernel::Formula, W: SearchObserver>(
    alloc: Global,
    project: &Project,
    formula: &ClauseList,
    words: usize,
    watch: &mut W,
) -> Result<bool, AllocError>
    requires clauses { formula.now ≡ F.clauses }
    requires feasible { SatisfiedByFeasible project.now F.clauses }
    ensures { IfOk result (λ exceeds. exceeds ≡ true → IsInfeasible project.now) }
{
    let mut kernel = Kernel::<F>::new(alloc, formula)?;
    let mut search = Search::new(alloc, formula, SearchLimits { words })?;
    let outcome = outcome_of(&mut kernel, &mut search, watch)?;
    watch.end(search.conflicts());
    match outcome {
        Outcome::Refuted => Ok(true),
        _ => Ok(false),
    }
}

/// Whether each choice of modes was shown to exceed a nonrenewable capacity, so that no schedule is
/// feasible.
pub fn exceeds_stocks<W: SearchObserver>(
    alloc: Global,
    project: &Project,
    words: usize,
    watch: &mut W,
) -> Result<bool, AllocError>
    ensures { IfOk result (λ exceeds. exceeds ≡ true → IsInfeasible project.now) }
{
    let Ok(formula) = stock_clauses(alloc, project) else {
        return Err(AllocError);
    };
    exceeds_stocks_as::<Brand, W>(alloc, project, &formula.clauses, words, watch)
}
