//! Certificates: a schedule is optimal if the clauses of a shorter makespan cannot all be true.
ghost use Rattle.std.specs.Prelude.{◌≡◌, ◌≤◌, IfOk, IfErr, IfSome, MatchOption, Some, None};
ghost use Rattle.mrcpsp.specs.Project.{horizon};
ghost use Rattle.mrcpsp.specs.Schedule.{IsOptimal, IsInfeasible, makespan};
ghost use Rattle.schedule_clauses.specs.Encoding.{AreGood};
ghost use Rattle.schedule_clauses.specs.LeftOut.{AreLeftOut};
ghost use Rattle.schedule_clauses.specs.Sections.{AreSections, all_kinds, stock_kinds};
ghost use Rattle.schedule_clauses.specs.Fault.{IsOfClauses, IsOfBound, IsOfStocks, IsOfSchedule};
ghost use Rattle.schedule_clauses.specs.Size.{start_clauses};
ghost use Rattle.price_search.specs.Barring.{IsBarring};
ghost use Rattle.schedule_prices.specs.Choices.{EachExceeds};
ghost use Rattle.schedule_clauses.specs.Satisfied.{SatisfiedByShort, SatisfiedByFeasible};

use crate::formula::ScheduleFormula;
use crate::sections::{encode, encode_stocks};
use crate::size::{MOST_START_CLAUSES, start_clauses_of};
use clause_proof::{ProofFault, refute};
use mrcpsp::{Breach, Project, Schedule, check};
use price_search::{Barring, bar_choices};
use std::alloc::{AllocError, Global};
use thiserror::Error;

/// The steps in which prices of a bound are looked for. `ScheduleFormula` depends on it.
const PRICE_STEPS: u32 = 1_000;

/// A `CertificateFault` is why nothing is certified. Its text is as in `no proof Word(17)`.
#[derive(Clone, Copy, Debug, PartialEq, Eq, Error)]
pub enum CertificateFault {
    #[error("no memory")]
    NoMemory,
    /// The bound is above this horizon, the sum of the longest durations.
    #[error("no bound Horizon({0})")]
    Horizon(u32),
    /// The bound makes about this number of clauses on starts, more than [`MOST_START_CLAUSES`].
    #[error("no bound TooMany({0})")]
    TooMany(u64),
    #[error("no schedule {0}")]
    Schedule(Breach),
    #[error("no proof {0}")]
    Proof(ProofFault),
}

impl From<AllocError> for CertificateFault {
    ghost use Rattle.std.specs.Prelude.{◌≡◌};
    ghost use Rattle.schedule_clauses.specs.declared.certificate.CertificateFault.TheVariants.{NoMemory};

    ghost from_gives = { λ _ fault. fault ≡ NoMemory };

    fn from(_: AllocError) -> CertificateFault {
        CertificateFault::NoMemory
    }
}

/// What prices show of a bound that has clauses.
fn barring_of<'a>(
    alloc: Global,
    project: &'a Project,
    bound: u32,
) -> Result<Barring<'a>, CertificateFault>
    ensures shown { IfOk result (IsBarring project.now bound) }
    ensures within { IfOk result (λ _. bound ≤ horizon project.now.activities) }
    ensures few { IfOk result (λ _. start_clauses project.now bound ≤ MOST_START_CLAUSES) }
    ensures fault { IfErr result (λ fault. IsOfClauses project.now bound fault) }
{
    let horizon = project.horizon();
    if horizon < bound {
        return Err(CertificateFault::Horizon(horizon));
    }
    let count = start_clauses_of(alloc, project, bound)?;
    if count > MOST_START_CLAUSES {
        return Err(CertificateFault::TooMany(count));
    }
    Ok(bar_choices(alloc, project, bound, PRICE_STEPS)?)
}

/// Clauses that each feasible schedule of at most `bound` periods satisfies. Fails for a bound
/// above the horizon, and for one with more than [`MOST_START_CLAUSES`] clauses on starts. More
/// than 999,999,999 variables count as want of memory.
#[tactic(auto, using(crate::proofs::EncodingLemmas::short_rules))]
pub fn clauses(
    alloc: Global,
    project: &Project,
    bound: u32,
) -> Result<ScheduleFormula, CertificateFault>
    ensures clauses { IfOk result (λ formula. SatisfiedByShort project.now bound formula.clauses) }
    ensures meanings { IfOk result (λ formula.
        AreGood project.now (Some bound) formula.meanings.items formula.clauses) }
    ensures sections { IfOk result (λ formula.
        AreSections all_kinds formula.sections.items formula.clauses) }
    ensures left_out { IfOk result (λ formula.
        AreLeftOut project.now (Some bound) formula.left_out.items) }
    ensures within { IfOk result (λ _. bound ≤ horizon project.now.activities) }
    ensures few { IfOk result (λ _. start_clauses project.now bound ≤ MOST_START_CLAUSES) }
    ensures fault { IfErr result (λ fault. IsOfClauses project.now bound fault) }
{
    let barring = barring_of(alloc, project, bound)?;
    Ok(encode(alloc, project, bound, &barring)?)
}

/// Returns the formula of [`clauses`] if prices leave the bound open, and `None` if they refute it.
#[tactic(auto, using(crate::proofs::EncodingLemmas::short_rules))]
pub fn open_clauses(
    alloc: Global,
    project: &Project,
    bound: u32,
) -> Result<Option<ScheduleFormula>, CertificateFault>
    ensures clauses { IfOk result (λ made. MatchOption made (EachExceeds project.now bound)
        (λ formula. SatisfiedByShort project.now bound formula.clauses)) }
    ensures meanings { IfOk result (λ made. IfSome made (λ formula.
        AreGood project.now (Some bound) formula.meanings.items formula.clauses)) }
    ensures sections { IfOk result (λ made. IfSome made (λ formula.
        AreSections all_kinds formula.sections.items formula.clauses)) }
    ensures left_out { IfOk result (λ made. IfSome made (λ formula.
        AreLeftOut project.now (Some bound) formula.left_out.items)) }
    ensures within { IfOk result (λ _. bound ≤ horizon project.now.activities) }
    ensures few { IfOk result (λ _. start_clauses project.now bound ≤ MOST_START_CLAUSES) }
    ensures fault { IfErr result (λ fault. IsOfClauses project.now bound fault) }
{
    let barring = barring_of(alloc, project, bound)?;
    if let Barring::Refuted = barring {
        return Ok(None);
    }
    Ok(Some(encode(alloc, project, bound, &barring)?))
}

/// Clauses on modes and stocks alone, which each feasible schedule satisfies.
#[tactic(auto, using(crate::proofs::EncodingLemmas::feasible_rules))]
pub fn stock_clauses(alloc: Global, project: &Project) -> Result<ScheduleFormula, CertificateFault>
    ensures clauses { IfOk result (λ formula. SatisfiedByFeasible project.now formula.clauses) }
    ensures meanings { IfOk result (λ formula.
        AreGood project.now None formula.meanings.items formula.clauses) }
    ensures sections { IfOk result (λ formula.
        AreSections stock_kinds formula.sections.items formula.clauses) }
    ensures left_out { IfOk result (λ formula.
        AreLeftOut project.now None formula.left_out.items) }
    ensures fault { IfErr result (λ fault. fault ≡ CertificateFault.NoMemory) }
{
    Ok(encode_stocks(alloc, project)?)
}

/// Checks a proof that each feasible schedule takes more than `bound` periods.
#[tactic(auto, using(crate::proofs::EncodingLemmas::exceed_rules))]
pub fn certify_bound(
    alloc: Global,
    project: &Project,
    bound: u32,
    proof: &[u8],
) -> Result<(), CertificateFault>
    ensures exceeds { IfOk result (λ _. EachExceeds project.now bound) }
    ensures fault { IfErr result (λ fault. IsOfBound project.now bound fault) }
{
    let formula = clauses(alloc, project, bound)?;
    match refute(alloc, formula.clauses, proof) {
        Ok(()) => Ok(()),
        Err(ProofFault::NoMemory) => Err(CertificateFault::NoMemory),
        Err(fault) => Err(CertificateFault::Proof(fault)),
    }
}

/// Checks a proof that no modes fit the stocks, so that no schedule is feasible.
#[tactic(auto, using(crate::proofs::EncodingLemmas::infeasible_rules))]
pub fn certify_infeasible(
    alloc: Global,
    project: &Project,
    proof: &[u8],
) -> Result<(), CertificateFault>
    ensures infeasible { IfOk result (λ _. IsInfeasible project.now) }
    ensures fault { IfErr result (λ fault. IsOfStocks fault) }
{
    let formula = stock_clauses(alloc, project)?;
    match refute(alloc, formula.clauses, proof) {
        Ok(()) => Ok(()),
        Err(ProofFault::NoMemory) => Err(CertificateFault::NoMemory),
        Err(fault) => Err(CertificateFault::Proof(fault)),
    }
}

/// Checks a schedule and a proof that none is shorter, and returns the makespan. The proof is not
/// read if that is 0, or if heads and tails alone exceed a shorter bound.
#[tactic(auto, using(crate::proofs::EncodingLemmas::optimal_rules))]
pub fn certify(
    alloc: Global,
    project: &Project,
    schedule: &Schedule,
    proof: &[u8],
) -> Result<u32, CertificateFault>
    ensures optimal { IfOk result (λ _. IsOptimal project.now schedule.now) }
    ensures makespan { IfOk result (λ m. m ≡ makespan project.now schedule.now) }
    ensures fault { IfErr result (λ fault. IsOfSchedule project.now schedule.now fault) }
{
    let makespan = match check(project, schedule) {
        Ok(makespan) => makespan,
        Err(breach) => return Err(CertificateFault::Schedule(breach)),
    };
    if makespan == 0 {
        return Ok(0);
    }
    certify_bound(alloc, project, makespan - 1, proof)?;
    Ok(makespan)
}
