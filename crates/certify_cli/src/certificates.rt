//! Certificates of texts, and the clauses of a text.
ghost use Rattle.std.specs.Prelude.{◌≡◌, ◌⊎◌, IfOk, IfErr, string_bytes};
ghost use Rattle.psplib_mm.specs.Gives.{Gives};
ghost use Rattle.psplib_mm.specs.Reading.{reading};
ghost use Rattle.mrcpsp.specs.Schedule.{IsOptimal, IsInfeasible, makespan};
ghost use Rattle.schedule_clauses.specs.Fault.{IsOfStocks, IsOfSchedule};
ghost use Rattle.certify_cli.specs.Certified.{CertifiesOptimal, CertifiesInfeasible, IsOfFile, IsOfText, IsOfProofAlone, IsClausesFault};

use crate::bounds::STEPS;
use crate::dimacs::write_formula;
use crate::fault::CertifyFault;
use file_commands::CommandFault;
use mrcpsp::{Project, Schedule, check};
use price_search::{exceeds, is_infeasible};
use psplib_mm::read;
use schedule_clauses::{CertificateFault, clauses, stock_clauses};
use schedule_files::{MOST_BYTES, read_schedule};
use std::alloc::Global;
use std::io::Write;

/// Checks a schedule and a proof that none is shorter. Without a proof prices may show it.
fn certified(
    alloc: Global,
    project: &Project,
    schedule: &Schedule,
    proof: &[u8],
) -> Result<u32, CertificateFault>
    ensures optimal { IfOk result (λ _. IsOptimal project.now schedule.now) }
    ensures makespan { IfOk result (λ m. m ≡ makespan project.now schedule.now) }
    ensures fault { IfErr result (λ fault. IsOfSchedule project.now schedule.now fault) }
{
    if proof.is_empty()
        && let Ok(makespan) = check(project, schedule)
        && makespan > 0
        && exceeds(alloc, project, makespan - 1, STEPS)?
    {
        return Ok(makespan);
    }
    schedule_clauses::certify(alloc, project, schedule, proof)
}

/// Checks that no schedule is feasible: by a proof that no modes fit the stocks, or without one by
/// prices.
fn certified_infeasible(
    alloc: Global,
    project: &Project,
    proof: &[u8],
) -> Result<(), CertificateFault>
    ensures infeasible { IfOk result (λ _. IsInfeasible project.now) }
    ensures fault { IfErr result (λ fault. IsOfStocks fault) }
{
    if proof.is_empty() && is_infeasible(alloc, project, STEPS)? {
        return Ok(());
    }
    schedule_clauses::certify_infeasible(alloc, project, proof)
}

/// Checks a schedule of `file` and a proof that none is shorter, and returns `optimal M`. The proof
/// may be empty if the longest chain, prices or the clauses alone decide. Fails with the first
/// fault, in the order of file, text, schedule and proof.
pub fn certify(
    alloc: Global,
    file: &[u8],
    text: &[u8],
    proof: &[u8],
) -> Result<String, CertifyFault>
    ensures ok { IfOk result (λ line. CertifiesOptimal file.now text.now (string_bytes line)) }
    ensures file { IfErr result (λ fault. IsOfFile fault file.now) }
    ensures judged { IfErr result (λ fault. IsOfText fault file.now text.now) }
{
    let project = read(alloc, file).map_err(CertifyFault::File)?;
    let schedule = match read_schedule(alloc, text) {
        Ok(Some(schedule)) => schedule,
        Ok(None) if text.len() > MOST_BYTES => return Err(CertifyFault::TooLong),
        Ok(None) => return Err(CertifyFault::Words),
        Err(_) => return Err(CertifyFault::NoMemory),
    };
    match certified(alloc, &project, &schedule, proof) {
        Ok(makespan) => Ok(format!(in alloc; "optimal {makespan}\n")?),
        Err(fault) => Err(CertifyFault::Certificate(fault)),
    }
}

/// Checks a proof that no modes fit the stocks of `file`, and returns `infeasible`. The proof may be
/// empty if prices or the clauses alone decide.
pub fn certify_infeasible(alloc: Global, file: &[u8], proof: &[u8]) -> Result<String, CertifyFault>
    ensures ok { IfOk result (λ line. CertifiesInfeasible file.now (string_bytes line)) }
    ensures file { IfErr result (λ fault. IsOfFile fault file.now) }
    ensures judged { IfErr result (λ fault. IsOfProofAlone fault) }
{
    let project = read(alloc, file).map_err(CertifyFault::File)?;
    match certified_infeasible(alloc, &project, proof) {
        Ok(()) => Ok(String::from_str(alloc, "infeasible\n")?),
        Err(fault) => Err(CertifyFault::Certificate(fault)),
    }
}

/// Writes the clauses of `file` and `bound` in DIMACS form; without a bound, those on modes and
/// stocks. On any error except `Write`, nothing was written.
pub fn write_clauses<W: Write>(
    alloc: Global,
    file: &[u8],
    bound: Option<u32>,
    writer: &mut W,
) -> Result<(), CommandFault<CertifyFault>>
    ensures file { IfErr result (λ fault. IsClausesFault fault file.now) }
    ensures fault { IfErr result (λ fault.
        (W.contents writer.new ≡ W.contents writer.old) ⊎ (fault ≡ CommandFault.Write)) }
{
    let project = match read(alloc, file) {
        Ok(project) => project,
        Err(fault) => return Err(CommandFault::Refused(CertifyFault::File(fault))),
    };
    let made = match bound {
        Some(bound) => clauses(alloc, &project, bound),
        None => stock_clauses(alloc, &project),
    };
    match made {
        Ok(formula) => match write_formula(writer, &formula) {
            Ok(()) => Ok(()),
            Err(_) => Err(CommandFault::Write),
        },
        Err(fault) => Err(CommandFault::Refused(CertifyFault::Certificate(fault))),
    }
}
