//! Lower bounds of a file's project, with and without a proof.
ghost use Rattle.std.specs.Prelude.{◌-◌, IfOk, IfErr, string_bytes};
ghost use Rattle.schedule_clauses.specs.Fault.{IsOfBound};
ghost use Rattle.certify_cli.specs.Certified.{CertifiesBound, CertifiesLeast, IsOfFile, IsOfFileAlone, IsOfPeriods};
ghost use Rattle.price_search.specs.LowerBound.{TakesAtLeast};

use crate::fault::CertifyFault;
use mrcpsp::Project;
use price_search::laws::fitting_modes_decide;
use price_search::{exceeds, lower_bound};
use psplib_mm::read;
use schedule_clauses::CertificateFault;
use std::alloc::Global;

/// The steps for the prices of a bound that is asked once.
pub(crate) const STEPS: u32 = 3_000;

/// No schedule takes fewer than 0 periods, whatever the proof. Without a proof prices may show it.
fn exceeded(
    alloc: Global,
    project: &Project,
    periods: u32,
    proof: &[u8],
) -> Result<(), CertificateFault>
    ensures least { IfOk result (λ _. TakesAtLeast project.now periods) }
    ensures fault { IfErr result (λ fault. IsOfBound project.now (periods - 1) fault) }
{
    if periods == 0 {
        return Ok(());
    }
    if proof.is_empty() && exceeds(alloc, project, periods - 1, STEPS)? {
        return Ok(());
    }
    schedule_clauses::certify_bound(alloc, project, periods - 1, proof)
}

/// Checks a DRAT proof that no feasible schedule of `file` takes fewer than `periods` periods, and
/// returns `at least L`. The proof is of the clauses of one period less; it may be empty if the
/// longest chain, prices or the clauses alone decide.
pub fn certify_bound(
    alloc: Global,
    file: &[u8],
    periods: u32,
    proof: &[u8],
) -> Result<String, CertifyFault>
    ensures ok { IfOk result (λ line. CertifiesBound periods file.now (string_bytes line)) }
    ensures file { IfErr result (λ fault. IsOfFile fault file.now) }
    ensures judged { IfErr result (λ fault. IsOfPeriods fault file.now periods) }
{
    let project = read(alloc, file).map_err(CertifyFault::File)?;
    match exceeded(alloc, &project, periods, proof) {
        Ok(()) => Ok(format!(in alloc; "at least {periods}\n")?),
        Err(fault) => Err(CertifyFault::Certificate(fault)),
    }
}

/// Returns `at least L`: no feasible schedule of `file` takes fewer than L periods. L is the longest
/// chain of activities by shortest durations, or more if `steps` steps find prices that refute
/// bounds above it. If they refute the horizon too, it returns `infeasible`.
pub fn certify_least(alloc: Global, file: &[u8], steps: u32) -> Result<String, CertifyFault>
    ensures ok { IfOk result (λ line. CertifiesLeast steps file.now (string_bytes line)) }
    ensures file { IfErr result (λ fault. IsOfFile fault file.now) }
    ensures judged { IfErr result (λ fault. IsOfFileAlone fault) }
{
    let project = read(alloc, file).map_err(CertifyFault::File)?;
    let Ok(periods) = lower_bound(alloc, &project, steps) else {
        return Err(CertifyFault::NoMemory);
    };
    fitting_modes_decide();
    if steps > 0 && periods > project.horizon() {
        return Ok(String::from_str(alloc, "infeasible\n")?);
    }
    Ok(format!(in alloc; "at least {periods}\n")?)
}
