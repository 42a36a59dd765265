//! How the tests send a job of a table out, take it back, fund it and cancel it.
ghost use Rattle.std.specs.Prelude.{◌≡◌, false, IfSome, IfErr};

use job_table::{JobTable, Phase};
use strategy::Strategy;

pub(crate) fn phase_of<J>(table: &JobTable<J>, tenant: u32, seq: u64) -> Option<Phase> {
    match table.find(tenant, seq) {
        Some(job) => Some(job.phase()),
        None => None,
    }
}

/// Sends the search of a job that waits.
pub(crate) fn send<J: Strategy>(
    table: &mut JobTable<J>,
    tenant: u32,
    seq: u64,
    slice: u64,
) -> Option<J>
    ensures { IfSome result (λ search. (J.meaning search).taken ≡ false) }
{
    if phase_of(table, tenant, seq) != Some(Phase::Waiting) {
        return None;
    }
    let Some(work) = table.find_mut(tenant, seq) else {
        return None;
    };
    let Some(search) = work.send(tenant) else {
        return None;
    };
    table.set_phase(tenant, seq, Phase::Out(slice));
    Some(search)
}

/// Returns the search if it is not that of the job.
pub(crate) fn take_back<J: Strategy>(
    table: &mut JobTable<J>,
    tenant: u32,
    seq: u64,
    slice: u64,
    ran: u64,
    search: J,
) -> Result<(), J>
    requires { (J.meaning search).taken ≡ false }
    ensures { IfErr result (λ it. it ≡ search) }
{
    let Some(job) = table.find(tenant, seq) else {
        return Err(search);
    };
    if !job.is_own(tenant, slice, ran, &search) {
        return Err(search);
    }
    let phase = job.phase();
    let Some(work) = table.find_mut(tenant, seq) else {
        return Err(search);
    };
    let after = work.take_back(search, phase);
    table.set_phase(tenant, seq, after);
    Ok(())
}

/// Draws up to 999 quanta, and the job waits. Returns `false` if the table does not do so.
pub(crate) fn fund<J: Strategy>(
    table: &mut JobTable<J>,
    tenant: u32,
    seq: u64,
    quanta: u64,
) -> bool {
    let Some(job) = table.find(tenant, seq) else {
        return false;
    };
    let is_small = job.nodes() < 1_000 && job.left() < 1_000 && quanta < 1_000;
    if !is_small || !job.phase().is_here() {
        return false;
    }
    let Some(work) = table.find_mut(tenant, seq) else {
        return false;
    };
    work.fund(tenant, quanta) && table.set_phase(tenant, seq, Phase::Waiting)
}

/// Returns `false` if the job is unknown or at its end.
pub(crate) fn cancel<J: Strategy>(table: &mut JobTable<J>, tenant: u32, seq: u64) -> bool {
    match phase_of(table, tenant, seq) {
        Some(Phase::Waiting | Phase::Dry) => {
            if let Some(work) = table.find_mut(tenant, seq) {
                work.give_up();
            }
            table.set_phase(tenant, seq, Phase::Cancelled)
        }
        Some(Phase::Out(slice)) => table.set_phase(tenant, seq, Phase::Leaving(slice)),
        _ => false,
    }
}
