//! The four changes of a job in the table: `send`, `take_back`, `fund`, `cancel`. Each changes the
//! job's work by `find_mut`, and then its phase by `set_phase`.
ghost use Rattle.std.specs.Prelude.{◌≡◌, ◌+◌, ◌≤◌, IsTrue, IsFalse, true, false, Some, None, IfSome, IfNone, IfErr, OnOk, OnErr, option_map};
ghost use Rattle.job_table.specs.Table.{find_row};
ghost use Rattle.job_table.specs.Job.{given_up, IsSent, IsBack, IsStrange, IsFunded, IsGivenUp};

use job_table::{JobTable, Phase};
use quanta_till::LEASE_LIMIT;
use strategy::Strategy;

fn phase_of<J>(jobs: &JobTable<J>, tenant: u32, seq: u64) -> Option<Phase>
    ensures { result ≡ option_map (λ job. job.phase) (find_row tenant seq jobs.now.rows) }
{
    match jobs.find(tenant, seq) {
        Some(job) => Some(job.phase()),
        None => None,
    }
}

/// Takes the search of a waiting job out, for a turn of at most `slice` nodes. `None` if the job is
/// unknown, does not wait, or holds another search than its own.
pub(crate) fn send<J: Strategy>(
    jobs: &mut JobTable<J>,
    tenant: u32,
    seq: u64,
    slice: u64,
) -> Option<J>
    ensures sent { IfSome result (λ search. IsSent jobs.old tenant seq slice (J.meaning search) jobs.new) }
    ensures kept { IfNone result (jobs.new ≡ jobs.old) }
{
    if phase_of(jobs, tenant, seq) != Some(Phase::Waiting) {
        return None;
    }
    let Some(work) = jobs.find_mut(tenant, seq) else {
        return None;
    };
    let Some(search) = work.send(tenant) else {
        return None;
    };
    jobs.set_phase(tenant, seq, Phase::Out(slice));
    Some(search)
}

/// Takes the search of a job that is out back, after a turn of `ran` nodes. Returns any other
/// search. A job that waits again waits behind all others. Takes no memory.
pub(crate) fn take_back<J: Strategy>(
    jobs: &mut JobTable<J>,
    tenant: u32,
    seq: u64,
    slice: u64,
    ran: u64,
    search: J,
) -> Result<(), J>
    requires best { (J.meaning search).taken ≡ false }
    ensures back { OnOk result (IsBack jobs.old tenant seq slice ran (J.meaning search) jobs.new) }
    ensures strange { OnErr result (IsStrange jobs.old.rows tenant seq slice ran (J.meaning search)) }
    ensures kept { OnErr result (jobs.new ≡ jobs.old) }
    ensures handed_back { IfErr result (λ it. it ≡ search) }
{
    let Some(job) = jobs.find(tenant, seq) else {
        return Err(search);
    };
    if !job.is_own(tenant, slice, ran, &search) {
        return Err(search);
    }
    let phase = job.phase();
    let Some(work) = jobs.find_mut(tenant, seq) else {
        return Err(search);
    };
    let after = work.take_back(search, phase);
    jobs.set_phase(tenant, seq, after);
    Ok(())
}

/// Gives more quanta to a job that waits or is dry, and it waits. False if the job is unknown or in
/// another phase, or holds another search than its own. Takes no memory.
pub(crate) fn fund<J: Strategy>(jobs: &mut JobTable<J>, tenant: u32, seq: u64, quanta: u64) -> bool
    requires { IfSome (find_row tenant seq jobs.old.rows) (λ job. job.nodes + job.left + quanta ≤ LEASE_LIMIT) }
    ensures funded { IsTrue result → IsFunded jobs.old tenant seq quanta jobs.new }
    ensures kept { IsFalse result → jobs.new ≡ jobs.old }
{
    let Some(phase) = phase_of(jobs, tenant, seq) else {
        return false;
    };
    if !phase.is_here() {
        return false;
    }
    let Some(work) = jobs.find_mut(tenant, seq) else {
        return false;
    };
    if !work.fund(tenant, quanta) {
        return false;
    }
    jobs.set_phase(tenant, seq, Phase::Waiting)
}

/// Gives up a job that has not ended, and drops its search unless that is out. Takes no memory.
pub(crate) fn cancel<J: Strategy>(jobs: &mut JobTable<J>, tenant: u32, seq: u64) -> bool
    ensures given_up { IsTrue result → IsGivenUp jobs.old tenant seq jobs.new }
    ensures refused { IsFalse result
        → IfSome (find_row tenant seq jobs.old.rows) (λ job. given_up job job.phase ≡ None) }
    ensures kept { IsFalse result → jobs.new ≡ jobs.old }
{
    let Some(phase) = phase_of(jobs, tenant, seq) else {
        return false;
    };
    match phase {
        Phase::Waiting | Phase::Dry => {
            let Some(work) = jobs.find_mut(tenant, seq) else {
                return false;
            };
            work.give_up();
            jobs.set_phase(tenant, seq, Phase::Cancelled)
        }
        Phase::Out(slice) => jobs.set_phase(tenant, seq, Phase::Leaving(slice)),
        Phase::Leaving(_) | Phase::Closed | Phase::Cancelled => false,
    }
}
