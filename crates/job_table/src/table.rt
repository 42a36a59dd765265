ghost use Rattle.std.specs.Prelude.{◌≡◌, ◌↔◌, ◌≤◌, true, [], is_some, Some, None, IfSome, OnSome, IfNone, IfErr, OnOk, OnErr, false, length, filter, slice_get};
ghost use Rattle.std.specs.Option.{option_copied};
ghost use Rattle.job_table.specs.Table.{AreWaiting, behind, is_out, find_row, jobs_of, add_job, change_job, drop_job};
ghost use Rattle.job_table.specs.Lent.{with_work, in_phase, change_found, IsLent};
ghost use Rattle.job_table.specs.Kept.{whole, IsTable, IsChanging};

use crate::counts::{Counts, begin_counts, count_in, count_out, counts_in, recount};
use crate::queue::{Linked, NO_LINKS, Queue, requeue, unlink};
use crate::{Job, Phase, Work};
use indexmap::IndexMap;
use std::alloc::Global;
use std::marker::Model;

/// A `JobTable` is all tenants' jobs, and the queue of those that wait. Contracts see the jobs in
/// the order of tenants and numbers.
#[derive(Drop)]
pub struct JobTable<J> {
    jobs: IndexMap<(u32, u64), Linked<J>>,
    counts: IndexMap<u32, Counts>,
    queue: Queue,
}

impl<J> Model for JobTable<J> {
    ghost use Rattle.job_table.specs.Table as table;

    ghost Value = { table.TableData };

    ghost use Rattle.job_table.specs.Queue.{jobs_in, line_of};
    ghost use Rattle.job_table.specs.Kept.{rows_of, IsTable};

    ghost view = { λ t. record { rows = rows_of (jobs_in t.jobs.entries); waiting = line_of t.jobs.entries t.queue } };

    ghost invariant = { λ t. IsTable t.jobs.entries t.counts.entries t.queue };
}

/// A `Shift` is the phase that a job has left, and the one that it is in now.
#[derive(Clone, Copy)]
struct Shift {
    was: Phase,
    is: Phase,
}

/// Updates counts and queue after the phase of job `(tenant, seq)` changed.
fn follow<J>(
    jobs: &mut IndexMap<(u32, u64), Linked<J>>,
    counts: &mut IndexMap<u32, Counts>,
    queue: &mut Queue,
    tenant: u32,
    seq: u64,
    shift: Shift,
)
    requires { IsChanging tenant seq shift.was shift.is jobs.old.entries counts.old.entries queue.old }
    ensures table { IsTable jobs.new.entries counts.new.entries queue.new }
    ensures changed { (change : IsChanging tenant seq shift.was shift.is
        jobs.old.entries counts.old.entries queue.old)
        → whole jobs.new.entries queue.new
        ≡ change_job tenant seq change.old.job change.then (whole change.before queue.old) }
{
    let Shift { was, is } = shift;
    recount(counts, tenant, was.is_out(), is.is_out());
    requeue(jobs, queue, tenant, seq, was.is_waiting(), is.is_waiting());
}

impl<J> JobTable<J> {
    ghost use Rattle.std.specs.Borrow.{LendsSo, sem};
    ghost use Rattle.job_table.specs.contracts.table.JobTable.{the_row};
    ghost use Rattle.job_table.specs.Rows.{work_row};

    /// An empty table. Takes no memory.
    pub fn new(alloc: Global) -> JobTable<J>
        ensures { result ≡ record { rows = []; waiting = [] } }
    {
        JobTable {
            jobs: IndexMap::new(alloc),
            counts: IndexMap::new(alloc),
            queue: Queue {
                first: None,
                last: None,
                len: 0,
            },
        }
    }

    /// The number of jobs of all tenants.
    pub fn len(&self) -> usize
        ensures { result ≡ length self.now.rows }
    {
        self.jobs.len()
    }

    /// Adds a job, or hands it back if there is no memory. No later change of it takes memory.
    pub fn insert(&mut self, tenant: u32, job: Job<J>) -> Result<(), Job<J>>
        requires { find_row tenant job.seq self.old.rows ≡ None }
        ensures added { OnOk result (self.new ≡ add_job tenant job self.old) }
        ensures kept { OnErr result (self.new ≡ self.old) }
        ensures back { IfErr result (λ refused. refused ≡ job) }
    {
        let Ok(()) = begin_counts(&mut self.counts, tenant) else {
            return Err(job);
        };
        let _jobs = self.jobs.len();
        let (seq, phase) = (job.seq(), job.phase());
        let linked = Linked {
            job,
            links: NO_LINKS,
        };
        match self.jobs.insert((tenant, seq), linked) {
            Ok(None) => {}
            Ok(Some(other)) => return Err(other.job),
            Err(refused) => {
                let (_, linked) = refused.value;
                return Err(linked.job);
            }
        }
        count_in(&mut self.counts, tenant, phase.is_out());
        requeue(
            &mut self.jobs,
            &mut self.queue,
            tenant,
            seq,
            false,
            phase.is_waiting(),
        );
        Ok(())
    }

    /// Job `seq` of `tenant`.
    pub fn find(&self, tenant: u32, seq: u64) -> Option<&Job<J>>
        ensures { option_copied result ≡ find_row tenant seq self.now.rows }
    {
        match self.jobs.get(&(tenant, seq)) {
            Some(linked) => Some(&linked.job),
            None => None,
        }
    }

    /// Lends the work of job `seq` of `tenant`. Takes no memory.
    pub fn find_mut(&mut self, tenant: u32, seq: u64) -> Option<&mut Work<J>>
        ensures* writes_back { sem 𝓛
            (LendsSo (the_row J.row) (work_row J.row) self.entry result
            (λ new work. OnSome result (new ≡ change_found tenant seq (with_work work) self.old))
            (λ new. new ≡ self.old)) }
        ensures lent { IfSome result (λ work. IsLent self.old.rows tenant seq work.now) }
        ensures none { IfNone result (find_row tenant seq self.old.rows ≡ None) }
    {
        let Some(linked) = self.jobs.get_mut(&(tenant, seq)) else {
            return None;
        };
        Some(linked.job.work_mut())
    }

    /// Puts job `seq` of `tenant` in another phase, at the end of the queue or out of it. Returns
    /// false if there is no such job. Takes no memory.
    pub fn set_phase(&mut self, tenant: u32, seq: u64, phase: Phase) -> bool
        ensures found { result ≡ is_some (find_row tenant seq self.old.rows) }
        ensures put { self.new ≡ change_found tenant seq (in_phase phase) self.old }
    {
        let (jobs, counts, queue) = (&mut self.jobs, &mut self.counts, &mut self.queue);
        let Some(linked) = jobs.get_mut(&(tenant, seq)) else {
            return false;
        };
        let was = linked.job.phase();
        linked.job.set_phase(phase);
        follow(jobs, counts, queue, tenant, seq, Shift { was, is: phase });
        true
    }

    /// The number of the tenant's jobs.
    pub fn count_of(&self, tenant: u32) -> usize
        ensures { result ≡ length (jobs_of tenant self.now.rows) }
    {
        counts_in(&self.counts, tenant).kept
    }

    /// The number of the tenant's jobs whose turn is out.
    pub fn out_of(&self, tenant: u32) -> usize
        ensures { result ≡ length (filter (λ job. is_out job.phase) (jobs_of tenant self.now.rows)) }
    {
        counts_in(&self.counts, tenant).out
    }

    /// The length of the queue, in which each waiting job is once.
    pub fn waiting_len(&self) -> usize
        ensures len { result ≡ length self.now.waiting }
        ensures most { result ≤ length self.now.rows }
        ensures waiting { AreWaiting self.now }
    {
        self.queue.len
    }

    /// The tenant and number of the job at place `i` of the queue, from 0. Walks over those before
    /// it.
    pub fn waiting(&self, i: usize) -> Option<(u32, u64)>
        ensures key { result ≡ slice_get self.now.waiting i }
        ensures waiting { AreWaiting self.now }
    {
        let mut at = self.first_waiting();
        for k in 0..i {
            let Some((tenant, seq)) = at else {
                return None;
            };
            at = self.next_waiting(tenant, seq);
        }
        at
    }

    /// The head of the queue.
    pub fn first_waiting(&self) -> Option<(u32, u64)>
        ensures key { result ≡ slice_get self.now.waiting 0 }
        ensures waiting { AreWaiting self.now }
    {
        self.queue.first
    }

    /// The job behind this one in the queue. `None` if it is the last, or not in the queue.
    pub fn next_waiting(&self, tenant: u32, seq: u64) -> Option<(u32, u64)>
        ensures key { result ≡ behind tenant seq self.now.waiting }
        ensures waiting { AreWaiting self.now }
    {
        match self.jobs.get(&(tenant, seq)) {
            Some(linked) => linked.links.behind,
            None => None,
        }
    }

    /// Removes job `seq` of `tenant`. The others keep their order.
    pub fn remove(&mut self, tenant: u32, seq: u64) -> Option<Job<J>>
        ensures found { result ≡ find_row tenant seq self.old.rows }
        ensures rest { self.new ≡ drop_job tenant seq self.old }
    {
        let Some(Linked { job, links }) = self.jobs.swap_remove(&(tenant, seq)) else {
            return None;
        };
        let phase = job.phase();
        count_out(&mut self.counts, tenant, phase.is_out());
        if !phase.is_waiting() {
            return Some(job);
        }
        unlink(&mut self.jobs, &mut self.queue, links);
        Some(job)
    }
}
