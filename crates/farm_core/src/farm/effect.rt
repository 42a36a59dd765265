//! A command decides its effect while nothing changes. `commit` then makes it in one step.
ghost use Rattle.std.specs.Prelude.{◌≡◌, ◌+◌, ◌*◌, ◌<◌, ◌≤◌, ◌^◌, true, false, length, None, IfOk, OnOk, OnErr};
ghost use Rattle.std.specs.Vec.{vec_capacity};
ghost use Rattle.job_table.specs.Table.{find_row, add_job};
ghost use Rattle.farm_core.specs.declared.reply.Reply.{Reply};
ghost use Rattle.farm_core.specs.Step.{has_room, decided, Notes};
ghost use Rattle.farm_core.specs.World.{World, view};
ghost use Rattle.farm_core.specs.Farm.{IsReply, ArePassed};
ghost use Rattle.farm_core.specs.Truth.{IsPlanned};
ghost use Rattle.farm_core.specs.Command.{WaitsThen};
ghost use Rattle.farm_core.specs.Decided.{IsDecided, Fits, IsMade, takes_memory, may_leave};

use crate::farm::{jobs, keep_room};
use crate::{Account, Entry, Event, Farm, Line, Reply};
use job_table::{Job, JobTable};
use std::alloc::AllocError;
use strategy::Strategy;

/// How a command changes a job.
#[derive(Clone, Copy, Debug)]
pub(crate) enum Change {
    /// It draws this many quanta, and waits.
    Fund(u64),
    /// It is given up.
    GiveUp,
}

/// What a command does, as in `specs/Step`. An `Account` has the purse's ledger afterwards.
#[derive(Drop)]
pub(crate) enum Effect<J> {
    /// No change.
    Nothing(Reply),
    /// A journal entry only.
    Notes(Reply),
    /// An entry and a new job.
    Adds(Job<J>, Account),
    /// An entry, and the job changes. The line is the job's afterwards.
    Changes(Line, Account, Change),
    /// An entry, and the job of this number is removed.
    Drops(u64),
}

// Never inlined, since it has space on the stack for the job, which other commands do not need.
#[inline(never)]
fn add<J: Strategy>(
    tenant: u32,
    job: Job<J>,
    after: Account,
    jobs: &mut JobTable<J>,
    journal: &mut Vec<Entry>,
    account: &mut Account,
) -> Result<Reply, AllocError>
    requires free { find_row tenant job.seq jobs.old.rows ≡ None }
    requires few { account.old.next < 2 ^ 63 }
    ensures added { IfOk result (λ reply. jobs.new ≡ add_job tenant job jobs.old) }
    ensures account { IfOk result (λ reply. account.new
        ≡ record account.old { book = after.book; next = account.old.next + 1 }) }
    ensures reply { IfOk result (λ reply. reply ≡ Reply.Job job.seq) }
    ensures kept { OnErr result (jobs.new ≡ jobs.old) }
    ensures room { OnOk result (length journal.old.items + 2 * length jobs.old.rows + 3 ≤ vec_capacity journal.new) }
    ensures journal { journal.new.items ≡ journal.old.items }
    ensures capacity { vec_capacity journal.old ≤ vec_capacity journal.new }
{
    keep_room(journal, jobs.len())?;
    let seq = job.seq();
    let Ok(()) = jobs.insert(tenant, job) else {
        return Err(AllocError);
    };
    account.book = after.book;
    account.next += 1;
    Ok(Reply::Job(seq))
}

impl<J: Strategy> Effect<J> {
    /// Changes `jobs` and `account`, and reserves space for the entry. After an error no job has
    /// changed.
    #[inline(always)]
    fn make(
        self,
        tenant: u32,
        jobs: &mut JobTable<J>,
        journal: &mut Vec<Entry>,
        account: &mut Account,
    ) -> Result<Reply, AllocError>
        requires fits { Fits tenant self jobs.old.rows }
        requires few { account.old.used + account.old.next < 2 ^ 63 }
        ensures made { IfOk result (λ reply. IsMade tenant self jobs.old account.old jobs.new account.new reply) }
        ensures kept { OnErr result (jobs.new ≡ jobs.old) }
        ensures room { takes_memory self ≡ true
            → OnOk result (length journal.old.items + 2 * length jobs.old.rows + 3 ≤ vec_capacity journal.new) }
        ensures memory { OnErr result (takes_memory self ≡ true) }
        ensures journal { journal.new.items ≡ journal.old.items }
        ensures capacity { vec_capacity journal.old ≤ vec_capacity journal.new }
    {
        account.used += 1;
        match self {
            Effect::Nothing(reply) | Effect::Notes(reply) => {
                keep_room(journal, jobs.len())?;
                Ok(reply)
            }
            Effect::Adds(job, after) => add(tenant, job, after, jobs, journal, account),
            Effect::Changes(line, after, change) => match change {
                Change::Fund(quanta) => {
                    keep_room(journal, jobs.len())?;
                    if !jobs::fund(jobs, tenant, line.seq, quanta) {
                        return Err(AllocError);
                    }
                    account.book = after.book;
                    Ok(Reply::Line(line))
                }
                // Takes no memory: space for the entry of a cancel is kept since the job came in.
                Change::GiveUp => {
                    jobs::cancel(jobs, tenant, line.seq);
                    account.book = after.book;
                    Ok(Reply::Line(line))
                }
            },
            Effect::Drops(seq) => {
                keep_room(journal, jobs.len())?;
                jobs.remove(tenant, seq);
                Ok(Reply::Forgotten(seq))
            }
        }
    }
}

impl<J: Strategy> Farm<J> {
    /// The value of `passed` after `effect`.
    #[inline(always)]
    fn passed_after(&self, tenant: u32, effect: &Effect<J>) -> Option<(u32, u64)>
        requires { tenant < length self.now.config.tenants }
        ensures passed { ArePassed self.now result }
        ensures begins { may_leave effect.now ≡ true → has_room 2 (view tenant self.now) ≡ false → result ≡ None }
    {
        match effect {
            Effect::Changes(_, _, Change::GiveUp) | Effect::Drops(_) => {
                self.passed_without(tenant)
            }
            _ => self.passed,
        }
    }

    /// Writes the entry of a call that changes no job and no ledger.
    #[inline(always)]
    fn note(&mut self, tenant: u32, event: Event, reply: Reply) -> Reply
        requires known { tenant < length self.old.config.tenants }
        requires decided { decided (view tenant self.old) event ≡ Notes reply }
        requires planned { IsPlanned event }
        ensures follows { IsReply self.old tenant event result self.new }
        ensures turns { WaitsThen self.old tenant event result self.new }
    {
        let Ok(()) = keep_room(&mut self.journal, self.jobs.len()) else {
            return Reply::NoMemory;
        };
        self.ledgers.note(&mut self.journal, tenant, event);
        reply
    }

    /// Makes `effect` and writes the entry. Replies `NoMemory` if there is no memory for them. Then
    /// nothing has changed. Inlined, as `decide_ledger` and its like are: each command then has the
    /// code of its own effects alone.
    #[inline(always)]
    pub(crate) fn commit(&mut self, tenant: u32, event: Event, effect: Effect<J>) -> Reply
        requires known { tenant < length self.old.config.tenants }
        requires decided { IsDecided (view tenant self.old) event effect }
        requires planned { IsPlanned event }
        ensures follows { IsReply self.old tenant event result self.new }
        ensures turns { WaitsThen self.old tenant event result self.new }
        ensures memory { result ≡ Reply.NoMemory → takes_memory effect ≡ true }
    {
        let effect = match effect {
            Effect::Nothing(reply) => return reply,
            Effect::Notes(reply) => return self.note(tenant, event, reply),
            effect => effect,
        };
        let (purse, mut account) = (self.purse_of(tenant), self.account(tenant));
        let passed = self.passed_after(tenant, &effect);
        let Ok(reply) = effect.make(tenant, &mut self.jobs, &mut self.journal, &mut account) else {
            return Reply::NoMemory;
        };
        self.passed = passed;
        self.ledgers
            .write_down(&mut self.journal, purse, tenant, account, event);
        reply
    }
}
