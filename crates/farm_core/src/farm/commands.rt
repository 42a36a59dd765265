//! What tenants ask of the farm.
ghost use Rattle.std.specs.Prelude.{◌≡◌, ℕ, ◌<◌, ◌≤◌, ◌+◌, ◌++◌, [], ◌∷◌, true, IfOk, OnErr, IsTrue, length, option_map, nat_lt};
ghost use Rattle.std.specs.Option.{option_copied};
ghost use Rattle.mrcpsp.specs.Project.{is_project};
ghost use Rattle.job_table.specs.Table.{JobData};
ghost use Rattle.job_table.specs.Job.{fresh_search, given_up};
ghost use Rattle.farm_core.specs.declared.reply.Line.{Line};
ghost use Rattle.farm_core.specs.Tenant.{line_of};
ghost use Rattle.farm_core.specs.Step.{Replied, step, has_room, is_amount};
ghost use Rattle.farm_core.specs.World.{World, view, KeepsTurns};
ghost use Rattle.farm_core.specs.Farm.{IsReply};
ghost use Rattle.farm_core.specs.Decided.{IsDecided};

use crate::farm::effect::{Change, Effect};
use crate::farm::line_of;
use crate::{Event, Farm, Line, MOST_QUANTA, NotedPlan, Reply};
use job_table::{Job, Phase};
use mrcpsp::Schedule;
use std::alloc::{AllocError, Global};
use strategy::{Plan, Strategy};

/// 1 to 10^12 quanta.
fn is_amount(quanta: u64) -> bool
    ensures { result ≡ is_amount quanta }
{
    0 < quanta && quanta <= MOST_QUANTA
}

fn clone_best(alloc: Global, best: Option<&Schedule>) -> Result<Option<Schedule>, AllocError>
    ensures { IfOk result (λ copy. copy ≡ option_copied best.entry) }
{
    let Some(schedule) = best else {
        return Ok(None);
    };
    Ok(Some(Schedule {
        modes: schedule.modes.clone_in(alloc)?,
        starts: schedule.starts.clone_in(alloc)?,
    }))
}

/// The event of a submit, with a copy of `plan`.
fn submission(alloc: Global, plan: &Plan, quanta: u64) -> Result<Event, AllocError>
    ensures event { IfOk result (λ event. event ≡ Event.Submit plan.now quanta) }
    ensures planned { IsTrue (is_project plan.now.project) }
{
    // (the contract of this reader says that a project is one)
    plan.project.activities();
    Ok(Event::Submit(NotedPlan::of(alloc, plan)?, quanta))
}

/// The job's line after a cancel, or `None` if the job has ended or is leaving.
#[tactic(auto, unfolding(crate::specs::Tenant::line_of))]
fn given_up(line: Line) -> Option<Line>
    ensures { (job : JobData) → line ≡ line_of job → result ≡ option_map line_of (given_up job job.phase) }
{
    match line.phase {
        Phase::Waiting | Phase::Dry => Some(Line {
            phase: Phase::Cancelled,
            left: 0,
            ..line
        }),
        Phase::Out(slice) => Some(Line {
            phase: Phase::Leaving(slice),
            ..line
        }),
        Phase::Leaving(_) | Phase::Closed | Phase::Cancelled => None,
    }
}

impl<J: Strategy> Farm<J> {
    #[tactic(auto, unfolding(crate::specs::World::view, crate::specs::World::member))]
    fn may_keep_more(&self, tenant: u32) -> bool
        requires { tenant < length self.now.config.tenants }
        ensures { result ≡ nat_lt (length (view tenant self.now).jobs) (view tenant self.now).terms.jobs }
    {
        let line = &self.config.tenants()[tenant as usize];
        (self.jobs.count_of(tenant) as u64) < line.jobs
    }

    #[inline(always)]
    fn decide_ledger(&self, tenant: u32) -> Effect<J>
        requires { tenant < length self.now.config.tenants }
        ensures { IsDecided (view tenant self.now) Event.Ledger result }
    {
        if !self.has_room(tenant, 1) {
            return Effect::Nothing(Reply::NoRoom);
        }
        Effect::Notes(Reply::Ledger(self.book(tenant)))
    }

    /// Replies the ledger of the tenant's purse. Refused: `NoRoom`, `NoMemory`.
    pub fn ledger(&mut self, tenant: u32) -> Reply
        requires { tenant < length self.old.config.tenants }
        ensures { IsReply self.old tenant Event.Ledger result self.new }
    {
        let effect = self.decide_ledger(tenant);
        self.commit(tenant, Event::Ledger, effect)
    }

    #[inline(always)]
    fn decide_status(&self, tenant: u32, seq: u64) -> Effect<J>
        requires { tenant < length self.now.config.tenants }
        ensures { IsDecided (view tenant self.now) (Event.Status seq) result }
    {
        if !self.has_room(tenant, 1) {
            return Effect::Nothing(Reply::NoRoom);
        }
        let Some(job) = self.job(tenant, seq) else {
            return Effect::Notes(Reply::NoUnknown);
        };
        Effect::Notes(Reply::Line(line_of(job)))
    }

    /// Replies the line of job `seq`. Refused, the first of: `NoRoom`, `NoUnknown`; `NoMemory` in
    /// place of any reply but `NoRoom`.
    pub fn status(&mut self, tenant: u32, seq: u64) -> Reply
        requires { tenant < length self.old.config.tenants }
        ensures { IsReply self.old tenant (Event.Status seq) result self.new }
    {
        let effect = self.decide_status(tenant, seq);
        self.commit(tenant, Event::Status(seq), effect)
    }

    /// Takes memory for the job alone. `submit` has seen that the journal has room.
    #[tactic(auto, unfolding(crate::specs::Step::to_submit))]
    #[inline(always)]
    fn decide_submit(
        &self,
        tenant: u32,
        plan: Plan,
        quanta: u64,
        search: J,
    ) -> Result<Effect<J>, AllocError>
        requires known { tenant < length self.now.config.tenants }
        requires room { has_room 1 (view tenant self.now) ≡ true }
        requires fresh { J.meaning search ≡ fresh_search tenant plan }
        ensures { IfOk result (λ effect. IsDecided (view tenant self.now) (Event.Submit plan quanta) effect) }
    {
        if !is_amount(quanta) {
            return Ok(Effect::Notes(Reply::NoAmount));
        }
        if !self.may_keep_more(tenant) {
            return Ok(Effect::Notes(Reply::NoJobs));
        }
        let mut account = self.account(tenant);
        if let Err(short) = account.book.hold(quanta) {
            return Ok(Effect::Notes(Reply::NoShort(short.0)));
        }
        let job = Job::new(self.alloc, tenant, account.next, plan, quanta, search)?;
        Ok(Effect::Adds(job, account))
    }

    /// Adds a job for `plan` that holds `quanta`. It waits behind all others. `search` is fresh: of
    /// this tenant and plan, it has run no node. A refused submit drops it. Refused, the first of:
    /// `NoRoom`, `NoAmount`, `NoJobs`, `NoShort`; `NoMemory` in place of any reply but `NoRoom`.
    pub fn submit(&mut self, tenant: u32, plan: Plan, quanta: u64, search: J) -> Reply
        requires known { tenant < length self.old.config.tenants }
        requires fresh { J.meaning search ≡ fresh_search tenant plan }
        ensures follows { IsReply self.old tenant (Event.Submit plan quanta) result self.new }
        ensures turns { (seq : ℕ) → result ≡ Reply.Job seq → self.new.waiting ≡ self.old.waiting ++ (tenant, seq) ∷ [] }
    {
        if !self.has_room(tenant, 1) {
            return Reply::NoRoom;
        }
        let Ok(event) = submission(self.alloc, &plan, quanta) else {
            return Reply::NoMemory;
        };
        let Ok(effect) = self.decide_submit(tenant, plan, quanta, search) else {
            return Reply::NoMemory;
        };
        self.commit(tenant, event, effect)
    }

    /// Takes memory for a copy of the schedule alone.
    #[tactic(auto, unfolding(crate::specs::Step::to_fetch))]
    #[inline(always)]
    fn decide_result(&self, tenant: u32, seq: u64) -> Result<Effect<J>, AllocError>
        requires { tenant < length self.now.config.tenants }
        ensures decided { IfOk result (λ effect. IsDecided (view tenant self.now) (Event.Fetch seq) effect) }
        ensures room { OnErr result (has_room 1 (view tenant self.now) ≡ true) }
    {
        if !self.has_room(tenant, 1) {
            return Ok(Effect::Nothing(Reply::NoRoom));
        }
        let Some(job) = self.job(tenant, seq) else {
            return Ok(Effect::Notes(Reply::NoUnknown));
        };
        if job.phase().is_out() {
            return Ok(Effect::Notes(Reply::NoBusy));
        }
        let best = clone_best(self.alloc, job.best())?;
        let reply = Reply::Best(job.seq(), best, job.makespan(), job.verdict());
        Ok(Effect::Notes(reply))
    }

    /// Replies the best schedule of job `seq`, its makespan in periods, and the verdict. Refused,
    /// the first of: `NoRoom`, `NoUnknown`, `NoBusy`; `NoMemory` in place of any reply but
    /// `NoRoom`.
    pub fn result(&mut self, tenant: u32, seq: u64) -> Reply
        requires { tenant < length self.old.config.tenants }
        ensures { IsReply self.old tenant (Event.Fetch seq) result self.new }
    {
        let Ok(effect) = self.decide_result(tenant, seq) else {
            return Reply::NoMemory;
        };
        self.commit(tenant, Event::Fetch(seq), effect)
    }

    #[tactic(auto, unfolding(crate::specs::Step::to_fund))]
    #[inline(always)]
    fn decide_fund(&self, tenant: u32, seq: u64, quanta: u64) -> Effect<J>
        requires { tenant < length self.now.config.tenants }
        ensures { IsDecided (view tenant self.now) (Event.Fund seq quanta) result }
    {
        if !self.has_room(tenant, 1) {
            return Effect::Nothing(Reply::NoRoom);
        }
        let Some(job) = self.job(tenant, seq) else {
            return Effect::Notes(Reply::NoUnknown);
        };
        if job.phase().is_out() {
            return Effect::Notes(Reply::NoBusy);
        }
        if job.phase().is_ended() {
            return Effect::Notes(Reply::NoOver);
        }
        if !is_amount(quanta) {
            return Effect::Notes(Reply::NoAmount);
        }
        let mut account = self.account(tenant);
        if let Err(short) = account.book.hold(quanta) {
            return Effect::Notes(Reply::NoShort(short.0));
        }
        let line = Line {
            phase: Phase::Waiting,
            left: job.left() + quanta,
            ..line_of(job)
        };
        Effect::Changes(line, account, Change::Fund(quanta))
    }

    /// Gives job `seq` `quanta` more of those that are free. It waits at its place, or behind all
    /// others if it was dry. Refused, the first of: `NoRoom`, `NoUnknown`, `NoBusy`, `NoOver`,
    /// `NoAmount`, `NoShort`; `NoMemory` in place of any reply but `NoRoom`.
    pub fn fund(&mut self, tenant: u32, seq: u64, quanta: u64) -> Reply
        requires { tenant < length self.old.config.tenants }
        ensures follows { IsReply self.old tenant (Event.Fund seq quanta) result self.new }
        ensures turns { KeepsTurns self.old tenant seq self.new }
    {
        let effect = self.decide_fund(tenant, seq, quanta);
        self.commit(tenant, Event::Fund(seq, quanta), effect)
    }

    #[tactic(auto, unfolding(crate::specs::Step::to_cancel))]
    #[inline(always)]
    fn decide_cancel(&self, tenant: u32, seq: u64) -> Effect<J>
        requires { tenant < length self.now.config.tenants }
        ensures { IsDecided (view tenant self.now) (Event.Cancel seq) result }
    {
        if !self.has_room(tenant, 1) {
            return Effect::Nothing(Reply::NoRoom);
        }
        let Some(job) = self.job(tenant, seq) else {
            return Effect::Notes(Reply::NoUnknown);
        };
        let Some(line) = given_up(line_of(job)) else {
            return Effect::Notes(Reply::NoOver);
        };
        let mut account = self.account(tenant);
        account.book.free_up(job.left() - line.left);
        Effect::Changes(line, account, Change::GiveUp)
    }

    /// Cancels job `seq`, and frees the quanta that it held. While its turn is out it is leaving
    /// instead. A cancel that is not refused takes no memory. Refused, the first of: `NoRoom`,
    /// `NoUnknown`, `NoOver`; `NoMemory` in place of the last two.
    pub fn cancel(&mut self, tenant: u32, seq: u64) -> Reply
        requires { tenant < length self.old.config.tenants }
        ensures follows { IsReply self.old tenant (Event.Cancel seq) result self.new }
        ensures turns { KeepsTurns self.old tenant seq self.new }
        ensures accepted { (line : Line)
            → (step (view tenant self.old) (Event.Cancel seq)).answer ≡ Replied (Reply.Line line)
            → result ≡ Reply.Line line }
    {
        let effect = self.decide_cancel(tenant, seq);
        self.commit(tenant, Event::Cancel(seq), effect)
    }

    #[tactic(auto, unfolding(crate::specs::Step::to_forget))]
    #[inline(always)]
    fn decide_forget(&self, tenant: u32, seq: u64) -> Effect<J>
        requires { tenant < length self.now.config.tenants }
        ensures { IsDecided (view tenant self.now) (Event.Forget seq) result }
    {
        if !self.has_room(tenant, 1) {
            return Effect::Nothing(Reply::NoRoom);
        }
        let Some(job) = self.job(tenant, seq) else {
            return Effect::Notes(Reply::NoUnknown);
        };
        if !job.phase().is_ended() {
            return Effect::Notes(Reply::NoBusy);
        }
        Effect::Drops(job.seq())
    }

    /// Removes job `seq`, which has ended. Refused, the first of: `NoRoom`, `NoUnknown`, `NoBusy`;
    /// `NoMemory` in place of any reply but `NoRoom`.
    pub fn forget(&mut self, tenant: u32, seq: u64) -> Reply
        requires { tenant < length self.old.config.tenants }
        ensures { IsReply self.old tenant (Event.Forget seq) result self.new }
    {
        let effect = self.decide_forget(tenant, seq);
        self.commit(tenant, Event::Forget(seq), effect)
    }
}
