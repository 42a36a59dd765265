//! Turns: how a job's search is lent to a worker, and comes back.
ghost use Rattle.std.specs.Prelude.{◌≡◌, ◌≢◌, ℕ, ◌<◌, ◌≤◌, ◌+◌, ◌-◌, ◌&&◌, min, true, false, Some, length, IsTrue, IfSome, IfNone, IfOk, IfErr, OnErr, OnOk};
ghost use Rattle.job_table.specs.Job.{IsStrange};
ghost use Rattle.job_table.specs.Table.{JobData, find_row, is_waiting};
ghost use Rattle.farm_core.specs.Tenant.{line_of};
ghost use Rattle.farm_core.specs.Step.{is_slice, has_room};
ghost use Rattle.farm_core.specs.World.{World, view};
ghost use Rattle.quanta_till.specs.Lease.{after_use};
ghost use Rattle.strategy.specs.Search.{nodes_within, ran_on};
ghost use Rattle.farm_core.specs.Farm.{ArePassed, IsNext};
ghost use Rattle.farm_core.specs.Turn.{IsTurn, IsTaken, IsNotTaken, IsGiven, IsIdle, IsReady, IsFirstReady};

use crate::farm::jobs::{send, take_back};
use crate::farm::{keep_room, line_of};
use crate::{Event, Farm, Line, MOST_ENTRIES, MOST_SLICE, NoTurn, Reply};
use job_table::JobTable;
use std::marker::Model;
use strategy::Strategy;

/// A `Turn` is a job's search lent to a worker for at most `slice` nodes. It is given back to its
/// farm, or abandoned.
pub struct Turn<J> {
    pub(crate) tenant: u32,
    pub(crate) seq: u64,
    pub(crate) slice: u64,
    pub(crate) ran: u64,
    pub(crate) search: J,
}

impl<J> Model for Turn<J> {
    ghost use Rattle.farm_core.specs.Turn.{TurnData};

    ghost Value = { TurnData J };

    ghost view = { λ t. record { tenant = t.tenant; seq = t.seq; slice = t.slice; ran = t.ran; search = t.search } };

    ghost inverse = { λ t. record { tenant = t.tenant; seq = t.seq; slice = t.slice; ran = t.ran; search = t.search } };
}

/// The job whose turn is next, and the last that is skipped.
#[derive(Clone, Copy)]
struct Next {
    ready: Option<(u32, u64)>,
    passed: Option<(u32, u64)>,
}

/// A `Stranger` is a turn that is of no job of the farm that is out.
pub struct Stranger<J>(pub Turn<J>);

/// 1 to 1,000,000 nodes.
fn is_slice(slice: u64) -> bool
    ensures { result ≡ is_slice slice }
{
    0 < slice && slice <= MOST_SLICE
}

/// The line of job `seq`, or `before` if there is none.
fn line_after<J>(jobs: &JobTable<J>, tenant: u32, seq: u64, before: Line) -> Line
    ensures { (job : JobData) → find_row tenant seq jobs.now.rows ≡ Some job → result ≡ line_of job }
{
    match jobs.find(tenant, seq) {
        Some(job) => line_of(job),
        None => before,
    }
}

impl<J: Strategy> Turn<J> {
    /// The number of the job's tenant.
    pub fn tenant(&self) -> u32
        ensures { result ≡ self.now.tenant }
    {
        self.tenant
    }

    /// The job's number.
    pub fn seq(&self) -> u64
        ensures { result ≡ self.now.seq }
    {
        self.seq
    }

    /// Runs as many nodes as the slice and the job's quanta allow, or until the search is over.
    /// Returns their number, which the search's lease pays. A second call runs none.
    pub fn run(&mut self) -> u64
        requires { IsTurn self.old.slice self.old.ran (J.meaning self.old.search) }
        ensures first { self.old.ran ≡ 0 → result ≡ nodes_within self.old.slice (J.meaning self.old.search) }
        ensures again { self.old.ran ≢ 0 → result ≡ 0 }
        ensures search { J.meaning self.new.search ≡ ran_on result (J.meaning self.old.search) }
        ensures paid { J.lease self.new.search ≡ after_use (J.lease self.old.search) result }
        ensures ran { self.new.ran ≡ self.old.ran + result }
        ensures tenant { self.new.tenant ≡ self.old.tenant }
        ensures seq { self.new.seq ≡ self.old.seq }
        ensures slice { self.new.slice ≡ self.old.slice }
        ensures turn { IsTurn self.new.slice self.new.ran (J.meaning self.new.search) }
    {
        if self.ran > 0 {
            return 0;
        }
        self.ran = self.search.run(self.slice);
        self.ran
    }

    /// Drops the turn with its search. Its job stays out.
    pub fn abandon(self) {
        let Turn {
            tenant: _,
            seq: _,
            slice: _,
            ran: _,
            search,
        } = self;
        drop(search);
    }
}

impl<J: Strategy> Farm<J> {
    fn may_take(&self, tenant: u32, line: Line, slice: u64) -> bool
        requires { tenant < length self.now.config.tenants }
        ensures exact { result ≡ (is_waiting line.phase && is_slice slice && has_room 2 (view tenant self.now)) }
        ensures few { IsTrue result → (view tenant self.now).used ≤ MOST_ENTRIES }
    {
        line.phase.is_waiting() && is_slice(slice) && self.has_room(tenant, 2)
    }

    /// Takes a turn of job `seq`, which waits, for `slice` nodes, 1 to 1,000,000. Keeps an entry of
    /// the journal for the give. Fails with `NoMemory` only if the turn could be taken.
    #[tactic(auto, using(crate::proofs::GiveLemmas::take_unknown, crate::proofs::GiveLemmas::take_refused))]
    pub fn take(&mut self, tenant: u32, seq: u64, slice: u64) -> Result<Turn<J>, NoTurn>
        requires { tenant < length self.old.config.tenants }
        ensures taken { IfOk result (λ turn. IsTaken self.old tenant seq slice (J.meaning turn.search) self.new) }
        ensures tenant { IfOk result (λ turn. turn.tenant ≡ tenant) }
        ensures seq { IfOk result (λ turn. turn.seq ≡ seq) }
        ensures slice { IfOk result (λ turn. turn.slice ≡ slice) }
        ensures ran { IfOk result (λ turn. turn.ran ≡ 0) }
        ensures turn { IfOk result (λ turn. IsTurn turn.slice turn.ran (J.meaning turn.search)) }
        ensures refused { IfErr result (λ why. IsNotTaken self.old tenant seq slice why self.new) }
        ensures ready { IfErr result (λ why. why ≡ NoTurn.NoMemory → IsReady self.old tenant seq slice) }
        ensures kept { OnErr result (self.new ≡ self.old) }
    {
        let Some(line) = self.snapshot(tenant, seq) else {
            return Err(NoTurn::None);
        };
        if !self.may_take(tenant, line, slice) {
            return Err(NoTurn::None);
        }
        let purse = self.purse_of(tenant);
        let mut account = self.account(tenant);
        let Ok(()) = keep_room(&mut self.journal, self.jobs.len()) else {
            return Err(NoTurn::NoMemory);
        };
        account.used += 1;
        let Some(search) = send(&mut self.jobs, tenant, seq, slice) else {
            return Err(NoTurn::NoMemory);
        };
        let event = Event::Take(seq, slice);
        self.ledgers
            .write_down(&mut self.journal, purse, tenant, account, event);
        Ok(Turn {
            tenant,
            seq,
            slice,
            ran: 0,
            search,
        })
    }

    /// Takes back the turn of a job that is out. A job that waits again waits behind all others.
    /// Returns any other turn, and then nothing has changed. Takes no memory.
    pub fn give(&mut self, turn: Turn<J>) -> Result<Reply, Stranger<J>>
        requires known { turn.tenant < length self.old.config.tenants }
        requires turn { IsTurn turn.slice turn.ran (J.meaning turn.search) }
        ensures given { IfOk result
            (λ reply.
            IsGiven self.old turn.tenant turn.seq turn.slice turn.ran (J.meaning turn.search) reply self.new) }
        ensures strange { OnErr result
            (IsStrange self.old.rows turn.tenant turn.seq turn.slice turn.ran (J.meaning turn.search)) }
        ensures kept { OnErr result (self.new ≡ self.old) }
        ensures back { IfErr result (λ stranger. stranger.0 ≡ turn) }
    {
        let Some(before) = self.snapshot(turn.tenant, turn.seq) else {
            return Err(Stranger(turn));
        };
        let purse = self.purse_of(turn.tenant);
        let mut account = self.account(turn.tenant);
        let Turn {
            tenant,
            seq,
            slice,
            ran,
            search,
        } = turn;
        if let Err(search) = take_back(&mut self.jobs, tenant, seq, slice, ran, search) {
            return Err(Stranger(Turn {
                tenant,
                seq,
                slice,
                ran,
                search,
            }));
        }
        let line = line_after(&self.jobs, tenant, seq, before);
        account.used += 1;
        account.book.spend(ran);
        account.book.free_up(before.left - ran - line.left);
        let event = Event::Give(seq, ran);
        self.ledgers
            .write_down(&mut self.journal, purse, tenant, account, event);
        Ok(Reply::Ran(ran, line))
    }

    /// The first waiting job behind `passed`.
    fn first_unpassed(&self) -> Option<(u32, u64)>
        ensures { IsNext self.now 0 result }
    {
        match self.passed {
            Some((tenant, seq)) => self.jobs.next_waiting(tenant, seq),
            None => self.jobs.first_waiting(),
        }
    }

    /// The first job in the queue of which a turn of `slice` nodes can be taken. Looks behind
    /// `passed` alone.
    fn next_ready(&self, slice: u64) -> Next
        ensures first { IfSome result.ready (λ key. IsFirstReady self.now key.0 key.1 slice) }
        ensures idle { IfNone result.ready (IsIdle self.now slice) }
        ensures passed { ArePassed self.now result.passed }
    {
        let mut passed = self.passed;
        if !is_slice(slice) {
            return Next {
                ready: None,
                passed,
            };
        }
        let mut at = self.first_unpassed();
        for i in 0..self.jobs.waiting_len() {
            let Some((tenant, seq)) = at else {
                return Next {
                    ready: None,
                    passed,
                };
            };
            if self.has_room(tenant, 2) {
                return Next { ready: at, passed };
            }
            passed = at;
            at = self.jobs.next_waiting(tenant, seq);
        }
        Next {
            ready: None,
            passed,
        }
    }

    /// Takes a turn of the first waiting job whose tenant has entries for it. Fails with `NoMemory`
    /// only if there is such a job. It skips jobs whose tenants have no entries for a turn, and
    /// remembers how far (`passed`) until such a tenant cancels or forgets a job.
    pub fn take_next(&mut self, slice: u64) -> Result<Turn<J>, NoTurn>
        ensures taken { IfOk result
            (λ turn. IsTaken self.old turn.tenant turn.seq slice (J.meaning turn.search) self.new) }
        ensures first { IfOk result (λ turn. IsFirstReady self.old turn.tenant turn.seq slice) }
        ensures known { IfOk result (λ turn. turn.tenant < length self.old.config.tenants) }
        ensures slice { IfOk result (λ turn. turn.slice ≡ slice) }
        ensures ran { IfOk result (λ turn. turn.ran ≡ 0) }
        ensures turn { IfOk result (λ turn. IsTurn turn.slice turn.ran (J.meaning turn.search)) }
        ensures idle { IfErr result (λ why. why ≡ NoTurn.None → IsIdle self.old slice) }
        ensures ready { IfErr result (λ why. why ≡ NoTurn.NoMemory → (t : ℕ) × (s : ℕ) × IsReady self.old t s slice) }
        ensures kept { OnErr result (self.new ≡ self.old) }
    {
        let next = self.next_ready(slice);
        self.passed = next.passed;
        let Some((tenant, seq)) = next.ready else {
            return Err(NoTurn::None);
        };
        self.take(tenant, seq, slice)
    }
}
