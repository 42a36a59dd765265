//! A pool of two tenants with a pass, and the tills of their purses.
ghost use Rattle.std.specs.Prelude.{◌≡◌, ◌<◌, length};
ghost use Rattle.farm_core.specs.Command.{IsFresh};
ghost use Rattle.quanta_till.specs.Lease.{IsEmpty};
ghost use Rattle.turn_lock.specs.Values.{IsPassOf};

use crate::crew::{work_both, work_in_fours, work_while_cancelled};
use crate::fixtures::{A, B, Planned, Purse, config_of, pool_of, settle, settle_shared};
use farm_core::{Config, Reply};
use farm_pool::{Command, Gate, Pool, PoolPass, Settled, Unsettled, WorkEnd};
use job_table::is_fresh;
use quanta_till::Lease;
use std::alloc::Global;
use std::process::Abort;
use std::sync::Wait;
use std::thread::Threads;
use strategy::Strategy;

/// A pool of the tenants a and b, one pass of it, and their purses.
#[derive(Drop)]
pub(crate) struct Stand {
    config: Config,
    pub(crate) pool: Pool,
    pass: PoolPass,
    first: Purse,
    second: Option<Purse>,
    ghost own: { IsPassOf pool.lock pass },
    ghost two: { length pool.lock.opening.tenants ≡ 2 },
    ghost opening: { pool.lock.opening ≡ config },
}

impl Stand {
    /// a has 100 quanta and `entries` entries of the journal, b has 10 quanta and 100 entries.
    pub(crate) fn new(rt: &impl Abort, alloc: Global, entries: u64) -> Stand {
        let tenants = [("a", "", 100, entries), ("b", "", 10, 100)];
        let config = config_of(rt, alloc, &tenants, 2);
        let first = Purse::new(rt, alloc, A, 100);
        let second = Some(Purse::new(rt, alloc, B, 10));
        let (pool, pass) = pool_of(alloc, &config, 2).expect(rt, "no memory for a pool");
        Stand {
            config,
            pool,
            pass,
            first,
            second,
        }
    }

    /// Both share a purse of 20 quanta, of which a brings 6. Each has 100 entries of the journal.
    pub(crate) fn shared(rt: &impl Abort, alloc: Global) -> Stand {
        let tenants = [("a", "p", 6, 100), ("b", "p", 14, 100)];
        let config = config_of(rt, alloc, &tenants, 2);
        let first = Purse::new(rt, alloc, A, 20);
        let (pool, pass) = pool_of(alloc, &config, 2).expect(rt, "no memory for a pool");
        Stand {
            config,
            pool,
            pass,
            first,
            second: None,
        }
    }

    pub(crate) fn ask<R: Wait>(
        &mut self,
        rt: &R,
        tenant: u32,
        command: Command<Box<dyn Strategy>>,
    ) -> Reply
        requires known { tenant < 2 }
        requires fresh { IsFresh (λ b. (Strategy-box b).meaning b.value) tenant command }
        ensures { self.new.pool ≡ self.old.pool }
    {
        self.pool.call(rt, &mut self.pass, tenant, command)
    }

    pub(crate) fn lease(&mut self, rt: &impl Abort, tenant: u32) -> Lease
        ensures empty { IsEmpty result }
        ensures pool { self.new.pool ≡ self.old.pool }
    {
        if tenant == B {
            if let Some(second) = &mut self.second {
                return second.lease(rt, tenant);
            }
        }
        self.first.lease(rt, tenant)
    }

    pub(crate) fn submit<R: Wait + Abort>(
        &mut self,
        rt: &R,
        tenant: u32,
        quanta: u64,
        planned: Planned,
    ) -> Reply
        requires { tenant < 2 }
        ensures { self.new.pool ≡ self.old.pool }
    {
        let Planned { plan, search } = planned;
        assert!(rt; is_fresh(&search, tenant, &plan), "a search that has run");
        let command = Command::Submit {
            plan,
            quanta,
            search,
        };
        self.ask(rt, tenant, command)
    }

    pub(crate) fn work<R: Wait, G: Gate>(&mut self, rt: &R, gate: &G) -> WorkEnd {
        self.pool.work(rt, &mut self.pass, gate)
    }

    pub(crate) fn work_both<R: Threads + Wait + Sync, G: Gate + Sync>(
        &mut self,
        rt: &R,
        gate: &G,
    ) -> (WorkEnd, WorkEnd) {
        work_both(rt, &self.pool, &mut self.pass, gate)
    }

    pub(crate) fn work_in_fours<R: Threads + Wait + Sync, G: Gate + Sync>(
        &mut self,
        rt: &R,
        gate: &G,
    ) -> ((WorkEnd, WorkEnd), (WorkEnd, WorkEnd)) {
        work_in_fours(rt, &self.pool, &mut self.pass, gate)
    }

    /// b cancels its first job meanwhile.
    pub(crate) fn work_while_cancelled<R: Threads + Wait + Sync, G: Gate + Sync>(
        &mut self,
        rt: &R,
        gate: &G,
    ) -> (WorkEnd, WorkEnd) {
        work_while_cancelled(rt, &self.pool, &mut self.pass, gate)
    }

    pub(crate) fn split(&mut self) -> PoolPass
        ensures own { IsPassOf self.new.pool.lock result }
        ensures pool { self.new.pool ≡ self.old.pool }
    {
        self.pool.split_pass(&mut self.pass)
    }

    /// The other pass ends.
    pub(crate) fn join(&mut self, other: PoolPass)
        requires { IsPassOf self.old.pool.lock other }
        ensures { self.new.pool ≡ self.old.pool }
    {
        self.pool.join_pass(&mut self.pass, other);
    }

    pub(crate) fn settle(self) -> Option<Result<Settled, Unsettled>> {
        let Stand {
            config,
            pool,
            pass,
            first,
            second,
        } = self;
        let farm = pool.close(pass)?;
        match second {
            Some(second) => settle(&config, farm, first, second),
            None => settle_shared(&config, farm, first),
        }
    }
}
