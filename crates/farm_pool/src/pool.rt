ghost use Rattle.std.specs.Prelude.{◌≡◌, ◌≢◌, ◌<◌, ◌≤◌, [], length, map, All, IfOk, IfSome};
ghost use Rattle.std.specs.Vec.{vec_capacity};
ghost use Rattle.turn_lock.specs.History.{entries_of};
ghost use Rattle.turn_lock.specs.Plays.{having_split, newcomer, AreCalled, BothSeen, Called};
ghost use Rattle.turn_lock.specs.Rule.{opened};
ghost use Rattle.turn_lock.specs.Values.{IsPassOf};
ghost use Rattle.farm_core.specs.Command.{event_of, IsFresh};
ghost use Rattle.farm_pool.specs.declared.image.AnswerImage.TheVariants as told;
ghost use Rattle.farm_pool.specs.declared.image.CallImage.TheVariants as said;
ghost use Rattle.farm_pool.specs.Closed.{IsIsolated};
ghost use Rattle.farm_pool.specs.Laws.{IsTrueOf};
ghost use Rattle.farm_pool.specs.Query.{query_image};
ghost use Rattle.farm_pool.specs.Served.{Served};
ghost use Rattle.farm_pool.specs.Worked.{IsClosed};

use crate::laws::{closed_pools_are_isolated, each_reply_is_true};
use crate::locked_farm::{FarmAnswer, FarmCall, LockedFarm};
use crate::query::Query;
use farm_core::{Command, Config, Farm, Reply};
use std::alloc::{AllocError, Global};
use std::marker::Model;
use std::snapshot::Snapshot;
use std::sync::Wait;
use std::thread::Promise;
use strategy::Strategy;
use turn_lock::{Pass, TurnLock};

/// Not generic in the search: what a lock sends to threads may not rest on a bound on searches.
pub(crate) type FarmLock = TurnLock<LockedFarm<Box<dyn Strategy>>>;

/// A `PoolPass` is a thread's token for calls of a pool. It knows a prefix of the history.
pub type PoolPass = Pass<LockedFarm<Box<dyn Strategy>>>;

/// A `Pool` is a farm that threads call one at a time. Nodes run while no thread has the farm.
#[derive(Drop)]
pub struct Pool {
    pub(crate) lock: FarmLock,
    pub(crate) slice: u64,
}

impl Model for Pool {
    ghost use Rattle.farm_pool.specs.Pool.{PoolData};

    ghost Value = { PoolData };

    ghost view = { λ p. record { lock = p.lock; slice = p.slice } };
}

/// A `ReturnsPass` is a thread's promise to bring back a pass of this lock.
#[derive(Drop)]
pub struct ReturnsPass<J>(Snapshot<TurnLock<LockedFarm<J>>>);

impl<J> Model for ReturnsPass<J> {
    ghost use Rattle.farm_core.specs.Config.{ConfigData};
    ghost use Rattle.turn_lock.specs.Values.{LockValue};

    ghost Value = { LockValue ConfigData };

    ghost view = { λ p. p.0.value };
}

impl<J> Promise<Pass<LockedFarm<J>>> for ReturnsPass<J> {
    ghost use Rattle.turn_lock.specs.Values.{IsPassOf};

    ghost kept_by = { λ lock pass. IsPassOf lock pass };
}

impl Pool {
    /// Opens a pool on an empty farm, with its first pass. Turns have the slice of `config`.
    pub fn new(alloc: Global, config: &Config) -> Result<(Pool, PoolPass), AllocError>
        ensures own { IfOk result (λ made. IsPassOf made.0.lock made.1) }
        ensures opening { IfOk result (λ made. made.0.lock.opening ≡ config.now) }
        ensures slice { IfOk result (λ made. made.0.slice ≡ config.now.slice) }
        ensures pass { IfOk result (λ made. made.1.view ≡ opened config.now) }
    {
        let farm = LockedFarm::new(alloc, config)?;
        match TurnLock::new(alloc, farm) {
            Ok((lock, pass)) => Ok((
                Pool {
                    lock,
                    slice: config.slice(),
                },
                pass,
            )),
            Err(refused) => {
                drop(refused.value);
                Err(AllocError)
            }
        }
    }

    /// Waits for the farm, and calls it. `pass` then knows all entries up to the call's own.
    pub fn call<R: Wait>(
        &self,
        rt: &R,
        pass: &mut PoolPass,
        tenant: u32,
        command: Command<Box<dyn Strategy>>,
    ) -> Reply
        requires own { IsPassOf self.now.lock pass.old }
        requires known { tenant < length self.now.lock.opening.tenants }
        requires fresh { IsFresh (λ b. meaning b) tenant command }
        ensures own { IsPassOf self.now.lock pass.new }
        ensures called { Called Served pass.old.view
            (said.Asked tenant (event_of command)) (told.Replied result) pass.new.view }
        ensures truth { IsTrueOf pass.old.view tenant (event_of command) result pass.new.view }
    {
        each_reply_is_true();
        match self
            .lock
            .with_turn(rt, pass, FarmCall::Asked(tenant, command))
        {
            FarmAnswer::Replied(reply) => reply,
            _ => unreachable!(),
        }
    }

    /// Waits for the farm once, and answers `queries` in their order: no other call is made between
    /// them. The laws of a reply of [`call`](Pool::call) hold of each of these.
    pub fn ask_all<R: Wait>(
        &self,
        rt: &R,
        pass: &mut PoolPass,
        queries: &[Query],
        replies: &mut Vec<Reply>,
    )
        requires own { IsPassOf self.now.lock pass.old }
        requires known { All (λ query. query.tenant < length self.now.lock.opening.tenants) queries.now }
        requires none { replies.old.items ≡ [] }
        requires room { length queries.now ≤ vec_capacity replies.old }
        ensures own { IsPassOf self.now.lock pass.new }
        ensures called { AreCalled Served pass.old.view
            (map query_image queries.now)
            (map (λ reply. told.Replied reply) replies.new.items)
            pass.new.view }
        ensures capacity { vec_capacity replies.new ≡ vec_capacity replies.old }
    {
        self.lock.with_queries(rt, pass, queries, replies);
    }

    /// Returns a pass for another thread, with this pass's knowledge and no calls of its own.
    pub fn split_pass(&self, pass: &mut PoolPass) -> PoolPass
        requires own { IsPassOf self.now.lock pass.old }
        ensures split { pass.new ≡ record pass.old { view = having_split pass.old.view } }
        ensures own { IsPassOf self.now.lock result }
        ensures new { result.view ≡ newcomer pass.old.view result.view.number }
        ensures apart { result.view.number ≢ pass.old.view.number }
        ensures unseen { entries_of result.view.number pass.old.view.seen ≡ [] }
    {
        self.lock.split_pass(pass)
    }

    /// Ends `other`. `pass` then knows what either had seen, and counts the splits of both.
    pub fn join_pass(&self, pass: &mut PoolPass, other: PoolPass)
        requires own { IsPassOf self.now.lock pass.old }
        requires other { IsPassOf self.now.lock other }
        ensures own { IsPassOf self.now.lock pass.new }
        ensures both { BothSeen Served pass.old.view other.view pass.new.view }
    {
        self.lock.join_pass(pass, other);
    }

    /// The promise of a thread to bring back a pass of this pool.
    pub fn promise(&self) -> ReturnsPass<Box<dyn Strategy>>
        ensures { result ≡ self.now.lock }
    {
        ReturnsPass(Snapshot::of(&self.lock))
    }

    /// Returns the farm, with a legal history that begins with what `pass` has seen. Returns `None`
    /// if a turn of the lock is still held: a pass was then lost during a call.
    pub fn close(self, pass: PoolPass) -> Option<Farm<Box<dyn Strategy>>>
        requires { IsPassOf self.lock pass }
        ensures closed { IfSome result (λ farm. IsClosed pass.view farm) }
        ensures isolated { IfSome result (λ farm. IsIsolated pass.view farm) }
        ensures config { IfSome result (λ farm. farm.config ≡ self.lock.opening) }
    {
        closed_pools_are_isolated();
        let Pool { lock, slice: _ } = self;
        match lock.close(pass) {
            Some(LockedFarm { farm }) => {
                farm.journal();
                Some(Box::into_inner(farm))
            }
            None => None,
        }
    }
}
