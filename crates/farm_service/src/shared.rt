//! What the threads of a service share: a pool, as they see it.
//!
//! A pool is a farm of boxed searches. What runs in threads is generic in the search, and only
//! `serve` names the boxes.
ghost use Rattle.std.specs.Prelude.{◌≡◌, ℕ, ◌<◌, ◌≤◌, [], All, length};
ghost use Rattle.std.specs.Vec.{vec_len, vec_capacity};
ghost use Rattle.quanta_till.specs.Lease.{LeaseValue};
ghost use Rattle.strategy.specs.Search.{Meaning};
ghost use Rattle.farm_core.specs.Command.{event_of, IsFresh};
ghost use Rattle.farm_core.specs.Config.{ConfigData};
ghost use Rattle.farm_core.specs.declared.entry.Event.{Event};
ghost use Rattle.farm_core.specs.declared.reply.Reply.{Reply};
ghost use Rattle.farm_service.specs.Asked.{AreAnswered};

use farm_core::{Command, Reply};
use farm_pool::{Gate, Pool, PoolPass, Query};
use std::snapshot::Snapshot;
use std::sync::Wait;
use std::thread::{Promise, PromisedHandle, Threads};
use strategy::Strategy;

/// A `Shared` is a pool as its threads see it. Each thread makes calls with a token of its own.
pub(crate) trait Shared {
    type Search;

    type Token;

    ghost config: { Self → ConfigData };

    ghost means: { Self.Search → Meaning };

    ghost leases: { Self.Search → LeaseValue };

    ghost owns: { Self → Self.Token → Type 0 };

    ghost tells: { Self → Self.Token → ℕ → Event → Reply → Self.Token → Type 0 };

    ghost works: { Self → Self.Token → Self.Token → Type 0 };

    /// Makes the call that a tenant asks for.
    fn call(&self, token: &mut Self::Token, tenant: u32, command: Command<Self::Search>) -> Reply
        requires own { owns self.now token.old }
        requires known { tenant < length (config self.now).tenants }
        requires fresh { IsFresh means tenant command }
        ensures own { owns self.now token.new }
        ensures told { tells self.now token.old tenant (event_of command) result token.new };

    /// Answers queries one after another, in one turn of the lock.
    fn ask_all(&self, token: &mut Self::Token, queries: &[Query], replies: &mut Vec<Reply>)
        requires own { owns self.now token.old }
        requires known { All (λ query. query.tenant < length (config self.now).tenants) queries.now }
        requires none { replies.old.items ≡ [] }
        requires room { length queries.now ≤ vec_capacity replies.old }
        ensures own { owns self.now token.new }
        ensures told { AreAnswered (tells self.now) token.old queries.now replies.new.items token.new }
        ensures capacity { vec_capacity replies.new ≡ vec_capacity replies.old };

    fn work<G: Gate>(&self, token: &mut Self::Token, gate: &G)
        requires { owns self.now token.old }
        ensures own { owns self.now token.new }
        ensures worked { works self.now token.old token.new };

    fn split(&self, token: &mut Self::Token) -> Self::Token
        requires { owns self.now token.old }
        ensures kept { owns self.now token.new }
        ensures new { owns self.now result };

    fn join(&self, token: &mut Self::Token, other: Self::Token)
        requires own { owns self.now token.old }
        requires other { owns self.now other }
        ensures { owns self.now token.new };
}

/// A `PoolAt` is a pool with the runtime at which its threads wait for the lock.
#[derive(Drop)]
pub(crate) struct PoolAt<'a, R> {
    pub(crate) rt: &'a R,
    pub(crate) pool: &'a Pool,
}

impl<'a, R: Wait> Shared for PoolAt<'a, R> {
    type Search = Box<dyn Strategy>;

    type Token = PoolPass;

    ghost use Rattle.turn_lock.specs.Plays.{Called};
    ghost use Rattle.turn_lock.specs.Values.{IsPassOf};
    ghost use Rattle.farm_pool.specs.declared.image.AnswerImage.TheVariants as told;
    ghost use Rattle.farm_pool.specs.declared.image.CallImage.TheVariants as said;
    ghost use Rattle.farm_pool.specs.Served.{Served};
    ghost use Rattle.farm_pool.specs.Worked.{Worked};
    ghost use Rattle.std.specs.Prelude.{ℕ};

    ghost config = { λ at. at.pool.now.lock.opening };

    ghost means = { λ b. (Strategy-box b).meaning b.value };

    ghost leases = { λ b. (Strategy-box b).lease b.value };

    ghost owns = { λ at pass. IsPassOf at.pool.now.lock pass };

    ghost tells = { λ at pass t e r new. Called Served pass.view (said.Asked t e) (told.Replied r) new.view };

    ghost works = { λ at pass new.
        (turns : ℕ) × (strangers : ℕ) × Worked at.pool.now.slice pass.view turns strangers new.view };

    // (the kit takes a command of boxes only with the clauses said again)
    fn call(&self, token: &mut PoolPass, tenant: u32, command: Command<Box<dyn Strategy>>) -> Reply
        requires own { IsPassOf self.now.pool.now.lock token.old }
        requires known { tenant < length self.now.pool.now.lock.opening.tenants }
        requires fresh { IsFresh (λ b. (Strategy-box b).meaning b.value) tenant command }
        ensures own { IsPassOf self.now.pool.now.lock token.new }
        ensures told { Called Served token.old.view
            (said.Asked tenant (event_of command)) (told.Replied result) token.new.view }
    {
        self.pool.call(self.rt, token, tenant, command)
    }

    fn ask_all(&self, token: &mut PoolPass, queries: &[Query], replies: &mut Vec<Reply>) {
        self.pool.ask_all(self.rt, token, queries, replies);
    }

    fn work<G: Gate>(&self, token: &mut PoolPass, gate: &G) {
        self.pool.work(self.rt, token, gate);
    }

    fn split(&self, token: &mut PoolPass) -> PoolPass {
        self.pool.split_pass(token)
    }

    fn join(&self, token: &mut PoolPass, other: PoolPass) {
        self.pool.join_pass(token, other);
    }
}

/// A `ReturnsToken` is a thread's promise to bring back a token of `D`.
#[derive(Drop)]
pub(crate) struct ReturnsToken<D>(Snapshot<D>);

impl<D: Shared> Promise<D::Token> for ReturnsToken<D> {
    ghost kept_by = { λ p token. D.owns p.0.value token };
}

pub(crate) fn promise_of<D>(shared: &D) -> ReturnsToken<D>
    ensures { result.0.value ≡ shared.now }
{
    ReturnsToken(Snapshot::of(shared))
}

pub(crate) fn push_handle<D: Shared<Token: Send + Drop + 'static>>(
    shared: &D,
    handles: &mut Vec<PromisedHandle<D::Token, ReturnsToken<D>>>,
    handle: PromisedHandle<D::Token, ReturnsToken<D>>,
)
    requires room { vec_len handles.old < vec_capacity handles.old }
    requires all { All (λ h. h.promise.0.value ≡ shared.now) handles.old.items }
    requires one { handle.promise.0.value ≡ shared.now }
    ensures { All (λ h. h.promise.0.value ≡ shared.now) handles.new.items }
{
    handles.push_reserved(handle);
}

/// Waits until all threads have ended, and joins their tokens to `mine`.
pub(crate) fn join_all<D: Shared<Token: Send + Drop + 'static>, R: Threads>(
    rt: &R,
    shared: &D,
    mine: D::Token,
    handles: Vec<PromisedHandle<D::Token, ReturnsToken<D>>>,
) -> D::Token
    requires own { D.owns shared.now mine }
    requires all { All (λ h. h.promise.0.value ≡ shared.now) handles.items }
    ensures { D.owns shared.now result }
{
    let mut mine = mine;
    let mut handles = handles;
    for _ in 0..handles.len() {
        let Some(handle) = handles.pop() else {
            break;
        };
        let theirs = handle.join(rt);
        shared.join(&mut mine, theirs);
    }
    mine
}
