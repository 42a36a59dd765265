//! A cancel while a worker has the job's turn.
ghost use Rattle.std.specs.Prelude.{◌≡◌, length};
ghost use Rattle.turn_lock.specs.Values.{IsPassOf};

use crate::fixtures::A;
use farm_core::Reply;
use farm_pool::{Command, Gate, Pool, PoolPass, WorkEnd};
use std::sync::Wait;
use std::sync::atomic::{AtomicU64, Ordering};
use std::thread;
use std::thread::Threads;

/// The most polls of a thread that waits for another one.
const MOST_POLLS: u64 = 1_000_000_000;

/// A gate that holds the turns until it is opened, and shows when it holds one.
#[derive(Drop)]
pub(crate) struct Barrier {
    /// 1 once a turn is held.
    held: AtomicU64,
    /// 1 once the gate is open.
    opened: AtomicU64,
}

fn wait_for(flag: &AtomicU64) {
    for _ in 0..MOST_POLLS {
        if flag.load(Ordering::SeqCst) == 1 {
            return;
        }
    }
}

impl Barrier {
    pub(crate) fn new() -> Barrier {
        Barrier {
            held: AtomicU64::new(0),
            opened: AtomicU64::new(0),
        }
    }
}

impl Gate for Barrier {
    fn before(&self, _tenant: u32, _seq: u64) {
        self.held.store(1, Ordering::SeqCst);
        wait_for(&self.opened);
    }

    fn after(&self, _tenant: u32, _seq: u64) {}

    fn idle(&self) -> bool {
        false
    }
}

/// Lets the turn go on after the second cancel.
fn cancel_twice<R: Wait>(rt: &R, pool: &Pool, pass: &mut PoolPass, gate: &Barrier) -> (Reply, Reply)
    requires own { IsPassOf pool.now.lock pass.old }
    requires known { length pool.now.lock.opening.tenants ≡ 1 }
    ensures own { IsPassOf pool.now.lock pass.new }
{
    wait_for(&gate.held);
    let first = pool.call(rt, pass, A, Command::Cancel(1));
    let second = pool.call(rt, pass, A, Command::Cancel(1));
    gate.opened.store(1, Ordering::SeqCst);
    (first, second)
}

pub(crate) fn cancel_beside<R: Threads + Wait + Sync>(
    rt: &R,
    pool: &Pool,
    pass: &mut PoolPass,
    gate: &Barrier,
) -> (WorkEnd, (Reply, Reply))
    requires own { IsPassOf pool.now.lock pass.old }
    requires known { length pool.now.lock.opening.tenants ≡ 1 }
    ensures own { IsPassOf pool.now.lock pass.new }
{
    let worker = pool.split_pass(pass);
    let asker = pool.split_pass(pass);
    let ((worker, end), (asker, replies)) = thread::join(
        rt,
        move || -> (PoolPass, WorkEnd)
            requires { IsPassOf pool.now.lock worker }
            ensures { IsPassOf pool.entry.now.lock result.0 }
        {
            let mut worker = worker;
            let end = pool.work(rt, &mut worker, gate);
            (worker, end)
        },
        move || -> (PoolPass, (Reply, Reply))
            requires own { IsPassOf pool.now.lock asker }
            requires known { length pool.now.lock.opening.tenants ≡ 1 }
            ensures { IsPassOf pool.entry.now.lock result.0 }
        {
            let mut asker = asker;
            let replies = cancel_twice(rt, pool, &mut asker, gate);
            (asker, replies)
        },
    );
    pool.join_pass(pass, worker);
    pool.join_pass(pass, asker);
    (end, replies)
}
