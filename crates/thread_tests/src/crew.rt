//! Two and four workers at once, and passes that come back from them.
ghost use Rattle.std.specs.Prelude.{◌≡◌, length};
ghost use Rattle.turn_lock.specs.Values.{IsPassOf};

use farm_core::Reply;
use farm_pool::{Command, Gate, Pool, PoolPass, WorkEnd};
use std::sync::Wait;
use std::thread;
use std::thread::Threads;

fn work_as<R: Wait, G: Gate>(rt: &R, pool: &Pool, pass: PoolPass, gate: &G) -> (PoolPass, WorkEnd)
    requires { IsPassOf pool.now.lock pass }
    ensures { IsPassOf pool.now.lock result.0 }
{
    let mut pass = pass;
    let end = pool.work(rt, &mut pass, gate);
    (pass, end)
}

pub(crate) fn work_both<R: Threads + Wait + Sync, G: Gate + Sync>(
    rt: &R,
    pool: &Pool,
    pass: &mut PoolPass,
    gate: &G,
) -> (WorkEnd, WorkEnd)
    requires { IsPassOf pool.now.lock pass.old }
    ensures { IsPassOf pool.now.lock pass.new }
{
    let one = pool.split_pass(pass);
    let two = pool.split_pass(pass);
    let ((one, first), (two, second)) = thread::join(
        rt,
        move || -> (PoolPass, WorkEnd)
            requires { IsPassOf pool.now.lock one }
            ensures { IsPassOf pool.entry.now.lock result.0 }
        { work_as(rt, pool, one, gate) },
        move || -> (PoolPass, WorkEnd)
            requires { IsPassOf pool.now.lock two }
            ensures { IsPassOf pool.entry.now.lock result.0 }
        { work_as(rt, pool, two, gate) },
    );
    pool.join_pass(pass, one);
    pool.join_pass(pass, two);
    (first, second)
}

pub(crate) fn work_in_fours<R: Threads + Wait + Sync, G: Gate + Sync>(
    rt: &R,
    pool: &Pool,
    pass: &mut PoolPass,
    gate: &G,
) -> ((WorkEnd, WorkEnd), (WorkEnd, WorkEnd))
    requires { IsPassOf pool.now.lock pass.old }
    ensures { IsPassOf pool.now.lock pass.new }
{
    let one = pool.split_pass(pass);
    let two = pool.split_pass(pass);
    let ((one, first), (two, second)) = thread::join(
        rt,
        move || -> (PoolPass, (WorkEnd, WorkEnd))
            requires { IsPassOf pool.now.lock one }
            ensures { IsPassOf pool.entry.now.lock result.0 }
        {
            let mut one = one;
            let ends = work_both(rt, pool, &mut one, gate);
            (one, ends)
        },
        move || -> (PoolPass, (WorkEnd, WorkEnd))
            requires { IsPassOf pool.now.lock two }
            ensures { IsPassOf pool.entry.now.lock result.0 }
        {
            let mut two = two;
            let ends = work_both(rt, pool, &mut two, gate);
            (two, ends)
        },
    );
    pool.join_pass(pass, one);
    pool.join_pass(pass, two);
    (first, second)
}

/// Two workers, while the second tenant cancels its first job.
pub(crate) fn work_while_cancelled<R: Threads + Wait + Sync, G: Gate + Sync>(
    rt: &R,
    pool: &Pool,
    pass: &mut PoolPass,
    gate: &G,
) -> (WorkEnd, WorkEnd)
    requires own { IsPassOf pool.now.lock pass.old }
    requires two { length pool.now.lock.opening.tenants ≡ 2 }
    ensures { IsPassOf pool.now.lock pass.new }
{
    let mut workers = pool.split_pass(pass);
    let asker = pool.split_pass(pass);
    let ((workers, ends), (asker, _)) = thread::join(
        rt,
        move || -> (PoolPass, (WorkEnd, WorkEnd))
            requires { IsPassOf pool.now.lock workers }
            ensures { IsPassOf pool.entry.now.lock result.0 }
        {
            let ends = work_both(rt, pool, &mut workers, gate);
            (workers, ends)
        },
        move || -> (PoolPass, Reply)
            requires own { IsPassOf pool.now.lock asker }
            requires two { length pool.now.lock.opening.tenants ≡ 2 }
            ensures { IsPassOf pool.entry.now.lock result.0 }
        {
            let mut asker = asker;
            let reply = pool.call(rt, &mut asker, 1, Command::Cancel(1));
            (asker, reply)
        },
    );
    pool.join_pass(pass, workers);
    pool.join_pass(pass, asker);
    ends
}
