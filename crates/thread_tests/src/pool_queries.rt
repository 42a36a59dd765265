//! Queries that a pool answers in one turn of its lock.
ghost use Rattle.std.specs.Prelude.{◌≡◌, length};
ghost use Rattle.turn_lock.specs.Values.{IsPassOf};

use crate::calls::{Ask, is_line, make};
use crate::fixtures::{A, Planned, Purse, config_of, pool_of, trees_of};
use crate::play::ALONE;
use farm_core::Reply;
use farm_pool::{About, Pool, PoolPass, Query};
use std::alloc::Global;
use std::process::Abort;
use std::sync::Wait;

const WAITS: &str = "@a job 1 waiting nodes 0 left 6 best none open\n";

/// The answers of a job of six quanta to its status, its ledger, and the status of another job.
const LINES: [&str; 3] = [
    WAITS,
    "@a ledger granted 100 free 94 held 6 spent 0\n",
    "@a no unknown\n",
];

fn query(about: About) -> Query
    ensures { result.tenant ≡ 0 }
{
    Query { tenant: A, about }
}

/// Asks three questions in one turn, and compares each answer with its line.
fn ask_together<R: Wait + Abort>(rt: &R, alloc: Global, pool: &Pool, pass: &mut PoolPass)
    requires own { IsPassOf pool.now.lock pass.old }
    requires known { length pool.now.lock.opening.tenants ≡ 1 }
    ensures own { IsPassOf pool.now.lock pass.new }
{
    let mut replies: Vec<Reply> = Vec::new(alloc);
    assert!(rt; replies.reserve(3).is_ok(), "no memory");
    let queries = [
        query(About::Status(1)),
        query(About::Ledger),
        query(About::Status(2)),
    ];
    pool.ask_all(rt, pass, &queries, &mut replies);
    assert!(rt; replies.len() == 3, "a reply for each query");
    for (reply, line) in replies.into_iter().zip(LINES) {
        assert!(rt; is_line(rt, alloc, reply, line), "{line}");
    }
}

/// Each query leaves its entry in the journal, in their order behind the submit's.
#[test]
fn queries_in_one_turn(rt: HostRuntime) {
    let alloc = rt.alloc();
    let config = config_of(&rt, alloc, &ALONE, 10);
    let (pool, mut pass) = pool_of(alloc, &config, 1).expect(&rt, "no memory for a pool");
    let mut purse = Purse::new(&rt, alloc, A, 100);
    let mut ready: Vec<Planned> = trees_of(&rt, alloc, &mut purse, 1);
    let made = make(&rt, alloc, &pool, &mut pass, &mut ready, Ask::Submit(6));
    assert!(&rt; made.as_slice() == b"@a job 1\n".as_slice(), "a job");
    ask_together(&rt, alloc, &pool, &mut pass);
    drop(ready);
    let farm = pool.close(pass).expect(&rt, "a farm");
    assert!(&rt; farm.journal().len() == 4, "the entries of the journal");
}
