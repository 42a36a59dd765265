//! A pool call by call, and cancels at every phase.
ghost use Rattle.std.specs.Prelude.{◌≡◌, length};
ghost use Rattle.turn_lock.specs.Values.{IsPassOf};

use crate::beside::{Barrier, cancel_beside};
use crate::calls::Ask::{Cancel, Fetch, Forget, Fund, Ledger, Status, Submit, Work};
use crate::calls::{WORKED, is_line, make};
use crate::fixtures::{A, Purse, config_of, pool_of, trees_of};
use crate::play::{ALONE, Known, Step, play};
use farm_core::Reply;
use farm_pool::{Command, Pool, PoolPass};
use std::alloc::Global;
use std::process::Abort;
use std::sync::Wait;
use std::thread::Threads;

const WHOLE: &str = "@a ledger granted 100 free 100 held 0 spent 0\n";

const WAITS: &str = "@a job 1 waiting nodes 0 left 6 best none open\n";

const MADE: Known = Known(WAITS, "@a ledger granted 100 free 94 held 6 spent 0\n");

const SIX_SPENT: &str = "@a ledger granted 100 free 94 held 0 spent 6\n";

const DRIED: Known = Known("@a job 1 dry nodes 6 left 0 best 4 open\n", SIX_SPENT);

const WAITS_AGAIN: &str = "@a job 1 waiting nodes 6 left 10 best 4 open\n";

const FUNDED: Known = Known(
    WAITS_AGAIN,
    "@a ledger granted 100 free 84 held 10 spent 6\n",
);

const NINE_SPENT: &str = "@a ledger granted 100 free 91 held 0 spent 9\n";

const CLOSED: Known = Known(
    "@a job 1 closed nodes 9 left 0 best 4 optimal\n",
    NINE_SPENT,
);

const FORGOTTEN: Known = Known("@a no unknown\n", NINE_SPENT);

const GIVEN_UP: &str = "@a job 1 cancelled nodes 0 left 0 best none open\n";

const FRESH: Known = Known(GIVEN_UP, WHOLE);

/// Each command, a tree in two turns, and refusals.
const EACH: [Step; 13] = [
    Step(Submit(6), "@a job 1\n", MADE),
    Step(Status(1), WAITS, MADE),
    Step(Work, WORKED, DRIED),
    Step(Submit(95), "@a no short 94\n", DRIED),
    Step(Fund(1, 10), WAITS_AGAIN, FUNDED),
    Step(Forget(1), "@a no busy\n", FUNDED),
    Step(Work, WORKED, CLOSED),
    Step(
        Fetch(1),
        "@a job 1 makespan 4 optimal 1:1:0 2:1:0 3:2:0 4:1:4\n",
        CLOSED,
    ),
    Step(Cancel(1), "@a no over\n", CLOSED),
    Step(Fund(1, 0), "@a no over\n", CLOSED),
    Step(Forget(1), "@a job 1 forgotten\n", FORGOTTEN),
    Step(Cancel(1), "@a no unknown\n", FORGOTTEN),
    Step(Ledger, NINE_SPENT, FORGOTTEN),
];

/// A waiting job that has run no node, and then a cancelled one.
const CANCELLED: [Step; 3] = [
    Step(Submit(6), "@a job 1\n", MADE),
    Step(Cancel(1), GIVEN_UP, FRESH),
    Step(Cancel(1), "@a no over\n", FRESH),
];

/// A waiting job after a turn.
const BEGUN: [Step; 4] = [
    Step(
        Submit(2),
        "@a job 1\n",
        Known(
            "@a job 1 waiting nodes 0 left 2 best none open\n",
            "@a ledger granted 100 free 98 held 2 spent 0\n",
        ),
    ),
    Step(
        Work,
        WORKED,
        Known(
            "@a job 1 dry nodes 2 left 0 best none open\n",
            "@a ledger granted 100 free 98 held 0 spent 2\n",
        ),
    ),
    Step(
        Fund(1, 4),
        "@a job 1 waiting nodes 2 left 4 best none open\n",
        Known(
            "@a job 1 waiting nodes 2 left 4 best none open\n",
            "@a ledger granted 100 free 94 held 4 spent 2\n",
        ),
    ),
    Step(
        Cancel(1),
        "@a job 1 cancelled nodes 2 left 0 best none open\n",
        Known(
            "@a job 1 cancelled nodes 2 left 0 best none open\n",
            "@a ledger granted 100 free 98 held 0 spent 2\n",
        ),
    ),
];

/// A job that has run dry.
const DRY: [Step; 3] = [
    Step(Submit(6), "@a job 1\n", MADE),
    Step(Work, WORKED, DRIED),
    Step(
        Cancel(1),
        "@a job 1 cancelled nodes 6 left 0 best 4 open\n",
        Known("@a job 1 cancelled nodes 6 left 0 best 4 open\n", SIX_SPENT),
    ),
];

// Eight counts of entries come before, so that each call is made at a growth of the journal.
#[test]
fn each_call(rt: HostRuntime) {
    for lead in 0..8 {
        play(&rt, rt.alloc(), lead, &EACH, [91, 9, 100]);
    }
}

#[test]
fn cancels(rt: HostRuntime) {
    let rows: [(&[Step], [u64; 3]); 3] = [
        (&CANCELLED, [100, 0, 100]),
        (&BEGUN, [98, 2, 100]),
        (&DRY, [94, 6, 100]),
    ];
    for (steps, words) in rows {
        for lead in 0..4 {
            play(&rt, rt.alloc(), lead, steps, words);
        }
    }
}

/// Cancels job 1 during its turn of two nodes, which goes on only once the job is cancelled.
fn cancel_while_out<R: Threads + Wait + Sync + Abort>(
    rt: &R,
    alloc: Global,
    pool: &Pool,
    pass: &mut PoolPass,
)
    requires own { IsPassOf pool.now.lock pass.old }
    requires known { length pool.now.lock.opening.tenants ≡ 1 }
    ensures own { IsPassOf pool.now.lock pass.new }
{
    let gate = Barrier::new();
    let (end, (first, second)) = cancel_beside(rt, pool, pass, &gate);
    assert!(rt; end.turns == 1 && end.strangers == 0);
    assert!(rt;
        is_line(
            rt,
            alloc,
            first,
            "@a job 1 leaving nodes 0 left 6 best none open\n"
        )
    );
    assert!(rt; is_line(rt, alloc, second, "@a no over\n"));
    let third = pool.call(rt, pass, A, Command::Status(1));
    assert!(rt;
        is_line(
            rt,
            alloc,
            third,
            "@a job 1 cancelled nodes 2 left 0 best none open\n"
        )
    );
}

#[test]
fn a_cancel_while_out(rt: HostRuntime) {
    let config = config_of(&rt, rt.alloc(), &ALONE, 2);
    let (pool, mut pass) = pool_of(rt.alloc(), &config, 1).expect(&rt, "no memory for a pool");
    let mut purse = Purse::new(&rt, rt.alloc(), A, 100);
    let mut ready = trees_of(&rt, rt.alloc(), &mut purse, 1);
    make(&rt, rt.alloc(), &pool, &mut pass, &mut ready, Submit(6));
    cancel_while_out(&rt, rt.alloc(), &pool, &mut pass);
    drop(pool.close(pass).expect(&rt, "a farm"));
    assert!(rt; purse.words() == [98, 2, 100]);
}
