//! Jobs of two tenants, a job to its end, strangers, and cancels.
ghost use Rattle.std.specs.Prelude.{◌≡◌, false};

use crate::fixtures::{Planned, Purse, Text, Wanted, planned_for};
use crate::table_cancels::{CASES, Case, cancel_in};
use crate::table_moves::{fund, send, take_back};
use crate::table_turns::{FRESH, Line, is_told, run, turn};
use job_table::{Job, JobTable, Phase, is_fresh};
use std::alloc::Global;
use std::process::Abort;
use strategy::{Kind, Strategy, Verdict};

/// Returns `false` without memory.
fn insert<J: Strategy>(
    alloc: Global,
    table: &mut JobTable<J>,
    tenant: u32,
    quanta: u32,
    planned: Planned<J>,
) -> bool {
    let Planned { plan, search } = planned;
    if table.find(tenant, 1).is_some() || !is_fresh(&search, tenant, &plan) {
        return false;
    }
    match Job::new(alloc, tenant, 1, plan, u64::from(quanta), search) {
        Ok(job) => table.insert(tenant, job).is_ok(),
        Err(_) => false,
    }
}

type Table = JobTable<Box<dyn Strategy>>;

fn add(
    rt: &impl Abort,
    alloc: Global,
    table: &mut Table,
    purse: &mut Purse,
    (tenant, text): (u32, Text),
    quanta: u32,
) {
    let lease = purse.lease(tenant).expect(rt, "no memory for a lease");
    let kind = Kind::Tree;
    let planned = planned_for(rt, alloc, lease, Wanted { tenant, kind, text });
    assert!(rt;
        insert(alloc, table, tenant, quanta, planned),
        "no memory for a job"
    );
}

/// A job whose turn of 2 nodes is out.
const OUT: Line = Line {
    phase: Phase::Out(2),
    ..FRESH
};

/// A job after 2 nodes.
const BEGUN: Line = Line {
    nodes: 2,
    left: 4,
    ..FRESH
};

/// Jobs of equal numbers, of tenants 0 and 1, are apart.
fn see_both<J>(rt: &impl Abort, table: &JobTable<J>) {
    assert!(rt; is_told(table, 0, FRESH));
    assert!(rt; is_told(table, 1, Line { left: 2, ..FRESH }));
    assert!(rt; table.find(2, 1).is_none());
    assert!(rt; table.count_of(0) == 1 && table.count_of(1) == 1 && table.count_of(2) == 0);
}

fn is_of(place: Option<(u32, u64)>, tenant: u32) -> bool {
    match place {
        Some((whose, seq)) => whose == tenant && seq == 1,
        None => false,
    }
}

/// The jobs wait in the order in which they came.
fn see_waiting<J>(rt: &impl Abort, table: &JobTable<J>) {
    assert!(rt; is_of(table.waiting(0), 0));
    assert!(rt; is_of(table.waiting(1), 1));
    assert!(rt; table.waiting(2).is_none());
}

fn send_first<J: Strategy>(rt: &impl Abort, table: &mut JobTable<J>) {
    let Some(search) = send(table, 0, 1, 2) else {
        panic!(rt; "not sent");
    };
    assert!(rt; search.left() == 6);
    assert!(rt; is_told(table, 0, OUT));
    assert!(rt; is_of(table.first_waiting(), 1) && table.waiting(1).is_none());
    assert!(rt; table.out_of(0) == 1 && table.out_of(1) == 0);
}

/// The other job runs dry and is funded.
fn fund_other<J: Strategy>(rt: &impl Abort, table: &mut JobTable<J>) {
    let funded = Line {
        nodes: 2,
        left: 3,
        ..FRESH
    };
    assert!(rt; turn(table, 1, 1, 10) == Some(2));
    assert!(rt; table.first_waiting().is_none());
    assert!(rt; fund(table, 1, 1, 3));
    assert!(rt; is_told(table, 1, funded));
    assert!(rt; is_of(table.first_waiting(), 1));
}

fn remove_other<J: Strategy>(rt: &impl Abort, table: &mut JobTable<J>) {
    assert!(rt; table.remove(1, 1).is_some());
    assert!(rt; table.remove(1, 1).is_none());
    assert!(rt; table.len() == 1 && table.count_of(0) == 1 && table.count_of(1) == 0);
}

#[test]
fn jobs_of_two_tenants(rt: HostRuntime) {
    let alloc = rt.alloc();
    let mut table = JobTable::new(alloc);
    let mut purse = Purse::new(alloc, 0, 100).expect(&rt, "no memory for a till");
    let mut other = Purse::new(alloc, 1, 10).expect(&rt, "no memory for a till");
    add(&rt, alloc, &mut table, &mut purse, (0, Text::Diamond), 6);
    add(&rt, alloc, &mut table, &mut other, (1, Text::Chain), 2);
    see_both(&rt, &table);
    see_waiting(&rt, &table);
    send_first(&rt, &mut table);
    fund_other(&rt, &mut table);
    remove_other(&rt, &mut table);
}

/// The 6 quanta are used up: 2 nodes, and 4 more.
const DRY: Line = Line {
    phase: Phase::Dry,
    nodes: 6,
    left: 0,
    best: Some(4),
    ..FRESH
};

/// A turn of 2 nodes, and one to the end of the 6 quanta.
fn run_dry<J: Strategy>(rt: &impl Abort, table: &mut JobTable<J>) {
    assert!(rt; turn(table, 0, 1, 2) == Some(2));
    assert!(rt; is_told(table, 0, BEGUN));
    assert!(rt; turn(table, 0, 1, 10) == Some(4));
    assert!(rt; is_told(table, 0, DRY));
    assert!(rt; turn(table, 0, 1, 10) == None);
}

/// 10 quanta more, and a turn to the end of the tree.
fn run_on<J: Strategy>(rt: &impl Abort, table: &mut JobTable<J>) {
    let funded = Line {
        phase: Phase::Waiting,
        left: 10,
        ..DRY
    };
    let closed = Line {
        phase: Phase::Closed,
        nodes: 9,
        verdict: Verdict::Optimal,
        ..DRY
    };
    assert!(rt; fund(table, 0, 1, 10));
    assert!(rt; is_told(table, 0, funded));
    assert!(rt; turn(table, 0, 1, 10) == Some(3));
    assert!(rt; is_told(table, 0, closed));
    assert!(rt; !fund(table, 0, 1, 10));
}

#[test]
fn a_job_goes_on_to_its_end(rt: HostRuntime) {
    let mut table = JobTable::new(rt.alloc());
    let mut purse = Purse::new(rt.alloc(), 0, 100).expect(&rt, "no memory for a till");
    add(
        &rt,
        rt.alloc(),
        &mut table,
        &mut purse,
        (0, Text::Diamond),
        6,
    );
    run_dry(&rt, &mut table);
    run_on(&rt, &mut table);
    assert!(rt; purse.words() == [91, 9, 100]);
}

/// A search of another plan is handed back, and nothing changes.
fn hand_back_elsewhere<J: Strategy>(rt: &impl Abort, elsewhere: &mut JobTable<J>, search: J) -> J
    requires { (J.meaning search).taken ≡ false }
    ensures { (J.meaning result).taken ≡ false }
{
    let Some(_) = send(elsewhere, 0, 1, 2) else {
        panic!(rt; "not sent elsewhere");
    };
    let Err(search) = take_back(elsewhere, 0, 1, 2, 0, search) else {
        panic!(rt; "taken elsewhere");
    };
    assert!(rt; is_told(elsewhere, 0, OUT));
    search
}

/// A search that ran 2 nodes is handed back if it comes back for 1, and is taken for 2.
fn hand_back<J: Strategy>(rt: &impl Abort, table: &mut JobTable<J>, search: J)
    requires { (J.meaning search).taken ≡ false }
{
    let mut search = search;
    assert!(rt; run(&mut search, 2) == 2);
    let Err(search) = take_back(table, 0, 1, 2, 1, search) else {
        panic!(rt; "taken after one node");
    };
    assert!(rt; is_told(table, 0, OUT));
    assert!(rt; take_back(table, 0, 1, 2, 2, search).is_ok());
    assert!(rt; is_told(table, 0, BEGUN));
}

/// Both searches are handed back, and the first one's table takes it in the end.
fn stray<J: Strategy>(rt: &impl Abort, table: &mut JobTable<J>, elsewhere: &mut JobTable<J>) {
    let Some(search) = send(table, 0, 1, 2) else {
        panic!(rt; "not sent");
    };
    let search = hand_back_elsewhere(rt, elsewhere, search);
    hand_back(rt, table, search);
}

#[test]
fn strangers_are_handed_back(rt: HostRuntime) {
    let (mut table, mut elsewhere) = (JobTable::new(rt.alloc()), JobTable::new(rt.alloc()));
    let mut purse = Purse::new(rt.alloc(), 0, 100).expect(&rt, "no memory for a till");
    add(
        &rt,
        rt.alloc(),
        &mut table,
        &mut purse,
        (0, Text::Diamond),
        6,
    );
    add(
        &rt,
        rt.alloc(),
        &mut elsewhere,
        &mut purse,
        (0, Text::Chain),
        6,
    );
    stray(&rt, &mut table, &mut elsewhere);
}

/// Compares the words of the till, also once the table is gone.
fn cancel(rt: &impl Abort, alloc: Global, case: &Case) {
    let name = case.name;
    let mut table = JobTable::new(alloc);
    let mut purse = Purse::new(alloc, 0, 100).expect(rt, "no memory for a till");
    add(
        rt,
        alloc,
        &mut table,
        &mut purse,
        (0, Text::Diamond),
        case.quanta,
    );
    cancel_in(rt, &mut table, case);
    assert!(rt;
        purse.words() == case.words,
        "{name}, the words of the till"
    );
    drop(table);
    assert!(rt; purse.words() == case.words, "{name}, the words in the end");
}

#[test]
fn cancels_at_every_phase(rt: HostRuntime) {
    for case in CASES.iter() {
        cancel(&rt, rt.alloc(), case);
    }
}
