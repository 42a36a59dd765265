//! Pools with their workers in threads.
ghost use Rattle.std.specs.Prelude.{◌<◌};
ghost use Rattle.farm_core.specs.Command.{IsFresh};

use crate::calls::is_line;
use crate::fixtures::{A, B, patient_of, tree_of};
use crate::gates::{Escort, Meeting, Open, Pair, Witness};
use crate::stand::Stand;
use farm_pool::{Command, Unsettled, WorkEnd};
use quanta_till::Till;
use std::alloc::Global;
use std::process::Abort;
use std::sync::{Arc, Wait};
use strategy::Strategy;

/// All nine nodes of the diamond's tree have run.
const CLOSED: &str = "@a job 1 closed nodes 9 left 0 best 4 optimal\n";

fn tells<R: Wait + Abort>(
    rt: &R,
    alloc: Global,
    stand: &mut Stand,
    tenant: u32,
    command: Command<Box<dyn Strategy>>,
    line: &str,
)
    requires known { tenant < 2 }
    requires fresh { IsFresh (λ b. (Strategy-box b).meaning b.value) tenant command }
{
    let reply = stand.ask(rt, tenant, command);
    assert!(rt; is_line(rt, alloc, reply, line), "{line}");
}

// The turns of two workers.
fn turns_of(ends: (WorkEnd, WorkEnd)) -> u64 {
    ends.0.turns.saturating_add(ends.1.turns)
}

// The turns of strangers that two workers met.
fn strangers_of(ends: (WorkEnd, WorkEnd)) -> u64 {
    ends.0.strangers.saturating_add(ends.1.strangers)
}

fn is_idle(end: &WorkEnd) -> bool {
    end.turns == 0 && end.strangers == 0
}

#[test]
fn two_workers_of_two_tenants_settle(rt: HostRuntime) {
    let mut stand = Stand::new(&rt, rt.alloc(), 100);
    let tree = tree_of(&rt, rt.alloc(), stand.lease(&rt, A));
    stand.submit(&rt, A, 16, tree);
    let tree = tree_of(&rt, rt.alloc(), stand.lease(&rt, B));
    stand.submit(&rt, B, 6, tree);
    let (one, two) = stand.work_while_cancelled(&rt, &Open);
    assert!(rt; one.strangers == 0 && two.strangers == 0);
    tells(&rt, rt.alloc(), &mut stand, A, Command::Status(1), CLOSED);
    assert!(rt; matches!(stand.settle(), Some(Ok(_))));
}

// The first of the two turns goes on only once the second one has begun.
#[test]
fn two_turns_run_at_once(rt: HostRuntime) {
    let mut stand = Stand::new(&rt, rt.alloc(), 100);
    let tree = tree_of(&rt, rt.alloc(), stand.lease(&rt, A));
    stand.submit(&rt, A, 16, tree);
    let tree = tree_of(&rt, rt.alloc(), stand.lease(&rt, B));
    stand.submit(&rt, B, 6, tree);
    let gate = Pair {
        meeting: Meeting::new(),
    };
    let ends = stand.work_both(&rt, &gate);
    assert!(rt; gate.meeting.was_met());
    assert!(rt; turns_of(ends) == 8 && strangers_of(ends) == 0);
}

// The first node of one job goes on only once the other job's has begun: nodes run while nobody has
// the farm.
#[test]
fn two_searches_run_at_once(rt: HostRuntime) {
    let mut stand = Stand::new(&rt, rt.alloc(), 100);
    let meeting = Arc::new(rt.alloc(), Meeting::new()).expect(&rt, "no memory for a meeting");
    let patient = patient_of(&rt, rt.alloc(), stand.lease(&rt, A), &meeting);
    stand.submit(&rt, A, 4, patient);
    let patient = patient_of(&rt, rt.alloc(), stand.lease(&rt, B), &meeting);
    stand.submit(&rt, B, 4, patient);
    let ends = stand.work_both(&rt, &Open);
    assert!(rt; meeting.was_met());
    assert!(rt; turns_of(ends) == 4 && strangers_of(ends) == 0);
    assert!(rt; matches!(stand.settle(), Some(Ok(_))));
}

// The gate comes to the meeting before the turn's first node, and is left after it.
#[test]
fn nodes_run_between_the_gates_calls(rt: HostRuntime) {
    let mut stand = Stand::new(&rt, rt.alloc(), 100);
    let meeting = Arc::new(rt.alloc(), Meeting::new()).expect(&rt, "no memory for a meeting");
    let patient = patient_of(&rt, rt.alloc(), stand.lease(&rt, A), &meeting);
    stand.submit(&rt, A, 2, patient);
    let gate = Escort::new(meeting);
    let end = stand.work(&rt, &gate);
    assert!(rt; end.turns == 1 && end.strangers == 0);
    assert!(rt; gate.has_met());
    assert!(rt; matches!(stand.settle(), Some(Ok(_))));
}

// Of the 20 quanta that a and b share, a brings 6. a holds 16 and uses 9 in five turns; b holds 4
// and uses them in two.
#[test]
fn four_workers_of_one_purse_settle(rt: HostRuntime) {
    let mut stand = Stand::shared(&rt, rt.alloc());
    let tree = tree_of(&rt, rt.alloc(), stand.lease(&rt, A));
    stand.submit(&rt, A, 16, tree);
    let tree = tree_of(&rt, rt.alloc(), stand.lease(&rt, B));
    stand.submit(&rt, B, 4, tree);
    let (one, two) = stand.work_in_fours(&rt, &Open);
    assert!(rt; turns_of(one).saturating_add(turns_of(two)) == 7);
    tells(&rt, rt.alloc(), &mut stand, A, Command::Status(1), CLOSED);
    let spent = "@a ledger granted 20 free 7 held 0 spent 13\n";
    tells(&rt, rt.alloc(), &mut stand, B, Command::Ledger, spent);
    assert!(rt; matches!(stand.settle(), Some(Ok(_))));
}

// Nine nodes of a's job and six of b's run in turns of two, one after the other. The worker asks at
// the end whether to go on, until it may not.
#[test]
fn each_turn_passes_the_gate(rt: HostRuntime) {
    let mut stand = Stand::new(&rt, rt.alloc(), 100);
    let tree = tree_of(&rt, rt.alloc(), stand.lease(&rt, A));
    stand.submit(&rt, A, 16, tree);
    let tree = tree_of(&rt, rt.alloc(), stand.lease(&rt, B));
    stand.submit(&rt, B, 6, tree);
    let gate = Witness::new();
    let end = stand.work(&rt, &gate);
    assert!(rt; end.turns == 8 && end.strangers == 0);
    assert!(rt; gate.has_seen(5, 3, 3));
}

// Nine nodes in turns of two: four whole ones, and one of one node.
#[test]
fn each_turn_is_counted_once(rt: HostRuntime) {
    let mut stand = Stand::new(&rt, rt.alloc(), 100);
    let tree = tree_of(&rt, rt.alloc(), stand.lease(&rt, A));
    stand.submit(&rt, A, 16, tree);
    let end = stand.work(&rt, &Open);
    assert!(rt; end.turns == 5 && end.strangers == 0);
    tells(&rt, rt.alloc(), &mut stand, A, Command::Status(1), CLOSED);
    assert!(rt; is_idle(&stand.work(&rt, &Open)));
}

// Its one entry is used for the submit, so no turn of a's job can be taken.
#[test]
fn no_entries_for_a_turn(rt: HostRuntime) {
    let mut stand = Stand::new(&rt, rt.alloc(), 1);
    let tree = tree_of(&rt, rt.alloc(), stand.lease(&rt, A));
    stand.submit(&rt, A, 6, tree);
    assert!(rt; is_idle(&stand.work(&rt, &Open)));
    assert!(rt; matches!(stand.settle(), Some(Err(Unsettled::Held(0, 6)))));
}

#[test]
fn no_worker(rt: HostRuntime) {
    let mut stand = Stand::new(&rt, rt.alloc(), 100);
    let tree = tree_of(&rt, rt.alloc(), stand.lease(&rt, A));
    stand.submit(&rt, A, 6, tree);
    assert!(rt; matches!(stand.settle(), Some(Err(Unsettled::Held(0, 6)))));
}

// What another lease than the jobs' has drawn is missing in its till's pool.
#[test]
fn quanta_drawn_beside_the_jobs(rt: HostRuntime) {
    let mut stand = Stand::new(&rt, rt.alloc(), 100);
    let mut lease = stand.lease(&rt, A);
    assert!(rt; lease.left() == 0);
    lease.draw(5);
    assert!(rt; matches!(stand.settle(), Some(Err(Unsettled::Pool(0)))));
}

// The tree's nine nodes are paid at another till, which made its lease. The purse's own pool has as
// much as is free. But none of its quanta was used.
#[test]
fn quanta_used_at_another_till(rt: HostRuntime) {
    let (till, mut desk) = Till::new(rt.alloc(), 0, 100).expect(&rt, "no memory for a till");
    let elsewhere = till
        .lease(&mut desk, A)
        .expect(&rt, "no memory for a lease");
    let tree = tree_of(&rt, rt.alloc(), elsewhere);
    let mut stand = Stand::new(&rt, rt.alloc(), 100);
    stand.submit(&rt, A, 16, tree);
    stand.work(&rt, &Open);
    let mut lease = stand.lease(&rt, A);
    assert!(rt; lease.left() == 0);
    lease.draw(9);
    assert!(rt; matches!(stand.settle(), Some(Err(Unsettled::Spent(0)))));
}

#[test]
fn a_second_pass_sees_the_first_ones_job(rt: HostRuntime) {
    let mut stand = Stand::new(&rt, rt.alloc(), 100);
    let mut second = stand.split();
    let tree = tree_of(&rt, rt.alloc(), stand.lease(&rt, A));
    let made = stand.submit(&rt, A, 6, tree);
    let seen = stand.pool.call(&rt, &mut second, A, Command::Status(1));
    stand.join(second);
    assert!(rt; is_line(&rt, rt.alloc(), made, "@a job 1\n"));
    assert!(rt;
        is_line(
            &rt,
            rt.alloc(),
            seen,
            "@a job 1 waiting nodes 0 left 6 best none open\n"
        )
    );
    let held = "@a ledger granted 100 free 94 held 6 spent 0\n";
    tells(&rt, rt.alloc(), &mut stand, A, Command::Ledger, held);
    assert!(rt; matches!(stand.settle(), Some(Err(Unsettled::Held(0, 6)))));
}
