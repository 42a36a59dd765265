//! The tree, the rules and sampling, node by node.
ghost use Rattle.std.specs.Prelude.{◌≡◌};
ghost use Rattle.quanta_till.specs.Lease.{IsEmpty};

use crate::fixtures::{
    ASKING, BLOCKED, CHAIN, DIAMOND, FORK, LONE, PAIR, SCARCE, SEVEN, STARVED, project,
};
use mrcpsp::Schedule;
use quanta_till::{Desk, Lease, Till, TillWords};
use rule_search::RuleSearch;
use sample_search::SampleSearch;
use std::alloc::Global;
use std::process::Abort;
use strategy::{Kind, Plan, Strategy, Verdict};
use tree_search::TreeSearch;

/// The modes and the starts of the best schedule.
type BestLists = (&'static [u32], &'static [u32]);

/// A project with its capacities, a kind, the best schedule up to some nodes, and the last verdict.
/// A search that is going is not closed.
type Walk = (
    &'static str,
    &'static str,
    Kind,
    &'static [(u64, BestLists)],
    Verdict,
);

const NONE: BestLists = (&[], &[]);

/// The precedence tree to its end, and for some nodes. It ends early if its best schedule is as
/// short as the bound: in the fork if two activities may run at once. An activity that takes no
/// time takes nothing, whatever it requests.
const TREES: [Walk; 8] = [
    (
        DIAMOND,
        "3 1",
        Kind::Tree,
        &[
            (3, NONE),
            (5, (&[1, 1, 1, 1], &[0, 0, 3, 5])),
            (9, (&[1, 1, 2, 1], &[0, 0, 0, 4])),
        ],
        Verdict::Optimal,
    ),
    (
        DIAMOND,
        "3 1",
        Kind::Tree,
        &[(3, NONE), (5, (&[1, 1, 1, 1], &[0, 0, 3, 5]))],
        Verdict::Going,
    ),
    (
        DIAMOND,
        "3 1",
        Kind::Tree,
        &[
            (3, NONE),
            (5, (&[1, 1, 1, 1], &[0, 0, 3, 5])),
            (6, (&[1, 1, 2, 1], &[0, 0, 0, 4])),
        ],
        Verdict::Going,
    ),
    (
        FORK,
        "1",
        Kind::Tree,
        &[(3, NONE), (8, (&[1, 1, 1, 1], &[0, 0, 2, 4]))],
        Verdict::Optimal,
    ),
    (
        FORK,
        "2",
        Kind::Tree,
        &[(3, NONE), (4, (&[1, 1, 1, 1], &[0, 0, 0, 2]))],
        Verdict::Optimal,
    ),
    (LONE, "", Kind::Tree, &[(1, (&[1], &[0]))], Verdict::Optimal),
    (
        STARVED,
        "3 0",
        Kind::Tree,
        &[(1, NONE)],
        Verdict::Infeasible,
    ),
    (
        ASKING,
        "3 1",
        Kind::Tree,
        &[
            (3, NONE),
            (5, (&[1, 1, 1, 1], &[0, 0, 3, 5])),
            (9, (&[1, 1, 2, 1], &[0, 0, 0, 4])),
        ],
        Verdict::Optimal,
    ),
];

/// A pass by each rule: a longer mode if the stock is gone, void passes, and one that is given up.
/// That of the chain is as short as the bound.
const RULES: [Walk; 19] = [
    (
        DIAMOND,
        "3 1",
        Kind::RuleLft,
        &[(3, NONE), (4, (&[1, 1, 1, 1], &[0, 0, 3, 5]))],
        Verdict::Ended,
    ),
    (
        CHAIN,
        "3 1",
        Kind::RuleLft,
        &[(2, NONE), (3, (&[1, 1, 1], &[0, 0, 5]))],
        Verdict::Optimal,
    ),
    (
        SEVEN,
        "2 1",
        Kind::RuleLft,
        &[
            (6, NONE),
            (7, (&[1, 1, 1, 1, 1, 1, 1], &[0, 0, 2, 6, 3, 4, 6])),
        ],
        Verdict::Ended,
    ),
    (
        SEVEN,
        "2 0",
        Kind::RuleLft,
        &[
            (6, NONE),
            (7, (&[1, 1, 1, 1, 2, 1, 1], &[0, 0, 2, 9, 3, 7, 9])),
        ],
        Verdict::Ended,
    ),
    (STARVED, "3 0", Kind::RuleLft, &[(4, NONE)], Verdict::Ended),
    (BLOCKED, "3 1", Kind::RuleLft, &[(4, NONE)], Verdict::Ended),
    (
        DIAMOND,
        "3 1",
        Kind::RuleMts,
        &[(3, NONE), (4, (&[1, 1, 1, 1], &[0, 0, 3, 5]))],
        Verdict::Ended,
    ),
    (
        CHAIN,
        "3 1",
        Kind::RuleMts,
        &[(2, NONE), (3, (&[1, 1, 1], &[0, 0, 5]))],
        Verdict::Optimal,
    ),
    (
        SEVEN,
        "2 1",
        Kind::RuleMts,
        &[
            (6, NONE),
            (7, (&[1, 1, 1, 1, 1, 1, 1], &[1, 0, 0, 6, 3, 4, 6])),
        ],
        Verdict::Ended,
    ),
    (
        SEVEN,
        "2 0",
        Kind::RuleMts,
        &[
            (6, NONE),
            (7, (&[1, 1, 1, 1, 2, 1, 1], &[1, 0, 0, 9, 3, 7, 9])),
        ],
        Verdict::Ended,
    ),
    (STARVED, "3 0", Kind::RuleMts, &[(4, NONE)], Verdict::Ended),
    (BLOCKED, "3 1", Kind::RuleMts, &[(4, NONE)], Verdict::Ended),
    (
        DIAMOND,
        "3 1",
        Kind::RuleSpt,
        &[(3, NONE), (4, (&[1, 1, 1, 1], &[0, 2, 0, 5]))],
        Verdict::Ended,
    ),
    (
        CHAIN,
        "3 1",
        Kind::RuleSpt,
        &[(2, NONE), (3, (&[1, 1, 1], &[0, 0, 5]))],
        Verdict::Optimal,
    ),
    (
        SEVEN,
        "2 1",
        Kind::RuleSpt,
        &[
            (6, NONE),
            (7, (&[1, 1, 1, 1, 1, 1, 1], &[0, 1, 0, 7, 4, 5, 7])),
        ],
        Verdict::Ended,
    ),
    (
        SEVEN,
        "2 0",
        Kind::RuleSpt,
        &[
            (6, NONE),
            (7, (&[1, 1, 1, 1, 2, 1, 1], &[0, 1, 0, 2, 4, 8, 10])),
        ],
        Verdict::Ended,
    ),
    (STARVED, "3 0", Kind::RuleSpt, &[(4, NONE)], Verdict::Ended),
    (BLOCKED, "3 1", Kind::RuleSpt, &[(4, NONE)], Verdict::Ended),
    (DIAMOND, "3 1", Kind::RuleLft, &[(1, NONE)], Verdict::Going),
];

/// Drawn passes, of which some or all are void. A later schedule of equal length changes nothing.
/// One that is as short as the bound ends the search.
const SAMPLES: [Walk; 10] = [
    (
        CHAIN,
        "3 1",
        Kind::Sample(42),
        &[(2, NONE), (3, (&[1, 1, 1], &[0, 0, 5]))],
        Verdict::Optimal,
    ),
    (
        FORK,
        "2",
        Kind::Sample(42),
        &[(3, NONE), (4, (&[1, 1, 1, 1], &[0, 0, 0, 2]))],
        Verdict::Optimal,
    ),
    (
        DIAMOND,
        "3 1",
        Kind::Sample(42),
        &[
            (3, NONE),
            (7, (&[1, 1, 1, 1], &[0, 0, 3, 5])),
            (24, (&[1, 1, 2, 1], &[0, 0, 0, 4])),
        ],
        Verdict::Going,
    ),
    (
        DIAMOND,
        "3 1",
        Kind::Sample(7),
        &[
            (3, NONE),
            (15, (&[1, 1, 1, 1], &[0, 2, 0, 5])),
            (20, (&[1, 1, 2, 1], &[0, 0, 0, 4])),
        ],
        Verdict::Going,
    ),
    (
        DIAMOND,
        "3 1",
        Kind::Sample(u64::MAX),
        &[
            (3, NONE),
            (7, (&[1, 1, 1, 1], &[0, 0, 3, 5])),
            (24, (&[1, 1, 2, 1], &[0, 0, 0, 4])),
        ],
        Verdict::Going,
    ),
    (
        FORK,
        "1",
        Kind::Sample(42),
        &[(3, NONE), (24, (&[1, 1, 1, 1], &[0, 2, 0, 4]))],
        Verdict::Going,
    ),
    (
        FORK,
        "1",
        Kind::Sample(42),
        &[(3, NONE), (4, (&[1, 1, 1, 1], &[0, 2, 0, 4]))],
        Verdict::Going,
    ),
    (
        SCARCE,
        "1 2 2",
        Kind::Sample(20),
        &[
            (5, NONE),
            (11, (&[2, 1, 1], &[3, 1, 0])),
            (15, (&[2, 2, 1], &[0, 1, 2])),
        ],
        Verdict::Going,
    ),
    (
        STARVED,
        "3 0",
        Kind::Sample(42),
        &[(30, NONE)],
        Verdict::Going,
    ),
    (
        PAIR,
        "1",
        Kind::Sample(7),
        &[(2, (&[1], &[0])), (3, (&[2], &[0]))],
        Verdict::Optimal,
    ),
];

fn shown(best: Option<&Schedule>) -> (&[u32], &[u32]) {
    match best {
        Some(best) => (best.modes.as_slice(), best.starts.as_slice()),
        None => (&[], &[]),
    }
}

/// Funds three nodes, unless the search is over, holds three quanta or has run 1,000 nodes.
fn fund<S: Strategy>(search: &mut S) {
    if !search.closed() && search.nodes() < 1_000 && search.left() < 3 {
        search.fund(3);
    }
}

fn step<S: Strategy>(search: &mut S) {
    fund(search);
    if !search.closed() && 0 < search.left() {
        search.advance();
    }
}

fn run<S: Strategy>(rt: &impl Abort, search: &mut S, last: u64, best: BestLists) {
    for _ in search.nodes()..last {
        assert!(rt; !search.closed() && search.verdict() == Verdict::Going);
        step(search);
        assert!(rt; shown(search.best()) == best);
    }
    assert!(rt; search.nodes() == last);
}

/// From then on the search has no best schedule and is over; the rest stays.
fn take<S: Strategy>(rt: &impl Abort, search: &mut S, best: BestLists, verdict: Verdict) {
    let nodes = search.nodes();
    let taken = search.take_best();
    assert!(rt; shown(taken.as_ref()) == best);
    assert!(rt; search.closed() && search.best().is_none() && search.take_best().is_none());
    assert!(rt; search.nodes() == nodes && search.verdict() == verdict);
}

/// For a till of 100 quanta.
fn compare(rt: &impl Abort, words: TillWords, pool: u64, spent: u64) {
    let wanted = TillWords {
        pool,
        spent,
        granted: 100,
    };
    assert!(rt; words == wanted);
}

/// The search has run nothing: the till has all its quanta again.
fn settle<S: Strategy>(rt: &impl Abort, search: &mut S, till: &Till, desk: &mut Desk)
    requires { desk.old.id ≡ till.now.id }
    ensures { desk.new.id ≡ desk.old.id }
{
    fund(search);
    compare(rt, till.words(desk), 97, 0);
    search.settle();
    assert!(rt; search.left() == 0);
    compare(rt, till.words(desk), 100, 0);
}

/// The quanta that the search holds go back.
fn end<S: Strategy>(rt: &impl Abort, search: S, till: &Till, desk: &mut Desk)
    requires { desk.old.id ≡ till.now.id }
{
    assert!(rt; search.tenant() == 3);
    let (nodes, left) = (search.nodes(), search.left());
    assert!(rt; 2 <= left && left <= 4 && nodes <= 90);
    compare(rt, till.words(desk), 100 - nodes - left, nodes);
    drop(search);
    compare(rt, till.words(desk), 100 - nodes, nodes);
}

/// Takes the best schedule at the end.
fn follow<S: Strategy>(rt: &impl Abort, search: &mut S, line: &Walk) {
    let mut best = NONE;
    for (last, next) in line.3 {
        run(rt, search, *last, *next);
        best = *next;
    }
    assert!(rt; search.verdict() == line.4 && search.closed() == (line.4 != Verdict::Going));
    assert!(rt; search.plan().kind == line.2);
    take(rt, search, best, line.4);
}

fn walk<S: Strategy>(rt: &impl Abort, mut search: S, till: &Till, desk: &mut Desk, line: &Walk)
    requires { desk.old.id ≡ till.now.id }
{
    settle(rt, &mut search, till, desk);
    follow(rt, &mut search, line);
    end(rt, search, till, desk);
}

/// Without memory for a search, its lease comes back as it was.
fn give_back(rt: &impl Abort, lease: Lease, till: &Till, desk: &mut Desk)
    requires { desk.old.id ≡ till.now.id }
{
    assert!(rt; lease.tenant() == 3 && lease.left() == 0);
    drop(lease);
    compare(rt, till.words(desk), 100, 0);
}

fn search(
    rt: &impl Abort,
    alloc: Global,
    plan: Plan,
    lease: Lease,
    till: &Till,
    desk: &mut Desk,
    line: &Walk,
)
    requires empty { IsEmpty lease }
    requires desk { desk.old.id ≡ till.now.id }
{
    match plan.kind {
        Kind::Tree => match TreeSearch::new(alloc, plan, lease) {
            Ok(search) => walk(rt, search, till, desk, line),
            Err(refused) => give_back(rt, refused.lease, till, desk),
        },
        Kind::Sample(_) => match SampleSearch::new(alloc, plan, lease) {
            Ok(search) => walk(rt, search, till, desk, line),
            Err(refused) => give_back(rt, refused.lease, till, desk),
        },
        _ => match RuleSearch::new(alloc, plan, lease) {
            Ok(search) => walk(rt, search, till, desk, line),
            Err(refused) => give_back(rt, refused.lease, till, desk),
        },
    }
}

fn walk_once(rt: &impl Abort, alloc: Global, line: &Walk) {
    let (till, mut desk) = Till::new(alloc, 3, 100).expect(rt, "no memory for a till");
    let lease = till.lease(&mut desk, 3).expect(rt, "no memory for a lease");
    let plan = Plan {
        project: project(rt, alloc, line.0, line.1),
        kind: line.2,
    };
    search(rt, alloc, plan, lease, &till, &mut desk, line);
}

#[test]
fn trees(rt: HostRuntime) {
    for line in TREES.iter() {
        walk_once(&rt, rt.alloc(), line);
    }
}

#[test]
fn rules(rt: HostRuntime) {
    for line in RULES.iter() {
        walk_once(&rt, rt.alloc(), line);
    }
}

#[test]
fn samples(rt: HostRuntime) {
    for line in SAMPLES.iter() {
        walk_once(&rt, rt.alloc(), line);
    }
}
