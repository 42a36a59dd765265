//! Running one search of a plan.
ghost use Rattle.std.specs.Prelude.{◌≡◌, ◌<◌, ◌≤◌, false, IsFalse, IfOk, option_map};
ghost use Rattle.std.specs.Option.{option_copied};
ghost use Rattle.mrcpsp.specs.Schedule.{makespan};
ghost use Rattle.strategy.specs.Outcome.{best_after};
ghost use Rattle.strategy.specs.Search.{shown_closed};
ghost use Rattle.solve_cli.specs.Found.{IsFound, IsAt, IsFresh, IsBegun, IsOver, IsShown};

use mrcpsp::{Project, Schedule, check};
use quanta_till::Till;
use rule_search::RuleSearch;
use sample_search::SampleSearch;
use std::alloc::{AllocError, Global};
use strategy::laws::each_best_is_feasible;
use strategy::{Kind, Plan, Strategy, Verdict};
use tree_search::TreeSearch;

/// The most nodes of a search.
pub const MOST_NODES: u64 = explain::MOST_NODES;

/// The most nodes between two looks of an observer: it looks after 1, 3, 7 and so on.
pub(crate) const CHUNK: u64 = 65_536;

/// A `SearchResult` is what a search has found.
#[derive(Debug, Drop)]
pub struct SearchResult {
    pub nodes: u64,
    pub best: Option<Schedule>,
    /// The makespan of `best`, in periods.
    pub makespan: Option<u32>,
    pub verdict: Verdict,
}

/// An `Observer` is what looks at a search now and then.
pub trait Observer {
    /// Looks at a search of `project` that has run `nodes` nodes and knows the schedule `best`.
    fn look(&mut self, project: &Project, nodes: u64, best: Option<&Schedule>);

    /// The search has run `nodes` nodes, and runs no more.
    fn end(&mut self, nodes: u64);
}

fn run_chunk<S: Strategy>(search: &mut S, chunk: u64)
    requires some { 0 < chunk }
    requires going { IsFalse (shown_closed (S.meaning search.old)) }
    requires paid { 0 < (S.meaning search.old).left }
    ensures at { IsAt (S.meaning search.old) (S.meaning search.new) }
    ensures more { (S.meaning search.new).left < (S.meaning search.old).left }
{
    let _ran = search.run(chunk);
}

fn run_nodes<S: Strategy, W: Observer>(search: &mut S, observer: &mut W)
    ensures at { IsAt (S.meaning search.old) (S.meaning search.new) }
    ensures over { IsOver (S.meaning search.new) }
{
    let mut chunk = 1;
    while !search.closed() && search.left() > 0 {
        run_chunk(search, chunk);
        observer.look(&search.plan().project, search.nodes(), search.best());
        chunk = CHUNK.min(2 * chunk);
    }
}

fn begin<S: Strategy>(search: &mut S, most: u64)
    requires fresh { IsFresh (S.meaning search.old) }
    requires few { most ≤ MOST_NODES }
    ensures { IsBegun (S.meaning search.old).plan most (S.meaning search.new) }
{
    if !search.closed() {
        search.fund(most);
    }
}

fn makespan_of(plan: &Plan, nodes: u64, best: Option<&Schedule>) -> Option<u32>
    requires { option_copied best ≡ best_after plan.now nodes }
    ensures { result ≡ option_map (makespan plan.now.project) (best_after plan.now nodes) }
{
    each_best_is_feasible();
    let _activities = plan.project.activities();
    match best {
        Some(schedule) => match check(&plan.project, schedule) {
            Ok(makespan) => Some(makespan),
            Err(_) => None,
        },
        None => None,
    }
}

fn shown_by<S: Strategy>(mut search: S) -> SearchResult
    requires { (S.meaning search).taken ≡ false }
    ensures { IsShown (S.meaning search) result }
{
    let makespan = makespan_of(search.plan(), search.nodes(), search.best());
    let nodes = search.nodes();
    let verdict = search.verdict();
    SearchResult {
        nodes,
        best: search.take_best(),
        makespan,
        verdict,
    }
}

fn found_by<S: Strategy, W: Observer>(mut search: S, most: u64, observer: &mut W) -> SearchResult
    requires fresh { IsFresh (S.meaning search) }
    requires few { most ≤ MOST_NODES }
    ensures { IsFound (S.meaning search).plan most result }
{
    begin(&mut search, most);
    run_nodes(&mut search, observer);
    shown_by(search)
}

/// Runs the search of `plan` for at most `most` nodes. An error is want of memory.
pub fn solve<W: Observer>(
    alloc: Global,
    plan: Plan,
    most: u64,
    observer: &mut W,
) -> Result<SearchResult, AllocError>
    requires { most ≤ MOST_NODES }
    ensures { IfOk result (λ found. IsFound plan most found) }
{
    let (till, mut desk) = Till::new(alloc, 0, most)?;
    let lease = till.lease(&mut desk, 0)?;
    match plan.kind {
        Kind::Tree => match TreeSearch::new(alloc, plan, lease) {
            Ok(search) => Ok(found_by(search, most, observer)),
            Err(_) => Err(AllocError),
        },
        Kind::Sample(_) => match SampleSearch::new(alloc, plan, lease) {
            Ok(search) => Ok(found_by(search, most, observer)),
            Err(_) => Err(AllocError),
        },
        _ => match RuleSearch::new(alloc, plan, lease) {
            Ok(search) => Ok(found_by(search, most, observer)),
            Err(_) => Err(AllocError),
        },
    }
}
