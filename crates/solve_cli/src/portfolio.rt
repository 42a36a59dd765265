//! Running several searches of one project, one after another.
ghost use Rattle.std.specs.Prelude.{◌≡◌, ◌+◌, ◌<◌, ◌≤◌, ◌^◌, length, option_map, IfOk};
ghost use Rattle.mrcpsp.specs.Schedule.{makespan};
ghost use Rattle.solve_cli.specs.Portfolio.{is_decided, is_shorter, stronger, joined, IsFoundBy, IsFoundByEach};

use crate::local_search::improve;
use crate::proof::prove_within;
use crate::search_kinds::SearchKind;
use crate::search_result::{MOST_NODES, Observer, SearchResult, solve};
use mrcpsp::{Project, Schedule};
use std::alloc::{AllocError, Global};
use strategy::{Plan, Verdict};

/// The most searches that run one after another.
pub const MOST_SEARCHES: usize = 1_000;

fn is_decided(verdict: Verdict) -> bool
    ensures { result ≡ is_decided verdict }
{
    match verdict {
        Verdict::Optimal | Verdict::Infeasible => true,
        Verdict::Going | Verdict::Ended => false,
    }
}

fn stronger(one: Verdict, other: Verdict) -> Verdict
    ensures { result ≡ stronger one other }
{
    match one {
        Verdict::Optimal | Verdict::Infeasible => one,
        Verdict::Going => match other {
            Verdict::Ended => Verdict::Going,
            _ => other,
        },
        Verdict::Ended => other,
    }
}

fn is_shorter(one: Option<u32>, other: Option<u32>) -> bool
    ensures { result ≡ is_shorter one other }
{
    match (one, other) {
        (Some(one), Some(other)) => other < one,
        (None, Some(_)) => true,
        (_, None) => false,
    }
}

fn joined(_project: &Project, one: SearchResult, other: SearchResult) -> SearchResult
    requires one { one.makespan ≡ option_map (makespan _project.now) one.best }
    requires other { other.makespan ≡ option_map (makespan _project.now) other.best }
    requires few { one.nodes + other.nodes < 2 ^ 64 }
    ensures { result ≡ joined _project.now one other }
{
    let is_shorter = is_shorter(one.makespan, other.makespan);
    let nodes = one.nodes + other.nodes;
    let verdict = stronger(one.verdict, other.verdict);
    let shorter = if is_shorter { other } else { one };
    SearchResult {
        nodes,
        verdict,
        best: shorter.best,
        makespan: shorter.makespan,
    }
}

/// A search that proves begins with the schedule `first`.
fn solve_by<W: Observer>(
    alloc: Global,
    project: &Project,
    kind: SearchKind,
    most: u64,
    first: Option<&Schedule>,
    observer: &mut W,
) -> Result<SearchResult, AllocError>
    requires { most ≤ MOST_NODES }
    ensures { IfOk result (λ found. IsFoundBy project.now kind most found) }
{
    match kind {
        SearchKind::Planned(kind) => {
            let project = project.clone_in(alloc)?;
            solve(alloc, Plan { project, kind }, most, observer)
        }
        SearchKind::Improve(seed) => improve(alloc, project, seed, most, observer),
        SearchKind::Prove(conflicts) => Ok(prove_within(
            alloc,
            project,
            conflicts.min(most),
            first,
            observer,
        )),
    }
}

/// Runs a search of each kind for at most `most` nodes, and joins what they find. None runs after
/// one that has decided the project. An error is want of memory.
pub fn solve_each<W: Observer>(
    alloc: Global,
    project: &Project,
    kinds: &[SearchKind],
    most: u64,
    observer: &mut W,
) -> Result<SearchResult, AllocError>
    requires few { most ≤ MOST_NODES }
    requires short { length kinds.now ≤ MOST_SEARCHES }
    ensures { IfOk result (λ found. IsFoundByEach project.now kinds.now most found) }
{
    let mut found = SearchResult {
        nodes: 0,
        best: None,
        makespan: None,
        verdict: Verdict::Ended,
    };
    for kind in kinds {
        let next = solve_by(alloc, project, *kind, most, found.best.as_ref(), observer)?;
        observer.end(next.nodes);
        let is_decided = is_decided(next.verdict);
        found = joined(project, found, next);
        if is_decided {
            return Ok(found);
        }
    }
    Ok(found)
}
