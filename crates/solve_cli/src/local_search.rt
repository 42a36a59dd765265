//! Running a local search of a project.
ghost use Rattle.std.specs.Prelude.{◌≡◌, true, None, ◌<◌, ◌≤◌, ◌*◌, IfOk, Bool, Option, ℕ};
ghost use Rattle.mrcpsp.specs.Values.{bound};
ghost use Rattle.strategy.specs.Outcome.{is_at_bound};
ghost use Rattle.solve_cli.specs.Improved.{IsImproved, can_all_run};

use crate::executable::can_all_run;
use crate::search_result::{CHUNK, Observer, SearchResult};
use improve_search::LocalSearch;
use measures::Measures;
use mrcpsp::Project;
use std::alloc::{AllocError, Global};
use strategy::Verdict;

fn run_all<W: Observer>(search: &mut LocalSearch, project: &Project, observer: &mut W)
    ensures project { search.new.project ≡ search.old.project }
    ensures most { search.new.most ≡ search.old.most }
{
    let mut chunk = 1;
    while search.run(chunk) {
        observer.look(project, search.spent(), search.best());
        chunk = CHUNK.min(2 * chunk);
    }
    observer.look(project, search.spent(), search.best());
}

fn found_nothing(verdict: Verdict) -> SearchResult
    ensures { result ≡ record { nodes = 0; best = None; makespan = None; verdict = verdict } }
{
    SearchResult {
        nodes: 0,
        best: None,
        makespan: None,
        verdict,
    }
}

fn found_by(search: LocalSearch, bound: u32) -> SearchResult
    requires bound { bound ≡ Rattle.mrcpsp.specs.Values.bound search.project }
    requires runs { can_all_run search.project ≡ true }
    ensures { IsImproved search.project search.most result }
{
    let nodes = search.spent();
    let makespan = search.makespan();
    let is_shortest = match makespan {
        Some(periods) => periods <= bound,
        None => false,
    };
    SearchResult {
        nodes,
        best: search.into_best(),
        makespan,
        verdict: if is_shortest {
            Verdict::Optimal
        } else {
            Verdict::Going
        },
    }
}

/// Runs the local search of `seed` for at most `most` schedules. Without an executable mode of each
/// activity the project is infeasible, and nothing is searched. An error is want of memory.
pub fn improve<W: Observer>(
    alloc: Global,
    project: &Project,
    seed: u64,
    most: u64,
    observer: &mut W,
) -> Result<SearchResult, AllocError>
    ensures { IfOk result (λ found. IsImproved project.now most found) }
{
    if !can_all_run(alloc, project)? {
        return Ok(found_nothing(Verdict::Infeasible));
    }
    let bound = Measures::of(alloc, project)?.bound();
    match LocalSearch::new(alloc, project, seed, most)? {
        Some(mut search) => {
            run_all(&mut search, project, observer);
            Ok(found_by(search, bound))
        }
        None => Ok(found_nothing(Verdict::Going)),
    }
}
