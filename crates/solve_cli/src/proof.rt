//! Running a search that proves what it finds.
ghost use Rattle.std.specs.Prelude.{◌≡◌, IfSome, Some, None, false};
ghost use Rattle.std.specs.Option.{option_copied};
ghost use Rattle.price_search.specs.LowerBound.{TakesAtLeast};
ghost use Rattle.prover.specs.Answers.{IsAnswer};
ghost use Rattle.prover.specs.Known.{IsBest};
ghost use Rattle.solve_cli.specs.Portfolio.{IsTrueWithin};

use crate::search_result::{Observer, SearchResult};
use mrcpsp::{Project, Schedule};
use prover::{Allowance, Answer, BestKnown, Overseer, Pace, Proved, prove_alone};
use std::alloc::Global;
use strategy::Verdict;

/// The most words of four bytes in clauses, and equally many in their kernel: 500 megabytes in all.
const WORDS: usize = 62_500_000;

/// An observer of a search that proves. A node is a conflict.
#[derive(Drop)]
struct Looks<'a, W> {
    observer: &'a mut W,
}

impl<W: Observer> Overseer for Looks<'_, W> {
    fn look(
        &mut self,
        project: &Project,
        conflicts: u64,
        best: Option<&BestKnown>,
        _bound: u32,
    ) -> bool
        requires best { IfSome (option_copied best) (IsBest project.now) }
        requires bound { TakesAtLeast project.now _bound }
    {
        match best {
            Some(best) => self.observer.look(project, conflicts, Some(&best.schedule)),
            None => self.observer.look(project, conflicts, None),
        }
        true
    }

    fn pace(&self) -> Option<Pace> {
        None
    }
}

fn found_with(nodes: u64, best: BestKnown, verdict: Verdict) -> SearchResult
    ensures { result
        ≡ record { nodes = nodes; best = Some best.schedule; makespan = Some best.makespan; verdict = verdict } }
{
    let BestKnown { schedule, makespan } = best;
    SearchResult {
        nodes,
        best: Some(schedule),
        makespan: Some(makespan),
        verdict,
    }
}

fn found_without(nodes: u64, verdict: Verdict) -> SearchResult
    ensures { result ≡ record { nodes = nodes; best = None; makespan = None; verdict = verdict } }
{
    SearchResult {
        nodes,
        best: None,
        makespan: None,
        verdict,
    }
}

fn found_by(_project: &Project, proved: Proved) -> SearchResult
    requires { IsAnswer _project.now proved.answer }
    ensures { IsTrueWithin _project.now proved.conflicts result }
{
    let nodes = proved.conflicts;
    match proved.answer {
        Answer::Optimal(best) => found_with(nodes, best, Verdict::Optimal),
        Answer::Gap(best, _) => found_with(nodes, best, Verdict::Going),
        Answer::AtLeast(_) => found_without(nodes, Verdict::Going),
        Answer::Infeasible => found_without(nodes, Verdict::Infeasible),
    }
}

fn allowed(most: u64) -> Allowance
    ensures conflicts { result.conflicts ≡ most }
    ensures ends { result.is_endless ≡ false }
{
    Allowance {
        words: WORDS,
        conflicts: most,
        is_endless: false,
    }
}

/// Searches within `most` conflicts, beginning with `first` if that is feasible. Want of memory ends
/// it with what is known then.
pub fn prove_within<W: Observer>(
    alloc: Global,
    project: &Project,
    most: u64,
    first: Option<&Schedule>,
    observer: &mut W,
) -> SearchResult
    ensures { IsTrueWithin project.now most result }
{
    let proved = prove_alone(alloc, project, allowed(most), first, Looks { observer });
    found_by(project, proved)
}

/// An observer that sees nothing.
#[derive(Drop)]
struct Unseen;

impl Overseer for Unseen {
    fn look(
        &mut self,
        _project: &Project,
        _conflicts: u64,
        _best: Option<&BestKnown>,
        _bound: u32,
    ) -> bool {
        true
    }

    fn pace(&self) -> Option<Pace> {
        None
    }
}

fn bound_of(_project: &Project, answer: Answer) -> u32
    requires { IsAnswer _project.now answer }
    ensures { TakesAtLeast _project.now result }
{
    match answer {
        Answer::Optimal(best) => best.makespan,
        Answer::Gap(_, bound) | Answer::AtLeast(bound) => bound,
        Answer::Infeasible => 0,
    }
}

/// The periods that each feasible schedule takes, as far as `most` conflicts show it. `first` is a
/// feasible schedule.
pub(crate) fn bound_within(alloc: Global, project: &Project, most: u64, first: &Schedule) -> u32
    ensures { TakesAtLeast project.now result }
{
    let proved = prove_alone(alloc, project, allowed(most), Some(first), Unseen);
    bound_of(project, proved.answer)
}
