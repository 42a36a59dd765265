//! What is reported while workers work: better schedules on standard output, and progress on
//! standard error.
ghost use Rattle.std.specs.Prelude.{◌≡◌, IfOk, option_map, string_bytes};
ghost use Rattle.price_search.specs.LowerBound.{TakesAtLeast};
ghost use Rattle.prover.specs.Known.{IsBest};
ghost use Rattle.prove_cli.specs.Proved.{better_text};

use crate::cost::{Cost, cost_since};
use crate::output::{tell_better, tell_gap_json};
use mrcpsp::Project;
use prover::{BestKnown, Herald};
use std::alloc::{AllocError, Global};
use std::io::{Eprint, Print};
use std::time::{Clock, Instant};

/// How better schedules are printed.
#[derive(Clone, Copy, Debug, PartialEq, Eq)]
pub(crate) enum Style {
    Silent,
    Lines,
    Json,
}

/// A `Reporter` prints each better schedule, and a line of progress for each of them and for each
/// higher bound.
#[derive(Drop)]
pub(crate) struct Reporter<'a, R> {
    rt: &'a R,
    alloc: Global,
    style: Style,
    has_progress: bool,
    jobs: usize,
    begun: Option<Instant>,
}

impl<'a, R: Clock + Eprint + Print> Reporter<'a, R> {
    pub(crate) fn new(
        rt: &'a R,
        alloc: Global,
        style: Style,
        has_progress: bool,
        jobs: usize,
    ) -> Reporter<'a, R> {
        Reporter {
            rt,
            alloc,
            style,
            has_progress,
            jobs,
            begun: Instant::now(rt).ok(),
        }
    }

    fn progress(&self, text: &str, number: u32) {
        if !self.has_progress {
            return;
        }
        let cost = cost_since(self.rt, self.begun, self.jobs, None);
        let (seconds, tenths) = (cost.seconds, cost.tenths);
        let _ = eprintln!(self.rt; "{seconds}.{tenths} s  {text} {number}");
    }
}

/// What is told of a better schedule and a bound. An error is want of memory.
fn better_text(
    alloc: Global,
    style: Style,
    _project: &Project,
    best: &BestKnown,
    bound: u32,
    cost: Cost,
) -> Result<Option<String>, AllocError>
    requires best { IsBest _project.now best.now }
    requires bound { TakesAtLeast _project.now bound }
    ensures { IfOk result (λ told. option_map string_bytes told ≡ better_text style best.now bound cost) }
{
    match style {
        Style::Silent => Ok(None),
        Style::Lines => Ok(Some(tell_better(alloc, best)?)),
        Style::Json => Ok(Some(tell_gap_json(alloc, best, bound, cost)?)),
    }
}

impl<R: Clock + Eprint + Print> Herald for Reporter<'_, R> {
    fn better(&self, _project: &Project, best: &BestKnown, bound: u32)
        requires best { IsBest _project.now best.now }
        requires bound { TakesAtLeast _project.now bound }
    {
        self.progress("makespan", best.makespan);
        let cost = cost_since(self.rt, self.begun, self.jobs, None);
        let told = better_text(self.alloc, self.style, _project, best, bound, cost);
        if let Ok(Some(text)) = told {
            let _ = print!(self.rt; "{text}");
        }
    }

    fn higher(&self, _project: &Project, bound: u32)
        requires { TakesAtLeast _project.now bound }
    {
        self.progress("at least", bound);
    }
}
