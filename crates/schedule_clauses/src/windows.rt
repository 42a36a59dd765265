//! The times at which an activity can start. They are hints: they decide which clauses there are.
ghost use Rattle.std.specs.Prelude.{◌≡◌, ◌<◌, IfOk};
ghost use Rattle.mrcpsp.specs.Project.{size};
ghost use Rattle.mrcpsp.specs.Values.{tail, shortest};
ghost use Rattle.measures.specs.Measures.{measures_of};

use crate::diagram::number_at;
use crate::size::heads_of;
use measures::Measures;
use mrcpsp::Project;
use std::alloc::{AllocError, Global};

/// The first and the last start of each activity, if all end by the bound.
#[derive(Drop)]
pub(crate) struct Windows {
    pub(crate) bound: u32,
    first: Vec<u32>,
    last: Vec<u32>,
}

#[derive(Clone, Copy)]
pub(crate) struct StartWindow {
    pub(crate) first: u32,
    pub(crate) last: u32,
}

/// The periods that its successors take at least.
pub(crate) fn rest_of(project: &Project, measures: &Measures, activity: usize) -> u32
    requires activity { activity < size project.now }
    requires measures { measures.now ≡ measures_of project.now }
    ensures { result ≡ tail project.now activity }
{
    measures.tail(activity)
}

pub(crate) fn least_of(project: &Project, measures: &Measures, activity: usize) -> u32
    requires activity { activity < size project.now }
    requires measures { measures.now ≡ measures_of project.now }
    ensures { result ≡ shortest project.now activity }
{
    measures.shortest(activity)
}

/// The latest start that an end by `time` leaves, no lower than is known to be impossible.
pub(crate) fn start_for(time: u32, duration: u32, first: u32) -> Option<u32> {
    if time < duration {
        if first == 0 { None } else { Some(first - 1) }
    } else {
        Some((time - duration).max(first.saturating_sub(1)))
    }
}

impl Windows {
    /// The windows that chains of shortest durations leave within the bound.
    pub(crate) fn new(
        alloc: Global,
        project: &Project,
        measures: &Measures,
        bound: u32,
    ) -> Result<Windows, AllocError>
        requires { measures.now ≡ measures_of project.now }
        ensures { IfOk result (λ windows. windows.bound ≡ bound) }
    {
        let first = heads_of(alloc, project, measures)?;
        let mut last = Vec::new(alloc);
        for activity in 0..project.size() {
            let least = least_of(project, measures, activity);
            let rest = rest_of(project, measures, activity);
            last.push(bound.saturating_sub(least).saturating_sub(rest))?;
        }
        Ok(Windows { bound, first, last })
    }

    pub(crate) fn of(&self, activity: usize) -> StartWindow {
        StartWindow {
            first: number_at(&self.first, activity),
            last: number_at(&self.last, activity),
        }
    }
}
