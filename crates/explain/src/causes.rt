//! Why no schedule of a project is feasible.
use mrcpsp::{Activity, Mode, Project};
use std::alloc::Global;

/// The first renewable resource of which `mode` needs more than there is.
fn beyond(mode: &Mode, capacities: &[u32]) -> Option<usize> {
    if mode.duration == 0 {
        return None;
    }
    let requests = mode.renewable.as_slice();
    requests
        .iter()
        .zip(capacities)
        .position(|(request, capacity)| capacity < request)
}

/// `None` if some mode of the activity can be executed.
fn why_stuck(
    alloc: Global,
    number: usize,
    activity: &Activity,
    capacities: &[u32],
) -> Option<String> {
    let modes = activity.modes.as_slice();
    if modes.iter().any(|mode| beyond(mode, capacities).is_none()) {
        return None;
    }
    let first = modes.first()?;
    let place = beyond(first, capacities)?;
    let resource = place.saturating_add(1);
    let request = first.renewable.as_slice().get(place)?;
    let capacity = capacities.get(place)?;
    format!(in alloc;
        "infeasible: activity {number} can be executed in none of its modes: in mode 1 it needs {request} of renewable resource {resource}, whose capacity is {capacity}"
    ).ok()
}

/// The least that `activity` consumes, in the modes that can be executed.
fn least(activity: &Activity, capacities: &[u32], place: usize) -> u32 {
    let mut least = u32::MAX;
    for mode in activity.modes.as_slice() {
        let consumed = mode.nonrenewable.as_slice().get(place).copied();
        if beyond(mode, capacities).is_none() {
            least = least.min(consumed.unwrap_or(0));
        }
    }
    least
}

/// `None` if the resource lasts in some modes.
fn why_short(alloc: Global, project: &Project, place: usize) -> Option<String> {
    let stock = project.nonrenewable().get(place)?;
    let mut needed = 0u64;
    for activity in project.activities() {
        let least = least(activity, project.renewable(), place);
        needed = needed.saturating_add(u64::from(least));
    }
    if needed <= u64::from(*stock) {
        return None;
    }
    let resource = place.saturating_add(1);
    format!(in alloc;
        "infeasible: at least {needed} of nonrenewable resource {resource} are consumed, and there are {stock}"
    ).ok()
}

/// Why a project is infeasible: no mode of an activity can be executed, a nonrenewable resource
/// does not last, or all of them together do not.
pub fn why_infeasible(alloc: Global, project: &Project) -> Option<String> {
    let mut number = 0usize;
    for activity in project.activities() {
        number = number.saturating_add(1);
        let why = why_stuck(alloc, number, activity, project.renewable());
        if why.is_some() {
            return why;
        }
    }
    why_consumed(alloc, project)
}

fn why_consumed(alloc: Global, project: &Project) -> Option<String> {
    for place in 0..project.nonrenewables() {
        let why = why_short(alloc, project, place);
        if why.is_some() {
            return why;
        }
    }
    format!(in alloc;
        "infeasible: each nonrenewable resource would last by itself, but no choice of modes keeps all of them"
    ).ok()
}
