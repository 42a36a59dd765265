//! How many choices and rows a bound has, counted before there is a table of them.
use crate::narrow::overused;
use mrcpsp::{Activity, Project};
use std::alloc::{AllocError, Global};

/// When an activity can start first and end last, and its shortest duration, all by modes that
/// capacities have room for. Without such a mode the duration is `u32::MAX`.
#[derive(Clone, Copy)]
struct Reach {
    earliest: u32,
    latest_end: u32,
    shortest: u32,
}

const NOWHERE: Reach = Reach {
    earliest: 0,
    latest_end: 0,
    shortest: u32::MAX,
};

fn reach_at(reaches: &[Reach], activity: usize) -> Reach {
    reaches.get(activity).copied().unwrap_or(NOWHERE)
}

fn shortest_of(project: &Project, activity: &Activity) -> u32 {
    let mut shortest = u32::MAX;
    for way in activity.modes.as_slice() {
        if way.duration == 0 || overused(project, way).is_none() {
            shortest = shortest.min(way.duration);
        }
    }
    shortest
}

/// The successors start at `end` or later.
fn put_behind(reaches: &mut [Reach], activity: &Activity, end: u32) {
    for next in activity.successors.as_slice() {
        let after = (*next as usize).saturating_sub(1);
        if after < reaches.len() {
            reaches[after].earliest = reaches[after].earliest.max(end);
        }
    }
}

fn set_earliest(project: &Project, reaches: &mut [Reach]) {
    for (number, activity) in project.activities().iter().enumerate() {
        let reach = reach_at(reaches, number);
        let end = reach.earliest.saturating_add(reach.shortest);
        put_behind(reaches, activity, end);
    }
}

/// The latest end that leaves each successor room to end by its own.
fn latest_end_of(reaches: &[Reach], activity: &Activity, bound: u32) -> u32 {
    let mut latest = bound;
    for next in activity.successors.as_slice() {
        let reach = reach_at(reaches, (*next as usize).saturating_sub(1));
        latest = latest.min(reach.latest_end.saturating_sub(reach.shortest));
    }
    latest
}

fn set_latest_ends(project: &Project, reaches: &mut [Reach], bound: u32) {
    for number in (0..reaches.len()).rev() {
        if let Some(activity) = project.activities().get(number) {
            let latest_end = latest_end_of(reaches, activity, bound);
            if number < reaches.len() {
                reaches[number].latest_end = latest_end;
            }
        }
    }
}

fn reaches_of(alloc: Global, project: &Project, bound: u32) -> Result<Vec<Reach>, AllocError> {
    let mut reaches = Vec::new(alloc);
    for activity in project.activities() {
        let shortest = shortest_of(project, activity);
        reaches.push(Reach {
            shortest,
            ..NOWHERE
        })?;
    }
    set_earliest(project, &mut reaches);
    set_latest_ends(project, &mut reaches, bound);
    Ok(reaches)
}

fn choices_of(project: &Project, activity: &Activity, reach: Reach) -> usize {
    let mut choices = 0usize;
    for way in activity.modes.as_slice() {
        if way.duration == 0 || overused(project, way).is_none() {
            let room = reach.latest_end.saturating_add(1);
            let starts = room.saturating_sub(reach.earliest.saturating_add(way.duration));
            choices = choices.saturating_add(starts as usize);
        }
    }
    choices
}

fn arc_rows_of(reaches: &[Reach], activity: &Activity, latest_end: u32) -> usize {
    let mut rows = 0usize;
    for next in activity.successors.as_slice() {
        let reach = reach_at(reaches, (*next as usize).saturating_sub(1));
        rows = rows.saturating_add(latest_end.saturating_sub(reach.earliest) as usize);
    }
    rows
}

fn count_given(limits: &[u32]) -> usize {
    limits.iter().filter(|limit| **limit > 0).count()
}

/// The number of choices and rows that capacities and precedences leave within the bound. 0 if they
/// leave an activity no choice, so that the bound is refuted.
pub(crate) fn items_of(alloc: Global, project: &Project, bound: u32) -> Result<usize, AllocError> {
    let reaches = reaches_of(alloc, project, bound)?;
    let periods = count_given(project.renewable()).saturating_mul(bound as usize);
    let mut items = periods.saturating_add(count_given(project.nonrenewable()));
    for (number, activity) in project.activities().iter().enumerate() {
        let reach = reach_at(&reaches, number);
        let choices = choices_of(project, activity, reach);
        if choices == 0 {
            return Ok(0);
        }
        let rows = arc_rows_of(&reaches, activity, reach.latest_end);
        items = items.saturating_add(choices).saturating_add(rows);
    }
    Ok(items)
}
