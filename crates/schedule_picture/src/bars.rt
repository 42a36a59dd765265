//! The activities of a schedule as they are drawn, and what they use.
use mrcpsp::{Mode, Project, Schedule};
use std::alloc::{AllocError, Global};

#[derive(Drop)]
pub(crate) struct Bar<'a> {
    pub(crate) number: usize,
    pub(crate) mode: u32,
    pub(crate) start: u32,
    /// The period behind its last one.
    pub(crate) finish: u32,
    pub(crate) requests: &'a [u32],
    pub(crate) consumptions: &'a [u32],
    pub(crate) successors: &'a [u32],
    pub(crate) is_critical: bool,
}

fn mode_at<'a>(project: &'a Project, place: usize, number: u32) -> Option<&'a Mode> {
    let activity = project.activities().get(place)?;
    activity
        .modes
        .as_slice()
        .get((number as usize).checked_sub(1)?)
}

fn successors_at(project: &Project, place: usize) -> &[u32] {
    match project.activities().get(place) {
        Some(activity) => activity.successors.as_slice(),
        None => &[],
    }
}

pub(crate) fn bars_of<'a>(
    alloc: Global,
    project: &'a Project,
    schedule: &Schedule,
) -> Result<Vec<Bar<'a>>, AllocError> {
    let modes = schedule.modes.as_slice();
    let starts = schedule.starts.as_slice();
    let mut bars = Vec::new(alloc);
    for place in 0..modes.len().min(starts.len()) {
        if let Some(mode) = mode_at(project, place, modes[place]) {
            bars.push(Bar {
                number: place + 1,
                mode: modes[place],
                start: starts[place],
                finish: starts[place].saturating_add(mode.duration),
                requests: mode.renewable.as_slice(),
                consumptions: mode.nonrenewable.as_slice(),
                successors: successors_at(project, place),
                is_critical: false,
            })?;
        }
    }
    Ok(bars)
}

pub(crate) fn use_at(bars: &[Bar<'_>], place: usize, time: u32) -> u32 {
    let mut total = 0u32;
    for bar in bars {
        if bar.start <= time && time < bar.finish {
            let request = bar.requests.get(place).copied().unwrap_or(0);
            total = total.saturating_add(request);
        }
    }
    total
}

pub(crate) fn consumed(bars: &[Bar<'_>], place: usize) -> u32 {
    let mut total = 0u32;
    for bar in bars {
        let amount = bar.consumptions.get(place).copied().unwrap_or(0);
        total = total.saturating_add(amount);
    }
    total
}

/// The starts and finishes, each time once, the earliest first.
pub(crate) fn times_of(alloc: Global, bars: &[Bar<'_>]) -> Result<Vec<u32>, AllocError> {
    let mut times = Vec::new(alloc);
    for bar in bars {
        times.push(bar.start)?;
        times.push(bar.finish)?;
    }
    times.sort_unstable();
    times.dedup();
    Ok(times)
}

/// The latest finish, 0 if there is no bar.
pub(crate) fn end_of(bars: &[Bar<'_>]) -> u32 {
    let mut latest = 0u32;
    for bar in bars {
        latest = latest.max(bar.finish);
    }
    latest
}

/// The bar of the activity with this number.
pub(crate) fn bar_at<'a, 'b>(bars: &'b [Bar<'a>], number: usize) -> Option<&'b Bar<'a>> {
    bars.iter().find(|bar| bar.number == number)
}

pub(crate) fn peak(bars: &[Bar<'_>], times: &[u32], place: usize) -> u32 {
    let mut most = 0u32;
    for time in times {
        most = most.max(use_at(bars, place, *time));
    }
    most
}

pub(crate) fn has_mode(bars: &[Bar<'_>], mode: u32) -> bool {
    bars.iter().any(|bar| bar.mode == mode)
}
