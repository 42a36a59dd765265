//! By how much a schedule breaks a condition.
use mrcpsp::{Breach, MOST_START, Mode, Project, Schedule, breaches_of};
use schedule_files::read_schedule;
use std::alloc::{AllocError, Global};

fn mode_at<'a>(project: &'a Project, schedule: &Schedule, place: usize) -> Option<&'a Mode> {
    let activity = project.activities().get(place)?;
    let number = *schedule.modes.as_slice().get(place)?;
    activity
        .modes
        .as_slice()
        .get((number as usize).checked_sub(1)?)
}

fn start_at(schedule: &Schedule, place: usize) -> u32 {
    schedule.starts.as_slice().get(place).copied().unwrap_or(0)
}

fn tell_shape(alloc: Global, project: &Project, schedule: &Schedule) -> Result<String, AllocError> {
    let (found, wanted) = (schedule.modes.as_slice().len(), project.activities().len());
    if found != wanted {
        return format!(in alloc;
            "activities of the schedule: {found}, and of the project: {wanted}"
        );
    }
    let mut number = 0usize;
    for start in schedule.starts.as_slice() {
        number = number.saturating_add(1);
        if *start > MOST_START {
            return format!(in alloc; "activity {number} starts above period {MOST_START}");
        }
    }
    format!(in alloc; "activities of the project: {wanted}")
}

fn tell_precedence(
    alloc: Global,
    project: &Project,
    schedule: &Schedule,
    before: u32,
    after: u32,
) -> Result<String, AllocError> {
    let place = (before as usize).saturating_sub(1);
    let duration = mode_at(project, schedule, place).map_or(0, |mode| mode.duration);
    let end = start_at(schedule, place).saturating_add(duration);
    let start = start_at(schedule, (after as usize).saturating_sub(1));
    format!(in alloc;
        "activity {after} starts in period {start}, before activity {before} ends at {end}"
    )
}

fn load_at(
    project: &Project,
    schedule: &Schedule,
    place: usize,
    resource: usize,
    period: u32,
) -> u32 {
    let Some(mode) = mode_at(project, schedule, place) else {
        return 0;
    };
    let start = start_at(schedule, place);
    if start <= period && period < start.saturating_add(mode.duration) {
        mode.renewable
            .as_slice()
            .get(resource)
            .copied()
            .unwrap_or(0)
    } else {
        0
    }
}

fn tell_renewable(
    alloc: Global,
    project: &Project,
    schedule: &Schedule,
    number: u32,
    period: u32,
) -> Result<String, AllocError> {
    let resource = (number as usize).saturating_sub(1);
    let mut total = 0u64;
    let mut users = String::new(alloc);
    for place in 0..project.activities().len() {
        let load = load_at(project, schedule, place, resource, period);
        if load > 0 {
            total = total.saturating_add(u64::from(load));
            let activity = place.saturating_add(1);
            let comma = if users.is_empty() { "" } else { "," };
            write!(users, "{comma} {activity}")?;
        }
    }
    let capacity = project.renewable().get(resource).copied().unwrap_or(0);
    format!(in alloc; "needs {total} of {capacity} in period {period}: activities{users}")
}

fn tell_nonrenewable(
    alloc: Global,
    project: &Project,
    schedule: &Schedule,
    number: u32,
) -> Result<String, AllocError> {
    let resource = (number as usize).saturating_sub(1);
    let mut total = 0u64;
    for place in 0..project.activities().len() {
        if let Some(mode) = mode_at(project, schedule, place) {
            let amount = mode.nonrenewable.as_slice().get(resource).copied();
            total = total.saturating_add(u64::from(amount.unwrap_or(0)));
        }
    }
    let stock = project.nonrenewable().get(resource).copied().unwrap_or(0);
    format!(in alloc; "needs {total} of {stock}")
}

fn tell_mode(
    alloc: Global,
    project: &Project,
    schedule: &Schedule,
    number: u32,
) -> Result<String, AllocError> {
    let place = (number as usize).saturating_sub(1);
    let given = schedule.modes.as_slice().get(place).copied().unwrap_or(0);
    let count = match project.activities().get(place) {
        Some(activity) => activity.modes.as_slice().len(),
        None => 0,
    };
    let more = if given == u32::MAX { " or above" } else { "" };
    format!(in alloc; "activity {number} is in mode {given}{more}, and has modes 1 to {count}")
}

/// By how much `schedule` breaks `breach`.
pub fn why_breach(
    alloc: Global,
    project: &Project,
    schedule: &Schedule,
    breach: Breach,
) -> Result<String, AllocError> {
    match breach {
        Breach::Shape => tell_shape(alloc, project, schedule),
        Breach::Mode(number) => tell_mode(alloc, project, schedule, number),
        Breach::Precedence(before, after) => {
            tell_precedence(alloc, project, schedule, before, after)
        }
        Breach::Renewable(number, period) => {
            tell_renewable(alloc, project, schedule, number, period)
        }
        Breach::Nonrenewable(number) => tell_nonrenewable(alloc, project, schedule, number),
    }
}

/// Reads a project's file and a schedule's text, and calls `why_breach`.
pub fn why_breach_of(alloc: Global, file: &[u8], text: &[u8], breach: Breach) -> Option<String> {
    let project = psplib_mm::read(alloc, file).ok()?;
    let schedule = read_schedule(alloc, text).ok()??;
    why_breach(alloc, &project, &schedule, breach).ok()
}

fn put_breach(
    alloc: Global,
    lines: &mut String,
    project: &Project,
    schedule: &Schedule,
    breach: Breach,
) -> Result<(), AllocError> {
    let amount = why_breach(alloc, project, schedule, breach)?;
    write!(lines, "farm: breach {breach}: {amount}\n")
}

/// A line of each breach of the schedule in `text`, the first breach at the front. An error is want
/// of memory, or a text without a project or a schedule.
pub fn all_breaches(alloc: Global, file: &[u8], text: &[u8]) -> Result<String, AllocError> {
    let mut lines = String::new(alloc);
    let Ok(project) = psplib_mm::read(alloc, file) else {
        return Err(AllocError);
    };
    let Some(schedule) = read_schedule(alloc, text)? else {
        return Err(AllocError);
    };
    let breaches = breaches_of(alloc, &project, &schedule)?;
    for breach in breaches.iter() {
        put_breach(alloc, &mut lines, &project, &schedule, *breach)?;
    }
    Ok(lines)
}
