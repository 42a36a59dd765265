//! The least makespan of a small project, by all its schedules.
use mrcpsp::{Project, Schedule, Sequence, check};
use std::alloc::{AllocError, Global};
use std::process::Abort;

/// The schedule with the number `code`: of each activity in turn a mode up to 2, and a start up to
/// `last`.
fn schedule_of(
    alloc: Global,
    project: &Project,
    last: u32,
    code: u32,
) -> Result<Schedule, AllocError> {
    let mut rest = code;
    let mut modes = Vec::new(alloc);
    let mut starts = Vec::new(alloc);
    for _ in 0..project.size() {
        modes.push(rest % 2 + 1)?;
        rest /= 2;
        starts.push(rest.checked_rem(last.saturating_add(1)).unwrap_or(0))?;
        rest = rest.checked_div(last.saturating_add(1)).unwrap_or(0);
    }
    Ok(Schedule {
        modes: Sequence::from(modes),
        starts: Sequence::from(starts),
    })
}

/// The least makespan of all schedules of three activities of up to two modes that start by the
/// horizon; `None` if no schedule is feasible.
pub(crate) fn least_makespan(rt: &impl Abort, alloc: Global, project: &Project) -> Option<u32> {
    let last = project.horizon().min(6);
    let choices = last.saturating_add(1).saturating_mul(2);
    let all = choices.saturating_mul(choices).saturating_mul(choices);
    let mut least = None;
    for code in 0..all {
        let schedule = schedule_of(alloc, project, last, code);
        let schedule = schedule.expect(rt, "no memory for a schedule");
        if let Ok(makespan) = check(project, &schedule) {
            least = match least {
                Some(before) if before <= makespan => Some(before),
                _ => Some(makespan),
            };
        }
    }
    least
}
