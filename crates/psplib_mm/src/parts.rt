ghost use Rattle.std.specs.Prelude.{◌≡◌, map, IfOk};
ghost use Rattle.psplib_mm.specs.Contents.{numbers_of, mode_of, activities_of};

use crate::cell::Cell;
use crate::groups::{Groups, ModeLine, Modes};
use crate::jobs::Jobs;
use mrcpsp::{Activity, Mode, Sequence};
use std::alloc::{AllocError, Global};

pub fn numbers(alloc: Global, cells: &[Cell]) -> Result<Sequence<u32>, AllocError>
    ensures { IfOk result (λ numbers. numbers ≡ numbers_of cells.now) }
{
    let numbers: Vec<u32> = cells.iter().map(|cell| cell.number).collect(alloc)?;
    Ok(Sequence::from(numbers))
}

fn mode(alloc: Global, line: &ModeLine<'_>) -> Result<Mode, AllocError>
    ensures { IfOk result (λ mode. mode ≡ mode_of line.now) }
{
    Ok(Mode {
        duration: line.duration.number,
        renewable: numbers(alloc, line.renewable)?,
        nonrenewable: numbers(alloc, line.nonrenewable)?,
    })
}

fn modes(alloc: Global, lines: &Modes<'_>) -> Result<Sequence<Mode>, AllocError>
    ensures { IfOk result (λ modes. modes ≡ map mode_of lines.now) }
{
    let mut left = lines.again();
    let mut modes = Vec::new(alloc);
    while let Some(line) = left.next_mode() {
        modes.push(mode(alloc, &line)?)?;
    }
    Ok(Sequence::from(modes))
}

/// The modes are from `groups`, the successors from `jobs`.
pub fn activities(
    alloc: Global,
    jobs: &Jobs<'_>,
    groups: &Groups<'_>,
) -> Result<Vec<Activity>, AllocError>
    ensures { IfOk result (λ activities. activities.items ≡ activities_of jobs.now groups.now) }
{
    let mut jobs_left = jobs.again();
    let mut groups_left = groups.again();
    let mut activities = Vec::new(alloc);
    while let Some(job) = jobs_left.next_job() {
        let Some(group) = groups_left.next_group() else {
            return Ok(activities);
        };
        activities.push(Activity {
            modes: modes(alloc, &group.modes)?,
            successors: numbers(alloc, job.successors)?,
        })?;
    }
    Ok(activities)
}
