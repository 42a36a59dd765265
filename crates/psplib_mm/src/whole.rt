ghost use Rattle.std.specs.Prelude.{◌≡◌, ◌+◌, ◌≤◌, length, take, drop};
ghost use Rattle.mrcpsp.specs.Project.{ProjectData};
ghost use Rattle.psplib_mm.specs.Contents.{contents, activities_of, numbers_of, limited};
ghost use Rattle.psplib_mm.specs.Gives.{Gives};

use crate::cell::Cell;
use crate::checks::{all_follow, groups_are_numbered, jobs_are_numbered, suffice};
use crate::fault::MmFault;
use crate::groups::{Groups, Resources};
use crate::head::Sizes;
use crate::jobs::Jobs;
use crate::limits::{broken_number, broken_size};
use crate::parts::{activities, numbers};
use mrcpsp::{Project, Sequence};
use std::alloc::Global;

/// Returns the project, or the first fault of what the sections count and number.
pub fn project(
    alloc: Global,
    sizes: Sizes,
    precedence: &[Cell],
    requests: &[Cell],
    availabilities: &[Cell],
) -> Result<Project, MmFault>
    ensures { Gives (λ p. p) result
        (contents sizes.jobs sizes.renewable sizes.nonrenewable precedence.now requests.now availabilities.now) }
{
    let resources = Resources {
        renewable: sizes.renewable,
        nonrenewable: sizes.nonrenewable,
    };
    let first = sizes.renewable as usize;
    let second = sizes.nonrenewable as usize;
    let jobs = Jobs::of(precedence, sizes.jobs)?;
    let groups = Groups::of(&jobs, requests, resources)?;
    suffice(availabilities, first + second)?;
    jobs_are_numbered(&jobs)?;
    groups_are_numbered(&groups)?;
    all_follow(&jobs, sizes.jobs)?;
    if let Some(name) = broken_number(&jobs, resources) {
        return Err(MmFault::Limit(name));
    }
    let activities = activities(alloc, &jobs, &groups)?;
    let (renewable, others) = availabilities.split_at(first);
    let renewable = numbers(alloc, renewable)?;
    let nonrenewable = numbers(alloc, &others[..second])?;
    if let Some(name) = broken_size(&activities, renewable.as_slice(), nonrenewable.as_slice()) {
        return Err(MmFault::Limit(name));
    }
    match Project::new(Sequence::from(activities), renewable, nonrenewable) {
        Some(project) => Ok(project.share(alloc)?),
        None => unreachable!(),
    }
}
