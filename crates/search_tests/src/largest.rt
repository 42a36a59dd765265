use mrcpsp::{Activity, Mode, Project, Sequence};
use std::alloc::{AllocError, Global};

fn copies(alloc: Global, number: u32, count: u32) -> Result<Sequence<u32>, AllocError> {
    let mut numbers = Vec::new(alloc);
    for _ in 0..count {
        numbers.push(number)?;
    }
    Ok(Sequence::from(numbers))
}

fn modes(alloc: Global, count: u32) -> Result<Sequence<Mode>, AllocError> {
    let mut modes = Vec::new(alloc);
    for _ in 0..count {
        let renewable = copies(alloc, 1, 8)?;
        let nonrenewable = copies(alloc, 1, 8)?;
        modes.push(Mode {
            duration: 10,
            renewable,
            nonrenewable,
        })?;
    }
    Ok(Sequence::from(modes))
}

/// A project at the limits: 202 activities in a chain, and eight resources of each sort. The last
/// activity has ten modes, each other one has one.
pub(crate) fn largest(alloc: Global) -> Result<Option<Project>, AllocError> {
    let mut activities = Vec::new(alloc);
    for number in 1..=202u32 {
        let is_last = number == 202;
        let modes = modes(alloc, if is_last { 10 } else { 1 })?;
        let successors = copies(alloc, number.saturating_add(1), u32::from(!is_last))?;
        activities.push(Activity { modes, successors })?;
    }
    let renewable = copies(alloc, 1, 8)?;
    let nonrenewable = copies(alloc, 202, 8)?;
    Ok(Project::new(Sequence::from(activities), renewable, nonrenewable))
}
