//! The tests of the numbers of jobs, modes and successors.
ghost use Rattle.std.specs.Prelude.{◌≡◌, ◌==◌, [], length};
ghost use Rattle.std.specs.List.{list_any};
ghost use Rattle.psplib_mm.specs.Contents.{each, in_place, job_in_place, mode_in_place, group_in_place, follow, job_follows, are_enough};
ghost use Rattle.psplib_mm.specs.Gives.{Gives};

use crate::cell::Cell;
use crate::fault::{MmFault, SectionName};
use crate::groups::{Groups, Modes};
use crate::jobs::Jobs;

pub fn suffice(cells: &[Cell], count: usize) -> Result<(), MmFault>
    ensures { Gives (λ _. tt) result (are_enough count cells.now) }
{
    if cells.len() < count {
        return Err(MmFault::Count(SectionName::ResourceAvailabilities));
    }
    Ok(())
}

fn number_is(cell: Cell, place: u64) -> Result<(), MmFault>
    ensures { Gives (λ _. tt) result (in_place place cell) }
{
    if u64::from(cell.number) != place {
        return Err(MmFault::Numbering(cell.line));
    }
    Ok(())
}

/// Job numbers count from 1 without a gap.
pub fn jobs_are_numbered(jobs: &Jobs<'_>) -> Result<(), MmFault>
    ensures { Gives (λ _. tt) result (each job_in_place 1 jobs.now) }
{
    let mut left = jobs.again();
    let mut place = 1;
    while let Some(job) = left.next_job() {
        number_is(job.job, place)?;
        place += 1;
    }
    Ok(())
}

fn modes_are_numbered(modes: &Modes<'_>) -> Result<(), MmFault>
    ensures { Gives (λ _. tt) result (each mode_in_place 1 modes.now) }
{
    let mut left = modes.again();
    let mut place = 1;
    while let Some(mode) = left.next_mode() {
        number_is(mode.mode, place)?;
        place += 1;
    }
    Ok(())
}

/// Job numbers and mode numbers count from 1 without a gap.
pub fn groups_are_numbered(groups: &Groups<'_>) -> Result<(), MmFault>
    ensures { Gives (λ _. tt) result (each group_in_place 1 groups.now) }
{
    let mut left = groups.again();
    let mut place = 1;
    while let Some(group) = left.next_group() {
        number_is(group.job, place)?;
        modes_are_numbered(&group.modes)?;
        place += 1;
    }
    Ok(())
}

fn is_named(cells: &[Cell], number: u32) -> bool
    ensures { result ≡ list_any (λ t. t.number == number) cells.now }
{
    cells.iter().any(|cell| cell.number == number)
}

fn successors_follow(successors: &[Cell], job: u64, jobs: u32) -> Result<(), MmFault>
    ensures { Gives (λ _. tt) result (follow jobs job [] successors.now) }
{
    for (i, successor) in successors.iter().enumerate() {
        let number = successor.number;
        if u64::from(number) <= job || jobs < number || is_named(&successors[..i], number) {
            return Err(MmFault::Successor(successor.line));
        }
    }
    Ok(())
}

/// Successors are above their job, at most `count`, and named once.
pub fn all_follow(jobs: &Jobs<'_>, count: u32) -> Result<(), MmFault>
    ensures { Gives (λ _. tt) result (each (job_follows count) 1 jobs.now) }
{
    let mut left = jobs.again();
    let mut place = 1;
    while let Some(job) = left.next_job() {
        successors_follow(job.successors, place, count)?;
        place += 1;
    }
    Ok(())
}
