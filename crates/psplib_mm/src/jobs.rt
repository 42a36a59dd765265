ghost use Rattle.std.specs.Prelude.{◌≡◌, ◌<◌, ◌^◌, length};
ghost use Rattle.std.specs.Option.{option_map};
ghost use Rattle.std.specs.Result.{result_ok};
ghost use Rattle.psplib_mm.specs.Contents.{job_at, jobs_of};
ghost use Rattle.psplib_mm.specs.Gives.{Gives};
ghost use Rattle.psplib_mm.specs.Scan.{Takes};

use crate::cell::Cell;
use crate::fault::{MmFault, SectionName};
use std::marker::Model;

/// A `Job` is a job of the section on precedence.
#[derive(Debug, Drop)]
pub struct Job<'a> {
    pub job: Cell,
    /// The number of its modes.
    pub modes: Cell,
    pub successors: &'a [Cell],
}

impl<'a> Model for Job<'a> {
    ghost use Rattle.psplib_mm.specs.Contents.{Job as JobRecord};

    ghost Value = { JobRecord };

    ghost view = { λ j. record { job = j.job; modes = j.modes; successors = j.successors.now } };
}

/// A `Jobs` is a cursor over the jobs of the section on precedence. Its words are known to be
/// enough.
#[derive(Debug, Drop)]
pub struct Jobs<'a> {
    /// The words from the next job on.
    cells: &'a [Cell],
    left: u32,
}

impl<'a> Model for Jobs<'a> {
    ghost use Rattle.std.specs.Prelude.{List, IsTrue, is_ok};
    ghost use Rattle.psplib_mm.specs.Contents.{Job as JobRecord, job_at, times};
    ghost use Rattle.psplib_mm.specs.Scan.{records};

    ghost Value = { List JobRecord };

    ghost view = { λ j. records (times job_at j.left j.cells.now) };

    ghost invariant = { λ j. IsTrue (is_ok (times job_at j.left j.cells.now)) };
}

impl<'a> Jobs<'a> {
    /// There are `count` jobs, and nothing more.
    pub fn of(cells: &'a [Cell], count: u32) -> Result<Jobs<'a>, MmFault>
        ensures { Gives (λ jobs. jobs) result (jobs_of count cells.now) }
    {
        let mut rest = cells;
        for _ in 0..count {
            let Some((_, after)) = job_of(rest) else {
                return Err(MmFault::Count(SectionName::PrecedenceRelations));
            };
            rest = after;
        }
        if !rest.is_empty() {
            return Err(MmFault::Count(SectionName::PrecedenceRelations));
        }
        Ok(Jobs { cells, left: count })
    }

    pub fn again(&self) -> Jobs<'a>
        ensures same { result ≡ self.now }
        ensures few { length result < 2 ^ 32 }
    {
        Jobs {
            cells: self.cells,
            left: self.left,
        }
    }

    pub fn len(&self) -> u32
        ensures { result ≡ length self.now }
    {
        self.left
    }

    pub fn next_job(&mut self) -> Option<Job<'a>>
        ensures { Takes result self.old self.new }
    {
        if self.left == 0 {
            return None;
        }
        let (job, rest) = job_of(self.cells)?;
        self.cells = rest;
        self.left -= 1;
        Some(job)
    }
}

fn job_of(cells: &[Cell]) -> Option<(Job<'_>, &[Cell])>
    ensures { option_map (λ x. (x.0, x.1.now)) result ≡ result_ok (job_at cells.now) }
{
    let [job, modes, count, others @ ..] = cells else {
        return None;
    };
    let count = count.number as usize;
    if others.len() < count {
        return None;
    }
    let (successors, rest) = others.split_at(count);
    Some((
        Job {
            job: *job,
            modes: *modes,
            successors,
        },
        rest,
    ))
}
