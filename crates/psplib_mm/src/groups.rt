ghost use Rattle.std.specs.Prelude.{◌≡◌, ◌<◌, ◌^◌, length};
ghost use Rattle.std.specs.Option.{option_map};
ghost use Rattle.std.specs.Result.{result_ok};
ghost use Rattle.psplib_mm.specs.Contents.{mode_at, times, group_at, groups_of};
ghost use Rattle.psplib_mm.specs.Gives.{Gives};
ghost use Rattle.psplib_mm.specs.Scan.{Takes};

use crate::cell::Cell;
use crate::fault::{MmFault, SectionName};
use crate::jobs::Jobs;
use std::marker::Model;

/// The number of resources of each kind.
#[derive(Clone, Copy, Debug)]
pub struct Resources {
    pub renewable: u32,
    pub nonrenewable: u32,
}

/// A `ModeLine` is a mode of the section on requests.
#[derive(Debug, Drop)]
pub struct ModeLine<'a> {
    pub mode: Cell,
    /// In periods.
    pub duration: Cell,
    /// The request of each renewable resource.
    pub renewable: &'a [Cell],
    /// The consumption of each nonrenewable resource.
    pub nonrenewable: &'a [Cell],
}

impl<'a> Model for ModeLine<'a> {
    ghost use Rattle.psplib_mm.specs.Contents.{ModeLine as ModeRecord};

    ghost Value = { ModeRecord };

    ghost view = { λ m. record {
      mode = m.mode;
      duration = m.duration;
      renewable = m.renewable.now;
      nonrenewable = m.nonrenewable.now;
    } };
}

/// A `Modes` is a cursor over the modes of a job. Its words are known to be enough.
#[derive(Debug, Drop)]
pub struct Modes<'a> {
    cells: &'a [Cell],
    left: u32,
    resources: Resources,
}

impl<'a> Model for Modes<'a> {
    ghost use Rattle.std.specs.Prelude.{List, IsTrue, is_ok};
    ghost use Rattle.psplib_mm.specs.Contents.{ModeLine as ModeRecord, mode_at, times};
    ghost use Rattle.psplib_mm.specs.Scan.{records};

    ghost Value = { List ModeRecord };

    ghost view = { λ m. records (times (mode_at m.resources.renewable m.resources.nonrenewable) m.left m.cells.now) };

    ghost invariant = { λ m. IsTrue (is_ok
        (times (mode_at m.resources.renewable m.resources.nonrenewable) m.left m.cells.now)) };
}

impl<'a> Modes<'a> {
    pub fn again(&self) -> Modes<'a>
        ensures same { result ≡ self.now }
        ensures few { length result < 2 ^ 32 }
    {
        Modes {
            cells: self.cells,
            left: self.left,
            resources: self.resources,
        }
    }

    pub fn next_mode(&mut self) -> Option<ModeLine<'a>>
        ensures { Takes result self.old self.new }
    {
        if self.left == 0 {
            return None;
        }
        let (mode, rest) = mode_of(self.cells, self.resources)?;
        self.cells = rest;
        self.left -= 1;
        Some(mode)
    }
}

/// A `Group` is a job of the section on requests.
#[derive(Debug, Drop)]
pub struct Group<'a> {
    pub job: Cell,
    pub modes: Modes<'a>,
}

impl<'a> Model for Group<'a> {
    ghost use Rattle.psplib_mm.specs.Contents.{Group as GroupRecord};

    ghost Value = { GroupRecord };

    ghost view = { λ g. record { job = g.job; modes = g.modes } };
}

/// A `Groups` is a cursor over the jobs of the section on requests. Its words are known to be
/// enough.
#[derive(Debug, Drop)]
pub struct Groups<'a> {
    jobs: Jobs<'a>,
    cells: &'a [Cell],
    resources: Resources,
}

impl<'a> Model for Groups<'a> {
    ghost use Rattle.std.specs.Prelude.{List, IsTrue, is_ok};
    ghost use Rattle.psplib_mm.specs.Contents.{Group as GroupRecord, groups_at};
    ghost use Rattle.psplib_mm.specs.Scan.{records};

    ghost Value = { List GroupRecord };

    ghost view = { λ g. records (groups_at g.resources.renewable g.resources.nonrenewable g.jobs g.cells.now) };

    ghost invariant = { λ g. IsTrue (is_ok
        (groups_at g.resources.renewable g.resources.nonrenewable g.jobs g.cells.now)) };
}

impl<'a> Groups<'a> {
    /// There is a group for each job, and nothing more.
    pub fn of(
        jobs: &Jobs<'a>,
        cells: &'a [Cell],
        resources: Resources,
    ) -> Result<Groups<'a>, MmFault>
        ensures { Gives (λ groups. groups) result
            (groups_of resources.renewable resources.nonrenewable jobs.now cells.now) }
    {
        let mut jobs_left = jobs.again();
        let mut rest = cells;
        while let Some(job) = jobs_left.next_job() {
            let Some((_, after)) = group_of(rest, job.modes.number, resources) else {
                return Err(MmFault::Count(SectionName::RequestsDurations));
            };
            rest = after;
        }
        if !rest.is_empty() {
            return Err(MmFault::Count(SectionName::RequestsDurations));
        }
        Ok(Groups {
            jobs: jobs.again(),
            cells,
            resources,
        })
    }

    pub fn again(&self) -> Groups<'a>
        ensures same { result ≡ self.now }
        ensures few { length result < 2 ^ 32 }
    {
        Groups {
            jobs: self.jobs.again(),
            cells: self.cells,
            resources: self.resources,
        }
    }

    pub fn next_group(&mut self) -> Option<Group<'a>>
        ensures { Takes result self.old self.new }
    {
        let mut jobs = self.jobs.again();
        let job = jobs.next_job()?;
        let (group, rest) = group_of(self.cells, job.modes.number, self.resources)?;
        self.jobs = jobs;
        self.cells = rest;
        Some(group)
    }
}

fn group_of(cells: &[Cell], modes: u32, resources: Resources) -> Option<(Group<'_>, &[Cell])>
    ensures { option_map (λ x. (x.0, x.1.now)) result
        ≡ result_ok (group_at resources.renewable resources.nonrenewable modes cells.now) }
{
    let [job, others @ ..] = cells else {
        return None;
    };
    let (modes, rest) = modes_of(others, modes, resources)?;
    Some((Group { job: *job, modes }, rest))
}

fn modes_of(cells: &[Cell], count: u32, resources: Resources) -> Option<(Modes<'_>, &[Cell])>
    ensures { option_map (λ x. (x.0, x.1.now)) result
        ≡ result_ok (times (mode_at resources.renewable resources.nonrenewable) count cells.now) }
{
    let mut rest = cells;
    for _ in 0..count {
        let (_, after) = mode_of(rest, resources)?;
        rest = after;
    }
    let modes = Modes {
        cells,
        left: count,
        resources,
    };
    Some((modes, rest))
}

fn mode_of(cells: &[Cell], resources: Resources) -> Option<(ModeLine<'_>, &[Cell])>
    ensures { option_map (λ x. (x.0, x.1.now)) result
        ≡ result_ok (mode_at resources.renewable resources.nonrenewable cells.now) }
{
    let [mode, duration, others @ ..] = cells else {
        return None;
    };
    let first = resources.renewable as usize;
    let second = resources.nonrenewable as usize;
    if others.len() < first + second {
        return None;
    }
    let (renewable, others) = others.split_at(first);
    let (nonrenewable, rest) = others.split_at(second);
    Some((
        ModeLine {
            mode: *mode,
            duration: *duration,
            renewable,
            nonrenewable,
        },
        rest,
    ))
}
