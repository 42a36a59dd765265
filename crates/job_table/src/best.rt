//! The best schedule of a job, in memory that is taken once.
ghost use Rattle.std.specs.Prelude.{◌≡◌, IfOk, IfSome, false, length, if◌then◌else◌, Some, None};
ghost use Rattle.std.specs.Option.{option_copied};
ghost use Rattle.mrcpsp.specs.Schedule.{ScheduleData};
ghost use Rattle.job_table.specs.Job.{HasSize, best_in};

use mrcpsp::{Schedule, Sequence};
use std::alloc::{AllocError, Global};
use std::mem;

#[derive(Drop)]
pub(crate) struct Best {
    alloc: Global,
    schedule: Schedule,
    found: bool,
}

fn no_schedule(alloc: Global) -> Schedule {
    Schedule {
        modes: Sequence::from(Vec::new(alloc)),
        starts: Sequence::from(Vec::new(alloc)),
    }
}

fn overwritten(room: Sequence<u32>, with: &[u32]) -> Sequence<u32>
    requires { length room ≡ length with.now }
    ensures { result ≡ with.now }
{
    let mut numbers = room.into_vec();
    numbers.copy_from_slice(with);
    Sequence::from(numbers)
}

fn rewritten(room: Schedule, with: &Schedule) -> Schedule
    requires modes { length room.modes ≡ length with.now.modes }
    requires starts { length room.starts ≡ length with.now.starts }
    ensures { result ≡ with.now }
{
    let Schedule { modes, starts } = room;
    Schedule {
        modes: overwritten(modes, with.modes.as_slice()),
        starts: overwritten(starts, with.starts.as_slice()),
    }
}

impl Best {
    pub(crate) fn new(alloc: Global, size: usize) -> Result<Best, AllocError>
        ensures none { IfOk result (λ best. best.found ≡ false) }
        ensures sized { IfOk result (λ best. HasSize size best.schedule) }
    {
        let schedule = Schedule::blank(alloc, size)?;
        Ok(Best {
            alloc,
            schedule,
            found: false,
        })
    }

    pub(crate) fn schedule(&self) -> Option<&Schedule>
        ensures { option_copied result ≡ best_in self.now }
    {
        if self.found {
            Some(&self.schedule)
        } else {
            None
        }
    }

    /// Takes no memory: `shown` is copied over the schedule that is there.
    pub(crate) fn copy(&mut self, shown: Option<&Schedule>)
        requires shown { IfSome (option_copied shown) (λ s. HasSize (length self.old.schedule.modes) s) }
        requires starts { length self.old.schedule.starts ≡ length self.old.schedule.modes }
        ensures best { best_in self.new ≡ option_copied shown.entry }
        ensures sized { HasSize (length self.old.schedule.modes) self.new.schedule }
    {
        match shown {
            Some(schedule) => {
                let room = mem::replace(&mut self.schedule, no_schedule(self.alloc));
                self.schedule = rewritten(room, schedule);
                self.found = true;
            }
            None => self.found = false,
        }
    }
}
