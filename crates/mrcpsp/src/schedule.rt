ghost use Rattle.std.specs.Prelude.{◌≡◌, ◌<◌, length, get_or, replicate, IfOk};
ghost use Rattle.mrcpsp.specs.Schedule.{start_of};

use crate::Sequence;
use std::alloc::{AllocError, Global};
use std::marker::Model;

/// A `Schedule` is a mode and a start for each activity of a project, in the order of their
/// numbers.
#[derive(Debug, Drop)]
pub struct Schedule {
    /// Mode numbers, counted from 1.
    pub modes: Sequence<u32>,
    /// Start periods, counted from 0.
    pub starts: Sequence<u32>,
}

impl Model for Schedule {
    ghost use Rattle.mrcpsp.specs.Schedule.{ScheduleData};

    ghost Value = { ScheduleData };

    ghost view = { λ s. record { modes = s.modes; starts = s.starts } };
}

impl Schedule {
    /// A schedule of `size` activities without modes, which start at 0. It is memory that a search
    /// writes over.
    pub fn blank(alloc: Global, size: usize) -> Result<Schedule, AllocError>
        ensures modes { IfOk result (λ schedule. schedule.modes ≡ replicate size 0) }
        ensures starts { IfOk result (λ schedule. schedule.starts ≡ replicate size 0) }
    {
        let modes = vec![in alloc; 0u32; size]?;
        let starts = vec![in alloc; 0u32; size]?;
        Ok(Schedule {
            modes: Sequence::from(modes),
            starts: Sequence::from(starts),
        })
    }

    /// The number of the mode, counted from 1. `activity` is a place from 0.
    pub fn mode(&self, activity: usize) -> u32
        requires { activity < length self.now.modes }
        ensures { result ≡ get_or self.now.modes activity 0 }
    {
        self.modes.as_slice()[activity]
    }

    /// The start period of `activity`, a place from 0.
    #[tactic(auto, unfolding(crate::specs::Schedule::start_of))]
    pub fn start(&self, activity: usize) -> u32
        requires { activity < length self.now.starts }
        ensures { result ≡ start_of self.now activity }
    {
        self.starts.as_slice()[activity]
    }
}
