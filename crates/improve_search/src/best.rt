//! The best schedule that was checked.
ghost use Rattle.std.specs.Prelude.{◌≡◌, IfOk, None};
ghost use Rattle.std.specs.Option.{option_copied};
ghost use Rattle.improve_search.specs.Best.{best_in, length_in, IsKept};
ghost use Rattle.improve_search.specs.LocalSearch.{IsNoLonger};

use crate::annealing::Annealing;
use crate::rows::copy;
use mrcpsp::{Project, Schedule, Sequence, check};
use std::alloc::{AllocError, Global};

/// The best schedule that was checked, and memory to write another one.
#[derive(Drop)]
pub(crate) enum BestChecked {
    /// There is none yet. Both are only memory.
    Unknown(Schedule, Schedule),
    /// The schedule, its makespan, and what is only memory.
    Known(Schedule, u32, Schedule),
}

fn written(room: Schedule, annealing: &Annealing) -> Schedule {
    let Schedule { modes, starts } = room;
    let mut modes = modes.into_vec();
    let mut starts = starts.into_vec();
    let mut activity = 0u32;
    for mode in modes.iter_mut() {
        *mode = annealing.mode_number(activity);
        activity = activity.wrapping_add(1);
    }
    copy(&mut starts, &annealing.current().starts);
    Schedule {
        modes: Sequence::from(modes),
        starts: Sequence::from(starts),
    }
}

impl BestChecked {
    pub(crate) fn none(alloc: Global, size: usize) -> Result<BestChecked, AllocError>
        ensures { IfOk result (λ best. best_in best ≡ None × length_in best ≡ None) }
    {
        let room = Schedule::blank(alloc, size)?;
        Ok(BestChecked::Unknown(room, Schedule::blank(alloc, size)?))
    }

    pub(crate) fn empty(alloc: Global) -> BestChecked
        ensures best { best_in result ≡ None }
        ensures length { length_in result ≡ None }
    {
        let room = Schedule {
            modes: Sequence::from(Vec::new(alloc)),
            starts: Sequence::from(Vec::new(alloc)),
        };
        let other = Schedule {
            modes: Sequence::from(Vec::new(alloc)),
            starts: Sequence::from(Vec::new(alloc)),
        };
        BestChecked::Unknown(room, other)
    }

    pub(crate) fn schedule(&self) -> Option<&Schedule>
        ensures { option_copied result ≡ best_in self.now }
    {
        match self {
            BestChecked::Unknown(_, _) => None,
            BestChecked::Known(schedule, _, _) => Some(schedule),
        }
    }

    pub(crate) fn makespan(&self) -> Option<u32>
        ensures { result ≡ length_in self.now }
    {
        match self {
            BestChecked::Unknown(_, _) => None,
            BestChecked::Known(_, makespan, _) => Some(*makespan),
        }
    }

    pub(crate) fn into_schedule(self) -> Option<Schedule>
        ensures { result ≡ best_in self }
    {
        match self {
            BestChecked::Unknown(_, _) => None,
            BestChecked::Known(schedule, _, _) => Some(schedule),
        }
    }
}

/// The walk's current schedule if it is feasible and shorter than `best`, and else `best`.
pub(crate) fn better(best: BestChecked, project: &Project, annealing: &Annealing) -> BestChecked
    requires { IsKept project.now best }
    ensures kept { IsKept project.now result }
    ensures no_longer { IsNoLonger project.now (best_in best) (best_in result) }
{
    match best {
        BestChecked::Unknown(room, other) => {
            let schedule = written(room, annealing);
            match check(project, &schedule) {
                Ok(makespan) => BestChecked::Known(schedule, makespan, other),
                Err(_) => BestChecked::Unknown(schedule, other),
            }
        }
        BestChecked::Known(best, shortest, room) => {
            let schedule = written(room, annealing);
            match check(project, &schedule) {
                Ok(makespan) if makespan < shortest => BestChecked::Known(schedule, makespan, best),
                _ => BestChecked::Known(best, shortest, schedule),
            }
        }
    }
}
