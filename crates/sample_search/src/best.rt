ghost use Rattle.std.specs.Prelude.{◌≡◌, false, length, IfSome, IsSome, IsTrue, Some, option_map};
ghost use Rattle.std.specs.Option.{option_copied};
ghost use Rattle.mrcpsp.specs.Project.{ProjectData, size};
ghost use Rattle.mrcpsp.specs.Schedule.{makespan as greatest_finish};
ghost use Rattle.mrcpsp.specs.Placed.{schedule_of};
ghost use Rattle.strategy.specs.Outcome.{better};
ghost use Rattle.serial_pass.specs.Pass.{HasRoom};
ghost use Rattle.sample_search.specs.Best.{best_in, is_taken, IsKept};

use mrcpsp::Schedule;
use serial_pass::PartialSchedule;
use std::mem;

#[derive(Drop)]
pub(crate) enum BestPass {
    /// No pass has been a schedule yet. This one is only memory.
    Unknown(Schedule),
    /// The shortest schedule, and its makespan.
    Known(Schedule, u32),
    /// The schedule was handed out.
    Taken,
}

impl BestPass {
    pub(crate) fn schedule(&self) -> Option<&Schedule>
        ensures { option_copied result ≡ best_in self.now }
    {
        match self {
            BestPass::Known(schedule, _) => Some(schedule),
            _ => None,
        }
    }

    pub(crate) fn makespan(&self) -> Option<u32>
        ensures { (p : ProjectData) → IsKept p self.now → result ≡ option_map (greatest_finish p) (best_in self.now) }
    {
        match self {
            BestPass::Known(_, makespan) => Some(*makespan),
            _ => None,
        }
    }

    pub(crate) fn take(&mut self) -> Option<Schedule>
        ensures best { result ≡ best_in self.old }
        ensures taken { self.new ≡ BestPass.Taken }
    {
        match mem::replace(self, BestPass::Taken) {
            BestPass::Known(schedule, _) => Some(schedule),
            _ => None,
        }
    }
}

/// Writes the schedule of a pass that is not void into the memory of `room`.
fn rewritten(room: Schedule, pass: &PartialSchedule) -> Schedule
    requires room { HasRoom (size pass.now.project) room }
    requires some { IsSome pass.now.placed }
    ensures exact { Some result ≡ option_map (schedule_of (size pass.now.project)) pass.now.placed }
    ensures room { HasRoom (size pass.now.project) result }
{
    match pass.schedule(room) {
        Some(schedule) => schedule,
        None => unreachable!(),
    }
}

/// The pass's schedule if it is shorter than the best one, or there is none yet. Takes no memory.
pub(crate) fn better(best: BestPass, pass: &PartialSchedule) -> BestPass
    requires kept { IsKept pass.now.project best }
    requires whole { IfSome pass.now.placed (λ placed. length placed ≡ size pass.now.project) }
    ensures kept { IsKept pass.now.project result }
    ensures taken { is_taken result ≡ is_taken best }
    ensures best { is_taken best ≡ false
        → best_in result ≡ better pass.now.project (best_in best)
        (option_map (schedule_of (size pass.now.project)) pass.now.placed) }
{
    let Some(makespan) = pass.makespan() else {
        return best;
    };
    match best {
        BestPass::Unknown(room) => BestPass::Known(rewritten(room, pass), makespan),
        BestPass::Known(schedule, shortest) => {
            if makespan < shortest {
                BestPass::Known(rewritten(schedule, pass), makespan)
            } else {
                BestPass::Known(schedule, shortest)
            }
        }
        BestPass::Taken => BestPass::Taken,
    }
}
