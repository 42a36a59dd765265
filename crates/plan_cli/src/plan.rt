//! The project of a file, and the schedule that a text has.
ghost use Rattle.std.specs.Prelude.{IfOk, IfErr};
ghost use Rattle.plan_cli.specs.Plan.{IsPlanned, IsBroken, IsPlan, IsUnplanned};

use mrcpsp::{Breach, Fitting, Project, Schedule, check};
use psplib_mm::MmFault;
use schedule_files::{MOST_BYTES, read_schedule};
use std::alloc::Global;
use thiserror::Error;

/// A `Plan` is a schedule with a mode and a start for each activity of a project. If it is not
/// feasible, `breach` is what it breaks first.
#[derive(Debug, Drop)]
pub struct Plan {
    pub schedule: Schedule,
    pub breach: Option<Breach>,
}

/// A `PlanFault` is why a file and a text have no plan. Its text is as in `breach Mode(3)`.
#[derive(Clone, Copy, Debug, PartialEq, Eq, Error)]
pub enum PlanFault {
    #[error("no file {0}")]
    File(MmFault),
    /// The text has no schedule in any of the forms of `schedule_files`.
    #[error("no schedule Words")]
    Words,
    /// The text has more than 1,048,576 bytes.
    #[error("no schedule TooLong")]
    TooLong,
    /// The schedule breaks this first.
    #[error("breach {0}")]
    Breach(Breach),
    #[error("no memory")]
    NoMemory,
}

fn planned(project: &Project, schedule: Schedule) -> Result<Plan, PlanFault>
    ensures plan { IfOk result (λ plan. IsPlanned project.now schedule plan) }
    ensures fault { IfErr result (λ fault. IsBroken project.now schedule fault) }
{
    match check(project, &schedule) {
        Ok(_) => Ok(Plan {
            schedule,
            breach: None,
        }),
        Err(breach) => {
            if Fitting::of(project, &schedule).is_some() {
                Ok(Plan {
                    schedule,
                    breach: Some(breach),
                })
            } else {
                Err(PlanFault::Breach(breach))
            }
        }
    }
}

/// The schedule that `text` has. Fails if there is none, or if it has not one mode and one start of
/// each activity of `project`.
pub fn read_plan(alloc: Global, project: &Project, text: &[u8]) -> Result<Plan, PlanFault>
    ensures plan { IfOk result (λ plan. IsPlan project.now text.now plan) }
    ensures fault { IfErr result (λ fault. IsUnplanned project.now text.now fault) }
{
    let Ok(found) = read_schedule(alloc, text) else {
        return Err(PlanFault::NoMemory);
    };
    let Some(schedule) = found else {
        return Err(if text.len() > MOST_BYTES {
            PlanFault::TooLong
        } else {
            PlanFault::Words
        });
    };
    planned(project, schedule)
}
