//! Whether a text has a feasible schedule of a file's project.
ghost use Rattle.std.specs.Prelude.{IfOk, IfErr};
ghost use Rattle.solve_cli.specs.Verified.{IsVerified, IsAtFault};

use crate::fault::VerifyFault;
use mrcpsp::{Project, Schedule, check};
use psplib_mm::read;
use schedule_files::{MOST_BYTES, read_schedule};
use std::alloc::Global;

/// A `Verified` is a project, a feasible schedule of it, and its makespan in periods.
#[derive(Debug, Drop)]
pub struct Verified {
    pub project: Project,
    pub schedule: Schedule,
    pub makespan: u32,
}

/// The project of `file`, and the feasible schedule that `text` has. Fails with the first fault, in
/// the order of file, text and schedule.
pub fn verify(alloc: Global, file: &[u8], text: &[u8]) -> Result<Verified, VerifyFault>
    ensures feasible { IfOk result (λ verified. IsVerified file.now text.now verified) }
    ensures fault { IfErr result (λ fault. IsAtFault file.now text.now fault) }
{
    let project = match read(alloc, file) {
        Ok(project) => project,
        Err(fault) => return Err(VerifyFault::File(fault)),
    };
    let Ok(found) = read_schedule(alloc, text) else {
        return Err(VerifyFault::NoMemory);
    };
    let Some(schedule) = found else {
        return Err(if text.len() > MOST_BYTES {
            VerifyFault::TooLong
        } else {
            VerifyFault::Words
        });
    };
    match check(&project, &schedule) {
        Ok(makespan) => Ok(Verified {
            project,
            schedule,
            makespan,
        }),
        Err(breach) => Err(VerifyFault::Breach(breach)),
    }
}
