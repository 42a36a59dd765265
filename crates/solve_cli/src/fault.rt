use mrcpsp::Breach;
use psplib_mm::MmFault;
use std::alloc::AllocError;
use thiserror::Error;

/// A `VerifyFault` is why a text has no feasible schedule. Its text is as in `breach Mode(3)`.
#[derive(Clone, Copy, Debug, PartialEq, Eq, Error)]
pub enum VerifyFault {
    #[error("no file {0}")]
    File(MmFault),
    /// The text has no schedule in any of the forms of `schedule_files`.
    #[error("no schedule Words")]
    Words,
    /// The text has more than 1,048,576 bytes.
    #[error("no schedule TooLong")]
    TooLong,
    /// The schedule breaks this first.
    #[error("breach {0}")]
    Breach(Breach),
    #[error("no memory")]
    NoMemory,
}

impl From<AllocError> for VerifyFault {
    ghost use Rattle.std.specs.Prelude.{◌≡◌};
    ghost use Rattle.solve_cli.specs.declared.fault.VerifyFault.TheVariants.{NoMemory};

    ghost from_gives = { λ _ fault. fault ≡ NoMemory };

    fn from(_: AllocError) -> VerifyFault {
        VerifyFault::NoMemory
    }
}
