use psplib_mm::MmFault;
use schedule_clauses::CertificateFault;
use std::alloc::AllocError;
use thiserror::Error;

/// A `CertifyFault` is why nothing is certified. Its text is as in `no proof Unproved(17)`.
#[derive(Clone, Copy, Debug, PartialEq, Eq, Error)]
pub enum CertifyFault {
    #[error("no file {0}")]
    File(MmFault),
    /// The text has no schedule in any of the forms of `schedule_files`.
    #[error("no schedule Words")]
    Words,
    /// The text has more than 1,048,576 bytes.
    #[error("no schedule TooLong")]
    TooLong,
    /// The schedule is not feasible, or the proof is none.
    #[error("{0}")]
    Certificate(CertificateFault),
    #[error("no memory")]
    NoMemory,
}

impl From<AllocError> for CertifyFault {
    ghost use Rattle.std.specs.Prelude.{◌≡◌};
    ghost use Rattle.certify_cli.specs.declared.fault.CertifyFault.TheVariants.{NoMemory};

    ghost from_gives = { λ _ fault. fault ≡ NoMemory };

    fn from(_: AllocError) -> CertifyFault {
        CertifyFault::NoMemory
    }
}
