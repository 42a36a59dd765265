use psplib_mm::MmFault;
use thiserror::Error;

/// A `ProveFault` is why nothing is proved. Its text is as in `no file Word(3)`.
#[derive(Clone, Copy, Debug, PartialEq, Eq, Error)]
pub enum ProveFault {
    #[error("no file {0}")]
    File(MmFault),
    #[error("no memory")]
    NoMemory,
}
