use std::alloc::AllocError;
use thiserror::Error;

/// A `ProofFault` is why bytes are no proof. Its line is the last one of the step, from 1; in the
/// binary form it is the number of the step.
#[derive(Clone, Copy, PartialEq, Eq, Debug, Error)]
pub enum ProofFault {
    #[error("NoMemory")]
    NoMemory,
    /// What is in this line is no step.
    #[error("Word({0})")]
    Word(u32),
    /// The clause that ends in this line does not follow by unit propagation.
    #[error("Unproved({0})")]
    Unproved(u32),
    /// The proof ends before the clauses are refuted.
    #[error("Unfinished")]
    Unfinished,
}

impl From<AllocError> for ProofFault {
    ghost use Rattle.std.specs.Prelude.{◌≡◌};
    ghost use Rattle.clause_proof.specs.declared.fault.ProofFault.TheVariants.{NoMemory};

    ghost from_gives = { λ _ fault. fault ≡ NoMemory };

    fn from(_: AllocError) -> ProofFault {
        ProofFault::NoMemory
    }
}
