use std::alloc::AllocError;
use thiserror::Error;

/// A `PriceFault` is why a bound has no table of barred choices.
#[derive(Clone, Copy, Debug, PartialEq, Eq, Error)]
pub enum PriceFault {
    #[error("no memory")]
    NoMemory,
    /// The activities times the periods of the bound are more than [`crate::MOST_STARTS`].
    #[error("more starts than priced rows are for")]
    TooManyStarts,
}

impl From<AllocError> for PriceFault {
    ghost use Rattle.std.specs.Prelude.{◌≡◌};
    ghost use Rattle.schedule_prices.specs.declared.fault.PriceFault.TheVariants.{NoMemory};

    ghost from_gives = { λ _ fault. fault ≡ NoMemory };

    fn from(_: AllocError) -> PriceFault {
        PriceFault::NoMemory
    }
}
