//! What a run takes.
use std::time::{Clock, Instant};

/// A `Cost` is what a run has taken so far.
#[derive(Clone, Copy, Debug, PartialEq, Eq)]
pub struct Cost {
    pub seconds: u64,
    /// The tenths of a second above `seconds`.
    pub tenths: u32,
    /// How many workers there are.
    pub jobs: usize,
    /// The conflicts of all workers, once they have ended.
    pub conflicts: Option<u64>,
}

/// No time has passed if the clock cannot be read.
pub(crate) fn cost_since<R: Clock>(
    rt: &R,
    begun: Option<Instant>,
    jobs: usize,
    conflicts: Option<u64>,
) -> Cost {
    let (mut seconds, mut tenths) = (0, 0);
    if let Some(begun) = begun
        && let Ok(spent) = begun.elapsed(rt)
    {
        seconds = spent.as_secs();
        tenths = spent.subsec_millis() / 100;
    }
    Cost {
        seconds,
        tenths,
        jobs,
        conflicts,
    }
}
