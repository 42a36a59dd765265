//! How far steps go.

/// Steps without a better stretch until they get shorter.
const PATIENCE: u32 = 7;

/// The length of the first step, 1.5, in parts of 2^16.
pub(crate) const FIRST_THETA: i64 = 98_304;

/// A `StepPace` is the length of the next step, and how lengths shrink.
#[derive(Clone, Copy)]
pub(crate) struct StepPace {
    /// The length in parts of 2^16.
    pub(crate) theta: i64,
    /// The first length of this cycle.
    first: i64,
    /// The next length in 256 parts of the last.
    shrink: i64,
    /// The share of the newest usage in the mean, in 256 parts.
    pub(crate) weight: i64,
    waited: u32,
}

impl StepPace {
    pub(crate) fn new(theta: i64) -> StepPace {
        StepPace {
            theta,
            first: theta,
            shrink: 180,
            weight: 24,
            waited: 0,
        }
    }

    /// After a step with a better stretch.
    pub(crate) fn gain(&mut self) {
        self.waited = 0;
    }

    /// After a step without one. Returns whether a cycle is over: the next begins with a quarter of
    /// its length, from the best prices.
    pub(crate) fn wait(&mut self) -> bool {
        self.waited = self.waited.saturating_add(1);
        if self.waited < PATIENCE {
            return false;
        }
        self.waited = 0;
        self.theta = (self.theta.wrapping_mul(self.shrink) >> 8).max(16);
        if self.theta >= self.first >> 8 {
            return false;
        }
        self.first >>= 2;
        self.theta = self.first;
        self.shrink = 256i64.wrapping_sub(256i64.wrapping_sub(self.shrink) >> 1);
        self.weight = (self.weight >> 1).max(8);
        true
    }
}
