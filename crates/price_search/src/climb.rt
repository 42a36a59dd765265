//! Which bound is asked next.
use crate::slope::ONE;

/// What a question about a bound was answered.
#[derive(Clone, Copy)]
pub(crate) struct BoundAnswer {
    pub(crate) refuted: bool,
    /// In parts of 2^24.
    pub(crate) stretch: u64,
}

/// A `Climb` is the way up from a lower bound: a stretch above 1 gives the distance, and questions
/// that stay open are halved back.
#[derive(Clone, Copy)]
pub(crate) struct Climb {
    /// The bound to ask next.
    pub(crate) at: u32,
    /// The least bound that is not refuted, as far as is known.
    known: u32,
    /// The least bound that was asked and stayed open.
    open: Option<u32>,
    horizon: u32,
}

/// Nine tenths of the stretch above 1, in periods of the bound, and at least one.
fn leap(stretch: u64, bound: u32) -> u32 {
    let one = u64::try_from(ONE).unwrap_or(1);
    let above = stretch.saturating_sub(one).saturating_mul(u64::from(bound));
    let periods = (above.saturating_mul(9) / 10) >> 24;
    u32::try_from(periods).unwrap_or(0).max(1)
}

fn middle(low: u32, high: u32) -> u32 {
    low.saturating_add(high.saturating_sub(low) / 2)
}

impl Climb {
    pub(crate) fn new(known: u32, horizon: u32) -> Climb {
        Climb {
            at: known,
            known,
            open: None,
            horizon,
        }
    }

    /// Whether there is another bound to ask. Behind the horizon there is none.
    pub(crate) fn goes_on(&self) -> bool {
        self.known < self.open.unwrap_or(u32::MAX) && self.known <= self.horizon
    }

    pub(crate) fn learn(&mut self, answer: BoundAnswer) {
        if answer.refuted {
            self.known = self.at.saturating_add(1);
            let further = self.at.saturating_add(leap(answer.stretch, self.at));
            self.at = match self.open {
                Some(open) => middle(self.known, open),
                None => further.min(self.horizon).max(self.known),
            };
        } else {
            self.open = Some(self.at);
            self.at = middle(self.known, self.at);
        }
    }
}
