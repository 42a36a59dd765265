//! How much is tried at a bound.
use crate::model::MOST_ITEMS;
use crate::slope::ONE;

/// Below this stretch, in parts of 2^24, prices bar too little to go on.
pub(crate) const LEAST_STRETCH: i64 = ONE / 100 * 95;

/// Below this stretch, pieces bar too few choices to be worth their steps for clauses.
const CLAUSE_STRETCH: i64 = ONE / 100 * 98;
/// The most choices and rows of a question in which steps for pieces cost next to nothing.
const SMALL_ITEMS: usize = 1 << 10;
/// The most choices and rows, times steps, of a question that is asked for clauses.
const MOST_WORK: usize = 8_000_000;
/// With fewer steps prices bar next to nothing.
const FEWEST_STEPS: usize = 100;

/// An `Effort` is how many steps all choices of a bound get, and when pieces are tried.
#[derive(Clone, Copy)]
pub(crate) struct Effort {
    pub(crate) steps: u32,
    /// With more choices and rows no prices are looked for.
    pub(crate) most_items: usize,
    /// The least stretch, in parts of 2^24, from which pieces are tried.
    least_stretch: i64,
    /// The most choices and rows, times steps. A question with more gets fewer steps, and no
    /// pieces.
    work: usize,
}

impl Effort {
    /// To refute a bound.
    pub(crate) fn to_refute(steps: u32) -> Effort {
        Effort {
            steps,
            most_items: MOST_ITEMS,
            least_stretch: LEAST_STRETCH,
            work: usize::MAX,
        }
    }

    /// To bar choices, so that there are clauses on them.
    pub(crate) fn to_bar(steps: u32) -> Effort {
        Effort {
            steps,
            most_items: MOST_WORK / FEWEST_STEPS,
            least_stretch: CLAUSE_STRETCH,
            work: MOST_WORK,
        }
    }

    /// The steps for all choices of a question of this number of choices and rows.
    pub(crate) fn steps_for(&self, items: usize) -> u32 {
        let steps = self.work.checked_div(items).unwrap_or(usize::MAX);
        u32::try_from(steps).unwrap_or(u32::MAX).min(self.steps)
    }

    /// Whether pieces are tried in a question of this number of choices and rows.
    pub(crate) fn tries_pieces(&self, items: usize, stretch: i64) -> bool {
        let least = if items <= SMALL_ITEMS {
            LEAST_STRETCH
        } else {
            self.least_stretch
        };
        stretch >= least && self.steps_for(items) == self.steps
    }
}
