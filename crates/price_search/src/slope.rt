//! The direction of a step: which rows are used above the stretch, in the mean of steps.
use crate::model::Model;
use std::alloc::{AllocError, Global};

/// One, as a stretch and as a share of a limit.
pub(crate) const ONE: i64 = 1 << 24;

/// One, as a row's scale.
const SCALE: i64 = 1 << 16;
/// Of precedence rows: 0.4.
const ARC_SCALE: i64 = 26214;
/// How much scales grow with a row's share of the supply, in 256 parts.
const SHARE_SCALE: i64 = 80;

/// A row with what steps have seen of it.
#[derive(Clone, Copy)]
pub(crate) struct RowState {
    pub(crate) limit: i64,
    inverse: i64,
    base: i64,
    pub(crate) scale: i64,
    /// The mean of the shares of the limit that are used.
    pub(crate) mean: i64,
    /// Their sum in this cycle.
    pub(crate) total: i64,
}

/// Where a step begins.
#[derive(Clone, Copy)]
pub(crate) struct Origin {
    pub(crate) stretch: i64,
    pub(crate) supply: i64,
    /// The share of the newest usage in the mean, in 256 parts.
    pub(crate) weight: i64,
}

/// What all rows say of a step.
#[derive(Clone, Copy)]
pub(crate) struct Slope {
    /// The sum of `scale * (mean - stretch)^2`.
    pub(crate) norm: i64,
    /// The greatest mean.
    pub(crate) fullest: i64,
    /// The greatest total.
    pub(crate) fullest_total: i64,
}

pub(crate) fn rows_of(alloc: Global, model: &Model) -> Result<Vec<RowState>, AllocError> {
    let arcs = model.arc_place();
    let mut rows = Vec::with_capacity(alloc, model.limits.len())?;
    for (at, limit) in model.limits.iter().enumerate() {
        let base = if at < arcs { SCALE } else { ARC_SCALE };
        rows.push(RowState {
            limit: *limit,
            inverse: ONE.checked_div(*limit).unwrap_or(0),
            base,
            scale: base,
            mean: 0,
            total: 0,
        })?;
    }
    Ok(rows)
}

/// The excess of a row's mean over the stretch. A price of 0 cannot fall.
fn excess(row: &RowState, price: i64, stretch: i64) -> i64 {
    let excess = row.mean.wrapping_sub(stretch);
    if price == 0 { excess.max(0) } else { excess }
}

impl RowState {
    /// `growth` is `growth_of`.
    fn learn(&mut self, used: i64, price: i64, origin: Origin, growth: i64) {
        let share = used.wrapping_mul(self.inverse);
        let change = share.wrapping_sub(self.mean).wrapping_mul(origin.weight);
        self.mean = self.mean.wrapping_add(change >> 8);
        self.total = self.total.wrapping_add(share);
        let part = price.wrapping_mul(self.limit) >> 8;
        self.scale = self.base.wrapping_add(part.wrapping_mul(growth) >> 30);
    }
}

/// How scales grow with prices, in parts of 2^30.
fn growth_of(rows: usize, supply: i64) -> i64 {
    let rows = i64::try_from(rows).unwrap_or(0);
    let whole = rows.wrapping_mul(256 * SHARE_SCALE).wrapping_mul(1 << 30);
    whole.checked_div((supply >> 8).max(1)).unwrap_or(0)
}

/// Takes the newest usage into the means.
pub(crate) fn learn(rows: &mut [RowState], used: &[i64], prices: &[i64], origin: Origin) -> Slope {
    let growth = growth_of(rows.len(), origin.supply);
    let mut slope = Slope {
        norm: 0,
        fullest: 0,
        fullest_total: 0,
    };
    let count = rows.len().min(used.len()).min(prices.len());
    for at in 0..count {
        let row = &mut rows[at];
        row.learn(used[at], prices[at], origin, growth);
        let excess = excess(row, prices[at], origin.stretch);
        let square = excess.wrapping_mul(excess) >> 24;
        slope.norm = slope.norm.wrapping_add(square.wrapping_mul(row.scale) >> 8);
        slope.fullest = slope.fullest.max(row.mean);
        slope.fullest_total = slope.fullest_total.max(row.total);
    }
    slope
}

/// Moves prices along the slope, `factor` parts of 2^28 far.
pub(crate) fn go(prices: &mut [i64], rows: &[RowState], factor: i64, origin: Origin) {
    let unit = origin.supply >> 28;
    let count = prices.len().min(rows.len());
    for at in 0..count {
        let row = &rows[at];
        let excess = excess(row, prices[at], origin.stretch);
        let far = excess.saturating_mul(row.scale) >> 16;
        let far = far.clamp(-(1 << 30), 1 << 30);
        let mut change = (factor.wrapping_mul(far) >> 24).wrapping_mul(unit);
        if row.limit > 1 {
            change = change.checked_div(row.limit).unwrap_or(0);
        }
        prices[at] = prices[at].wrapping_add(change).max(0);
    }
}

/// Forgets the totals of a cycle.
pub(crate) fn forget(rows: &mut [RowState]) {
    for row in rows {
        row.total = 0;
    }
}
