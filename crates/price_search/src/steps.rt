//! Steps along subgradients: from prices to prices that refute the bound, if there are any.
use crate::model::{BAR, Model};
use crate::pace::{FIRST_THETA, StepPace};
use crate::rounding::round;
use crate::slope::{ONE, Origin, RowState, Slope, forget, go, learn, rows_of};
use crate::sums::{PriceSums, copy};
use crate::usage::Selection;
use std::alloc::{AllocError, Global};

/// What the rows supply in all, by prices as steps keep them.
const WHOLE: i64 = 1 << 36;

/// How much above the best stretch steps aim, in parts of 2^16.
const TARGET: i64 = 400;

/// A `StepsEnd` is how a run of steps ends.
#[derive(Clone, Copy, PartialEq, Eq)]
pub(crate) enum StepsEnd {
    Open,
    /// The prices refute the bound.
    Refuted,
    /// A mean of choices keeps all rows, so that no prices refute the bound.
    Hopeless,
}

/// A `Steps` is the prices of a question's rows, the best so far, and what steps have seen.
#[derive(Drop)]
pub(crate) struct Steps {
    pub(crate) model: Model,
    sums: PriceSums,
    taken: Selection,
    other: Selection,
    rows: Vec<RowState>,
    used: Vec<i64>,
    prices: Vec<i64>,
    pub(crate) best: Vec<i64>,
    /// The best prices, of 24 bits.
    pub(crate) rounded: Vec<i64>,
    pace: StepPace,
    supply: i64,
    /// The best stretch, in parts of 2^24, and the supply there.
    pub(crate) most: i64,
    most_supply: i64,
    /// The steps of this cycle, and of all.
    since: i64,
    pub(crate) taken_steps: u32,
    /// Whether the next step takes its usage for the mean.
    is_fresh: bool,
}

/// The cost of choices in parts of the supply.
fn stretch_of(cost: i64, supply: i64) -> i64 {
    cost.wrapping_mul(ONE)
        .checked_div(supply.max(1))
        .unwrap_or(0)
}

fn fill(prices: &mut [i64], place: usize, count: usize, price: i64) {
    if let Some(own) = prices.get_mut(place..place.saturating_add(count)) {
        own.fill(price);
    }
}

fn share_of(parts: usize, limit: i64) -> i64 {
    let parts = i64::try_from(parts).unwrap_or(1);
    WHOLE
        .checked_div(parts)
        .unwrap_or(0)
        .checked_div(limit)
        .unwrap_or(0)
}

/// Equal shares of all resources, and in all periods.
fn start(model: &Model, prices: &mut [i64]) {
    prices.fill(0);
    let kinds = model.capacities.len().saturating_add(model.stocks.len());
    for (kind, supply) in model.capacities.iter().enumerate() {
        let price = share_of(kinds.saturating_mul(model.bound), supply.limit);
        let place = kind.saturating_mul(model.bound);
        fill(prices, place, model.bound, price);
    }
    for (kind, supply) in model.stocks.iter().enumerate() {
        let place = model.stock_place().saturating_add(kind);
        fill(prices, place, 1, share_of(kinds, supply.limit));
    }
}

/// Halves or doubles the prices until their supply is about `WHOLE`. Returns it.
fn rescale(model: &Model, prices: &mut [i64]) -> i64 {
    let mut supply = model.supply(prices);
    if supply == 0 {
        start(model, prices);
        return model.supply(prices);
    }
    let mut halves = 0u32;
    for _ in 0..62 {
        if supply > 2 * WHOLE {
            supply >>= 1;
            halves = halves.saturating_add(1);
        }
    }
    if halves == 0 && supply >= WHOLE / 2 {
        return supply;
    }
    for at in 0..prices.len() {
        prices[at] = if halves == 0 {
            prices[at].wrapping_mul(2)
        } else {
            prices[at].wrapping_shr(halves)
        };
    }
    model.supply(prices)
}

impl Steps {
    pub(crate) fn new(alloc: Global, model: Model) -> Result<Steps, AllocError> {
        let rows = model.limits.len();
        let mut prices = vec![in alloc; 0i64; rows]?;
        start(&model, &mut prices);
        let supply = model.supply(&prices);
        Ok(Steps {
            sums: PriceSums::new(alloc, &model)?,
            taken: Selection::new(alloc, &model)?,
            other: Selection::new(alloc, &model)?,
            rows: rows_of(alloc, &model)?,
            used: vec![in alloc; 0i64; rows]?,
            prices,
            best: vec![in alloc; 0i64; rows]?,
            rounded: vec![in alloc; 0i64; rows]?,
            pace: StepPace::new(FIRST_THETA),
            supply,
            most: 0,
            most_supply: 1,
            since: 0,
            taken_steps: 0,
            is_fresh: true,
            model,
        })
    }

    /// Begins from given prices, and from what steps have seen of the rows there.
    pub(crate) fn resume(&mut self, prices: &[i64], rows: &[RowState], theta: i64) {
        self.restart(prices, theta);
        if self.rows.len() == rows.len() {
            self.rows.copy_from_slice(rows);
            forget(&mut self.rows);
            self.is_fresh = false;
        }
    }

    /// Writes what steps have seen of the rows to `rows`.
    pub(crate) fn save_rows(&self, rows: &mut Vec<RowState>) -> Result<(), AllocError> {
        rows.clear();
        rows.extend_from_slice(&self.rows)?;
        Ok(())
    }

    /// Begins from given prices.
    pub(crate) fn restart(&mut self, prices: &[i64], theta: i64) {
        copy(&mut self.prices, prices);
        copy(&mut self.best, prices);
        self.supply = self.model.supply(&self.prices);
        self.pace = StepPace::new(theta);
        self.most = 0;
        self.most_supply = 1;
        self.since = 0;
        self.taken_steps = 0;
        self.is_fresh = true;
        forget(&mut self.rows);
    }

    /// At most `steps` steps. Afterwards the rounded prices are those that refute, or the best.
    pub(crate) fn run(&mut self, steps: u32) -> StepsEnd {
        for _ in 0..steps {
            self.taken_steps = self.taken_steps.saturating_add(1);
            let ended = self.step();
            if ended != StepsEnd::Open {
                if ended == StepsEnd::Hopeless {
                    round(&self.best, &mut self.rounded);
                }
                return ended;
            }
        }
        round(&self.best, &mut self.rounded);
        StepsEnd::Open
    }

    /// Whether the rounded prices refute the bound.
    fn refutes(&mut self) -> bool {
        round(&self.prices, &mut self.rounded);
        self.sums.set(&self.model, &self.rounded);
        let cost = self.other.take(&self.model, &self.sums);
        cost >= BAR || cost > self.model.supply(&self.rounded)
    }

    fn step(&mut self) -> StepsEnd {
        self.sums.set(&self.model, &self.prices);
        let cost = self.taken.take(&self.model, &self.sums);
        let stretch = stretch_of(cost, self.supply);
        if (cost >= BAR || cost > self.supply) && self.refutes() {
            self.most = stretch;
            return StepsEnd::Refuted;
        }
        let jumps = self.look(stretch);
        self.taken.use_rows(&self.model, &mut self.used);
        let weight = if self.is_fresh { 256 } else { self.pace.weight };
        self.is_fresh = false;
        let (stretch, supply) = if jumps {
            copy(&mut self.prices, &self.best);
            (self.most, self.most_supply)
        } else {
            (stretch, self.supply)
        };
        let origin = Origin {
            stretch,
            supply,
            weight,
        };
        self.since = self.since.saturating_add(1);
        let slope = learn(&mut self.rows, &self.used, &self.prices, origin);
        if self.taken_steps > 1 && self.is_hopeless(slope) {
            return StepsEnd::Hopeless;
        }
        let factor = self.factor(slope, stretch);
        go(&mut self.prices, &self.rows, factor, origin);
        self.supply = rescale(&self.model, &mut self.prices);
        StepsEnd::Open
    }

    /// Keeps the prices if they are the best. Returns whether the next step begins a cycle.
    fn look(&mut self, stretch: i64) -> bool {
        if stretch > self.most {
            self.most = stretch;
            self.most_supply = self.supply;
            copy(&mut self.best, &self.prices);
            self.pace.gain();
            return false;
        }
        let jumps = self.pace.wait();
        if jumps {
            self.since = 0;
            forget(&mut self.rows);
        }
        jumps
    }

    fn is_hopeless(&self, slope: Slope) -> bool {
        slope.fullest <= ONE || slope.fullest_total <= ONE.wrapping_mul(self.since)
    }

    /// The length of the step over its norm, in parts of 2^28.
    fn factor(&self, slope: Slope, stretch: i64) -> i64 {
        let target = self
            .most
            .wrapping_add((self.most >> 16).wrapping_mul(TARGET));
        let lack = target.wrapping_sub(stretch).clamp(1, ONE);
        let length = self.pace.theta.wrapping_mul(lack).wrapping_mul(1 << 20);
        let factor = length.checked_div(slope.norm.max(1)).unwrap_or(0);
        factor.min(1 << 32)
    }
}
