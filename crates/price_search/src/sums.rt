//! What choices cost by prices of rows.
use crate::model::{ModeStarts, Model};
use std::alloc::{AllocError, Global};

/// A `PriceSums` is what each start and each end of an activity costs by precedence rows, and what
/// each resource costs up to a period.
#[derive(Drop)]
pub(crate) struct PriceSums {
    width: usize,
    started: Vec<i64>,
    ended: Vec<i64>,
    used: Vec<i64>,
    /// Of each stock.
    stocks: Vec<i64>,
}

/// Copies numbers of one length.
pub(crate) fn copy(to: &mut [i64], from: &[i64]) {
    if to.len() == from.len() {
        to.copy_from_slice(from);
    }
}

fn add_to(sums: &mut [i64], place: usize, prices: &[i64]) {
    let end = place.saturating_add(prices.len());
    if let Some(own) = sums.get_mut(place..end) {
        let count = own.len().min(prices.len());
        for at in 0..count {
            own[at] = own[at].wrapping_add(prices[at]);
        }
    }
}

fn sum_up(own: &mut [i64]) {
    let mut sum = 0i64;
    for at in 0..own.len() {
        sum = sum.wrapping_add(own[at]);
        own[at] = sum;
    }
}

fn sum_down(own: &mut [i64]) {
    let mut sum = 0i64;
    for at in (0..own.len()).rev() {
        sum = sum.wrapping_add(own[at]);
        own[at] = sum;
    }
}

/// Each sum is of the prices before its period.
fn sum_before(own: &mut [i64], prices: &[i64]) {
    let count = own.len().min(prices.len());
    let mut sum = 0i64;
    for at in 0..count {
        own[at] = sum;
        sum = sum.wrapping_add(prices[at]);
    }
    if count < own.len() {
        own[count] = sum;
    }
}

fn begin(costs: &mut [i64], started: &[i64], ended: &[i64], bars: &[i64], fixed: i64) {
    let count = costs.len();
    if started.len() != count || ended.len() != count || bars.len() != count {
        return;
    }
    for at in 0..count {
        let arcs = started[at].wrapping_add(ended[at]);
        costs[at] = arcs.wrapping_add(bars[at]).wrapping_add(fixed);
    }
}

fn add_runs(costs: &mut [i64], low: &[i64], high: &[i64], amount: i64) {
    let count = costs.len();
    if low.len() != count || high.len() != count {
        return;
    }
    for at in 0..count {
        let run = high[at].wrapping_sub(low[at]);
        costs[at] = costs[at].wrapping_add(amount.wrapping_mul(run));
    }
}

/// `count` sums from `place` on, or none if there are fewer.
fn part(sums: &[i64], place: usize, count: usize) -> &[i64] {
    sums.get(place..place.saturating_add(count)).unwrap_or(&[])
}

impl PriceSums {
    pub(crate) fn new(alloc: Global, model: &Model) -> Result<PriceSums, AllocError> {
        let width = model.width();
        let all = model.modes.len().saturating_mul(width);
        let used = model.capacities.len().saturating_mul(width);
        Ok(PriceSums {
            width,
            started: vec![in alloc; 0i64; all]?,
            ended: vec![in alloc; 0i64; all]?,
            used: vec![in alloc; 0i64; used]?,
            stocks: vec![in alloc; 0i64; model.stocks.len()]?,
        })
    }

    pub(crate) fn set(&mut self, model: &Model, prices: &[i64]) {
        self.started.fill(0);
        self.ended.fill(0);
        self.add_arcs(model, prices);
        self.sum_activities(model);
        self.sum_resources(model, prices);
    }

    fn add_arcs(&mut self, model: &Model, prices: &[i64]) {
        for arc in &model.arcs {
            let periods = arc.to.saturating_sub(arc.from);
            let own = part(prices, arc.place, periods);
            let started = arc
                .after
                .saturating_mul(self.width)
                .saturating_add(arc.from);
            add_to(&mut self.started, started, own);
            let ended = arc
                .before
                .saturating_mul(self.width)
                .saturating_add(arc.from);
            add_to(&mut self.ended, ended.saturating_add(1), own);
        }
    }

    fn sum_activities(&mut self, model: &Model) {
        for activity in 0..model.modes.len() {
            let place = activity.saturating_mul(self.width);
            let end = place.saturating_add(self.width);
            if let Some(own) = self.started.as_mut_slice().get_mut(place..end) {
                sum_down(own);
            }
            if let Some(own) = self.ended.as_mut_slice().get_mut(place..end) {
                sum_up(own);
            }
        }
    }

    fn sum_resources(&mut self, model: &Model, prices: &[i64]) {
        for kind in 0..model.capacities.len() {
            let place = kind.saturating_mul(self.width);
            let end = place.saturating_add(self.width);
            let own = part(prices, kind.saturating_mul(model.bound), model.bound);
            if let Some(sums) = self.used.as_mut_slice().get_mut(place..end) {
                sum_before(sums, own);
            }
        }
        let stocks = part(prices, model.stock_place(), model.stocks.len());
        copy(&mut self.stocks, stocks);
    }

    fn fixed(&self, starts: &ModeStarts) -> i64 {
        let mut fixed = 0i64;
        for (amount, price) in starts.consumptions.iter().zip(&self.stocks) {
            fixed = fixed.wrapping_add(amount.wrapping_mul(*price));
        }
        fixed
    }

    /// Writes what the activity costs in the mode at each start.
    pub(crate) fn price(
        &self,
        model: &Model,
        activity: usize,
        starts: &ModeStarts,
        costs: &mut [i64],
    ) {
        let ModeStarts { first, count, .. } = *starts;
        let place = activity.saturating_mul(self.width).saturating_add(first);
        let end = place.saturating_add(starts.duration);
        let bars = part(&model.bars, starts.place, count);
        let started = part(&self.started, place, count);
        let ended = part(&self.ended, end, count);
        begin(costs, started, ended, bars, self.fixed(starts));
        for kind in 0..model.capacities.len().min(starts.requests.len()) {
            let amount = starts.requests[kind];
            if amount != 0 {
                let place = kind.saturating_mul(self.width).saturating_add(first);
                let end = place.saturating_add(starts.duration);
                let low = part(&self.used, place, count);
                let high = part(&self.used, end, count);
                add_runs(costs, low, high, amount);
            }
        }
    }
}
