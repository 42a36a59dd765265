//! The cheapest choices, and what they take of the rows.
use crate::model::{Arc, ModeStarts, Model};
use crate::sums::PriceSums;
use std::alloc::{AllocError, Global};

/// A choice of an activity.
#[derive(Clone, Copy)]
pub(crate) struct Choice {
    /// The place of its mode in `Model::starts`.
    pub(crate) place: usize,
    pub(crate) start: usize,
    pub(crate) cost: i64,
}

const NONE: Choice = Choice {
    place: 0,
    start: 0,
    cost: i64::MAX,
};

/// A `Selection` is one choice of each activity.
#[derive(Drop)]
pub(crate) struct Selection {
    choices: Vec<Choice>,
    costs: Vec<i64>,
}

/// The first of the least ones.
fn least_of(costs: &[i64]) -> (usize, i64) {
    let mut least = i64::MAX;
    let mut place = 0;
    for at in 0..costs.len() {
        if costs[at] < least {
            least = costs[at];
            place = at;
        }
    }
    (place, least)
}

fn add(used: &mut [i64], from: usize, to: usize, amount: i64) {
    if let Some(rows) = used.get_mut(from..to) {
        for row in 0..rows.len() {
            rows[row] = rows[row].wrapping_add(amount);
        }
    }
}

impl Selection {
    pub(crate) fn new(alloc: Global, model: &Model) -> Result<Selection, AllocError> {
        Ok(Selection {
            choices: vec![in alloc; NONE; model.modes.len()]?,
            costs: vec![in alloc; 0i64; model.width()]?,
        })
    }

    fn cheapest_of(&mut self, model: &Model, sums: &PriceSums, activity: usize) -> Choice {
        let mut best = NONE;
        let (from, to) = model.modes.get(activity).copied().unwrap_or((0, 0));
        for place in from..to {
            if let Some(starts) = model.starts.get(place) {
                if let Some(costs) = self.costs.as_mut_slice().get_mut(..starts.count) {
                    sums.price(model, activity, starts, costs);
                    let (at, cost) = least_of(costs);
                    if cost < best.cost {
                        let start = starts.first.saturating_add(at);
                        best = Choice { place, start, cost };
                    }
                }
            }
        }
        best
    }

    /// Takes the cheapest choice of each activity, and returns what they cost in all.
    pub(crate) fn take(&mut self, model: &Model, sums: &PriceSums) -> i64 {
        let mut total = 0i64;
        for activity in 0..self.choices.len() {
            let best = self.cheapest_of(model, sums, activity);
            total = total.saturating_add(best.cost);
            if activity < self.choices.len() {
                self.choices[activity] = best;
            }
        }
        total
    }

    fn choice(&self, model: &Model, activity: usize) -> Option<(Choice, ModeStarts)> {
        let choice = *self.choices.get(activity)?;
        let starts = *model.starts.get(choice.place)?;
        Some((choice, starts))
    }

    fn add_amounts(&self, model: &Model, used: &mut [i64], choice: Choice, starts: &ModeStarts) {
        for kind in 0..model.capacities.len().min(starts.requests.len()) {
            let amount = starts.requests[kind];
            if amount != 0 {
                let period = kind.saturating_mul(model.bound);
                let from = period.saturating_add(choice.start);
                add(used, from, from.saturating_add(starts.duration), amount);
            }
        }
        let place = model.stock_place();
        for kind in 0..model.stocks.len().min(starts.consumptions.len()) {
            let row = place.saturating_add(kind);
            add(used, row, row.saturating_add(1), starts.consumptions[kind]);
        }
    }

    fn add_arc(&self, model: &Model, used: &mut [i64], arc: &Arc) {
        if let Some((choice, starts)) = self.choice(model, arc.before) {
            let end = choice.start.saturating_add(starts.duration);
            let over = end.min(arc.to).saturating_sub(arc.from);
            add(used, arc.place, arc.place.saturating_add(over), 1);
        }
        if let Some(choice) = self.choices.get(arc.after) {
            let begun = choice.start.min(arc.to).saturating_sub(arc.from);
            let periods = arc.to.saturating_sub(arc.from);
            let from = arc.place.saturating_add(begun);
            add(used, from, arc.place.saturating_add(periods), 1);
        }
    }

    /// Writes what the choices take of each row.
    pub(crate) fn use_rows(&self, model: &Model, used: &mut [i64]) {
        used.fill(0);
        for activity in 0..self.choices.len() {
            if let Some((choice, starts)) = self.choice(model, activity) {
                self.add_amounts(model, used, choice, &starts);
            }
        }
        for arc in &model.arcs {
            self.add_arc(model, used, arc);
        }
    }
}
