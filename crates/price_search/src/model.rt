//! Choices and rows within a bound.
use crate::windows::{ActivitySpan, StartWindow, window_of};
use mrcpsp::{Activity, Mode, Project};
use schedule_prices::Barred;
use std::alloc::{AllocError, Global};

pub(crate) const KINDS: usize = 8;

/// Above the cost of any choice that is left.
pub(crate) const BAR: i64 = 1 << 52;

/// The most choices and rows of a question: above it no prices are looked for.
pub const MOST_ITEMS: usize = 1 << 17;

/// A resource of which there is some.
#[derive(Clone, Copy)]
pub(crate) struct Supply {
    pub(crate) resource: usize,
    pub(crate) limit: i64,
}

/// The starts of an activity in one mode: `count` from `first` on.
#[derive(Clone, Copy)]
pub(crate) struct ModeStarts {
    pub(crate) mode: usize,
    pub(crate) duration: usize,
    pub(crate) first: usize,
    pub(crate) count: usize,
    /// The place of the first start in `Model::bars`.
    pub(crate) place: usize,
    /// By places in `Model::capacities`, in each period of the activity.
    pub(crate) requests: [i64; KINDS],
    /// By places in `Model::stocks`.
    pub(crate) consumptions: [i64; KINDS],
}

/// The precedence rows of two activities, one a period of `from..to`: if `after` has started by
/// then, `before` is over. In other periods they hold for all choices.
#[derive(Clone, Copy)]
pub(crate) struct Arc {
    pub(crate) before: usize,
    pub(crate) after: usize,
    pub(crate) from: usize,
    pub(crate) to: usize,
    /// The first one's place among all rows.
    pub(crate) place: usize,
}

/// A `Model` is the choices within a bound, and the rows that bind them: first each capacity period
/// by period, then stocks, then precedences.
#[derive(Drop)]
pub(crate) struct Model {
    pub(crate) bound: usize,
    /// The places in `starts` of each activity's modes.
    pub(crate) modes: Vec<(usize, usize)>,
    pub(crate) starts: Vec<ModeStarts>,
    /// 0 or `BAR`, of each choice.
    pub(crate) bars: Vec<i64>,
    pub(crate) capacities: Vec<Supply>,
    pub(crate) stocks: Vec<Supply>,
    pub(crate) arcs: Vec<Arc>,
    pub(crate) limits: Vec<i64>,
}

/// A bound's question.
#[derive(Drop)]
pub(crate) enum BoundQuestion {
    Open(Model),
    /// An activity has no choice left.
    Closed,
    /// There are more choices and rows than `MOST_ITEMS`, or no period.
    TooLarge,
}

fn supplies(alloc: Global, limits: &[u32]) -> Result<Vec<Supply>, AllocError> {
    let mut supplies = Vec::new(alloc);
    for (resource, limit) in limits.iter().enumerate() {
        if *limit > 0 {
            supplies.push(Supply {
                resource,
                limit: i64::from(*limit),
            })?;
        }
    }
    Ok(supplies)
}

fn amounts(supplies: &[Supply], needs: &[u32]) -> [i64; KINDS] {
    let mut amounts = [0i64; KINDS];
    for at in 0..KINDS {
        if let Some(supply) = supplies.get(at) {
            amounts[at] = i64::from(needs.get(supply.resource).copied().unwrap_or(0));
        }
    }
    amounts
}

impl Model {
    pub(crate) fn new(
        alloc: Global,
        project: &Project,
        bound: u32,
        barred: &Barred,
    ) -> Result<BoundQuestion, AllocError> {
        let mut model = Model {
            bound: bound as usize,
            modes: Vec::new(alloc),
            starts: Vec::new(alloc),
            bars: Vec::new(alloc),
            capacities: supplies(alloc, project.renewable())?,
            stocks: supplies(alloc, project.nonrenewable())?,
            arcs: Vec::new(alloc),
            limits: Vec::new(alloc),
        };
        let mut spans = Vec::new(alloc);
        for (number, activity) in project.activities().iter().enumerate() {
            let span = model.add_activity(number, activity, barred)?;
            if span.earliest == usize::MAX {
                return Ok(BoundQuestion::Closed);
            }
            if model.bars.len() > MOST_ITEMS {
                return Ok(BoundQuestion::TooLarge);
            }
            spans.push(span)?;
        }
        model.add_limits()?;
        for (before, activity) in project.activities().iter().enumerate() {
            model.add_arcs(before, activity, &spans)?;
        }
        if bound == 0 || model.items() > MOST_ITEMS {
            return Ok(BoundQuestion::TooLarge);
        }
        Ok(BoundQuestion::Open(model))
    }

    fn add_activity(
        &mut self,
        number: usize,
        activity: &Activity,
        barred: &Barred,
    ) -> Result<ActivitySpan, AllocError> {
        let mut span = ActivitySpan::NONE;
        let from = self.starts.len();
        let bound = u32::try_from(self.bound).unwrap_or(0);
        for (mode, way) in activity.modes.as_slice().iter().enumerate() {
            if let Some(latest) = bound.checked_sub(way.duration) {
                if let Some(window) = window_of(barred, number, mode, latest) {
                    self.add_mode(mode, way, window)?;
                    let duration = way.duration as usize;
                    let end = (window.last as usize).saturating_add(duration);
                    span.widen(window.first as usize, end);
                    self.add_bars(number, mode, window, barred)?;
                }
            }
        }
        self.modes.push((from, self.starts.len()))?;
        Ok(span)
    }

    fn add_mode(&mut self, mode: usize, way: &Mode, window: StartWindow) -> Result<(), AllocError> {
        let count = window.last.saturating_sub(window.first) as usize;
        let starts = ModeStarts {
            mode,
            duration: way.duration as usize,
            first: window.first as usize,
            count: count.saturating_add(1),
            place: self.bars.len(),
            requests: amounts(&self.capacities, way.renewable.as_slice()),
            consumptions: amounts(&self.stocks, way.nonrenewable.as_slice()),
        };
        self.starts.push(starts)?;
        Ok(())
    }

    fn add_bars(
        &mut self,
        number: usize,
        mode: usize,
        window: StartWindow,
        barred: &Barred,
    ) -> Result<(), AllocError> {
        for start in window.first..window.last.saturating_add(1) {
            let bar = if barred.is_barred(number, mode, start) {
                BAR
            } else {
                0
            };
            self.bars.push(bar)?;
        }
        Ok(())
    }

    fn add_limits(&mut self) -> Result<(), AllocError> {
        for at in 0..self.capacities.len() {
            if let Some(supply) = self.capacities.get(at) {
                let limit = supply.limit;
                let rows = self.limits.len().saturating_add(self.bound);
                self.limits.resize(rows, limit)?;
            }
        }
        for at in 0..self.stocks.len() {
            if let Some(supply) = self.stocks.get(at) {
                let limit = supply.limit;
                self.limits.push(limit)?;
            }
        }
        Ok(())
    }

    fn add_arcs(
        &mut self,
        before: usize,
        activity: &Activity,
        spans: &[ActivitySpan],
    ) -> Result<(), AllocError> {
        let latest_end = spans
            .get(before)
            .copied()
            .unwrap_or(ActivitySpan::NONE)
            .latest_end;
        for next in activity.successors.as_slice() {
            let after = (*next as usize).saturating_sub(1);
            let earliest = spans
                .get(after)
                .copied()
                .unwrap_or(ActivitySpan::NONE)
                .earliest;
            if earliest < latest_end {
                let place = self.limits.len();
                self.arcs.push(Arc {
                    before,
                    after,
                    from: earliest,
                    to: latest_end,
                    place,
                })?;
                let rows = place.saturating_add(latest_end - earliest);
                self.limits.resize(rows, 1)?;
            }
        }
        Ok(())
    }

    /// The number of choices and rows.
    pub(crate) fn items(&self) -> usize {
        self.bars.len().saturating_add(self.limits.len())
    }

    pub(crate) fn stock_place(&self) -> usize {
        self.capacities.len().saturating_mul(self.bound)
    }

    pub(crate) fn arc_place(&self) -> usize {
        self.stock_place().saturating_add(self.stocks.len())
    }

    /// The periods with one more at either end.
    pub(crate) fn width(&self) -> usize {
        self.bound.saturating_add(2)
    }

    pub(crate) fn supply(&self, prices: &[i64]) -> i64 {
        let limits = self.limits.as_slice();
        let rows = limits.len().min(prices.len());
        let mut supply = 0i64;
        for row in 0..rows {
            supply = supply.wrapping_add(prices[row].wrapping_mul(limits[row]));
        }
        supply
    }
}
