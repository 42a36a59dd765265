//! Simulated annealing on a list of the activities and a mode for each.
ghost use Rattle.std.specs.Prelude.{◌≡◌, ◌+◌, ◌<◌, ◌≤◌};

use crate::budget::Budget;
use crate::chance::ONE;
use crate::change::{ChangedPlaces, chooser, other_mode, vary};
use crate::cooling::Cooling;
use crate::generation::{Generated, Generator, Trial};
use crate::point::ListSchedule;
use crate::rows::{at, put};
use mrcpsp::Project;
use std::alloc::{AllocError, Global};
use std::mem;

/// The price of a unit above a nonrenewable capacity: three tenths of a period, with 16 binary
/// places.
const PRICE: u64 = 19_661;

/// More periods than any schedule takes.
const NO_LIMIT: u32 = 1_000_000_000;

/// How often the first modes are shaken, and the draws per activity that repair them each time.
const SHAKES: u32 = 100;

const DRAWS: u32 = 20;

/// How many candidates are tried at one temperature.
const CANDIDATES: u32 = 64;

/// What becomes of modes that consume more than the nonrenewable capacities.
#[derive(Clone, Copy, PartialEq, Eq)]
pub(crate) enum Stocks {
    Kept,
    Priced,
}

#[derive(Drop)]
pub(crate) struct Annealing {
    generator: Generator,
    current: ListSchedule,
    candidate: ListSchedule,
    first_order: Vec<u32>,
    stocks: Stocks,
    cooling: Cooling,
    cost: u64,
    tried: u32,
}

/// The activities with the longest chains behind them come first.
fn first_order(alloc: Global, tails: &[u32]) -> Result<Vec<u32>, AllocError> {
    let mut keys = Vec::new(alloc);
    let mut activity = 0u64;
    for tail in tails {
        let sooner = u64::from(u32::MAX - *tail);
        keys.push(sooner.wrapping_mul(1 << 32).wrapping_add(activity))?;
        activity = activity.wrapping_add(1);
    }
    keys.sort_unstable();
    keys.iter()
        .map(|key| (*key & 0xffff_ffff) as u32)
        .collect(alloc)
}

impl Annealing {
    /// `None` if an activity has no mode that may run.
    pub(crate) fn new(
        alloc: Global,
        project: &Project,
        seed: u64,
    ) -> Result<Option<Annealing>, AllocError> {
        let Some(generator) = Generator::new(alloc, project, seed)? else {
            return Ok(None);
        };
        let current = ListSchedule::blank(alloc, &generator.tables)?;
        let candidate = ListSchedule::blank(alloc, &generator.tables)?;
        let first_order = first_order(alloc, &generator.tables.tails)?;
        Ok(Some(Annealing {
            generator,
            current,
            candidate,
            first_order,
            stocks: Stocks::Kept,
            cooling: Cooling::new(0, 0),
            cost: 0,
            tried: 0,
        }))
    }

    pub(crate) fn current(&self) -> &ListSchedule {
        &self.current
    }

    /// The number of an activity's mode at the current point, from 1.
    pub(crate) fn mode_number(&self, activity: u32) -> u32 {
        at(
            &self.generator.tables.numbers,
            at(&self.current.modes, activity),
        )
    }

    pub(crate) fn longest_chain(&self) -> u32 {
        self.generator.tables.longest_chain
    }

    pub(crate) fn has_ample_stocks(&self) -> bool {
        self.generator.tables.has_ample_stocks()
    }

    pub(crate) fn keeps_stocks(&self) -> bool {
        self.current.excess(&self.generator.tables) == 0
    }

    fn draw_modes(&mut self) {
        self.candidate.consumed.fill(0);
        for place in 0..self.generator.tables.size {
            let activity = at(&self.first_order, place);
            let (first, end) = self.generator.tables.modes_of(activity);
            let drawn = self.generator.chance.below(end.saturating_sub(first));
            let mode = first.wrapping_add(drawn);
            self.candidate.place(place, activity);
            self.candidate.consume(&self.generator.tables, mode);
            put(&mut self.candidate.modes, activity, mode);
        }
    }

    /// Gives a random activity another mode if the excess is then below `excess`. Returns the
    /// excess.
    fn try_mode(&mut self, excess: u64) -> u64 {
        let Generator { tables, chance, .. } = &mut self.generator;
        let activity = chooser(tables, chance);
        let old = at(&self.candidate.modes, activity);
        let mode = other_mode(tables, chance, &self.candidate, activity);
        self.candidate.set_mode(tables, activity, mode);
        let after = self.candidate.excess(tables);
        if after < excess {
            after
        } else {
            self.candidate.set_mode(tables, activity, old);
            excess
        }
    }

    /// Lessens the excess by random draws. Returns whether it is 0.
    fn lessen(&mut self) -> bool {
        let mut excess = self.candidate.excess(&self.generator.tables);
        for _ in 0..self.generator.tables.size.wrapping_mul(DRAWS) {
            if excess == 0 {
                return true;
            }
            excess = self.try_mode(excess);
        }
        excess == 0
    }

    fn shake(&mut self) {
        for _ in 0..3u32 {
            let _ = self.try_mode(u64::MAX);
        }
    }

    fn repair(&mut self) {
        if self.generator.tables.choosers.is_empty() {
            return;
        }
        for _ in 0..SHAKES {
            if self.lessen() {
                return;
            }
            self.shake();
        }
    }

    /// In periods, with 16 binary places.
    fn cost_of(&self, point: &ListSchedule) -> u64 {
        let periods = u64::from(point.makespan).wrapping_mul(ONE);
        periods.wrapping_add(self.price(point))
    }

    fn price(&self, point: &ListSchedule) -> u64 {
        match self.stocks {
            Stocks::Kept => 0,
            Stocks::Priced => point.excess(&self.generator.tables).wrapping_mul(PRICE),
        }
    }

    /// Begins a run of `schedules` schedules.
    pub(crate) fn begin(&mut self, stocks: Stocks, schedules: u64, budget: &mut Budget)
        requires { budget.old.spent + 1 ≤ budget.old.most }
        ensures spent { budget.new.spent ≡ budget.old.spent + 1 }
        ensures most { budget.new.most ≡ budget.old.most }
    {
        self.stocks = stocks;
        self.cooling = Cooling::new(budget.spent, schedules);
        self.draw_modes();
        self.repair();
        let trial = Trial {
            current: &self.current,
            change: ChangedPlaces::whole(),
            limit: NO_LIMIT,
        };
        let _ = self.generator.generate(&mut self.candidate, trial, budget);
        self.accept();
    }

    fn accept(&mut self) {
        mem::swap(&mut self.current, &mut self.candidate);
        self.generator.save(&self.current, 0);
        self.cost = self.cost_of(&self.current);
    }

    /// The most that the candidate may cost, drawn before its schedule is generated.
    fn bar(&mut self, spent: u64) -> u64 {
        if self.tried == 0 {
            self.cooling.cool(spent);
            self.tried = CANDIDATES;
        }
        self.tried = self.tried.wrapping_sub(1);
        let more = self
            .cooling
            .heat()
            .wrapping_mul(self.generator.chance.exponential());
        self.cost.wrapping_add(more >> 16)
    }

    /// The most periods of the candidate's schedule before it is justified. `None` if each schedule
    /// of its modes costs more than `bar`.
    fn limit(&self, bar: u64) -> Option<u32> {
        let tables = &self.generator.tables;
        if self.stocks == Stocks::Kept
            && self.candidate.excess(tables) > self.current.excess(tables)
        {
            return None;
        }
        let price = self.price(&self.candidate);
        let chain = u64::from(tables.longest_chain).wrapping_mul(ONE);
        if price.wrapping_add(chain) > bar {
            return None;
        }
        let most = bar.wrapping_sub(price) / ONE;
        Some(most.min(u64::from(NO_LIMIT)) as u32 + 1)
    }

    /// Makes the justified candidate the current point if it costs at most `bar`. Returns whether
    /// it is.
    fn judge(&mut self, bar: u64, budget: &mut Budget) -> bool
        requires { budget.old.spent + 2 ≤ budget.old.most }
        ensures spent { budget.new.spent ≡ budget.old.spent + 2 }
        ensures most { budget.new.most ≡ budget.old.most }
    {
        self.generator.justify(&mut self.candidate, budget);
        let is_good = self.cost_of(&self.candidate) <= bar;
        if is_good {
            self.accept();
        }
        is_good
    }

    /// Tries one candidate: at most three schedules. Returns whether it is then the current point.
    pub(crate) fn step(&mut self, budget: &mut Budget) -> bool
        requires { budget.old.spent + 3 ≤ budget.old.most }
        ensures spent { budget.old.spent < budget.new.spent }
        ensures few { budget.new.spent ≤ budget.old.spent + 3 }
        ensures most { budget.new.most ≡ budget.old.most }
    {
        self.candidate.copy(&self.current);
        let bar = self.bar(budget.spent);
        let Generator { tables, chance, .. } = &mut self.generator;
        let change = vary(tables, chance, &mut self.candidate);
        let limit = self.limit(bar);
        let Some(limit) = limit else {
            budget.spend(1);
            return false;
        };
        let trial = Trial {
            current: &self.current,
            change,
            limit,
        };
        match self.generator.generate(&mut self.candidate, trial, budget) {
            Generated::Refused => false,
            Generated::Same => {
                self.current.copy_list(&self.candidate);
                self.generator.save(&self.current, change.first);
                false
            }
            Generated::New => self.judge(bar, budget),
        }
    }
}
