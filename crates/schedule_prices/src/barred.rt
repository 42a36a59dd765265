//! Choices that no feasible schedule within a bound takes.
ghost use Rattle.std.specs.Prelude.{◌≡◌, ℕ, not, ◌+◌, ◌*◌, ◌<◌, ◌≤◌, ◌^◌, ◌||◌, ◌&&◌, ◌==◌, ◌↔◌, true, nat_lt, IsTrue, IfOk, OnOk, OnErr, IfSome, MatchOption, Some, None, Err};
ghost use Rattle.mrcpsp.specs.Project.{size, mode_count, duration, precedes};
ghost use Rattle.mrcpsp.specs.Schedule.{ScheduleData, IsFeasible, makespan, finish};
ghost use Rattle.schedule_prices.specs.Choices.{AreBarred, EachExceeds, with_piece, kept_to, is_in};
ghost use Rattle.schedule_prices.specs.Prices.{are_prices, are_over, cheapest_in, cheapest, refutes};
ghost use Rattle.schedule_prices.specs.Dear.{AreCheapest, is_choice};
ghost use Rattle.schedule_prices.specs.Steps.{ends_late, least_in, least_time};

use crate::choice_range::ChoiceRange;
use crate::choices::{Choices, all_choices, bar_dear_in, bar_in, holds};
use crate::costs::Costs;
use crate::fault::PriceFault;
use crate::least::{lesser, lesser_of};
use crate::prices::are_prices;
use crate::row::Price;
use crate::time::Time;
use mrcpsp::Project;
use std::alloc::{AllocError, Global};
use std::marker::Model;

/// The most starts of a bound with priced rows: the activities times the periods 0 to the bound.
/// With more a caller does without prices.
pub const MOST_STARTS: u64 = 1 << 20;

/// A `Barred` is the set of choices, each a mode and a start of an activity, that are known to be
/// in no feasible schedule of at most `bound` periods.
#[derive(Drop)]
pub struct Barred<'a> {
    project: &'a Project,
    bound: u32,
    activities: Vec<Choices>,
}

impl<'a> Model for Barred<'a> {
    ghost use Rattle.schedule_prices.specs.Table.{BarredData, IsTable};

    ghost Value = { BarredData };

    ghost view = { λ b. record { project = b.project.now; bound = b.bound; marks = b.activities.items } };

    ghost invariant = { λ b. IsTable b.project.now b.bound b.activities.items };
}

impl<'a> Barred<'a> {
    ghost use Rattle.schedule_prices.specs.Table.{IsFor, Keeps, is_barred, kept};

    /// Bars the choices that end behind the bound, and nothing else.
    pub fn new(alloc: Global, project: &'a Project, bound: u32) -> Result<Barred<'a>, PriceFault>
        ensures project { IfOk result (λ barred. barred.project ≡ project.now) }
        ensures bound { IfOk result (λ barred. barred.bound ≡ bound) }
        ensures late { IfOk result (λ barred. (j m t : ℕ) → j < size project.now
            → m < mode_count project.now j
            → is_barred barred j m t ≡ ends_late project.now bound j m t) }
        ensures many { (result ≡ Err PriceFault.TooManyStarts)
            ↔ (MOST_STARTS < size project.now * (bound + 1)) }
    {
        let starts = project.size() as u64 * (u64::from(bound) + 1);
        if starts > MOST_STARTS {
            return Err(PriceFault::TooManyStarts);
        }
        let activities = all_choices(alloc, project, bound)?;
        Ok(Barred {
            project,
            bound,
            activities,
        })
    }

    pub fn project(&self) -> &'a Project
        ensures { result.now ≡ self.now.project }
    {
        self.project
    }

    /// In periods.
    pub fn bound(&self) -> u32
        ensures exact { result ≡ self.now.bound }
        ensures low { result < MOST_STARTS }
    {
        self.bound
    }

    /// Whether a choice is barred. Choices that the project does not have are barred.
    #[tactic(auto, unfolding(crate::specs::Choices::is_marked))]
    pub fn is_barred(&self, activity: usize, mode: usize, start: u32) -> bool
        ensures exact { result ≡ is_barred self.now activity mode start }
        ensures sound { AreBarred self.now.project self.now.bound (is_barred self.now) }
    {
        if activity < self.activities.len() {
            self.activities[activity].is_barred(mode, start as usize)
        } else {
            true
        }
    }

    fn is_left(&self, piece: &Option<ChoiceRange>, activity: usize, mode: usize, start: u32) -> bool
        ensures { result ≡ not (kept (is_barred self.now) piece.now activity mode start) }
    {
        let inside = match piece {
            Some(piece) if piece.activity == activity => holds(piece, mode, start),
            _ => true,
        };
        inside && !self.is_barred(activity, mode, start)
    }

    #[tactic(auto, using(crate::proofs::TableLemmas::least_rules))]
    fn cheapest_in(
        &self,
        costs: &Costs,
        piece: &Option<ChoiceRange>,
        activity: usize,
        mode: usize,
    ) -> Option<u64>
        requires costs { IsFor self.now costs.now }
        requires activity { activity < size self.now.project }
        requires mode { mode < mode_count self.now.project activity }
        ensures exact { result ≡ cheapest_in self.now.project self.now.bound
            (kept (is_barred self.now) piece.now) costs.now.prices activity mode }
        ensures few { IfSome result (λ least. least ≤ 2 ^ 60) }
    {
        let mut least = None;
        for start in 0..self.bound + 1 {
            if self.is_left(piece, activity, mode, start) {
                least = lesser(least, costs.of(activity, mode, start));
            }
        }
        least
    }

    #[tactic(auto, using(crate::proofs::TableLemmas::least_rules), unfolding(crate::specs::Prices::cheapest))]
    fn cheapest(&self, costs: &Costs, piece: &Option<ChoiceRange>, activity: usize) -> Option<u64>
        requires costs { IsFor self.now costs.now }
        requires activity { activity < size self.now.project }
        ensures exact { result ≡ cheapest self.now.project self.now.bound
            (kept (is_barred self.now) piece.now) costs.now.prices activity }
        ensures few { IfSome result (λ least. least ≤ 2 ^ 60) }
    {
        let mut least = None;
        for mode in 0..self.project.mode_count(activity) {
            least = lesser_of(least, self.cheapest_in(costs, piece, activity, mode));
        }
        least
    }

    fn are_dear(&self, costs: &Costs, piece: &Option<ChoiceRange>) -> bool
        requires { IsFor self.now costs.now }
        ensures { result ≡ are_over self.now.project self.now.bound
            (kept (is_barred self.now) piece.now) costs.now.prices }
    {
        let supply = costs.supply();
        let mut total = 0u64;
        for activity in 0..self.project.size() {
            match self.cheapest(costs, piece, activity) {
                None => return true,
                Some(least) => total += least,
            }
            if supply < total {
                return true;
            }
        }
        false
    }

    #[tactic(auto, unfolding(crate::specs::Prices::refutes))]
    fn refutes_kept(
        &self,
        alloc: Global,
        prices: &[Price],
        piece: &Option<ChoiceRange>,
    ) -> Result<bool, AllocError>
        ensures { IfOk result (λ answer. answer ≡ refutes self.now.project self.now.bound
            (kept (is_barred self.now) piece.now) prices.now) }
    {
        if !are_prices(self.project(), prices) {
            return Ok(false);
        }
        let costs = Costs::new(alloc, self.project(), self.bound(), prices)?;
        Ok(self.are_dear(&costs, piece))
    }

    /// Whether the prices refute the bound: the cheapest choices that are not barred together cost
    /// more than all rows supply, or an activity has no choice left. Prices of foreign rows, and
    /// prices of more than [`crate::MOST_PRICES`] in all, refute nothing. Fails without memory.
    #[tactic(auto, using(crate::proofs::ChoiceLemmas::refute_rules))]
    pub fn refute(&self, alloc: Global, prices: &[Price]) -> Result<bool, AllocError>
        ensures exact { IfOk result (λ answer. answer
            ≡ refutes self.now.project self.now.bound (is_barred self.now) prices.now) }
        ensures right { IfOk result (λ answer. IsTrue answer
            → EachExceeds self.now.project self.now.bound) }
    {
        let _table = &self.activities;
        self.refutes_kept(alloc, prices, &None)
    }

    /// The least cost of each activity, `None` if they are more than the supply.
    #[tactic(auto, using(crate::proofs::DearLemmas::least_so_rules))]
    fn least(&self, alloc: Global, costs: &Costs) -> Result<Option<Vec<u64>>, AllocError>
        requires { IsFor self.now costs.now }
        ensures { IfOk result (λ made. MatchOption made
            (are_over self.now.project self.now.bound (is_barred self.now) costs.now.prices ≡ true)
            (λ least. AreCheapest self.now.project self.now.bound (is_barred self.now)
            costs.now.prices least.items)) }
    {
        let supply = costs.supply();
        let size = self.project().size();
        let mut total = 0u64;
        let mut least = Vec::new(alloc);
        for activity in 0..size {
            let Some(own) = self.cheapest(costs, &None, activity) else {
                return Ok(None);
            };
            total += own;
            if supply < total {
                return Ok(None);
            }
            least.push(own)?;
        }
        Ok(Some(least))
    }

    /// Bars the choices of the piece.
    fn bar(&mut self, piece: &ChoiceRange)
        requires { AreBarred self.old.project self.old.bound
            (with_piece (is_barred self.old) piece.now.activity (is_in piece.now)) }
        ensures bars { (j m t : ℕ) → is_barred self.new j m t
            ≡ with_piece (is_barred self.old) piece.now.activity (is_in piece.now) j m t }
        ensures project { self.new.project ≡ self.old.project }
        ensures bound { self.new.bound ≡ self.old.bound }
        ensures sound { AreBarred self.new.project self.new.bound (is_barred self.new) }
    {
        bar_in(&mut self.activities, piece);
    }

    /// Bars the piece if the prices refute the bound with the activity kept to the piece, and
    /// returns whether they do. The table stays as it was if they do not, or without memory. An
    /// empty piece leaves the activity no choice, so that prices of the project bar it.
    pub fn bar_piece(
        &mut self,
        alloc: Global,
        prices: &[Price],
        piece: ChoiceRange,
    ) -> Result<bool, AllocError>
        ensures exact { IfOk result (λ answer. answer ≡ refutes self.old.project self.old.bound
            (kept_to (is_barred self.old) piece.activity (is_in piece)) prices.now) }
        ensures bars { IfOk result (λ answer. (j m t : ℕ) → is_barred self.new j m t
            ≡ (is_barred self.old j m t || (answer && ((j == piece.activity) && is_in piece m t)))) }
        ensures project { self.new.project ≡ self.old.project }
        ensures bound { self.new.bound ≡ self.old.bound }
        ensures err { OnErr result (self.new ≡ self.old) }
    {
        let _table = &self.activities;
        let refuted = self.refutes_kept(alloc, prices, &Some(piece))?;
        if refuted {
            self.bar(&piece);
        }
        Ok(refuted)
    }

    /// Bars the choices that are too dear at the costs.
    fn bar_above(&mut self, costs: &Costs, least: &[u64])
        requires costs { IsFor self.old costs.now }
        requires priced { are_prices costs.now.project costs.now.prices ≡ true }
        requires least { AreCheapest self.old.project self.old.bound (is_barred self.old)
            costs.now.prices least.now }
        ensures bars { (j m t : ℕ) → j < size self.old.project → m < mode_count self.old.project j
            → is_barred self.new j m t ≡ (is_barred self.old j m t
            || refutes self.old.project self.old.bound
            (kept_to (is_barred self.old) j (is_choice m t)) costs.now.prices) }
        ensures project { self.new.project ≡ self.old.project }
        ensures bound { self.new.bound ≡ self.old.bound }
    {
        bar_dear_in(&mut self.activities, costs, least);
    }

    /// Bars each choice with which the prices refute the bound if its activity is kept to it. Such
    /// a choice costs more above its activity's cheapest than all cheapest leave of the supply.
    /// Returns whether the prices refute the bound as it is. The table stays as it was if they do,
    /// or without memory.
    pub fn bar_dear(&mut self, alloc: Global, prices: &[Price]) -> Result<bool, AllocError>
        ensures exact { IfOk result (λ answer. answer
            ≡ refutes self.old.project self.old.bound (is_barred self.old) prices.now) }
        ensures right { IfOk result (λ answer. IsTrue answer
            → EachExceeds self.old.project self.old.bound) }
        ensures bars { IfOk result (λ answer. (j m t : ℕ) → j < size self.old.project
            → m < mode_count self.old.project j → is_barred self.new j m t
            ≡ (is_barred self.old j m t || (not answer && refutes self.old.project self.old.bound
            (kept_to (is_barred self.old) j (is_choice m t)) prices.now))) }
        ensures project { self.new.project ≡ self.old.project }
        ensures bound { self.new.bound ≡ self.old.bound }
        ensures err { OnErr result (self.new ≡ self.old) }
    {
        let _table = &self.activities;
        let project = self.project();
        if !are_prices(project, prices) {
            return Ok(false);
        }
        let costs = Costs::new(alloc, project, self.bound(), prices)?;
        let Some(least) = self.least(alloc, &costs)? else {
            return Ok(true);
        };
        self.bar_above(&costs, &least);
        Ok(false)
    }

    #[tactic(auto, using(crate::proofs::TableLemmas::time_rules))]
    fn least_in(&self, time: Time, activity: usize, mode: usize) -> Option<u64>
        requires activity { activity < size self.now.project }
        requires mode { mode < mode_count self.now.project activity }
        ensures exact { result ≡ least_in time self.now.project self.now.bound
            (is_barred self.now) activity mode }
        ensures few { IfSome result (λ least. least ≤ 2000000) }
    {
        let bound = self.bound();
        let duration = self.project().duration(activity, mode);
        let mut least = None;
        for start in 0..bound + 1 {
            if !self.is_barred(activity, mode, start) {
                let own = match time {
                    Time::End => start + duration,
                    Time::Rest => bound - start,
                };
                least = lesser(least, u64::from(own));
            }
        }
        least
    }

    /// The least time of the choices left of an activity.
    #[tactic(auto, using(crate::proofs::TableLemmas::time_rules), unfolding(crate::specs::Steps::least_time))]
    fn least_time(&self, time: Time, activity: usize) -> Option<u64>
        requires { activity < size self.now.project }
        ensures exact { result ≡ least_time time self.now.project self.now.bound
            (is_barred self.now) activity }
        ensures few { IfSome result (λ least. least ≤ 2000000) }
    {
        let mut least = None;
        for mode in 0..self.project().mode_count(activity) {
            least = lesser_of(least, self.least_in(time, activity, mode));
        }
        least
    }

    /// Bars the starts of `after` before the earliest end left of `before`. Returns whether
    /// `before` has no choice left.
    fn tighten_after(&mut self, before: usize, after: usize) -> bool
        requires before { before < size self.old.project }
        requires after { after < size self.old.project }
        requires arc { precedes self.old.project before after ≡ true }
        ensures right { IsTrue result → EachExceeds self.old.project self.old.bound }
        ensures keeps { Keeps self.old self.new }
    {
        let _table = &self.activities;
        let Some(end) = self.least_time(Time::End, before) else {
            return true;
        };
        if end > 0 {
            self.bar(&ChoiceRange {
                activity: after,
                mode: None,
                from: 0,
                to: end as u32 - 1,
            });
        }
        false
    }

    /// Bars the choices of `before` that end behind `last`.
    fn bar_behind(&mut self, before: usize, last: u32)
        requires before { before < size self.old.project }
        requires ends { (s : ScheduleData) → IsFeasible self.old.project s
            → makespan self.old.project s ≤ self.old.bound
            → finish self.old.project s before ≤ last }
        requires last { last ≤ self.old.bound }
        ensures keeps { Keeps self.old self.new }
    {
        let _table = &self.activities;
        let bound = self.bound();
        let project = self.project();
        for mode in 0..project.mode_count(before) {
            let duration = project.duration(before, mode);
            self.bar(&ChoiceRange {
                activity: before,
                mode: Some(mode),
                from: (last + 1).saturating_sub(duration),
                to: bound,
            });
        }
    }

    /// Bars the choices of `before` that end behind the latest start left of `after`. Returns
    /// whether `after` has no choice left.
    fn tighten_before(&mut self, before: usize, after: usize) -> bool
        requires before { before < size self.old.project }
        requires after { after < size self.old.project }
        requires arc { precedes self.old.project before after ≡ true }
        ensures right { IsTrue result → EachExceeds self.old.project self.old.bound }
        ensures keeps { Keeps self.old self.new }
    {
        let _table = &self.activities;
        let bound = self.bound();
        let Some(rest) = self.least_time(Time::Rest, after) else {
            return true;
        };
        self.bar_behind(before, bound.saturating_sub(rest as u32));
        false
    }

    /// The steps of `before` and each of its successors: forward, or back.
    fn tighten_arcs(&mut self, before: usize, back: bool) -> bool
        requires { before < size self.old.project }
        ensures right { IsTrue result → EachExceeds self.old.project self.old.bound }
        ensures keeps { Keeps self.old self.new }
    {
        let project = self.project();
        for after in 0..project.size() {
            if project.precedes(before, after) {
                let refuted = if back {
                    self.tighten_before(before, after)
                } else {
                    self.tighten_after(before, after)
                };
                if refuted {
                    return true;
                }
            }
        }
        false
    }

    fn tighten_all(&mut self, back: bool) -> bool
        ensures right { IsTrue result → EachExceeds self.old.project self.old.bound }
        ensures keeps { Keeps self.old self.new }
    {
        let size = self.project().size();
        for place in 0..size {
            let before = if back { size - 1 - place } else { place };
            if self.tighten_arcs(before, back) {
                return true;
            }
        }
        false
    }

    /// Bars what precedences bar: starts before the earliest end left of a predecessor, then ends
    /// behind the latest start left of a successor. `true` means that an activity has no choice
    /// left, so that no feasible schedule is within the bound. Makes one pass over the precedences
    /// forward and one back; another call may bar more.
    pub fn tighten(&mut self) -> bool
        ensures right { IsTrue result → EachExceeds self.old.project self.old.bound }
        ensures keeps { Keeps self.old self.new }
    {
        self.tighten_all(false) || self.tighten_all(true)
    }
}

/// Whether the prices refute the bound, with nothing barred but what ends behind the bound. Any
/// prices, in any order, get an answer, and `true` is always right: see [`Barred::refute`].
pub fn refute_by_prices(
    alloc: Global,
    project: &Project,
    bound: u32,
    prices: &[Price],
) -> Result<bool, PriceFault>
    ensures exact { IfOk result (λ answer. answer
        ≡ refutes project.now bound (ends_late project.now bound) prices.now) }
    ensures right { IfOk result (λ answer. IsTrue answer → EachExceeds project.now bound) }
    ensures many { (result ≡ Err PriceFault.TooManyStarts)
        ↔ (MOST_STARTS < size project.now * (bound + 1)) }
{
    let barred = Barred::new(alloc, project, bound)?;
    Ok(barred.refute(alloc, prices)?)
}
