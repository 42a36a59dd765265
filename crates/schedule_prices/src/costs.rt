//! What choices cost at given prices.
ghost use Rattle.std.specs.Prelude.{◌≡◌, ◌+◌, ◌*◌, ◌<◌, ◌≤◌, ◌^◌, true, sum_by, IsTrue, IfOk};
ghost use Rattle.mrcpsp.specs.Numbers.{sum_below};
ghost use Rattle.mrcpsp.specs.Project.{is_project, size, renewables, nonrenewables, mode_count, duration, request, consumption};
ghost use Rattle.schedule_prices.specs.Rows.{cost, supply};
ghost use Rattle.schedule_prices.specs.Prices.{are_prices};
ghost use Rattle.schedule_prices.specs.Sums.{price_in};
ghost use Rattle.schedule_prices.specs.Costs.{used_in};

use crate::place::SumKind;
use crate::prices::supply_of;
use crate::row::Price;
use crate::sums::sums_of;
use crate::time_sums::{TimeSums, sum_at};
use mrcpsp::Project;
use std::alloc::{AllocError, Global};
use std::marker::Model;

/// Prices of rows of a project, summed up over time, so that the cost of a choice takes a step for
/// each resource and none for each price.
#[derive(Drop)]
pub(crate) struct Costs<'a> {
    project: &'a Project,
    bound: u32,
    prices: &'a [Price],
    begun: Vec<TimeSums>,
    ended: Vec<TimeSums>,
    used: Vec<TimeSums>,
    consumed: Vec<TimeSums>,
}

impl<'a> Model for Costs<'a> {
    ghost use Rattle.schedule_prices.specs.Costs.{CostsData, AreCosts};

    ghost Value = { CostsData };

    ghost view = { λ c. record { project = c.project.now; bound = c.bound; prices = c.prices.now } };

    ghost invariant = { λ c. AreCosts c.project.now c.bound c.prices.now c.begun.items c.ended.items c.used.items c.consumed.items };
}

impl<'a> Costs<'a> {
    #[tactic(auto, using(crate::proofs::PriceLemmas::prices_sum))]
    pub(crate) fn new(
        alloc: Global,
        project: &'a Project,
        bound: u32,
        prices: &'a [Price],
    ) -> Result<Costs<'a>, AllocError>
        requires prices { are_prices project.now prices.now ≡ true }
        requires bound { bound < 1048576 }
        ensures { IfOk result (λ costs.
            costs ≡ record { project = project.now; bound = bound; prices = prices.now }) }
    {
        let _all = project.activities();
        let begun = sums_of(alloc, SumKind::Begun, project.size(), bound, prices)?;
        let ended = sums_of(alloc, SumKind::Ended, project.size(), bound, prices)?;
        let used = sums_of(alloc, SumKind::Used, project.renewables(), bound, prices)?;
        let consumed = sums_of(
            alloc,
            SumKind::Consumed,
            project.nonrenewables(),
            bound,
            prices,
        )?;
        Ok(Costs {
            project,
            bound,
            prices,
            begun,
            ended,
            used,
            consumed,
        })
    }

    pub(crate) fn supply(&self) -> u64
        ensures exact { result ≡ supply self.now.project self.now.prices }
        ensures few { result ≤ 2 ^ 60 }
    {
        supply_of(self.project, self.prices)
    }

    pub(crate) fn project(&self) -> &Project
        ensures exact { result.now ≡ self.now.project }
        ensures project { is_project self.now.project ≡ true }
        ensures priced { are_prices self.now.project self.now.prices ≡ true }
    {
        self.project
    }

    /// What an activity pays for having started at `time`.
    fn begun(&self, activity: usize, time: usize) -> u64
        requires activity { activity < size self.now.project }
        requires time { time ≤ self.now.bound }
        ensures { result ≡ sum_by (price_in SumKind.Begun activity time) self.now.prices }
    {
        sum_at(&self.begun, activity, time)
    }

    /// What an activity pays for not being over before `time`.
    fn ended(&self, activity: usize, time: usize) -> u64
        requires activity { activity < size self.now.project }
        requires time { time ≤ self.now.bound }
        ensures { result ≡ sum_by (price_in SumKind.Ended activity time) self.now.prices }
    {
        sum_at(&self.ended, activity, time)
    }

    /// The prices of a renewable resource from `start` on and before `end`.
    #[tactic(auto, using(crate::proofs::CostLemmas::used_rules))]
    fn used(&self, resource: usize, start: usize, end: usize) -> u64
        requires resource { resource < renewables self.now.project }
        requires order { start ≤ end }
        requires end { end ≤ self.now.bound }
        ensures { result ≡ sum_by (used_in resource start end) self.now.prices }
    {
        let before = sum_at(&self.used, resource, start);
        let all = sum_at(&self.used, resource, end);
        all - before
    }

    /// The prices of a nonrenewable resource.
    fn consumed(&self, resource: usize) -> u64
        requires { resource < nonrenewables self.now.project }
        ensures { result ≡ sum_by (price_in SumKind.Consumed resource 0) self.now.prices }
    {
        sum_at(&self.consumed, resource, 0)
    }

    /// What a choice pays for renewable resources, run from `start` to `end`.
    #[tactic(auto, using(crate::proofs::CostLemmas::low_rules))]
    fn uses(&self, activity: usize, mode: usize, start: usize, end: usize) -> u64
        requires activity { activity < size self.now.project }
        requires mode { mode < mode_count self.now.project activity }
        requires order { start ≤ end }
        requires end { end ≤ self.now.bound }
        ensures exact { result ≡ sum_below (λ r. request self.now.project activity mode r
            * sum_by (used_in r start end) self.now.prices) (renewables self.now.project) }
        ensures few { result ≤ 8 * (1000000 * 2 ^ 40) }
    {
        let project = self.project();
        let mut total = 0u64;
        for resource in 0..project.renewables() {
            let request = project.request(activity, mode, resource);
            total += product(request, self.used(resource, start, end));
        }
        total
    }

    /// What a choice pays for nonrenewable resources.
    #[tactic(auto, using(crate::proofs::CostLemmas::low_rules))]
    fn consumptions(&self, activity: usize, mode: usize) -> u64
        requires activity { activity < size self.now.project }
        requires mode { mode < mode_count self.now.project activity }
        ensures exact { result ≡ sum_below (λ k. consumption self.now.project activity mode k
            * sum_by (price_in SumKind.Consumed k 0) self.now.prices) (nonrenewables self.now.project) }
        ensures few { result ≤ 8 * (1000000 * 2 ^ 40) }
    {
        let project = self.project();
        let mut total = 0u64;
        for resource in 0..project.nonrenewables() {
            let consumption = project.consumption(activity, mode, resource);
            total += product(consumption, self.consumed(resource));
        }
        total
    }

    /// What a choice of an activity pays.
    #[tactic(auto, using(crate::proofs::CostLemmas::of_rules))]
    pub(crate) fn of(&self, activity: usize, mode: usize, start: u32) -> u64
        requires activity { activity < size self.now.project }
        requires mode { mode < mode_count self.now.project activity }
        requires end { start + duration self.now.project activity mode ≤ self.now.bound }
        ensures exact { result ≡ cost self.now.project self.now.prices activity mode start }
        ensures few { result ≤ 2 ^ 60 }
    {
        let first = start as usize;
        let end = first + self.project().duration(activity, mode) as usize;
        let arcs = self.begun(activity, first) + self.ended(activity, end);
        let resources = self.uses(activity, mode, first, end) + self.consumptions(activity, mode);
        arcs + resources
    }
}

/// An amount times a price.
fn product(amount: u32, price: u64) -> u64
    requires amount { amount ≤ 1000000 }
    requires price { price ≤ 2 ^ 40 }
    ensures exact { result ≡ amount * price }
    ensures few { result ≤ 1000000 * 2 ^ 40 }
{
    u64::from(amount) * price
}
