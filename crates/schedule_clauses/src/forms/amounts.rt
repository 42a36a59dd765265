//! Forms of clauses on amounts: what activities use of a renewable resource in a period, and
//! consume of a nonrenewable one. They hold of every feasible schedule; if their numbers do not
//! fit, nothing is added.
ghost use Rattle.std.specs.Prelude.{◌≡◌, ◌<◌, true};
ghost use Rattle.mrcpsp.specs.Project.{size, mode_count, renewables, nonrenewables};
ghost use Rattle.schedule_clauses.specs.Activities.{Leaves};

use crate::activities::{Activities, is_among, is_part};
use crate::diagram::Demand;
use crate::formula::CapacityRow;
use crate::meaning::{Share, in_mode, runs_at, stock_within, use_within};
use crate::scope::Clauses;
use std::alloc::AllocError;

/// What is left for activities, and for those among them that are below: `None` if that cannot be.
#[derive(Clone, Copy)]
pub(crate) struct Descent {
    pub(crate) from: Share,
    pub(crate) to: Option<Share>,
}

fn does_leave(from: Share, to: Share, activity: usize, amount: u32) -> bool
    ensures { result ≡ true → Leaves from.activities to.activities from.most to.most activity amount }
{
    is_part(to.activities, from.activities)
        && is_among(from.activities, activity)
        && !is_among(to.activities, activity)
        && from.most.saturating_sub(to.most) <= amount
}

/// Some activities take at most the capacity.
#[tactic(auto, using(crate::proofs::FormLemmas::form_rules))]
pub(crate) fn all(
    clauses: &mut Clauses<'_>,
    row: CapacityRow,
    share: Share,
) -> Result<(), AllocError>
    ensures { clauses.new ≡ clauses.old }
{
    let scope = clauses.scope();
    match row {
        CapacityRow::Use { resource, time }
            if resource < scope.project.renewables()
                && scope.project.capacity(resource) <= share.most => {
            clauses.add(&[use_within(resource, time, share)])
        }
        CapacityRow::Stock { resource }
            if resource < scope.project.nonrenewables()
                && scope.project.stock(resource) <= share.most => {
            clauses.add(&[stock_within(resource, share)])
        }
        _ => Ok(()),
    }
}

/// Fewer activities take no more.
#[tactic(auto, using(crate::proofs::FormLemmas::form_rules))]
pub(crate) fn fewer(
    clauses: &mut Clauses<'_>,
    row: CapacityRow,
    from: Share,
    to: Share,
) -> Result<(), AllocError>
    ensures { clauses.new ≡ clauses.old }
{
    if !is_part(to.activities, from.activities) || to.most < from.most {
        return Ok(());
    }
    match row {
        CapacityRow::Use { resource, time } => {
            let most = use_within(resource, time, from);
            clauses.add(&[!most, use_within(resource, time, to)])
        }
        CapacityRow::Stock { resource } => {
            let most = stock_within(resource, from);
            clauses.add(&[!most, stock_within(resource, to)])
        }
    }
}

/// What runs leaves the less to those below it, or cannot run.
#[tactic(auto, using(crate::proofs::FormLemmas::form_rules))]
fn use_run(
    clauses: &mut Clauses<'_>,
    resource: usize,
    time: u32,
    demand: Demand,
    descent: Descent,
) -> Result<(), AllocError>
    requires resource { resource < renewables clauses.old.project }
    requires activity { demand.activity < size clauses.old.project }
    requires mode { demand.mode < mode_count clauses.old.project demand.activity }
    ensures { clauses.new ≡ clauses.old }
{
    let scope = clauses.scope();
    let Demand { activity, mode, .. } = demand;
    let Descent { from, to } = descent;
    let request = scope.project.request(activity, mode, resource);
    let used = use_within(resource, time, from);
    let run = runs_at(activity, mode, time);
    match to {
        Some(to) if does_leave(from, to, activity, request) => {
            clauses.add(&[!used, !run, use_within(resource, time, to)])
        }
        None if from.most < request && is_among(from.activities, activity) => {
            clauses.add(&[!used, !run])
        }
        _ => Ok(()),
    }
}

/// An activity in this mode leaves the less to those below it, or cannot have the mode.
#[tactic(auto, using(crate::proofs::FormLemmas::form_rules))]
fn stock_mode(
    clauses: &mut Clauses<'_>,
    resource: usize,
    demand: Demand,
    descent: Descent,
) -> Result<(), AllocError>
    requires resource { resource < nonrenewables clauses.old.project }
    requires activity { demand.activity < size clauses.old.project }
    requires mode { demand.mode < mode_count clauses.old.project demand.activity }
    ensures { clauses.new ≡ clauses.old }
{
    let scope = clauses.scope();
    let Demand { activity, mode, .. } = demand;
    let Descent { from, to } = descent;
    let consumption = scope.project.consumption(activity, mode, resource);
    let consumed = stock_within(resource, from);
    let chosen = in_mode(activity, mode);
    match to {
        Some(to) if does_leave(from, to, activity, consumption) => {
            clauses.add(&[!consumed, !chosen, stock_within(resource, to)])
        }
        None if from.most < consumption && is_among(from.activities, activity) => {
            clauses.add(&[!consumed, !chosen])
        }
        _ => Ok(()),
    }
}

pub(crate) fn take(
    clauses: &mut Clauses<'_>,
    row: CapacityRow,
    demand: Demand,
    descent: Descent,
) -> Result<(), AllocError>
    ensures { clauses.new ≡ clauses.old }
{
    let scope = clauses.scope();
    let project = scope.project;
    if demand.activity >= project.size() || demand.mode >= project.mode_count(demand.activity) {
        return Ok(());
    }
    match row {
        CapacityRow::Use { resource, time } if resource < project.renewables() => {
            use_run(clauses, resource, time, demand, descent)
        }
        CapacityRow::Stock { resource } if resource < project.nonrenewables() => {
            stock_mode(clauses, resource, demand, descent)
        }
        _ => Ok(()),
    }
}
