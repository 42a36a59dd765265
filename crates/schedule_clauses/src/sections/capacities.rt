//! Clauses on modes and capacities, section by section. Which numbers are in a clause is a hint.
ghost use Rattle.std.specs.Prelude.{◌≡◌, ◌+◌, ◌<◌, [], IfOk, Some};
ghost use Rattle.mrcpsp.specs.Project.{size, mode_count, renewables};
ghost use Rattle.schedule_clauses.specs.LeftOut.{AreBefore, KeepsSections};

use crate::chains::Chains;
use crate::diagram::rows::{ClauseBudget, row_clauses};
use crate::diagram::{Demand, Diagram};
use crate::forms::modes::{exclude, executable, modes};
use crate::formula::CapacityRow;
use crate::scope::Clauses;
use crate::windows::Windows;
use mrcpsp::Project;
use std::alloc::{AllocError, Global};

fn executable_clauses(
    clauses: &mut Clauses<'_>,
    activity: usize,
    mode: usize,
) -> Result<(), AllocError>
    requires activity { activity < size clauses.old.project }
    requires mode { mode < mode_count clauses.old.project activity }
    ensures { clauses.new ≡ clauses.old }
{
    let scope = clauses.scope();
    for resource in 0..scope.project.renewables() {
        executable(clauses, activity, mode, resource)?;
    }
    Ok(())
}

fn mode_clauses(clauses: &mut Clauses<'_>, activity: usize) -> Result<(), AllocError>
    requires activity { activity < size clauses.old.project }
    ensures { clauses.new ≡ clauses.old }
{
    let scope = clauses.scope();
    modes(clauses, activity)?;
    for mode in 0..scope.project.mode_count(activity) {
        executable_clauses(clauses, activity, mode)?;
        for other in 0..mode {
            exclude(clauses, activity, mode, other)?;
        }
    }
    Ok(())
}

pub(crate) fn mode_section(clauses: &mut Clauses<'_>) -> Result<(), AllocError>
    ensures { clauses.new ≡ clauses.old }
{
    let scope = clauses.scope();
    for activity in 0..scope.project.size() {
        mode_clauses(clauses, activity)?;
    }
    Ok(())
}

fn use_demands(
    alloc: Global,
    project: &Project,
    windows: &Windows,
    resource: usize,
    time: u32,
) -> Result<Vec<Demand>, AllocError> {
    let mut demands = Vec::new(alloc);
    if resource >= project.renewables() {
        return Ok(demands);
    }
    for activity in 0..project.size() {
        let window = windows.of(activity);
        for mode in 0..project.mode_count(activity) {
            let amount = project.request(activity, mode, resource);
            let over = window.last.saturating_add(project.duration(activity, mode));
            if amount > 0 && window.first <= time && time < over {
                demands.push(Demand {
                    level: activity,
                    activity,
                    mode,
                    amount,
                })?;
            }
        }
    }
    Ok(demands)
}

fn stock_demands(
    alloc: Global,
    project: &Project,
    resource: usize,
) -> Result<Vec<Demand>, AllocError> {
    let mut demands = Vec::new(alloc);
    if resource >= project.nonrenewables() {
        return Ok(demands);
    }
    for activity in 0..project.size() {
        for mode in 0..project.mode_count(activity) {
            let amount = project.consumption(activity, mode, resource);
            if amount > 0 {
                demands.push(Demand {
                    level: activity,
                    activity,
                    mode,
                    amount,
                })?;
            }
        }
    }
    Ok(demands)
}

/// A chain of activities is a level. Periods in which equal modes can run share their diagram.
#[tactic(auto, using(crate::proofs::LeftOutLemmas::row_rules))]
fn use_section(
    clauses: &mut Clauses<'_>,
    windows: &Windows,
    chains: &Chains,
    resource: usize,
    budget: &mut ClauseBudget,
) -> Result<(), AllocError>
    requires resource { resource < renewables clauses.old.project }
    requires bound { clauses.old.limit ≡ Some windows.now.bound }
    requires before { AreBefore clauses.old.left_out (CapacityRow.Use resource 0) }
    ensures keeps { IfOk result (λ _. KeepsSections clauses.old clauses.new) }
    ensures before { IfOk result (λ _.
        AreBefore clauses.new.left_out (CapacityRow.Use (resource + 1) 0)) }
{
    let scope = clauses.scope();
    let project = scope.project;
    let alloc = clauses.alloc();
    let capacity = project.capacity(resource);
    let mut diagram = Diagram::new(alloc, capacity, Vec::new(alloc), 0)?;
    for time in 0..windows.bound {
        let demands = use_demands(alloc, project, windows, resource, time)?;
        let demands = chains.in_levels(alloc, demands)?;
        if !diagram.is_of(&demands) {
            diagram = Diagram::new(alloc, capacity, demands, budget.most())?;
        }
        let row = CapacityRow::Use { resource, time };
        row_clauses(clauses, row, &diagram, budget)?;
    }
    Ok(())
}

#[tactic(auto, using(crate::proofs::LeftOutLemmas::row_rules))]
pub(crate) fn renewable_section(
    clauses: &mut Clauses<'_>,
    windows: &Windows,
) -> Result<(), AllocError>
    requires bound { clauses.old.limit ≡ Some windows.now.bound }
    requires none { clauses.old.left_out ≡ [] }
    ensures keeps { IfOk result (λ _. KeepsSections clauses.old clauses.new) }
    ensures before { IfOk result (λ _. AreBefore clauses.new.left_out (CapacityRow.Stock 0)) }
{
    let scope = clauses.scope();
    let resources = scope.project.renewables();
    let mut budget = ClauseBudget::of(resources.saturating_mul(windows.bound as usize));
    let chains = Chains::new(clauses.alloc(), scope.project)?;
    for resource in 0..resources {
        use_section(clauses, windows, &chains, resource, &mut budget)?;
    }
    Ok(())
}

#[tactic(auto, using(crate::proofs::LeftOutLemmas::row_rules))]
pub(crate) fn nonrenewable_section(clauses: &mut Clauses<'_>) -> Result<(), AllocError>
    requires { AreBefore clauses.old.left_out (CapacityRow.Stock 0) }
    ensures { IfOk result (λ _. KeepsSections clauses.old clauses.new) }
{
    let scope = clauses.scope();
    let project = scope.project;
    let mut budget = ClauseBudget::of(project.nonrenewables());
    for resource in 0..project.nonrenewables() {
        let demands = stock_demands(clauses.alloc(), project, resource)?;
        let stock = project.stock(resource);
        let diagram = Diagram::new(clauses.alloc(), stock, demands, budget.most())?;
        let row = CapacityRow::Stock { resource };
        row_clauses(clauses, row, &diagram, &mut budget)?;
    }
    Ok(())
}
