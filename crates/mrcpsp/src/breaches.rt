//! All breaches of a schedule, not its first one alone.
ghost use Rattle.std.specs.Prelude.{◌≡◌, ◌<◌, ◌+◌, ◌-◌, ◌++◌, ◌||◌, ◌==◌, nat_lt, IfOk, length, get_or, map, filter};
ghost use Rattle.std.specs.List.{range_with_len, flat_map};
ghost use Rattle.mrcpsp.specs.Project.{size, renewables, nonrenewables};
ghost use Rattle.mrcpsp.specs.Breach.{HasShape, AreFinishes};
ghost use Rattle.mrcpsp.specs.Breaches.{breaches_in, missing_modes, early_after, overuse_of, short_stocks, start_periods, is_modeless as has_no_mode, is_early as starts_early, is_overused as is_over, is_short as falls_short};
ghost use Rattle.mrcpsp.specs.declared.breach.Breach.TheVariants.{Renewable};

use crate::feasibility::has_shape;
use crate::{Breach, Fitting, MOST_ACTIVITIES, MOST_RESOURCES, Project, Schedule};
use std::alloc::{AllocError, Global};

fn is_modeless(project: &Project, schedule: &Schedule, activity: usize) -> bool
    requires shape { HasShape project.now schedule.now }
    requires activity { activity < size project.now }
    ensures { result ≡ has_no_mode project.now schedule.now activity }
{
    let number = schedule.mode(activity) as usize;
    number == 0 || project.mode_count(activity) < number
}

fn is_early(fitting: &Fitting<'_>, before: usize, after: usize) -> bool
    requires before { before < size fitting.now.project.now }
    requires after { after < size fitting.now.project.now }
    ensures { result ≡ starts_early fitting.now.project.now fitting.now.schedule.now before after }
{
    fitting.start(after) < fitting.finish(before) && fitting.project.precedes(before, after)
}

fn is_overused(
    fitting: &Fitting<'_>,
    finishes: &[u32; MOST_ACTIVITIES],
    resource: usize,
    period: u32,
) -> bool
    requires finishes { AreFinishes fitting.now.project.now fitting.now.schedule.now finishes.now }
    requires resource { resource < renewables fitting.now.project.now }
    ensures { result ≡ is_over fitting.now.project.now fitting.now.schedule.now resource period }
{
    u64::from(fitting.project.capacity(resource)) < fitting.use_at(finishes, resource, period)
}

fn is_short(fitting: &Fitting<'_>, resource: usize) -> bool
    requires resource { resource < nonrenewables fitting.now.project.now }
    ensures { result ≡ falls_short fitting.now.project.now fitting.now.schedule.now resource }
{
    u64::from(fitting.project.stock(resource)) < fitting.consumption(resource)
}

fn push_modes(
    told: &mut Vec<Breach>,
    project: &Project,
    schedule: &Schedule,
) -> Result<(), AllocError>
    requires shape { HasShape project.now schedule.now }
    ensures { IfOk result (λ _.
        told.new.items ≡ told.old.items ++ missing_modes project.now schedule.now) }
{
    for activity in 0..project.size() {
        if is_modeless(project, schedule, activity) {
            told.push(Breach::Mode(activity as u32 + 1))?;
        }
    }
    Ok(())
}

fn push_early(
    told: &mut Vec<Breach>,
    fitting: &Fitting<'_>,
    before: usize,
) -> Result<(), AllocError>
    requires before { before < size fitting.now.project.now }
    ensures { IfOk result (λ _.
        told.new.items ≡ told.old.items ++ early_after fitting.now.project.now fitting.now.schedule.now before) }
{
    for after in 0..fitting.project.size() {
        if is_early(fitting, before, after) {
            told.push(Breach::Precedence(before as u32 + 1, after as u32 + 1))?;
        }
    }
    Ok(())
}

fn push_overused(
    told: &mut Vec<Breach>,
    fitting: &Fitting<'_>,
    finishes: &[u32; MOST_ACTIVITIES],
    resource: usize,
    periods: &[u32],
) -> Result<(), AllocError>
    requires finishes { AreFinishes fitting.now.project.now fitting.now.schedule.now finishes.now }
    requires resource { resource < renewables fitting.now.project.now }
    requires few { resource < MOST_RESOURCES }
    ensures { IfOk result (λ _. told.new.items ≡ told.old.items
        ++ map (Renewable (resource + 1)) (filter (is_over fitting.now.project.now fitting.now.schedule.now resource) periods.now)) }
{
    for period in periods {
        if is_overused(fitting, finishes, resource, *period) {
            told.push(Breach::Renewable(resource as u32 + 1, *period))?;
        }
    }
    Ok(())
}

fn push_short(told: &mut Vec<Breach>, fitting: &Fitting<'_>) -> Result<(), AllocError>
    ensures { IfOk result (λ _.
        told.new.items ≡ told.old.items ++ short_stocks fitting.now.project.now fitting.now.schedule.now) }
{
    for resource in 0..fitting.project.nonrenewables() {
        if is_short(fitting, resource) {
            told.push(Breach::Nonrenewable(resource as u32 + 1))?;
        }
    }
    Ok(())
}

/// Whether it differs from the start before it.
fn is_first(starts: &[u32], at: usize) -> bool
    requires { at < length starts.now }
    ensures { result ≡ ((at == 0) || nat_lt (get_or starts.now (at - 1) 0) (get_or starts.now at 0)) }
{
    at == 0 || starts[at - 1] < starts[at]
}

/// The periods in which an activity starts, in order and each once.
fn periods_of(alloc: Global, schedule: &Schedule) -> Result<Vec<u32>, AllocError>
    ensures { IfOk result (λ periods. periods.items ≡ start_periods schedule.now) }
{
    let mut starts = Vec::from_slice(alloc, schedule.starts.as_slice())?;
    starts.sort()?;
    let mut periods = Vec::new(alloc);
    for at in 0..starts.len() {
        if is_first(&starts, at) {
            periods.push(starts[at])?;
        }
    }
    Ok(periods)
}

fn push_all_early(told: &mut Vec<Breach>, fitting: &Fitting<'_>) -> Result<(), AllocError>
    ensures { IfOk result (λ _. told.new.items ≡ told.old.items
        ++ flat_map (early_after fitting.now.project.now fitting.now.schedule.now) (range_with_len 0 (size fitting.now.project.now))) }
{
    for before in 0..fitting.project.size() {
        push_early(told, fitting, before)?;
    }
    Ok(())
}

fn push_all_overused(
    told: &mut Vec<Breach>,
    fitting: &Fitting<'_>,
    periods: &[u32],
) -> Result<(), AllocError>
    requires periods { periods.now ≡ start_periods fitting.now.schedule.now }
    ensures { IfOk result (λ _. told.new.items ≡ told.old.items
        ++ flat_map (overuse_of fitting.now.project.now fitting.now.schedule.now) (range_with_len 0 (renewables fitting.now.project.now))) }
{
    let finishes = fitting.finishes();
    for resource in 0..fitting.project.renewables() {
        push_overused(told, fitting, &finishes, resource, periods)?;
    }
    Ok(())
}

/// Returns all breaches, in the order of kinds and numbers: the shape alone, or else modes alone,
/// or else precedences and resources. A renewable resource is listed in each period in which it is
/// overused and an activity starts; each other period of overuse has such a period before it. It
/// fails only without memory.
pub fn breaches_of(
    alloc: Global,
    project: &Project,
    schedule: &Schedule,
) -> Result<Vec<Breach>, AllocError>
    ensures { IfOk result (λ told. told.items ≡ breaches_in project.now schedule.now) }
{
    let mut told = Vec::new(alloc);
    if !has_shape(project, schedule) {
        told.push(Breach::Shape)?;
        return Ok(told);
    }
    push_modes(&mut told, project, schedule)?;
    if !told.as_slice().is_empty() {
        return Ok(told);
    }
    let fitting = Fitting { project, schedule };
    let periods = periods_of(alloc, schedule)?;
    push_all_early(&mut told, &fitting)?;
    push_all_overused(&mut told, &fitting, &periods)?;
    push_short(&mut told, &fitting)?;
    Ok(told)
}
