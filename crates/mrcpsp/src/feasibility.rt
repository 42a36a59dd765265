ghost use Rattle.std.specs.Prelude.{◌≡◌, ◌<◌, ◌↔◌, IsTrue, IsOk, IfOk, IfErr, IfNone};
ghost use Rattle.mrcpsp.specs.Project.{size};
ghost use Rattle.mrcpsp.specs.Schedule.{IsFeasible, makespan as greatest_finish};
ghost use Rattle.mrcpsp.specs.Breach.{HasShape, HasModes, TellsFirst, IsFirstBreach, IsFirstEarly, AreFinishes, IsLeastOverused, IsFirstOveruse};

use crate::{Breach, Fitting, MOST_ACTIVITIES, Project, Schedule};

/// The latest start of an activity in a schedule, as a period from 0.
pub const MOST_START: u32 = 1_000_000_000;

/// Returns the makespan of a feasible schedule in periods, or the first breach of another one. It
/// walks over starts, not over periods, and takes no memory.
pub fn check(project: &Project, schedule: &Schedule) -> Result<u32, Breach>
    ensures feasible { IsOk result ↔ (HasShape project.now schedule.now × IsFeasible project.now schedule.now) }
    ensures makespan { IfOk result (λ m. m ≡ greatest_finish project.now schedule.now) }
    ensures first { IfErr result (λ b. IsFirstBreach project.now schedule.now b) }
{
    if !has_shape(project, schedule) {
        return Err(Breach::Shape);
    }
    if let Some(breach) = missing_mode(project, schedule) {
        return Err(breach);
    }
    let fitting = Fitting { project, schedule };
    if let Some(breach) = broken_precedence(&fitting) {
        return Err(breach);
    }
    if let Some(breach) = overused_renewable(&fitting) {
        return Err(breach);
    }
    if let Some(breach) = overused_nonrenewable(&fitting) {
        return Err(breach);
    }
    Ok(fitting.makespan())
}

/// The latest finish of an activity, in periods.
pub fn makespan(project: &Project, schedule: &Schedule) -> u32
    requires shape { HasShape project.now schedule.now }
    requires modes { HasModes project.now schedule.now }
    ensures { result ≡ greatest_finish project.now schedule.now }
{
    Fitting { project, schedule }.makespan()
}

pub(crate) fn has_shape(project: &Project, schedule: &Schedule) -> bool
    ensures { IsTrue result ↔ HasShape project.now schedule.now }
{
    schedule.modes.as_slice().len() == project.size()
        && schedule.starts.as_slice().len() == project.size()
        && schedule
            .starts
            .as_slice()
            .iter()
            .all(|start| *start <= MOST_START)
}

#[tactic(auto, unfolding(crate::specs::Schedule::mode_of))]
pub(crate) fn missing_mode(project: &Project, schedule: &Schedule) -> Option<Breach>
    requires shape { HasShape project.now schedule.now }
    ensures first { TellsFirst 2 project.now schedule.now result }
    ensures modes { IfNone result (HasModes project.now schedule.now) }
{
    for activity in 0..project.size() {
        let number = schedule.mode(activity) as usize;
        if number == 0 || project.mode_count(activity) < number {
            return Some(Breach::Mode(activity as u32 + 1));
        }
    }
    None
}

fn early_successor(fitting: &Fitting<'_>, before: usize) -> Option<usize>
    requires activity { before < size fitting.now.project.now }
    ensures { IsFirstEarly fitting.now.project.now fitting.now.schedule.now before result }
{
    let size = fitting.project.size();
    let end = fitting.finish(before);
    let mut first = size;
    for successor in fitting.project.successors(before) {
        let after = *successor as usize - 1;
        if fitting.start(after) < end {
            first = first.min(after);
        }
    }
    if first < size { Some(first) } else { None }
}

fn broken_precedence(fitting: &Fitting<'_>) -> Option<Breach>
    ensures { TellsFirst 3 fitting.now.project.now fitting.now.schedule.now result }
{
    for before in 0..fitting.project.size() {
        if let Some(after) = early_successor(fitting, before) {
            return Some(Breach::Precedence(before as u32 + 1, after as u32 + 1));
        }
    }
    None
}

fn overused_in(
    fitting: &Fitting<'_>,
    finishes: &[u32; MOST_ACTIVITIES],
    period: u32,
) -> Option<usize>
    requires { AreFinishes fitting.now.project.now fitting.now.schedule.now finishes.now }
    ensures { IsLeastOverused fitting.now.project.now fitting.now.schedule.now period result }
{
    let uses = fitting.uses_at(finishes, period);
    for resource in 0..fitting.project.renewables() {
        if fitting.project.capacity(resource) < uses[resource] {
            return Some(resource);
        }
    }
    None
}

/// The use rises only at starts.
fn first_overuse(fitting: &Fitting<'_>) -> Option<(usize, u32)>
    ensures { IsFirstOveruse fitting.now.project.now fitting.now.schedule.now result }
{
    let finishes = fitting.finishes();
    let mut first: Option<(usize, u32)> = None;
    for activity in 0..fitting.project.size() {
        let start = fitting.start(activity);
        if let Some(resource) = overused_in(fitting, &finishes, start) {
            let is_earlier = first.is_none_or(|(least, period)| {
                resource < least || (resource == least && start < period)
            });
            if is_earlier {
                first = Some((resource, start));
            }
        }
    }
    first
}

fn overused_renewable(fitting: &Fitting<'_>) -> Option<Breach>
    ensures { TellsFirst 4 fitting.now.project.now fitting.now.schedule.now result }
{
    let (resource, period) = first_overuse(fitting)?;
    let renewables = fitting.project.renewables();
    prove!(resource < renewables);
    Some(Breach::Renewable(resource as u32 + 1, period))
}

fn overused_nonrenewable(fitting: &Fitting<'_>) -> Option<Breach>
    ensures { TellsFirst 5 fitting.now.project.now fitting.now.schedule.now result }
{
    for resource in 0..fitting.project.nonrenewables() {
        if u64::from(fitting.project.stock(resource)) < fitting.consumption(resource) {
            return Some(Breach::Nonrenewable(resource as u32 + 1));
        }
    }
    None
}
