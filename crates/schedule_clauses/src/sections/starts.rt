//! Clauses on starts, section by section. Which numbers are in a clause is a hint.
ghost use Rattle.std.specs.Prelude.{◌≡◌, ◌<◌};
ghost use Rattle.mrcpsp.specs.Project.{size};
ghost use Rattle.mrcpsp.specs.Values.{tail, shortest};
ghost use Rattle.measures.specs.Measures.{measures_of};

use crate::forms::starts::{end, later, latest, precedence, runs, shortest_precedence};
use crate::scope::Clauses;
use crate::windows::{StartWindow, Windows, least_of, rest_of, start_for};
use measures::Measures;
use mrcpsp::Project;
use std::alloc::AllocError;

fn order_clauses(
    clauses: &mut Clauses<'_>,
    activity: usize,
    window: StartWindow,
) -> Result<(), AllocError>
    ensures { clauses.new ≡ clauses.old }
{
    let before = window.first.saturating_sub(1);
    for time in before.min(window.last)..window.last.max(before) {
        later(clauses, activity, time, time + 1)?;
    }
    Ok(())
}

pub(crate) fn start_section(clauses: &mut Clauses<'_>, windows: &Windows) -> Result<(), AllocError>
    ensures { clauses.new ≡ clauses.old }
{
    let scope = clauses.scope();
    for activity in 0..scope.project.size() {
        order_clauses(clauses, activity, windows.of(activity))?;
    }
    Ok(())
}

fn end_clauses(
    clauses: &mut Clauses<'_>,
    windows: &Windows,
    activity: usize,
    rest: u32,
    least: u32,
) -> Result<(), AllocError>
    requires activity { activity < size clauses.old.project }
    requires rest { rest ≡ tail clauses.old.project activity }
    requires least { least ≡ shortest clauses.old.project activity }
    ensures { clauses.new ≡ clauses.old }
{
    let scope = clauses.scope();
    let window = windows.of(activity);
    latest(clauses, activity, window.last, rest, least)?;
    for mode in 0..scope.project.mode_count(activity) {
        let duration = scope.project.duration(activity, mode).saturating_add(rest);
        let by = start_for(windows.bound, duration, window.first);
        if by != Some(window.last) {
            end(clauses, activity, mode, by, rest)?;
        }
    }
    Ok(())
}

pub(crate) fn end_section(
    clauses: &mut Clauses<'_>,
    measures: &Measures,
    windows: &Windows,
) -> Result<(), AllocError>
    requires measures { measures.now ≡ measures_of clauses.old.project }
    ensures { clauses.new ≡ clauses.old }
{
    let scope = clauses.scope();
    for activity in 0..scope.project.size() {
        let rest = rest_of(scope.project, measures, activity);
        let least = least_of(scope.project, measures, activity);
        end_clauses(clauses, windows, activity, rest, least)?;
    }
    Ok(())
}

/// For each mode of `before`, and for the shortest.
fn time_clauses(
    clauses: &mut Clauses<'_>,
    window: StartWindow,
    before: usize,
    after: usize,
    time: u32,
    least: u32,
) -> Result<(), AllocError>
    requires before { before < size clauses.old.project }
    requires after { after < size clauses.old.project }
    requires least { least ≡ shortest clauses.old.project before }
    ensures { clauses.new ≡ clauses.old }
{
    let scope = clauses.scope();
    let by = start_for(time, least, window.first);
    if by.is_none() || by.unwrap_or(0) < window.last {
        shortest_precedence(clauses, before, after, time, by, least)?;
    }
    for mode in 0..scope.project.mode_count(before) {
        let duration = scope.project.duration(before, mode);
        let by = start_for(time, duration, window.first);
        if duration != least && (by.is_none() || by.unwrap_or(0) < window.last) {
            precedence(clauses, before, mode, after, time, by)?;
        }
    }
    Ok(())
}

fn precedence_clauses(
    clauses: &mut Clauses<'_>,
    windows: &Windows,
    before: usize,
    after: usize,
    least: u32,
) -> Result<(), AllocError>
    requires before { before < size clauses.old.project }
    requires after { after < size clauses.old.project }
    requires least { least ≡ shortest clauses.old.project before }
    ensures { clauses.new ≡ clauses.old }
{
    let window = windows.of(after);
    for time in window.first.saturating_sub(1)..window.last.saturating_add(1) {
        time_clauses(clauses, windows.of(before), before, after, time, least)?;
    }
    Ok(())
}

pub(crate) fn precedence_section(
    clauses: &mut Clauses<'_>,
    measures: &Measures,
    windows: &Windows,
) -> Result<(), AllocError>
    requires measures { measures.now ≡ measures_of clauses.old.project }
    ensures { clauses.new ≡ clauses.old }
{
    let scope = clauses.scope();
    for after in 0..scope.project.size() {
        for before in 0..after {
            if scope.project.precedes(before, after) {
                let least = least_of(scope.project, measures, before);
                precedence_clauses(clauses, windows, before, after, least)?;
            }
        }
    }
    Ok(())
}

fn does_use(project: &Project, activity: usize, mode: usize) -> bool {
    if activity >= project.size() || mode >= project.mode_count(activity) {
        return false;
    }
    for resource in 0..project.renewables() {
        if project.request(activity, mode, resource) > 0 {
            return true;
        }
    }
    false
}

/// Only for modes that use a renewable resource.
fn run_clauses(
    clauses: &mut Clauses<'_>,
    windows: &Windows,
    activity: usize,
) -> Result<(), AllocError>
    requires activity { activity < size clauses.old.project }
    ensures { clauses.new ≡ clauses.old }
{
    let scope = clauses.scope();
    let window = windows.of(activity);
    for mode in 0..scope.project.mode_count(activity) {
        let duration = scope.project.duration(activity, mode);
        if duration > 0 && does_use(scope.project, activity, mode) {
            let over = window.last.saturating_add(duration).min(windows.bound);
            for time in window.first..over {
                let begun = time.min(window.last);
                let by = start_for(time, duration, window.first);
                runs(clauses, activity, mode, begun, time, by)?;
            }
        }
    }
    Ok(())
}

pub(crate) fn run_section(clauses: &mut Clauses<'_>, windows: &Windows) -> Result<(), AllocError>
    ensures { clauses.new ≡ clauses.old }
{
    let scope = clauses.scope();
    for activity in 0..scope.project.size() {
        run_clauses(clauses, windows, activity)?;
    }
    Ok(())
}
