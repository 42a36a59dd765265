//! What is written of a file and its schedules.
ghost use Rattle.std.specs.Prelude.{◌≡◌, ◌<◌, ◌&&◌, IfOk, IfErr, is_none, string_bytes};
ghost use Rattle.mrcpsp.specs.Project.{size};
ghost use Rattle.mrcpsp.specs.Schedule.{IsFeasible};
ghost use Rattle.plan_cli.specs.Plan.{IsAtFault};
ghost use Rattle.plan_cli.specs.Table.{IsTable};
ghost use Rattle.plan_cli.specs.Shown.{IsShown, IsComparison, IsCompareFault};

use crate::differences::moves;
use crate::labels::{longest, put_date_titles, put_moment, put_name};
use crate::layout::Layout;
use crate::plan::{PlanFault, read_plan};
use crate::schedule_table::{Extra, table};
use mrcpsp::Fitting;
use psplib_mm::read;
use schedule_labels::{ActivityName, Calendar, name_at};
use std::alloc::{AllocError, Global};
use thiserror::Error;

/// A `ShowOptions` is the form of a table, and its dates and names.
#[derive(Clone, Copy)]
pub struct ShowOptions<'a> {
    pub layout: Layout,
    pub calendar: Option<Calendar>,
    pub names: Option<&'a [ActivityName]>,
}

/// A `CompareFault` is why two schedules of a file are not compared: of the file and the first
/// text, or of the second text.
#[derive(Clone, Copy, Debug, PartialEq, Eq, Error)]
pub enum CompareFault {
    #[error("{0}")]
    First(PlanFault),
    #[error("second schedule: {0}")]
    Second(PlanFault),
}

fn extra_titles(alloc: Global, asked: &ShowOptions<'_>) -> Result<String, AllocError> {
    let mut text = String::new(alloc);
    if let Some(calendar) = &asked.calendar {
        put_date_titles(&mut text, asked.layout, calendar)?;
    }
    if let Some(names) = asked.names {
        put_name(alloc, &mut text, asked.layout, longest(names), "name")?;
    }
    Ok(text)
}

fn extra_cell(
    alloc: Global,
    fitting: &Fitting<'_>,
    activity: usize,
    asked: &ShowOptions<'_>,
) -> Result<String, AllocError>
    requires activity { activity < size fitting.now.project.now }
{
    let mut text = String::new(alloc);
    let (start, finish) = (fitting.start(activity), fitting.finish(activity));
    let size = fitting.project.size();
    prove!(activity < size);
    if let Some(calendar) = &asked.calendar {
        put_moment(&mut text, asked.layout, calendar, start)?;
        put_moment(&mut text, asked.layout, calendar, finish)?;
    }
    if let Some(names) = asked.names {
        let name = name_at(names, activity + 1);
        put_name(alloc, &mut text, asked.layout, longest(names), name)?;
    }
    Ok(text)
}

fn extra_of(
    alloc: Global,
    fitting: &Fitting<'_>,
    asked: &ShowOptions<'_>,
) -> Result<Extra, AllocError> {
    let mut cells = Vec::new(alloc);
    for activity in 0..fitting.project.size() {
        cells.push(extra_cell(alloc, fitting, activity, asked)?)?;
    }
    Ok(Extra {
        title: extra_titles(alloc, asked)?,
        cells,
    })
}

fn extra_if(
    alloc: Global,
    fitting: &Fitting<'_>,
    asked: &ShowOptions<'_>,
) -> Result<Option<Extra>, AllocError>
    ensures { IfOk result (λ extra. is_none extra ≡ (is_none asked.now.calendar && is_none asked.now.names)) }
{
    if asked.calendar.is_none() && asked.names.is_none() {
        return Ok(None);
    }
    Ok(Some(extra_of(alloc, fitting, asked)?))
}

fn tabled(
    alloc: Global,
    fitting: &Fitting<'_>,
    asked: &ShowOptions<'_>,
) -> Result<String, AllocError>
    requires feasible { IsFeasible fitting.now.project.now fitting.now.schedule.now }
    ensures { IfOk result (λ text. IsTable asked.now.layout fitting.now.project.now fitting.now.schedule.now (is_none asked.now.calendar && is_none asked.now.names) (string_bytes text)) }
{
    match extra_if(alloc, fitting, asked)? {
        Some(extra) => table(alloc, asked.layout, fitting, Some(&extra)),
        None => table(alloc, asked.layout, fitting, None),
    }
}

/// The table of the feasible schedule that `text` has of the project of `file`. Fails with the
/// first fault, in the order of file, text and schedule.
pub fn show(
    alloc: Global,
    file: &[u8],
    text: &[u8],
    asked: &ShowOptions<'_>,
) -> Result<String, PlanFault>
    ensures table { IfOk result (λ shown. IsShown asked.now.layout (is_none asked.now.calendar && is_none asked.now.names) file.now text.now (string_bytes shown)) }
    ensures fault { IfErr result (λ fault. IsAtFault file.now text.now fault) }
{
    let project = match read(alloc, file) {
        Ok(project) => project,
        Err(fault) => return Err(PlanFault::File(fault)),
    };
    let plan = match read_plan(alloc, &project, text) {
        Ok(plan) => plan,
        Err(fault) => return Err(fault),
    };
    if let Some(breach) = plan.breach {
        return Err(PlanFault::Breach(breach));
    }
    let fitting = Fitting {
        project: &project,
        schedule: &plan.schedule,
    };
    match tabled(alloc, &fitting, asked) {
        Ok(shown) => Ok(shown),
        Err(_) => Err(PlanFault::NoMemory),
    }
}

/// What differs between the schedules of two texts, each of the project of `file`. They may be not
/// feasible. Fails with the first fault, in the order of file, first text and second text.
pub fn compare(
    alloc: Global,
    file: &[u8],
    text: &[u8],
    other: &[u8],
) -> Result<String, CompareFault>
    ensures told { IfOk result (λ told. IsComparison file.now text.now other.now (string_bytes told)) }
    ensures fault { IfErr result (λ fault. IsCompareFault file.now text.now other.now fault) }
{
    let project = match read(alloc, file) {
        Ok(project) => project,
        Err(fault) => return Err(CompareFault::First(PlanFault::File(fault))),
    };
    let before = match read_plan(alloc, &project, text) {
        Ok(plan) => plan,
        Err(fault) => return Err(CompareFault::First(fault)),
    };
    let after = match read_plan(alloc, &project, other) {
        Ok(plan) => plan,
        Err(PlanFault::NoMemory) => return Err(CompareFault::First(PlanFault::NoMemory)),
        Err(fault) => return Err(CompareFault::Second(fault)),
    };
    let breaches = (before.breach, after.breach);
    let first = Fitting {
        project: &project,
        schedule: &before.schedule,
    };
    let second = Fitting {
        project: &project,
        schedule: &after.schedule,
    };
    match moves(alloc, &first, &second, breaches) {
        Ok(told) => Ok(told),
        Err(_) => Err(CompareFault::First(PlanFault::NoMemory)),
    }
}
