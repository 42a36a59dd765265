//! The table of a feasible schedule.
ghost use Rattle.std.specs.Prelude.{◌≡◌, ◌++◌, ◌+◌, ◌<◌, ℕ, List, IfOk, is_none, string_bytes};
ghost use Rattle.mrcpsp.specs.Project.{size, renewables, nonrenewables, mode_count, request, consumption};
ghost use Rattle.mrcpsp.specs.Schedule.{IsFeasible};
ghost use Rattle.plan_cli.specs.Layout.{cell, title};
ghost use Rattle.plan_cli.specs.Table.{concat_below, predecessors, joined, is_empty, next_number, dash, last_cell, gap, numbers, rest, IsBare, IsLine, AreLines, first_titles, titles, IsTable};

use crate::layout::{Layout, put_cell, put_first, put_title};
use crate::slack::slack_of;
use mrcpsp::{Fitting, Project};
use std::alloc::{AllocError, Global};

/// An `Extra` is what a table has behind its numbers: a title, and a text for each activity, each
/// with what separates it.
#[derive(Debug, Drop)]
pub struct Extra {
    pub title: String,
    pub cells: Vec<String>,
}

fn put_requests(
    text: &mut String,
    layout: Layout,
    project: &Project,
    activity: usize,
    mode: usize,
) -> Result<(), AllocError>
    requires activity { activity < size project.now }
    requires mode { mode < mode_count project.now activity }
    ensures { IfOk result (λ _. string_bytes text.new
        ≡ string_bytes text.old ++ concat_below (λ r. cell layout (request project.now activity mode r)) (renewables project.now)) }
{
    for resource in 0..project.renewables() {
        put_cell(text, layout, project.request(activity, mode, resource))?;
    }
    Ok(())
}

fn put_consumptions(
    text: &mut String,
    layout: Layout,
    project: &Project,
    activity: usize,
    mode: usize,
) -> Result<(), AllocError>
    requires activity { activity < size project.now }
    requires mode { mode < mode_count project.now activity }
    ensures { IfOk result (λ _. string_bytes text.new
        ≡ string_bytes text.old ++ concat_below (λ r. cell layout (consumption project.now activity mode r)) (nonrenewables project.now)) }
{
    for resource in 0..project.nonrenewables() {
        put_cell(text, layout, project.consumption(activity, mode, resource))?;
    }
    Ok(())
}

/// Adds a number of a list.
fn put_number(text: &mut String, is_first: bool, number: u32) -> Result<(), AllocError>
    ensures { IfOk result (λ _. string_bytes text.new ≡ string_bytes text.old ++ next_number is_first number) }
{
    if !is_first {
        text.push(';')?;
    }
    write!(text, "{number}")?;
    Ok(())
}

/// Returns whether there is none.
fn put_predecessors(
    text: &mut String,
    project: &Project,
    activity: usize,
) -> Result<bool, AllocError>
    requires { activity < size project.now }
    ensures text { IfOk result (λ _. string_bytes text.new
        ≡ string_bytes text.old ++ joined (predecessors project.now activity (size project.now))) }
    ensures none { IfOk result (λ none. none ≡ is_empty (predecessors project.now activity (size project.now))) }
{
    let mut is_first = true;
    for before in 0..project.size() {
        if project.precedes(before, activity) {
            put_number(text, is_first, before as u32 + 1)?;
            is_first = false;
        }
    }
    Ok(is_first)
}

fn put_dash(text: &mut String, layout: Layout, is_none: bool) -> Result<(), AllocError>
    ensures { IfOk result (λ _. string_bytes text.new ≡ string_bytes text.old ++ dash layout is_none) }
{
    if layout == Layout::Columns && is_none {
        text.push_str("-")?;
    }
    Ok(())
}

fn put_last(
    text: &mut String,
    layout: Layout,
    project: &Project,
    activity: usize,
) -> Result<(), AllocError>
    requires { activity < size project.now }
    ensures { IfOk result (λ _. string_bytes text.new ≡ string_bytes text.old ++ last_cell layout project.now activity) }
{
    let is_none = put_predecessors(text, project, activity)?;
    put_dash(text, layout, is_none)?;
    Ok(())
}

fn put_gap(text: &mut String, layout: Layout) -> Result<(), AllocError>
    ensures { IfOk result (λ _. string_bytes text.new ≡ string_bytes text.old ++ gap layout) }
{
    match layout {
        Layout::Columns => text.push_str("  "),
        Layout::Csv => text.push(','),
    }
}

fn put_numbers(
    text: &mut String,
    layout: Layout,
    fitting: &Fitting<'_>,
    activity: usize,
    slack: u32,
) -> Result<(), AllocError>
    requires activity { activity < size fitting.now.project.now }
    ensures { IfOk result (λ _. string_bytes text.new
        ≡ string_bytes text.old ++ numbers layout fitting.now.project.now fitting.now.schedule.now activity slack) }
{
    let mode = fitting.mode_place(activity);
    let size = fitting.project.size();
    prove!(activity < size);
    put_first(text, layout, activity + 1)?;
    put_cell(text, layout, fitting.mode(activity))?;
    put_cell(text, layout, fitting.start(activity))?;
    put_cell(text, layout, fitting.finish(activity))?;
    put_cell(text, layout, slack)?;
    put_requests(text, layout, fitting.project, activity, mode)?;
    put_consumptions(text, layout, fitting.project, activity, mode)?;
    Ok(())
}

fn title_of(extra: Option<&Extra>) -> &str
    ensures { IsBare (is_none extra.entry) result.now }
{
    match extra {
        Some(extra) => extra.title.as_str(),
        None => "",
    }
}

fn more_of(extra: Option<&Extra>, activity: usize) -> &str
    ensures { IsBare (is_none extra.entry) result.now }
{
    let Some(extra) = extra else {
        return "";
    };
    match extra.cells.get(activity) {
        Some(cell) => cell.as_str(),
        None => "",
    }
}

fn put_rest(
    text: &mut String,
    layout: Layout,
    project: &Project,
    activity: usize,
    more: &str,
) -> Result<(), AllocError>
    requires { activity < size project.now }
    ensures { IfOk result (λ _. string_bytes text.new ≡ string_bytes text.old ++ rest layout project.now activity more.now) }
{
    text.push_str(more)?;
    put_gap(text, layout)?;
    put_last(text, layout, project, activity)?;
    text.push_str("\n")?;
    Ok(())
}

fn put_line(
    text: &mut String,
    layout: Layout,
    fitting: &Fitting<'_>,
    activity: usize,
    more: &str,
) -> Result<(), AllocError>
    requires feasible { IsFeasible fitting.now.project.now fitting.now.schedule.now }
    requires activity { activity < size fitting.now.project.now }
    ensures { IfOk result (λ _. (line : List ℕ)
        × IsLine layout fitting.now.project.now fitting.now.schedule.now activity more.now line × (string_bytes text.new ≡ string_bytes text.old ++ line)) }
{
    let slack = slack_of(fitting, activity);
    put_numbers(text, layout, fitting, activity, slack)?;
    put_rest(text, layout, fitting.project, activity, more)?;
    Ok(())
}

fn put_first_titles(text: &mut String, layout: Layout) -> Result<(), AllocError>
    ensures { IfOk result (λ _. string_bytes text.new ≡ string_bytes text.old ++ first_titles layout) }
{
    match layout {
        Layout::Columns => text.push_str("activity   mode  start finish  slack"),
        Layout::Csv => text.push_str("activity,mode,start,finish,slack"),
    }
}

fn put_renewable_titles(
    text: &mut String,
    layout: Layout,
    project: &Project,
) -> Result<(), AllocError>
    ensures { IfOk result (λ _. string_bytes text.new
        ≡ string_bytes text.old ++ concat_below (λ r. title layout 82 (r + 1)) (renewables project.now)) }
{
    for resource in 0..project.renewables() {
        put_title(text, layout, 'R', resource)?;
    }
    Ok(())
}

fn put_nonrenewable_titles(
    text: &mut String,
    layout: Layout,
    project: &Project,
) -> Result<(), AllocError>
    ensures { IfOk result (λ _. string_bytes text.new
        ≡ string_bytes text.old ++ concat_below (λ r. title layout 78 (r + 1)) (nonrenewables project.now)) }
{
    for resource in 0..project.nonrenewables() {
        put_title(text, layout, 'N', resource)?;
    }
    Ok(())
}

fn put_titles(
    text: &mut String,
    layout: Layout,
    project: &Project,
    more: &str,
) -> Result<(), AllocError>
    ensures { IfOk result (λ _. string_bytes text.new ≡ string_bytes text.old ++ titles layout project.now more.now) }
{
    put_first_titles(text, layout)?;
    put_renewable_titles(text, layout, project)?;
    put_nonrenewable_titles(text, layout, project)?;
    text.push_str(more)?;
    put_gap(text, layout)?;
    text.push_str("predecessors\n")?;
    Ok(())
}

fn put_lines(
    text: &mut String,
    layout: Layout,
    fitting: &Fitting<'_>,
    extra: Option<&Extra>,
) -> Result<(), AllocError>
    requires feasible { IsFeasible fitting.now.project.now fitting.now.schedule.now }
    ensures { IfOk result (λ _. (lines : List ℕ)
        × AreLines layout fitting.now.project.now fitting.now.schedule.now (is_none extra.entry) (size fitting.now.project.now) lines
        × (string_bytes text.new ≡ string_bytes text.old ++ lines)) }
{
    for activity in 0..fitting.project.size() {
        put_line(text, layout, fitting, activity, more_of(extra, activity))?;
    }
    Ok(())
}

/// Returns the table of a feasible schedule: a line of titles and a line for each activity, with
/// what `extra` has before the last column, if it is asked for. An error is want of memory.
pub fn table(
    alloc: Global,
    layout: Layout,
    fitting: &Fitting<'_>,
    extra: Option<&Extra>,
) -> Result<String, AllocError>
    requires feasible { IsFeasible fitting.now.project.now fitting.now.schedule.now }
    ensures { IfOk result (λ text. IsTable layout fitting.now.project.now fitting.now.schedule.now (is_none extra.entry) (string_bytes text)) }
{
    let mut text = String::new(alloc);
    put_titles(&mut text, layout, fitting.project, title_of(extra))?;
    put_lines(&mut text, layout, fitting, extra)?;
    Ok(text)
}
