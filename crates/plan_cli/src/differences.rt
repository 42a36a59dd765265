//! What differs between two schedules of a project.
ghost use Rattle.std.specs.Prelude.{◌≡◌, ◌++◌, ◌+◌, ◌<◌, ◌^◌, IfOk, string_bytes};
ghost use Rattle.mrcpsp.specs.Numbers.{count_below};
ghost use Rattle.mrcpsp.specs.Project.{size, nonrenewables};
ghost use Rattle.plan_cli.specs.Table.{concat_below};
ghost use Rattle.plan_cli.specs.Moves.{verdict_text, plan_line, is_moved, change_line, move_line, cost_line, count_line, plan_lines, moves_text};

use mrcpsp::{Breach, Fitting};
use std::alloc::{AllocError, Global};

fn put_verdict(text: &mut String, breach: Option<Breach>) -> Result<(), AllocError>
    ensures { IfOk result (λ _. string_bytes text.new ≡ string_bytes text.old ++ verdict_text breach) }
{
    match breach {
        Some(breach) => write!(text, "breach {breach}")?,
        None => text.push_str("feasible")?,
    }
    Ok(())
}

fn put_plan(
    text: &mut String,
    name: &str,
    fitting: &Fitting<'_>,
    breach: Option<Breach>,
) -> Result<(), AllocError>
    ensures { IfOk result (λ _. string_bytes text.new
        ≡ string_bytes text.old ++ plan_line name.now fitting.now.project.now fitting.now.schedule.now breach) }
{
    let length = fitting.makespan();
    write!(text, "{name} makespan {length} ")?;
    put_verdict(text, breach)?;
    text.push('\n')
}

fn has_moved(before: &Fitting<'_>, after: &Fitting<'_>, activity: usize) -> bool
    requires activity { activity < size before.now.project.now }
    requires other { activity < size after.now.project.now }
    ensures { result ≡ is_moved before.now.schedule.now after.now.schedule.now activity }
{
    !(before.mode(activity) == after.mode(activity)
        && before.start(activity) == after.start(activity))
}

fn put_change(
    text: &mut String,
    before: &Fitting<'_>,
    after: &Fitting<'_>,
    activity: usize,
) -> Result<(), AllocError>
    requires activity { activity < size before.now.project.now }
    requires other { activity < size after.now.project.now }
    requires few { activity + 1 < 2 ^ 64 }
    ensures { IfOk result (λ _. string_bytes text.new ≡ string_bytes text.old ++ change_line before.now.schedule.now after.now.schedule.now activity) }
{
    let number = activity + 1;
    let mode = before.mode(activity);
    let start = before.start(activity);
    let new_mode = after.mode(activity);
    let new_start = after.start(activity);
    write!(
        text,
        "activity {number} mode {mode} start {start} -> mode {new_mode} start {new_start}\n"
    )?;
    Ok(())
}

fn put_move(
    text: &mut String,
    before: &Fitting<'_>,
    after: &Fitting<'_>,
    activity: usize,
) -> Result<(), AllocError>
    requires activity { activity < size before.now.project.now }
    requires other { activity < size after.now.project.now }
    requires few { activity + 1 < 2 ^ 64 }
    ensures { IfOk result (λ _. string_bytes text.new ≡ string_bytes text.old ++ move_line before.now.schedule.now after.now.schedule.now activity) }
{
    if has_moved(before, after, activity) {
        put_change(text, before, after, activity)?;
    }
    Ok(())
}

fn put_moves(text: &mut String, before: &Fitting<'_>, after: &Fitting<'_>) -> Result<(), AllocError>
    requires { before.now.project.now ≡ after.now.project.now }
    ensures { IfOk result (λ _. string_bytes text.new
        ≡ string_bytes text.old ++ concat_below (move_line before.now.schedule.now after.now.schedule.now) (size before.now.project.now)) }
{
    for activity in 0..before.project.size() {
        put_move(text, before, after, activity)?;
    }
    Ok(())
}

#[tactic(auto, unfolding(mrcpsp::specs::Numbers::count_below))]
fn moved(before: &Fitting<'_>, after: &Fitting<'_>) -> usize
    requires { before.now.project.now ≡ after.now.project.now }
    ensures { result ≡ count_below (is_moved before.now.schedule.now after.now.schedule.now) (size before.now.project.now) }
{
    let mut count = 0usize;
    for activity in 0..before.project.size() {
        if has_moved(before, after, activity) {
            count += 1;
        }
    }
    count
}

fn put_costs(text: &mut String, before: &Fitting<'_>, after: &Fitting<'_>) -> Result<(), AllocError>
    requires { before.now.project.now ≡ after.now.project.now }
    ensures { IfOk result (λ _. string_bytes text.new
        ≡ string_bytes text.old ++ concat_below (cost_line before.now.project.now before.now.schedule.now after.now.schedule.now) (nonrenewables before.now.project.now)) }
{
    for resource in 0..before.project.nonrenewables() {
        let number = resource + 1;
        let was = before.consumption(resource);
        let is = after.consumption(resource);
        write!(text, "consumed N{number} {was} -> {is}\n")?;
    }
    Ok(())
}

fn put_count(text: &mut String, before: &Fitting<'_>, after: &Fitting<'_>) -> Result<(), AllocError>
    requires { before.now.project.now ≡ after.now.project.now }
    ensures { IfOk result (λ _. string_bytes text.new ≡ string_bytes text.old ++ count_line before.now.project.now before.now.schedule.now after.now.schedule.now) }
{
    let count = moved(before, after);
    let size = before.project.size();
    write!(text, "moved {count} of {size}\n")?;
    Ok(())
}

fn put_plans(
    text: &mut String,
    before: &Fitting<'_>,
    after: &Fitting<'_>,
    breaches: (Option<Breach>, Option<Breach>),
) -> Result<(), AllocError>
    requires { before.now.project.now ≡ after.now.project.now }
    ensures { IfOk result (λ _. string_bytes text.new
        ≡ string_bytes text.old ++ plan_lines before.now.project.now before.now.schedule.now after.now.schedule.now breaches.0 breaches.1) }
{
    put_plan(text, "before", before, breaches.0)?;
    put_plan(text, "after", after, breaches.1)?;
    Ok(())
}

/// Returns what differs between two schedules of `project`: their makespans and what each breaks
/// first, each activity with another mode or start, and what each consumes. An error is want of
/// memory.
pub fn moves(
    alloc: Global,
    before: &Fitting<'_>,
    after: &Fitting<'_>,
    breaches: (Option<Breach>, Option<Breach>),
) -> Result<String, AllocError>
    requires { before.now.project.now ≡ after.now.project.now }
    ensures { IfOk result (λ text. string_bytes text
        ≡ moves_text before.now.project.now before.now.schedule.now after.now.schedule.now breaches.0 breaches.1) }
{
    let mut text = String::new(alloc);
    put_plans(&mut text, before, after, breaches)?;
    put_moves(&mut text, before, after)?;
    put_count(&mut text, before, after)?;
    put_costs(&mut text, before, after)?;
    Ok(text)
}
