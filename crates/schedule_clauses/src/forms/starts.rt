//! Forms of clauses on starts. Each is added only if it is known to hold of every schedule within
//! the limit: if its numbers do not fit, nothing is added.
ghost use Rattle.std.specs.Prelude.{◌≡◌, ◌<◌};
ghost use Rattle.mrcpsp.specs.Project.{size, mode_count};
ghost use Rattle.mrcpsp.specs.Values.{tail, shortest};

use crate::meaning::{MOST, in_mode, runs_at, starts_by};
use crate::scope::Clauses;
use std::alloc::AllocError;

/// What starts by a time starts by a later one.
#[tactic(auto, using(crate::proofs::FormLemmas::form_rules))]
pub(crate) fn later(
    clauses: &mut Clauses<'_>,
    activity: usize,
    time: u32,
    later: u32,
) -> Result<(), AllocError>
    ensures { clauses.new ≡ clauses.old }
{
    if later < time {
        return Ok(());
    }
    let clause = [!starts_by(activity, time), starts_by(activity, later)];
    clauses.add(&clause)
}

/// If a successor starts by `time`, the activity in `mode` starts by `latest`, or cannot (`None`).
#[tactic(auto, using(crate::proofs::FormLemmas::form_rules))]
pub(crate) fn precedence(
    clauses: &mut Clauses<'_>,
    before: usize,
    mode: usize,
    after: usize,
    time: u32,
    latest: Option<u32>,
) -> Result<(), AllocError>
    requires before { before < size clauses.old.project }
    requires mode { mode < mode_count clauses.old.project before }
    requires after { after < size clauses.old.project }
    ensures { clauses.new ≡ clauses.old }
{
    let scope = clauses.scope();
    if !scope.project.precedes(before, after) {
        return Ok(());
    }
    let duration = scope.project.duration(before, mode);
    let chosen = in_mode(before, mode);
    let started = starts_by(after, time);
    match latest {
        Some(latest) if latest <= MOST && time <= latest + duration => {
            clauses.add(&[!chosen, !started, starts_by(before, latest)])
        }
        None if time < duration => clauses.add(&[!chosen, !started]),
        _ => Ok(()),
    }
}

/// The clause of `precedence` by the shortest mode, whichever mode the activity has.
#[tactic(auto, using(crate::proofs::FormLemmas::form_rules))]
pub(crate) fn shortest_precedence(
    clauses: &mut Clauses<'_>,
    before: usize,
    after: usize,
    time: u32,
    latest: Option<u32>,
    least: u32,
) -> Result<(), AllocError>
    requires before { before < size clauses.old.project }
    requires after { after < size clauses.old.project }
    requires least { least ≡ shortest clauses.old.project before }
    ensures { clauses.new ≡ clauses.old }
{
    let scope = clauses.scope();
    if !scope.project.precedes(before, after) {
        return Ok(());
    }
    let started = starts_by(after, time);
    match latest {
        Some(latest) if latest <= MOST && least <= MOST && time <= latest + least => {
            clauses.add(&[!started, starts_by(before, latest)])
        }
        None if time < least => clauses.add(&[!started]),
        _ => Ok(()),
    }
}

/// An activity in `mode` starts by `latest`, for what comes behind it to end, or cannot (`None`).
#[tactic(auto, using(crate::proofs::FormLemmas::end_rules))]
pub(crate) fn end(
    clauses: &mut Clauses<'_>,
    activity: usize,
    mode: usize,
    latest: Option<u32>,
    rest: u32,
) -> Result<(), AllocError>
    requires activity { activity < size clauses.old.project }
    requires mode { mode < mode_count clauses.old.project activity }
    requires rest { rest ≡ tail clauses.old.project activity }
    ensures { clauses.new ≡ clauses.old }
{
    let scope = clauses.scope();
    let Some(bound) = scope.limit else {
        return Ok(());
    };
    let _all = scope.project.activities();
    let duration = scope.project.duration(activity, mode);
    let chosen = in_mode(activity, mode);
    match latest {
        Some(latest) if latest <= MOST && rest <= MOST && bound <= latest + duration + rest => {
            clauses.add(&[!chosen, starts_by(activity, latest)])
        }
        None if rest <= MOST && bound < duration + rest => clauses.add(&[!chosen]),
        _ => Ok(()),
    }
}

/// The clause of `end` by the shortest mode, whichever mode the activity has.
#[tactic(auto, using(crate::proofs::FormLemmas::end_rules))]
pub(crate) fn latest(
    clauses: &mut Clauses<'_>,
    activity: usize,
    time: u32,
    rest: u32,
    least: u32,
) -> Result<(), AllocError>
    requires activity { activity < size clauses.old.project }
    requires rest { rest ≡ tail clauses.old.project activity }
    requires least { least ≡ shortest clauses.old.project activity }
    ensures { clauses.new ≡ clauses.old }
{
    let scope = clauses.scope();
    let Some(bound) = scope.limit else {
        return Ok(());
    };
    let _all = scope.project.activities();
    if time <= MOST && rest <= MOST && least <= MOST && bound <= time + least + rest {
        return clauses.add(&[starts_by(activity, time)]);
    }
    Ok(())
}

/// What has started by `begun`, and not by `latest`, runs in `time`.
#[tactic(auto, using(crate::proofs::FormLemmas::form_rules))]
pub(crate) fn runs(
    clauses: &mut Clauses<'_>,
    activity: usize,
    mode: usize,
    begun: u32,
    time: u32,
    latest: Option<u32>,
) -> Result<(), AllocError>
    requires activity { activity < size clauses.old.project }
    requires mode { mode < mode_count clauses.old.project activity }
    ensures { clauses.new ≡ clauses.old }
{
    let scope = clauses.scope();
    let duration = scope.project.duration(activity, mode);
    if time < begun {
        return Ok(());
    }
    let chosen = in_mode(activity, mode);
    let started = starts_by(activity, begun);
    let run = runs_at(activity, mode, time);
    match latest {
        Some(latest) if latest <= MOST && time <= latest + duration => {
            let clause = [!chosen, !started, starts_by(activity, latest), run];
            clauses.add(&clause)
        }
        None if time < duration => clauses.add(&[!chosen, !started, run]),
        _ => Ok(()),
    }
}
