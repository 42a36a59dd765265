//! Clauses on choices that prices bar. Which runs of starts there are is a hint.
ghost use Rattle.std.specs.Prelude.{◌≡◌, ◌<◌, Some};
ghost use Rattle.mrcpsp.specs.Project.{size};
ghost use Rattle.measures.specs.Measures.{measures_of};
ghost use Rattle.price_search.specs.Barring.{IsBarring};

use crate::forms::barred::starts_outside;
use crate::scope::Clauses;
use crate::windows::{StartWindow, Windows, rest_of};
use measures::Measures;
use price_search::Barring;
use schedule_prices::Barred;
use std::alloc::AllocError;

/// The last start of the run of barred starts that begins at `from`.
fn end_of_run(barred: &Barred<'_>, activity: usize, mode: usize, from: u32) -> u32 {
    let bound = barred.bound();
    for start in from..bound {
        if !barred.is_barred(activity, mode, start + 1) {
            return start;
        }
    }
    bound
}

/// For each run of barred starts that has one of the window.
fn mode_clauses(
    clauses: &mut Clauses<'_>,
    barred: &Barred<'_>,
    window: StartWindow,
    activity: usize,
    mode: usize,
) -> Result<(), AllocError>
    requires project { barred.now.project ≡ clauses.old.project }
    requires bound { clauses.old.limit ≡ Some barred.now.bound }
    requires activity { activity < size clauses.old.project }
    ensures { clauses.new ≡ clauses.old }
{
    for from in 0..barred.bound() + 1 {
        let begins = from == 0 || !barred.is_barred(activity, mode, from - 1);
        if begins && barred.is_barred(activity, mode, from) {
            let to = end_of_run(barred, activity, mode, from);
            if window.first <= to && from.max(window.first) <= window.last {
                starts_outside(clauses, barred, activity, mode, from, to)?;
            }
        }
    }
    Ok(())
}

/// The window of a mode is what the chains before and behind the activity leave.
fn activity_clauses(
    clauses: &mut Clauses<'_>,
    barred: &Barred<'_>,
    windows: &Windows,
    rest: u32,
    activity: usize,
) -> Result<(), AllocError>
    requires project { barred.now.project ≡ clauses.old.project }
    requires bound { clauses.old.limit ≡ Some barred.now.bound }
    requires activity { activity < size clauses.old.project }
    ensures { clauses.new ≡ clauses.old }
{
    let scope = clauses.scope();
    let first = windows.of(activity).first;
    for mode in 0..scope.project.mode_count(activity) {
        let duration = scope.project.duration(activity, mode).saturating_add(rest);
        if let Some(last) = windows.bound.checked_sub(duration) {
            mode_clauses(clauses, barred, StartWindow { first, last }, activity, mode)?;
        }
    }
    Ok(())
}

fn all_clauses(
    clauses: &mut Clauses<'_>,
    barred: &Barred<'_>,
    measures: &Measures,
    windows: &Windows,
) -> Result<(), AllocError>
    requires project { barred.now.project ≡ clauses.old.project }
    requires bound { clauses.old.limit ≡ Some barred.now.bound }
    requires measures { measures.now ≡ measures_of clauses.old.project }
    ensures { clauses.new ≡ clauses.old }
{
    let scope = clauses.scope();
    for activity in 0..scope.project.size() {
        let rest = rest_of(scope.project, measures, activity);
        activity_clauses(clauses, barred, windows, rest, activity)?;
    }
    Ok(())
}

/// Adds nothing if prices refute the bound, or if there are too many starts for prices.
pub(crate) fn barred_section(
    clauses: &mut Clauses<'_>,
    barring: &Barring<'_>,
    bound: u32,
    measures: &Measures,
    windows: &Windows,
) -> Result<(), AllocError>
    requires barring { IsBarring clauses.old.project bound barring.now }
    requires bound { clauses.old.limit ≡ Some bound }
    requires measures { measures.now ≡ measures_of clauses.old.project }
    ensures { clauses.new ≡ clauses.old }
{
    if let Barring::Open(barred) = barring {
        all_clauses(clauses, barred, measures, windows)?;
    }
    Ok(())
}
