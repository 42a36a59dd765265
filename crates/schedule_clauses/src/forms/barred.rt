//! The form of clauses on barred choices, which no schedule within the limit takes.
ghost use Rattle.std.specs.Prelude.{◌≡◌, ◌<◌, ◌≤◌, true, Some};
ghost use Rattle.mrcpsp.specs.Project.{size};
ghost use Rattle.schedule_prices.specs.Choices.{AreBarred};
ghost use Rattle.schedule_prices.specs.Table.{is_barred};
ghost use Rattle.schedule_clauses.specs.BarredRun.{IsBarredRun};

use crate::meaning::{in_mode, starts_by};
use crate::scope::Clauses;
use schedule_prices::Barred;
use std::alloc::AllocError;

/// Whether all starts from `from` to `to` are barred.
fn is_run(barred: &Barred<'_>, activity: usize, mode: usize, from: u32, to: u32) -> bool
    ensures run { result ≡ true → IsBarredRun (is_barred barred.now) activity mode from to }
    ensures sound { AreBarred barred.now.project barred.now.bound (is_barred barred.now) }
{
    for start in from..to {
        if !barred.is_barred(activity, mode, start) {
            return false;
        }
    }
    barred.is_barred(activity, mode, to)
}

/// An activity in `mode` does not start at `from`, at `to`, or between them. A run from 0, or to
/// the bound, needs no literal at that end.
#[tactic(auto, using(crate::proofs::BarredLemmas::barred_rules))]
pub(crate) fn starts_outside(
    clauses: &mut Clauses<'_>,
    barred: &Barred<'_>,
    activity: usize,
    mode: usize,
    from: u32,
    to: u32,
) -> Result<(), AllocError>
    requires project { barred.now.project ≡ clauses.old.project }
    requires bound { clauses.old.limit ≡ Some barred.now.bound }
    requires activity { activity < size clauses.old.project }
    ensures { clauses.new ≡ clauses.old }
{
    let bound = barred.bound();
    if !is_run(barred, activity, mode, from, to) {
        return Ok(());
    }
    let chosen = in_mode(activity, mode);
    if from == 0 && bound <= to {
        return clauses.add(&[!chosen]);
    }
    if from == 0 {
        return clauses.add(&[!chosen, !starts_by(activity, to)]);
    }
    let before = starts_by(activity, from - 1);
    if bound <= to {
        return clauses.add(&[!chosen, before]);
    }
    clauses.add(&[!chosen, !starts_by(activity, to), before])
}
