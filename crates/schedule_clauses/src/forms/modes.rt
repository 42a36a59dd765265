//! Forms of clauses on modes, which hold of every feasible schedule.
ghost use Rattle.std.specs.Prelude.{◌≡◌, ◌<◌};
ghost use Rattle.mrcpsp.specs.Project.{size, mode_count, renewables};

use crate::meaning::in_mode;
use crate::scope::Clauses;
use std::alloc::AllocError;

/// An activity has one of its modes.
#[tactic(auto, using(crate::proofs::FormLemmas::form_rules))]
pub(crate) fn modes(clauses: &mut Clauses<'_>, activity: usize) -> Result<(), AllocError>
    requires activity { activity < size clauses.old.project }
    ensures { clauses.new ≡ clauses.old }
{
    let scope = clauses.scope();
    let mut terms = Vec::new(clauses.alloc());
    for mode in 0..scope.project.mode_count(activity) {
        terms.push(in_mode(activity, mode))?;
    }
    clauses.add(&terms)
}

/// An activity does not have two modes.
#[tactic(auto, using(crate::proofs::FormLemmas::form_rules))]
pub(crate) fn exclude(
    clauses: &mut Clauses<'_>,
    activity: usize,
    mode: usize,
    other: usize,
) -> Result<(), AllocError>
    ensures { clauses.new ≡ clauses.old }
{
    if mode == other {
        return Ok(());
    }
    let clause = [!in_mode(activity, mode), !in_mode(activity, other)];
    clauses.add(&clause)
}

/// An activity has no mode that takes time and requests more of a renewable resource than there is.
/// A mode of duration 0 uses nothing in any period.
#[tactic(auto, using(crate::proofs::FormLemmas::form_rules))]
pub(crate) fn executable(
    clauses: &mut Clauses<'_>,
    activity: usize,
    mode: usize,
    resource: usize,
) -> Result<(), AllocError>
    requires activity { activity < size clauses.old.project }
    requires mode { mode < mode_count clauses.old.project activity }
    requires resource { resource < renewables clauses.old.project }
    ensures { clauses.new ≡ clauses.old }
{
    let scope = clauses.scope();
    let duration = scope.project.duration(activity, mode);
    let request = scope.project.request(activity, mode, resource);
    if duration == 0 || request <= scope.project.capacity(resource) {
        return Ok(());
    }
    clauses.add(&[!in_mode(activity, mode)])
}
