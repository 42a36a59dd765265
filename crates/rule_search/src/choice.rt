ghost use Rattle.std.specs.Prelude.{◌≡◌, ℕ, ◌<◌, All, IfSome, length, nat_le};
ghost use Rattle.mrcpsp.specs.Project.{ProjectData, size, mode_count, duration};
ghost use Rattle.measures.specs.Measures.{measures_of};
ghost use Rattle.strategy.specs.Pass.{first_least, activity_at};
ghost use Rattle.serial_pass.specs.Pass.{eligible_in, chosen_in, after_node};
ghost use Rattle.rule_search.specs.Rule.{IsRule, is_ahead};

use measures::Measures;
use mrcpsp::Project;
use serial_pass::{Candidate, SerialPass};
use strategy::Kind;

fn is_ahead(measures: &Measures, kind: Kind, one: usize, other: usize) -> bool
    requires one { one < length measures.now }
    requires other { other < length measures.now }
    ensures { (p : ProjectData) → measures.now ≡ measures_of p → result ≡ is_ahead p kind one other }
{
    match kind {
        Kind::RuleLft => measures.lft(one) <= measures.lft(other),
        Kind::RuleMts => measures.mts(other) <= measures.mts(one),
        Kind::RuleSpt => measures.shortest(one) <= measures.shortest(other),
        Kind::Tree | Kind::Sample(_) => false,
    }
}

/// Ties go to the smaller number.
fn first_activity(pass: &SerialPass, measures: &Measures, kind: Kind) -> Option<usize>
    requires rule { IsRule kind }
    requires measured { measures.now ≡ measures_of pass.now.project }
    ensures exact { (i : ℕ) → result ≡ activity_at pass.now.project kind i
        (eligible_in pass.now.project pass.now.placed) }
    ensures inside { IfSome result (λ j. j < size pass.now.project) }
{
    let (head, rest) = pass.eligible().split_first()?;
    let mut first = *head;
    for activity in rest {
        if !is_ahead(measures, kind, first, *activity) {
            first = *activity;
        }
    }
    Some(first)
}

fn is_as_short(project: &Project, activity: usize, one: usize, other: usize) -> bool
    requires activity { activity < size project.now }
    requires one { one < mode_count project.now activity }
    requires other { other < mode_count project.now activity }
    ensures { result ≡ nat_le (duration project.now activity one) (duration project.now activity other) }
{
    project.duration(activity, one) <= project.duration(activity, other)
}

/// Ties go to the smaller number.
fn first_mode(project: &Project, activity: usize, modes: &[usize]) -> Option<usize>
    requires activity { activity < size project.now }
    requires modes { All (λ m. m < mode_count project.now activity) modes.now }
    ensures { result ≡ first_least (duration project.now activity) modes.now }
{
    let (head, rest) = modes.split_first()?;
    let mut first = *head;
    for mode in rest {
        if !is_as_short(project, activity, first, *mode) {
            first = *mode;
        }
    }
    Some(first)
}

/// Returns `None` if the activity that the rule puts first has no allowed mode.
fn choose(pass: &SerialPass, measures: &Measures, kind: Kind) -> Option<Candidate>
    requires rule { IsRule kind }
    requires measured { measures.now ≡ measures_of pass.now.project }
    ensures { (i : ℕ) → result ≡ chosen_in pass.now.project kind i pass.now.placed }
{
    let activity = first_activity(pass, measures, kind)?;
    let modes = pass.allowed_modes(activity);
    let mode = first_mode(pass.project(), activity, modes.as_slice())?;
    Some(Candidate { activity, mode })
}

pub(crate) fn run_node(pass: &mut SerialPass, measures: &Measures, kind: Kind)
    requires rule { IsRule kind }
    requires measured { measures.now ≡ measures_of pass.old.project }
    ensures { (i : ℕ) → pass.new ≡ record pass.old { placed = after_node pass.old.project kind i pass.old.placed } }
{
    let chosen = choose(pass, measures, kind);
    pass.run(chosen);
}
