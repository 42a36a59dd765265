//! How many clauses on starts a bound makes, about, before they are made.
ghost use Rattle.std.specs.Prelude.{◌≡◌, ℕ, ◌<◌, ◌≤◌, IfOk};
ghost use Rattle.mrcpsp.specs.Project.{size, mode_count};
ghost use Rattle.measures.specs.Measures.{measures_of};
ghost use Rattle.schedule_clauses.specs.Size.{head, starts_of, modes_before, start_clauses};
ghost use Rattle.schedule_clauses.specs.Heads.{AreHeads};

use crate::windows::{least_of, rest_of};
use measures::Measures;
use mrcpsp::Project;
use std::alloc::{AllocError, Global};

/// The most clauses on starts, by the count of `specs/Size`: half a gigabyte of them.
pub const MOST_START_CLAUSES: u64 = 8_000_000;

#[tactic(auto, using(crate::proofs::SizeLemmas::size_rules))]
fn head_of(project: &Project, measures: &Measures, heads: &[u32], activity: usize) -> u32
    requires activity { activity < size project.now }
    requires measures { measures.now ≡ measures_of project.now }
    requires heads { AreHeads project.now heads.now activity }
    ensures { result ≡ head project.now activity }
{
    project.activities();
    let mut longest = 0;
    for before in 0..activity {
        if project.precedes(before, activity) {
            let ready = heads[before] + least_of(project, measures, before);
            longest = longest.max(ready);
        }
    }
    longest
}

/// The earliest starts by precedence: the longest chain before each activity, by shortest
/// durations.
#[tactic(auto, using(crate::proofs::SizeLemmas::size_rules))]
pub(crate) fn heads_of(
    alloc: Global,
    project: &Project,
    measures: &Measures,
) -> Result<Vec<u32>, AllocError>
    requires { measures.now ≡ measures_of project.now }
    ensures { IfOk result (λ heads. AreHeads project.now heads.items (size project.now)) }
{
    let mut heads = Vec::new(alloc);
    for activity in 0..project.size() {
        let head = head_of(project, measures, &heads, activity);
        heads.push(head)?;
    }
    Ok(heads)
}

#[tactic(auto, unfolding(crate::specs::Size::modes_before))]
fn modes_before_of(project: &Project, activity: usize) -> u64
    requires activity { activity < size project.now }
    ensures exact { result ≡ modes_before project.now activity }
    ensures few { result ≤ 4096 }
{
    let size = project.size();
    prove!(activity < size);
    let mut modes = 0u64;
    for before in 0..activity {
        if project.precedes(before, activity) {
            modes += project.mode_count(before) as u64;
        }
    }
    modes
}

#[tactic(auto, unfolding(crate::specs::Size::starts_of))]
fn starts_in(
    project: &Project,
    measures: &Measures,
    earliest: u32,
    activity: usize,
    bound: u32,
) -> u64
    requires activity { activity < size project.now }
    requires measures { measures.now ≡ measures_of project.now }
    requires earliest { earliest ≡ head project.now activity }
    ensures exact { result ≡ starts_of project.now bound activity }
    ensures few { result ≤ 4294967296 }
{
    let least = least_of(project, measures, activity) as u64;
    let rest = rest_of(project, measures, activity) as u64;
    (bound as u64 + 1).saturating_sub(earliest as u64 + least + rest)
}

#[tactic(auto, using(crate::proofs::SizeLemmas::size_rules))]
pub(crate) fn start_clauses_of(
    alloc: Global,
    project: &Project,
    bound: u32,
) -> Result<u64, AllocError>
    ensures { IfOk result (λ clauses. clauses ≡ start_clauses project.now bound) }
{
    let measures = Measures::of(alloc, project)?;
    let heads = heads_of(alloc, project, &measures)?;
    let mut clauses = 0u64;
    for activity in 0..project.size() {
        let starts = starts_in(project, &measures, heads[activity], activity, bound);
        let modes = project.mode_count(activity) as u64 + modes_before_of(project, activity);
        clauses += starts * modes;
    }
    Ok(clauses)
}
