//! What a pass knows of its project.
ghost use Rattle.std.specs.Prelude.{◌≡◌, ℕ, ◌+◌, ◌<◌, ◌≤◌, ◌==◌, false, [], IfOk, length, get_or};
ghost use Rattle.mrcpsp.specs.Limits.{IsProject};
ghost use Rattle.mrcpsp.specs.Project.{ProjectData, size, stock};
ghost use Rattle.measures.specs.Measures.{measures_of};
ghost use Rattle.serial_sgs.specs.Members.{has};
ghost use Rattle.serial_pass.specs.Eligible.{AreFinishes, HasSums};
ghost use Rattle.serial_pass.specs.Partial.{AreTables, IsSlack};
ghost use Rattle.serial_pass.specs.Waiting.{no_wait};

use crate::amounts::take_off;
use crate::eligible::Eligible;
use crate::waiting::Wait;
use measures::Measures;
use mrcpsp::{Project, Sequence};
use serial_sgs::amounts::Amounts;
use serial_sgs::order::{predecessors, successors};
use serial_sgs::rows::Rows;
use serial_sgs::stock::needed_first;
use std::alloc::{AllocError, Global};

/// A `PassTables` is a project as a pass reads it, and how each of its passes begins.
#[derive(Drop)]
pub(crate) struct PassTables {
    pub(crate) rows: Rows,
    pub(crate) after: Vec<Sequence<u32>>,
    /// The latest finish times.
    pub(crate) lfts: Vec<u32>,
    /// The activities without predecessors.
    pub(crate) sources: Eligible,
    pub(crate) first: Vec<Wait>,
    pub(crate) slack: Amounts,
}

fn finishes_of(
    alloc: Global,
    project: &Project,
    measures: &Measures,
) -> Result<Vec<u32>, AllocError>
    requires project { IsProject project.now }
    requires measured { measures.now ≡ measures_of project.now }
    ensures { IfOk result (λ lfts. AreFinishes project.now lfts.items) }
{
    let mut lfts = Vec::with_capacity(alloc, project.size())?;
    for activity in 0..project.size() {
        lfts.push(measures.lft(activity))?;
    }
    Ok(lfts)
}

pub(crate) fn first_waits(alloc: Global, before: &[Sequence<u32>]) -> Result<Vec<Wait>, AllocError>
    requires { (j : ℕ) → j < length before.now → length (get_or before.now j []) ≤ 65535 }
    ensures count { IfOk result (λ waits. length waits.items ≡ length before.now) }
    ensures each { IfOk result (λ waits. (j : ℕ) → j < length before.now
        → get_or waits.items j no_wait ≡ record { ready = 0; point = 0; missing = length (get_or before.now j []) }) }
{
    let mut waits = Vec::with_capacity(alloc, before.len())?;
    for activity in 0..before.len() {
        let missing = before[activity].as_slice().len() as u16;
        waits.push(Wait {
            ready: 0,
            point: 0,
            missing,
        })?;
    }
    Ok(waits)
}

/// Nobody.
pub(crate) fn nobody() -> Eligible
    ensures none { (j : ℕ) → j < 256 → has result.set j ≡ false }
    ensures count { result.count ≡ 0 }
    ensures sums { (p : ProjectData) → HasSums p result }
{
    Eligible {
        set: [0; 4],
        count: 0,
        greatest: 0,
        sum: 0,
    }
}

fn sources_of(before: &[Sequence<u32>], lfts: &[u32]) -> Eligible
    requires few { length before.now ≤ 256 }
    requires finishes { (p : ProjectData) × AreFinishes p lfts.now × (size p ≡ length before.now) }
    ensures own { (j : ℕ) → j < length before.now → has result.set j ≡ (length (get_or before.now j []) == 0) }
    ensures others { (j : ℕ) → length before.now ≤ j → j < 256 → has result.set j ≡ false }
    ensures sums { (p : ProjectData) → AreFinishes p lfts.now → size p ≡ length before.now → HasSums p result }
{
    let mut sources = nobody();
    for activity in 0..before.len() {
        if before[activity].as_slice().is_empty() {
            sources.add(activity, lfts);
        }
    }
    sources
}

fn slack_of(project: &Project, measures: &Measures, stocks: &Amounts) -> Amounts
    requires project { IsProject project.now }
    requires measured { measures.now ≡ measures_of project.now }
    requires stocks { (r : ℕ) → r < 8 → get_or stocks.now r 0 ≡ stock project.now r }
    ensures { IsSlack project.now [] result }
{
    let mut slack = *stocks;
    take_off(&mut slack, &needed_first(project, measures));
    slack
}

impl PassTables {
    pub(crate) fn of(
        alloc: Global,
        project: &Project,
        measures: &Measures,
    ) -> Result<PassTables, AllocError>
        requires project { IsProject project.now }
        requires measured { measures.now ≡ measures_of project.now }
        ensures { IfOk result (AreTables project.now) }
    {
        let before = predecessors(alloc, project)?;
        let rows = Rows::of(alloc, project, measures)?;
        let after = successors(alloc, project)?;
        let lfts = finishes_of(alloc, project, measures)?;
        let sources = sources_of(&before, &lfts);
        let first = first_waits(alloc, &before)?;
        let slack = slack_of(project, measures, &rows.stocks);
        Ok(PassTables {
            rows,
            after,
            lfts,
            sources,
            first,
            slack,
        })
    }
}
