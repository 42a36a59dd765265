//! What each mode takes, and what there is.
ghost use Rattle.std.specs.Prelude.{◌≡◌, ℕ, ◌+◌, ◌<◌, ◌≤◌, IfOk, slice_index};
ghost use Rattle.mrcpsp.specs.Project.{ProjectData, size, mode_count, request, consumption, capacity, stock};
ghost use Rattle.mrcpsp.specs.Limits.{IsProject};
ghost use Rattle.mrcpsp.specs.Values.{least};
ghost use Rattle.measures.specs.Measures.{measures_of};
ghost use Rattle.serial_sgs.specs.Rows.{IsRow, AreRows, HasRows, IsTable};

use crate::amounts::Amounts;
use crate::stock::least;
use crate::sums::is_executable;
use measures::Measures;
use mrcpsp::{MOST_RESOURCES, Project, Sequence};
use std::alloc::{AllocError, Global};

/// A `ModeRow` is what an activity takes in a mode, 0 of each resource that is not there.
#[derive(Clone, Copy, Debug)]
pub struct ModeRow {
    /// The consumption beyond the activity's least one.
    pub extra: Amounts,
    /// The use in each period of the activity.
    pub request: Amounts,
    /// In periods.
    pub duration: u32,
    /// Whether it fits into an idle project.
    pub is_executable: bool,
}

#[derive(Drop)]
pub struct Rows {
    rows: Vec<Sequence<ModeRow>>,
    pub capacities: Amounts,
    pub stocks: Amounts,
}

fn requests_of(project: &Project, activity: usize, mode: usize) -> Amounts
    requires project { IsProject project.now }
    requires activity { activity < size project.now }
    requires mode { mode < mode_count project.now activity }
    ensures { (r : ℕ) → r < MOST_RESOURCES → slice_index result r ≡ request project.now activity mode r }
{
    let mut requests = [0; MOST_RESOURCES];
    for resource in 0..project.renewables() {
        requests[resource] = project.request(activity, mode, resource);
    }
    requests
}

fn extras_of(project: &Project, measures: &Measures, activity: usize, mode: usize) -> Amounts
    requires project { IsProject project.now }
    requires measured { measures.now ≡ measures_of project.now }
    requires activity { activity < size project.now }
    requires mode { mode < mode_count project.now activity }
    ensures { (r : ℕ) → r < MOST_RESOURCES
        → slice_index result r + least project.now activity r ≡ consumption project.now activity mode r }
{
    let mut extras = [0; MOST_RESOURCES];
    for resource in 0..project.nonrenewables() {
        let more = project.consumption(activity, mode, resource);
        let less = least(project, measures, activity, resource);
        prove!(less <= more);
        extras[resource] = more - less;
    }
    extras
}

fn row_of(project: &Project, measures: &Measures, activity: usize, mode: usize) -> ModeRow
    requires project { IsProject project.now }
    requires measured { measures.now ≡ measures_of project.now }
    requires activity { activity < size project.now }
    requires mode { mode < mode_count project.now activity }
    ensures { IsRow project.now activity mode result }
{
    ModeRow {
        extra: extras_of(project, measures, activity, mode),
        request: requests_of(project, activity, mode),
        duration: project.duration(activity, mode),
        is_executable: is_executable(project, activity, mode),
    }
}

fn rows_of(
    alloc: Global,
    project: &Project,
    measures: &Measures,
    activity: usize,
) -> Result<Vec<ModeRow>, AllocError>
    requires project { IsProject project.now }
    requires measured { measures.now ≡ measures_of project.now }
    requires activity { activity < size project.now }
    ensures { IfOk result (λ rows. AreRows project.now activity (mode_count project.now activity) rows.items) }
{
    let mut rows = Vec::with_capacity(alloc, project.mode_count(activity))?;
    for mode in 0..project.mode_count(activity) {
        rows.push(row_of(project, measures, activity, mode))?;
    }
    Ok(rows)
}

fn all_rows(
    alloc: Global,
    project: &Project,
    measures: &Measures,
) -> Result<Vec<Sequence<ModeRow>>, AllocError>
    requires project { IsProject project.now }
    requires measured { measures.now ≡ measures_of project.now }
    ensures { IfOk result (λ table. HasRows project.now (size project.now) table.items) }
{
    let mut table = Vec::with_capacity(alloc, project.size())?;
    for activity in 0..project.size() {
        table.push(Sequence::from(rows_of(alloc, project, measures, activity)?))?;
    }
    Ok(table)
}

fn capacities_of(project: &Project) -> Amounts
    requires { IsProject project.now }
    ensures { (r : ℕ) → r < MOST_RESOURCES → slice_index result r ≡ capacity project.now r }
{
    let mut capacities = [0; MOST_RESOURCES];
    for resource in 0..project.renewables() {
        capacities[resource] = project.capacity(resource);
    }
    capacities
}

fn stocks_of(project: &Project) -> Amounts
    requires { IsProject project.now }
    ensures { (r : ℕ) → r < MOST_RESOURCES → slice_index result r ≡ stock project.now r }
{
    let mut stocks = [0; MOST_RESOURCES];
    for resource in 0..project.nonrenewables() {
        stocks[resource] = project.stock(resource);
    }
    stocks
}

impl Rows {
    pub fn of(alloc: Global, project: &Project, measures: &Measures) -> Result<Rows, AllocError>
        requires project { IsProject project.now }
        requires measured { measures.now ≡ measures_of project.now }
        ensures { IfOk result (IsTable project.now) }
    {
        Ok(Rows {
            rows: all_rows(alloc, project, measures)?,
            capacities: capacities_of(project),
            stocks: stocks_of(project),
        })
    }

    pub fn size(&self) -> usize
        ensures { (p : ProjectData) → IsTable p self.now → result ≡ size p }
    {
        self.rows.len()
    }

    pub fn count(&self, activity: usize) -> usize
        requires { (p : ProjectData) × IsTable p self.now × (activity < size p) }
        ensures { (p : ProjectData) → IsTable p self.now → activity < size p → result ≡ mode_count p activity }
    {
        self.rows[activity].as_slice().len()
    }

    pub fn row(&self, activity: usize, mode: usize) -> &ModeRow
        requires { (p : ProjectData) × IsTable p self.now × (activity < size p) × (mode < mode_count p activity) }
        ensures { (p : ProjectData) → IsTable p self.now → activity < size p → mode < mode_count p activity
            → IsRow p activity mode result.now }
    {
        &self.rows[activity].as_slice()[mode]
    }
}
