//! The modes of all activities in one list, activity by activity.
ghost use Rattle.std.specs.Prelude.{◌≡◌, ℕ, ◌+◌, ◌<◌, ◌≤◌, IfOk};
ghost use Rattle.mrcpsp.specs.Limits.{IsProject};
ghost use Rattle.mrcpsp.specs.Project.{ProjectData, size, mode_count};
ghost use Rattle.measures.specs.Measures.{measures_of};
ghost use Rattle.serial_sgs.specs.Rows.{IsTable};
ghost use Rattle.tree_search.specs.Table.{AreModes, AreSome, IsLine, IsLines, modes_before};

use measures::Measures;
use mrcpsp::{MOST_RESOURCES, Project};
use serial_sgs::amounts::Amounts;
use serial_sgs::rows::Rows;
use std::alloc::{AllocError, Global};

/// A period after all others.
pub(crate) const NEVER: u32 = u32::MAX;

/// A `Row` is what an activity takes in a mode, 0 of each resource that is not there.
#[derive(Clone, Copy)]
pub(crate) struct Row {
    /// The consumption beyond the activity's least one.
    pub(crate) extra: Amounts,
    /// The use in each period of the activity, nothing if there is none.
    pub(crate) request: Amounts,
    /// In periods.
    pub(crate) duration: u32,
    /// The duration with the activity's tail, `NEVER` if the mode fits into no idle project.
    pub(crate) reach: u32,
}

/// A `ModeRows` is where the rows of an activity's modes are: from place `first` on.
#[derive(Clone, Copy)]
struct ModeRows {
    first: u32,
    count: u32,
}

/// A `Table` is the rows of all modes, and where those of each activity are.
#[derive(Drop)]
pub(crate) struct Table {
    rows: Vec<Row>,
    places: Vec<ModeRows>,
}

fn row_of(project: &Project, rows: &Rows, measures: &Measures, activity: usize, mode: usize) -> Row
    requires project { IsProject project.now }
    requires tabled { IsTable project.now rows.now }
    requires measured { measures.now ≡ measures_of project.now }
    requires activity { activity < size project.now }
    requires mode { mode < mode_count project.now activity }
    ensures { IsLine project.now activity mode result }
{
    let row = rows.row(activity, mode);
    let reach = if row.is_executable {
        row.duration + measures.tail(activity)
    } else {
        NEVER
    };
    let request = if row.duration == 0 {
        [0; MOST_RESOURCES]
    } else {
        row.request
    };
    Row {
        extra: row.extra,
        request,
        duration: row.duration,
        reach,
    }
}

/// The number of all modes.
fn count_all(project: &Project, rows: &Rows) -> usize
    requires project { IsProject project.now }
    requires tabled { IsTable project.now rows.now }
    ensures { result ≡ modes_before project.now (size project.now) }
{
    let mut all = 0;
    for activity in 0..rows.size() {
        all += rows.count(activity);
    }
    all
}

fn push_modes(
    list: &mut Vec<Row>,
    project: &Project,
    rows: &Rows,
    measures: &Measures,
    activity: usize,
) -> Result<(), AllocError>
    requires project { IsProject project.now }
    requires tabled { IsTable project.now rows.now }
    requires measured { measures.now ≡ measures_of project.now }
    requires activity { activity < size project.now }
    ensures { IfOk result (λ _. AreSome project.now activity (mode_count project.now activity) list.old.items
        list.new.items) }
{
    for mode in 0..rows.count(activity) {
        list.push(row_of(project, rows, measures, activity, mode))?;
    }
    Ok(())
}

impl Table {
    /// Takes no more memory than it needs.
    pub(crate) fn of(
        alloc: Global,
        project: &Project,
        rows: &Rows,
        measures: &Measures,
    ) -> Result<Table, AllocError>
        requires project { IsProject project.now }
        requires tabled { IsTable project.now rows.now }
        requires measured { measures.now ≡ measures_of project.now }
        ensures { IfOk result (IsLines project.now) }
    {
        let mut list = Vec::with_capacity(alloc, count_all(project, rows))?;
        let mut places = Vec::with_capacity(alloc, rows.size())?;
        for activity in 0..rows.size() {
            let first = list.len() as u32;
            let count = rows.count(activity) as u32;
            places.push(ModeRows { first, count })?;
            push_modes(&mut list, project, rows, measures, activity)?;
        }
        Ok(Table { rows: list, places })
    }

    #[inline(always)]
    pub(crate) fn count(&self, activity: usize) -> usize
        requires { (p : ProjectData) × IsLines p self.now × (activity < size p) }
        ensures { (p : ProjectData) → IsLines p self.now → activity < size p → result ≡ mode_count p activity }
    {
        self.places[activity].count as usize
    }

    #[inline(always)]
    pub(crate) fn row(&self, activity: usize, mode: usize) -> &Row
        requires { (p : ProjectData) × IsLines p self.now × (activity < size p) × (mode < mode_count p activity)
            × IsProject p }
        ensures { (p : ProjectData) → IsLines p self.now → activity < size p → mode < mode_count p activity
            → IsLine p activity mode result.now }
    {
        &self.rows[self.places[activity].first as usize + mode]
    }

    /// The rows of the modes from `from` on, before `end`.
    #[inline(always)]
    pub(crate) fn modes(&self, activity: usize, from: usize, end: usize) -> &[Row]
        requires { (p : ProjectData) × IsLines p self.now × (activity < size p) × (from ≤ end)
            × (end ≤ mode_count p activity) × IsProject p }
        ensures { (p : ProjectData) → IsLines p self.now → activity < size p → from ≤ end → end ≤ mode_count p activity
            → AreModes p activity from end result.now }
    {
        let first = self.places[activity].first as usize;
        &self.rows[first + from..first + end]
    }
}
