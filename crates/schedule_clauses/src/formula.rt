//! The clauses of a project, section by section.

use crate::meaning::Fact;
use clause_kernel::ClauseList;

/// A `SectionKind` is what the clauses of a section state.
#[derive(Clone, Copy, Debug, PartialEq, Eq)]
pub enum SectionKind {
    /// Each activity has exactly one mode.
    Modes,
    /// What starts by a time starts by each later one.
    Starts,
    /// What comes behind each activity ends within the bound.
    Ends,
    /// A successor starts when the activity has ended.
    Precedence,
    /// When an activity runs.
    Runs,
    /// What runs fits the renewable capacities in each period.
    Renewable,
    /// The modes fit the stocks of the nonrenewable resources.
    Nonrenewable,
    /// No schedule within the bound takes the choices that prices bar.
    Barred,
}

/// A `Section` is a number of clauses of one kind, behind those of the sections before.
#[derive(Clone, Copy, Debug, PartialEq, Eq)]
pub struct Section {
    pub kind: SectionKind,
    pub count: usize,
}

/// A `CapacityRow` is a renewable resource in a period, or a nonrenewable one, by places from 0.
#[derive(Clone, Copy, Debug, PartialEq, Eq)]
pub enum CapacityRow {
    Use { resource: usize, time: u32 },
    Stock { resource: usize },
}

/// A `ScheduleFormula` is clauses over variables. The literals of the variable x are 2 · x, and
/// 2 · x + 1 for its negation.
#[derive(Drop)]
pub struct ScheduleFormula {
    pub clauses: ClauseList,
    /// The meaning of each variable. There is no variable 0, and the first meaning is none's.
    pub meanings: Vec<Fact>,
    pub sections: Vec<Section>,
    /// The rows whose clauses would be too many. Without them a proof may not exist.
    pub left_out: Vec<CapacityRow>,
}
