//! All clauses of a project within a bound, or those of modes and stocks, which hold without one.
ghost use Rattle.std.specs.Prelude.{IfOk, Some, None};
ghost use Rattle.price_search.specs.Barring.{IsBarring};
ghost use Rattle.schedule_clauses.specs.Encoding.{AreGood};
ghost use Rattle.schedule_clauses.specs.LeftOut.{AreLeftOut};
ghost use Rattle.schedule_clauses.specs.Sections.{AreSections, all_kinds, stock_kinds};

mod barred;
mod capacities;
mod starts;

use crate::formula::{ScheduleFormula, SectionKind};
use crate::scope::{Clauses, Scope};
use crate::sections::barred::barred_section;
use crate::sections::capacities::{mode_section, nonrenewable_section, renewable_section};
use crate::sections::starts::{end_section, precedence_section, run_section, start_section};
use crate::windows::Windows;
use measures::Measures;
use mrcpsp::Project;
use price_search::Barring;
use std::alloc::{AllocError, Global};

pub(crate) fn encode(
    alloc: Global,
    project: &Project,
    bound: u32,
    barring: &Barring<'_>,
) -> Result<ScheduleFormula, AllocError>
    requires { IsBarring project.now bound barring.now }
    ensures good { IfOk result (λ formula.
        AreGood project.now (Some bound) formula.meanings.items formula.clauses) }
    ensures sections { IfOk result (λ formula.
        AreSections all_kinds formula.sections.items formula.clauses) }
    ensures left_out { IfOk result (λ formula.
        AreLeftOut project.now (Some bound) formula.left_out.items) }
{
    let measures = Measures::of(alloc, project)?;
    let windows = Windows::new(alloc, project, &measures, bound)?;
    let limit = Some(bound);
    let mut clauses = Clauses::new(alloc, Scope { project, limit })?;
    mode_section(&mut clauses)?;
    clauses.end_section(SectionKind::Modes)?;
    start_section(&mut clauses, &windows)?;
    clauses.end_section(SectionKind::Starts)?;
    end_section(&mut clauses, &measures, &windows)?;
    clauses.end_section(SectionKind::Ends)?;
    precedence_section(&mut clauses, &measures, &windows)?;
    clauses.end_section(SectionKind::Precedence)?;
    run_section(&mut clauses, &windows)?;
    clauses.end_section(SectionKind::Runs)?;
    renewable_section(&mut clauses, &windows)?;
    clauses.end_section(SectionKind::Renewable)?;
    nonrenewable_section(&mut clauses)?;
    clauses.end_section(SectionKind::Nonrenewable)?;
    barred_section(&mut clauses, barring, bound, &measures, &windows)?;
    clauses.into_formula(SectionKind::Barred)
}

pub(crate) fn encode_stocks(alloc: Global, project: &Project) -> Result<ScheduleFormula, AllocError>
    ensures good { IfOk result (λ formula.
        AreGood project.now None formula.meanings.items formula.clauses) }
    ensures sections { IfOk result (λ formula.
        AreSections stock_kinds formula.sections.items formula.clauses) }
    ensures left_out { IfOk result (λ formula.
        AreLeftOut project.now None formula.left_out.items) }
{
    let limit = None;
    let mut clauses = Clauses::new(alloc, Scope { project, limit })?;
    mode_section(&mut clauses)?;
    clauses.end_section(SectionKind::Modes)?;
    nonrenewable_section(&mut clauses)?;
    clauses.into_formula(SectionKind::Nonrenewable)
}
