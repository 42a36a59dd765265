//! Clauses in DIMACS form: `p cnf VARIABLES CLAUSES`, and each clause as numbers ended by 0. Lines
//! that begin with `c` explain the clauses and the variables: `starts J T`, activity J starts at T
//! or before, and `mode J M`, it has mode M.
use clause_search::StepLog;
use itoa::Buffer;
use schedule_clauses::{CapacityRow, Fact, ScheduleFormula, SectionKind};
use std::io::{self, Write};

fn said_by(kind: SectionKind) -> &'static str {
    match kind {
        SectionKind::Modes => "each activity has exactly one mode",
        SectionKind::Starts => "what starts by a time starts by each later one",
        SectionKind::Ends => "what comes behind each activity ends within the bound",
        SectionKind::Precedence => "each successor starts where the activity has ended",
        SectionKind::Runs => "when each activity runs",
        SectionKind::Renewable => "what runs fits the renewable capacities in each period",
        SectionKind::Nonrenewable => "the modes fit the stocks of the nonrenewable resources",
        SectionKind::Barred => "starts that prices show to be in no schedule within the bound",
    }
}

fn write_sections<W: Write>(writer: &mut W, formula: &ScheduleFormula) -> io::Result<()> {
    let mut before = 0usize;
    for section in &formula.sections {
        let last = before.saturating_add(section.count);
        let first = before.saturating_add(1);
        let said = said_by(section.kind);
        if section.count > 0 {
            writeln!(writer, "c clauses {first} to {last}: {said}")?;
        }
        before = last;
    }
    Ok(())
}

fn write_left_out<W: Write>(writer: &mut W, formula: &ScheduleFormula) -> io::Result<()> {
    for row in &formula.left_out {
        match row {
            CapacityRow::Use { resource, time } => {
                let number = resource.saturating_add(1);
                writeln!(
                    writer,
                    "c left out, as too large: renewable resource {number} in period {time}"
                )?;
            }
            CapacityRow::Stock { resource } => {
                let number = resource.saturating_add(1);
                writeln!(
                    writer,
                    "c left out, as too large: nonrenewable resource {number}"
                )?;
            }
        }
    }
    Ok(())
}

/// Writes only the variables by which a schedule can be read.
fn write_meaning<W: Write>(writer: &mut W, variable: usize, meaning: Fact) -> io::Result<()> {
    match meaning {
        Fact::StartsBy { activity, time } => {
            let number = activity.saturating_add(1);
            writeln!(writer, "c {variable} starts {number} {time}")
        }
        Fact::InMode { activity, mode } => {
            let number = activity.saturating_add(1);
            let mode = mode.saturating_add(1);
            writeln!(writer, "c {variable} mode {number} {mode}")
        }
        _ => Ok(()),
    }
}

fn write_meanings<W: Write>(writer: &mut W, formula: &ScheduleFormula) -> io::Result<()> {
    for variable in 1..formula.meanings.len() {
        write_meaning(writer, variable, formula.meanings[variable])?;
    }
    Ok(())
}

fn write_clause<W: Write>(writer: &mut W, digits: &mut Buffer, clause: &[u32]) -> io::Result<()> {
    for literal in clause {
        let variable = i64::from(*literal / 2);
        let number = if *literal % 2 == 0 {
            variable
        } else {
            -variable
        };
        writer.write_all(digits.format(number).as_bytes())?;
        writer.write_all(b" ")?;
    }
    writer.write_all(b"0\n")
}

/// Writes steps as DRAT text: the clauses that were learned, and behind `d` those that were
/// forgotten.
pub(crate) fn write_steps<W: Write>(writer: &mut W, log: &StepLog) -> io::Result<()> {
    let mut digits = Buffer::new();
    for number in 0..log.len() {
        if log.is_forgotten(number) {
            writer.write_all(b"d ")?;
        }
        write_clause(writer, &mut digits, log.clause(number))?;
    }
    Ok(())
}

pub(crate) fn write_formula<W: Write>(writer: &mut W, formula: &ScheduleFormula) -> io::Result<()> {
    write_sections(writer, formula)?;
    write_left_out(writer, formula)?;
    write_meanings(writer, formula)?;
    let variables = formula.meanings.len().saturating_sub(1);
    let clauses = formula.clauses.len();
    writeln!(writer, "p cnf {variables} {clauses}")?;
    let mut digits = Buffer::new();
    for number in 0..clauses {
        write_clause(writer, &mut digits, formula.clauses.get(number))?;
    }
    Ok(())
}
