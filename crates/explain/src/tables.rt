//! Why a table of CSV has no schedule.
use crate::lines::{MOST_SHOWN, number, shown_word};
use csv::{ByteRecord, ReaderBuilder};
use std::alloc::{AllocError, Global};
use std::str;

/// The columns that are read, in the order of a heading's names.
const NAMES: [&str; 3] = ["activity", "mode", "start"];

/// A `TableHeading` is what the first row of a table names.
#[derive(Clone, Copy, Debug)]
enum TableHeading {
    /// No column: the first three are read.
    Absent,
    /// All three columns, which have these places.
    Whole([usize; 3]),
    /// Some columns, but not this one.
    Without(&'static str),
}

fn is_mark(b: u8) -> bool {
    b == b',' || b == b';' || b == b'\t'
}

/// The first comma, semicolon or tab.
fn mark_of(text: &[u8]) -> u8 {
    text.iter().copied().find(|b| is_mark(*b)).unwrap_or(b',')
}

fn rows_of(alloc: Global, text: &[u8]) -> Result<Vec<ByteRecord>, AllocError> {
    let reader = ReaderBuilder::new()
        .has_headers(false)
        .flexible(true)
        .delimiter(mark_of(text))
        .from_reader(alloc, text);
    let mut rows = Vec::new(alloc);
    for row in reader.into_byte_records() {
        match row {
            Ok(row) => rows.push(row)?,
            Err(_) => return Err(AllocError),
        }
    }
    Ok(rows)
}

/// A cell behind the row's end is empty.
fn cell_at(row: &ByteRecord, place: usize) -> &[u8] {
    row.get(place).unwrap_or(&[]).trim_ascii()
}

fn column_of(row: &ByteRecord, name: &str) -> Option<usize> {
    for place in 0..row.len() {
        if cell_at(row, place).eq_ignore_ascii_case(name.as_bytes()) {
            return Some(place);
        }
    }
    None
}

fn heading_of(rows: &[ByteRecord]) -> TableHeading {
    let Some(row) = rows.first() else {
        return TableHeading::Absent;
    };
    let mut places = [0usize; 3];
    let mut named = 0usize;
    let mut missing = None;
    for column in 0..3 {
        match column_of(row, NAMES[column]) {
            Some(place) => {
                places[column] = place;
                named = named.saturating_add(1);
            }
            None => missing = Some(NAMES[column]),
        }
    }
    match missing {
        None => TableHeading::Whole(places),
        Some(name) if named > 0 => TableHeading::Without(name),
        Some(_) => TableHeading::Absent,
    }
}

fn has_digit(row: &ByteRecord) -> bool {
    for place in 0..row.len() {
        if cell_at(row, place).iter().any(|b| b.is_ascii_digit()) {
            return true;
        }
    }
    false
}

/// Whether a row is of an activity. With a heading, one without a number there is left out.
fn is_read(row: &ByteRecord, heading: TableHeading) -> bool {
    match heading {
        TableHeading::Whole(places) => number(cell_at(row, places[0])).is_some(),
        _ => has_digit(row),
    }
}

/// The place and the name of the first of the three columns in which the row has no number.
fn column_without(row: &ByteRecord, places: [usize; 3]) -> Option<(usize, &'static str)> {
    for column in 0..3 {
        if number(cell_at(row, places[column])).is_none() {
            return Some((places[column], NAMES[column]));
        }
    }
    None
}

fn tell_cell(alloc: Global, line: u64, name: &str, cell: &[u8]) -> Result<String, AllocError> {
    if cell.is_empty() {
        return format!(in alloc; "line {line} has no {name}");
    }
    let shown = shown_cell(cell);
    format!(in alloc; "line {line}: {shown} is found for the {name}, which is a whole number")
}

/// Shows a text as `shown_word` does, with its blanks.
fn shown_cell(cell: &[u8]) -> &str {
    if cell.contains(&b' ') && cell.iter().all(|b| *b == b' ' || b.is_ascii_graphic()) {
        match str::from_utf8(cell) {
            Ok(text) if text.len() <= MOST_SHOWN => text,
            _ => "a long cell",
        }
    } else {
        shown_word(cell)
    }
}

fn line_of(row: &ByteRecord) -> u64 {
    row.position().map_or(0, |position| position.line())
}

/// A `TableReading` is what is found of a text that is read as a table.
#[derive(Debug, Drop)]
pub(crate) enum TableReading {
    /// Each row has its three numbers. The activities stand in the order of the rows.
    Numbers(Vec<u64>),
    /// Why a row has none.
    Told(String),
}

fn push_number(numbers: &mut Vec<u64>, row: &ByteRecord, place: usize) -> Result<(), AllocError> {
    if let Some(activity) = number(cell_at(row, place)) {
        numbers.push(activity)?;
    }
    Ok(())
}

/// The activities of a table's rows, or why a row is none.
pub(crate) fn table_of(alloc: Global, text: &[u8]) -> Result<TableReading, AllocError> {
    let rows = rows_of(alloc, text)?;
    let heading = heading_of(&rows);
    let places = match heading {
        TableHeading::Whole(places) => places,
        TableHeading::Absent => [0, 1, 2],
        TableHeading::Without(name) => {
            let told = format!(in alloc; "the first row names no column {name}")?;
            return Ok(TableReading::Told(told));
        }
    };
    let mut numbers = Vec::new(alloc);
    for row in rows.iter() {
        if !is_read(row, heading) {
            continue;
        }
        if let Some((place, name)) = column_without(row, places) {
            let told = tell_cell(alloc, line_of(row), name, cell_at(row, place))?;
            return Ok(TableReading::Told(told));
        }
        push_number(&mut numbers, row, places[0])?;
    }
    Ok(TableReading::Numbers(numbers))
}

fn has_cells(line: &[u8]) -> bool {
    line.iter().any(|b| is_mark(*b)) && !line.contains(&b':')
}

fn names_activities(line: &[u8]) -> bool {
    line.split(|b| is_mark(*b)).any(|cell| {
        cell.trim_ascii().eq_ignore_ascii_case(NAMES[0].as_bytes())
    })
}

/// Whether a line begins with three numbers between marks.
fn has_numbers(line: &[u8]) -> bool {
    let mut cells = line.split(|b| is_mark(*b));
    for _ in 0..3 {
        let cell = cells.next().unwrap_or(&[]);
        if number(cell.trim_ascii()).is_none() {
            return false;
        }
    }
    true
}

/// Whether a text has cells rather than words: in its first line with a digit, in a heading, or in
/// some row.
pub(crate) fn is_table(text: &[u8]) -> bool {
    let first = text.split(|b| *b == b'\n').next().unwrap_or(&[]);
    let numbered = text
        .split(|b| *b == b'\n')
        .find(|line| line.iter().any(|b| b.is_ascii_digit()));
    has_cells(numbered.unwrap_or(&[]))
        || (has_cells(first) && names_activities(first))
        || text.split(|b| *b == b'\n').any(has_numbers)
}
