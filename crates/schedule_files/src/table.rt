//! The places in a table of CSV.
ghost use Rattle.std.specs.Prelude.{◌≡◌, [], get_or, map, option_map, IfOk};
ghost use Rattle.std.specs.Char.{to_ascii_lowercase};
ghost use Rattle.std.specs.List.{filter, list_any, position};
ghost use Rattle.csv.specs.Records.{fields_of};
ghost use Rattle.schedule_files.specs.ScheduleRows.{has_digit};
ghost use Rattle.schedule_files.specs.ScheduleTable.{is_mark, mark_of, AreRowsOf, cell_at, is_named, columns_of};
ghost use Rattle.schedule_files.specs.ScheduleTable.{or_first, is_row, place_in, places_in, table_places};

use crate::places::ScheduleEntry;
use crate::rows::{has_digit, number_in};
use csv::{ByteRecord, ReaderBuilder};
use std::alloc::{AllocError, Global};

/// `Columns` are the columns of numbers, modes and starts, counted from 0.
#[derive(Clone, Copy)]
pub(crate) struct Columns {
    pub activity: usize,
    pub mode: usize,
    pub start: usize,
}

fn is_mark(b: u8) -> bool
    ensures { result ≡ is_mark b }
{
    b == b',' || b == b';' || b == b'\t'
}

fn mark_place(text: &[u8]) -> Option<usize>
    ensures { result ≡ position is_mark text.now }
{
    text.iter().position(|b| is_mark(*b))
}

fn mark_of(text: &[u8]) -> u8
    ensures { result ≡ mark_of text.now }
{
    match mark_place(text) {
        Some(place) => text[place],
        None => b',',
    }
}

/// An error of the reader is want of memory: records may have any length, and bytes are no text.
pub(crate) fn table_rows(alloc: Global, text: &[u8]) -> Result<Vec<ByteRecord>, AllocError>
    ensures { IfOk result (λ rows. AreRowsOf text.now (map fields_of rows.items)) }
{
    let reader = ReaderBuilder::new()
        .has_headers(false)
        .flexible(true)
        .delimiter(mark_of(text))
        .from_reader(alloc, text);
    let mut rows = Vec::new(alloc);
    for row in reader.into_byte_records() {
        match row {
            Ok(row) => rows.push(row)?,
            Err(_) => return Err(AllocError),
        }
    }
    Ok(rows)
}

/// A cell behind the row's end is empty.
fn cell_at(row: &ByteRecord, place: usize) -> &[u8]
    ensures { result.now ≡ cell_at place (fields_of row.now) }
{
    match row.get(place) {
        Some(cell) => cell,
        None => &[],
    }
}

/// Whether `cell` is `name`, in capital letters or not.
fn is_named(cell: &[u8], name: &[u8]) -> bool
    requires { map to_ascii_lowercase name.now ≡ name.now }
    ensures { result ≡ is_named name.now cell.now }
{
    cell.trim_ascii().eq_ignore_ascii_case(name)
}

fn column_of(row: &ByteRecord, name: &[u8]) -> Option<usize>
    requires { map to_ascii_lowercase name.now ≡ name.now }
    ensures { result ≡ position (is_named name.now) (fields_of row.now) }
{
    for place in 0..row.len() {
        if is_named(cell_at(row, place), name) {
            return Some(place);
        }
    }
    None
}

fn columns_of(row: &ByteRecord) -> Option<Columns>
    ensures { result ≡ columns_of (fields_of row.now) }
{
    let activity = column_of(row, b"activity")?;
    let mode = column_of(row, b"mode")?;
    let start = column_of(row, b"start")?;
    Some(Columns {
        activity,
        mode,
        start,
    })
}

fn heading_of(rows: &[ByteRecord]) -> Option<Columns>
    ensures { result ≡ columns_of (get_or (map fields_of rows.now) 0 []) }
{
    match rows.first() {
        Some(row) => columns_of(row),
        None => None,
    }
}

fn or_first(heading: Option<Columns>) -> Columns
    ensures { result ≡ or_first heading }
{
    match heading {
        Some(columns) => columns,
        None => Columns {
            activity: 0,
            mode: 1,
            start: 2,
        },
    }
}

fn any_digit(row: &ByteRecord) -> bool
    ensures { result ≡ list_any has_digit (fields_of row.now) }
{
    for place in 0..row.len() {
        if has_digit(cell_at(row, place)) {
            return true;
        }
    }
    false
}

/// With a heading, a row with no number in the activity's column is left out.
fn is_row(row: &ByteRecord, heading: Option<Columns>) -> bool
    ensures { result ≡ is_row heading (fields_of row.now) }
{
    match heading {
        Some(columns) => number_in(cell_at(row, columns.activity)).is_some(),
        None => any_digit(row),
    }
}

fn place_in(row: &ByteRecord, columns: Columns) -> Option<ScheduleEntry>
    ensures { result ≡ place_in columns (fields_of row.now) }
{
    let activity = number_in(cell_at(row, columns.activity))?;
    let mode = number_in(cell_at(row, columns.mode))?;
    let start = number_in(cell_at(row, columns.start))?;
    Some(ScheduleEntry {
        activity,
        mode,
        start,
    })
}

fn kept<'a>(
    alloc: Global,
    rows: &'a [ByteRecord],
    heading: Option<Columns>,
) -> Result<Vec<&'a ByteRecord>, AllocError>
    ensures { IfOk result (λ found.
        map (λ row. fields_of row.now) found.items ≡ filter (is_row heading) (map fields_of rows.now)) }
{
    let mut found = Vec::new(alloc);
    for row in rows {
        if is_row(row, heading) {
            found.push(row)?;
        }
    }
    Ok(found)
}

fn places_in(
    alloc: Global,
    rows: &[&ByteRecord],
    columns: Columns,
) -> Result<Option<Vec<ScheduleEntry>>, AllocError>
    ensures { IfOk result (λ found.
        option_map (λ places. places.items) found ≡ places_in columns (map (λ row. fields_of row.now) rows.now)) }
{
    let mut places = Vec::new(alloc);
    for row in rows {
        let Some(place) = place_in(row, columns) else {
            return Ok(None);
        };
        places.push(place)?;
    }
    Ok(Some(places))
}

pub(crate) fn table_places(
    alloc: Global,
    rows: &[ByteRecord],
) -> Result<Option<Vec<ScheduleEntry>>, AllocError>
    ensures { IfOk result (λ found.
        option_map (λ places. places.items) found ≡ table_places (map fields_of rows.now)) }
{
    let heading = heading_of(rows);
    let found = kept(alloc, rows, heading)?;
    places_in(alloc, found.as_slice(), or_first(heading))
}
