//! Why a text has no schedule.
use crate::lines::{Piece, number, shown_word};
use crate::tables::{TableReading, is_table, table_of};
use schedule_files::MOST_BYTES;
use serde_json::Value;
use std::alloc::{AllocError, Global};

const FORM: &str =
    "wanted is for each activity a word J:MODE:START, in the order of their numbers, or a row of CSV, in any order, under the heading activity,mode,start or without one; or JSON as solve --json prints it";

/// The place at which reading a schedule stops.
#[derive(Clone, Copy, Debug)]
struct Stop<'a> {
    line: usize,
    column: usize,
    word: &'a [u8],
}

fn word_at(line: Piece<'_>, start: usize) -> Stop<'_> {
    let rest = line.bytes.get(start..).unwrap_or(&[]);
    let word = rest
        .split(|b| b.is_ascii_whitespace())
        .next()
        .unwrap_or(&[]);
    Stop {
        line: line.line,
        column: start.saturating_add(1),
        word,
    }
}

fn push_stops<'a>(stops: &mut Vec<Stop<'a>>, line: Piece<'a>) -> Result<(), AllocError> {
    let mut is_blank = true;
    for (place, b) in line.bytes.iter().enumerate() {
        let blank = b.is_ascii_whitespace();
        if is_blank && !blank {
            stops.push(word_at(line, place))?;
        }
        is_blank = blank;
    }
    Ok(())
}

fn stops_of(alloc: Global, text: &[u8]) -> Result<Vec<Stop<'_>>, AllocError> {
    let mut stops = Vec::new(alloc);
    let mut number = 0usize;
    for line in text.split(|b| *b == b'\n') {
        number = number.saturating_add(1);
        push_stops(
            &mut stops,
            Piece {
                line: number,
                bytes: line,
            },
        )?;
    }
    Ok(stops)
}

/// The activity of a word `J:MODE:START`.
fn activity_of(word: &[u8]) -> Option<usize> {
    let mut parts = word.split(|b| *b == b':');
    let activity = number(parts.next()?)?;
    number(parts.next()?)?;
    number(parts.next()?)?;
    if parts.next().is_some() {
        return None;
    }
    usize::try_from(activity).ok()
}

fn tell_stop(alloc: Global, stop: Stop<'_>, wanted: Option<usize>) -> Result<String, AllocError> {
    let (line, column, word) = (stop.line, stop.column, shown_word(stop.word));
    let mut text = String::new(alloc);
    write!(text, "line {line} column {column}: {word} is found")?;
    if let Some(activity) = wanted {
        write!(text, " where {activity}:MODE:START is wanted")?;
    }
    write!(text, "; {FORM}")?;
    Ok(text)
}

/// The words are read from the end: the number of the last one is the number of activities.
fn tell_words(alloc: Global, stops: &[Stop<'_>]) -> Result<String, AllocError> {
    let Some(last) = stops.last() else {
        return format!(in alloc; "the text has no word; {FORM}");
    };
    let Some(count) = activity_of(last.word) else {
        return tell_stop(alloc, *last, None);
    };
    let mut wanted = count;
    for stop in stops.iter().rev() {
        if wanted == 0 {
            break;
        }
        if activity_of(stop.word) != Some(wanted) {
            return tell_stop(alloc, *stop, Some(wanted));
        }
        wanted = wanted.saturating_sub(1);
    }
    tell_missing(alloc, *last, count, wanted)
}

/// All words are places: of an activity 0, or without the first ones.
fn tell_missing(
    alloc: Global,
    last: Stop<'_>,
    count: usize,
    wanted: usize,
) -> Result<String, AllocError> {
    let word = shown_word(last.word);
    if count == 0 {
        return format!(in alloc; "{word} is found for activity 0; {FORM}");
    }
    format!(in alloc;
        "no place {wanted}:MODE:START is found before those that end with {word}; {FORM}"
    )
}

/// `numbers` is the activities of all rows, in rising order.
fn tell_numbers(alloc: Global, numbers: &[u64]) -> Result<String, AllocError> {
    let mut wanted = 0u64;
    for found in numbers {
        wanted = wanted.saturating_add(1);
        if *found == 0 {
            return format!(in alloc; "a line is of activity 0; {FORM}");
        }
        if *found < wanted {
            return format!(in alloc; "activity {found} has two lines; {FORM}");
        }
        if *found > wanted {
            return format!(in alloc;
                "activity {wanted} has no line, and activity {found} has one; {FORM}"
            );
        }
    }
    format!(in alloc; "{FORM}")
}

fn tell_table(alloc: Global, text: &[u8]) -> Result<String, AllocError> {
    match table_of(alloc, text)? {
        TableReading::Told(told) => format!(in alloc; "{told}; {FORM}"),
        TableReading::Numbers(mut numbers) => {
            numbers.sort()?;
            tell_numbers(alloc, numbers.as_slice())
        }
    }
}

fn tell_json(alloc: Global, text: &[u8]) -> Result<String, AllocError> {
    match Value::from_slice(alloc, text) {
        Ok(_) => format!(in alloc;
            "the JSON is no array with one object of activity, mode and start for each activity, nor an object with such an array as schedule"
        ),
        Err(error) => {
            let (line, column) = (error.line(), error.column());
            format!(in alloc; "line {line} column {column}: this is no JSON text; {FORM}")
        }
    }
}

/// Whether a line is the title of a section of project files.
fn is_project(text: &[u8]) -> bool {
    text.split(|b| *b == b'\n').any(|line| line.trim_ascii().starts_with(b"PRECEDENCE RELATIONS"))
}

fn begins_json(text: &[u8]) -> bool {
    match text.iter().find(|b| !b.is_ascii_whitespace()) {
        Some(b) => *b == b'[' || *b == b'{',
        None => false,
    }
}

/// Why `text` has no schedule: the place at which reading it from its end stops, and the wanted
/// form.
pub fn why_no_schedule(alloc: Global, text: &[u8]) -> Option<String> {
    if text.len() > MOST_BYTES {
        return format!(in alloc;
            "the text has more than {MOST_BYTES} bytes; the last line of a log is enough: tail -n 1"
        ).ok();
    }
    if is_project(text) {
        return format!(in alloc; "this is a project's file; {FORM}").ok();
    }
    if begins_json(text) {
        return tell_json(alloc, text).ok();
    }
    if is_table(text) {
        return tell_table(alloc, text).ok();
    }
    let stops = stops_of(alloc, text).ok()?;
    tell_words(alloc, &stops).ok()
}
