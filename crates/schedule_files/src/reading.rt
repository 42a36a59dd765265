//! The schedule that a text has.
ghost use Rattle.std.specs.Prelude.{◌≡◌, ◌<◌, length, map, Some, IfOk, IfSome, IfNone};
ghost use Rattle.mrcpsp.specs.Schedule.{ScheduleData};
ghost use Rattle.schedule_files.specs.ScheduleRows.{last_number, last_words};
ghost use Rattle.schedule_files.specs.ScheduleText.{TellsWords, TellsRows, TellsJsonOrTable, TellsSomehow, Tells};
ghost use Rattle.schedule_files.specs.ScheduleTable.{TellsTable};

use crate::objects::read_json;
use crate::places::{in_order, scheduled};
use crate::rows::{place_at, places_at, rows_of, words_of};
use crate::table::{table_places, table_rows};
use mrcpsp::Schedule;
use std::alloc::{AllocError, Global};

fn count_of(words: &[&[u8]]) -> usize
    ensures { result ≡ last_number (map (λ word. word.now) words.now) }
{
    match words.last() {
        Some(word) => place_at(word, b':').map_or(0, |place| place.activity as usize),
        None => 0,
    }
}

/// The last words; their count is the number of the last word's activity.
fn ending<'a, 'b>(words: &'b [&'a [u8]]) -> &'b [&'a [u8]]
    ensures { map (λ word. word.now) result.now ≡ last_words (map (λ word. word.now) words.now) }
{
    let start = words.len().saturating_sub(count_of(words));
    &words[start..]
}

/// The schedule, if it has an activity.
fn filled(schedule: Option<Schedule>) -> Option<Schedule>
    ensures some { IfSome result (λ s. (schedule ≡ Some s) × (0 < length s.modes)) }
    ensures none { IfNone result (IfSome schedule (λ s. length s.modes ≡ 0)) }
{
    match schedule {
        Some(schedule) if !schedule.modes.as_slice().is_empty() => Some(schedule),
        _ => None,
    }
}

#[tactic(auto, using(crate::proofs::ReadingLemmas::words_unread, crate::proofs::ReadingLemmas::words_told, crate::proofs::ReadingLemmas::words_none))]
fn read_words(alloc: Global, text: &[u8]) -> Result<Option<Schedule>, AllocError>
    ensures told { IfOk result (λ found. IfSome found (λ schedule. TellsWords text.now schedule)) }
    ensures none { IfOk result (λ found. IfNone found ((s : ScheduleData) → TellsWords text.now s → ⊥)) }
{
    let words = words_of(alloc, text)?;
    let Some(places) = places_at(alloc, ending(words.as_slice()), b':')? else {
        return Ok(None);
    };
    let schedule = in_order(alloc, places.as_slice())?;
    Ok(filled(schedule))
}

#[tactic(auto, using(crate::proofs::ReadingLemmas::rows_unread, crate::proofs::ReadingLemmas::rows_told, crate::proofs::ReadingLemmas::rows_none))]
fn read_rows(alloc: Global, text: &[u8]) -> Result<Option<Schedule>, AllocError>
    ensures told { IfOk result (λ found. IfSome found (λ schedule. TellsRows text.now schedule)) }
    ensures none { IfOk result (λ found. IfNone found ((s : ScheduleData) → TellsRows text.now s → ⊥)) }
{
    let rows = rows_of(alloc, text)?;
    let Some(places) = places_at(alloc, rows.as_slice(), b',')? else {
        return Ok(None);
    };
    let schedule = scheduled(alloc, places)?;
    Ok(filled(schedule))
}

#[tactic(auto, using(crate::proofs::TableLemmas::table_unread, crate::proofs::TableLemmas::table_told, crate::proofs::TableLemmas::table_none))]
fn read_table(alloc: Global, text: &[u8]) -> Result<Option<Schedule>, AllocError>
    ensures told { IfOk result (λ found. IfSome found (λ schedule. TellsTable text.now schedule)) }
    ensures none { IfOk result (λ found. IfNone found ((s : ScheduleData) → TellsTable text.now s → ⊥)) }
{
    let rows = table_rows(alloc, text)?;
    let Some(places) = table_places(alloc, rows.as_slice())? else {
        return Ok(None);
    };
    let schedule = scheduled(alloc, places)?;
    Ok(filled(schedule))
}

#[tactic(auto, using(crate::proofs::TableLemmas::table_way, crate::proofs::TableLemmas::neither_way))]
fn read_json_or_table(alloc: Global, text: &[u8]) -> Result<Option<Schedule>, AllocError>
    ensures told { IfOk result (λ found. IfSome found (λ schedule. TellsJsonOrTable text.now schedule)) }
    ensures none { IfOk result (λ found. IfNone found ((s : ScheduleData) → TellsJsonOrTable text.now s → ⊥)) }
{
    match read_json(alloc, text)? {
        Some(schedule) => Ok(Some(schedule)),
        None => read_table(alloc, text),
    }
}

#[tactic(auto, using(crate::proofs::ReadingLemmas::no_way, crate::proofs::ReadingLemmas::json_way))]
fn read_any(alloc: Global, text: &[u8]) -> Result<Option<Schedule>, AllocError>
    ensures told { IfOk result (λ found. IfSome found (λ schedule. TellsSomehow text.now schedule)) }
    ensures none { IfOk result (λ found. IfNone found ((s : ScheduleData) → TellsSomehow text.now s → ⊥)) }
{
    match read_words(alloc, text)? {
        Some(schedule) => Ok(Some(schedule)),
        None => match read_rows(alloc, text)? {
            Some(schedule) => Ok(Some(schedule)),
            None => read_json_or_table(alloc, text),
        },
    }
}

/// The most bytes of a schedule's text.
pub const MOST_BYTES: usize = 1_048_576;

/// Returns the schedule of `text`, in one of four forms. A number above 4,294,967,295 counts as
/// that. `None`: no such form, or more than 1,048,576 bytes. An error is want of memory.
///
/// - a farm's result line, or its words `J:MODE:START` alone, in the order of activities
/// - rows `J,MODE,START` in any order, and lines without a digit
/// - what `solve --json` prints, or its array alone, in any order
/// - a table of CSV with commas, semicolons or tabs, and with a heading in any order of columns or
///   without one
#[tactic(auto, using(crate::proofs::ReadingLemmas::one_way))]
pub fn read_schedule(alloc: Global, text: &[u8]) -> Result<Option<Schedule>, AllocError>
    ensures told { IfOk result (λ found. IfSome found (λ schedule. Tells text.now schedule)) }
    ensures none { IfOk result (λ found. IfNone found ((s : ScheduleData) → Tells text.now s → ⊥)) }
{
    if text.len() > MOST_BYTES {
        return Ok(None);
    }
    read_any(alloc, text)
}
