//! The places that words and lines of a text write.
ghost use Rattle.std.specs.Prelude.{◌≡◌, ◌==◌, map, option_map, IfOk};
ghost use Rattle.std.specs.Char.{is_ascii_whitespace};
ghost use Rattle.std.specs.List.{filter, position, slice_split};
ghost use Rattle.schedule_files.specs.ScheduleRows.{before, behind, has_digit, is_word, number_in, place_at, places_at};
ghost use Rattle.schedule_files.specs.ScheduleRows.{rows_of, words_of};

use crate::places::ScheduleEntry;
use psplib_mm::number;
use std::alloc::{AllocError, Global};

fn spaced(alloc: Global, text: &[u8]) -> Result<Vec<&[u8]>, AllocError>
    ensures { IfOk result (λ parts.
        map (λ part. part.now) parts.items ≡ slice_split is_ascii_whitespace text.now) }
{
    text.split(|b| b.is_ascii_whitespace()).collect(alloc)
}

fn filled<'a>(alloc: Global, parts: &[&'a [u8]]) -> Result<Vec<&'a [u8]>, AllocError>
    ensures { IfOk result (λ words.
        map (λ word. word.now) words.items ≡ filter is_word (map (λ part. part.now) parts.now)) }
{
    let mut words = Vec::new(alloc);
    for part in parts {
        if !part.is_empty() {
            words.push(*part)?;
        }
    }
    Ok(words)
}

pub(crate) fn words_of(alloc: Global, text: &[u8]) -> Result<Vec<&[u8]>, AllocError>
    ensures { IfOk result (λ words. map (λ word. word.now) words.items ≡ words_of text.now) }
{
    let parts = spaced(alloc, text)?;
    filled(alloc, parts.as_slice())
}

fn lines_of(alloc: Global, text: &[u8]) -> Result<Vec<&[u8]>, AllocError>
    ensures { IfOk result (λ lines. map (λ line. line.now) lines.items ≡ slice_split (λ b. b == 10) text.now) }
{
    text.split(|b| *b == b'\n').collect(alloc)
}

pub(crate) fn has_digit(line: &[u8]) -> bool
    ensures { result ≡ has_digit line.now }
{
    line.iter().any(|b| b.is_ascii_digit())
}

fn numbered<'a>(alloc: Global, lines: &[&'a [u8]]) -> Result<Vec<&'a [u8]>, AllocError>
    ensures { IfOk result (λ rows.
        map (λ row. row.now) rows.items ≡ filter has_digit (map (λ line. line.now) lines.now)) }
{
    let mut rows = Vec::new(alloc);
    for line in lines {
        if has_digit(line) {
            rows.push(*line)?;
        }
    }
    Ok(rows)
}

/// The lines with a digit.
pub(crate) fn rows_of(alloc: Global, text: &[u8]) -> Result<Vec<&[u8]>, AllocError>
    ensures { IfOk result (λ rows. map (λ row. row.now) rows.items ≡ rows_of text.now) }
{
    let lines = lines_of(alloc, text)?;
    numbered(alloc, lines.as_slice())
}

/// A number above `u32::MAX` counts as `u32::MAX`.
pub(crate) fn number_in(text: &[u8]) -> Option<u32>
    ensures { result ≡ number_in text.now }
{
    number(text.trim_ascii())
}

fn mark_place(text: &[u8], mark: u8) -> Option<usize>
    ensures { result ≡ position (λ b. b == mark) text.now }
{
    text.iter().position(|b| *b == mark)
}

fn before(text: &[u8], mark: u8) -> &[u8]
    ensures { result.now ≡ before mark text.now }
{
    match mark_place(text, mark) {
        Some(end) => &text[..end],
        None => text,
    }
}

fn behind(text: &[u8], mark: u8) -> &[u8]
    ensures { result.now ≡ behind mark text.now }
{
    match mark_place(text, mark) {
        Some(end) => &text[end + 1..],
        None => &text[text.len()..],
    }
}

/// Three numbers with a mark between them.
pub(crate) fn place_at(text: &[u8], mark: u8) -> Option<ScheduleEntry>
    ensures { result ≡ place_at mark text.now }
{
    let rest = behind(text, mark);
    let activity = number_in(before(text, mark))?;
    let mode = number_in(before(rest, mark))?;
    let start = number_in(behind(rest, mark))?;
    Some(ScheduleEntry {
        activity,
        mode,
        start,
    })
}

pub(crate) fn places_at(
    alloc: Global,
    texts: &[&[u8]],
    mark: u8,
) -> Result<Option<Vec<ScheduleEntry>>, AllocError>
    ensures { IfOk result (λ found.
        option_map (λ places. places.items) found ≡ places_at mark (map (λ text. text.now) texts.now)) }
{
    let mut places = Vec::new(alloc);
    for text in texts {
        let Some(place) = place_at(text, mark) else {
            return Ok(None);
        };
        places.push(place)?;
    }
    Ok(Some(places))
}
