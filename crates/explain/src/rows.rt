//! The rows of jobs and modes, and the first one that is out of place.
use crate::lines::{Piece, number};
use std::alloc::{AllocError, Global};

/// A `FileRow` is the words of a job, or of one of its modes.
#[derive(Clone, Copy, Debug)]
pub(crate) struct FileRow {
    pub(crate) job: u64,
    /// The number of the mode, in the section of requests.
    pub(crate) mode: Option<u64>,
    /// Whether the job's own number comes before the words of the mode.
    pub(crate) has_job: bool,
    /// The place of its first word.
    pub(crate) start: usize,
    /// How many words it needs.
    pub(crate) words: usize,
}

#[derive(Clone, Copy, Debug)]
pub(crate) enum Misfit<'a> {
    /// Another word is at the place of the job's or the mode's number.
    Other(FileRow, Piece<'a>),
    /// The line of its first word, and how many words that line has from there on.
    Length(FileRow, usize, usize),
    Missing(FileRow),
    /// The line of the first word behind the last row, and how many words these are.
    Surplus(usize, usize),
}

pub(crate) fn number_at(words: &[Piece<'_>], place: usize) -> u64 {
    match words.get(place) {
        Some(word) => number(word.bytes).unwrap_or(0),
        None => 0,
    }
}

fn to_count(number: u64) -> usize {
    usize::try_from(number).unwrap_or(usize::MAX)
}

/// Ends with the first row for which the section has no words.
pub(crate) fn precedence_rows(
    alloc: Global,
    words: &[Piece<'_>],
    jobs: u64,
) -> Result<Vec<FileRow>, AllocError> {
    let mut rows = Vec::new(alloc);
    let mut start = 0usize;
    for job in 0..jobs {
        let successors = to_count(number_at(words, start.saturating_add(2)));
        let row = FileRow {
            job: job.saturating_add(1),
            mode: None,
            has_job: true,
            start,
            words: successors.saturating_add(3),
        };
        rows.push(row)?;
        start = start.saturating_add(row.words);
        if row.start >= words.len() {
            break;
        }
    }
    Ok(rows)
}

fn push_modes(
    rows: &mut Vec<FileRow>,
    start: usize,
    end: usize,
    job: u64,
    modes: u64,
    resources: usize,
) -> Result<usize, AllocError> {
    if modes == 0 {
        rows.push(FileRow {
            job,
            mode: None,
            has_job: true,
            start,
            words: 1,
        })?;
        return Ok(start.saturating_add(1));
    }
    let mut next = start;
    for mode in 0..modes {
        let has_job = mode == 0;
        let row = FileRow {
            job,
            mode: Some(mode.saturating_add(1)),
            has_job,
            start: next,
            words: resources.saturating_add(if has_job { 3 } else { 2 }),
        };
        rows.push(row)?;
        next = next.saturating_add(row.words);
        if row.start >= end {
            break;
        }
    }
    Ok(next)
}

/// `modes` has the number of modes of each job.
pub(crate) fn request_rows(
    alloc: Global,
    words: &[Piece<'_>],
    modes: &[u64],
    resources: usize,
) -> Result<Vec<FileRow>, AllocError> {
    let mut rows = Vec::new(alloc);
    let mut start = 0usize;
    let mut job = 0u64;
    for count in modes {
        job = job.saturating_add(1);
        if start > words.len() {
            break;
        }
        start = push_modes(&mut rows, start, words.len(), job, *count, resources)?;
    }
    Ok(rows)
}

pub(crate) fn modes_of(
    alloc: Global,
    words: &[Piece<'_>],
    rows: &[FileRow],
) -> Result<Vec<u64>, AllocError> {
    let mut modes = Vec::new(alloc);
    for row in rows {
        modes.push(number_at(words, row.start.saturating_add(1)))?;
    }
    Ok(modes)
}

fn words_on_line(words: &[Piece<'_>], place: usize) -> usize {
    let Some(first) = words.get(place) else {
        return 0;
    };
    let rest = words.get(place..).unwrap_or(&[]);
    rest.iter()
        .take_while(|word| word.line == first.line)
        .count()
}

pub(crate) fn misnumbered<'a>(words: &[Piece<'a>], row: &FileRow) -> Option<Piece<'a>> {
    let mut place = row.start;
    if row.has_job {
        let word = *words.get(place)?;
        if number(word.bytes) != Some(row.job) {
            return Some(word);
        }
        place = place.saturating_add(1);
    }
    let mode = row.mode?;
    let word = *words.get(place)?;
    if number(word.bytes) != Some(mode) {
        return Some(word);
    }
    None
}

fn is_uneven(words: &[Piece<'_>], row: &FileRow) -> bool {
    let end = row.start.saturating_add(row.words);
    if end > words.len() {
        return true;
    }
    match (words.get(end.saturating_sub(1)), words.get(end)) {
        (Some(last), Some(next)) => last.line == next.line,
        _ => false,
    }
}

fn misfit_of<'a>(words: &[Piece<'a>], row: &FileRow) -> Option<Misfit<'a>> {
    let Some(first) = words.get(row.start) else {
        return Some(Misfit::Missing(*row));
    };
    if let Some(word) = misnumbered(words, row) {
        return Some(Misfit::Other(*row, word));
    }
    if is_uneven(words, row) {
        let found = words_on_line(words, row.start);
        return Some(Misfit::Length(*row, first.line, found));
    }
    None
}

pub(crate) fn first_misfit<'a>(words: &[Piece<'a>], rows: &[FileRow]) -> Option<Misfit<'a>> {
    let mut end = 0usize;
    for row in rows {
        if let Some(misfit) = misfit_of(words, row) {
            return Some(misfit);
        }
        end = row.start.saturating_add(row.words);
    }
    let first = words.get(end)?;
    Some(Misfit::Surplus(first.line, words.len().saturating_sub(end)))
}
