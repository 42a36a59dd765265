//! The first number of a project that is above its limit.
use crate::head::{JOBS, NONRENEWABLE, RENEWABLE, count_of, line_of};
use crate::lines::{Count, Piece, number};
use crate::rows::{FileRow, number_at};
use crate::sheet::Sheet;
use mrcpsp::{
    MOST_ACTIVITIES, MOST_AMOUNT, MOST_DURATION, MOST_HORIZON, MOST_MODES, MOST_RESOURCES,
};
use psplib_mm::LimitName;
use std::alloc::{AllocError, Global};

#[derive(Clone, Copy, Debug)]
struct Excess {
    line: usize,
    found: u64,
}

fn first_above(words: &[Piece<'_>], from: usize, count: usize, most: u64) -> Option<Excess> {
    let rest = words.get(from..).unwrap_or(&[]);
    for word in rest.iter().take(count) {
        let found = number(word.bytes).unwrap_or(0);
        if found > most {
            return Some(Excess {
                line: word.line,
                found,
            });
        }
    }
    None
}

fn duration_place(row: &FileRow) -> usize {
    let place = row.start.saturating_add(1);
    if row.has_job {
        place.saturating_add(1)
    } else {
        place
    }
}

fn long_mode(words: &[Piece<'_>], rows: &[FileRow]) -> Option<(FileRow, Excess)> {
    for row in rows {
        if row.mode.is_some()
            && let Some(excess) = first_above(
                words,
                duration_place(row),
                1,
                u64::from(MOST_DURATION),
            )
        {
            return Some((*row, excess));
        }
    }
    None
}

fn great_request(
    words: &[Piece<'_>],
    rows: &[FileRow],
    resources: usize,
) -> Option<(FileRow, Excess)> {
    for row in rows {
        let from = duration_place(row).saturating_add(1);
        if row.mode.is_some()
            && let Some(excess) = first_above(words, from, resources, u64::from(MOST_AMOUNT))
        {
            return Some((*row, excess));
        }
    }
    None
}

fn odd_job(words: &[Piece<'_>], rows: &[FileRow]) -> Option<(FileRow, Excess)> {
    for row in rows {
        let place = row.start.saturating_add(1);
        let found = number_at(words, place);
        if found == 0 || found > MOST_MODES as u64 {
            let line = words.get(place)?.line;
            return Some((*row, Excess { line, found }));
        }
    }
    None
}

fn horizon_of(words: &[Piece<'_>], rows: &[FileRow]) -> u64 {
    let mut total = 0u64;
    let mut longest = 0u64;
    for row in rows {
        if row.has_job {
            total = total.saturating_add(longest);
            longest = 0;
        }
        if row.mode.is_some() {
            longest = longest.max(number_at(words, duration_place(row)));
        }
    }
    total.saturating_add(longest)
}

fn tell_mode(
    alloc: Global,
    told: Option<(FileRow, Excess)>,
    what: &str,
    most: u32,
) -> Result<Option<String>, AllocError> {
    let Some((row, excess)) = told else {
        return Ok(None);
    };
    let (job, mode) = (row.job, row.mode.unwrap_or(0));
    let (line, found) = (excess.line, Count(excess.found));
    Ok(Some(format!(in alloc;
        "line {line}: {what} {found} of mode {mode} of job {job} is above {most}"
    )?))
}

fn tell_count(
    alloc: Global,
    line: usize,
    count: u64,
    what: &str,
    least: usize,
    most: usize,
) -> Result<Option<String>, AllocError> {
    let found = Count(count);
    Ok(Some(format!(in alloc;
        "line {line}: {what}: {found} are found, and {least} to {most} are allowed"
    )?))
}

pub(crate) fn why_limit(
    alloc: Global,
    sheet: &Sheet<'_>,
    limit: LimitName,
) -> Result<Option<String>, AllocError> {
    let head = sheet.head.as_slice();
    match limit {
        LimitName::Jobs => {
            let (line, jobs) = (line_of(head, JOBS), count_of(head, JOBS));
            tell_count(alloc, line, jobs, "jobs", 1, MOST_ACTIVITIES)
        }
        LimitName::Renewable => {
            let (line, count) = (line_of(head, RENEWABLE), count_of(head, RENEWABLE));
            tell_count(alloc, line, count, "renewable resources", 0, MOST_RESOURCES)
        }
        LimitName::Nonrenewable => {
            let (line, count) = (line_of(head, NONRENEWABLE), count_of(head, NONRENEWABLE));
            tell_count(
                alloc,
                line,
                count,
                "nonrenewable resources",
                0,
                MOST_RESOURCES,
            )
        }
        LimitName::Modes => match odd_job(&sheet.precedence, &sheet.jobs) {
            Some((row, excess)) => {
                let (job, line, found) = (row.job, excess.line, Count(excess.found));
                Ok(Some(format!(in alloc;
                    "line {line}: modes of job {job}: {found} are found, and 1 to {MOST_MODES} are allowed"
                )?))
            }
            None => Ok(None),
        },
        _ => why_amount(alloc, sheet, limit),
    }
}

fn why_amount(
    alloc: Global,
    sheet: &Sheet<'_>,
    limit: LimitName,
) -> Result<Option<String>, AllocError> {
    match limit {
        LimitName::Duration => {
            let told = long_mode(&sheet.requests, &sheet.modes);
            tell_mode(alloc, told, "duration", MOST_DURATION)
        }
        LimitName::Request => {
            let told = great_request(&sheet.requests, &sheet.modes, sheet.resources);
            tell_mode(alloc, told, "request", MOST_AMOUNT)
        }
        LimitName::Capacity => {
            let most = u64::from(MOST_AMOUNT);
            match first_above(&sheet.availabilities, 0, sheet.resources, most) {
                Some(excess) => {
                    let (line, found) = (excess.line, Count(excess.found));
                    Ok(Some(format!(in alloc; "line {line}: capacity {found} is above {most}")?))
                }
                None => Ok(None),
            }
        }
        _ => {
            let total = Count(horizon_of(&sheet.requests, &sheet.modes));
            Ok(Some(format!(in alloc;
                "the longest durations of all jobs sum to {total}, which is above {MOST_HORIZON}"
            )?))
        }
    }
}
