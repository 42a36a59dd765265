//! Why a text is of no project.
use crate::head::{DOUBLY, JOBS, Label, NONRENEWABLE, PROJECTS, RENEWABLE, Value, value_of};
use crate::limits::why_limit;
use crate::lines::{Count, Piece, count_lines, first_word, number, shown_word};
use crate::rows::{FileRow, Misfit, first_misfit, misnumbered, number_at};
use crate::sections::{lines_below, near_title};
use crate::sheet::{Sheet, sheet_of};
use psplib_mm::{MOST_BYTES, MmFault, SectionName};
use std::alloc::{AllocError, Global};

fn put_row(text: &mut String, row: &FileRow) -> Result<(), AllocError> {
    let job = row.job;
    match row.mode {
        Some(mode) => write!(text, "mode {mode} of job {job}"),
        None => write!(text, "job {job}"),
    }
}

fn put_words(text: &mut String, count: usize) -> Result<(), AllocError> {
    if count == 1 {
        text.push_str("1 word")
    } else {
        write!(text, "{count} words")
    }
}

fn put_needs(text: &mut String, row: &FileRow) -> Result<(), AllocError> {
    match (row.mode, row.has_job) {
        (Some(_), true) => {
            let resources = row.words.saturating_sub(3);
            write!(
                text,
                "the numbers of the job and the mode, the duration and {resources} of resources"
            )
        }
        (Some(_), false) => {
            let resources = row.words.saturating_sub(2);
            write!(
                text,
                "the number of the mode, the duration and {resources} of resources"
            )
        }
        (None, _) => {
            let count = row.words.saturating_sub(3);
            let successors = if count == 1 {
                "successor"
            } else {
                "successors"
            };
            write!(
                text,
                "its number, those of its modes and successors, and {count} {successors}"
            )
        }
    }
}

fn put_misfit(text: &mut String, misfit: &Misfit<'_>) -> Result<(), AllocError> {
    match misfit {
        Misfit::Other(row, word) => {
            let (line, found) = (word.line, shown_word(word.bytes));
            write!(text, "line {line}: ")?;
            put_row(text, row)?;
            write!(text, " is wanted, and {found} is found")
        }
        Misfit::Length(row, line, found) => {
            write!(text, "line {line}: ")?;
            put_row(text, row)?;
            text.push_str(" has ")?;
            put_words(text, *found)?;
            let wanted = row.words;
            write!(text, ", and {wanted} are wanted: ")?;
            put_needs(text, row)
        }
        Misfit::Missing(row) => {
            put_row(text, row)?;
            text.push_str(" is missing at the end of the section")
        }
        Misfit::Surplus(line, count) => {
            write!(text, "line {line}: ")?;
            put_words(text, *count)?;
            text.push_str(" too many behind the last job")
        }
    }
}

fn why_rows(
    alloc: Global,
    words: &[Piece<'_>],
    rows: &[FileRow],
) -> Result<Option<String>, AllocError> {
    let Some(misfit) = first_misfit(words, rows) else {
        return Ok(None);
    };
    let mut text = String::new(alloc);
    put_misfit(&mut text, &misfit)?;
    Ok(Some(text))
}

fn why_count(
    alloc: Global,
    sheet: &Sheet<'_>,
    name: SectionName,
) -> Result<Option<String>, AllocError> {
    match name {
        SectionName::PrecedenceRelations => why_rows(alloc, &sheet.precedence, &sheet.jobs),
        SectionName::RequestsDurations => why_rows(alloc, &sheet.requests, &sheet.modes),
        SectionName::ResourceAvailabilities => {
            let (found, wanted) = (sheet.availabilities.len(), sheet.resources);
            let mut text = String::new(alloc);
            text.push_str("the section has ")?;
            put_words(&mut text, found)?;
            write!(text, ", and {wanted} are wanted, one for each resource")?;
            Ok(Some(text))
        }
    }
}

fn why_numbering(alloc: Global, sheet: &Sheet<'_>) -> Result<Option<String>, AllocError> {
    let sections = [
        (sheet.precedence.as_slice(), sheet.jobs.as_slice()),
        (sheet.requests.as_slice(), sheet.modes.as_slice()),
    ];
    for (words, rows) in sections {
        for row in rows {
            if let Some(word) = misnumbered(words, row) {
                let mut text = String::new(alloc);
                put_misfit(&mut text, &Misfit::Other(*row, word))?;
                return Ok(Some(text));
            }
        }
    }
    Ok(None)
}

fn why_number(alloc: Global, sheet: &Sheet<'_>, line: usize) -> Result<Option<String>, AllocError> {
    let sections = [
        sheet.precedence.as_slice(),
        sheet.requests.as_slice(),
        sheet.availabilities.as_slice(),
    ];
    for words in sections {
        for word in words {
            if word.line == line && number(word.bytes).is_none() {
                let shown = shown_word(word.bytes);
                return Ok(Some(format!(in alloc;
                    "line {line}: {shown} is found where a number is wanted, in digits alone"
                )?));
            }
        }
    }
    Ok(None)
}

/// Returns an empty text if nothing is wrong with the successor.
fn blame_of(words: &[Piece<'_>], from: usize, place: usize, job: u64, jobs: u64) -> &'static str {
    let found = number_at(words, place);
    if found <= job {
        return "is not above its job";
    }
    if found > jobs {
        return "is above the number of jobs";
    }
    for earlier in from..place {
        if number_at(words, earlier) == found {
            return "is named twice";
        }
    }
    ""
}

fn why_successor_of(
    alloc: Global,
    words: &[Piece<'_>],
    row: &FileRow,
    jobs: u64,
) -> Result<Option<String>, AllocError> {
    let from = row.start.saturating_add(3);
    let end = row.start.saturating_add(row.words).min(words.len());
    for place in from..end {
        let blame = blame_of(words, from, place, row.job, jobs);
        if !blame.is_empty()
            && let Some(word) = words.get(place)
        {
            let (line, job, shown) = (word.line, row.job, shown_word(word.bytes));
            return Ok(Some(format!(in alloc;
                "line {line}: successor {shown} of job {job} {blame}"
            )?));
        }
    }
    Ok(None)
}

fn why_successor(alloc: Global, sheet: &Sheet<'_>) -> Result<Option<String>, AllocError> {
    let jobs = sheet.jobs.len() as u64;
    for row in &sheet.jobs {
        if let Some(text) = why_successor_of(alloc, &sheet.precedence, row, jobs)? {
            return Ok(Some(text));
        }
    }
    Ok(None)
}

fn why_label(
    alloc: Global,
    head: &[Piece<'_>],
    label: Label,
) -> Result<Option<String>, AllocError> {
    let name = label.name;
    match value_of(head, label) {
        Value::Empty(line) => Ok(Some(format!(in alloc;
            "line {line}: a number is wanted behind '{name}:'"
        )?)),
        Value::Word(word) => {
            let (line, shown) = (word.line, shown_word(word.bytes));
            Ok(Some(format!(in alloc;
                "line {line}: a number is wanted behind '{name}:', and {shown} is found"
            )?))
        }
        _ => Ok(None),
    }
}

fn begins_with_number(lines: &[Piece<'_>]) -> bool {
    match lines.iter().find_map(|line| first_word(line.bytes)) {
        Some(word) => number(word).is_some(),
        None => false,
    }
}

/// The first count without a number, or else that of jobs, which is missing.
fn why_head(alloc: Global, text: &[u8], sheet: &Sheet<'_>) -> Result<Option<String>, AllocError> {
    let head = sheet.head.as_slice();
    for label in [PROJECTS, JOBS, RENEWABLE, NONRENEWABLE, DOUBLY] {
        if let Some(told) = why_label(alloc, head, label)? {
            return Ok(Some(told));
        }
    }
    let (name, count) = (JOBS.name, count_lines(head));
    let mut told = String::new(alloc);
    write!(
        told,
        "no line '{name}: COUNT' is found above the first section"
    )?;
    if text.is_empty() {
        told.push_str("; the file is empty")?;
    } else if text.contains(&0) || text.starts_with(b"\xEF\xBB\xBF") {
        told.push_str("; the file is no plain text, or begins with a byte order mark")?;
    } else if begins_with_number(&sheet.lines) {
        told.push_str(
            "; it begins with a number, as files of Patterson's layout (.rcp) do, which is not read",
        )?;
    } else {
        write!(told, ", in lines 1 to {count}")?;
    }
    Ok(Some(told))
}

fn why_fixed(
    alloc: Global,
    head: &[Piece<'_>],
    label: Label,
    wanted: u64,
) -> Result<Option<String>, AllocError> {
    let name = label.name;
    match value_of(head, label) {
        Value::Number(line, number) => {
            let found = Count(number);
            Ok(Some(format!(in alloc;
                "line {line}: {found} is found behind '{name}:', and {wanted} is wanted"
            )?))
        }
        _ => Ok(None),
    }
}

fn why_section(
    alloc: Global,
    sheet: &Sheet<'_>,
    name: SectionName,
) -> Result<Option<String>, AllocError> {
    let above = match name {
        SectionName::PrecedenceRelations => None,
        SectionName::RequestsDurations => Some(SectionName::PrecedenceRelations),
        SectionName::ResourceAvailabilities => Some(SectionName::RequestsDurations),
    };
    let lines = sheet.lines.as_slice();
    let all = count_lines(lines);
    let rest = match above {
        Some(above) => lines_below(lines, above).unwrap_or(lines),
        None => lines,
    };
    let from = lines.len().saturating_sub(rest.len());
    let mut told = if from == 0 {
        format!(in alloc; "none of its {all} lines is '{name}:'")?
    } else {
        format!(in alloc; "no line below line {from} is '{name}:'")?
    };
    if let Some(line) = near_title(alloc, rest, name)? {
        write!(told, "; line {line} is near: capitals and the colon count")?;
    }
    Ok(Some(told))
}

fn told(alloc: Global, text: &[u8], fault: MmFault) -> Result<Option<String>, AllocError> {
    let sheet = sheet_of(alloc, text)?;
    match fault {
        MmFault::Header => why_head(alloc, text, &sheet),
        MmFault::Projects => why_fixed(alloc, &sheet.head, PROJECTS, 1),
        MmFault::Doubly => why_fixed(alloc, &sheet.head, DOUBLY, 0),
        MmFault::Section(name) => why_section(alloc, &sheet, name),
        MmFault::Number(line) => why_number(alloc, &sheet, line as usize),
        MmFault::Count(name) => why_count(alloc, &sheet, name),
        MmFault::Numbering(_) => why_numbering(alloc, &sheet),
        MmFault::Successor(_) => why_successor(alloc, &sheet),
        MmFault::Limit(limit) => why_limit(alloc, &sheet, limit),
        _ => Ok(None),
    }
}

/// Why `text` has no project: the line, the job, and the words that are wanted and found. `fault`
/// is what `psplib_mm::read` returned of `text`.
pub fn why_file(alloc: Global, text: &[u8], fault: MmFault) -> Option<String> {
    match fault {
        MmFault::TooLong => format!(in alloc; "the file has more than {MOST_BYTES} bytes").ok(),
        MmFault::NoMemory => None,
        _ => told(alloc, text, fault).ok().flatten(),
    }
}
