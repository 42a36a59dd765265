//! Names of activities, from lines `J,NAME`.
use csv::{ByteRecord, ReaderBuilder};
use std::alloc::{AllocError, Global};

/// An `ActivityName` is the name of the activity with this number, counted from 1.
#[derive(Debug, Drop)]
pub struct ActivityName {
    pub number: usize,
    pub text: String,
}

fn text_of(field: Option<&[u8]>) -> Option<&str> {
    let text = str::from_utf8(field?).ok()?.trim();
    if text.bytes().any(|byte| byte < 32 || byte == 127) {
        return None;
    }
    Some(text)
}

fn name_of(alloc: Global, row: &ByteRecord) -> Result<Option<ActivityName>, AllocError> {
    let Some(number) = text_of(row.get(0)) else {
        return Ok(None);
    };
    let Ok(number) = number.parse::<usize>() else {
        return Ok(None);
    };
    match text_of(row.get(1)) {
        Some(text) => Ok(Some(ActivityName {
            number,
            text: String::from_str(alloc, text)?,
        })),
        None => Ok(None),
    }
}

/// The names in the lines `J,NAME` of a CSV text. A line without a number or with a control
/// character in its name is passed over. An error is want of memory.
pub fn names_of(alloc: Global, bytes: &[u8]) -> Result<Vec<ActivityName>, AllocError> {
    let mut reader = ReaderBuilder::new()
        .has_headers(false)
        .flexible(true)
        .from_reader(alloc, bytes);
    let mut row = ByteRecord::new(alloc);
    let mut names = Vec::new(alloc);
    for _ in 0..bytes.len() {
        match reader.read_byte_record(&mut row) {
            Ok(true) => {}
            Ok(false) => return Ok(names),
            Err(_) => return Err(AllocError),
        }
        if let Some(name) = name_of(alloc, &row)? {
            names.push(name)?;
        }
    }
    Ok(names)
}

/// The last name of the activity, or an empty one.
pub fn name_at(names: &[ActivityName], number: usize) -> &str {
    let mut found = "";
    for name in names {
        if name.number == number {
            found = name.text.as_str();
        }
    }
    found
}
