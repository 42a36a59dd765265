//! The labels above the sections of a project's file, and their values.
use crate::lines::{Piece, first_word, number};
use psplib_mm::spells;

#[derive(Clone, Copy, Debug)]
pub(crate) struct Label {
    /// Its bytes without blanks.
    spelled: &'static [u8],
    /// The label as a file has it.
    pub(crate) name: &'static str,
    /// Its value if no line has it.
    missing: Option<u64>,
}

pub(crate) const PROJECTS: Label = Label {
    spelled: b"projects",
    name: "projects",
    missing: Some(1),
};

pub(crate) const JOBS: Label = Label {
    spelled: b"jobs(incl.supersource/sink)",
    name: "jobs (incl. supersource/sink )",
    missing: None,
};

pub(crate) const RENEWABLE: Label = Label {
    spelled: b"-renewable",
    name: "- renewable",
    missing: Some(0),
};

pub(crate) const NONRENEWABLE: Label = Label {
    spelled: b"-nonrenewable",
    name: "- nonrenewable",
    missing: Some(0),
};

pub(crate) const DOUBLY: Label = Label {
    spelled: b"-doublyconstrained",
    name: "- doubly constrained",
    missing: Some(0),
};

#[derive(Clone, Copy, Debug)]
pub(crate) enum Value<'a> {
    Missing,
    /// The number of a line without a word behind its colon.
    Empty(usize),
    Word(Piece<'a>),
    /// The number of the line, and its value.
    Number(usize, u64),
}

fn behind<'a>(line: &'a [u8], label: Label) -> Option<&'a [u8]> {
    let colon = line.iter().position(|b| *b == b':')?;
    let (front, rest) = line.split_at_checked(colon)?;
    if spells(front, label.spelled) {
        rest.get(1..)
    } else {
        None
    }
}

/// What the first line with this label has behind it.
pub(crate) fn value_of<'a>(head: &[Piece<'a>], label: Label) -> Value<'a> {
    for line in head {
        if let Some(rest) = behind(line.bytes, label) {
            let Some(word) = first_word(rest) else {
                return Value::Empty(line.line);
            };
            return match number(word) {
                Some(number) => Value::Number(line.line, number),
                None => Value::Word(Piece {
                    line: line.line,
                    bytes: word,
                }),
            };
        }
    }
    Value::Missing
}

/// The number of a label; without one its `missing` value, or 0.
pub(crate) fn count_of(head: &[Piece<'_>], label: Label) -> u64 {
    match value_of(head, label) {
        Value::Number(_, number) => number,
        _ => label.missing.unwrap_or(0),
    }
}

/// The line of a label, or 0 if it has no number.
pub(crate) fn line_of(head: &[Piece<'_>], label: Label) -> usize {
    match value_of(head, label) {
        Value::Number(line, _) => line,
        _ => 0,
    }
}
