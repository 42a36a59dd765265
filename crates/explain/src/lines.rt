//! The lines of a text, their words, and how a word is shown.
use psplib_mm::is_blank_byte;
use std::alloc::{AllocError, Global};
use std::{fmt, str};

/// A `Piece` is a line or a word, with the number of its line, from 1.
#[derive(Clone, Copy, Debug)]
pub(crate) struct Piece<'a> {
    pub(crate) line: usize,
    pub(crate) bytes: &'a [u8],
}

/// The text before its end mark, if it has one.
fn shown(text: &[u8]) -> &[u8] {
    text.split(|b| *b == 0x1A).next().unwrap_or(text)
}

fn without_return(line: &[u8]) -> &[u8] {
    match line {
        [front @ .., b'\r'] => front,
        _ => line,
    }
}

pub(crate) fn lines_of(alloc: Global, text: &[u8]) -> Result<Vec<Piece<'_>>, AllocError> {
    let mut lines = Vec::new(alloc);
    let mut number = 0usize;
    for line in shown(text).split(|b| *b == b'\n') {
        number = number.saturating_add(1);
        lines.push(Piece {
            line: number,
            bytes: without_return(line),
        })?;
    }
    Ok(lines)
}

pub(crate) fn push_words<'a>(
    words: &mut Vec<Piece<'a>>,
    line: Piece<'a>,
) -> Result<(), AllocError> {
    for word in line.bytes.split(|b| is_blank_byte(*b)) {
        if !word.is_empty() {
            words.push(Piece {
                line: line.line,
                bytes: word,
            })?;
        }
    }
    Ok(())
}

pub(crate) fn first_word(bytes: &[u8]) -> Option<&[u8]> {
    bytes
        .split(|b| is_blank_byte(*b))
        .find(|word| !word.is_empty())
}

/// A greater number counts as `u64::MAX`.
pub(crate) fn number(word: &[u8]) -> Option<u64> {
    if word.is_empty() {
        return None;
    }
    let mut value = 0u64;
    for b in word {
        if !b.is_ascii_digit() {
            return None;
        }
        value = value
            .saturating_mul(10)
            .saturating_add(u64::from(*b - b'0'));
    }
    Some(value)
}

/// Only a word of 20 digits or more gives `u64::MAX`.
#[derive(Clone, Copy, Debug)]
pub(crate) struct Count(pub(crate) u64);

impl fmt::Display for Count {
    fn fmt<W: fmt::Write>(&self, f: &mut fmt::Formatter<W>) -> fmt::Result {
        let number = self.0;
        if number == u64::MAX {
            write!(f, "a number of 20 digits or more")
        } else {
            write!(f, "{number}")
        }
    }
}

/// An empty line behind the last line feed does not count.
pub(crate) fn count_lines(lines: &[Piece<'_>]) -> usize {
    match lines.last() {
        Some(last) if last.bytes.is_empty() => lines.len().saturating_sub(1),
        _ => lines.len(),
    }
}

pub(crate) const MOST_SHOWN: usize = 40;

/// A word that is long, or that a terminal might obey, is named and not shown.
pub(crate) fn shown_word(word: &[u8]) -> &str {
    if word.len() > MOST_SHOWN {
        return "a long word";
    }
    if !word.iter().all(|b| b.is_ascii_graphic()) {
        return "a word with other signs than ASCII has";
    }
    str::from_utf8(word).unwrap_or("a word")
}
