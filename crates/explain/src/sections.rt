//! Where the sections of a project's file begin, and their words.
use crate::lines::{Piece, push_words};
use psplib_mm::{SectionName, is_rule, spells};
use std::alloc::{AllocError, Global};
use strsim::levenshtein;

/// The most letters of a line that is compared with a title.
const MOST_LETTERS: usize = 40;

/// The most letters by which a line that is near a title differs from it.
const MOST_EDITS: usize = 3;

fn title(name: SectionName) -> &'static [u8] {
    match name {
        SectionName::PrecedenceRelations => b"PRECEDENCERELATIONS:",
        SectionName::RequestsDurations => b"REQUESTS/DURATIONS:",
        SectionName::ResourceAvailabilities => b"RESOURCEAVAILABILITIES:",
    }
}

fn is_title(line: &Piece<'_>) -> bool {
    spells(line.bytes, b"PROJECTINFORMATION:")
        || spells(line.bytes, title(SectionName::PrecedenceRelations))
        || spells(line.bytes, title(SectionName::RequestsDurations))
        || spells(line.bytes, title(SectionName::ResourceAvailabilities))
}

pub(crate) fn head_of<'b, 'a>(lines: &'b [Piece<'a>]) -> &'b [Piece<'a>] {
    match lines.iter().position(|line| is_title(line)) {
        Some(end) => lines.get(..end).unwrap_or(lines),
        None => lines,
    }
}

fn below<'b, 'a>(lines: &'b [Piece<'a>], name: SectionName) -> Option<&'b [Piece<'a>]> {
    let place = lines
        .iter()
        .position(|line| spells(line.bytes, title(name)))?;
    lines.get(place.saturating_add(1)..)
}

fn above<'b, 'a>(lines: &'b [Piece<'a>], name: SectionName) -> &'b [Piece<'a>] {
    match lines
        .iter()
        .position(|line| spells(line.bytes, title(name)))
    {
        Some(place) => lines.get(..place).unwrap_or(lines),
        None => lines,
    }
}

/// Each title is looked for below the one before it.
pub(crate) fn lines_below<'b, 'a>(
    lines: &'b [Piece<'a>],
    name: SectionName,
) -> Option<&'b [Piece<'a>]> {
    let precedence = below(lines, SectionName::PrecedenceRelations)?;
    if name == SectionName::PrecedenceRelations {
        return Some(precedence);
    }
    let requests = below(precedence, SectionName::RequestsDurations)?;
    if name == SectionName::RequestsDurations {
        return Some(requests);
    }
    below(requests, name)
}

fn letters(alloc: Global, bytes: &[u8]) -> Result<String, AllocError> {
    let mut text = String::new(alloc);
    for b in bytes {
        if b.is_ascii_alphabetic() {
            text.push(char::from(b.to_ascii_uppercase()))?;
        }
    }
    Ok(text)
}

/// The number of the first line that has nearly the letters of a title, whatever their case.
pub(crate) fn near_title(
    alloc: Global,
    lines: &[Piece<'_>],
    name: SectionName,
) -> Result<Option<usize>, AllocError> {
    let wanted = letters(alloc, title(name))?;
    for line in lines {
        let found = letters(alloc, line.bytes)?;
        if found.len() <= MOST_LETTERS && levenshtein(alloc, &found, &wanted)? <= MOST_EDITS {
            return Ok(Some(line.line));
        }
    }
    Ok(None)
}

/// The words below the line of the columns' heads.
fn words_below<'a>(alloc: Global, lines: &[Piece<'a>]) -> Result<Vec<Piece<'a>>, AllocError> {
    let mut words = Vec::new(alloc);
    let mut is_head_passed = false;
    for line in lines {
        if !is_rule(line.bytes) {
            if is_head_passed {
                push_words(&mut words, *line)?;
            }
            is_head_passed = true;
        }
    }
    Ok(words)
}

/// The words of a section, none if its title is missing.
pub(crate) fn section<'a>(
    alloc: Global,
    lines: &[Piece<'a>],
    name: SectionName,
) -> Result<Vec<Piece<'a>>, AllocError> {
    let own = lines_below(lines, name).unwrap_or(&[]);
    let own = match name {
        SectionName::PrecedenceRelations => above(own, SectionName::RequestsDurations),
        SectionName::RequestsDurations => above(own, SectionName::ResourceAvailabilities),
        SectionName::ResourceAvailabilities => own,
    };
    words_below(alloc, own)
}
