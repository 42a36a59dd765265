ghost use Rattle.std.specs.Prelude.{◌≡◌, take, IfOk};
ghost use Rattle.std.specs.List.{before_first};
ghost use Rattle.psplib_mm.specs.Reading.{title_of, begins, is_section_line, lines_after, words_below};
ghost use Rattle.psplib_mm.specs.Gives.{Gives};
ghost use Rattle.psplib_mm.specs.Scan.{kept_cells};

use crate::fault::{MmFault, SectionName};
use crate::lines::{Lines, Piece};
use crate::numbers::Numbers;
use crate::words::{is_rule, spells};
use std::alloc::{AllocError, Global};

fn title(name: SectionName) -> &'static [u8]
    ensures { result.now ≡ title_of name }
{
    match name {
        SectionName::PrecedenceRelations => b"PRECEDENCERELATIONS:",
        SectionName::RequestsDurations => b"REQUESTS/DURATIONS:",
        SectionName::ResourceAvailabilities => b"RESOURCEAVAILABILITIES:",
    }
}

fn is_title(line: &Piece<'_>, name: SectionName) -> bool
    ensures { result ≡ begins name line.now }
{
    spells(line.bytes, title(name))
}

/// Whether the line begins a section of any of the four kinds.
pub fn is_section(line: &Piece<'_>) -> bool
    ensures { result ≡ is_section_line line.now }
{
    spells(line.bytes, b"PROJECTINFORMATION:")
        || is_title(line, SectionName::PrecedenceRelations)
        || is_title(line, SectionName::RequestsDurations)
        || is_title(line, SectionName::ResourceAvailabilities)
}

/// Takes the lines up to and with the one that begins section `name`.
pub fn enter(lines: &mut Lines<'_>, name: SectionName) -> Result<(), MmFault>
    ensures { Gives (λ _. lines.new) result (lines_after name lines.old) }
{
    while let Some(line) = lines.next_line() {
        if is_title(&line, name) {
            return Ok(());
        }
    }
    Err(MmFault::Section(name))
}

/// Takes the lines of a section and the line that begins `next`.
pub fn read_section(
    alloc: Global,
    lines: &mut Lines<'_>,
    next: SectionName,
) -> Result<Numbers, MmFault>
    ensures rest { Gives (λ _. lines.new) result (lines_after next lines.old) }
    ensures numbers { IfOk result (λ numbers.
        numbers ≡ kept_cells (words_below (before_first (begins next) lines.old))) }
{
    let mut numbers = Numbers::new(alloc);
    let mut heads = false;
    while let Some(line) = lines.next_line() {
        if is_title(&line, next) {
            return Ok(numbers);
        }
        if !is_rule(line.bytes) {
            if heads {
                numbers.push_line(&line)?;
            }
            heads = true;
        }
    }
    Err(MmFault::Section(next))
}

/// Takes the lines of the last section. No more than `most` numbers are kept.
pub fn read_last_section(
    alloc: Global,
    lines: &mut Lines<'_>,
    most: usize,
) -> Result<Numbers, AllocError>
    ensures { IfOk result (λ numbers. numbers ≡ kept_cells (take most (words_below lines.old))) }
{
    let mut numbers = Numbers::new(alloc);
    let mut heads_passed = false;
    while let Some(line) = lines.next_line() {
        if !is_rule(line.bytes) {
            if heads_passed {
                numbers.push_line_up_to(&line, most)?;
            }
            heads_passed = true;
        }
    }
    Ok(numbers)
}
