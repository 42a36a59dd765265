ghost use Rattle.std.specs.Prelude.{◌≡◌, [], IfOk, Ok, Err};
ghost use Rattle.psplib_mm.specs.Text.{words_in};
ghost use Rattle.psplib_mm.specs.Gives.{Gives};
ghost use Rattle.psplib_mm.specs.Scan.{joined, joined_up_to, kept_cells, cells_or};

use crate::cell::Cell;
use crate::fault::MmFault;
use crate::lines::Piece;
use crate::words::{Words, number};
use std::alloc::{AllocError, Global};
use std::marker::Model;

/// A `Numbers` is the numbers that a section's words write, up to the first word that writes none.
#[derive(Debug, Drop)]
pub struct Numbers {
    cells: Vec<Cell>,
    /// The line of the first word that writes no number.
    stray: Option<u32>,
}

impl Model for Numbers {
    ghost use Rattle.std.specs.Prelude.{List, Result};
    ghost use Rattle.psplib_mm.specs.declared.cell.Cell.{Cell};
    ghost use Rattle.psplib_mm.specs.declared.fault.MmFault.{MmFault};
    ghost use Rattle.psplib_mm.specs.Scan.{cells_or};

    ghost Value = { Result (List Cell) MmFault };

    ghost view = { λ n. cells_or n.stray n.cells.items };
}

impl Numbers {
    pub fn new(alloc: Global) -> Numbers
        ensures { result ≡ Ok [] }
    {
        Numbers {
            cells: Vec::new(alloc),
            stray: None,
        }
    }

    pub fn push_line(&mut self, line: &Piece<'_>) -> Result<(), AllocError>
        ensures { IfOk result (λ _. self.new ≡ joined self.old (kept_cells (words_in line.now))) }
    {
        if self.stray.is_none() {
            self.stray = push_words(&mut self.cells, line)?;
        }
        Ok(())
    }

    /// Adds numbers of `line` until there are `most`.
    pub fn push_line_up_to(&mut self, line: &Piece<'_>, most: usize) -> Result<(), AllocError>
        ensures { IfOk result (λ _. self.new ≡ joined_up_to most self.old (words_in line.now)) }
    {
        if self.stray.is_none() {
            self.stray = push_words_up_to(&mut self.cells, line, most)?;
        }
        Ok(())
    }

    /// Fails if a word was no number.
    pub fn into_cells(self) -> Result<Vec<Cell>, MmFault>
        ensures { Gives (λ v. v.items) result self }
    {
        match self.stray {
            Some(line) => Err(MmFault::Number(line)),
            None => Ok(self.cells),
        }
    }
}

/// Stops at a word that is no number, and returns its line.
fn push_words(cells: &mut Vec<Cell>, line: &Piece<'_>) -> Result<Option<u32>, AllocError>
    ensures { IfOk result (λ stray.
        cells_or stray cells.new.items ≡ joined (Ok cells.old.items) (kept_cells (words_in line.now))) }
{
    let mut words = Words::of(line);
    while let Some(word) = words.next_word() {
        let Some(number) = number(word.bytes) else {
            return Ok(Some(word.line));
        };
        cells.push(Cell {
            line: word.line,
            number,
        })?;
    }
    Ok(None)
}

/// Stops at a word that is no number, and returns its line, or at `most` numbers.
fn push_words_up_to(
    cells: &mut Vec<Cell>,
    line: &Piece<'_>,
    most: usize,
) -> Result<Option<u32>, AllocError>
    ensures { IfOk result (λ stray.
        cells_or stray cells.new.items ≡ joined_up_to most (Ok cells.old.items) (words_in line.now)) }
{
    let mut words = Words::of(line);
    while cells.len() < most {
        let Some(word) = words.next_word() else {
            return Ok(None);
        };
        let Some(number) = number(word.bytes) else {
            return Ok(Some(word.line));
        };
        cells.push(Cell {
            line: word.line,
            number,
        })?;
    }
    Ok(None)
}
