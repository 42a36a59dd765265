ghost use Rattle.std.specs.Prelude.{◌≡◌, ◌≤◌, length};
ghost use Rattle.std.specs.List.{position, before_first};
ghost use Rattle.std.specs.Str.Lines.{strip_carriage_return};
ghost use Rattle.psplib_mm.specs.Text.{is_line_feed, is_text_end, lines_of};
ghost use Rattle.psplib_mm.specs.Scan.{Takes};

use crate::reading::MOST_BYTES;
use memchr::memchr;
use std::marker::Model;

/// A `Piece` is a line or a word, with the number of its line, from 1.
#[derive(Debug, Drop)]
pub struct Piece<'a> {
    pub line: u32,
    /// The bytes without the end of the line.
    pub bytes: &'a [u8],
}

impl<'a> Model for Piece<'a> {
    ghost use Rattle.psplib_mm.specs.Text.{Piece as TextPiece};

    ghost Value = { TextPiece };

    ghost view = { λ p. record { line = p.line; bytes = p.bytes.now } };
}

impl<'a> Piece<'a> {
    pub fn again(&self) -> Piece<'a>
        ensures { result ≡ self.now }
    {
        Piece {
            line: self.line,
            bytes: self.bytes,
        }
    }
}

/// A `Lines` is a cursor over the lines of a text.
#[derive(Debug, Drop)]
pub struct Lines<'a> {
    /// `None` past the last line.
    rest: Option<&'a [u8]>,
    /// The number of the next line.
    number: u32,
}

impl<'a> Model for Lines<'a> {
    ghost use Rattle.std.specs.Prelude.{List, ◌+◌, ◌^◌, ◌<◌};
    ghost use Rattle.std.specs.Option.{option_copied};
    ghost use Rattle.psplib_mm.specs.Text.{Piece as TextPiece};
    ghost use Rattle.psplib_mm.specs.Scan.{lines_left, bytes_left};

    ghost Value = { List TextPiece };

    ghost view = { λ l. lines_left l.number (option_copied l.rest) };

    ghost invariant = { λ l. l.number + bytes_left (option_copied l.rest) < 2 ^ 32 };
}

impl<'a> Lines<'a> {
    pub fn of(text: &'a [u8]) -> Lines<'a>
        requires { length text.now ≤ MOST_BYTES }
        ensures { result ≡ lines_of text.now }
    {
        Lines {
            rest: Some(shown(text)),
            number: 1,
        }
    }

    pub fn again(&self) -> Lines<'a>
        ensures { result ≡ self.now }
    {
        Lines {
            rest: self.rest,
            number: self.number,
        }
    }

    pub fn next_line(&mut self) -> Option<Piece<'a>>
        ensures { Takes result self.old self.new }
    {
        let rest = self.rest?;
        let line = self.number;
        let Some(end) = line_end(rest) else {
            self.rest = None;
            return Some(Piece {
                line,
                bytes: without_return(rest),
            });
        };
        self.rest = Some(&rest[end + 1..]);
        self.number += 1;
        Some(Piece {
            line,
            bytes: without_return(&rest[..end]),
        })
    }
}

fn line_end(bytes: &[u8]) -> Option<usize>
    ensures { result ≡ position is_line_feed bytes.now }
{
    memchr(b'\n', bytes)
}

fn text_end(text: &[u8]) -> Option<usize>
    ensures { result ≡ position is_text_end text.now }
{
    memchr(0x1A, text)
}

/// The text up to its end mark.
fn shown(text: &[u8]) -> &[u8]
    ensures { result.now ≡ before_first is_text_end text.now }
{
    match text_end(text) {
        Some(end) => &text[..end],
        None => text,
    }
}

fn without_return(line: &[u8]) -> &[u8]
    ensures { result.now ≡ strip_carriage_return line.now }
{
    match line {
        [front @ .., b'\r'] => front,
        _ => line,
    }
}
