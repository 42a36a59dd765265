ghost use Rattle.std.specs.Prelude.{◌≡◌, ◌≤◌, ◌==◌, length, min, IfSome};
ghost use Rattle.std.specs.Option.{option_map};
ghost use Rattle.std.specs.List.{list_all, position, position_or_len};
ghost use Rattle.psplib_mm.specs.Text.{is_blank, is_other, without_blanks, is_same, is_skipped, number_of, words_in};
ghost use Rattle.psplib_mm.specs.Scan.{Takes};

use crate::lines::Piece;
use std::marker::Model;

/// A `Words` is a cursor over the words of a line.
#[derive(Debug, Drop)]
pub struct Words<'a> {
    line: u32,
    rest: &'a [u8],
}

impl<'a> Model for Words<'a> {
    ghost use Rattle.std.specs.Prelude.{List};
    ghost use Rattle.psplib_mm.specs.Text.{Piece as TextPiece, words_in};

    ghost Value = { List TextPiece };

    ghost view = { λ w. words_in (record { line = w.line; bytes = w.rest.now }) };
}

impl<'a> Words<'a> {
    pub fn of(line: &Piece<'a>) -> Words<'a>
        ensures { result ≡ words_in line.now }
    {
        Words {
            line: line.line,
            rest: line.bytes,
        }
    }

    pub fn next_word(&mut self) -> Option<Piece<'a>>
        ensures { Takes result self.old self.new }
    {
        let (_, rest) = self.rest.split_at(word_start(self.rest)?);
        let (word, rest) = rest.split_at(word_end(rest));
        self.rest = rest;
        Some(Piece {
            line: self.line,
            bytes: word,
        })
    }
}

fn word_start(bytes: &[u8]) -> Option<usize>
    ensures place { result ≡ position is_other bytes.now }
    ensures within { IfSome result (λ start. start ≤ length bytes.now) }
{
    bytes.iter().position(|b| !is_blank_byte(*b))
}

fn blank_place(bytes: &[u8]) -> Option<usize>
    ensures { result ≡ position is_blank bytes.now }
{
    bytes.iter().position(|b| is_blank_byte(*b))
}

fn word_end(bytes: &[u8]) -> usize
    ensures place { result ≡ position_or_len is_blank bytes.now }
    ensures within { result ≤ length bytes.now }
{
    blank_place(bytes).unwrap_or(bytes.len())
}

/// A number above `u32::MAX` counts as `u32::MAX`. Returns `None` if `word` is no number.
pub fn number(word: &[u8]) -> Option<u32>
    ensures { result ≡ option_map (min u32.MAX) (number_of word.now) }
{
    if word.is_empty() {
        return None;
    }
    let mut value: u32 = 0;
    for b in word {
        if !b.is_ascii_digit() {
            return None;
        }
        value = value
            .saturating_mul(10)
            .saturating_add(u32::from(*b - b'0'));
    }
    Some(value)
}

/// Whether `b` is a space or a tab.
pub fn is_blank_byte(b: u8) -> bool
    ensures { result ≡ is_blank b }
{
    b == b' ' || b == b'\t'
}

/// Whether `line` has no word or is a rule line.
pub fn is_rule(line: &[u8]) -> bool
    ensures { result ≡ is_skipped line.now }
{
    all_blank_or(line, b'*') || all_blank_or(line, b'-')
}

fn all_blank_or(line: &[u8], mark: u8) -> bool
    ensures { result ≡ list_all (λ b. b == mark) (without_blanks line.now) }
{
    line.iter()
        .filter(|b| !is_blank_byte(**b))
        .all(|b| *b == mark)
}

/// Whether `line` without its blanks is `text`.
pub fn spells(line: &[u8], text: &[u8]) -> bool
    ensures { result ≡ is_same (without_blanks line.now) text.now }
{
    let mut rest = text;
    for b in line {
        if !is_blank_byte(*b) {
            match rest {
                [first, others @ ..] if first == b => rest = others,
                _ => return false,
            }
        }
    }
    rest.is_empty()
}
