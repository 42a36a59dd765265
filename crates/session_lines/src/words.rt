//! The words of a line, one after the other.
ghost use Rattle.std.specs.Prelude.{◌≡◌, ◌≤◌, ◌==◌, length, IfSome};
ghost use Rattle.std.specs.Option.{option_copied};
ghost use Rattle.std.specs.List.{position, position_or_len};
ghost use Rattle.psplib_mm.specs.Text.{is_blank, is_other, is_same, words_of};
ghost use Rattle.psplib_mm.specs.Scan.{Takes};
ghost use Rattle.session_lines.specs.RequestLine.{one_number, two_numbers};

use std::marker::Model;
use strategy::number;

/// A `LineWords` is the words of a line that are still to come.
#[derive(Debug, Drop)]
pub struct LineWords<'a> {
    rest: &'a [u8],
}

impl<'a> Model for LineWords<'a> {
    ghost use Rattle.std.specs.Prelude.{List, ℕ};
    ghost use Rattle.psplib_mm.specs.Text.{words_of};

    ghost Value = { List (List ℕ) };

    ghost view = { λ w. words_of w.rest.now };
}

/// Whether the byte is a space or a tab.
pub fn is_blank(byte: u8) -> bool
    ensures { result ≡ is_blank byte }
{
    byte == b' ' || byte == b'\t'
}

pub fn is(word: &[u8], text: &[u8]) -> bool
    ensures { result ≡ is_same word.now text.now }
{
    word == text
}

fn word_start(bytes: &[u8]) -> Option<usize>
    ensures place { result ≡ position is_other bytes.now }
    ensures within { IfSome result (λ start. start ≤ length bytes.now) }
{
    bytes.iter().position(|b| !is_blank(*b))
}

fn blank_place(bytes: &[u8]) -> Option<usize>
    ensures { result ≡ position is_blank bytes.now }
{
    bytes.iter().position(|b| is_blank(*b))
}

fn word_end(bytes: &[u8]) -> usize
    ensures place { result ≡ position_or_len is_blank bytes.now }
    ensures within { result ≤ length bytes.now }
{
    blank_place(bytes).unwrap_or(bytes.len())
}

impl<'a> LineWords<'a> {
    pub fn of(line: &'a [u8]) -> LineWords<'a>
        ensures { result ≡ words_of line.now }
    {
        LineWords { rest: line }
    }

    pub fn next_word(&mut self) -> Option<&'a [u8]>
        ensures { Takes (option_copied result) self.old self.new }
    {
        let (_, rest) = self.rest.split_at(word_start(self.rest)?);
        let (word, rest) = rest.split_at(word_end(rest));
        self.rest = rest;
        Some(word)
    }

    pub fn are_over(mut self) -> bool
        ensures { result ≡ (length self.entry == 0) }
    {
        self.next_word().is_none()
    }

    /// The number that is left, if nothing else is left.
    pub fn one_number(mut self) -> Option<u64>
        ensures { result ≡ one_number self.entry }
    {
        let number = number(self.next_word()?);
        match self.next_word() {
            Some(_) => None,
            None => number,
        }
    }

    /// The two numbers that are left, if nothing else is left.
    pub fn two_numbers(mut self) -> Option<(u64, u64)>
        ensures { result ≡ two_numbers self.entry }
    {
        let first = self.next_word()?;
        let second = number(self.next_word()?);
        if self.next_word().is_some() {
            return None;
        }
        Some((number(first)?, second?))
    }
}
