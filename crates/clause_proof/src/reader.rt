//! The steps of a proof in DRAT form (Wetzler, Heule and Hunt 2014). No proof rests on what is
//! read: a step that was misread can only be refused.
//!
//! In a text a step is numbers with blanks between them, ended by 0: variables, negated behind `-`.
//! Behind `d` the clause is deleted. In the binary form a step is the byte `a` or `d`, its
//! literals, and a byte 0. A literal is 2 · variable + sign in groups of 7 bits, the lowest first.
//! Each group but the last has the high bit set.
use std::alloc::AllocError;

const MOST_VARIABLES: u32 = 1_000_000_000;

/// The bytes that decide the form of a proof.
const FORM_BYTES: usize = 10;

#[derive(Clone, Copy)]
pub(crate) enum Step {
    Add,
    Delete,
    Unreadable,
    End,
}

#[derive(Clone, Copy)]
enum Token {
    Delete,
    Zero,
    Literal(u32),
    Unreadable,
    End,
}

#[derive(Drop)]
pub(crate) struct Reader<'a> {
    bytes: &'a [u8],
    at: usize,
    line: u32,
    is_binary: bool,
}

fn is_of_text(byte: u8) -> bool {
    (b'0' <= byte && byte <= b'9')
        || byte == b'-'
        || byte == b'd'
        || byte == b' '
        || byte == b'\t'
        || byte == b'\r'
        || byte == b'\n'
}

fn is_binary(bytes: &[u8]) -> bool {
    for at in 0..bytes.len().min(FORM_BYTES) {
        if !is_of_text(bytes[at]) {
            return true;
        }
    }
    false
}

impl<'a> Reader<'a> {
    /// A proof is binary if one of its first ten bytes is none of a text.
    pub(crate) fn new(bytes: &'a [u8]) -> Reader<'a> {
        let is_binary = is_binary(bytes);
        Reader {
            bytes,
            at: 0,
            line: if is_binary { 0 } else { 1 },
            is_binary,
        }
    }

    /// The line that was read last, from 1. In the binary form it is the number of the step.
    pub(crate) fn line(&self) -> u32 {
        self.line
    }

    pub(crate) fn step(&mut self, literals: &mut Vec<u32>) -> Result<Step, AllocError> {
        literals.clear();
        if self.is_binary {
            self.binary_step(literals)
        } else {
            self.text_step(literals)
        }
    }

    fn skip_blanks(&mut self) {
        let bytes = self.bytes;
        for place in self.at..bytes.len() {
            let byte = bytes[place];
            if byte == b'\n' {
                self.line = self.line.saturating_add(1);
            } else if byte != b' ' && byte != b'\r' && byte != b'\t' {
                self.at = place;
                return;
            }
        }
        self.at = self.bytes.len();
    }

    /// A number of at most 1,000,000,009.
    fn number(&mut self) -> Option<u32> {
        let bytes = self.bytes;
        let start = self.at;
        let mut value = 0u32;
        for place in start..bytes.len() {
            let byte = bytes[place];
            if byte < b'0' || b'9' < byte {
                self.at = place;
                return if place == start { None } else { Some(value) };
            }
            if value > MOST_VARIABLES / 10 {
                return None;
            }
            value = 10 * value + (byte - b'0') as u32;
        }
        self.at = self.bytes.len();
        if start < self.bytes.len() {
            Some(value)
        } else {
            None
        }
    }

    fn token(&mut self) -> Token {
        self.skip_blanks();
        if self.at >= self.bytes.len() {
            return Token::End;
        }
        let byte = self.bytes[self.at];
        if byte == b'd' {
            self.at += 1;
            return Token::Delete;
        }
        let negative = byte == b'-';
        if negative {
            self.at += 1;
        }
        match self.number() {
            Some(0) if !negative => Token::Zero,
            Some(variable) if 0 < variable && variable <= MOST_VARIABLES => Token::Literal(
                2 * variable + negative as u32,
            ),
            _ => Token::Unreadable,
        }
    }

    fn text_step(&mut self, literals: &mut Vec<u32>) -> Result<Step, AllocError> {
        let mut step = Step::Add;
        for count in 0..usize::MAX {
            match self.token() {
                Token::Delete => {
                    if count > 0 {
                        return Ok(Step::Unreadable);
                    }
                    step = Step::Delete;
                }
                Token::Zero => return Ok(step),
                Token::Literal(literal) => literals.push(literal)?,
                Token::Unreadable => return Ok(Step::Unreadable),
                Token::End => return Ok(if count == 0 {
                    Step::End
                } else {
                    Step::Unreadable
                }),
            }
        }
        Ok(Step::Unreadable)
    }

    fn byte(&mut self) -> Option<u8> {
        if self.at >= self.bytes.len() {
            return None;
        }
        let byte = self.bytes[self.at];
        self.at += 1;
        Some(byte)
    }

    /// A literal, or 0 for the end of a step.
    fn grouped(&mut self) -> Option<u32> {
        let mut value = 0u64;
        let mut factor = 1u64;
        for _ in 0..5 {
            let byte = self.byte()?;
            value = value.wrapping_add(((byte % 128) as u64).wrapping_mul(factor));
            if byte < 128 {
                return match u32::try_from(value) {
                    Ok(0) => Some(0),
                    Ok(literal) if 2 <= literal && literal / 2 <= MOST_VARIABLES => Some(literal),
                    _ => None,
                };
            }
            factor = factor.wrapping_mul(128);
        }
        None
    }

    fn binary_step(&mut self, literals: &mut Vec<u32>) -> Result<Step, AllocError> {
        let Some(kind) = self.byte() else {
            return Ok(Step::End);
        };
        self.line = self.line.saturating_add(1);
        let step = match kind {
            b'a' => Step::Add,
            b'd' => Step::Delete,
            _ => return Ok(Step::Unreadable),
        };
        for _ in self.at..self.bytes.len() {
            match self.grouped() {
                None => return Ok(Step::Unreadable),
                Some(0) => return Ok(step),
                Some(literal) => literals.push(literal)?,
            }
        }
        Ok(Step::Unreadable)
    }
}
