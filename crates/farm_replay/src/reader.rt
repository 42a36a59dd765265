//! The bytes of a script: read ahead, and with the numbers of their lines.
ghost use Rattle.std.specs.Prelude.{◌≡◌, IfOk, Some, length};
ghost use Rattle.std.specs.Io.Buffered.{reader_buffer};
ghost use Rattle.farm_replay.specs.Reader.{script_rest};

use memchr::{memchr, memchr_iter};
use std::alloc::Global;
use std::io;
use std::io::{BufRead, BufReader, Read};

/// The bytes of the shortest line that opens a text, `@a submit tree 1 1`.
const LEAST_SUBMIT: usize = 18;

#[derive(Clone, Copy, Debug)]
struct Lines {
    ended: u64,
    /// The first line with a byte of a word since the request began, counted from 1.
    first: Option<u64>,
    /// Whether the last line that began after `first` begins with `@`.
    is_marked: bool,
    /// The last byte, or a line feed before the first one.
    last: u8,
}

impl Lines {
    fn new() -> Lines {
        Lines {
            ended: 0,
            first: None,
            is_marked: false,
            last: b'\n',
        }
    }

    /// A carriage return is of a word unless a line feed follows it, so the next byte decides.
    fn is_of_word(&self, byte: u8) -> bool {
        match byte {
            b'\n' => false,
            b' ' | b'\t' | b'\r' => self.last == b'\r',
            _ => true,
        }
    }

    fn add(&mut self, byte: u8) {
        if self.is_of_word(byte) {
            self.first = Some(self.ended.saturating_add(1));
        }
        if byte == b'\n' {
            self.ended = self.ended.saturating_add(1);
        }
        self.last = byte;
    }

    /// The request has begun: only the ends of lines and their first bytes matter.
    fn go_on(&mut self, bytes: &[u8]) {
        let Some((last, front)) = bytes.split_last() else {
            return;
        };
        if self.last == b'\n' {
            self.is_marked = bytes[0] == b'@';
        }
        for end in memchr_iter(b'\n', front) {
            self.ended = self.ended.saturating_add(1);
            self.is_marked = matches!(bytes.get(end.saturating_add(1)), Some(b'@'));
        }
        if *last == b'\n' {
            self.ended = self.ended.saturating_add(1);
        }
        self.last = *last;
    }

    fn add_all(&mut self, bytes: &[u8]) {
        for (i, byte) in bytes.iter().enumerate() {
            if self.first.is_some() {
                self.go_on(&bytes[i..]);
                return;
            }
            self.add(*byte);
        }
    }
}

/// A `Script` is a reader that knows the lines of the request that was read last.
#[derive(Drop)]
pub(crate) struct Script<R> {
    input: BufReader<R>,
    lines: Lines,
}

impl<R: Read> Script<R> {
    pub(crate) fn new(alloc: Global, reader: R) -> io::Result<Script<R>>
    where
        R: Drop,
        ensures { IfOk result (λ script. script_rest R.remaining script ≡ R.remaining reader) }
    {
        let input = BufReader::new(alloc, reader)?;
        Ok(Script {
            input,
            lines: Lines::new(),
        })
    }

    pub(crate) fn begin(&mut self)
        ensures { script_rest R.remaining self.new ≡ script_rest R.remaining self.old }
    {
        self.lines.first = None;
        self.lines.is_marked = false;
    }

    /// The line at which the request begins, counted from 1.
    pub(crate) fn line(&self) -> u64 {
        match self.lines.first {
            Some(line) => line,
            None => self.lines.ended.saturating_add(1),
        }
    }

    /// Whether the last line of the request's text begins with `@`.
    pub(crate) fn ends_in_request(&self) -> bool {
        self.lines.is_marked
    }

    /// Whether the next request was read ahead: a whole line with a word, which opens no text.
    pub(crate) fn is_at_hand(&self) -> bool {
        let ahead = self.input.buffer();
        let Some(end) = memchr(b'\n', ahead) else {
            return false;
        };
        let line = &ahead[..end];
        line.iter().any(|byte| *byte > b' ')
            && (line.len() < LEAST_SUBMIT
                || !line.windows(6).any(|word| word == b"submit".as_slice()))
    }
}

impl<R: Read> Read for Script<R> {
    ghost remaining = { script_rest R.remaining };

    fn read(&mut self, bytes: &mut [u8]) -> io::Result<usize> {
        let count = self.input.read(bytes)?;
        self.lines.add_all(&bytes[..count]);
        Ok(count)
    }
}

impl<R: Read> BufRead for Script<R> {
    ghost consumable_len = { λ script. Some (length (reader_buffer script.input)) };

    fn fill_buf(&mut self) -> io::Result<&[u8]> {
        self.input.fill_buf()
    }

    fn consume(&mut self, amount: usize) {
        let ahead = self.input.buffer();
        self.lines.add_all(&ahead[..amount.min(ahead.len())]);
        self.input.consume(amount);
    }
}
