//! Lines of a reader without memory: a line's end, and lines that no buffer holds whole.
ghost use Rattle.std.specs.Prelude.{◌≡◌, ◌≢◌, ◌<◌, true, false, not, ◌&&◌, ◌||◌, ◌==◌, take, [], ◌∷◌, ◌++◌, All, IfOk, IfSome, OnErr, length};
ghost use Rattle.std.specs.List.{position};
ghost use Rattle.watched_io.specs.Failure.{HasFailed, IsNotedAtMostOnce};
ghost use Rattle.psplib_mm.specs.Text.{is_blank, is_line_feed};
ghost use Rattle.session_lines.specs.Cause.{HasCause, IsLonger};
ghost use Rattle.session_lines.specs.Taken.{Extends, TakesPiece, TakesIf, IsFront};

use crate::text::LONGEST;
use crate::words::is_blank;
use arrayvec::ArrayVec;
use memchr::memchr;
use std::io::BufRead;
use watched_io::{Watch, fill};

/// A `ReadFault` is a failed read, or more bytes than may come.
#[derive(Clone, Copy, Debug, PartialEq, Eq)]
pub struct ReadFault;

/// `LONGEST` + 1 bytes show that a line is too long; two more hold its `\r\n`.
pub const KEPT_OF_LINE: usize = LONGEST + 3;

/// A `GatheredLine` is a line that is gathered: its first bytes, with its end if that is among them.
#[derive(Debug, Drop)]
pub struct GatheredLine {
    pub kept: ArrayVec<u8, KEPT_OF_LINE>,
    /// Whether the line, without its end, has no byte of a word.
    pub is_blank: bool,
    /// Whether the last byte is a carriage return.
    returns: bool,
}

impl GatheredLine {
    pub fn new() -> GatheredLine
        ensures kept { result.kept.items ≡ [] }
        ensures blank { result.is_blank ≡ true }
        ensures returns { result.returns ≡ false }
    {
        GatheredLine {
            kept: ArrayVec::new(),
            is_blank: true,
            returns: false,
        }
    }

    fn keep(&mut self, byte: u8)
        ensures kept { self.new.kept.items ≡ take KEPT_OF_LINE (self.old.kept.items ++ byte ∷ []) }
        ensures blank { self.new.is_blank ≡ self.old.is_blank }
        ensures returns { self.new.returns ≡ self.old.returns }
    {
        if self.kept.len() < KEPT_OF_LINE {
            self.kept.push(byte);
        }
    }

    fn push(&mut self, byte: u8)
        ensures kept { self.new.kept.items ≡ take KEPT_OF_LINE (self.old.kept.items ++ byte ∷ []) }
        ensures blank { self.new.is_blank
            ≡ ((self.old.is_blank && not self.old.returns) && ((byte == 13) || is_blank byte)) }
        ensures returns { self.new.returns ≡ (byte == 13) }
    {
        self.keep(byte);
        self.is_blank = self.is_blank && !self.returns && (byte == b'\r' || is_blank(byte));
        self.returns = byte == b'\r';
    }

    fn extend(&mut self, bytes: &[u8])
        ensures { All (λ x. x ≢ 10) bytes.now → Extends bytes.now self.old self.new }
    {
        for byte in bytes {
            self.push(*byte);
        }
    }
}

/// A `Piece` is what a reader shows of a line at once.
#[derive(Clone, Copy, Debug, PartialEq, Eq)]
pub enum Piece {
    End,
    /// Bytes of the line without its line feed.
    Inside,
    /// Bytes of the line up to its line feed, which is taken too.
    Last,
}

pub fn feed_place(bytes: &[u8]) -> Option<usize>
    ensures place { result ≡ position is_line_feed bytes.now }
    ensures within { IfSome result (λ place. place < length bytes.now) }
{
    memchr(b'\n', bytes)
}

fn take_piece<R: BufRead>(
    reader: &mut R,
    watch: &mut Watch<R>,
    left: &mut u64,
    line: &mut GatheredLine,
) -> Result<Piece, ReadFault>
    ensures taken { IfOk result (λ piece. TakesPiece piece line.old line.new left.old left.new
        (R.remaining reader.old) (R.remaining reader.new)) }
    ensures kept { IsNotedAtMostOnce result watch.old watch.new }
    ensures cause { OnErr result (HasCause (HasFailed watch.old watch.new) (R.remaining reader.old)
        (IsLonger left.old)) }
{
    let Ok(shown) = fill(reader, watch) else {
        return Err(ReadFault);
    };
    if shown.is_empty() {
        return Ok(Piece::End);
    }
    let Some(place) = feed_place(shown) else {
        let size = shown.len();
        if *left < size as u64 {
            return Err(ReadFault);
        }
        *left -= size as u64;
        line.extend(shown);
        reader.consume(size);
        return Ok(Piece::Inside);
    };
    let size = place + 1;
    if *left < size as u64 {
        return Err(ReadFault);
    }
    *left -= size as u64;
    line.extend(&shown[..place]);
    reader.consume(size);
    Ok(Piece::Last)
}

/// Gathers the next line. Returns `false` at the end of the input.
pub fn gather_line<R: BufRead>(
    reader: &mut R,
    watch: &mut Watch<R>,
    left: &mut u64,
    line: &mut GatheredLine,
) -> Result<bool, ReadFault>
    requires kept { line.old.kept.items ≡ [] }
    requires blank { line.old.is_blank ≡ true }
    requires returns { line.old.returns ≡ false }
    ensures taken { IfOk result (λ found. TakesIf found (IsFront line.new.kept.items line.new.is_blank)
        left.old left.new (R.remaining reader.old) (R.remaining reader.new)) }
    ensures fewer { IfOk result (λ found. found ≡ true → left.new < left.old) }
    ensures kept { IsNotedAtMostOnce result watch.old watch.new }
    ensures cause { OnErr result (HasCause (HasFailed watch.old watch.new) (R.remaining reader.old)
        (IsLonger left.old)) }
{
    loop {
        match take_piece(reader, watch, left, line) {
            Err(fault) => return Err(fault),
            Ok(Piece::End) => return Ok(!line.kept.is_empty()),
            Ok(Piece::Inside) => {}
            Ok(Piece::Last) => {
                line.keep(b'\n');
                return Ok(true);
            }
        }
    }
}
