//! Bytes and numbers to a writer, with no memory: gathered, and written at once.
ghost use Rattle.std.specs.Prelude.{◌≡◌, decimal};
ghost use Rattle.watched_io.specs.Failure.{IsNoted};
ghost use Rattle.session_lines.specs.Known.{Writes};
ghost use Rattle.session_lines.specs.Part.{Gathers, part_text, parts_text};

use arrayvec::ArrayVec;
use itoa::Buffer;
use std::io::Write;
use watched_io::Watch;

/// A `WriteFault` is a write that failed, or took no byte.
#[derive(Clone, Copy, Debug, PartialEq, Eq)]
pub struct WriteFault;

/// The bytes that are gathered before they are written. A reply without a schedule has fewer.
const ROOM: usize = 256;

/// A `Gathered` is the bytes that are still to be written.
pub type Gathered = ArrayVec<u8, ROOM>;

/// A `Part` is a part of a line.
#[derive(Clone, Copy, Debug)]
pub enum Part<'a> {
    Text(&'a [u8]),
    /// A number, in decimal digits.
    Number(u64),
}

/// Writes `bytes`. After a fault a prefix of them may have gone out.
pub fn put<W: Write>(writer: &mut W, watch: &mut Watch<W>, bytes: &[u8]) -> Result<(), WriteFault>
    ensures writes { Writes result (W.contents writer.old) (W.contents writer.new) bytes.now }
    ensures noted { IsNoted result watch.old watch.new }
{
    let mut rest = bytes;
    while !rest.is_empty() {
        match watch.write(writer, rest) {
            Ok(count) => rest = &rest[count..],
            Err(_) => return Err(WriteFault),
        }
    }
    Ok(())
}

/// Gathers `bytes`. If they do not fit, writes what was gathered, then `bytes`.
pub fn gather<W: Write>(
    writer: &mut W,
    watch: &mut Watch<W>,
    gathered: &mut Gathered,
    bytes: &[u8],
) -> Result<(), WriteFault>
    ensures gathers { Gathers result (W.contents writer.old) (W.contents writer.new)
        gathered.old.items gathered.new.items bytes.now }
    ensures noted { IsNoted result watch.old watch.new }
{
    if gathered.try_extend_from_slice(bytes).is_ok() {
        return Ok(());
    }
    if let Err(fault) = put(writer, watch, gathered.as_slice()) {
        return Err(fault);
    }
    gathered.clear();
    put(writer, watch, bytes)
}

fn gather_part<W: Write>(
    writer: &mut W,
    watch: &mut Watch<W>,
    gathered: &mut Gathered,
    part: Part<'_>,
) -> Result<(), WriteFault>
    ensures gathers { Gathers result (W.contents writer.old) (W.contents writer.new)
        gathered.old.items gathered.new.items (part_text part.entry) }
    ensures noted { IsNoted result watch.old watch.new }
{
    match part {
        Part::Text(bytes) => gather(writer, watch, gathered, bytes),
        Part::Number(number) => {
            gather(
                writer,
                watch,
                gathered,
                Buffer::new().format(number).as_bytes(),
            )
        }
    }
}

/// Gathers `parts` in their order. After a fault a prefix of them may have gone out.
pub fn gather_parts<W: Write>(
    writer: &mut W,
    watch: &mut Watch<W>,
    gathered: &mut Gathered,
    parts: &[Part<'_>],
) -> Result<(), WriteFault>
    ensures gathers { Gathers result (W.contents writer.old) (W.contents writer.new)
        gathered.old.items gathered.new.items (parts_text parts.now) }
    ensures noted { IsNoted result watch.old watch.new }
{
    for part in parts {
        if let Err(fault) = gather_part(writer, watch, gathered, *part) {
            return Err(fault);
        }
    }
    Ok(())
}
