//! Requests of a reader.
ghost use Rattle.std.specs.Prelude.{◌≡◌, ◌<◌, true, false, None, Some, is_some, IfOk, OnErr};
ghost use Rattle.watched_io.specs.Failure.{HasFailed, IsNotedAtMostOnce};
ghost use Rattle.session_lines.specs.Cause.{HasCause, IsLonger, IsReadGivenUp, HasReadWell};
ghost use Rattle.session_lines.specs.Script.{Takes, opened_text, is_wordless, judged};
ghost use Rattle.session_lines.specs.Taken.{TakesIf, TakesMeaning, Adds, judged_by};

use crate::bytes::{GatheredLine, ReadFault, feed_place, gather_line};
use crate::line::{LineMeaning, SubmitLine, read_line};
use crate::request::{LineFault, Request};
use crate::text::{Text, is_long, shown};
use crate::words::is_blank;
use std::alloc::Global;
use std::io::BufRead;
use watched_io::{Watch, fill};

/// The most bytes of a request, with the blank lines before it.
pub const MOST_REQUEST_BYTES: u64 = 100_000_000;

fn is_wordless(line: &[u8]) -> bool
    ensures { result ≡ is_wordless line.now }
{
    shown(line).iter().all(|byte| is_blank(*byte))
}

fn judge(line: &[u8]) -> LineMeaning
    ensures { result ≡ judged line.now }
{
    if !is_long(line) {
        return read_line(shown(line));
    }
    if is_wordless(line) {
        LineMeaning::Blank
    } else {
        LineMeaning::Long
    }
}

fn judge_gathered(line: &GatheredLine) -> LineMeaning
    ensures { result ≡ judged_by line.now.kept.items line.now.is_blank }
{
    let kept = line.kept.as_slice();
    if !is_long(kept) {
        return read_line(shown(kept));
    }
    if line.is_blank {
        LineMeaning::Blank
    } else {
        LineMeaning::Long
    }
}

// For a line that the reader does not show whole.
fn gather_meaning<R: BufRead>(
    reader: &mut R,
    watch: &mut Watch<R>,
    left: &mut u64,
) -> Result<Option<LineMeaning>, ReadFault>
    ensures taken { IfOk result (λ found. TakesMeaning found left.old left.new
        (R.remaining reader.old) (R.remaining reader.new)) }
    ensures fewer { IfOk result (λ found. is_some found ≡ true → left.new < left.old) }
    ensures kept { IsNotedAtMostOnce result watch.old watch.new }
    ensures cause { OnErr result (HasCause (HasFailed watch.old watch.new) (R.remaining reader.old)
        (IsLonger left.old)) }
{
    let mut line = GatheredLine::new();
    match gather_line(reader, watch, left, &mut line) {
        Err(fault) => Err(fault),
        Ok(false) => Ok(None),
        Ok(true) => Ok(Some(judge_gathered(&line))),
    }
}

// A line is judged in the reader's buffer if that holds it whole.
fn next_meaning<R: BufRead>(
    reader: &mut R,
    watch: &mut Watch<R>,
    left: &mut u64,
) -> Result<Option<LineMeaning>, ReadFault>
    ensures taken { IfOk result (λ found. TakesMeaning found left.old left.new
        (R.remaining reader.old) (R.remaining reader.new)) }
    ensures fewer { IfOk result (λ found. is_some found ≡ true → left.new < left.old) }
    ensures kept { IsNotedAtMostOnce result watch.old watch.new }
    ensures cause { OnErr result (HasCause (HasFailed watch.old watch.new) (R.remaining reader.old)
        (IsLonger left.old)) }
{
    let Ok(ahead) = fill(reader, watch) else {
        return Err(ReadFault);
    };
    if ahead.is_empty() {
        return Ok(None);
    }
    let Some(place) = feed_place(ahead) else {
        return gather_meaning(reader, watch, left);
    };
    let size = place + 1;
    if *left < size as u64 {
        return Err(ReadFault);
    }
    let meaning = judge(&ahead[..size]);
    reader.consume(size);
    *left -= size as u64;
    Ok(Some(meaning))
}

// For a line that the reader does not show whole.
fn gather_text_line<R: BufRead>(
    reader: &mut R,
    watch: &mut Watch<R>,
    left: &mut u64,
    text: &mut Text,
) -> Result<bool, ReadFault>
    ensures taken { IfOk result (λ found. TakesIf found (Adds text.old text.new) left.old left.new
        (R.remaining reader.old) (R.remaining reader.new)) }
    ensures stays { IfOk result (λ found. found ≡ false → text.new ≡ text.old) }
    ensures fewer { IfOk result (λ found. found ≡ true → left.new < left.old) }
    ensures kept { IsNotedAtMostOnce result watch.old watch.new }
    ensures cause { OnErr result (HasCause (HasFailed watch.old watch.new) (R.remaining reader.old)
        (IsLonger left.old)) }
{
    let mut line = GatheredLine::new();
    match gather_line(reader, watch, left, &mut line) {
        Err(fault) => Err(fault),
        Ok(false) => Ok(false),
        Ok(true) => {
            text.add(line.kept.as_slice());
            Ok(true)
        }
    }
}

// Returns `false` at the end of the input.
fn next_text_line<R: BufRead>(
    reader: &mut R,
    watch: &mut Watch<R>,
    left: &mut u64,
    text: &mut Text,
) -> Result<bool, ReadFault>
    ensures taken { IfOk result (λ found. TakesIf found (Adds text.old text.new) left.old left.new
        (R.remaining reader.old) (R.remaining reader.new)) }
    ensures stays { IfOk result (λ found. found ≡ false → text.new ≡ text.old) }
    ensures fewer { IfOk result (λ found. found ≡ true → left.new < left.old) }
    ensures kept { IsNotedAtMostOnce result watch.old watch.new }
    ensures cause { OnErr result (HasCause (HasFailed watch.old watch.new) (R.remaining reader.old)
        (IsLonger left.old)) }
{
    let Ok(ahead) = fill(reader, watch) else {
        return Err(ReadFault);
    };
    if ahead.is_empty() {
        return Ok(false);
    }
    let Some(place) = feed_place(ahead) else {
        return gather_text_line(reader, watch, left, text);
    };
    let size = place + 1;
    if *left < size as u64 {
        return Err(ReadFault);
    }
    text.add(&ahead[..size]);
    reader.consume(size);
    *left -= size as u64;
    Ok(true)
}

fn read_text<R: BufRead>(
    alloc: Global,
    reader: &mut R,
    watch: &mut Watch<R>,
    left: &mut u64,
    head: SubmitLine,
) -> Result<Request, LineFault>
    ensures takes { Takes left.old (Some (opened_text head)) (R.remaining reader.old) (R.remaining reader.new)
        result }
    ensures cause { IsReadGivenUp left.old (Some (opened_text head)) (HasFailed watch.old watch.new)
        (R.remaining reader.old)
        result }
    ensures kept { HasReadWell result watch.old watch.new }
{
    let mut text = Text::new(alloc, head);
    loop {
        let Ok(found) = next_text_line(reader, watch, left, &mut text) else {
            return Err(LineFault::Read);
        };
        if !found {
            return Err(text.cut());
        }
        if text.is_whole() {
            return text.submit(alloc);
        }
    }
}

/// Is `read_request` with `most` bytes for a request.
fn read_within<R: BufRead>(
    alloc: Global,
    reader: &mut R,
    watch: &mut Watch<R>,
    most: u64,
) -> Result<Request, LineFault>
    ensures takes { Takes most None (R.remaining reader.old) (R.remaining reader.new) result }
    ensures cause { IsReadGivenUp most None (HasFailed watch.old watch.new) (R.remaining reader.old) result }
    ensures kept { HasReadWell result watch.old watch.new }
{
    let mut left = most;
    loop {
        let Ok(found) = next_meaning(reader, watch, &mut left) else {
            return Err(LineFault::Read);
        };
        let Some(meaning) = found else {
            return Err(LineFault::Eof);
        };
        match meaning {
            LineMeaning::Blank => {}
            LineMeaning::Whole(request) => return Ok(request),
            LineMeaning::Opens(head) => return read_text(alloc, reader, watch, &mut left, head),
            LineMeaning::Long => return Err(LineFault::TooLong(None)),
            LineMeaning::Bad(who) => return Err(LineFault::Syntax(who)),
        }
    }
}

/// Takes the bytes of the next request, with the blank lines before it, also if they are faulty. It
/// fails with `LineFault::Read` if a read failed or the request has more than 100,000,000 bytes;
/// what is left then is not known.
pub fn read_request<R: BufRead>(
    alloc: Global,
    reader: &mut R,
    watch: &mut Watch<R>,
) -> Result<Request, LineFault>
    ensures takes { Takes MOST_REQUEST_BYTES None (R.remaining reader.old) (R.remaining reader.new) result }
    ensures cause { IsReadGivenUp MOST_REQUEST_BYTES None (HasFailed watch.old watch.new)
        (R.remaining reader.old)
        result }
    ensures kept { HasReadWell result watch.old watch.new }
{
    read_within(alloc, reader, watch, MOST_REQUEST_BYTES)
}
