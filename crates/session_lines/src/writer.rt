//! Reply lines to a writer.
ghost use Rattle.std.specs.Prelude.{◌≡◌, ◌++◌};
ghost use Rattle.watched_io.specs.Failure.{IsNoted};
ghost use Rattle.session_lines.specs.Known.{Writes};
ghost use Rattle.session_lines.specs.Part.{Gathers, parts_text};
ghost use Rattle.session_lines.specs.ReplyText.{line_text, places_text, reply_text, said_text, reply_line};

use crate::put::{Gathered, Part, WriteFault, gather, gather_parts, put};
use crate::reply_parts::{
    best_parts, file_parts, forgotten_parts, job_parts, ledger_parts, line_parts, place_parts,
    ran_parts, who_parts,
};
use crate::said::Said;
use arrayvec::ArrayVec;
use farm_core::{Line, Name, Reply};
use mrcpsp::Schedule;
use std::io::Write;
use watched_io::Watch;

fn gather_job<W: Write>(
    writer: &mut W,
    watch: &mut Watch<W>,
    gathered: &mut Gathered,
    parts: &[Part<'_>],
    line: &Line,
) -> Result<(), WriteFault>
    ensures gathers { Gathers result (W.contents writer.old) (W.contents writer.new)
        gathered.old.items gathered.new.items (parts_text parts.now ++ line_text line.now) }
    ensures noted { IsNoted result watch.old watch.new }
{
    if let Err(fault) = gather_parts(writer, watch, gathered, parts) {
        return Err(fault);
    }
    gather_parts(writer, watch, gathered, &line_parts(line))
}

fn gather_schedule<W: Write>(
    writer: &mut W,
    watch: &mut Watch<W>,
    gathered: &mut Gathered,
    schedule: &Schedule,
) -> Result<(), WriteFault>
    ensures gathers { Gathers result (W.contents writer.old) (W.contents writer.new)
        gathered.old.items gathered.new.items (places_text 1 schedule.now.modes schedule.now.starts) }
    ensures noted { IsNoted result watch.old watch.new }
{
    let modes = schedule.modes.as_slice();
    let starts = schedule.starts.as_slice();
    let count = modes.len().min(starts.len());
    for place in 0..count {
        let parts = place_parts(place + 1, modes[place], starts[place]);
        if let Err(fault) = gather_parts(writer, watch, gathered, &parts) {
            return Err(fault);
        }
    }
    Ok(())
}

fn gather_reply<W: Write>(
    writer: &mut W,
    watch: &mut Watch<W>,
    gathered: &mut Gathered,
    reply: &Reply,
) -> Result<(), WriteFault>
    ensures gathers { Gathers result (W.contents writer.old) (W.contents writer.new)
        gathered.old.items gathered.new.items (reply_text reply.now) }
    ensures noted { IsNoted result watch.old watch.new }
{
    match reply {
        Reply::Job(seq) => gather_parts(
            writer,
            watch,
            gathered,
            &[Part::Text(b"job "), Part::Number(*seq)],
        ),
        Reply::Line(line) => { gather_job(writer, watch, gathered, &job_parts(line.seq), line) }
        Reply::Ran(ran, line) => {
            gather_job(writer, watch, gathered, &ran_parts(line.seq, *ran), line)
        }
        Reply::Best(seq, schedule, best, verdict) => {
            let parts = best_parts(*seq, *best, *verdict);
            if let Err(fault) = gather_parts(writer, watch, gathered, &parts) {
                return Err(fault);
            }
            match schedule {
                Some(schedule) => gather_schedule(writer, watch, gathered, schedule),
                None => Ok(()),
            }
        }
        Reply::Forgotten(seq) => gather_parts(writer, watch, gathered, &forgotten_parts(*seq)),
        Reply::Ledger(book) => gather_parts(writer, watch, gathered, &ledger_parts(book)),
        Reply::NoRoom => gather(writer, watch, gathered, b"no room"),
        Reply::NoUnknown => gather(writer, watch, gathered, b"no unknown"),
        Reply::NoBusy => gather(writer, watch, gathered, b"no busy"),
        Reply::NoOver => gather(writer, watch, gathered, b"no over"),
        Reply::NoAmount => gather(writer, watch, gathered, b"no amount"),
        Reply::NoJobs => gather(writer, watch, gathered, b"no jobs"),
        Reply::NoShort(free) => {
            gather_parts(
                writer,
                watch,
                gathered,
                &[Part::Text(b"no short "), Part::Number(*free)],
            )
        }
        Reply::NoMemory => gather(writer, watch, gathered, b"no memory"),
    }
}

fn gather_said<W: Write>(
    writer: &mut W,
    watch: &mut Watch<W>,
    gathered: &mut Gathered,
    said: &Said,
) -> Result<(), WriteFault>
    ensures gathers { Gathers result (W.contents writer.old) (W.contents writer.new)
        gathered.old.items gathered.new.items (said_text said.now) }
    ensures noted { IsNoted result watch.old watch.new }
{
    match said {
        Said::Reply(reply) => gather_reply(writer, watch, gathered, reply),
        Said::NoTurn => gather(writer, watch, gathered, b"no turn"),
        Said::NoTenant => gather(writer, watch, gathered, b"no tenant"),
        Said::Syntax => gather(writer, watch, gathered, b"no syntax"),
        Said::LongLine => gather(writer, watch, gathered, b"no line"),
        Said::File(fault) => gather_parts(writer, watch, gathered, &file_parts(*fault)),
    }
}

fn gather_reply_line<W: Write>(
    writer: &mut W,
    watch: &mut Watch<W>,
    gathered: &mut Gathered,
    who: Option<Name>,
    said: &Said,
) -> Result<(), WriteFault>
    ensures gathers { Gathers result (W.contents writer.old) (W.contents writer.new)
        gathered.old.items gathered.new.items (reply_line who said.now) }
    ensures noted { IsNoted result watch.old watch.new }
{
    if let Err(fault) = gather_parts(writer, watch, gathered, &who_parts(&who)) {
        return Err(fault);
    }
    if let Err(fault) = gather_said(writer, watch, gathered, said) {
        return Err(fault);
    }
    gather(writer, watch, gathered, b"\n")
}

/// Writes a reply's line: `@`, the tenant's name or a question mark, a space and the text. After a
/// fault a prefix of the line has gone out. Takes no memory. A line of at most 256 bytes goes out
/// in one write, a longer one in pieces.
pub fn write_reply<W: Write>(
    writer: &mut W,
    watch: &mut Watch<W>,
    who: Option<Name>,
    said: &Said,
) -> Result<(), WriteFault>
    ensures writes { Writes result (W.contents writer.old) (W.contents writer.new)
        (reply_line who said.now) }
    ensures noted { IsNoted result watch.old watch.new }
{
    let mut gathered = ArrayVec::new();
    if let Err(fault) = gather_reply_line(writer, watch, &mut gathered, who, said) {
        return Err(fault);
    }
    put(writer, watch, gathered.as_slice())
}
