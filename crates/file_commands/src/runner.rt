//! The runner of commands over files.
ghost use Rattle.std.specs.Prelude.{◌≡◌, ◌≤◌, ℕ, List, Option, IfOk, IfErr, IfSome, OnOk, take, is_some, IsTrue};
ghost use Rattle.std.specs.Process.{exit_status};
ghost use Rattle.watched_io.specs.Failure.{IsNoted};
ghost use Rattle.file_commands.specs.Counts.{AreReadWell};
ghost use Rattle.file_commands.specs.Ending.{Ends, IsStopOf};
ghost use Rattle.file_commands.specs.Run.{AreTexts, IsRunOf, given_by, rest_of, texts_of};

use crate::answer::{FileCommand, Texts};
use crate::ending::{CommandFault, end_command};
use crate::inputs::{MOST_TEXT, Paths};
use crate::sources::{Sources, open_sources};
use crate::watches::CommandWatches;
use std::alloc::Global;
use std::env::Env;
use std::io;
use std::io::{Eprint, Read, Write};
use std::marker::Model;
use std::process::ExitCode;
use std::rt::Runtime;
use watched_io::Watch;

/// A `Bytes` is what was read of a command's inputs.
#[derive(Drop)]
struct Bytes {
    file: Vec<u8>,
    text: Vec<u8>,
    other: Vec<u8>,
}

impl Model for Bytes {
    ghost use Rattle.file_commands.specs.Run.{TextsData};

    ghost Value = { TextsData };

    ghost view = { λ b. record { file = b.file.items; text = b.text.items; other = b.other.items } };
}

impl Bytes {
    fn texts(&self) -> Texts<'_>
        ensures { texts_of result ≡ self.now }
    {
        Texts {
            file: &self.file,
            text: &self.text,
            other: &self.other,
        }
    }
}

/// An input that is not there has no bytes.
fn read_some<S: Read + Drop>(
    alloc: Global,
    source: Option<S>,
    most: u64,
    watch: &mut Watch<S>,
) -> io::Result<Vec<u8>>
    ensures front { IfOk result (λ bytes. IfSome (rest_of S.remaining source) (λ all. bytes.items ≡ take most all)) }
    ensures noted { IsNoted result watch.old watch.new }
    ensures given { IfErr result (λ _. IsTrue (is_some source)) }
{
    match source {
        Some(source) => watch.read_front(alloc, source, most),
        None => Ok(Vec::new(alloc)),
    }
}

fn read_texts<S: Read + Drop, W, F>(
    alloc: Global,
    sources: Sources<'_, S>,
    watches: &mut CommandWatches<S, S, S, W>,
) -> Result<Bytes, CommandFault<F>>
    ensures texts { IfOk result (λ bytes. AreTexts (given_by S.remaining sources.entry) bytes) }
    ensures read { OnOk result (AreReadWell watches.old watches.new) }
    ensures kept { watches.new.output ≡ watches.old.output }
    ensures fault { IfErr result (λ fault. (out : Option (List ℕ)) → IsStopOf (given_by S.remaining sources.entry).inputs (λ _. ⊥) fault watches.old watches.new out out) }
{
    let file = match watches.file.read_front(alloc, sources.file, MOST_TEXT) {
        Ok(file) => file,
        Err(error) => return Err(CommandFault::File(error.kind())),
    };
    let text = match read_some(alloc, sources.text, MOST_TEXT, &mut watches.text) {
        Ok(text) => text,
        Err(error) => return Err(CommandFault::Text(error.kind())),
    };
    let most = sources.most_other;
    let other = match read_some(alloc, sources.other, most, &mut watches.other) {
        Ok(other) => other,
        Err(error) => return Err(CommandFault::Other(error.kind())),
    };
    Ok(Bytes { file, text, other })
}

fn write_answer<S: Read + Drop, W: Write, C: FileCommand>(
    alloc: Global,
    sources: Sources<'_, S>,
    mut command: C,
    writer: &mut W,
    watches: &mut CommandWatches<S, S, S, W>,
) -> Result<(), CommandFault<C::Fault>>
    ensures { IsRunOf (C.gives command) (C.refuses command) (given_by S.remaining sources.entry) result watches.old watches.new
        (W.contents writer.old)
        (W.contents writer.new) }
{
    let bytes = match read_texts(alloc, sources, watches) {
        Ok(bytes) => bytes,
        Err(fault) => return Err(fault),
    };
    let answer = command.answer(alloc, &bytes.texts());
    watches.why = answer.why;
    watches.list = answer.list;
    let text = match answer.text {
        Ok(text) => text,
        Err(fault) => return Err(CommandFault::Refused(fault)),
    };
    match watches.output.write_text(writer, text) {
        Ok(()) => Ok(()),
        Err(_) => Err(CommandFault::Write),
    }
}

/// Writes the text that `command` gives for its inputs. The status is 0 or 1. Standard error has
/// each fault. On any fault except a failed write, nothing was written.
pub fn run_command<R: AllocGlobal + Env + Eprint, S: Read + Drop, W: Write, C: FileCommand>(
    rt: &R,
    sources: Sources<'_, S>,
    command: C,
    writer: &mut W,
    watches: &mut CommandWatches<S, S, S, W>,
) -> ExitCode
    ensures { Ends
        (λ ended. IsRunOf (C.gives command) (C.refuses command) (given_by S.remaining sources.entry) ended watches.old watches.new
        (W.contents writer.old)
        (W.contents writer.new))
        (exit_status result) }
{
    let paths = sources.paths;
    let ended = write_answer(rt.alloc(), sources, command, writer, watches);
    end_command(rt, paths, ended, watches)
}

/// Runs `command` on `sources`, and writes its text on standard output. The status is 0, or 1 with
/// the fault on standard error. Inlined, as `open_path` is.
#[inline(always)]
pub fn run_sources<R: Runtime + AllocGlobal, S: Read + Drop, C: FileCommand>(
    rt: &R,
    sources: Sources<'_, S>,
    command: C,
) -> ExitCode
    ensures { exit_status result ≤ 1 }
{
    let (mut writer, mut watches) = (io::writer(rt), CommandWatches::new());
    run_command(rt, sources, command, &mut writer, &mut watches)
}

/// Opens the inputs at `paths`, and runs `command` on them as `run_sources` does.
pub fn run_files<R: Runtime + AllocGlobal, C: FileCommand>(
    rt: &R,
    paths: Paths<'_>,
    command: C,
) -> ExitCode
    ensures { exit_status result ≤ 1 }
{
    match open_sources(rt, paths) {
        Some(sources) => run_sources(rt, sources, command),
        None => ExitCode::FAILURE,
    }
}
