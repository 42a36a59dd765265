//! The line of a file's project, over any reader and writer.
ghost use Rattle.std.specs.Process.{exit_status};
ghost use Rattle.file_commands.specs.Ending.{Ends};
ghost use Rattle.farm_cli.specs.Checked.{IsCheckOf};

use crate::summary::summarize;
use explain::why_file;
use file_commands::{CommandFault, CommandWatches, MOST_TEXT, Paths, end_command};
use psplib_mm::{MmFault, read};
use std::alloc::Global;
use std::env::Env;
use std::fmt;
use std::io::{Eprint, Read, Write};
use std::process::ExitCode;

/// A `CheckFault` is why a file has no project. Its text is as in `no file TooLong`.
#[derive(Clone, Copy, Debug, PartialEq, Eq)]
pub struct CheckFault {
    pub fault: MmFault,
}

impl fmt::Display for CheckFault {
    fn fmt<W: fmt::Write>(&self, f: &mut fmt::Formatter<W>) -> fmt::Result {
        write!(f, "no file {}", self.fault)
    }
}

/// Writes the line of the project that `reader` gives. It reads at most `MOST_TEXT` bytes; a longer
/// input is a fault of the file. On any error except `Write`, nothing was written.
pub fn check<S: Read + Drop, W: Write>(
    alloc: Global,
    reader: S,
    writer: &mut W,
    watches: &mut CommandWatches<S, (), (), W>,
) -> Result<(), CommandFault<CheckFault>>
    ensures { IsCheckOf result watches.old watches.new (S.remaining reader) (W.contents writer.old) (W.contents writer.new) }
{
    let text = match watches.file.read_front(alloc, reader, MOST_TEXT) {
        Ok(text) => text,
        Err(error) => return Err(CommandFault::File(error.kind())),
    };
    match read(alloc, &text) {
        Ok(project) => {
            let summary = summarize(&project);
            match watches
                .output
                .write_text(writer, format_args!("{summary}\n"))
            {
                Ok(()) => Ok(()),
                Err(_) => Err(CommandFault::Write),
            }
        }
        Err(fault) => {
            watches.why = why_file(alloc, &text, fault);
            Err(CommandFault::Refused(CheckFault { fault }))
        }
    }
}

/// Is `check` with a status, 0 or 1. Standard error has each fault but `Write`, and names `path` if
/// that is not read.
pub fn check_to<R: AllocGlobal + Env + Eprint, S: Read + Drop, W: Write>(
    rt: &R,
    path: &str,
    reader: S,
    writer: &mut W,
    watches: &mut CommandWatches<S, (), (), W>,
) -> ExitCode
    ensures { Ends
        (λ ended. IsCheckOf ended watches.old watches.new (S.remaining reader) (W.contents writer.old) (W.contents writer.new))
        (exit_status result) }
{
    let ended = check(rt.alloc(), reader, writer, watches);
    if let Err(CommandFault::Write) = ended {
        return ExitCode::FAILURE;
    }
    end_command(rt, Paths::of(path), ended, watches)
}
