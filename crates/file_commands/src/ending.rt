//! How a command ends: with its text, or with its fault on standard error.
ghost use Rattle.std.specs.Prelude.{◌≡◌};
ghost use Rattle.std.specs.Process.{exit_status};
ghost use Rattle.file_commands.specs.Ending.{command_status};

use crate::inputs::Paths;
use crate::watches::CommandWatches;
use std::env::Env;
use std::fmt::Display;
use std::io::{Eprint, ErrorKind};
use std::process::ExitCode;
use watched_io::{reason, tell_unread, tell_why};

/// A `CommandFault` is why a command does not end with its text: an input that could not be read or
/// for which there was no memory, inputs that are refused, or a failed write.
#[derive(Clone, Copy, Debug, PartialEq, Eq)]
pub enum CommandFault<F> {
    /// The project's file.
    File(ErrorKind),
    /// The schedule's text.
    Text(ErrorKind),
    /// The proof, or the second schedule.
    Other(ErrorKind),
    Refused(F),
    Write,
}

/// Writes on standard error that there is no memory.
pub fn end_no_memory<R: Eprint>(rt: &R) -> ExitCode
    ensures { exit_status result ≡ 1 }
{
    let _ = eprintln!(rt; "farm: no memory");
    ExitCode::FAILURE
}

/// Without a path nothing was read of such an input.
fn tell_unread_some<R: Env + Eprint>(rt: &R, path: Option<&str>, kind: ErrorKind) {
    if let Some(path) = path {
        tell_unread(rt, path, reason(kind));
    }
}

fn tell_more<R: Env + Eprint, S, T, O, W>(rt: &R, watches: &CommandWatches<S, T, O, W>) {
    match &watches.list {
        Ok(Some(list)) => {
            let _ = eprint!(rt; "{list}");
        }
        Ok(None) => tell_why(rt, &watches.why),
        Err(_) => {
            let _ = eprintln!(rt; "farm: no memory");
        }
    }
}

/// Returns the status of a command that `ended` so: 0, or 1 with the fault on standard error.
pub fn end_command<R: Env + Eprint, F: Display + Copy, S, T, O, W>(
    rt: &R,
    paths: Paths<'_>,
    ended: Result<(), CommandFault<F>>,
    watches: &CommandWatches<S, T, O, W>,
) -> ExitCode
    ensures { exit_status result ≡ command_status ended }
{
    match ended {
        Ok(()) => {
            tell_why(rt, &watches.why);
            return ExitCode::SUCCESS;
        }
        Err(CommandFault::File(kind)) => tell_unread(rt, paths.file, reason(kind)),
        Err(CommandFault::Text(kind)) => tell_unread_some(rt, paths.text, kind),
        Err(CommandFault::Other(kind)) => tell_unread_some(rt, paths.other, kind),
        Err(CommandFault::Refused(fault)) => {
            let _ = eprintln!(rt; "farm: {fault}");
            tell_more(rt, watches);
        }
        Err(CommandFault::Write) => {
            let _ = eprintln!(rt; "farm: cannot write");
        }
    }
    ExitCode::FAILURE
}
