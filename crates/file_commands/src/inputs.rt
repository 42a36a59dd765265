//! What commands read: their paths, how much of each, and the words of a command line.
ghost use Rattle.std.specs.Prelude.{◌≤◌, IfErr};
ghost use Rattle.std.specs.Process.{exit_status};

use crate::ending::end_no_memory;
use schedule_files::MOST_BYTES;
use std::env::Env;
use std::io::{Eprint, ErrorKind, Input};
use std::process::ExitCode;
use std::rt::{Files, Runtime};
use std::{env, io};
use watched_io::{Source, open, reason, tell_unread};

/// The most bytes that are read of a file or a text: one more than it may have, so that excess is
/// seen.
pub const MOST_TEXT: u64 = MOST_BYTES as u64 + 1;

const _: () = prove!((psplib_mm::MOST_BYTES as u64) < MOST_TEXT);

/// A `Paths` is the paths of a command's inputs: a project's file, and with some commands a
/// schedule's text, and a proof or a second schedule. The path `-` is standard input.
#[derive(Clone, Copy, Debug, PartialEq, Eq)]
pub struct Paths<'a> {
    pub file: &'a str,
    pub text: Option<&'a str>,
    pub other: Option<&'a str>,
}

impl<'a> Paths<'a> {
    /// The paths of a command that reads `file` alone.
    pub fn of(file: &'a str) -> Paths<'a> {
        Paths {
            file,
            text: None,
            other: None,
        }
    }
}

/// Returns what was got, or reports on standard error why `path` cannot be read.
#[inline(always)]
pub fn or_report<R: Env + Eprint, T: Drop>(rt: &R, path: &str, got: io::Result<T>) -> Option<T> {
    match got {
        Ok(value) => Some(value),
        Err(error) => {
            tell_unread(rt, path, reason(error.kind()));
            None
        }
    }
}

/// Opens the file at `path`, or standard input if that is `-`. On `None` the reason is on standard
/// error. Inlined, since a source holds its buffer, and each return would copy that.
#[inline(always)]
pub fn open_path<R: Input + Files + Env + Eprint>(
    rt: &R,
    path: &str,
) -> Option<Source<R::Reader, R::File>> {
    or_report(rt, path, open(rt, path))
}

fn read_words<R: Runtime + AllocGlobal>(rt: &R) -> io::Result<Vec<String>> {
    Ok(env::args(rt)?.collect::<Vec<String>>(rt.alloc())?)
}

/// The words of the command line, or the status for a word that is not UTF-8 or for want of memory.
/// Which it is, is on standard error.
pub fn words_of<R: Runtime + AllocGlobal>(rt: &R) -> Result<Vec<String>, ExitCode>
    ensures failed { IfErr result (λ status. 1 ≤ exit_status status) }
    ensures few { IfErr result (λ status. exit_status status ≤ 2) }
{
    match read_words(rt) {
        Ok(words) => Ok(words),
        Err(error) if error.kind() == ErrorKind::OutOfMemory => Err(end_no_memory(rt)),
        Err(_) => {
            let _ = eprintln!(rt; "farm: cannot read the command line");
            Err(ExitCode::from(2))
        }
    }
}
