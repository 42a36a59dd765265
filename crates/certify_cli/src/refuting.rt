//! The command `refute`, with an exit status.
ghost use Rattle.std.specs.Prelude.{◌≡◌, ◌≤◌, IfSome};
ghost use Rattle.std.specs.Process.{exit_status};
ghost use Rattle.certify_cli.specs.Refuted.{RefutesLimit};

use crate::arguments::{Refuting, refuting_of};
use crate::fault::CertifyFault;
use crate::program::bound_or_none;
use crate::reasons::why_uncertified;
use crate::refutation::{RefuteEnd, RefuteLimits, write_refutation};
use clap::ArgMatches;
use explain::MOST_MEMORY;
use file_commands::{CommandFault, CommandWatches, Paths, end_command, end_no_memory, read_path};
use std::alloc::Global;
use std::env::Env;
use std::io;
use std::io::{BufWriter, Eprint, Write};
use std::process::ExitCode;
use std::rt::Runtime;

/// The words of a megabyte, shared by a search and its kernel.
const WORDS: u64 = 125_000;

/// The status of a search that leaves the limit open.
const OPEN: u8 = 3;

/// Writes on standard error why a search refuted nothing.
fn end_open<R: Eprint>(rt: &R, ended: RefuteEnd) -> ExitCode
    ensures { exit_status result ≡ 3 }
{
    let why = match ended {
        RefuteEnd::Values => "the clauses can all be true",
        RefuteEnd::Memory => "the megabytes of --memory are spent",
        RefuteEnd::Rejected => "a step of the solver was rejected, which is a fault of the program",
        _ => "the conflicts of --conflicts are spent",
    };
    let _ = eprintln!(rt; "farm: not refuted: {why}");
    ExitCode::from(OPEN)
}

fn end_fault<R: Env + Eprint>(
    rt: &R,
    path: &str,
    fault: CommandFault<CertifyFault>,
    why: Option<String>,
) -> ExitCode
    ensures { exit_status result ≡ 1 }
{
    let mut watches = CommandWatches::<(), (), (), ()>::new();
    watches.why = why;
    end_command(rt, Paths::of(path), Err(fault), &watches)
}

fn why_refused(alloc: Global, file: &[u8], fault: CommandFault<CertifyFault>) -> Option<String> {
    match fault {
        CommandFault::Refused(fault) => why_uncertified(alloc, file, &[], fault),
        _ => None,
    }
}

/// Writes a refutation of `limit` for the project of the bytes `file`, which are those of `path`.
/// The status is 0 only if no feasible schedule takes at most `limit` periods; without a limit, only
/// if none is feasible. It is 3 if that stays open, and 1 for any fault.
pub fn refute_bytes<R: AllocGlobal + Env + Eprint, W: Write>(
    rt: &R,
    path: &str,
    file: &[u8],
    limit: Option<u32>,
    limits: RefuteLimits,
    writer: &mut W,
) -> ExitCode
    ensures refuted { exit_status result ≡ 0 → RefutesLimit limit file.now }
    ensures few { exit_status result ≤ 3 }
{
    let ended = match write_refutation(rt.alloc(), file, limit, limits, writer) {
        Ok(ended) => ended,
        Err(fault) => return end_fault(rt, path, fault, why_refused(rt.alloc(), file, fault)),
    };
    if writer.flush().is_err() {
        return end_fault(rt, path, CommandFault::Write, None);
    }
    match ended {
        RefuteEnd::Refuted => ExitCode::SUCCESS,
        _ => end_open(rt, ended),
    }
}

fn number_of(word: &str) -> u64 {
    word.parse::<u64>().unwrap_or(0)
}

fn limits_of(refuting: Refuting<'_>) -> RefuteLimits {
    let words = number_of(refuting.memory).min(MOST_MEMORY) * WORDS;
    RefuteLimits {
        words: words as usize,
        conflicts: number_of(refuting.conflicts),
    }
}

fn run<R: Runtime + AllocGlobal>(rt: &R, refuting: Refuting<'_>) -> ExitCode
    ensures { exit_status result ≤ 3 }
{
    let limit = match bound_or_none(rt, refuting.limit) {
        Ok(limit) => limit,
        Err(status) => return status,
    };
    let Some(file) = read_path(rt, refuting.file) else {
        return ExitCode::FAILURE;
    };
    let Ok(mut output) = BufWriter::new(rt.alloc(), io::writer(rt)) else {
        return end_no_memory(rt);
    };
    let limits = limits_of(refuting);
    refute_bytes(rt, refuting.file, &file, limit, limits, &mut output)
}

/// Runs the command of `matches`, or returns `None` if it is not `refute`. The status is 0, or 3 if
/// the limit stays open, or 1 for any fault.
pub fn run_refute<R: Runtime + AllocGlobal>(rt: &R, matches: &ArgMatches<'_>) -> Option<ExitCode>
    ensures { IfSome result (λ status. exit_status status ≤ 3) }
{
    match refuting_of(matches) {
        Some(refuting) => Some(run(rt, refuting)),
        None => None,
    }
}
