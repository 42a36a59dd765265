//! The command on files, with an exit status.
ghost use Rattle.std.specs.Prelude.{◌≡◌, ◌≤◌, IfErr, IfSome};
ghost use Rattle.std.specs.Process.{exit_status};
ghost use Rattle.prove_cli.specs.Command.{end_status};

use crate::arguments::{Proving, proving_of};
use crate::proof_run::{ProofEnd, ProveOptions, prove_read};
use crate::reporter::{Reporter, Style};
use crate::stop_flag::stop_at_end_of_input;
use clap::ArgMatches;
use explain::why_no_schedule;
use file_commands::{
    CommandWatches, MOST_TEXT, Paths, end_command, end_no_memory, open_path, or_report,
};
use mrcpsp::Schedule;
use prover::Limits;
use schedule_files::{MOST_BYTES, read_schedule};
use std::io::{Input, StdinLock};
use std::process::ExitCode;
use std::rt::Runtime;
use std::sync::atomic::AtomicBool;
use std::sync::{Arc, Wait};
use std::thread::Threads;
use std::time::Duration;
use std::{io, thread};
use watched_io::{Watch, tell_why};

/// The words of a megabyte, shared by a search and its kernel.
const WORDS: u64 = 125_000;

/// The status of a run that leaves a gap.
const GAP: u8 = 3;

/// Runs the command of `matches`, or returns `None` if it is not `prove`. The status is 0, or 3 if a
/// gap is left, or 2 for refused words, or 1 for any fault.
pub fn run_command<
    R: Runtime
        + AllocGlobal
        + Threads
        + Wait
        + Sync
        + Copy
        + Send
        + Input<Reader = StdinLock<'static>>
        + 'static,
>(rt: &R, matches: &ArgMatches<'_>) -> Option<ExitCode>
    ensures { IfSome result (λ status. exit_status status ≤ 3) }
{
    match proving_of(matches) {
        Some(proving) => Some(run(rt, proving)),
        None => None,
    }
}

fn status_of(ended: ProofEnd) -> ExitCode
    ensures { exit_status result ≡ end_status ended }
{
    match ended {
        ProofEnd::Decided => ExitCode::SUCCESS,
        ProofEnd::Gap => ExitCode::from(GAP),
    }
}

fn number_of(word: Option<&str>) -> Option<u64> {
    match word {
        Some(word) => word.parse::<u64>().ok(),
        None => None,
    }
}

fn jobs_of<R: Threads>(rt: &R, word: Option<&str>) -> usize {
    match number_of(word) {
        Some(jobs) => jobs.min(256) as usize,
        None => match thread::available_parallelism(rt) {
            Ok(count) => count.get(),
            Err(_) => 1,
        },
    }
}

fn limits_of(proving: Proving<'_>, jobs: usize) -> Limits {
    let memory = number_of(Some(proving.memory)).unwrap_or(0);
    let words = memory.min(100_000_000) * WORDS / (jobs.clamp(1, 256) as u64);
    Limits {
        time: number_of(proving.seconds).map(Duration::from_secs),
        words: words as usize,
        conflicts: number_of(Some(proving.conflicts)).unwrap_or(0),
    }
}

fn style_of(proving: Proving<'_>) -> Style {
    match (proving.is_improving, proving.is_json) {
        (false, _) => Style::Silent,
        (true, false) => Style::Lines,
        (true, true) => Style::Json,
    }
}

/// The schedule that a text has. An error is a status, and its reason is on standard error.
fn schedule_in<R: Runtime + AllocGlobal>(rt: &R, bytes: &[u8]) -> Result<Schedule, ExitCode>
    ensures { IfErr result (λ status. exit_status status ≤ 2) }
{
    let alloc = rt.alloc();
    match read_schedule(alloc, bytes) {
        Ok(Some(schedule)) => Ok(schedule),
        Ok(None) => {
            let word = if bytes.len() > MOST_BYTES {
                "TooLong"
            } else {
                "Words"
            };
            let _ = eprintln!(rt; "farm: no schedule {word}");
            tell_why(rt, &why_no_schedule(alloc, bytes));
            Err(ExitCode::FAILURE)
        }
        Err(_) => Err(end_no_memory(rt)),
    }
}

/// The schedule at the path of `--from`. An error is a status, and its reason is on standard error.
fn from_of<R: Runtime + AllocGlobal>(
    rt: &R,
    proving: Proving<'_>,
) -> Result<Option<Schedule>, ExitCode>
    ensures { IfErr result (λ status. exit_status status ≤ 2) }
{
    let Some(path) = proving.from else {
        return Ok(None);
    };
    if path == "-" && proving.file == "-" {
        let _ = eprintln!(rt; "farm: FILE and SCHEDULE cannot both be standard input");
        return Err(ExitCode::from(2));
    }
    let Some(source) = open_path(rt, path) else {
        return Err(ExitCode::FAILURE);
    };
    let got = Watch::new().read_front(rt.alloc(), source, MOST_TEXT);
    let Some(bytes) = or_report(rt, path, got) else {
        return Err(ExitCode::FAILURE);
    };
    match schedule_in(rt, &bytes) {
        Ok(schedule) => Ok(Some(schedule)),
        Err(status) => Err(status),
    }
}

fn run<
    R: Runtime
        + AllocGlobal
        + Threads
        + Wait
        + Sync
        + Copy
        + Send
        + Input<Reader = StdinLock<'static>>
        + 'static,
>(rt: &R, proving: Proving<'_>) -> ExitCode
    ensures { exit_status result ≤ 3 }
{
    let alloc = rt.alloc();
    let Ok(stop) = Arc::new(alloc, AtomicBool::new(false)) else {
        return end_no_memory(rt);
    };
    let from = match from_of(rt, proving) {
        Ok(from) => from,
        Err(status) => return status,
    };
    let Some(file) = open_path(rt, proving.file) else {
        return ExitCode::FAILURE;
    };
    if proving.is_watching && stop_at_end_of_input(*rt, &stop).is_err() {
        return end_no_memory(rt);
    }
    let jobs = jobs_of(rt, proving.jobs);
    let herald = Reporter::new(rt, alloc, style_of(proving), !proving.is_quiet, jobs);
    let asked = ProveOptions {
        jobs,
        limits: limits_of(proving, jobs),
        from,
        is_json: proving.is_json,
        stop: &stop,
        herald: &herald,
    };
    let mut watches = CommandWatches::new();
    match prove_read(rt, alloc, file, &asked, &mut io::writer(rt), &mut watches) {
        Ok(ended) => status_of(ended),
        Err(fault) => end_command(rt, Paths::of(proving.file), Err(fault), &mut watches),
    }
}
