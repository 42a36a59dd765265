//! The commands on files: each ends with the status 0, or 1 and its fault on standard error.
ghost use Rattle.std.specs.Prelude.{◌≡◌, ◌≤◌, IfErr, IfSome};
ghost use Rattle.std.specs.Process.{exit_status};

use crate::arguments::{CertificateTask, task_of};
use crate::certificates::write_clauses;
use crate::commands::{Certify, CertifyBound, CertifyInfeasible, FindBound, MOST_PROOF};
use crate::reasons::why_uncertified;
use clap::ArgMatches;
use file_commands::{
    CommandFault, CommandWatches, FileCommand, Paths, end_command, end_no_memory, is_input_twice,
    open_sources, read_path, refuse_same, run_sources,
};
use std::env::Env;
use std::io;
use std::io::{BufWriter, Eprint, Write};
use std::process::ExitCode;
use std::rt::Runtime;
use watched_io::explains;

/// Runs the command of `matches`, or returns `None` if it is `refute` or none of this crate. The
/// status is 0, or 1 for any fault, or 2 if two inputs are standard input.
pub fn run_command<R: Runtime + AllocGlobal>(rt: &R, matches: &ArgMatches<'_>) -> Option<ExitCode>
    ensures { IfSome result (λ status. exit_status status ≤ 2) }
{
    match task_of(matches) {
        Some(CertificateTask::Clauses { file, bound }) => Some(run_clauses(rt, file, bound)),
        Some(
            CertificateTask::Certify {
                file,
                schedule,
                proof,
            },
        ) => {
            let text = Some(schedule);
            let other = proof;
            Some(run_proof(rt, Paths { file, text, other }, Certify))
        }
        Some(CertificateTask::Infeasible { file, proof }) => {
            Some(run_proof(rt, proved_by(file, proof), CertifyInfeasible))
        }
        Some(
            CertificateTask::Bound {
                file,
                bound,
                proof,
                steps,
            },
        ) => Some(run_bound(rt, file, bound, proof, steps)),
        None => None,
    }
}

/// `others` is what a bound may be beside a number.
fn end_unbounded<R: Env + Eprint>(rt: &R, bound: &str, others: &str) -> ExitCode
    ensures { exit_status result ≡ 1 }
{
    let _ = eprintln!(rt; "farm: no bound {bound}");
    if explains(rt) {
        let most = u32::MAX;
        let _ = eprintln!(rt; "farm: why: the bound is a whole number, 0 to {most}{others}");
    }
    ExitCode::FAILURE
}

/// The number of periods that `word` writes; no number for the word `none`. On an error, the status,
/// the fault is on standard error.
pub(crate) fn bound_or_none<R: Env + Eprint>(rt: &R, word: &str) -> Result<Option<u32>, ExitCode>
    ensures { IfErr result (λ status. exit_status status ≡ 1) }
{
    match word.parse::<u32>() {
        Ok(number) => Ok(Some(number)),
        Err(_) => {
            if word == "none" {
                Ok(None)
            } else {
                Err(end_unbounded(rt, word, ", or none"))
            }
        }
    }
}

fn proved_by<'a>(file: &'a str, proof: Option<&'a str>) -> Paths<'a> {
    Paths {
        file,
        text: None,
        other: proof,
    }
}

/// Runs `command` on the inputs at `paths`, the last of which is a proof. Without its path the proof
/// is empty.
fn run_proof<R: Runtime + AllocGlobal, C: FileCommand>(
    rt: &R,
    paths: Paths<'_>,
    command: C,
) -> ExitCode
    ensures { exit_status result ≤ 2 }
{
    if is_input_twice(&[
        paths.file,
        paths.text.unwrap_or(""),
        paths.other.unwrap_or(""),
    ]) {
        return refuse_same(rt);
    }
    let Some(mut sources) = open_sources(rt, paths) else {
        return ExitCode::FAILURE;
    };
    sources.most_other = MOST_PROOF;
    run_sources(rt, sources, command)
}

/// Prints `at least L` if `proof` shows that no schedule of `file` takes fewer than `bound`
/// periods. Without a bound, L is the longest chain of activities, or more by prices, in
/// at most `steps` steps for each bound.
fn run_bound<R: Runtime + AllocGlobal>(
    rt: &R,
    file: &str,
    bound: Option<&str>,
    proof: Option<&str>,
    steps: u32,
) -> ExitCode
    ensures { exit_status result ≤ 2 }
{
    let Some(bound) = bound else {
        return run_proof(rt, Paths::of(file), FindBound { steps });
    };
    let Ok(periods) = bound.parse::<u32>() else {
        return end_unbounded(rt, bound, "");
    };
    run_proof(rt, proved_by(file, proof), CertifyBound { periods })
}

/// Prints the clauses of `file` and `bound`, a number of periods or `none`.
fn run_clauses<R: Runtime + AllocGlobal>(rt: &R, file: &str, bound: &str) -> ExitCode
    ensures { exit_status result ≤ 1 }
{
    let bound = match bound_or_none(rt, bound) {
        Ok(bound) => bound,
        Err(status) => return status,
    };
    let Some(project) = read_path(rt, file) else {
        return ExitCode::FAILURE;
    };
    let Ok(mut output) = BufWriter::new(rt.alloc(), io::writer(rt)) else {
        return end_no_memory(rt);
    };
    let ended = write_clauses(rt.alloc(), &project, bound, &mut output);
    let mut watches = CommandWatches::<(), (), (), ()>::new();
    if let Err(CommandFault::Refused(fault)) = ended {
        watches.why = why_uncertified(rt.alloc(), &project, &[], fault);
    }
    let ended = match output.flush() {
        Ok(()) => ended,
        Err(_) => Err(CommandFault::Write),
    };
    end_command(rt, Paths::of(file), ended, &watches)
}
