//! The commands on files, with an exit status.
ghost use Rattle.std.specs.Prelude.{◌≡◌, ◌≤◌, IfOk, IfErr, IfSome, vec_len};
ghost use Rattle.std.specs.Process.{exit_status};

use crate::arguments::{DrawWords, Listing, ProjectTask, Solving, task_of};
use crate::draw_command::Draw;
use crate::improvements::{Improvements, Style};
use crate::kinds::{SearchFault, kinds_of};
use crate::picture::PictureWords;
use crate::portfolio::MOST_SEARCHES;
use crate::progress::{ProgressLine, Telling};
use crate::search_kinds::SearchKind;
use crate::search_result::MOST_NODES;
use crate::solve_command::{Solve, SolveOptions};
use crate::verify_command::Verify;
use clap::ArgMatches;
use explain::{why_no_schedule, why_no_search};
use file_commands::{
    Paths, calendar_of, end_no_memory, is_input_twice, read_names, read_path, refuse_same,
    run_files,
};
use mrcpsp::Schedule;
use schedule_files::{MOST_BYTES, read_schedule};
use std::env::Env;
use std::io::Eprint;
use std::process::ExitCode;
use std::rt::Runtime;
use watched_io::{explains, tell_why};

/// Runs the command of `matches`, or returns `None` if it is none of this crate. The status is 0, or
/// 2 for refused words, or 1 for any fault.
pub fn run_command<R: Runtime + AllocGlobal>(rt: &R, matches: &ArgMatches<'_>) -> Option<ExitCode>
    ensures { IfSome result (λ status. exit_status status ≤ 2) }
{
    match task_of(matches) {
        Some(task) => Some(run_task(rt, task)),
        None => None,
    }
}

/// Standard input gives its bytes only once.
fn are_both_stdin(paths: Paths<'_>) -> bool {
    paths.file == "-" && paths.text == Some("-")
}

fn refuse_both_stdin<R: Eprint>(rt: &R) -> ExitCode
    ensures { exit_status result ≡ 2 }
{
    let _ = eprintln!(rt; "farm: FILE and SCHEDULE cannot both be standard input");
    ExitCode::from(2)
}

fn run_task<R: Runtime + AllocGlobal>(rt: &R, task: ProjectTask<'_>) -> ExitCode
    ensures { exit_status result ≤ 2 }
{
    match task {
        ProjectTask::Verify(paths, _) if are_both_stdin(paths) => refuse_both_stdin(rt),
        ProjectTask::Draw(paths, _) if are_both_stdin(paths) => refuse_both_stdin(rt),
        ProjectTask::Verify(paths, listing) => run_verify(rt, paths, listing),
        ProjectTask::Solve(solving) => run_solve(rt, solving),
        ProjectTask::Draw(paths, asked) => run_draw(rt, paths, asked),
    }
}

fn run_verify<R: Runtime + AllocGlobal>(rt: &R, paths: Paths<'_>, listing: Listing) -> ExitCode
    ensures { exit_status result ≤ 1 }
{
    let verify = Verify {
        lists_all: listing == Listing::All,
    };
    run_files(rt, paths, verify)
}

/// Writes on standard error that the text of `--before` has no schedule.
fn refuse_before<R: Env + Eprint + AllocGlobal>(rt: &R, bytes: &[u8]) -> ExitCode
    ensures { exit_status result ≡ 1 }
{
    let fault = if bytes.len() > MOST_BYTES {
        "TooLong"
    } else {
        "Words"
    };
    let _ = eprintln!(rt; "farm: second schedule: no schedule {fault}");
    tell_why(rt, &why_no_schedule(rt.alloc(), bytes));
    ExitCode::FAILURE
}

/// The schedule of the file at `path`. On an error, the status, the reason is on standard error.
fn read_before<R: Runtime + AllocGlobal>(
    rt: &R,
    path: Option<&str>,
) -> Result<Option<Schedule>, ExitCode>
    ensures { IfErr result (λ status. exit_status status ≡ 1) }
{
    let Some(path) = path else {
        return Ok(None);
    };
    let Some(bytes) = read_path(rt, path) else {
        return Err(ExitCode::FAILURE);
    };
    if bytes.len() > MOST_BYTES {
        return Err(refuse_before(rt, &bytes));
    }
    match read_schedule(rt.alloc(), &bytes) {
        Ok(Some(schedule)) => Ok(Some(schedule)),
        Ok(None) => Err(refuse_before(rt, &bytes)),
        Err(_) => Err(end_no_memory(rt)),
    }
}

/// Whether two of the inputs of `draw` are standard input.
fn is_read_twice<'a>(paths: &Paths<'a>, asked: &DrawWords<'a>) -> bool {
    let (text, names) = (paths.text.unwrap_or(""), asked.names.unwrap_or(""));
    is_input_twice(&[paths.file, text, names, asked.before.unwrap_or("")])
}

fn run_draw<R: Runtime + AllocGlobal>(rt: &R, paths: Paths<'_>, asked: DrawWords<'_>) -> ExitCode
    ensures { exit_status result ≤ 2 }
{
    if is_read_twice(&paths, &asked) {
        return refuse_same(rt);
    }
    let calendar = match calendar_of(rt, asked.start, asked.unit) {
        Ok(calendar) => calendar,
        Err(status) => return status,
    };
    let names = match read_names(rt, asked.names) {
        Ok(names) => names,
        Err(status) => return status,
    };
    let before = match read_before(rt, asked.before) {
        Ok(before) => before,
        Err(status) => return status,
    };
    let words = PictureWords {
        bound: asked.bound,
        order: asked.order,
        calendar,
        names: match &names {
            Some(names) => Some(names.as_slice()),
            None => None,
        },
        before: before.as_ref(),
    };
    run_files(rt, paths, Draw { words: &words })
}

/// An error is the status: 1 for want of memory, and 2 for words that are refused.
fn kinds_asked<R: Env + Eprint + AllocGlobal>(
    rt: &R,
    search: &str,
) -> Result<Vec<SearchKind>, ExitCode>
    ensures kinds { IfOk result (λ kinds. vec_len kinds ≤ MOST_SEARCHES) }
    ensures failed { IfErr result (λ status. 1 ≤ exit_status status) }
    ensures few { IfErr result (λ status. exit_status status ≤ 2) }
{
    match kinds_of(rt.alloc(), search) {
        Ok(kinds) => Ok(kinds),
        Err(SearchFault::NoMemory) => Err(end_no_memory(rt)),
        Err(fault) => {
            let _ = eprintln!(rt; "farm: {fault}");
            if let SearchFault::Unknown(word) = fault {
                tell_why(rt, &why_no_search(rt.alloc(), word));
            }
            Err(ExitCode::from(2))
        }
    }
}

fn run_solve<R: Runtime + AllocGlobal>(rt: &R, solving: Solving<'_>) -> ExitCode
    ensures { exit_status result ≤ 2 }
{
    let kinds = match kinds_asked(rt, solving.search) {
        Ok(kinds) => kinds,
        Err(status) => return status,
    };
    let Ok(each) = solving.nodes.parse::<u64>() else {
        return ExitCode::from(2);
    };
    let style = match (solving.is_improving, solving.is_json) {
        (false, _) => Style::Silent,
        (true, false) => Style::Lines,
        (true, true) => Style::Json,
    };
    let telling = match (solving.is_quiet, explains(rt), solving.is_telling) {
        (true, _, _) | (_, false, false) => Telling::Nothing,
        (_, false, true) => Telling::Nodes,
        (_, true, _) => Telling::All,
    };
    let most = each.saturating_mul(kinds.len() as u64);
    let progress = ProgressLine::new(rt, telling, most);
    let mut looks = Improvements::new(rt, style, progress);
    let asked = SolveOptions::new(kinds.as_slice(), each.min(MOST_NODES), solving.is_json);
    let solve = Solve {
        asked,
        looks: &mut looks,
    };
    run_files(rt, Paths::of(solving.file), solve)
}
