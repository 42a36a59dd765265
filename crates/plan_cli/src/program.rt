//! The commands on files, with an exit status.
ghost use Rattle.std.specs.Prelude.{◌≤◌, IfSome};
ghost use Rattle.std.specs.Process.{exit_status};

use crate::arguments::{Comparing, PlanTask, Showing, task_of};
use crate::commands::{Compare, Show};
use crate::output::ShowOptions;
use clap::ArgMatches;
use file_commands::{Paths, calendar_of, is_input_twice, read_names, refuse_same, run_files};
use std::process::ExitCode;
use std::rt::Runtime;

/// Runs the command of `matches`, or returns `None` if it is none of this crate. The status is 0, or
/// 2 for refused words, or 1 for any fault.
pub fn run_command<R: Runtime + AllocGlobal>(rt: &R, matches: &ArgMatches<'_>) -> Option<ExitCode>
    ensures { IfSome result (λ status. exit_status status ≤ 2) }
{
    match task_of(matches) {
        Some(PlanTask::Show(showing)) => Some(run_show(rt, showing)),
        Some(PlanTask::Compare(comparing)) => Some(run_compare(rt, comparing)),
        None => None,
    }
}

fn run_show<R: Runtime + AllocGlobal>(rt: &R, showing: Showing<'_>) -> ExitCode
    ensures { exit_status result ≤ 2 }
{
    if is_input_twice(&[showing.file, showing.text, showing.names.unwrap_or("")]) {
        return refuse_same(rt);
    }
    let calendar = match calendar_of(rt, showing.start, showing.unit) {
        Ok(calendar) => calendar,
        Err(status) => return status,
    };
    let names = match read_names(rt, showing.names) {
        Ok(names) => names,
        Err(status) => return status,
    };
    let asked = ShowOptions {
        layout: showing.layout,
        calendar,
        names: match &names {
            Some(names) => Some(names.as_slice()),
            None => None,
        },
    };
    let paths = Paths {
        file: showing.file,
        text: Some(showing.text),
        other: None,
    };
    run_files(rt, paths, Show { asked: &asked })
}

fn run_compare<R: Runtime + AllocGlobal>(rt: &R, comparing: Comparing<'_>) -> ExitCode
    ensures { exit_status result ≤ 2 }
{
    if is_input_twice(&[comparing.file, comparing.before, comparing.after]) {
        return refuse_same(rt);
    }
    let paths = Paths {
        file: comparing.file,
        text: Some(comparing.before),
        other: Some(comparing.after),
    };
    run_files(rt, paths, Compare)
}
