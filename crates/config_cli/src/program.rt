//! The command on a file, with an exit status.
ghost use Rattle.std.specs.Prelude.{◌≤◌, IfSome};
ghost use Rattle.std.specs.Process.{exit_status};

use crate::arguments::path_of;
use crate::command::Configure;
use clap::ArgMatches;
use file_commands::{Paths, run_files};
use std::process::ExitCode;
use std::rt::Runtime;

/// Prints what the configuration at a path, or of standard input for `-`, means.
fn run_config<R: Runtime + AllocGlobal>(rt: &R, path: &str) -> ExitCode
    ensures { exit_status result ≤ 1 }
{
    run_files(rt, Paths::of(path), Configure)
}

/// Runs the command that is chosen, if it is `config`. The status is 0, or 1 for any fault.
pub fn run_command<R: Runtime + AllocGlobal>(rt: &R, matches: &ArgMatches<'_>) -> Option<ExitCode>
    ensures { IfSome result (λ status. exit_status status ≤ 1) }
{
    let path = path_of(matches)?;
    Some(run_config(rt, path))
}
