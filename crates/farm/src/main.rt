//! The program `farm`. [`farm_command`] is its command line: the commands of each crate `.._cli`.
//!
//! `check`, `replay` and `serve` are parsed by a command line of these three alone, since
//! `farm_cli::parse_words` proves what their words ask for. The proof does not reach the whole
//! command line: an option of `prove` excludes another one.
#![tactic(auto)]

ghost use Rattle.std.specs.Prelude.{◌≤◌};
ghost use Rattle.std.specs.Process.{exit_status};

use clap::{ArgMatches, Command};
use file_commands::{end_no_memory, words_of};
use std::alloc::{AllocError, Global};
use std::io::{Input, StdinLock};
use std::process::ExitCode;
use std::rt::Runtime;
use std::sync::Wait;
use std::thread::Threads;

/// The version, and the logic in which the program was proved, which several kits share.
const VERSION: &str = "farm 0.2.0 (logic dac8208d650f15bf)";

const ABOUT: &str = "\
Schedules multi-mode projects, one by one or for several tenants.
docs/USE.md has the commands, and --version tells the version.";

const SCRIPTS_HELP: &str = "\
A script beside the program (farm bench --help):
  bench       Searches each of many files and prints a row of each

Example:

  $ farm solve examples/j10_1.mm";

/// The command `farm` with all commands of the program. Fails for want of memory.
fn farm_command<'a>(alloc: Global) -> Result<Command<'a>, AllocError> {
    let farm = Command::new(alloc, "farm")
        .about(ABOUT)
        .after_help(SCRIPTS_HELP)
        .subcommand_required(true);
    let farm = solve_cli::with_commands(alloc, farm)?;
    let farm = plan_cli::with_commands(alloc, farm)?;
    let farm = prove_cli::with_commands(alloc, farm)?;
    let farm = certify_cli::with_commands(alloc, farm)?;
    let farm = farm_cli::with_commands(alloc, farm)?;
    config_cli::with_commands(alloc, farm)
}

fn asks_for_version(words: &[String]) -> bool {
    match words.get(1) {
        Some(word) => words.len() == 2 && matches!(word.as_str(), "--version" | "-V"),
        None => false,
    }
}

fn print_version<R: Runtime>(rt: &R) -> ExitCode
    ensures { exit_status result ≤ 1 }
{
    match println!(rt; "{VERSION}") {
        Ok(()) => ExitCode::SUCCESS,
        Err(_) => ExitCode::FAILURE,
    }
}

fn run_chosen<
    R: Runtime
        + AllocGlobal
        + Threads
        + Wait
        + Sync
        + Copy
        + Send
        + Input<Reader = StdinLock<'static>>
        + 'static,
>(rt: &R, matches: &ArgMatches<'_>) -> ExitCode
    ensures { exit_status result ≤ 3 }
{
    if let Some(status) = solve_cli::run_command(rt, matches) {
        status
    } else if let Some(status) = plan_cli::run_command(rt, matches) {
        status
    } else if let Some(status) = prove_cli::run_command(rt, matches) {
        status
    } else if let Some(status) = certify_cli::run_command(rt, matches) {
        status
    } else if let Some(status) = certify_cli::run_refute(rt, matches) {
        status
    } else if let Some(status) = config_cli::run_command(rt, matches) {
        status
    } else {
        ExitCode::FAILURE
    }
}

/// Runs the command of `words`, the first of which is the program's name. The status is 0, or 3 if
/// `prove` leaves a gap or `refute` a limit open, or 2 for help and for a refused command line, or 1
/// for any fault.
fn run_words<
    R: Runtime
        + AllocGlobal
        + Threads
        + Wait
        + Sync
        + Copy
        + Send
        + Input<Reader = StdinLock<'static>>
        + 'static,
>(rt: &R, words: &[String]) -> ExitCode
    ensures { exit_status result ≤ 3 }
{
    let Ok(command) = farm_command(rt.alloc()) else {
        return end_no_memory(rt);
    };
    match command.try_get_matches_from(words) {
        Ok(matches) => run_chosen(rt, &matches),
        Err(error) => farm_cli::end_refused(rt, words, &error),
    }
}

fn main(rt: HostRuntime) -> ExitCode {
    let words = match words_of(&rt) {
        Ok(words) => words,
        Err(status) => return status,
    };
    let words = words.as_slice();
    if asks_for_version(words) {
        print_version(&rt)
    } else if farm_cli::is_own(words) {
        farm_cli::run_words(&rt, words)
    } else {
        run_words(&rt, words)
    }
}
