//! The words of a command line.
ghost use Rattle.std.specs.Prelude.{◌≡◌, ◌<◌, ◌≤◌, false, IfOk, IsOkAnd, length, map, codes, string_bytes};
ghost use Rattle.clap.specs.Words.{app_of, fault_of, rule_of, subcommand_of, subcommand_rows_of, with_subcommand, FailsBy};
ghost use Rattle.farm_cli.specs.CommandLine.{flag_rule, option_rule, number_rule, serve_app, with_three, farm_app, Checks, Asks};

use crate::help::{CHECK_HELP, CONFIG_HELP, REPLAY_HELP, SERVE_HELP, STRICT_HELP};
use clap::builder::ValueParser;
use clap::{Arg, ArgAction, ArgMatches, Command, Error};
use std::alloc::{AllocError, Global};

const MOST_SESSIONS: u64 = explain::MOST_SESSIONS;

/// A `Task` is what the words of a command line ask for.
#[derive(Clone, Copy, Debug, PartialEq, Eq)]
pub enum Task<'a> {
    Check {
        /// A path, or `-` for standard input.
        file: &'a str,
    },
    Replay {
        /// The path of the configuration; `-` is a file of that name.
        config: &'a str,
        /// A path, or `-` for standard input.
        script: &'a str,
        /// Whether a refused request ends with status 1.
        is_strict: bool,
    },
    Serve {
        config: &'a str,
        /// The digits of a port, 0 to 65,535.
        port: &'a str,
        /// The digits of a number of connections, 1 to 64.
        sessions: &'a str,
    },
}

fn needed_option<'a>(alloc: Global, name: &'a str, value: &'a str, help: &'a str) -> Arg<'a>
    ensures rule { rule_of result ≡ option_rule name.entry.now }
    ensures own { result.global ≡ false }
{
    Arg::new(alloc, name)
        .long(name)
        .value_name(value)
        .help(help)
        .required(true)
}

fn needed_number<'a>(
    alloc: Global,
    name: &'a str,
    value: &'a str,
    help: &'a str,
    least: u64,
    most: u64,
) -> Arg<'a>
    ensures rule { rule_of result ≡ number_rule name.entry.now least most }
    ensures own { result.global ≡ false }
{
    let within = ValueParser::unsigned(least, most);
    needed_option(alloc, name, value, help).value_parser(within)
}

fn flag<'a>(alloc: Global, name: &'a str, help: &'a str) -> Arg<'a>
    ensures rule { rule_of result ≡ flag_rule name.entry.now }
    ensures own { result.global ≡ false }
{
    Arg::new(alloc, name)
        .long(name)
        .help(help)
        .action(ArgAction::SetTrue)
}

fn with_serve<'a>(alloc: Global, command: Command<'a>) -> Result<Command<'a>, AllocError>
    ensures { IfOk result (λ whole. app_of whole ≡ with_subcommand (app_of command.entry) serve_app.top) }
{
    let config = needed_option(alloc, "config", "F", CONFIG_HELP);
    let port = needed_number(
        alloc,
        "port",
        "P",
        "The port, or 0 for a free one",
        0,
        65_535,
    );
    let sessions = needed_number(
        alloc,
        "sessions",
        "K",
        "How many connections are answered, 1 to 64",
        1,
        MOST_SESSIONS,
    );
    let serve = Command::new(alloc, "serve")
        .about("Answers the requests of so many connections and settles the farm")
        .after_help(SERVE_HELP)
        .arg(config)?
        .arg(port)?
        .arg(sessions)?;
    command.subcommand(serve)
}

/// `command` with the subcommands `check`, `replay` and `serve`. Fails for want of memory.
pub fn with_commands<'a>(alloc: Global, command: Command<'a>) -> Result<Command<'a>, AllocError>
    ensures { IfOk result (λ whole. app_of whole ≡ with_three (app_of command.entry)) }
{
    let file = Arg::new(alloc, "FILE")
        .help("A PSPLIB multi-mode file, or - for standard input")
        .required(true);
    let check = Command::new(alloc, "check")
        .about("Reads a multi-mode project and prints what it holds")
        .after_help(CHECK_HELP)
        .arg(file)?;
    let config = needed_option(alloc, "config", "F", CONFIG_HELP);
    let script = Arg::new(alloc, "SCRIPT")
        .help("Requests, one a line, or - for standard input")
        .required(true);
    let strict = flag(alloc, "strict", STRICT_HELP);
    let replay = Command::new(alloc, "replay")
        .about("Replays a script of requests and prints the replies")
        .after_help(REPLAY_HELP)
        .arg(config)?
        .arg(script)?
        .arg(strict)?;
    let farm = command.subcommand(check)?.subcommand(replay)?;
    with_serve(alloc, farm)
}

/// The command `farm` with these three subcommands. Fails for want of memory.
pub fn farm_command<'a>(alloc: Global) -> Result<Command<'a>, AllocError>
    ensures { IfOk result (λ command. app_of command ≡ farm_app) }
{
    with_commands(alloc, Command::new(alloc, "farm").subcommand_required(true))
}

/// Returns the task of `words`, the first of which is the program's name; alone it is `check -`.
/// Fails with what is refused, or with the help that was asked for.
pub fn parse_words<'a>(alloc: Global, words: &'a [String]) -> Result<Task<'a>, Error>
    ensures bare { length words.now < 2 → IsOkAnd result (Checks (codes "-")) }
    ensures asked { 2 ≤ length words.now → IfOk result (Asks (subcommand_of farm_app (map string_bytes words.now))) }
    ensures judged { 2 ≤ length words.now → FailsBy (fault_of farm_app (map string_bytes words.now)) result }
{
    if words.len() < 2 {
        return Ok(Task::Check { file: "-" });
    }
    let command = farm_command(alloc)?;
    match command.try_get_matches_from(words) {
        Ok(matches) => Ok(task_of(&matches)),
        Err(error) => Err(error),
    }
}

fn task_of<'a>(matches: &ArgMatches<'a>) -> Task<'a>
    ensures { Asks (subcommand_rows_of matches.now) result }
{
    match matches.subcommand() {
        Some(("check", chosen)) => Task::Check {
            file: chosen.get_str("FILE").unwrap_or("-"),
        },
        Some(("replay", chosen)) => Task::Replay {
            config: chosen.get_str("config").unwrap_or("-"),
            script: chosen.get_str("SCRIPT").unwrap_or("-"),
            is_strict: chosen.get_flag("strict"),
        },
        Some(("serve", chosen)) => Task::Serve {
            config: chosen.get_str("config").unwrap_or("-"),
            port: chosen.get_str("port").unwrap_or("-"),
            sessions: chosen.get_str("sessions").unwrap_or("-"),
        },
        _ => Task::Check { file: "-" },
    }
}
