//! The words of the command line.
use clap::{Arg, ArgMatches, Command};
use std::alloc::{AllocError, Global};

const HELP: &str = "\
Prints the numbers of the farm, each purse with its quanta and its tenants, each tenant with its limits and the
entries that one job needs which runs all quanta of its purse, and the kilobytes that the journal can take if all
entries are submits of the largest projects. On a terminal a second line names a key that is not read.

Example:

  $ farm config examples/group.json

docs/CONFIGURATION.md has the keys and the faults.";

fn config_command<'a>(alloc: Global) -> Result<Command<'a>, AllocError> {
    let file = Arg::new(alloc, "FILE")
        .help("A farm's configuration, a JSON file, or - for standard input")
        .required(true);
    Command::new(alloc, "config")
        .about("Prints what a configuration means")
        .after_help(HELP)
        .arg(file)
}

/// `command` with the subcommand `config`. Fails for want of memory.
pub fn with_commands<'a>(alloc: Global, command: Command<'a>) -> Result<Command<'a>, AllocError> {
    command.subcommand(config_command(alloc)?)
}

/// The path that is chosen, if the command is `config`.
pub(crate) fn path_of<'a>(matches: &ArgMatches<'a>) -> Option<&'a str> {
    match matches.subcommand() {
        Some(("config", chosen)) => chosen.get_str("FILE"),
        _ => None,
    }
}
