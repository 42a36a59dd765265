//! The words of a command line.
use clap::builder::ValueParser;
use clap::{Arg, ArgAction, ArgMatches, Command};
use explain::{LEAST_MEMORY, MOST_CONFLICTS, MOST_JOBS, MOST_MEMORY, MOST_SECONDS};
use std::alloc::{AllocError, Global};

/// The words of `prove`.
#[derive(Clone, Copy, Debug)]
pub(crate) struct Proving<'a> {
    pub(crate) file: &'a str,
    pub(crate) seconds: Option<&'a str>,
    pub(crate) jobs: Option<&'a str>,
    pub(crate) memory: &'a str,
    pub(crate) conflicts: &'a str,
    /// The path of a schedule to begin with.
    pub(crate) from: Option<&'a str>,
    pub(crate) is_json: bool,
    /// Whether each better schedule is printed when it is found.
    pub(crate) is_improving: bool,
    /// Whether nothing goes to the standard error while it runs.
    pub(crate) is_quiet: bool,
    /// Whether it ends when the standard input does.
    pub(crate) is_watching: bool,
}

fn flag<'a>(alloc: Global, name: &'a str, help: &'a str) -> Arg<'a> {
    Arg::new(alloc, name)
        .long(name)
        .help(help)
        .action(ArgAction::SetTrue)
}

fn number<'a>(
    alloc: Global,
    name: &'a str,
    value: &'a str,
    help: &'a str,
    within: ValueParser<'a>,
) -> Arg<'a> {
    Arg::new(alloc, name)
        .long(name)
        .value_name(value)
        .help(help)
        .value_parser(within)
}

fn with_limits<'a>(alloc: Global, command: Command<'a>) -> Result<Command<'a>, AllocError> {
    let seconds = number(
        alloc,
        "seconds",
        "S",
        "How long it may take; else until the project is decided",
        ValueParser::unsigned(1, MOST_SECONDS),
    );
    let jobs = number(
        alloc,
        "jobs",
        "J",
        "Workers side by side; else one for each processor",
        ValueParser::unsigned(1, MOST_JOBS),
    );
    let memory = number(
        alloc,
        "memory",
        "M",
        "The most megabytes of clauses of all workers; ./farm gives half of what is free",
        ValueParser::unsigned(LEAST_MEMORY, MOST_MEMORY),
    )
    .default_value("2000");
    let conflicts = number(
        alloc,
        "conflicts",
        "C",
        "The most conflicts of a worker's clauses",
        ValueParser::unsigned(1, MOST_CONFLICTS),
    )
    .default_value("1000000000000");
    command.arg(seconds)?.arg(jobs)?.arg(memory)?.arg(conflicts)
}

fn with_output<'a>(alloc: Global, command: Command<'a>) -> Result<Command<'a>, AllocError> {
    let improvements = flag(
        alloc,
        "improvements",
        "Print each better schedule when it is found, before the lines of the best",
    );
    let progress = flag(
        alloc,
        "progress",
        "Tell each better schedule and bound on standard error, as it does by itself",
    );
    let quiet = flag(alloc, "quiet", "Print nothing while it runs").conflicts_with("progress")?;
    command
        .arg(flag(alloc, "json", "Print one JSON object"))?
        .arg(improvements)?
        .arg(progress)?
        .arg(quiet)
}

fn prove_command<'a>(alloc: Global) -> Result<Command<'a>, AllocError> {
    let file = Arg::new(alloc, "FILE")
        .help("A PSPLIB multi-mode file, or - for standard input")
        .required(true);
    let from = Arg::new(alloc, "from")
        .long("from")
        .value_name("SCHEDULE")
        .help("A schedule to begin with, as verify reads it; one that is broken begins the search");
    let watching = flag(
        alloc,
        "until-input-ends",
        "End with the best when the standard input ends",
    );
    let prove = Command::new(alloc, "prove")
        .about("Looks for the shortest schedule of a project and proves how good it is")
        .after_help(PROVE_HELP)
        .arg(file)?;
    let prove = with_limits(alloc, prove)?.arg(from)?;
    with_output(alloc, prove)?.arg(watching)
}

/// `command` with the subcommand `prove`. Fails for want of memory.
pub fn with_commands<'a>(alloc: Global, command: Command<'a>) -> Result<Command<'a>, AllocError> {
    command.subcommand(prove_command(alloc)?)
}

pub(crate) fn proving_of<'a>(matches: &ArgMatches<'a>) -> Option<Proving<'a>> {
    match matches.subcommand() {
        Some(("prove", chosen)) => Some(Proving {
            file: chosen.get_str("FILE")?,
            seconds: chosen.get_str("seconds"),
            jobs: chosen.get_str("jobs"),
            memory: chosen.get_str("memory")?,
            conflicts: chosen.get_str("conflicts")?,
            from: chosen.get_str("from"),
            is_json: chosen.get_flag("json"),
            is_improving: chosen.get_flag("improvements"),
            is_quiet: chosen.get_flag("quiet"),
            is_watching: chosen.get_flag("until-input-ends"),
        }),
        _ => None,
    }
}

const PROVE_HELP: &str = "\
It prints a line of what it has proved, and a line of the best schedule: a word J:MODE:START for
each activity.

  status  printed                                  means
  0       optimal M, and its schedule              no schedule is shorter
  0       infeasible                               no schedule is feasible
  3       makespan U at least L, and its schedule  the shortest takes L to U periods
  3       at least L                               no schedule was found
  1       a line on standard error                 a fault of the file or of the system
  2       the usage on standard error              wrong words

Local search looks for schedules. Prices of resources and a solver of clauses raise the bound; the
solver's steps are checked one by one when it makes them. With --jobs 1 and --memory, and without
--seconds, the output depends on the file and the options alone. Standard error has a line for each
better schedule and bound.

--json prints one object: verdict (optimal, infeasible, gap or open), makespan, bound, schedule,
seconds, jobs and conflicts. With --improvements each better schedule is printed as a line of its own,
with the verdict 'open', or as an object with the verdict 'gap'.

./farm and an installation have two options more: --keep FOLDER keeps what others can check, and
--solver NAME asks an installed solver (farm prove --keep FOLDER --help, --solver NAME --help).

Examples:

  $ farm prove examples/j30_2.mm
  $ farm prove --seconds 60 --jobs 4 examples/j30_1.mm
  $ farm prove --seconds 60 --from yesterday.schedule --json changed.mm";
