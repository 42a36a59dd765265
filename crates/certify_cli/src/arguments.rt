//! The words of a command line.
use clap::builder::ValueParser;
use clap::{Arg, ArgMatches, Command};
use explain::{LEAST_MEMORY, MOST_CONFLICTS, MOST_MEMORY};
use std::alloc::{AllocError, Global};

const MOST_STEPS: u64 = 1_000_000;

/// The words of `refute`.
#[derive(Clone, Copy, Debug, PartialEq, Eq)]
pub(crate) struct Refuting<'a> {
    pub(crate) file: &'a str,
    /// The digits of a number of periods, or `none`.
    pub(crate) limit: &'a str,
    pub(crate) conflicts: &'a str,
    /// Megabytes.
    pub(crate) memory: &'a str,
}

/// A `CertificateTask` is what the words of a command line ask for. A path `-` is standard input.
#[derive(Clone, Copy, Debug, PartialEq, Eq)]
pub(crate) enum CertificateTask<'a> {
    Clauses {
        file: &'a str,
        /// The digits of a number of periods, or `none`.
        bound: &'a str,
    },
    Certify {
        file: &'a str,
        schedule: &'a str,
        proof: Option<&'a str>,
    },
    Infeasible {
        file: &'a str,
        proof: Option<&'a str>,
    },
    Bound {
        file: &'a str,
        /// The digits of a number of periods.
        bound: Option<&'a str>,
        proof: Option<&'a str>,
        /// The most steps for the prices of each bound.
        steps: u32,
    },
}

const FILE_HELP: &str = "A PSPLIB multi-mode file, or - for standard input";

fn needed<'a>(alloc: Global, name: &'a str, help: &'a str) -> Arg<'a> {
    Arg::new(alloc, name).help(help).required(true)
}

fn clauses_command<'a>(alloc: Global) -> Result<Command<'a>, AllocError> {
    Command::new(alloc, "clauses")
        .about("Writes the clauses of a project and a bound in DIMACS form")
        .override_usage("farm clauses <FILE> <BOUND>")
        .arg(needed(alloc, "FILE", FILE_HELP))?
        .arg(needed(alloc, "BOUND", "Periods, or none: modes and stocks alone"))
}

fn certify_command<'a>(alloc: Global) -> Result<Command<'a>, AllocError> {
    Command::new(alloc, "certify")
        .about("Checks a schedule and a proof that none is shorter")
        .override_usage("farm certify <FILE> <SCHEDULE> [PROOF]")
        .arg(needed(alloc, "FILE", FILE_HELP))?
        .arg(needed(
            alloc,
            "SCHEDULE",
            "What solve prints, as lines or as JSON, or words J:MODE:START, or lines J,MODE,START",
        ))?
        .arg(Arg::new(alloc, "PROOF").help(
            "A DRAT proof of the clauses of one period less; none if the longest chain or prices decide",
        ))
}

fn infeasible_command<'a>(alloc: Global) -> Result<Command<'a>, AllocError> {
    Command::new(alloc, "infeasible")
        .about("Shows that no schedule is feasible, by a proof or by prices")
        .override_usage("farm infeasible <FILE> [PROOF]")
        .arg(needed(alloc, "FILE", FILE_HELP))?
        .arg(Arg::new(alloc, "PROOF").help(
            "A DRAT proof of the clauses without a bound; none if prices decide",
        ))
}

fn bound_command<'a>(alloc: Global) -> Result<Command<'a>, AllocError> {
    let steps = Arg::new(alloc, "steps")
        .long("steps")
        .value_name("N")
        .help(
            "Without BOUND: the most steps for the prices of each bound; 0 for the longest chain alone",
        )
        .value_parser(ValueParser::unsigned(0, MOST_STEPS))
        .default_value("1000");
    Command::new(alloc, "bound")
        .about("Tells how many periods each schedule takes at least, or checks a proof of a bound")
        .override_usage("farm bound [--steps N] <FILE> [BOUND] [PROOF]")
        .arg(needed(alloc, "FILE", FILE_HELP))?
        .arg(Arg::new(alloc, "BOUND").help(
            "Periods that each schedule takes at least; without it, the best bound that prices show",
        ))?
        .arg(Arg::new(alloc, "PROOF").help(
            "A DRAT proof of the clauses of one period less; none if the longest chain or prices decide",
        ))?
        .arg(steps)
}

fn refute_command<'a>(alloc: Global) -> Result<Command<'a>, AllocError> {
    let conflicts = Arg::new(alloc, "conflicts")
        .long("conflicts")
        .value_name("C")
        .help("The most conflicts of the search")
        .value_parser(ValueParser::unsigned(1, MOST_CONFLICTS))
        .default_value("1000000000000");
    let memory = Arg::new(alloc, "memory")
        .long("memory")
        .value_name("M")
        .help("The most megabytes of clauses")
        .value_parser(ValueParser::unsigned(LEAST_MEMORY, MOST_MEMORY))
        .default_value("2000");
    Command::new(alloc, "refute")
        .about("Writes a DRAT proof that no schedule is within a limit")
        .override_usage("farm refute [--conflicts C] [--memory M] <FILE> <LIMIT>")
        .after_help(REFUTE_HELP)
        .arg(needed(alloc, "FILE", FILE_HELP))?
        .arg(needed(alloc, "LIMIT", "Periods, or none: no modes fit the stocks"))?
        .arg(conflicts)?
        .arg(memory)
}

/// `command` with the subcommands `certify`, `bound`, `infeasible`, `clauses` and `refute`. Fails for
/// want of memory.
pub fn with_commands<'a>(alloc: Global, command: Command<'a>) -> Result<Command<'a>, AllocError> {
    command
        .subcommand(certify_command(alloc)?)?
        .subcommand(bound_command(alloc)?)?
        .subcommand(infeasible_command(alloc)?)?
        .subcommand(clauses_command(alloc)?)?
        .subcommand(refute_command(alloc)?)
}

pub(crate) fn refuting_of<'a>(matches: &ArgMatches<'a>) -> Option<Refuting<'a>> {
    match matches.subcommand() {
        Some(("refute", chosen)) => Some(Refuting {
            file: chosen.get_str("FILE")?,
            limit: chosen.get_str("LIMIT")?,
            conflicts: chosen.get_str("conflicts")?,
            memory: chosen.get_str("memory")?,
        }),
        _ => None,
    }
}

fn steps_of(chosen: &ArgMatches<'_>) -> u32 {
    let steps = chosen.get_str("steps").unwrap_or("1000");
    steps.parse::<u32>().unwrap_or(1000)
}

pub(crate) fn task_of<'a>(matches: &ArgMatches<'a>) -> Option<CertificateTask<'a>> {
    match matches.subcommand() {
        Some(("clauses", chosen)) => Some(CertificateTask::Clauses {
            file: chosen.get_str("FILE")?,
            bound: chosen.get_str("BOUND")?,
        }),
        Some(("certify", chosen)) => Some(CertificateTask::Certify {
            file: chosen.get_str("FILE")?,
            schedule: chosen.get_str("SCHEDULE")?,
            proof: chosen.get_str("PROOF"),
        }),
        Some(("infeasible", chosen)) => Some(CertificateTask::Infeasible {
            file: chosen.get_str("FILE")?,
            proof: chosen.get_str("PROOF"),
        }),
        Some(("bound", chosen)) => Some(CertificateTask::Bound {
            file: chosen.get_str("FILE")?,
            bound: chosen.get_str("BOUND"),
            proof: chosen.get_str("PROOF"),
            steps: steps_of(chosen),
        }),
        _ => None,
    }
}

const REFUTE_HELP: &str = "\
The program's solver refutes the clauses that farm clauses FILE LIMIT writes. A line of the proof is a
clause that it has learned, or behind d one that it has forgotten; the last line is 0. Each step is
checked when it is made. certify, bound and infeasible check the proof again, as any DRAT checker does.

  status  means
  0       the proof is whole: no feasible schedule takes at most LIMIT periods
  3       nothing is proved: a line on standard error tells whether the clauses can all be true, or
          whether the conflicts or the megabytes were not enough
  1       a fault of the file, the limit or the system
  2       wrong words

Example:

  $ farm refute examples/j30_2.mm 26 >proof
  $ farm bound examples/j30_2.mm 27 proof";
