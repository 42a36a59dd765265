//! The words of a command line.
use crate::layout::Layout;
use clap::builder::ValueParser;
use clap::{Arg, ArgAction, ArgMatches, Command};
use file_commands::{UNITS, unit_of};
use schedule_labels::Unit;
use std::alloc::{AllocError, Global};

#[derive(Clone, Copy, Debug, PartialEq, Eq)]
pub(crate) enum PlanTask<'a> {
    Show(Showing<'a>),
    Compare(Comparing<'a>),
}

#[derive(Clone, Copy, Debug, PartialEq, Eq)]
pub(crate) struct Showing<'a> {
    pub(crate) file: &'a str,
    pub(crate) text: &'a str,
    pub(crate) layout: Layout,
    /// The word of the moment at which period 0 begins.
    pub(crate) start: Option<&'a str>,
    pub(crate) unit: Unit,
    /// The path of a file of names.
    pub(crate) names: Option<&'a str>,
}

#[derive(Clone, Copy, Debug, PartialEq, Eq)]
pub(crate) struct Comparing<'a> {
    pub(crate) file: &'a str,
    pub(crate) before: &'a str,
    pub(crate) after: &'a str,
}

fn file_arg<'a>(alloc: Global) -> Arg<'a> {
    Arg::new(alloc, "FILE")
        .help("A PSPLIB multi-mode file, or - for standard input")
        .required(true)
}

fn schedule_arg<'a>(alloc: Global, name: &'a str) -> Arg<'a> {
    Arg::new(alloc, name)
        .help("A schedule in any form that verify takes, or - for standard input")
        .required(true)
}

fn value<'a>(alloc: Global, name: &'a str, kind: &'a str, help: &'a str) -> Arg<'a> {
    Arg::new(alloc, name).long(name).value_name(kind).help(help)
}

fn show_command<'a>(alloc: Global) -> Result<Command<'a>, AllocError> {
    let csv = Arg::new(alloc, "csv")
        .long("csv")
        .help("Write lines of CSV, with a comma between two fields")
        .action(ArgAction::SetTrue);
    let unit = value(
        alloc,
        "unit",
        "UNIT",
        "The length of a period; a shift has 8 hours",
    )
    .value_parser(ValueParser::Names(&UNITS))
    .default_value("day");
    let start = value(
        alloc,
        "start",
        "DATE",
        "When period 0 begins, as 2026-12-01 or 2026-12-01T06:00: adds the columns from and until",
    );
    let names = value(
        alloc,
        "names",
        "FILE",
        "Lines J,NAME of CSV: adds a column of names",
    );
    Command::new(alloc, "show")
        .about("Prints a feasible schedule as a table, activity by activity")
        .after_help(SHOW_HELP)
        .arg(file_arg(alloc))?
        .arg(schedule_arg(alloc, "SCHEDULE"))?
        .arg(csv)?
        .arg(start)?
        .arg(unit)?
        .arg(names)
}

fn compare_command<'a>(alloc: Global) -> Result<Command<'a>, AllocError> {
    Command::new(alloc, "compare")
        .about("Tells what differs between two schedules of a project")
        .after_help(COMPARE_HELP)
        .arg(file_arg(alloc))?
        .arg(schedule_arg(alloc, "BEFORE"))?
        .arg(schedule_arg(alloc, "AFTER"))
}

/// `command` with the subcommands `show` and `compare`. Fails for want of memory.
pub fn with_commands<'a>(alloc: Global, command: Command<'a>) -> Result<Command<'a>, AllocError> {
    command
        .subcommand(show_command(alloc)?)?
        .subcommand(compare_command(alloc)?)
}

fn showing_of<'a>(chosen: &ArgMatches<'a>) -> Option<Showing<'a>> {
    let layout = if chosen.get_flag("csv") {
        Layout::Csv
    } else {
        Layout::Columns
    };
    Some(Showing {
        file: chosen.get_str("FILE")?,
        text: chosen.get_str("SCHEDULE")?,
        layout,
        start: chosen.get_str("start"),
        unit: unit_of(chosen.get_str("unit")),
        names: chosen.get_str("names"),
    })
}

pub(crate) fn task_of<'a>(matches: &ArgMatches<'a>) -> Option<PlanTask<'a>> {
    match matches.subcommand() {
        Some(("show", chosen)) => Some(PlanTask::Show(showing_of(chosen)?)),
        Some(("compare", chosen)) => Some(PlanTask::Compare(Comparing {
            file: chosen.get_str("FILE")?,
            before: chosen.get_str("BEFORE")?,
            after: chosen.get_str("AFTER")?,
        })),
        _ => None,
    }
}

const SHOW_HELP: &str = "\
A line for each activity: its number, mode, start and finish, its slack, what it uses of each renewable
resource R in each of its periods and of each nonrenewable resource N in all, and its predecessors. Its
finish is its start and its duration. Its slack is how many periods the activity alone can start later,
if all others stay where they are: until one of its successors starts, or until the makespan. Whether the
resources are free then is not looked at.

With --start it begins in column from and has ended by column until. A line of the names has the
activity's number, a comma and its name; a line without a number is passed over. A schedule that is not
feasible is not printed; it ends as in verify.

Examples:

  $ farm solve examples/first.mm | farm show examples/first.mm -
  activity   mode  start finish  slack     R1     N1  predecessors
         1      1      0      0      0      0      0  -
         2      1      0      3      1      2      0  1
         3      2      0      4      0      1      0  1
         4      1      4      4      0      0      0  2;3
  $ farm show --csv --start 2026-12-01 --names names.csv examples/first.mm schedule > table.csv";

const COMPARE_HELP: &str = "\
A line for each schedule, with its makespan and what it breaks first if it is not feasible; a line for
each activity with another mode or start; how many these are; and what is consumed of each nonrenewable
resource. A schedule that has not one mode and one start of each activity ends the command, as in verify.

Example:

  $ farm compare examples/first.mm before after
  before makespan 5 feasible
  after makespan 4 feasible
  activity 3 mode 1 start 3 -> mode 2 start 0
  activity 4 mode 1 start 5 -> mode 1 start 4
  moved 2 of 4
  consumed N1 1 -> 0";
