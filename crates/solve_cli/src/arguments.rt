//! The words of a command line.
use crate::search_result::MOST_NODES;
use clap::builder::ValueParser;
use clap::{Arg, ArgAction, ArgMatches, Command};
use explain::MOST_CONFLICTS;
use file_commands::{Paths, UNITS, unit_of};
use schedule_labels::Unit;
use schedule_picture::Order;
use std::alloc::{AllocError, Global};

#[derive(Clone, Copy, Debug, PartialEq, Eq)]
pub(crate) enum ProjectTask<'a> {
    Verify(Paths<'a>, Listing),
    Solve(Solving<'a>),
    Draw(Paths<'a>, DrawWords<'a>),
}

#[derive(Clone, Copy, Debug, PartialEq, Eq)]
pub(crate) enum BoundWord {
    Chain,
    /// The most conflicts in which the bound is proved.
    Proved(u64),
    Left,
}

#[derive(Clone, Copy, Debug, PartialEq, Eq)]
pub(crate) struct DrawWords<'a> {
    pub(crate) order: Order,
    pub(crate) bound: BoundWord,
    /// The word of the moment at which period 0 begins.
    pub(crate) start: Option<&'a str>,
    pub(crate) unit: Unit,
    /// The path of a file of names.
    pub(crate) names: Option<&'a str>,
    /// The path of an earlier schedule.
    pub(crate) before: Option<&'a str>,
}

#[derive(Clone, Copy, Debug, PartialEq, Eq)]
pub(crate) enum Listing {
    First,
    All,
}

#[derive(Clone, Copy, Debug, PartialEq, Eq)]
pub(crate) struct Solving<'a> {
    pub(crate) file: &'a str,
    /// The words of kinds of searches, with commas between them.
    pub(crate) search: &'a str,
    /// The digits of the most nodes of each search.
    pub(crate) nodes: &'a str,
    pub(crate) is_json: bool,
    /// Whether progress is written on standard error.
    pub(crate) is_telling: bool,
    /// Whether no progress is written, even with `is_telling`.
    pub(crate) is_quiet: bool,
    /// Whether each better schedule is printed at the next look.
    pub(crate) is_improving: bool,
}

fn file_arg<'a>(alloc: Global) -> Arg<'a> {
    Arg::new(alloc, "FILE")
        .help("A PSPLIB multi-mode file, or - for standard input")
        .required(true)
}

fn schedule_arg<'a>(alloc: Global) -> Arg<'a> {
    Arg::new(alloc, "SCHEDULE")
        .help(
            "What solve prints, as lines or as JSON, or words J:MODE:START, or lines J,MODE,START, or - for standard input",
        )
        .required(true)
}

fn value<'a>(alloc: Global, name: &'a str, kind: &'a str, help: &'a str) -> Arg<'a> {
    Arg::new(alloc, name).long(name).value_name(kind).help(help)
}

fn flag<'a>(alloc: Global, name: &'a str, help: &'a str) -> Arg<'a> {
    Arg::new(alloc, name)
        .long(name)
        .help(help)
        .action(ArgAction::SetTrue)
}

fn verify_command<'a>(alloc: Global) -> Result<Command<'a>, AllocError> {
    Command::new(alloc, "verify")
        .about("Tells whether a schedule is feasible, and how long it takes")
        .after_help(VERIFY_HELP)
        .arg(file_arg(alloc))?
        .arg(schedule_arg(alloc))?
        .arg(flag(
            alloc,
            "all",
            "Tell each breach of the schedule, with its amount",
        ))
}

fn draw_command<'a>(alloc: Global) -> Result<Command<'a>, AllocError> {
    let order = Arg::new(alloc, "order")
        .long("order")
        .value_name("ORDER")
        .help("The order of the rows")
        .value_parser(ValueParser::Names(&ORDERS))
        .default_value("number");
    let prove = Arg::new(alloc, "prove")
        .long("prove")
        .value_name("C")
        .help("Prove the heading's bound, in at most C conflicts")
        .value_parser(ValueParser::unsigned(1, MOST_CONFLICTS));
    let unit = value(
        alloc,
        "unit",
        "UNIT",
        "The length of a period; a shift has 8 hours",
    )
    .value_parser(ValueParser::Names(&UNITS))
    .default_value("day");
    Command::new(alloc, "draw")
        .about("Draws a feasible schedule as an SVG picture")
        .after_help(DRAW_HELP)
        .arg(file_arg(alloc))?
        .arg(schedule_arg(alloc))?
        .arg(order)?
        .arg(prove)?
        .arg(flag(alloc, "no-bound", "Leave the bound out of the heading"))?
        .arg(value(
            alloc,
            "before",
            "SCHEDULE",
            "Draw this schedule too, as thin bars: the plan before a change",
        ))?
        .arg(value(
            alloc,
            "start",
            "DATE",
            "When period 0 begins, as 2026-12-01 or 2026-12-01T06:00: dates above the rows",
        ))?
        .arg(unit)?
        .arg(value(
            alloc,
            "names",
            "FILE",
            "Lines J,NAME of CSV: names beside the rows",
        ))
}

fn solve_command<'a>(alloc: Global) -> Result<Command<'a>, AllocError> {
    let search = Arg::new(alloc, "search")
        .long("search")
        .value_name("S,..")
        .help(
            "tree, rule:lft, rule:mts, rule:spt, sample:SEED, improve:SEED or prove:CONFLICTS, or several with commas, run in this order; all is a good list of them",
        )
        .default_value("tree");
    let nodes = Arg::new(alloc, "nodes")
        .long("nodes")
        .value_name("N")
        .help("The most nodes that each search runs, 1 to 1000000000000")
        .value_parser(ValueParser::unsigned(1, MOST_NODES))
        .default_value("10000000");
    Command::new(alloc, "solve")
        .about("Searches for a short schedule of one project")
        .after_help(SOLVE_HELP)
        .arg(file_arg(alloc))?
        .arg(search)?
        .arg(nodes)?
        .arg(flag(alloc, "json", "Print one JSON object"))?
        .arg(flag(
            alloc,
            "progress",
            "Print on standard error, once a second, how far the search is",
        ))?
        .arg(flag(alloc, "quiet", "Print no progress, even with --progress"))?
        .arg(flag(
            alloc,
            "improvements",
            "Print each better schedule as it is found, looked for every 65,536 nodes at the latest, before the lines of the best",
        ))
}

/// `command` with the subcommands `solve`, `verify` and `draw`. Fails for want of memory.
pub fn with_commands<'a>(alloc: Global, command: Command<'a>) -> Result<Command<'a>, AllocError> {
    command
        .subcommand(solve_command(alloc)?)?
        .subcommand(verify_command(alloc)?)?
        .subcommand(draw_command(alloc)?)
}

const ORDERS: [&str; 2] = ["number", "start"];

fn order_of(word: Option<&str>) -> Order {
    match word {
        Some("start") => Order::Start,
        _ => Order::Number,
    }
}

fn bound_of(chosen: &ArgMatches<'_>) -> BoundWord {
    if chosen.get_flag("no-bound") {
        return BoundWord::Left;
    }
    match chosen
        .get_str("prove")
        .and_then(|word| word.parse::<u64>().ok())
    {
        Some(conflicts) => BoundWord::Proved(conflicts),
        None => BoundWord::Chain,
    }
}

fn draw_words_of<'a>(chosen: &ArgMatches<'a>) -> DrawWords<'a> {
    DrawWords {
        order: order_of(chosen.get_str("order")),
        bound: bound_of(chosen),
        start: chosen.get_str("start"),
        unit: unit_of(chosen.get_str("unit")),
        names: chosen.get_str("names"),
        before: chosen.get_str("before"),
    }
}

fn paths_of<'a>(chosen: &ArgMatches<'a>) -> Option<Paths<'a>> {
    Some(Paths {
        file: chosen.get_str("FILE")?,
        text: Some(chosen.get_str("SCHEDULE")?),
        other: None,
    })
}

pub(crate) fn task_of<'a>(matches: &ArgMatches<'a>) -> Option<ProjectTask<'a>> {
    match matches.subcommand() {
        Some(("verify", chosen)) => {
            let paths = paths_of(chosen)?;
            let listing = if chosen.get_flag("all") {
                Listing::All
            } else {
                Listing::First
            };
            Some(ProjectTask::Verify(paths, listing))
        }
        Some(("solve", chosen)) => Some(ProjectTask::Solve(Solving {
            file: chosen.get_str("FILE")?,
            search: chosen.get_str("search")?,
            nodes: chosen.get_str("nodes")?,
            is_json: chosen.get_flag("json"),
            is_telling: chosen.get_flag("progress"),
            is_quiet: chosen.get_flag("quiet"),
            is_improving: chosen.get_flag("improvements"),
        })),
        Some(("draw", chosen)) => {
            let paths = paths_of(chosen)?;
            Some(ProjectTask::Draw(paths, draw_words_of(chosen)))
        }
        _ => None,
    }
}

const VERIFY_HELP: &str = "\
It prints 'feasible makespan M', with status 0. Otherwise what is broken first goes to standard
error, with status 1:

  breach Shape               not one mode and one start for each activity, or a start
                             above 1000000000
  breach Mode(J)             activity J has no such mode
  breach Precedence(I, J)    activity J starts before activity I ends
  breach Renewable(R, T)     renewable resource R is used above its capacity in period T
  breach Nonrenewable(R)     nonrenewable resource R is consumed above its capacity

With --all a line of each breach follows, with its amount: the shape alone, or else modes alone, or
else all others; of a renewable resource in each period in which an activity starts.

Examples:

  $ farm solve examples/first.mm | farm verify examples/first.mm -
  feasible makespan 4
  $ echo 1:1:0 2:1:0 3:2:0 4:1:2 | farm verify --all examples/first.mm -
  farm: breach Precedence(2, 4)
  farm: breach Precedence(2, 4): activity 4 starts in period 2, before activity 2 ends at 3
  farm: breach Precedence(3, 4): activity 4 starts in period 2, before activity 3 ends at 4";

const DRAW_HELP: &str = "\
A bar for each activity with its number and its mode, and under them what is used of each renewable
resource against its capacity. With --order start the rows are in the order of the starts. The critical
chain leads from the end back to the beginning: each of its activities begins when the one before it ends,
a predecessor of it or one that uses a resource of it. The heading says 'optimal by the longest chain'
only if the makespan is the length of the longest chain of activities by shortest durations, and
otherwise gives that length. With --prove it looks for a proof of a better bound, and says 'optimal by a
proof' if no schedule is shorter. No verdict is taken from the schedule's text. A schedule that is not
feasible is not drawn; it ends as in verify.

--before draws a thin bar under each bar: where the activity was in an earlier schedule. That one may be
infeasible; what it has of modes and activities that the project lacks is left out. A line of --names has
an activity's number, a comma and its name; a line without a number is passed over.

Examples:

  $ farm solve examples/j10_1.mm | farm draw examples/j10_1.mm - > j10_1.svg
  $ farm draw --start 2026-12-01 --names names.csv --before old.txt project.mm new.txt > plan.svg";

const SOLVE_HELP: &str = "\
It prints a line of the nodes that were run and a line of the best schedule: its makespan, a verdict,
and a word J:MODE:START for each activity. The verdict is 'optimal' or 'infeasible' where that is
shown, 'open' where the search is not over, and 'ended' where it is over and shows nothing.

improve:SEED improves schedules by local search, and generates at most N of them. prove:CONFLICTS is
farm prove with one worker and 500 megabytes: it takes at most that many conflicts of its clauses, and
at most N. all stands for rule:lft,rule:mts,rule:spt,tree,improve:1,prove:100000: the tree shows that
the best schedule of a small project is optimal, local search finds the shortest schedules of large
ones, and clauses prove that some of these are optimal.

Several searches run one after another, each for at most N nodes, and none after one that shows
'optimal' or 'infeasible'; the shortest of their schedules is printed. With --improvements each
better schedule is printed as a line of its own, with the verdict 'open', at the next look at the
search, every 65,536 nodes: what was printed last when the program is stopped is the best then.

Examples:

  $ farm solve examples/first.mm
  nodes 9 best 4 optimal
  makespan 4 optimal 1:1:0 2:1:0 3:2:0 4:1:4
  $ farm solve --search sample:7 --nodes 100000 --progress examples/j30_1.mm
  $ farm solve --search rule:lft,rule:mts,tree examples/j10_1.mm
  $ farm solve --search all --nodes 100000 examples/j30_1.mm
  $ farm solve --search prove:100000 examples/j20_1.mm
  $ timeout 10 farm solve --improvements --nodes 1000000000 examples/j20_1.mm | tail -n 1";
