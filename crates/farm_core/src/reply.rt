//! The replies of the farm.
ghost use Rattle.std.specs.Prelude.{Some};
ghost use Rattle.farm_core.specs.NoTurnText.{no_turn_text};

use job_table::Phase;
use mrcpsp::Schedule;
use std::error::Error;
use std::fmt;
use strategy::Verdict;
use tenant_book::Book;

/// A `Line` is what a reply says of a job.
#[derive(Clone, Copy, Debug)]
pub struct Line {
    pub seq: u64,
    pub phase: Phase,
    /// The nodes that were run and paid.
    pub nodes: u64,
    /// The quanta that it holds.
    pub left: u64,
    /// The makespan of the best schedule, in periods.
    pub best: Option<u32>,
    pub verdict: Verdict,
}

/// A `Reply` is the answer to a command, or to a turn that was given back.
#[derive(Debug, Drop)]
pub enum Reply {
    /// The number of a new job.
    Job(u64),
    Line(Line),
    /// The nodes of a turn, and its job's line afterwards.
    Ran(u64, Line),
    /// A job's number, its best schedule, that schedule's makespan, and the verdict.
    Best(u64, Option<Schedule>, Option<u32>, Verdict),
    /// The job of this number was removed.
    Forgotten(u64),
    /// The ledger of the tenant's purse.
    Ledger(Book),
    /// No entry of the journal is left to the tenant.
    NoRoom,
    /// The tenant has no job of that number.
    NoUnknown,
    /// The job is out, or has not ended yet.
    NoBusy,
    /// The job has ended. For a cancel: or it is leaving.
    NoOver,
    /// The amount is 0, or more than 10^12.
    NoAmount,
    /// The tenant keeps as many jobs as it may.
    NoJobs,
    /// Fewer quanta are free than the amount: this number.
    NoShort(u64),
    /// There is no memory. Nothing has changed.
    NoMemory,
}

/// A `NoTurn` is why no turn was taken.
#[derive(Clone, Copy, Debug, PartialEq, Eq)]
pub enum NoTurn {
    /// The job is unknown or does not wait, the slice is not 1 to 1,000,000, or fewer than two
    /// entries are left to the tenant.
    None,
    /// There is no memory. Nothing has changed.
    NoMemory,
}

impl fmt::Display for NoTurn {
    ghost output = { λ why. Some (no_turn_text why) };

    fn fmt<W: fmt::Write>(&self, f: &mut fmt::Formatter<W>) -> fmt::Result {
        match self {
            NoTurn::None => write!(f, "no turn"),
            NoTurn::NoMemory => write!(f, "no memory"),
        }
    }
}

impl Error for NoTurn {}
