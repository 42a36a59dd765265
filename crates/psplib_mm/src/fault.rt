ghost use Rattle.std.specs.Prelude.{◌≡◌, Some};
ghost use Rattle.psplib_mm.specs.declared.fault.MmFault.TheVariants.{NoMemory};
ghost use Rattle.psplib_mm.specs.FaultText.{section_text, limit_text, fault_text};

use std::alloc::{AllocError, AllocFailed};
use std::error::Error;
use std::fmt;

/// A `SectionName` is a section of a multi-mode file that the reader needs.
#[derive(Clone, Copy, Debug, PartialEq, Eq)]
pub enum SectionName {
    PrecedenceRelations,
    RequestsDurations,
    ResourceAvailabilities,
}

impl fmt::Display for SectionName {
    ghost output = { λ name. Some (section_text name) };

    fn fmt<W: fmt::Write>(&self, f: &mut fmt::Formatter<W>) -> fmt::Result {
        match self {
            SectionName::PrecedenceRelations => write!(f, "PRECEDENCE RELATIONS"),
            SectionName::RequestsDurations => write!(f, "REQUESTS/DURATIONS"),
            SectionName::ResourceAvailabilities => write!(f, "RESOURCEAVAILABILITIES"),
        }
    }
}

/// A `LimitName` is a limit of a project. The variants are in the order of the tests.
#[derive(Clone, Copy, Debug, PartialEq, Eq)]
pub enum LimitName {
    /// 1 to 202 jobs.
    Jobs,
    /// 1 to 10 modes of each job.
    Modes,
    /// At most 8 renewable resources.
    Renewable,
    /// At most 8 nonrenewable resources.
    Nonrenewable,
    /// Durations of at most 1,000 periods.
    Duration,
    /// Requests and consumptions of at most 1,000,000 units.
    Request,
    /// Capacities of at most 1,000,000 units.
    Capacity,
    /// A sum of longest durations of at most 20,000 periods.
    Horizon,
}

impl fmt::Display for LimitName {
    ghost output = { λ name. Some (limit_text name) };

    fn fmt<W: fmt::Write>(&self, f: &mut fmt::Formatter<W>) -> fmt::Result {
        match self {
            LimitName::Jobs => write!(f, "jobs"),
            LimitName::Modes => write!(f, "modes"),
            LimitName::Renewable => write!(f, "renewable"),
            LimitName::Nonrenewable => write!(f, "nonrenewable"),
            LimitName::Duration => write!(f, "duration"),
            LimitName::Request => write!(f, "request"),
            LimitName::Capacity => write!(f, "capacity"),
            LimitName::Horizon => write!(f, "horizon"),
        }
    }
}

/// An `MmFault` is why a text is no project: the first variant whose cause holds. Lines count from
/// 1. Only `NoMemory` can come in place of another answer, and never in place of `TooLong`.
#[derive(Clone, Copy, Debug, PartialEq, Eq)]
pub enum MmFault {
    /// The text has more than 1,048,576 bytes.
    TooLong,
    /// The line that counts the jobs is missing, or a count of the head does not begin with a
    /// number.
    Header,
    /// The number of projects is not 1.
    Projects,
    /// The number of doubly constrained resources is not 0.
    Doubly,
    /// The line that begins this section is missing below the section before.
    Section(SectionName),
    /// A word on this line is no number, but one is needed.
    Number(u32),
    /// The number of words in the section differs from what its contents need.
    Count(SectionName),
    /// A job's or a mode's number on this line is not its place.
    Numbering(u32),
    /// A successor on this line is not above its job, exceeds the number of jobs, or repeats
    /// another.
    Successor(u32),
    /// The project breaks this limit.
    Limit(LimitName),
    NoMemory,
}

impl fmt::Display for MmFault {
    ghost output = { λ fault. Some (fault_text fault) };

    fn fmt<W: fmt::Write>(&self, f: &mut fmt::Formatter<W>) -> fmt::Result {
        match self {
            MmFault::TooLong => write!(f, "TooLong"),
            MmFault::Header => write!(f, "Header"),
            MmFault::Projects => write!(f, "Projects"),
            MmFault::Doubly => write!(f, "Doubly"),
            MmFault::Section(name) => write!(f, "Section({name})"),
            MmFault::Number(line) => write!(f, "Number({line})"),
            MmFault::Count(name) => write!(f, "Count({name})"),
            MmFault::Numbering(line) => write!(f, "Numbering({line})"),
            MmFault::Successor(line) => write!(f, "Successor({line})"),
            MmFault::Limit(name) => write!(f, "Limit({name})"),
            MmFault::NoMemory => write!(f, "NoMemory"),
        }
    }
}

impl Error for MmFault {}

impl From<AllocError> for MmFault {
    ghost from_gives = { λ _ fault. fault ≡ NoMemory };

    fn from(_error: AllocError) -> MmFault {
        MmFault::NoMemory
    }
}

impl<T: Drop> From<AllocFailed<T>> for MmFault {
    ghost from_gives = { λ _ fault. fault ≡ NoMemory };

    /// The value that found no room is dropped.
    fn from(_error: AllocFailed<T>) -> MmFault {
        MmFault::NoMemory
    }
}
