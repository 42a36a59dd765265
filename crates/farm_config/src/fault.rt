ghost use Rattle.std.specs.Prelude.{◌≡◌, Some};
ghost use Rattle.farm_config.specs.Config.{allows};
ghost use Rattle.farm_config.specs.ConfigText.{key_text};

use farm_core::{MOST_ENTRIES, MOST_JOBS, MOST_QUANTA, MOST_SLICE, MOST_WORKERS};
use std::fmt;
use thiserror::Error;

/// A `Key` is a number of the configuration. `Purse` is the sum of a purse's tenants' quanta.
#[derive(Clone, Copy, Debug, PartialEq, Eq)]
pub enum Key {
    Quanta,
    Jobs,
    Entries,
    Workers,
    Slice,
    Purse,
}

impl Key {
    pub(crate) fn allows(self, number: u64) -> bool
        ensures { result ≡ allows self number }
    {
        match self {
            Key::Quanta => number <= MOST_QUANTA,
            Key::Jobs => (1..=MOST_JOBS).contains(&number),
            Key::Entries => (1..=MOST_ENTRIES).contains(&number),
            Key::Workers => (1..=MOST_WORKERS).contains(&number),
            Key::Slice => (1..=MOST_SLICE).contains(&number),
            Key::Purse => number <= MOST_QUANTA,
        }
    }
}

impl fmt::Display for Key {
    ghost output = { λ key. Some (key_text key) };

    fn fmt<W: fmt::Write>(&self, f: &mut fmt::Formatter<W>) -> fmt::Result {
        match self {
            Key::Quanta => write!(f, "quanta"),
            Key::Jobs => write!(f, "jobs"),
            Key::Entries => write!(f, "entries"),
            Key::Workers => write!(f, "workers"),
            Key::Slice => write!(f, "slice"),
            Key::Purse => write!(f, "purse"),
        }
    }
}

/// A `ConfigFault` is why bytes are no configuration: the first variant whose cause holds. Only
/// `NoMemory` may take the place of another.
#[derive(Clone, Copy, Debug, PartialEq, Eq, Error)]
pub enum ConfigFault {
    /// The bytes are no JSON text.
    #[error("Json")]
    Json,
    /// A value is not of its kind, or a key that must be there is missing. Numbers are natural,
    /// below 2^64 and in digits alone.
    #[error("Shape")]
    Shape,
    /// There are not 1 to 64 tenants.
    #[error("Tenants")]
    Tenants,
    /// The first tenant, counted from 0, whose name is ill formed or taken, or whose purse's name
    /// is ill formed.
    #[error("Name({0})")]
    Name(usize),
    /// The first number out of range: quanta, jobs and entries of each tenant, workers, slice, and
    /// then the quanta of a purse.
    #[error("Range({0})")]
    Range(Key),
    #[error("NoMemory")]
    NoMemory,
}
