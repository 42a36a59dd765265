//! The farm: one table of jobs and one journal for all tenants. Yet the replies to a purse's
//! members are those of a farm of their own.
//!
//! Tenants that name the same purse share its quanta. Any other tenant has its own purse. Each call
//! of a [`Farm`] answers and changes the purse as the step of its tenant does (`specs/Step`), and
//! leaves all others as they were. The laws follow from these steps: each purse is alone, and each
//! reply about a job is true of its plan. A [`Turn`] is a job's search lent to a worker. `give`
//! takes it back, or returns it as a [`Stranger`] if it is of no job that is out.
//!
//! - `name`, `config`: tenants' names, and configurations with their limits.
//! - `entry`, `reply`: the journal's entries, and the replies.
//! - `purses`: who shares a purse, and how purses are numbered.
//! - `account`: a tenant's numbers, and its purse's ledger.
//! - `farm`: `Farm`, how it is made, and its readers. In its folder: `commands`, submit to ledger;
//!   `effect`, what a command does, and `commit`, which does it; `jobs`, how a job in the table
//!   changes.
//! - `command`: a command as a value, and one call for all seven.
//! - `turn`: turns, taken and given back.
//! - `laws`: the theorems, as contracts of functions that do nothing.
#![tactic(auto)]

mod account;
mod command;
mod config;
mod entry;
mod farm;
pub mod laws;
mod name;
mod purses;
mod reply;
mod turn;

pub use account::{Account, Numbers};
pub use command::Command;
pub use config::{
    Config, MOST_ENTRIES, MOST_JOBS, MOST_QUANTA, MOST_SLICE, MOST_TENANTS, MOST_WORKERS,
    TenantLine,
};
pub use entry::{Entry, Event, NotedPlan};
pub use farm::Farm;
pub use name::{MOST_NAME, Name};
pub use reply::{Line, NoTurn, Reply};
pub use turn::{Stranger, Turn};
