//! The rows of all tenants' jobs.
//!
//! A [`JobTable`] is the list of all jobs, by tenants and numbers, with a queue of those that wait.
//! Each call changes only the job that it names, and none if it is refused. A [`Job`] is a number,
//! a phase and [`Work`]; `find_mut` lends the work, and `set_phase` sets the phase and keeps the
//! queue.
//!
//! - `phase`: the phases of a job, and in which it waits, is out or has ended.
//! - `best`: the best schedule of a job, in memory that is taken once.
//! - `counts`: how many jobs each tenant has, and of how many the turn is out.
//! - `job`: `Job` and `Work`.
//! - `queue`: who waits, linked through the jobs.
//! - `table`: `JobTable`.
#![tactic(auto)]

mod best;
mod counts;
mod job;
mod phase;
mod queue;
mod table;

pub use job::{Job, Work, is_fresh};
pub use phase::Phase;
pub use table::JobTable;
