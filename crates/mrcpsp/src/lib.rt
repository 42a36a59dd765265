//! Multi-mode resource-constrained projects, MPS|prec|Cmax (Brucker et al. 1999).
//!
//! A [`Project`] is within its limits, and its successors are distinct and above their activity.
//! [`check`] answers `Ok` exactly if a schedule is feasible, and else its first breach. All crates
//! above cite the definitions `specs/Schedule`, `specs/Earliest` and `specs/Values`. Readers name
//! activities, modes and resources by places from 0; files, schedules and breaches count from 1.
//!
//! - `sequence`: `Sequence`, a vector that contracts see as a list.
//! - `mode`, `activity`, `schedule`: types with public fields, their copies and their equality.
//! - `limits`, `parts`, `project`: the limits, a project's lists, `Project` and its readers.
//! - `fitting`: `Fitting`, a schedule with a start and a mode for each activity.
//! - `breach`, `feasibility`, `breaches`: `Breach`, `check`, `makespan`, `breaches_of`.
//! - `laws`: the earliest start is the least one; no schedule is below the bound.
#![tactic(auto)]

mod activity;
mod breach;
mod breaches;
mod feasibility;
mod fitting;
pub mod laws;
mod limits;
mod mode;
mod parts;
mod project;
mod schedule;
mod sequence;

pub use activity::Activity;
pub use breach::Breach;
pub use breaches::breaches_of;
pub use feasibility::{MOST_START, check, makespan};
pub use fitting::Fitting;
pub use limits::{
    MOST_ACTIVITIES, MOST_AMOUNT, MOST_DURATION, MOST_HORIZON, MOST_MODES, MOST_RESOURCES,
    horizon_of,
};
pub use mode::Mode;
pub use project::{Project, same};
pub use schedule::Schedule;
pub use sequence::Sequence;
