//! The serial schedule generation scheme (Kolisch 1996) on partial schedules.
//!
//! [`Board::earliest`] returns the least start at which an activity in a mode breaks neither
//! precedence nor a renewable capacity. `place` and `unplace_last` change the end of the list
//! alone, and take no memory.
//!
//! - `place`, `sums`: a placed activity; finishes, and what could run alone, from the list.
//! - `amounts`, `rows`, `stock`: amounts of all resources; what a mode takes; what is consumed.
//! - `order`, `members`, `waiting`: predecessors, sets of activities, who may come next.
//! - `profile`, `walk`: the points at which the use changes; the earliest start among them.
//! - `board`: `Board`.
//!
//! Another partial schedule, as that of `tree_search`, is made of the public parts.
#![tactic(auto)]

pub mod amounts;
mod board;
pub mod members;
pub mod order;
mod place;
mod profile;
pub mod rows;
pub mod stock;
pub mod sums;
mod waiting;
mod walk;

pub use board::Board;
pub use place::Placement;
