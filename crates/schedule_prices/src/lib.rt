//! Priced rows: what every feasible schedule pays for its resources and precedences, and what that
//! refutes.
//!
//! Each feasible schedule keeps the rows of the time-indexed model (Christofides, Alvarez-Valdes
//! and Tamarit 1987). Let each row have a price, whatever it is. If the cheapest choices of all
//! activities together cost more than all rows supply, no schedule is within the bound
//! ([`refute_by_prices`]). If they do with one activity kept to some of its choices, no schedule
//! within the bound takes these choices ([`Barred::bar_piece`]). Prices are never trusted.
//!
//! - `row`, `choice_range`: a row and its price; a set of choices of one activity.
//! - `prices`, `costs`: whether prices are of a project; what its choices cost.
//! - `sums`, `time_sums`, `place`: prices summed up over time, so that no choice goes over all
//!   prices.
//! - `barred`, `choices`, `start_marks`: choices that no schedule within a bound takes; their
//!   marks.
//! - `time`, `least`: what choices left are compared by; least numbers that may be missing.
//! - `fault`: why a bound has no table.
//! - `laws`: the laws of the definitions, each the proved contract of a function that does nothing.
#![tactic(auto)]

mod barred;
mod choice_range;
mod choices;
mod costs;
mod fault;
pub mod laws;
mod least;
mod place;
mod prices;
mod row;
mod start_marks;
mod sums;
mod time;
mod time_sums;

pub use barred::{Barred, MOST_STARTS, refute_by_prices};
pub use choice_range::ChoiceRange;
pub use fault::PriceFault;
pub use prices::{MOST_PRICES, are_prices, is_row};
pub use row::{Price, PricedRow};
