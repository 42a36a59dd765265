//! Prices of rows, found by steps along subgradients, and lower bounds by them.
//!
//! The rows are those of `schedule_prices`: capacities by period, stocks, precedences by period. A
//! choice is a mode and a start of an activity. Prices refute a bound if the cheapest choices of
//! all activities cost more than the rows supply. Steps look for such prices: prices of rows that
//! the cheapest choices overuse rise, the others fall (Held, Wolfe and Crowder 1974; Barahona and
//! Anbil 2000). All numbers are whole, so equal questions have equal answers.
//!
//! Nothing is proved of the prices that come out. `schedule_prices` checks them, and
//! [`lower_bound`], [`exceeds`], [`is_infeasible`] and [`bar_choices`] rest on its check alone.
//!
//! - `count`: how many choices and rows a bound has, without a table.
//! - `narrow`, `windows`: the choices that capacities and precedences leave.
//! - `model`: choices and rows within a bound.
//! - `sums`, `usage`: what choices cost by prices, and what they take of the rows.
//! - `pace`, `slope`, `steps`: the length of a step, its direction, and the steps.
//! - `rounding`, `search`: prices of 24 bits, and `find_prices`.
//! - `effort`: how much is tried at a bound.
//! - `pieces`, `cases`: choices that prices of their own bar, and bounds refuted by them.
//! - `climb`, `bound`: which bound is asked next; `lower_bound`, `exceeds`, `is_infeasible` and
//!   `bar_choices`.
//! - `laws`: modes that fit decide whether there is a schedule.
#![tactic(auto)]

mod bound;
mod cases;
mod climb;
mod count;
mod effort;
pub mod laws;
mod model;
mod narrow;
mod pace;
mod pieces;
mod rounding;
mod search;
mod slope;
mod steps;
mod sums;
mod usage;
mod windows;

pub use bound::{Barring, MOST_QUESTIONS, bar_choices, exceeds, is_infeasible, lower_bound};
pub use cases::MOST_PIECE_STEPS;
pub use model::MOST_ITEMS;
pub use search::{Found, find_prices};
