//! A search that pays for its nodes, whatever runs them.
//!
//! [`Paid`] makes a `strategy::Strategy` of a [`Nodes`]. The search is over once its best schedule
//! is as short as the project's bound, or all nodes have run.
//!
//! - `nodes`, `paid`: the trait of what runs nodes; the search with its lease.
//! - `shown`: what a search shows, and the one place that knows when it stops.
#![tactic(auto)]

mod nodes;
mod paid;
mod shown;

pub use nodes::Nodes;
pub use paid::{Paid, Refused};
