//! What a search is: plans, verdicts, the meaning after `k` nodes, and why 'optimal' is true.
//! A [`Strategy`] shows what `specs/Outcome` gives for its plan and `k`.
//!
//! - `kind`, `plan`, `verdict`, `search`, `laws`: what is solved and shown, the trait, its laws.
//! - `words`: the numbers that words write, and the seeds in them.
#![tactic(auto)]

mod kind;
pub mod laws;
mod plan;
mod search;
mod verdict;
mod words;

pub use kind::Kind;
pub use plan::{Plan, same_plan};
pub use search::Strategy;
pub use verdict::Verdict;
pub use words::{number, seed};
