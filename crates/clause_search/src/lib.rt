//! A search for values of clauses, or for a refutation (CDCL: Marques-Silva and Sakallah 1999;
//! Moskewicz and others 2001; Een and Sorensson 2003).
//!
//! Nothing of the search is believed: each learned clause goes to a kernel with its hints, and
//! `Refuted` rests on the kernel.
#![tactic(auto)]

mod elimination;
mod occurrences;
mod search;
mod simplifier;
mod subsumption;

pub use clause_engine::exchange::Message;
pub use clause_engine::step_log::StepLog;
pub use search::{Search, SearchAnswer, SearchLimits};
