//! The steps of a search of clauses: conflicts, learned clauses, restarts and reductions. Nothing
//! of it is believed: a kernel checks each clause that is learned.
#![tactic(auto)]

mod analysis;
mod averages;
pub mod engine;
pub mod exchange;
pub mod extension;
mod reduction;
mod root;
pub mod stable;
pub mod step_log;
