//! What a search of clauses holds: clauses in an arena, the true literals, the clauses that watch
//! a literal, and the order in which variables are decided. Nothing of it is believed.
#![tactic(auto)]

pub mod arena;
pub mod heap;
pub mod queue;
pub mod trail;
pub mod watches;
