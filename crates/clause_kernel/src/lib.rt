//! Clauses that follow from a formula: a kernel checks each step of a solver when it is made.
#![tactic(auto)]

mod formula;
mod kernel;
mod literal;
mod marks;
mod store;

pub use formula::ClauseList;
pub use kernel::{Formula, Kernel, Lemma};
pub use literal::negated;
pub use store::NO_CLAUSE;
