//! The forms of clauses, each proved to hold of every feasible schedule within the limit.

pub(crate) mod amounts;
pub(crate) mod barred;
pub(crate) mod modes;
pub(crate) mod starts;
