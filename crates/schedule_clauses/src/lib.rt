//! The clauses of 'there is a schedule of at most this makespan', and certificates by proofs
//! against them.
//!
//! A variable has a meaning, as 'activity 3 starts by period 7', true or false of a schedule. This
//! is the order encoding of Crawford and Baker (1994). Each clause is of one of 16 forms. Each form
//! is proved to hold of every feasible schedule within the bound; which clauses there are is a
//! hint. So if [`clause_proof::refute`] accepts a proof, no schedule is that short. One that takes
//! a period more is optimal ([`certify`]). That the clauses suffice for a proof is only tested.
//!
//! - `meaning`, `index`: the meanings of variables, and where the variable of a meaning is (hints).
//! - `encoding`, `scope`: clauses, and of which schedules they hold.
//! - `forms`: the forms of clauses, of modes, starts, amounts and barred starts.
//! - `windows`, `size`: when an activity can start (hints); how many clauses on starts to expect.
//! - `activities`, `chains`: sets of activities; chains, one of which runs at a time (hints).
//! - `diagram`: diagrams of capacity rows and their clauses (hints).
//! - `sections`: all clauses, section by section; `formula` is what they make.
//! - `certificate`: `clauses`, `stock_clauses`, and the three checks of proofs.
#![tactic(auto)]

mod activities;
mod certificate;
mod chains;
mod diagram;
mod encoding;
mod forms;
mod formula;
mod index;
mod meaning;
mod scope;
mod sections;
mod size;
mod windows;

pub use activities::Activities;
pub use certificate::{
    CertificateFault, certify, certify_bound, certify_infeasible, clauses, open_clauses,
    stock_clauses,
};
pub use formula::{CapacityRow, ScheduleFormula, Section, SectionKind};
pub use meaning::Fact;
pub use size::MOST_START_CLAUSES;
