//! Commands of certificates: clauses in DIMACS form, and checks of proofs.
//!
//! [`certify`] returns `optimal M` only if the text has an optimal schedule of makespan M.
//! [`certify_infeasible`] returns `infeasible` only if no schedule is feasible (`specs/Certified`).
//! What [`write_clauses`] writes is only tested: if it misleads a solver, the proof is refused.
//!
//! [`write_refutation`] ends with `Refuted` only if no feasible schedule is within the limit
//! (`specs/Refuted`); that the text which it writes is a proof is only tested.
//!
//! [`Certify`], [`CertifyInfeasible`], [`CertifyBound`] and [`FindBound`] are the commands, for the
//! runner of all.
//!
//! - `certificates`, `bounds`: checks of proofs, and `write_clauses`.
//! - `commands`: the commands, for the runner of all.
//! - `fault`, `reasons`: why nothing is certified.
//! - `refutation`, `refuting`: a search for a refutation that writes its steps; the command `refute`.
//! - `dimacs`: clauses in DIMACS form, and steps of a proof.
//! - `arguments`, `program`: the words of a command line, and the commands on files.
//! - `laws`: the limits of what is read, in figures.
#![tactic(auto)]

mod arguments;
mod bounds;
mod certificates;
mod commands;
mod dimacs;
mod fault;
pub mod laws;
mod program;
mod reasons;
mod refutation;
mod refuting;

pub use arguments::with_commands;
pub use bounds::{certify_bound, certify_least};
pub use certificates::{certify, certify_infeasible, write_clauses};
pub use commands::{Certify, CertifyBound, CertifyInfeasible, FindBound, MOST_PROOF};
pub use fault::CertifyFault;
pub use program::run_command;
pub use refutation::{RefuteEnd, RefuteLimits, write_refutation};
pub use refuting::{refute_bytes, run_refute};
