//! Proofs of SAT solvers that clauses cannot all be true, checked backwards by reverse unit
//! propagation (Goldberg and Novikov 2003; Wetzler, Heule and Hunt 2014).
//!
//! A clause is a list of literals, of which one is to be true. A literal is 2 · x for the variable
//! x, and 2 · x + 1 for its negation. A proof adds clauses, each of which follows by unit
//! propagation: its literals are assumed false, and force others until all literals of some clause
//! are false. The proof is over once the clauses alone force that.
//!
//! The check goes back from the empty clause, and checks a step if a checked step uses it. A
//! propagation finds the clauses from which the step follows (the hints), and `replay` takes these
//! one by one. Only the replay is proved: a wrong hint can only make it refuse. If [`refute`]
//! accepts a proof, the clauses cannot all be true. That it accepts what a solver writes is only
//! tested.
//!
//! - `clause_list`, `assignment`, `watches`: clauses, true literals, and what watches a literal.
//! - `propagator`: unit propagation, clauses that checked steps use first.
//! - `derivations`: the hints of a step.
//! - `index`: which clauses have which signature, so that one to be deleted is found.
//! - `reader`: the steps of a proof, from a text or from the binary form.
//! - `history`: what the steps add and delete, read forwards and taken back.
//! - `fault`: why bytes are no proof.
//! - `replay`: whether a clause follows by its hints.
//! - `refutation`: `refute`.
#![tactic(auto)]

mod assignment;
mod clause_list;
mod derivations;
mod fault;
mod history;
mod index;
mod propagator;
mod reader;
mod refutation;
mod replay;
mod watches;

pub use fault::ProofFault;
pub use refutation::refute;
