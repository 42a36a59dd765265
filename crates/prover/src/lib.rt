//! An anytime prover of one project: schedules from above, lower bounds from below, until they meet.
//!
//! - `known`: what is known, with its truth as the invariant.
//! - `decide`: whether a schedule is within a bound, by a search of clauses that a kernel checks.
//! - `task`, `herald`: what is asked for, and who hears of what is proved.
//! - `shared_work`: what the workers share; `improver`: local search in runs.
//! - `lanes`: what each worker does; `threads`: the workers in threads.
//! - `team`: searches of one question that share what they learn, on a `board`.
//! - `alone`: one worker without threads, locks or a clock. It returns, whatever it is given.
#![tactic(auto)]

mod alone;
mod board;
mod decide;
mod herald;
mod improver;
mod known;
mod lanes;
mod shared_work;
mod task;
mod team;
mod threads;

pub use alone::{Allowance, Overseer, prove_alone};
pub use decide::{Decision, SearchObserver, decide_within, exceeds_stocks};
pub use herald::Herald;
pub use known::{Answer, BestKnown, Known, Question, Subject};
pub use task::{Limits, Pace, ProofTask, Proved};
pub use threads::prove;
