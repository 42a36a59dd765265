//! The command `prove`: what the workers of `prover` show of a project's file.
//!
//! [`prove_read`] writes only what is true of the file's project (`specs/Proved`), whatever the
//! searches do. Which file is opened, and how long a run takes, is in no contract.
//!
//! - `output`, `cost`: an answer as lines or as JSON, and what a run takes.
//! - `first_schedule`: a schedule to begin with.
//! - `proof_run`, `reporter`: the command over any reader and writer; what is reported while it
//!   runs.
//! - `stop_flag`: a flag that is set when the standard input ends.
//! - `fault`: why nothing is proved.
//! - `arguments`, `program`: the words of a command line, and the command on files.
#![tactic(auto)]

mod arguments;
mod cost;
mod fault;
mod first_schedule;
mod output;
mod program;
mod proof_run;
mod reporter;
mod stop_flag;

pub use arguments::with_commands;
pub use cost::Cost;
pub use fault::ProveFault;
pub use output::{tell, tell_gap_json, tell_json};
pub use program::run_command;
pub use proof_run::{ProofEnd, ProveOptions, prove_read};
