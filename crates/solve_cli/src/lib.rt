//! Commands on one project, without a configuration: `verify`, `solve` and `draw`.
//!
//! [`verify`] returns a makespan exactly for a feasible schedule, or else the first breach
//! (`specs/Verified`). [`solve`] returns what the definition of a search gives after a number of
//! nodes (`specs/Found`), and [`tell`] its text (`specs/FoundText`). [`Verify`], `Draw` and
//! [`Solve`] are the commands, for the runner of all (`specs/Commands`). Which files a command
//! opens is in no contract.
//!
//! - `executable`: whether each activity has a mode in which it could run.
//! - `verification`, `search_result`: `verify`; `solve`.
//! - `local_search`, `proof`, `portfolio`: `improve`; `prove_within`; `solve_each`.
//! - `search_kinds`, `kinds`: the kinds of search, and their words.
//! - `output`, `improvements`, `progress`: what a search has found, at its end and before.
//! - `picture`: the picture of a schedule, and the bound in its heading.
//! - `verify_command`, `draw_command`, `solve_command`: the commands, for the runner of all.
//! - `fault`, `reasons`: why a schedule is not feasible; the second line on how a command ends.
//! - `arguments`, `program`: the words of a command line, and the commands on files.
//! - `laws`: why what is written is true, and the limits in figures.
#![tactic(auto)]

mod arguments;
mod draw_command;
mod executable;
mod fault;
mod improvements;
mod kinds;
pub mod laws;
mod local_search;
mod output;
mod picture;
mod portfolio;
mod program;
mod progress;
mod proof;
mod reasons;
mod search_kinds;
mod search_result;
mod solve_command;
mod verification;
mod verify_command;

pub use arguments::with_commands;
pub use fault::VerifyFault;
pub use kinds::{SearchFault, kinds_of};
pub use local_search::improve;
pub use output::{put_best, tell, tell_better, tell_better_json, tell_json};
pub use portfolio::{MOST_SEARCHES, solve_each};
pub use program::run_command;
pub use proof::prove_within;
pub use search_kinds::SearchKind;
pub use search_result::{MOST_NODES, Observer, SearchResult, solve};
pub use solve_command::{Solve, SolveOptions};
pub use verification::{Verified, verify};
pub use verify_command::Verify;
