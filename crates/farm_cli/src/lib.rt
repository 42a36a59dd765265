//! The command line of `farm`: what its words ask for, and the programs that answer.
//!
//! [`check_to`] and [`replay_to`] are the commands over any reader and writer: `specs/Checked` and
//! `specs/Replayed` define what they write, and their status. [`run_words`] is the program with its
//! files: it is proved to be safe, with a status of at most 2. Which files it opens is in no
//! contract.
//!
//! - `arguments`, `help`: the words of a command line, and the ends of help texts.
//! - `input`, `summary`: the whole of an input; what a project holds, in one line.
//! - `checking`, `replaying`: the commands over any reader and writer.
//! - `entries`: which tenants have too few entries of the journal for their quanta, and whether all
//!   entries can take more memory than is free.
//! - `program`: what each task does with files and standard output.
//! - `laws`: the limits of a project and of a farm, in figures.
#![tactic(auto)]

mod arguments;
mod checking;
mod entries;
mod help;
mod input;
pub mod laws;
mod program;
mod replaying;
mod summary;

pub use arguments::{Task, farm_command, parse_words, with_commands};
pub use checking::{CheckFault, check, check_to};
pub use farm_config::{ConfigFault, Key, read_config};
pub use farm_replay::{Notes, ReplayFault, ReplayWatches, replay};
pub use farm_service::{ServeFault, serve};
pub use input::read_whole;
pub use program::{end_refused, is_own, run_words};
pub use replaying::{ReplayLog, ReplayStop, replay_text, replay_to};
pub use summary::{Summary, summarize};
