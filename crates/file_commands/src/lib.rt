//! What commands over files share: what they read, one runner, and how they end.
//!
//! A command is a value with its options, which gives a text for what its inputs have, or a fault
//! ([`FileCommand`]). [`run_command`] reads the inputs, writes the text, and returns the status; a
//! fault goes to standard error. Its contract covers all commands: what is read, when something is
//! written, and which fault is reported when (`specs/Run`, `specs/Ending`). [`run_files`] opens the
//! inputs and calls it.
//!
//! - `inputs`, `sources`: the paths of a command and the bytes of its inputs; its inputs, opened.
//! - `answer`, `runner`: what a command answers to texts; the runner.
//! - `watches`, `ending`: what the watches of a command count, how it ends.
//! - `labels`: dates and names that a command is asked for.
//! - `laws`: the most that is read of an input, in figures.
#![tactic(auto)]

mod answer;
mod ending;
mod inputs;
mod labels;
pub mod laws;
mod runner;
mod sources;
mod watches;

pub use answer::{CommandAnswer, FileCommand, Texts};
pub use ending::{CommandFault, end_command, end_no_memory};
pub use inputs::{MOST_TEXT, Paths, open_path, or_report, words_of};
pub use labels::{UNITS, calendar_of, is_input_twice, read_names, read_path, refuse_same, unit_of};
pub use runner::{run_command, run_files, run_sources};
pub use sources::{Sources, open_sources};
pub use watches::CommandWatches;
