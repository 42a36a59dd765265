//! The command `config`: what a configuration means.
//!
//! [`config_text`] returns the lines that `specs/ConfigText` defines of a configuration.
//! [`Configure`] is the command, for the runner of all (`specs/Configured`). Which file it opens is
//! in no contract, nor what it prints of keys that are not read.
//!
//! - `meaning`: the lines of a configuration.
//! - `unread`: the first key that is not read, and the key that is near.
//! - `command`: the command, for the runner of all.
//! - `arguments`, `program`: the words of the command line, and the command on a file.
#![tactic(auto)]

mod arguments;
mod command;
mod meaning;
mod program;
mod unread;

pub use arguments::with_commands;
pub use command::{ConfigRefusal, Configure};
pub use meaning::config_text;
pub use program::run_command;
