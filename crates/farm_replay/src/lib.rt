//! Scripts of requests, replayed on a farm of one thread.
//!
//! [`replay`] writes the output that `specs/Output` defines of the script's bytes, whole or cut off
//! by a named fault. By the `laws` a purse's lines are those of its requests alone, and each line
//! about a job is true.
//!
//! - `script`: `replay`, one request after another.
//! - `reader`: the script's bytes, with the numbers of their lines.
//! - `sending`: when replies go out.
//! - `watches`: whether a read or a write has failed.
//! - `notes`: what is noted beside the replies.
//! - `script_farm`: the farm with the turns that the script holds.
//! - `stage`: a script's farm with the desks at which its searches draw.
//! - `laws`: laws of outputs.
#![tactic(auto)]

pub mod laws;
mod notes;
mod reader;
mod script;
mod script_farm;
mod sending;
mod stage;
mod watches;

pub use notes::{Notes, is_refused};
pub use script::{ReplayFault, replay};
pub use watches::ReplayWatches;
