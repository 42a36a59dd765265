//! Reads and writes of which contracts know whether one failed.
//!
//! A [`Watch`] counts the failures of one reader or writer. So a function can promise that it
//! reports a failed read only if one has failed (`specs/Failure`).
//!
//! - `watch`: `Watch`, and `fill`, what a reader shows of what it has read ahead.
//! - `source`, `words`: what a path names; why a file is not read.
#![tactic(auto)]

mod source;
mod watch;
mod words;

pub use source::{Source, open};
pub use watch::{Watch, fill};
pub use words::{explains, reason, tell_unread, tell_why};
