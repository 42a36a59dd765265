//! A lock that keeps a history: threads call one value in turns, and each knows its own calls.
//!
//! A [`Pass`] knows `seen`, a prefix of the history, and `mine`, its own entries there. The history
//! is legal: the value may leave each event after the events before it.
//!
//! - `kept`, `lock`: what may be under a lock; `TurnLock`, `Pass`, and the calls.
//! - `view`, `rule`: what a pass knows; what the word, the slot and all passes keep.
#![tactic(auto)]

mod kept;
mod lock;
mod rule;
mod view;

pub use kept::{Kept, Queries, Runs};
pub use lock::{Pass, TurnLock};
pub use view::{Stage, View};
