//! Calls and answers of a pool's farm as plain data, for contracts alone: no value is ever made.
use farm_core::{Event, Reply};
use strategy::Plan;

/// A `TurnImage` is a turn as plain data.
pub struct TurnImage {
    pub tenant: u32,
    pub seq: u64,
    pub slice: u64,
    pub ran: u64,
    /// The tenant on whose quanta the search draws.
    pub owner: u32,
    pub plan: Plan,
    pub nodes: u64,
    pub left: u64,
    pub taken: bool,
}

/// A `CallImage` is a [`FarmCall`](crate::FarmCall) as plain data.
pub enum CallImage {
    Asked(u32, Event),
    Next(u64),
    Back(TurnImage),
}

/// An `AnswerImage` is a [`FarmAnswer`](crate::FarmAnswer) as plain data.
pub enum AnswerImage {
    Replied(Reply),
    Sent(TurnImage),
    Idle,
    NoMemory,
    Gave(Reply),
    Stray,
}
