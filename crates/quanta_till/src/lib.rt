//! Prepaid quanta: a till's atomic words, the desks that read them, and the leases that draw on
//! them.
//!
//! Whatever other threads do: a [`Till`]'s pool, what its leases hold and what was used sum to what
//! was granted. A [`Lease`] is ended by its drop.
//!
//! - `rule`, `account`: the words, what a seat at them knows, and what each atomic step keeps.
//! - `holding`, `owned`, `lease`: what is drawn at a seat; a lease to be ended; one to be dropped.
//! - `till`: `Till`, `Desk`, and the words that a desk reads.
#![tactic(auto)]

mod account;
mod holding;
mod lease;
mod owned;
mod rule;
mod till;

pub use holding::LEASE_LIMIT;
pub use lease::Lease;
pub use till::{Desk, Till, TillWords};
