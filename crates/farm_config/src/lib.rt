//! Configurations of a farm, as JSON texts.
//!
//! [`read_config`] returns the configuration that `specs/Config` defines of the bytes, or the first
//! fault in the order of [`ConfigFault`].
//!
//! - `read`: `read_config`, from bytes to a configuration.
//! - `draft`, `judge`: the values of a text in the shape of a configuration, and their limits.
//! - `fault`: the faults and their texts.
//! - `place`: where a fault is, and what is wanted there.
//! - `laws`: a draft has a fault exactly if it is no configuration.
#![tactic(auto)]

mod draft;
mod fault;
mod judge;
pub mod laws;
mod place;
mod read;

pub use fault::{ConfigFault, Key};
pub use place::{ConfigPart, ConfigPlace, Wanted, place_of};
pub use read::read_config;
