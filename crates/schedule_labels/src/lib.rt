//! What a table or a picture has beside its numbers: dates of periods, and names of activities.
//!
//! - `calendar`: the moment at which a period begins.
//! - `names`: names of activities, from lines `J,NAME`.
#![tactic(auto)]

mod calendar;
mod names;

pub use calendar::{Calendar, Moment, Unit};
pub use names::{ActivityName, name_at, names_of};
