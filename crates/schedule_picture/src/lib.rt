//! A picture of a schedule, as an SVG text. What it shows is in no contract: `tests/picture`
//! compares bars, outlines and words with the schedule.
//!
//! - `drawing`: [`draw`], and what is asked of it.
//! - `bars`, `chain`: the activities as they are drawn, and the critical chain.
//! - `svg`, `shapes`, `profiles`: heading and axis; the bars of activities; the use of resources.
//! - `scale`, `words`: the marks of an axis; names as SVG text.
#![tactic(auto)]

mod bars;
mod chain;
mod drawing;
mod profiles;
mod scale;
mod shapes;
mod svg;
mod words;

pub use drawing::{Bound, Drawing, Ground, Heading, Order, draw};
