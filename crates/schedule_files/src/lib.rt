//! Schedules as files: their text, read and written.
//!
//! The text of a schedule is the words `J:MODE:START` of its activities. Activities and modes are
//! numbered from 1, periods from 0. [`put_schedule`] adds these words to a text. [`read_schedule`]
//! returns the one schedule that a text holds, if it holds one (`specs/ScheduleText`, `laws`).
//!
//! - `words`: the words of a schedule.
//! - `places`, `rows`: the places of activities, and how words and lines write them.
//! - `reading`, `objects`: the schedule that a text has, and that of a JSON text.
//! - `table`: the places in a table of CSV, as spreadsheets write it.
//! - `laws`: a text holds at most one schedule, and what is written is read.
#![tactic(auto)]

pub mod laws;
mod objects;
mod places;
mod reading;
mod rows;
mod table;
mod words;

pub use reading::{MOST_BYTES, read_schedule};
pub use words::put_schedule;
