//! A schedule as JSON: `[{"activity":1,"mode":1,"start":0},..]`, or `null` (`specs/ScheduleJson`).
#![tactic(auto)]

mod places;

pub use places::{put_number_json, put_schedule_json};
