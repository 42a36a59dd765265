//! Commands that print schedules: `show`, a table, and `compare`, what differs between two.
//!
//! [`table`] returns the table of a feasible schedule (`specs/Table`, `specs/Slack`), and [`moves`]
//! what differs between two (`specs/Moves`). [`show`] and [`compare`] do so of the bytes of files
//! (`specs/Shown`). Dates and names in a table are only tested, as is which files a command opens.
//!
//! - `layout`: the cells of columns and of CSV.
//! - `slack`, `schedule_table`, `differences`: the slack of an activity; tables; what differs.
//! - `plan`: the schedule that a text has, and what it breaks first.
//! - `labels`: dates and names as columns.
//! - `output`, `commands`: what is written of a file; the commands, for the runner of all.
//! - `arguments`, `program`: the words of a command line, and the commands on files.
#![tactic(auto)]

mod arguments;
mod commands;
mod differences;
mod labels;
mod layout;
mod output;
mod plan;
mod program;
mod schedule_table;
mod slack;

pub use arguments::with_commands;
pub use commands::{Compare, Show};
pub use differences::moves;
pub use layout::Layout;
pub use output::{CompareFault, ShowOptions, compare, show};
pub use plan::{Plan, PlanFault, read_plan};
pub use program::run_command;
pub use schedule_table::{Extra, table};
