//! Why a text or a word is refused, in words.
//!
//! They are the second line of a fault on standard error, `farm: why: ..`. The reader of a text
//! returns the first fault; this crate reads the refused text once more: for the place of the
//! fault, what is there, and what is wanted. Its words are in no contract: `tests/program` has them,
//! worked by hand. `None` is a fault of which nothing more is known, or want of memory.
//!
//! - `lines`, `head`: the lines and words of a text; the labels above the sections of a file.
//! - `sections`, `rows`: the sections of a file; rows, and the first one that is out of place.
//! - `sheet`, `limits`, `files`: a file by its rows; the first number above its limit; `why_file`.
//! - `schedules`, `tables`: why a text has no schedule, as words, as JSON or as a table.
//! - `amounts`: by how much a schedule breaks a condition.
//! - `causes`: why no schedule of a project is feasible.
//! - `words`, `near`: why a word or a port is refused; the nearest of several words.
#![tactic(auto)]

mod amounts;
mod causes;
mod files;
mod head;
mod limits;
mod lines;
mod near;
mod rows;
mod schedules;
mod sections;
mod sheet;
mod tables;
mod words;

pub use amounts::{all_breaches, why_breach, why_breach_of};
pub use causes::why_infeasible;
pub use files::why_file;
pub use near::nearest;
pub use schedules::why_no_schedule;
pub use words::{
    LEAST_MEMORY, MOST_CONFLICTS, MOST_JOBS, MOST_MEMORY, MOST_NODES, MOST_SECONDS, MOST_SESSIONS,
    why_no_port, why_no_search, why_words,
};
