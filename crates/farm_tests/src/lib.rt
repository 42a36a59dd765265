//! The job table and the farm with boxed searches, call by call, and what no script of the program
//! shows: readers and writers that fail, and refused growths. Expected values are those of worked
//! examples.
//!
//! - `fixtures`: projects, plans with boxed searches, tills and configurations.
//! - `table_moves`, `table_turns`, `table_cancels`, `tables`: jobs of a table.
//! - `plain_table`, `plain_tables`: a table as a plain list, and its calls against the table's.
//! - `calls`, `play`: calls of a farm and their answers; a script on a farm of its own.
//! - `scripts`, `cancels`, `mixed`, `shared`: scripts: worked, cancels, of two tenants, of one
//!   purse.
//! - `strangers`, `farms`: turns at another farm; the scripts on farms.
//! - `limits`, `configurations`, `lines`: each limit, texts and faults, requests and replies.
//! - `replays`, `faults`, `growths`: replays, with failing readers and writers, with refused
//!   growths.
#![tactic(auto)]

#[cfg(test)]
mod calls;
#[cfg(test)]
mod cancels;
#[cfg(test)]
mod configurations;
#[cfg(test)]
mod farms;
#[cfg(test)]
mod faults;
#[cfg(test)]
mod fixtures;
#[cfg(test)]
mod growths;
#[cfg(test)]
mod limits;
#[cfg(test)]
mod lines;
#[cfg(test)]
mod mixed;
#[cfg(test)]
mod plain_table;
#[cfg(test)]
mod plain_tables;
#[cfg(test)]
mod play;
#[cfg(test)]
mod replays;
#[cfg(test)]
mod scripts;
#[cfg(test)]
mod shared;
#[cfg(test)]
mod strangers;
#[cfg(test)]
mod table_cancels;
#[cfg(test)]
mod table_moves;
#[cfg(test)]
mod table_turns;
#[cfg(test)]
mod tables;
