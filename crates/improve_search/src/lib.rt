//! Better schedules by local search: simulated annealing with double justification.
//!
//! `LocalSearch::new` takes all memory of a search, and `LocalSearch::run` generates more
//! schedules. Each schedule that it shows was checked: it is feasible, with the makespan that is
//! named. That it is short is not proved, nor that there is one. All numbers are whole: a seed
//! gives equal schedules anywhere.
//!
//! The walk is proved to be safe and to end. What it finds rests on the check alone.
//!
//! - `rows`: rows of numbers, read and written at any place.
//! - `modes`, `arcs`, `tables`: the numbers of a project, without useless modes.
//! - `profile`: what is left of the renewable resources in each period, packed into words.
//! - `chance`, `cooling`: what a seed draws, and the temperature.
//! - `point`, `change`: a list with its modes and its schedule, and random changes of it.
//! - `budget`, `generation`: serial schedule generation and justification, each schedule counted.
//! - `annealing`: the walk.
//! - `best`, `local_search`: the best schedule that was checked, and the search.
#![tactic(auto)]

mod annealing;
mod arcs;
mod best;
mod budget;
mod chance;
mod change;
mod cooling;
mod generation;
mod local_search;
mod modes;
mod point;
mod profile;
mod rows;
mod tables;

pub use local_search::LocalSearch;
