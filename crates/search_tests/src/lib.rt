//! Searches, their parts and the problem, on small projects by hand, and on random ones against
//! `tests/plain_searches.py`. That program has nothing in common with these crates.
//!
//! - `fixtures`, `drawn`, `largest`: worked, random and largest projects.
//! - `schedules`, `readings`, `values`, `plans`: projects and breaches; texts; values; plans.
//! - `boards`, `passes`, `improvements`, `walks`: partial schedules, passes and searches by hand.
//! - `sum`, `shown`: a sum over numbers, and over all that a search shows after each node.
//! - `random_searches`: by the table of `plain_searches.py groups 7 12 10`.
//! - `random_values`, `random_boards`: by `values 7 1000` and `boards 7 1000`.
//! - `sums`: the earliest start by its definition, which boards are compared with too.
//! - `random_schedules`: what schedules break first, by `schedules 7 1000`.
//! - `least`: the tree against the least makespan of all schedules, by `least 7 60`.
#![tactic(auto)]

#[cfg(test)]
mod boards;
#[cfg(test)]
mod drawn;
#[cfg(test)]
mod fixtures;
#[cfg(test)]
mod improvements;
#[cfg(test)]
mod largest;
#[cfg(test)]
mod least;
#[cfg(test)]
mod passes;
#[cfg(test)]
mod plans;
#[cfg(test)]
mod random_boards;
#[cfg(test)]
mod random_schedules;
#[cfg(test)]
mod random_searches;
#[cfg(test)]
mod random_values;
#[cfg(test)]
mod readings;
#[cfg(test)]
mod schedules;
#[cfg(test)]
mod shown;
#[cfg(test)]
mod sum;
#[cfg(test)]
mod sums;
#[cfg(test)]
mod values;
#[cfg(test)]
mod walks;
