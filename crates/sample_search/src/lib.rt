//! Passes drawn from the words of a seed (Kolisch 1996, Drexl 1991), a node at a time.
//!
//! A `SampleSearch` of `n` activities shows after `k` nodes the shortest of the first `k / n`
//! passes. It ends only if its best is as short as the project's bound, or is taken. Payment is
//! `paid_search`'s part.
//!
//! - `words`: the words of a seed.
//! - `node`, `best`: one node of a pass; the best schedule so far, overwritten in place.
//! - `search`: the search, and the passes as what runs its nodes.
#![tactic(auto)]

mod best;
mod node;
mod search;
mod words;

pub use paid_search::Refused;
pub use search::SampleSearch;
