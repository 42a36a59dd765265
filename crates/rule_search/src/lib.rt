//! Searches of one pass by a priority rule (Kolisch 1996), as a [`strategy::Strategy`].
//!
//! The eligible activity that the rule puts first is placed in its shortest allowed mode, ties to
//! the smaller number. A search has a node for each activity. It ends without a schedule if the
//! pass is void. Payment is `paid_search`'s part.
//!
//! - `choice`: which candidate a rule chooses, and a node that runs it.
//! - `search`: the search, and the pass as what runs its nodes.
#![tactic(auto)]

mod choice;
mod search;

pub use paid_search::Refused;
pub use search::RuleSearch;
