//! The ledger of one purse. Each call of a [`Book`] changes exactly the amounts that it names.
#![tactic(auto)]

mod book;

pub use book::{Book, MOST_QUANTA, Short};
