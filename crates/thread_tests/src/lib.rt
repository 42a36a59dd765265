//! What runs in several threads: tills and books, the turn lock at a counter, and the pool with its
//! workers. Expected values are those of worked examples.
//!
//! - `leases`, `shared_leases`: leases in one thread, and in several at once.
//! - `books`, `payments`: a tenant's ledger through a day; when a search pays.
//! - `counter`, `threads`, `turns`: a counter under the lock, at which threads take turns.
//! - `fixtures`, `stand`: a project, tills and pools; a pool of two tenants.
//! - `gates`, `patient`: gates for turns; a search that waits at its first node.
//! - `crew`, `pools`: workers at once; pools with their workers in threads.
//! - `calls`, `play`, `pool_calls`: scripts on a pool call by call, also if growths are refused.
//! - `pool_queries`: queries that are answered in one turn of the lock.
//! - `beside`: a cancel while a worker has the job's turn.
#![tactic(auto)]

#[cfg(test)]
mod beside;
#[cfg(test)]
mod books;
#[cfg(test)]
mod calls;
mod counter;
#[cfg(test)]
mod crew;
#[cfg(test)]
mod fixtures;
#[cfg(test)]
mod gates;
#[cfg(test)]
mod leases;
#[cfg(test)]
mod patient;
#[cfg(test)]
mod payments;
#[cfg(test)]
mod play;
#[cfg(test)]
mod pool_calls;
#[cfg(test)]
mod pool_queries;
#[cfg(test)]
mod pools;
#[cfg(test)]
mod shared_leases;
#[cfg(test)]
mod stand;
mod threads;
#[cfg(test)]
mod turns;

pub use counter::{Added, Ask, Counter, Reply};
pub use threads::{Made, ReturnsPass, crowd};
