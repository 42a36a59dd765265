//! A farm that answers requests over connections.
//!
//! [`serve`] answers a number of connections, each in a thread of its own, while workers run the
//! jobs. Each reply is the pool's answer (`farm_pool`).
//!
//! - `service`: `serve`, its threads and its end.
//! - `connection`: the requests of one connection.
//! - `batch`: queries that are already read, answered in one turn of the lock.
//! - `connection_desks`: the desks of the connections.
//! - `signal`: when workers rest, and when they go home.
//! - `shared`: the pool, as the threads see it.
//! - `wire`: a connection whose replies leave before it waits.
#![tactic(auto)]

mod batch;
mod connection;
mod connection_desks;
mod service;
mod shared;
mod signal;
mod wire;

pub use service::{ServeFault, serve};
