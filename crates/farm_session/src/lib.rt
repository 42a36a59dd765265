//! What scripts and connections share on the way of a request to the farm.
//!
//! - `ask`: what a request asks for, sorted once; the farm's command for a call, with the search of
//!   a submit.
//! - `routed`: whose a request is.
//! - `ready`: a plan with an empty lease, and the searches that are made of it; `boxed_search!` is
//!   the box of whichever its kind names.
//! - `tills`: a till for each purse, and the desks at which leases are made.
#![tactic(auto)]

mod ask;
mod ready;
mod routed;
mod tills;

pub use ask::{Ask, TurnAsk, Workshop, command_of};
pub use ready::Ready;
pub use routed::{Routed, route, route_call};
pub use tills::{TillDesk, open_tills, till_desks};
