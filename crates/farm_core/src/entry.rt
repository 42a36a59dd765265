//! The journal's entries.
ghost use Rattle.std.specs.Prelude.{◌≡◌, IfOk};

use std::alloc::{AllocError, Global};
use std::marker::Model;
use strategy::Plan;

/// A `NotedPlan` is a plan in memory of its own, so that an entry takes 32 bytes. Contracts see the
/// plan.
#[derive(Debug, Drop)]
pub struct NotedPlan {
    plan: Box<Plan>,
}

impl Model for NotedPlan {
    ghost use Rattle.strategy.specs.declared.plan.Plan.{Plan};

    ghost Value = { Plan };

    ghost view = { λ noted. noted.plan.value };
}

impl NotedPlan {
    /// Copies `plan`. Fails for want of memory.
    pub(crate) fn of(alloc: Global, plan: &Plan) -> Result<NotedPlan, AllocError>
        ensures { IfOk result (λ noted. noted ≡ plan.now) }
    {
        match Box::new(alloc, plan.clone_in(alloc)?) {
            Ok(plan) => Ok(NotedPlan { plan }),
            Err(_) => Err(AllocError),
        }
    }

    pub fn plan(&self) -> &Plan
        ensures { result.now ≡ self.now }
    {
        &self.plan
    }
}

/// An `Event` is what a tenant asked for, or a worker for it.
#[derive(Debug, Drop)]
pub enum Event {
    /// A job for this plan, with its quanta.
    Submit(NotedPlan, u64),
    /// More quanta for the job of this number.
    Fund(u64, u64),
    Status(u64),
    Fetch(u64),
    Cancel(u64),
    /// Removes the job of this number.
    Forget(u64),
    Ledger,
    /// A turn of the job of this number, and its slice.
    Take(u64, u64),
    /// The turn of the job of this number, and its nodes.
    Give(u64, u64),
}

/// An `Entry` is an event and its tenant.
#[derive(Debug, Drop)]
pub struct Entry {
    pub tenant: u32,
    pub event: Event,
}
