ghost use Rattle.std.specs.Prelude.{◌≡◌, IfOk, IfErr};
ghost use Rattle.quanta_till.specs.Lease.{IsEmpty};
ghost use Rattle.paid_search.specs.Paid.{fresh};

use crate::Nodes;
use crate::shown::{is_over, verdict_by};
use mrcpsp::Schedule;
use quanta_till::Lease;
use std::alloc::Global;
use std::marker::Model;
use strategy::{Plan, Strategy, Verdict};

/// A `Paid` is a search that pays a quantum of its lease for each node. It owns the lease, which
/// is dropped with it. No call but `new` takes memory.
#[derive(Drop)]
pub struct Paid<N: Nodes> {
    plan: Plan,
    lease: Lease,
    run: N,
    nodes: u64,
    bound: u32,
    shown: Verdict,
    taken: bool,
}

impl<N: Nodes> Model for Paid<N> {
    ghost use Rattle.quanta_till.specs.Lease.{LeaseValue};
    ghost use Rattle.strategy.specs.Search.{Meaning};
    ghost use Rattle.paid_search.specs.Paid.{IsPaid};

    ghost Value = { Meaning × LeaseValue };

    ghost view = { λ s. (
      record { tenant = s.lease.tenant; plan = s.plan; nodes = s.nodes; left = s.lease.left; taken = s.taken },
      s.lease,
    ) };

    ghost invariant = { λ s. IsPaid N.stands s.plan s.lease s.nodes s.bound s.taken s.shown s.run };
}

/// A `Refused` is want of memory for a search, with its lease.
#[derive(Drop)]
pub struct Refused {
    pub lease: Lease,
}

impl<N: Nodes> Paid<N> {
    /// No node has run yet. Without memory the lease comes back, and the plan is dropped.
    pub fn new(alloc: Global, plan: Plan, lease: Lease) -> Result<Paid<N>, Refused>
        requires kind { N.serves plan.kind }
        requires empty { IsEmpty lease }
        ensures made { IfOk result (λ search. search ≡ fresh plan lease) }
        ensures back { IfErr result (λ refused. refused.lease ≡ lease) }
    {
        let Ok(run) = N::of(alloc, &plan) else {
            return Err(Refused { lease });
        };
        let bound = run.bound();
        let shown = verdict_by(plan.kind, run.makespan(), bound, run.all_run());
        Ok(Paid {
            plan,
            lease,
            run,
            nodes: 0,
            bound,
            shown,
            taken: false,
        })
    }
}

impl<N: Nodes> Strategy for Paid<N> {
    ghost meaning = { λ s. s.0 };

    ghost lease = { λ s. s.1 };

    fn tenant(&self) -> u32 {
        self.lease.tenant()
    }

    fn plan(&self) -> &Plan {
        &self.plan
    }

    fn nodes(&self) -> u64 {
        self.nodes
    }

    fn left(&self) -> u64 {
        self.lease.left()
    }

    fn closed(&self) -> bool {
        self.taken || is_over(self.shown)
    }

    fn verdict(&self) -> Verdict {
        self.shown
    }

    fn best(&self) -> Option<&Schedule> {
        if self.taken {
            return None;
        }
        self.run.best()
    }

    fn fund(&mut self, quanta: u64) {
        self.lease.draw(quanta);
    }

    fn advance(&mut self) {
        let _ran = self.run(1);
    }

    fn run(&mut self, most: u64) -> u64 {
        let ran = self.run.run_nodes(most.min(self.lease.left()));
        self.shown = verdict_by(
            self.plan.kind,
            self.run.makespan(),
            self.bound,
            self.run.all_run(),
        );
        self.lease.use_up(ran);
        self.nodes += ran;
        ran
    }

    fn settle(&mut self) {
        self.lease.settle();
    }

    fn take_best(&mut self) -> Option<Schedule> {
        if self.taken {
            return None;
        }
        self.taken = true;
        self.run.take_best()
    }
}
