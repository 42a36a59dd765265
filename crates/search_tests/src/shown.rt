ghost use Rattle.quanta_till.specs.Lease.{IsEmpty};

use mrcpsp::{Project, Schedule, check};
use quanta_till::{Lease, Till};
use rule_search::RuleSearch;
use sample_search::{Refused, SampleSearch};
use std::alloc::Global;
use std::process::Abort;
use strategy::{Kind, Plan, Strategy};
use tree_search::TreeSearch;

/// A `Shown` is the number of nodes, and a sum over all that was shown after each of them.
#[derive(Clone, Copy, Debug, PartialEq, Eq)]
pub(crate) struct Shown {
    pub(crate) nodes: u64,
    pub(crate) sum: u32,
}

impl Shown {
    /// The sum h becomes h * 31 + value modulo 2^32.
    fn add(&mut self, value: u32) {
        self.sum = self.sum.wrapping_mul(31).wrapping_add(value);
    }

    /// Adds 1 more than the makespan, and then modes and starts by rising activity.
    fn add_schedule(&mut self, project: &Project, schedule: &Schedule) {
        let makespan = check(project, schedule).unwrap_or(0);
        self.add(makespan.wrapping_add(1));
        let starts = schedule.starts.as_slice();
        for (mode, start) in schedule.modes.as_slice().iter().zip(starts) {
            self.add(*mode);
            self.add(*start);
        }
    }

    /// Adds the best schedule or 0, and 1 if the search is closed, else 0.
    fn add_node<S: Strategy>(&mut self, search: &S) {
        match search.best() {
            Some(schedule) => self.add_schedule(&search.plan().project, schedule),
            None => self.add(0),
        }
        self.add(u32::from(search.closed()));
        self.nodes = self.nodes.wrapping_add(1);
    }

    fn add_search<S: Strategy>(&mut self, search: &mut S, most: u32) {
        if search.closed() || search.nodes() != 0 || search.left() != 0 {
            return;
        }
        search.fund(u64::from(most));
        for _ in 0..most {
            if search.closed() || search.left() == 0 {
                return;
            }
            search.advance();
            self.add_node(search);
        }
    }

    fn add_made<S: Strategy>(&mut self, rt: &impl Abort, made: Result<S, Refused>, most: u32) {
        match made {
            Ok(mut search) => self.add_search(&mut search, most),
            Err(_) => panic!(rt; "no memory for a search"),
        }
    }

    fn add_run(&mut self, rt: &impl Abort, alloc: Global, plan: Plan, lease: Lease, most: u32)
        requires { IsEmpty lease }
    {
        match plan.kind {
            Kind::Tree => self.add_made(rt, TreeSearch::new(alloc, plan, lease), most),
            Kind::Sample(_) => self.add_made(rt, SampleSearch::new(alloc, plan, lease), most),
            _ => self.add_made(rt, RuleSearch::new(alloc, plan, lease), most),
        }
    }

    pub(crate) fn add_kind(
        &mut self,
        rt: &impl Abort,
        alloc: Global,
        project: &Project,
        kind: Kind,
        most: u32,
    ) {
        let (till, mut desk) = Till::new(alloc, 0, 1_000).expect(rt, "no memory for a till");
        let lease = till.lease(&mut desk, 0).expect(rt, "no memory for a lease");
        let project = project.clone_in(alloc).expect(rt, "no memory for a copy");
        self.add_run(rt, alloc, Plan { project, kind }, lease, most);
    }
}
