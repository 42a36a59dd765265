//! Projects, plans with boxed searches, tills and configurations.
ghost use Rattle.std.specs.Prelude.{◌≡◌, IfOk};
ghost use Rattle.quanta_till.specs.Lease.{IsEmpty};

use farm_core::{Config, Farm, Name, TenantLine};
use farm_session::{Ready, boxed_search};
use mrcpsp::Sequence;
use psplib_mm::read;
use quanta_till::{Desk, Lease, Till};
use std::alloc::{AllocError, Global};
use std::process::Abort;
use strategy::{Kind, Plan, Strategy};

/// A `Text` is one of six projects.
#[derive(Clone, Copy)]
pub(crate) enum Text {
    /// A source, an activity of one mode, one of two modes, and a sink, with a resource of each
    /// sort.
    Diamond,
    /// The diamond, but the second activity has one mode, and not enough of the nonrenewable
    /// resource.
    Starved,
    /// Three activities in a chain.
    Chain,
    Lone,
    /// A source, and three activities that share a renewable resource of 1. The first of them
    /// precedes the last.
    Shared,
    /// `Shared` with 2 of the resource.
    Roomy,
}

pub(crate) const DIAMOND: &str = "jobs (incl. supersource/sink ): 4
- renewable : 1 R
- nonrenewable : 1 N
PRECEDENCE RELATIONS:
h
1 1 2 2 3
2 1 1 4
3 2 1 4
4 1 0
REQUESTS/DURATIONS:
h
1 1 0 0 0
2 1 3 2 0
3 1 2 2 1
2 4 1 0
4 1 0 0 0
RESOURCEAVAILABILITIES:
h
3 1
";

const STARVED: &str = "jobs (incl. supersource/sink ): 4
- renewable : 1 R
- nonrenewable : 1 N
PRECEDENCE RELATIONS:
h
1 1 2 2 3
2 1 1 4
3 1 1 4
4 1 0
REQUESTS/DURATIONS:
h
1 1 0 0 0
2 1 3 2 0
3 1 2 2 1
4 1 0 0 0
RESOURCEAVAILABILITIES:
h
3 0
";

const CHAIN: &str = "jobs (incl. supersource/sink ): 3
PRECEDENCE RELATIONS:
h
1 1 1 2
2 1 1 3
3 1 0
REQUESTS/DURATIONS:
h
1 1 0
2 1 5
3 1 0
RESOURCEAVAILABILITIES:
";

const LONE: &str = "jobs (incl. supersource/sink ): 1
PRECEDENCE RELATIONS:
h
1 1 0
REQUESTS/DURATIONS:
h
1 1 0
RESOURCEAVAILABILITIES:
";

const SHARED: &str = "jobs (incl. supersource/sink ): 4
- renewable : 1 R
PRECEDENCE RELATIONS:
h
1 1 2 2 3
2 1 1 4
3 1 0
4 1 0
REQUESTS/DURATIONS:
h
1 1 0 0
2 1 2 1
3 1 2 1
4 1 3 1
RESOURCEAVAILABILITIES:
h
1
";

const ROOMY: &str = "jobs (incl. supersource/sink ): 4
- renewable : 1 R
PRECEDENCE RELATIONS:
h
1 1 2 2 3
2 1 1 4
3 1 0
4 1 0
REQUESTS/DURATIONS:
h
1 1 0 0
2 1 2 1
3 1 2 1
4 1 3 1
RESOURCEAVAILABILITIES:
h
2
";

fn plan_of(alloc: Global, text: Text, kind: Kind) -> Option<Plan> {
    let lines = match text {
        Text::Diamond => DIAMOND,
        Text::Starved => STARVED,
        Text::Chain => CHAIN,
        Text::Lone => LONE,
        Text::Shared => SHARED,
        Text::Roomy => ROOMY,
    };
    match read(alloc, lines.as_bytes()) {
        Ok(project) => Some(Plan { project, kind }),
        Err(_) => None,
    }
}

/// The search has run no node. `None`: out of memory.
fn search_of(alloc: Global, plan: &Plan, lease: Lease) -> Option<Box<dyn Strategy>>
    requires { IsEmpty lease }
{
    let ready = Ready::new(plan.clone_in(alloc).ok()?, lease);
    boxed_search!(ready, alloc)
}

/// A submit: whose, of which kind, and for which project.
#[derive(Clone, Copy)]
pub(crate) struct Wanted {
    pub(crate) tenant: u32,
    pub(crate) kind: Kind,
    pub(crate) text: Text,
}

#[derive(Drop)]
pub(crate) struct Planned<J> {
    pub(crate) plan: Plan,
    pub(crate) search: J,
}

pub(crate) fn planned_for(
    rt: &impl Abort,
    alloc: Global,
    lease: Lease,
    wanted: Wanted,
) -> Planned<Box<dyn Strategy>>
    requires { IsEmpty lease }
{
    let plan = plan_of(alloc, wanted.text, wanted.kind).expect(rt, "no memory for a plan");
    let search = search_of(alloc, &plan, lease).expect(rt, "no memory for a search");
    Planned { plan, search }
}

/// Each on its tenant's till.
pub(crate) fn all_planned(
    rt: &impl Abort,
    alloc: Global,
    purses: &mut Purses,
    submits: &[Wanted],
) -> Vec<Planned<Box<dyn Strategy>>> {
    let mut all = Vec::new(alloc);
    for wanted in submits {
        let lease = purses.lease_of(rt, wanted.tenant);
        let next = planned_for(rt, alloc, lease, *wanted);
        assert!(rt; all.push(next).is_ok(), "no memory for a list");
    }
    all
}

#[derive(Drop)]
pub(crate) struct Purse {
    till: Till,
    desk: Desk,
    ghost same: { desk.id ≡ till.id },
}

impl Purse {
    pub(crate) fn new(alloc: Global, number: u32, granted: u64) -> Result<Purse, AllocError> {
        let (till, desk) = Till::new(alloc, number, granted)?;
        Ok(Purse { till, desk })
    }

    pub(crate) fn lease(&mut self, tenant: u32) -> Result<Lease, AllocError>
        ensures { IfOk result IsEmpty }
    {
        self.till.lease(&mut self.desk, tenant)
    }

    /// The words POOL, SPENT and GRANTED.
    pub(crate) fn words(&mut self) -> [u64; 3] {
        let words = self.till.words(&mut self.desk);
        [words.pool, words.spent, words.granted]
    }
}

/// The tills of two purses.
#[derive(Drop)]
pub(crate) struct Purses {
    first: Purse,
    second: Purse,
    /// The members of the first purse: the tenants of the least numbers.
    members: u32,
}

impl Purses {
    /// a has 100 quanta, b has 10.
    pub(crate) fn new(rt: &impl Abort, alloc: Global) -> Purses {
        Purses {
            first: Purse::new(alloc, 0, 100).expect(rt, "no memory for a till"),
            second: Purse::new(alloc, 1, 10).expect(rt, "no memory for a till"),
            members: 1,
        }
    }

    /// a and b share 10 quanta, c has 10.
    pub(crate) fn shared(rt: &impl Abort, alloc: Global) -> Purses {
        Purses {
            first: Purse::new(alloc, 0, 10).expect(rt, "no memory for a till"),
            second: Purse::new(alloc, 1, 10).expect(rt, "no memory for a till"),
            members: 2,
        }
    }

    pub(crate) fn lease_of(&mut self, rt: &impl Abort, tenant: u32) -> Lease
        ensures { IsEmpty result }
    {
        let purse = if tenant < self.members {
            &mut self.first
        } else {
            &mut self.second
        };
        purse.lease(tenant).expect(rt, "no memory for a lease")
    }

    pub(crate) fn words(&mut self) -> [[u64; 3]; 2] {
        [self.first.words(), self.second.words()]
    }
}

/// A tenant's name, its purse's name, empty for a purse of its own, and its quanta, jobs and
/// entries.
pub(crate) type Terms = (&'static str, &'static str, [u64; 3]);

/// a with 6 quanta and b with 4 share the purse p; c has 10 in its own.
pub(crate) const THREE: [Terms; 3] = [
    ("a", "p", [6, 2, 100]),
    ("b", "p", [4, 2, 100]),
    ("c", "", [10, 2, 100]),
];

fn line_of((name, purse, [quanta, jobs, entries]): Terms) -> Option<TenantLine> {
    Some(TenantLine {
        name: Name::new(name.as_bytes())?,
        quanta,
        jobs,
        entries,
        purse: Name::new(purse.as_bytes()),
    })
}

pub(crate) fn config_of(
    rt: &impl Abort,
    alloc: Global,
    tenants: &[Terms],
    [workers, slice]: [u64; 2],
) -> Option<Config> {
    let mut lines = Vec::new(alloc);
    for terms in tenants {
        let line = line_of(*terms).expect(rt, "a name");
        assert!(rt; lines.push(line).is_ok(), "no memory for a line");
    }
    Config::new(Sequence::from(lines), workers, slice)
}

/// Two workers, and turns of 2 nodes.
pub(crate) fn farm_with<J>(rt: &impl Abort, alloc: Global, tenants: &[Terms]) -> Farm<J> {
    let config = config_of(rt, alloc, tenants, [2, 2]).expect(rt, "a configuration");
    match Farm::new(alloc, &config) {
        Ok(farm) => farm,
        Err(_) => panic!(rt; "no memory for a farm"),
    }
}

/// a has 100 quanta and `entries` entries of the journal, b has 10 quanta and 100 entries.
pub(crate) fn farm_of<J>(rt: &impl Abort, alloc: Global, entries: u64) -> Farm<J> {
    let tenants = [("a", "", [100, 2, entries]), ("b", "", [10, 2, 100])];
    farm_with(rt, alloc, &tenants)
}
