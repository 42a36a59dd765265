//! A project, its boxed searches, tills, configurations and pools.
ghost use Rattle.std.specs.Prelude.{◌≡◌, true, length, IfSome};
ghost use Rattle.quanta_till.specs.Lease.{IsEmpty};
ghost use Rattle.farm_core.specs.Tills.{opening_for, opening_of};
ghost use Rattle.strategy.specs.declared.kind.Kind.TheVariants.{Tree};
ghost use Rattle.turn_lock.specs.Values.{IsPassOf};

use crate::gates::Meeting;
use crate::patient::Patient;
use farm_core::{Config, Farm, Name, TenantLine};
use farm_pool::{Pool, PoolPass, Settled, Unsettled, finish};
use farm_session::Ready;
use mrcpsp::Sequence;
use psplib_mm::read;
use quanta_till::{Desk, Lease, Till};
use rule_search::RuleSearch;
use sample_search::SampleSearch;
use std::alloc::Global;
use std::process::Abort;
use std::sync::Arc;
use strategy::{Kind, Plan, Strategy};

/// The first tenant.
pub(crate) const A: u32 = 0;

/// The second tenant.
pub(crate) const B: u32 = 1;

/// A source, an activity of one mode, one of two modes, and a sink, with a resource of each sort.
const DIAMOND: &str = "jobs (incl. supersource/sink ): 4
- renewable : 1 R
- nonrenewable : 1 N
PRECEDENCE RELATIONS:
h
1 1 2 2 3
2 1 1 4
3 2 1 4
4 1 0
REQUESTS/DURATIONS:
h
1 1 0 0 0
2 1 3 2 0
3 1 2 2 1
2 4 1 0
4 1 0 0 0
RESOURCEAVAILABILITIES:
h
3 1
";

fn plan_of(alloc: Global, kind: Kind) -> Option<Plan>
    ensures { IfSome result (λ plan. plan.kind ≡ kind) }
{
    match read(alloc, DIAMOND.as_bytes()) {
        Ok(project) => Some(Plan { project, kind }),
        Err(_) => None,
    }
}

#[derive(Drop)]
pub(crate) struct Planned {
    pub(crate) plan: Plan,
    pub(crate) search: Box<dyn Strategy>,
}

/// `None`: out of memory.
fn search_of(alloc: Global, plan: &Plan, lease: Lease) -> Option<Box<dyn Strategy>>
    requires kind { plan.now.kind ≡ Tree }
    requires lease { IsEmpty lease }
{
    let ready = Ready::new(plan.clone_in(alloc).ok()?, lease);
    let search: Box<dyn Strategy> = ready.tree(alloc)?;
    Some(search)
}

pub(crate) fn tree_of(rt: &impl Abort, alloc: Global, lease: Lease) -> Planned
    requires { IsEmpty lease }
{
    let plan = plan_of(alloc, Kind::Tree).expect(rt, "no memory for a plan");
    let search = search_of(alloc, &plan, lease).expect(rt, "no memory for a search");
    Planned { plan, search }
}

/// Trees of tenant a.
pub(crate) fn trees_of(
    rt: &impl Abort,
    alloc: Global,
    purse: &mut Purse,
    count: u32,
) -> Vec<Planned> {
    let mut trees = Vec::new(alloc);
    for _ in 0..count {
        let tree = tree_of(rt, alloc, purse.lease(rt, A));
        assert!(rt; trees.push(tree).is_ok(), "no memory for a list");
    }
    trees
}

/// A pass by a rule whose first node waits at a meeting.
pub(crate) fn patient_of(
    rt: &impl Abort,
    alloc: Global,
    lease: Lease,
    meeting: &Arc<Meeting, Global>,
) -> Planned
    requires { IsEmpty lease }
{
    let searched = plan_of(alloc, Kind::RuleSpt).expect(rt, "no memory for a plan");
    let Ok(search) = RuleSearch::new(alloc, searched, lease) else {
        panic!(rt; "no memory");
    };
    let meeting = meeting.clone().expect(rt, "no memory for a meeting");
    let patient = Patient::new(search, meeting);
    let search: Box<dyn Strategy> = Box::new(alloc, patient).expect(rt, "no memory for a box");
    let plan = plan_of(alloc, Kind::RuleSpt).expect(rt, "no memory for a plan");
    Planned { plan, search }
}

pub(crate) fn sample_of(rt: &impl Abort, alloc: Global, lease: Lease) -> SampleSearch
    requires { IsEmpty lease }
{
    let plan = plan_of(alloc, Kind::Sample(7)).expect(rt, "no memory for a plan");
    let Ok(search) = SampleSearch::new(alloc, plan, lease) else {
        panic!(rt; "no memory");
    };
    search
}

#[derive(Drop)]
pub(crate) struct Purse {
    number: u32,
    granted: u64,
    till: Till,
    desk: Desk,
    ghost same: { desk.id ≡ till.id },
    ghost purse: { till.purse ≡ number },
    ghost opened: { till.granted ≡ granted },
}

impl Purse {
    pub(crate) fn new(rt: &impl Abort, alloc: Global, number: u32, granted: u64) -> Purse {
        let (till, desk) = Till::new(alloc, number, granted).expect(rt, "no memory for a till");
        Purse {
            number,
            granted,
            till,
            desk,
        }
    }

    pub(crate) fn lease(&mut self, rt: &impl Abort, tenant: u32) -> Lease
        ensures { IsEmpty result }
    {
        let lease = self.till.lease(&mut self.desk, tenant);
        lease.expect(rt, "no memory for a lease")
    }

    /// The words POOL, SPENT and GRANTED.
    pub(crate) fn words(&mut self) -> [u64; 3] {
        let words = self.till.words(&mut self.desk);
        [words.pool, words.spent, words.granted]
    }

    fn is_of(&self, config: &Config, number: u32) -> bool
        ensures { result ≡ true → opening_of self.now.till ≡ opening_for config.now number }
    {
        self.number == number && self.granted == config.granted(number)
    }
}

/// A tenant's name, its purse's name, empty for a purse of its own, and its quanta and entries.
pub(crate) type Terms = (&'static str, &'static str, u64, u64);

/// The tenant may keep two jobs.
fn line_of((name, purse, quanta, entries): Terms) -> Option<TenantLine> {
    Some(TenantLine {
        name: Name::new(name.as_bytes())?,
        quanta,
        jobs: 2,
        entries,
        purse: Name::new(purse.as_bytes()),
    })
}

/// Two workers.
pub(crate) fn config_of(rt: &impl Abort, alloc: Global, tenants: &[Terms], slice: u64) -> Config {
    let mut lines = Vec::new(alloc);
    for terms in tenants {
        let line = line_of(*terms).expect(rt, "a name");
        assert!(rt; lines.push(line).is_ok(), "no memory for a line");
    }
    Config::new(Sequence::from(lines), 2, slice).expect(rt, "no memory for a configuration")
}

pub(crate) fn pool_of(alloc: Global, config: &Config, tenants: usize) -> Option<(Pool, PoolPass)>
    ensures own { IfSome result (λ made. IsPassOf made.0.lock made.1) }
    ensures opening { IfSome result (λ made. made.0.lock.opening ≡ config.now) }
    ensures count { IfSome result (λ made. length made.0.lock.opening.tenants ≡ tenants) }
{
    if config.tenants().len() != tenants {
        return None;
    }
    Pool::new(alloc, config).ok()
}

/// Whether no lease of a till holds any of its quanta.
fn is_whole(till: &Till, desk: &mut Desk) -> bool
    requires { desk.old.id ≡ till.now.id }
{
    let words = till.words(desk);
    words.pool.checked_add(words.spent) == Some(words.granted)
}

/// If the farm ended with jobs that held quanta, they were dropped with it: all quanta are back.
fn once_dropped(
    ended: Result<Settled, Unsettled>,
    is_whole: bool,
) -> Option<Result<Settled, Unsettled>> {
    if !is_whole && matches!(&ended, Err(Unsettled::Held(_, _))) {
        return None;
    }
    Some(ended)
}

#[tactic(auto, using(crate::proofs::SeatLemmas::two_seated, crate::proofs::SeatLemmas::two_tills))]
pub(crate) fn settle(
    config: &Config,
    farm: Farm<Box<dyn Strategy>>,
    first: Purse,
    second: Purse,
) -> Option<Result<Settled, Unsettled>>
    requires { farm.config ≡ config.now }
{
    if config.purses() != 2 || !first.is_of(config, 0) || !second.is_of(config, 1) {
        return None;
    }
    let Purse {
        till: one,
        desk: mut at_one,
        ..
    } = first;
    let Purse {
        till: other,
        desk: mut at_other,
        ..
    } = second;
    let mut beside_one = one.desk(&mut at_one);
    let mut beside_other = other.desk(&mut at_other);
    let tills = [one, other];
    let mut desks = [at_one, at_other];
    let ended = finish(farm, &tills, &mut desks);
    let is_whole = is_whole(&tills[0], &mut beside_one) && is_whole(&tills[1], &mut beside_other);
    once_dropped(ended, is_whole)
}

#[tactic(auto, using(crate::proofs::SeatLemmas::one_seated, crate::proofs::SeatLemmas::one_till))]
pub(crate) fn settle_shared(
    config: &Config,
    farm: Farm<Box<dyn Strategy>>,
    purse: Purse,
) -> Option<Result<Settled, Unsettled>>
    requires { farm.config ≡ config.now }
{
    if config.purses() != 1 || !purse.is_of(config, 0) {
        return None;
    }
    let Purse { till, mut desk, .. } = purse;
    let mut beside = till.desk(&mut desk);
    let tills = [till];
    let mut desks = [desk];
    let ended = finish(farm, &tills, &mut desks);
    once_dropped(ended, is_whole(&tills[0], &mut beside))
}
