ghost use Rattle.std.specs.Prelude.{◌≡◌, IfSome};
ghost use Rattle.strategy.specs.declared.kind.Kind.TheVariants as kind;
ghost use Rattle.quanta_till.specs.Lease.{IsEmpty};
ghost use Rattle.job_table.specs.Job.{fresh_search};
ghost use Rattle.farm_session.specs.TillDesk.{lease_at, HasLeased};
ghost use Rattle.tree_search.specs.Search as tree_search;
ghost use Rattle.rule_search.specs.Rule.{IsRule};
ghost use Rattle.rule_search.specs.Search as rule_search;
ghost use Rattle.sample_search.specs.Search as sample_search;
ghost use Rattle.sample_search.specs.Search.{IsSample};

use crate::tills::TillDesk;
use quanta_till::Lease;
use rule_search::RuleSearch;
use sample_search::SampleSearch;
use std::alloc::Global;
use std::marker::Model;
use strategy::{Kind, Plan};
use tree_search::TreeSearch;

/// A `Ready` is what a search is made of: a plan, and a lease of which nothing was drawn.
#[derive(Drop)]
pub struct Ready {
    plan: Plan,
    lease: Lease,
}

impl Model for Ready {
    ghost use Rattle.quanta_till.specs.Lease.{IsEmpty};
    ghost use Rattle.farm_session.specs.Ready.{ReadyData};

    ghost Value = { ReadyData };

    ghost view = { λ r. record { plan = r.plan; lease = r.lease } };

    ghost invariant = { λ r. IsEmpty r.lease };
}

impl Ready {
    pub fn new(plan: Plan, lease: Lease) -> Ready
        requires { IsEmpty lease }
        ensures { result ≡ record { plan = plan; lease = lease } }
    {
        Ready { plan, lease }
    }

    pub fn kind(&self) -> Kind
        ensures { result ≡ self.now.plan.kind }
    {
        self.plan.kind
    }

    /// The search of the precedence tree, or `None` if there is no memory for it.
    pub fn tree(self, alloc: Global) -> Option<Box<TreeSearch>>
        requires { self.plan.kind ≡ kind.Tree }
        ensures made { IfSome result (λ search. search.value ≡ tree_search.fresh self.plan self.lease) }
        ensures fresh { IfSome result (λ search. search.value.0 ≡ fresh_search self.lease.tenant self.plan) }
        ensures drawn { IfSome result (λ search. search.value.1 ≡ self.lease) }
    {
        let Ready { plan, lease } = self;
        let search = TreeSearch::new(alloc, plan, lease).ok()?;
        Box::new(alloc, search).ok()
    }

    /// The search of passes drawn from a seed, or `None` if there is no memory for it.
    pub fn sample(self, alloc: Global) -> Option<Box<SampleSearch>>
        requires { IsSample self.plan.kind }
        ensures made { IfSome result (λ search. search.value ≡ sample_search.fresh self.plan self.lease) }
        ensures fresh { IfSome result (λ search. search.value.0 ≡ fresh_search self.lease.tenant self.plan) }
        ensures drawn { IfSome result (λ search. search.value.1 ≡ self.lease) }
    {
        let Ready { plan, lease } = self;
        let search = SampleSearch::new(alloc, plan, lease).ok()?;
        Box::new(alloc, search).ok()
    }

    /// The search of one pass by a rule, or `None` if there is no memory for it.
    pub fn rule(self, alloc: Global) -> Option<Box<RuleSearch>>
        requires { IsRule self.plan.kind }
        ensures made { IfSome result (λ search. search.value ≡ rule_search.fresh self.plan self.lease) }
        ensures fresh { IfSome result (λ search. search.value.0 ≡ fresh_search self.lease.tenant self.plan) }
        ensures drawn { IfSome result (λ search. search.value.1 ≡ self.lease) }
    {
        let Ready { plan, lease } = self;
        let search = RuleSearch::new(alloc, plan, lease).ok()?;
        Box::new(alloc, search).ok()
    }
}

/// The boxed search of a `Ready`, or `None` if there is no memory for it. (A function may not make
/// such a box and return it.)
#[macro_export]
macro_rules! boxed_search {
    ($ready:expr, $alloc:expr) => {
        match $ready.kind() {
            Kind::Tree => {
                let search: Box<dyn Strategy> = $ready.tree($alloc)?;
                Some(search)
            }
            Kind::Sample(_) => {
                let search: Box<dyn Strategy> = $ready.sample($alloc)?;
                Some(search)
            }
            _ => {
                let search: Box<dyn Strategy> = $ready.rule($alloc)?;
                Some(search)
            }
        }
    };
}

/// Makes a search of a copy of `plan` with a new lease. `None` if there is no memory for it.
pub(crate) fn search_of<J, M: Fn(Ready) -> Option<J>>(
    alloc: Global,
    till_desk: &mut TillDesk<'_>,
    tenant: u32,
    plan: &Plan,
    make: &M,
) -> Option<J>
    requires { M.IsAlwaysCallable make.now }
    ensures { HasLeased (M.post make.now) till_desk.old
        (record { plan = plan.now; lease = lease_at till_desk.old tenant })
        result till_desk.new }
{
    let plan = plan.clone_in(alloc).ok()?;
    let lease = till_desk.lease(tenant).ok()?;
    make(Ready::new(plan, lease))
}
