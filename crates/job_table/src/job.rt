//! Jobs: what is known of a search, and the search unless it is out or over.
ghost use Rattle.std.specs.Prelude.{◌≡◌, ◌+◌, ◌-◌, ◌≤◌, ◌↔◌, IsTrue, IsFalse, Some, None, IfSome, OnSome, IfNone, IfOk, is_some, false, true, option_map, if◌then◌else◌};
ghost use Rattle.std.specs.Option.{option_copied};
ghost use Rattle.mrcpsp.specs.Project.{size, is_project};
ghost use Rattle.mrcpsp.specs.Schedule.{makespan};
ghost use Rattle.strategy.specs.Outcome.{best_after, is_closed, verdict_after};
ghost use Rattle.quanta_till.specs.Lease.{after_draw};
ghost use Rattle.strategy.specs.Search.{Meaning, funded};
ghost use Rattle.job_table.specs.Table.{JobData};
ghost use Rattle.job_table.specs.Job.{fresh_search, is_turn, is_here, phase_after, IsOwn};
ghost use Rattle.job_table.specs.Lent.{search_of, returned, with_work, in_phase, LacksOwn, HasDrawn};

use crate::Phase;
use crate::best::Best;
use mrcpsp::{Schedule, makespan};
use quanta_till::LEASE_LIMIT;
use std::alloc::{AllocError, Global};
use std::marker::Model;
use strategy::{Plan, Strategy, Verdict, same_plan};

/// A `Work` is a job without its number and phase: its plan, and what its search has shown. It
/// holds the search unless that is out or over.
#[derive(Drop)]
pub struct Work<J> {
    plan: Plan,
    nodes: u64,
    left: u64,
    best: Best,
    makespan: Option<u32>,
    verdict: Verdict,
    search: Option<J>,
}

impl<J> Model for Work<J> {
    ghost use Rattle.job_table.specs.Lent.{WorkData};
    ghost use Rattle.job_table.specs.Job.{IsSound};

    ghost Value = { WorkData J };

    ghost view = { λ w. record { plan = w.plan; nodes = w.nodes; left = w.left; search = w.search } };

    ghost invariant = { λ w. IsSound w.plan w.nodes w.best w.makespan w.verdict };
}

/// A `Job` is a number, a phase and a [`Work`].
#[derive(Drop)]
pub struct Job<J> {
    seq: u64,
    phase: Phase,
    work: Work<J>,
}

impl<J> Model for Job<J> {
    ghost use Rattle.std.specs.Prelude.{is_some};
    ghost use Rattle.job_table.specs.Table.{JobData};

    ghost Value = { JobData };

    ghost view = { λ j. record {
      seq = j.seq;
      plan = j.work.plan;
      phase = j.phase;
      nodes = j.work.nodes;
      left = j.work.left;
      here = is_some j.work.search;
    } };
}

fn agrees<S: Strategy>(search: &S, tenant: u32, plan: &Plan, nodes: u64, left: u64) -> bool
    ensures { IsTrue result
        ↔ ((S.meaning search.now
        ≡ record { tenant = tenant; plan = plan.now; nodes = nodes; left = left; taken = false })
        × (is_closed plan.now nodes ≡ false)) }
{
    !search.closed()
        && search.tenant() == tenant
        && search.nodes() == nodes
        && search.left() == left
        && same_plan(search.plan(), plan)
}

/// Whether `search` may be submitted: it has run nothing, holds nothing, and is of `tenant` and
/// `plan`.
pub fn is_fresh<S: Strategy>(search: &S, tenant: u32, plan: &Plan) -> bool
    ensures { IsTrue result ↔ (S.meaning search.now ≡ fresh_search tenant plan.now) }
{
    // Shows the prover that `plan.project` is a project, as each of its readers does.
    plan.project.activities();
    agrees(search, tenant, plan, 0, 0)
}

fn fund_own<S: Strategy>(
    search: &mut S,
    tenant: u32,
    plan: &Plan,
    nodes: u64,
    left: u64,
    quanta: u64,
) -> bool
    requires { nodes + left + quanta ≤ LEASE_LIMIT }
    ensures own { IsTrue result → S.meaning search.old
        ≡ record { tenant = tenant; plan = plan.now; nodes = nodes; left = left; taken = false } }
    ensures other { IsFalse result
        → S.meaning search.old
        ≡ record { tenant = tenant; plan = plan.now; nodes = nodes; left = left; taken = false }
        → is_closed plan.now nodes ≡ true }
    ensures going { IsTrue result → is_closed plan.now nodes ≡ false }
    ensures funded { IsTrue result → S.meaning search.new ≡ funded quanta (S.meaning search.old) }
    ensures drawn { IsTrue result → S.lease search.new ≡ after_draw (S.lease search.old) quanta }
    ensures kept { IsFalse result → search.new ≡ search.old }
{
    let own = agrees(search, tenant, plan, nodes, left);
    if own {
        search.fund(quanta);
    }
    own
}

fn is_turn(slice: u64, phase: Phase) -> bool
    ensures { result ≡ is_turn slice phase }
{
    match phase {
        Phase::Out(most) | Phase::Leaving(most) => most == slice,
        _ => false,
    }
}

impl<J: Strategy> Work<J> {
    #[tactic(auto, using(crate::proofs::JobLemmas::fresh_goes, crate::proofs::JobLemmas::sound_fresh))]
    fn new(
        alloc: Global,
        tenant: u32,
        plan: Plan,
        quanta: u64,
        mut search: J,
    ) -> Result<Work<J>, AllocError>
        requires limited { quanta ≤ LEASE_LIMIT }
        requires fresh { J.meaning search ≡ fresh_search tenant plan }
        ensures made { IfOk result
            (λ work. work ≡ record { plan = plan; nodes = 0; left = quanta; search = work.search }) }
        ensures drawn { IfOk result (λ work. HasDrawn J.meaning J.lease quanta (Some search) work.search) }
    {
        let best = Best::new(alloc, plan.project.activities().len())?;
        search.fund(quanta);
        Ok(Work {
            plan,
            nodes: 0,
            left: quanta,
            best,
            makespan: None,
            verdict: Verdict::Going,
            search: Some(search),
        })
    }
}

#[tactic(auto, using(crate::proofs::JobLemmas::best_shaped, crate::proofs::JobLemmas::best_moded))]
fn makespan_of(plan: &Plan, nodes: u64, best: Option<&Schedule>) -> Option<u32>
    requires planned { IsTrue (is_project plan.now.project) }
    requires best { option_copied best ≡ best_after plan.now nodes }
    ensures { result ≡ option_map (makespan plan.now.project) (best_after plan.now nodes) }
{
    match best {
        Some(schedule) => Some(makespan(&plan.project, schedule)),
        None => None,
    }
}

impl<J> Work<J> {
    fn best(&self) -> Option<&Schedule>
        ensures { option_copied result ≡ best_after self.now.plan self.now.nodes }
    {
        self.best.schedule()
    }

    fn makespan(&self) -> Option<u32>
        ensures { result ≡ option_map (makespan self.now.plan.project) (best_after self.now.plan self.now.nodes) }
    {
        self.makespan
    }

    fn verdict(&self) -> Verdict
        ensures { result ≡ verdict_after self.now.plan self.now.nodes }
    {
        self.verdict
    }
}

impl<J: Strategy> Work<J> {
    /// Hands the search out. `None` if it is not here, over, or of another tenant, plan, count of
    /// nodes or of quanta.
    pub fn send(&mut self, tenant: u32) -> Option<J>
        ensures own { IfSome result (λ search. self.old.search ≡ Some search) }
        ensures search { IfSome result (λ search. J.meaning search ≡ search_of tenant self.old) }
        ensures going { OnSome result (is_closed self.old.plan self.old.nodes ≡ false) }
        ensures sent { OnSome result (self.new ≡ record self.old { search = None }) }
        ensures refused { IfNone result (LacksOwn J.meaning tenant self.old) }
        ensures kept { IfNone result (self.new ≡ self.old) }
    {
        let search = self.search.take()?;
        if !agrees(&search, tenant, &self.plan, self.nodes, self.left) {
            self.search = Some(search);
            return None;
        }
        Some(search)
    }

    /// Takes over what `search` has shown, and returns the phase that follows a turn in `phase`. If
    /// no search is held in that phase, it drops this one with its quanta. Takes no memory.
    pub fn take_back(&mut self, search: J, phase: Phase) -> Phase
        requires plan { (J.meaning search).plan ≡ self.old.plan }
        requires best { (J.meaning search).taken ≡ false }
        ensures after { result ≡ phase_after phase (is_closed self.old.plan (J.meaning search).nodes) (J.meaning search).left }
        ensures returned { self.new ≡ returned (is_here result) search (J.meaning search) self.old }
    {
        let after = phase.after(search.closed(), search.left());
        self.best.copy(search.best());
        self.makespan = makespan_of(&self.plan, search.nodes(), search.best());
        self.verdict = search.verdict();
        self.nodes = search.nodes();
        if after.is_here() {
            self.left = search.left();
            self.search = Some(search);
        } else {
            self.give_up();
        }
        after
    }

    /// Drops the search with its quanta. Takes no memory.
    pub fn give_up(&mut self)
        ensures { self.new ≡ record self.old { left = 0; search = None } }
    {
        self.search = None;
        self.left = 0;
    }

    /// Draws more quanta for the search. Returns false if `send` would return `None`.
    pub fn fund(&mut self, tenant: u32, quanta: u64) -> bool
        requires { self.old.nodes + self.old.left + quanta ≤ LEASE_LIMIT }
        ensures funded { IsTrue result
            → self.new ≡ record self.old { left = self.old.left + quanta; search = self.new.search } }
        ensures drawn { IsTrue result → HasDrawn J.meaning J.lease quanta self.old.search self.new.search }
        ensures refused { IsFalse result → LacksOwn J.meaning tenant self.old }
        ensures kept { IsFalse result → self.new ≡ self.old }
    {
        let Some(mut search) = self.search.take() else {
            return false;
        };
        let own = fund_own(
            &mut search,
            tenant,
            &self.plan,
            self.nodes,
            self.left,
            quanta,
        );
        if own {
            self.left += quanta;
        }
        self.search = Some(search);
        own
    }
}

impl<J> Job<J> {
    ghost use Rattle.std.specs.Borrow.{Lends, sem};
    ghost use Rattle.job_table.specs.contracts.job.Job.{the_row};
    ghost use Rattle.job_table.specs.Rows.{work_row};

    /// The job's number.
    pub fn seq(&self) -> u64
        ensures { result ≡ self.now.seq }
    {
        self.seq
    }

    /// What is searched, and how.
    pub fn plan(&self) -> &Plan
        ensures { result.now ≡ self.now.plan }
    {
        &self.work.plan
    }

    /// The phase that it is in.
    pub fn phase(&self) -> Phase
        ensures { result ≡ self.now.phase }
    {
        self.phase
    }

    /// The nodes that were run and paid.
    pub fn nodes(&self) -> u64
        ensures { result ≡ self.now.nodes }
    {
        self.work.nodes
    }

    /// The quanta that it holds.
    pub fn left(&self) -> u64
        ensures { result ≡ self.now.left }
    {
        self.work.left
    }

    /// The best schedule of its plan after its nodes.
    pub fn best(&self) -> Option<&Schedule>
        ensures { option_copied result ≡ best_after self.now.plan self.now.nodes }
    {
        self.work.best()
    }

    /// The makespan of that schedule, in periods.
    pub fn makespan(&self) -> Option<u32>
        ensures { result ≡ option_map (makespan self.now.plan.project) (best_after self.now.plan self.now.nodes) }
    {
        self.work.makespan()
    }

    /// What its search has shown after its nodes.
    pub fn verdict(&self) -> Verdict
        ensures { result ≡ verdict_after self.now.plan self.now.nodes }
    {
        self.work.verdict()
    }

    pub(crate) fn set_phase(&mut self, phase: Phase)
        ensures { self.new ≡ in_phase phase self.old }
    {
        self.phase = phase;
    }

    pub(crate) fn work_mut(&mut self) -> &mut Work<J>
        ensures* writes_back { sem 𝓛 (Lends (the_row J.row) (work_row J.row) self.entry result (λ work. with_work work self.old)) }
        ensures value { with_work result.now self.old ≡ self.old }
    {
        &mut self.work
    }
}

impl<J: Strategy> Job<J> {
    /// A job that waits, with `quanta` in its search. An error is want of memory.
    pub fn new(
        alloc: Global,
        tenant: u32,
        seq: u64,
        plan: Plan,
        quanta: u64,
        search: J,
    ) -> Result<Job<J>, AllocError>
        requires limited { quanta ≤ LEASE_LIMIT }
        requires fresh { J.meaning search ≡ fresh_search tenant plan }
        ensures { IfOk result
            (λ job. job ≡ record { seq = seq; plan = plan; phase = Phase.Waiting; nodes = 0; left = quanta; here = true }) }
    {
        Ok(Job {
            seq,
            phase: Phase::Waiting,
            work: Work::new(alloc, tenant, plan, quanta, search)?,
        })
    }

    /// Whether `search` is this job's, after `ran` nodes of a turn for at most `slice`.
    pub fn is_own(&self, tenant: u32, slice: u64, ran: u64, search: &J) -> bool
        ensures { IsTrue result ↔ IsOwn tenant slice ran (J.meaning search.now) self.now }
    {
        let (nodes, left) = (search.nodes(), search.left());
        is_turn(slice, self.phase)
            && search.tenant() == tenant
            && ran <= nodes
            && nodes - ran == self.work.nodes
            && left <= self.work.left
            && self.work.left - left == ran
            && same_plan(search.plan(), &self.work.plan)
    }
}
