ghost use Rattle.std.specs.Prelude.{◌≡◌, ◌+◌, ◌<◌, ◌≤◌, ℕ, true, false, IfOk, option_map};
ghost use Rattle.std.specs.Option.{option_copied};
ghost use Rattle.mrcpsp.specs.Schedule.{makespan};
ghost use Rattle.mrcpsp.specs.Values.{bound};
ghost use Rattle.strategy.specs.Outcome.{best_after, all_run, is_closed};
ghost use Rattle.strategy.specs.declared.plan.Plan.{Plan as PlanData};
ghost use Rattle.strategy.specs.declared.kind.Kind.{Kind as KindData};
ghost use Rattle.paid_search.specs.Paid.{GoesOn, RunsOn};

use crate::shown::stops;
use mrcpsp::Schedule;
use std::alloc::{AllocError, Global};
use strategy::Plan;

/// A `Nodes` is what runs the nodes of a search, without its quanta. No call but `of` takes memory.
pub trait Nodes: Send + Drop {
    /// The kinds that it searches.
    ghost serves: { KindData → Type 0 };

    /// It has run `k` nodes of a plan's search, and its best schedule was not taken.
    ghost stands: { Self → PlanData → ℕ → Type 0 };

    /// No node has run yet. Fails only without memory.
    fn of(alloc: Global, plan: &Plan) -> Result<Self, AllocError>
        requires { serves plan.now.kind }
        ensures { IfOk result (λ nodes. stands nodes plan.now 0) };

    /// The project's critical path bound, in periods.
    fn bound(&self) -> u32
        ensures { (plan : PlanData) (k : ℕ) → stands self.now plan k → result ≡ bound plan.project };

    fn all_run(&self) -> bool
        ensures { (plan : PlanData) (k : ℕ) → stands self.now plan k → result ≡ all_run plan.project plan.kind k };

    /// The makespan of the best schedule, in periods.
    fn makespan(&self) -> Option<u32>
        ensures { (plan : PlanData) (k : ℕ) → stands self.now plan k
            → result ≡ option_map (makespan plan.project) (best_after plan k) };

    fn best(&self) -> Option<&Schedule>
        ensures { (plan : PlanData) (k : ℕ) → stands self.now plan k → option_copied result ≡ best_after plan k };

    /// Runs one node, of fewer than `LEASE_LIMIT` before.
    fn advance(&mut self)
        requires { GoesOn stands self.old }
        ensures { (plan : PlanData) (k : ℕ) → stands self.old plan k → is_closed plan k ≡ false
            → stands self.new plan (k + 1) };

    /// Runs up to `most` nodes, and returns their number: fewer only if the search is over then.
    fn run_nodes(&mut self, most: u64) -> u64
        requires { RunsOn stands self.old most }
        ensures most { result ≤ most }
        ensures ran { (plan : PlanData) (k : ℕ) → stands self.old plan k → stands self.new plan (k + result) }
        ensures going { (plan : PlanData) (k : ℕ) → stands self.old plan k
            → (i : ℕ) → i < result → is_closed plan (k + i) ≡ false }
        ensures over { (plan : PlanData) (k : ℕ) → stands self.old plan k
            → result < most → is_closed plan (k + result) ≡ true }
    {
        let bound = self.bound();
        let mut ran = 0;
        while ran < most && !stops(self.makespan(), bound, self.all_run()) {
            self.advance();
            ran += 1;
        }
        ran
    }

    fn take_best(&mut self) -> Option<Schedule>
        ensures { (plan : PlanData) (k : ℕ) → stands self.old plan k → result ≡ best_after plan k };
}
