ghost use Rattle.std.specs.Prelude.{◌≡◌, ℕ, Option, is_some, option_map};
ghost use Rattle.mrcpsp.specs.Project.{ProjectData};
ghost use Rattle.mrcpsp.specs.Schedule.{ScheduleData, makespan as greatest_finish};
ghost use Rattle.mrcpsp.specs.Values.{bound as bound_of};
ghost use Rattle.strategy.specs.Outcome.{all_run as all_nodes_run, best_after, final_verdict, is_at_bound, is_closed, verdict_after};
ghost use Rattle.strategy.specs.declared.plan.Plan.{Plan};
ghost use Rattle.paid_search.specs.Paid.{is_over};

use strategy::{Kind, Verdict};

fn final_verdict(kind: Kind, is_found: bool) -> Verdict
    ensures { (best : Option ScheduleData) → is_found ≡ is_some best → result ≡ final_verdict kind best }
{
    match kind {
        Kind::Tree => {
            if is_found {
                Verdict::Optimal
            } else {
                Verdict::Infeasible
            }
        }
        _ => Verdict::Ended,
    }
}

fn is_at_bound(makespan: Option<u32>, bound: u32) -> bool
    ensures { (p : ProjectData) (best : Option ScheduleData)
        → makespan ≡ option_map (greatest_finish p) best → bound ≡ bound_of p → result ≡ is_at_bound p best }
{
    match makespan {
        Some(shortest) => shortest <= bound,
        None => false,
    }
}

#[tactic(auto, unfolding(strategy::specs::Outcome::is_closed))]
pub(crate) fn stops(makespan: Option<u32>, bound: u32, all_run: bool) -> bool
    ensures { (plan : Plan) (k : ℕ) → makespan ≡ option_map (greatest_finish plan.project) (best_after plan k)
        → bound ≡ bound_of plan.project → all_run ≡ all_nodes_run plan.project plan.kind k
        → result ≡ is_closed plan k }
{
    is_at_bound(makespan, bound) || all_run
}

/// It is `Going` exactly if `stops` is false.
pub(crate) fn verdict_by(kind: Kind, makespan: Option<u32>, bound: u32, all_run: bool) -> Verdict
    ensures { (plan : Plan) (k : ℕ) → kind ≡ plan.kind
        → makespan ≡ option_map (greatest_finish plan.project) (best_after plan k) → bound ≡ bound_of plan.project
        → all_run ≡ all_nodes_run plan.project plan.kind k → result ≡ verdict_after plan k }
{
    if is_at_bound(makespan, bound) {
        Verdict::Optimal
    } else if all_run {
        final_verdict(kind, makespan.is_some())
    } else {
        Verdict::Going
    }
}

pub(crate) fn is_over(shown: Verdict) -> bool
    ensures { result ≡ is_over shown }
{
    !matches!(shown, Verdict::Going)
}
