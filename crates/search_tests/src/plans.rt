use crate::fixtures::{CHAIN, DIAMOND, project};
use std::alloc::Global;
use std::process::Abort;
use strategy::laws::{each_best_is_feasible, what_is_shown_is_true};
use strategy::{Kind, Plan, same_plan};

fn is_same(rt: &impl Abort, alloc: Global, plan: &Plan, other: &Plan) -> bool {
    let copy = other.clone_in(alloc).expect(rt, "no memory for a copy");
    assert!(rt; same_plan(other, &copy));
    same_plan(plan, other)
}

/// A plan is another one if the kind, the seed or the project differs.
#[test]
fn copies_and_other_plans(rt: HostRuntime) {
    let table = [
        (DIAMOND, "3 1", Kind::Sample(42), true),
        (DIAMOND, "3 1", Kind::Sample(43), false),
        (DIAMOND, "3 1", Kind::Tree, false),
        (DIAMOND, "3 0", Kind::Sample(42), false),
        (CHAIN, "3 1", Kind::Sample(42), false),
    ];
    let sampled = Plan {
        project: project(&rt, rt.alloc(), DIAMOND, "3 1"),
        kind: Kind::Sample(42),
    };
    for (text, capacities, kind, same) in table {
        let project = project(&rt, rt.alloc(), text, capacities);
        let other = Plan { project, kind };
        assert!(rt; is_same(&rt, rt.alloc(), &sampled, &other) == same);
    }
}

#[test]
fn laws_cost_nothing() {
    what_is_shown_is_true();
    each_best_is_feasible();
}
