//! The values of the activities of random projects.
use crate::drawn::{Drawn, SMALL};
use crate::sum::Sum;
use measures::Measures;

fn add_values(sum: &mut Sum, measures: &Measures, resources: usize) {
    for activity in 0..measures.count() {
        sum.add(measures.tail(activity));
        sum.add(measures.lft(activity));
        sum.add(measures.mts(activity));
        sum.add(measures.shortest(activity));
        if 0 < resources {
            sum.add(measures.least(activity, 0));
        }
        if 1 < resources {
            sum.add(measures.least(activity, 1));
        }
    }
}

#[test]
fn values_of_random_projects(rt: HostRuntime) {
    let mut drawn = Drawn::new(7);
    let mut sum = Sum::NONE;
    for _ in 0..1_000 {
        let project = drawn.project(&rt, rt.alloc(), SMALL);
        let measures = Measures::of(rt.alloc(), &project).expect(&rt, "no memory for values");
        assert!(rt; measures.count() == project.size());
        add_values(&mut sum, &measures, project.nonrenewables());
    }
    assert!(rt; sum.sum == 783_666_374);
}
