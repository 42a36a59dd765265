use crate::fixtures::{CHAIN, DIAMOND, FORK, LONE, SEVEN, STARVED, project};
use measures::Measures;
use std::alloc::Global;
use std::process::Abort;

fn measures_of(rt: &impl Abort, alloc: Global, text: &str, capacities: &str) -> Measures {
    let project = project(rt, alloc, text, capacities);
    Measures::of(alloc, &project).expect(rt, "no memory for values")
}

/// `values` are the tail, latest finish time, number of followers and shortest duration.
fn compare(rt: &impl Abort, measures: &Measures, activity: usize, values: &[u32; 4]) {
    let [tail, lft, mts, shortest] = *values;
    assert!(rt; activity < measures.count());
    assert!(rt; measures.tail(activity) == tail && measures.lft(activity) == lft);
    assert!(rt; measures.mts(activity) == mts && measures.shortest(activity) == shortest);
    assert!(rt; measures.least(activity, 0) == 0);
}

#[test]
fn values_of_the_diamond(rt: HostRuntime) {
    let measures = measures_of(&rt, rt.alloc(), DIAMOND, "3 1");
    assert!(rt; measures.count() == 4 && measures.bound() == 3);
    let table = [[3, 4, 3, 0], [0, 7, 1, 3], [0, 7, 1, 2], [0, 7, 0, 0]];
    for (activity, values) in table.iter().enumerate() {
        compare(&rt, &measures, activity, values);
    }
}

/// A project, its capacities and its bound. In `SEVEN` the fourth activity follows the first, and
/// takes 6 after 2.
const BOUNDS: [(&str, &str, u32); 6] = [
    (DIAMOND, "3 1", 3),
    (STARVED, "3 0", 3),
    (CHAIN, "3 1", 5),
    (LONE, "", 0),
    (FORK, "1", 5),
    (SEVEN, "2 1", 8),
];

#[test]
fn bounds(rt: HostRuntime) {
    for (text, capacities, bound) in BOUNDS.iter() {
        let measures = measures_of(&rt, rt.alloc(), text, capacities);
        assert!(rt; measures.bound() == *bound);
    }
}
