//! 10,000 lists of random prices on 500 random projects: a refuted bound is below the least
//! makespan of all schedules.
use crate::drawn::Drawn;
use crate::enumeration::least_makespan;
use crate::fixtures::refutes;

#[test]
fn refuted_bounds_are_below_the_optimum(rt: HostRuntime) {
    let alloc = rt.alloc();
    let mut drawn = Drawn::new(7);
    let mut refuted = 0u32;
    for _ in 0..500 {
        let project = drawn.project(&rt, alloc);
        let least = least_makespan(&rt, alloc, &project);
        for _ in 0..20 {
            let bound = drawn.below(7);
            let prices = drawn.prices(&rt, alloc);
            if refutes(&rt, alloc, &project, bound, &prices) {
                refuted = refuted.saturating_add(1);
                assert!(rt; least.is_none_or(|least| bound < least));
            }
        }
    }
    assert!(rt; refuted > 0);
}
