//! The last best schedule of the precedence tree.
use crate::drawn::{Drawn, SMALLEST};
use crate::sum::Sum;
use mrcpsp::{Project, check};
use quanta_till::Till;
use std::alloc::Global;
use std::process::Abort;
use strategy::{Kind, Plan, Strategy};
use tree_search::TreeSearch;

fn tree_of(rt: &impl Abort, alloc: Global, project: Project) -> TreeSearch {
    let (till, mut desk) = Till::new(alloc, 0, 1_000).expect(rt, "no memory for a till");
    let lease = till.lease(&mut desk, 0).expect(rt, "no memory for a lease");
    let kind = Kind::Tree;
    match TreeSearch::new(alloc, Plan { project, kind }, lease) {
        Ok(search) => search,
        Err(_) => panic!(rt; "no memory for a search"),
    }
}

fn run<S: Strategy>(rt: &impl Abort, search: &mut S) {
    assert!(rt; !search.closed() && search.nodes() == 0 && search.left() == 0);
    search.fund(1_000);
    for _ in 0..1_000 {
        if search.closed() || search.left() == 0 {
            break;
        }
        search.advance();
    }
    assert!(rt; search.closed());
}

fn makespan_of<S: Strategy>(search: &S) -> Option<u32> {
    let best = search.best()?;
    check(&search.plan().project, best).ok()
}

#[test]
fn least_makespans_of_random_projects(rt: HostRuntime) {
    let mut drawn = Drawn::new(7);
    let mut sum = Sum::NONE;
    for _ in 0..60 {
        let project = drawn.project(&rt, rt.alloc(), SMALLEST);
        let mut search = tree_of(&rt, rt.alloc(), project);
        run(&rt, &mut search);
        match makespan_of(&search) {
            Some(makespan) => {
                sum.count();
                sum.add(makespan.saturating_add(1));
            }
            None => sum.add(0),
        }
    }
    assert!(rt; sum.count == 46 && sum.sum == 1_831_384_998);
}
