//! The local search on small projects whose shortest schedules are known by hand.
use improve_search::LocalSearch;
use mrcpsp::{Activity, Mode, Project, Sequence, check};
use std::alloc::{AllocError, Global};
use std::process::Abort;
use std::test::Fail;

fn row(alloc: Global, zeros: usize, last: u32) -> Result<Sequence<u32>, AllocError> {
    let mut row = vec![in alloc; 0u32; zeros]?;
    row.push(last)?;
    Ok(Sequence::from(row))
}

/// The resource is the last of several.
fn mode(
    alloc: Global,
    others: usize,
    (duration, request, consumption): (u32, u32, u32),
) -> Result<Mode, AllocError> {
    Ok(Mode {
        duration,
        renewable: row(alloc, others, request)?,
        nonrenewable: row(alloc, 0, consumption)?,
    })
}

fn activity(
    alloc: Global,
    others: usize,
    given: &[(u32, u32, u32)],
    successors: &[u32],
) -> Result<Activity, AllocError> {
    let mut modes = Vec::new(alloc);
    for numbers in given {
        modes.push(mode(alloc, others, *numbers)?)?;
    }
    Ok(Activity {
        modes: Sequence::from(modes),
        successors: Sequence::from(Vec::from_slice(alloc, successors)?),
    })
}

/// A source, an activity of one mode, one of two modes, and a sink. Amounts are multiples of
/// `unit`, and `others` resources come before.
fn diamond(
    alloc: Global,
    (unit, others): (u32, usize),
    capacity: u32,
    stock: u32,
) -> Result<Option<Project>, AllocError> {
    let (one, two) = (unit, unit.wrapping_mul(2));
    let mut activities = Vec::new(alloc);
    activities.push(activity(alloc, others, &[(0, 0, 0)], &[2, 3])?)?;
    activities.push(activity(alloc, others, &[(3, two, 0)], &[4])?)?;
    activities.push(activity(alloc, others, &[(2, two, 1), (4, one, 0)], &[4])?)?;
    activities.push(activity(alloc, others, &[(0, 0, 0)], &[])?)?;
    let renewable = row(alloc, others, capacity.wrapping_mul(unit))?;
    let nonrenewable = row(alloc, 0, stock)?;
    Ok(Project::new(Sequence::from(activities), renewable, nonrenewable))
}

fn best_of(
    rt: &impl Abort,
    alloc: Global,
    project: &Project,
    most: u64,
) -> Result<Option<u32>, Fail> {
    let Some(mut search) = LocalSearch::new(alloc, project, 7, most)? else {
        return Err(Fail::from("a mode may run"));
    };
    let _ = search.run(most);
    assert!(rt; search.spent() <= most);
    match search.best() {
        Some(schedule) => assert!(rt; check(project, schedule).ok() == search.makespan()),
        None => assert!(rt; search.makespan().is_none()),
    }
    Ok(search.makespan())
}

#[test]
fn shortest_schedules_are_found(rt: HostRuntime) -> Result<(), Fail> {
    let alloc = rt.alloc();
    let table = [(3, 0, 4), (3, 1, 4), (2, 1, 5), (2, 0, 7)];
    for (capacity, stock, wanted) in table {
        for layout in [(1, 0), (10_000, 0), (300_000, 7)] {
            let project = diamond(alloc, layout, capacity, stock)?.ok_or("limits")?;
            assert_eq!(rt; best_of(&rt, alloc, &project, 500)?, Some(wanted));
        }
    }
    Ok(())
}

#[test]
fn few_schedules_may_be_too_few(rt: HostRuntime) -> Result<(), Fail> {
    let project = diamond(rt.alloc(), (1, 0), 3, 1)?.ok_or("limits")?;
    assert_eq!(rt; best_of(&rt, rt.alloc(), &project, 0)?, None);
    assert_eq!(rt; best_of(&rt, rt.alloc(), &project, 2)?, None);
    assert!(rt; best_of(&rt, rt.alloc(), &project, 3)?.is_some());
    Ok(())
}

#[test]
fn a_mode_that_cannot_run_is_none(rt: HostRuntime) -> Result<(), Fail> {
    let project = diamond(rt.alloc(), (1, 0), 1, 1)?.ok_or("limits")?;
    assert!(rt; LocalSearch::new(rt.alloc(), &project, 1, 100)?.is_none());
    Ok(())
}
