//! Projects and schedules: limits, readers by place, what a schedule breaks, and how that prints.
use crate::fixtures::{DIAMOND, LONE_ASKING, project};
use crate::readings::compare_diamond;
use mrcpsp::{Activity, Breach, Mode, Project, Schedule, Sequence, check, same};
use std::alloc::{AllocError, Global};
use std::process::Abort;
use std::test::Fail;

fn numbers(alloc: Global, items: &[u32]) -> Result<Sequence<u32>, AllocError> {
    Ok(Sequence::from(Vec::from_slice(alloc, items)?))
}

/// A project with its capacities, the modes and starts of a schedule, and the result of `check`.
type Line = (
    &'static str,
    &'static str,
    &'static [u32],
    &'static [u32],
    Result<u32, Breach>,
);

const SCHEDULES: [Line; 14] = [
    (DIAMOND, "3 1", &[1, 1, 2, 1], &[0, 0, 0, 4], Ok(4)),
    (
        DIAMOND,
        "3 1",
        &[1, 1, 1, 1],
        &[0, 0, 0, 3],
        Err(Breach::Renewable(1, 0)),
    ),
    (
        DIAMOND,
        "3 1",
        &[1, 1, 2, 1],
        &[0, 0, 0, 2],
        Err(Breach::Precedence(2, 4)),
    ),
    (
        DIAMOND,
        "3 1",
        &[1, 1, 3, 1],
        &[0, 0, 0, 4],
        Err(Breach::Mode(3)),
    ),
    (
        DIAMOND,
        "3 1",
        &[1, 1, 2, 1],
        &[0, 0, 0],
        Err(Breach::Shape),
    ),
    (
        DIAMOND,
        "3 0",
        &[1, 1, 1, 1],
        &[0, 0, 3, 5],
        Err(Breach::Nonrenewable(1)),
    ),
    // The shape comes before anything else, and starts have a limit.
    (
        DIAMOND,
        "3 1",
        &[1, 1, 2, 1],
        &[0, 0, 0, 1_000_000_000],
        Ok(1_000_000_000),
    ),
    (
        DIAMOND,
        "3 1",
        &[1, 1, 2, 1],
        &[0, 0, 0, 1_000_000_001],
        Err(Breach::Shape),
    ),
    (
        DIAMOND,
        "3 1",
        &[1, 1, 2, 1, 1],
        &[0, 0, 0, 4],
        Err(Breach::Shape),
    ),
    // The first of several breaches.
    (
        DIAMOND,
        "3 0",
        &[0, 2, 1, 1],
        &[9, 0, 0, 0],
        Err(Breach::Mode(1)),
    ),
    (
        DIAMOND,
        "3 0",
        &[1, 1, 1, 1],
        &[9, 8, 0, 0],
        Err(Breach::Precedence(1, 2)),
    ),
    // Too much is used in the last period of the longer activity alone, and then in none.
    (
        DIAMOND,
        "3 1",
        &[1, 1, 1, 1],
        &[0, 5, 7, 9],
        Err(Breach::Renewable(1, 7)),
    ),
    (DIAMOND, "3 1", &[1, 1, 1, 1], &[0, 5, 8, 10], Ok(10)),
    // An activity that takes no time uses nothing.
    (LONE_ASKING, "3", &[1], &[5], Ok(5)),
];

fn schedule_of(alloc: Global, modes: &[u32], starts: &[u32]) -> Result<Schedule, AllocError> {
    let modes = numbers(alloc, modes)?;
    let starts = numbers(alloc, starts)?;
    Ok(Schedule { modes, starts })
}

#[test]
fn what_schedules_break(rt: HostRuntime) {
    for (text, capacities, modes, starts, wanted) in SCHEDULES.iter() {
        let project = project(&rt, rt.alloc(), text, capacities);
        let schedule = schedule_of(rt.alloc(), modes, starts).expect(
            &rt,
            "no memory for a schedule",
        );
        assert!(rt; check(&project, &schedule) == *wanted);
    }
}

#[test]
fn breaches_as_text(rt: HostRuntime) -> Result<(), Fail> {
    let texts = [
        (Breach::Shape, "Shape"),
        (Breach::Mode(3), "Mode(3)"),
        (Breach::Precedence(2, 4), "Precedence(2, 4)"),
        (Breach::Renewable(1, 0), "Renewable(1, 0)"),
        (Breach::Nonrenewable(1), "Nonrenewable(1)"),
    ];
    for (breach, text) in texts.iter() {
        assert!(rt; breach.to_string(rt.alloc())?.as_str() == *text);
    }
    Ok(())
}

#[test]
fn equality_and_copies(rt: HostRuntime) {
    let one = project(&rt, rt.alloc(), DIAMOND, "3 1");
    let other = project(&rt, rt.alloc(), DIAMOND, "3 2");
    let copy = one.clone_in(rt.alloc()).expect(&rt, "no memory for a copy");
    compare_diamond(&rt, &copy);
    assert!(rt; same(&one, &copy) && !same(&one, &other));
}

fn compare_capacities(rt: &impl Abort, project: &Project, capacity: u32, stock: u32) {
    assert!(rt; project.renewables() == 1 && project.nonrenewables() == 1);
    assert!(rt; project.capacity(0) == capacity && project.stock(0) == stock);
}

/// The last mode of the third activity by places, and the precedences.
fn compare_places(rt: &impl Abort, project: &Project) {
    assert!(rt; 2 < project.size());
    assert!(rt; project.precedes(0, 2) && !project.precedes(2, 0));
    assert!(rt; project.successors(0) == [2, 3].as_slice());
    assert!(rt; project.mode_count(2) == 2);
    assert!(rt; project.duration(2, 1) == 4);
}

fn compare_requests(rt: &impl Abort, project: &Project) {
    assert!(rt; 2 < project.size() && 0 < project.renewables() && 0 < project.nonrenewables());
    assert!(rt; 1 < project.mode_count(2));
    assert!(rt; project.request(2, 1, 0) == 1 && project.consumption(2, 0, 0) == 1);
}

#[test]
fn readers_by_place(rt: HostRuntime) {
    let project = project(&rt, rt.alloc(), DIAMOND, "3 1");
    compare_capacities(&rt, &project, 3, 1);
    compare_places(&rt, &project);
    compare_requests(&rt, &project);
}

fn alone(
    alloc: Global,
    duration: u32,
    successors: &[u32],
    stock: u32,
) -> Result<Option<Project>, AllocError> {
    let mode = Mode {
        duration,
        renewable: numbers(alloc, &[])?,
        nonrenewable: numbers(alloc, &[0])?,
    };
    let activity = Activity {
        modes: Sequence::from(vec![in alloc; mode]?),
        successors: numbers(alloc, successors)?,
    };
    let activities = Sequence::from(vec![in alloc; activity]?);
    Ok(Project::new(activities, numbers(alloc, &[])?, numbers(alloc, &[stock])?))
}

#[test]
fn what_is_a_project(rt: HostRuntime) -> Result<(), Fail> {
    let alloc = rt.alloc();
    let table: [(u32, &[u32], u32, bool); 5] = [
        (1_000, &[], 1_000_000, true),
        (1_001, &[], 1, false),
        (1, &[1], 1, false),
        (1, &[2], 1, false),
        (1, &[], 1_000_001, false),
    ];
    for (duration, successors, stock, wanted) in table {
        let project = alone(alloc, duration, successors, stock)?;
        assert!(rt; project.is_some() == wanted);
    }
    let none = Sequence::from(Vec::new(alloc));
    assert!(rt; Project::new(none, numbers(alloc, &[])?, numbers(alloc, &[])?).is_none());
    Ok(())
}
