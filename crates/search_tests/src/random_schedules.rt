use crate::drawn::{Drawn, SMALL};
use crate::sum::Sum;
use mrcpsp::{Breach, Project, Schedule, Sequence, check};
use std::alloc::{AllocError, Global};
use std::process::Abort;

/// The starts rise, so that precedence is often kept. A mode is sometimes not there.
fn random_schedule(alloc: Global, drawn: &mut Drawn, size: usize) -> Result<Schedule, AllocError> {
    let mut modes = Vec::new(alloc);
    let mut starts = Vec::new(alloc);
    let mut start = 0u32;
    for _ in 0..size {
        let (odd, mode, step) = (drawn.below(40), drawn.below(2), drawn.below(5));
        modes.push(if odd == 0 { 4 } else { mode.saturating_add(1) })?;
        start = start.saturating_add(step);
        starts.push(start)?;
    }
    Ok(Schedule {
        modes: Sequence::from(modes),
        starts: Sequence::from(starts),
    })
}

/// The kind of the breach, and its numbers.
fn add_told(sum: &mut Sum, told: Result<u32, Breach>) {
    let (sort, number, more) = match told {
        Ok(makespan) => (0, makespan, None),
        Err(Breach::Shape) => (1, 0, None),
        Err(Breach::Mode(activity)) => (2, activity, None),
        Err(Breach::Precedence(before, after)) => (3, before, Some(after)),
        Err(Breach::Renewable(resource, period)) => (4, resource, Some(period)),
        Err(Breach::Nonrenewable(resource)) => (5, resource, None),
    };
    sum.add(sort);
    sum.add(number);
    if let Some(more) = more {
        sum.add(more);
    }
}

fn add_schedules(
    rt: &impl Abort,
    alloc: Global,
    sum: &mut Sum,
    drawn: &mut Drawn,
    project: &Project,
) {
    for _ in 0..10 {
        let schedule = random_schedule(alloc, drawn, project.size());
        let told = check(project, &schedule.expect(rt, "no memory for a schedule"));
        if told.is_ok() {
            sum.count();
        }
        add_told(sum, told);
    }
}

#[test]
fn random_schedules(rt: HostRuntime) {
    let mut drawn = Drawn::new(7);
    let mut sum = Sum::NONE;
    for _ in 0..1_000 {
        let project = drawn.project(&rt, rt.alloc(), SMALL);
        add_schedules(&rt, rt.alloc(), &mut sum, &mut drawn, &project);
    }
    assert!(rt; sum.count == 1_880 && sum.sum == 3_329_457_123);
}
