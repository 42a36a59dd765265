//! Projects of one renewable and one nonrenewable resource.
use mrcpsp::{Activity, Mode, Project, Sequence};
use schedule_prices::{Price, PricedRow, refute_by_prices};
use std::alloc::{AllocError, Global};
use std::process::Abort;

/// A mode: its duration, request and consumption.
pub(crate) type Numbers = (u32, u32, u32);

fn mode_of(alloc: Global, numbers: Numbers) -> Result<Mode, AllocError> {
    let (duration, request, consumption) = numbers;
    Ok(Mode {
        duration,
        renewable: Sequence::from(vec![in alloc; request]?),
        nonrenewable: Sequence::from(vec![in alloc; consumption]?),
    })
}

/// Two activities of one mode each. If `arc`, the first precedes the second.
fn pair_of(
    alloc: Global,
    modes: (Numbers, Numbers),
    arc: bool,
    limits: (u32, u32),
) -> Result<Option<Project>, AllocError> {
    let mut after = Vec::new(alloc);
    if arc {
        after.push(2)?;
    }
    let one = Activity {
        modes: Sequence::from(vec![in alloc; mode_of(alloc, modes.0)?]?),
        successors: Sequence::from(after),
    };
    let other = Activity {
        modes: Sequence::from(vec![in alloc; mode_of(alloc, modes.1)?]?),
        successors: Sequence::from(Vec::new(alloc)),
    };
    let activities = Sequence::from(vec![in alloc; one, other]?);
    let capacities = Sequence::from(vec![in alloc; limits.0]?);
    let stocks = Sequence::from(vec![in alloc; limits.1]?);
    Ok(Project::new(activities, capacities, stocks))
}

pub(crate) fn pair(
    rt: &impl Abort,
    alloc: Global,
    modes: (Numbers, Numbers),
    arc: bool,
    limits: (u32, u32),
) -> Project {
    let made = pair_of(alloc, modes, arc, limits);
    made.expect(rt, "no memory for a project")
        .expect(rt, "within the limits")
}

pub(crate) fn use_at(time: u32, price: u32) -> Price {
    let row = PricedRow::Use { resource: 0, time };
    Price { row, price }
}

pub(crate) fn arc_at(before: usize, after: usize, time: u32, price: u32) -> Price {
    let row = PricedRow::Before {
        before,
        after,
        time,
    };
    Price { row, price }
}

pub(crate) fn stock(price: u32) -> Price {
    let row = PricedRow::Stock { resource: 0 };
    Price { row, price }
}

pub(crate) fn refutes(
    rt: &impl Abort,
    alloc: Global,
    project: &Project,
    bound: u32,
    prices: &[Price],
) -> bool {
    match refute_by_prices(alloc, project, bound, prices) {
        Ok(answer) => answer,
        Err(_) => panic!(rt; "no memory for prices"),
    }
}
