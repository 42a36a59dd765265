//! The arcs of the precedence relation, from either end, by the places of activities.
use crate::rows::{at, part};
use mrcpsp::Activity;
use std::alloc::{AllocError, Global};

#[derive(Drop)]
pub(crate) struct Arcs {
    first: Vec<u32>,
    ends: Vec<u32>,
}

impl Arcs {
    fn none(alloc: Global) -> Result<Arcs, AllocError> {
        Ok(Arcs {
            first: vec![in alloc; 0u32]?,
            ends: Vec::new(alloc),
        })
    }

    fn end(&mut self) -> Result<(), AllocError> {
        let count = self.ends.len();
        if count <= u32::MAX as usize {
            self.first.push(count as u32)?;
        }
        Ok(())
    }

    #[inline]
    pub(crate) fn of(&self, activity: u32) -> &[u32] {
        let from = at(&self.first, activity);
        let to = at(&self.first, activity.wrapping_add(1));
        part(&self.ends, from, to)
    }
}

fn push_successors(arcs: &mut Arcs, activity: &Activity) -> Result<(), AllocError> {
    for successor in activity.successors.as_slice() {
        arcs.ends.push(successor.saturating_sub(1))?;
    }
    arcs.end()
}

pub(crate) fn successors(alloc: Global, activities: &[Activity]) -> Result<Arcs, AllocError> {
    let mut arcs = Arcs::none(alloc)?;
    for activity in activities {
        push_successors(&mut arcs, activity)?;
    }
    Ok(arcs)
}

fn push_predecessors(
    arcs: &mut Arcs,
    activities: &[Activity],
    number: u32,
) -> Result<(), AllocError> {
    let mut place = 0u32;
    for activity in activities {
        if activity.successors.as_slice().contains(&number) {
            arcs.ends.push(place)?;
        }
        place = place.wrapping_add(1);
    }
    arcs.end()
}

pub(crate) fn predecessors(alloc: Global, activities: &[Activity]) -> Result<Arcs, AllocError> {
    let mut arcs = Arcs::none(alloc)?;
    let mut number = 0u32;
    for _ in activities {
        number = number.wrapping_add(1);
        push_predecessors(&mut arcs, activities, number)?;
    }
    Ok(arcs)
}
