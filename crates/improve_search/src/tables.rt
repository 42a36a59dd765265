//! The numbers of a project, in rows by activities and by useful modes.
use crate::arcs::{Arcs, predecessors, successors};
use crate::modes::is_useful;
use crate::rows::{at, part, put};
use mrcpsp::{Activity, Mode, Project};
use std::alloc::{AllocError, Global};

/// Useful modes are numbered through all activities, from 0.
#[derive(Drop)]
pub(crate) struct ModeTables {
    pub(crate) size: u32,
    /// How many nonrenewable resources there are.
    pub(crate) kinds: u32,
    pub(crate) renewables: u32,
    /// The first useful mode of each activity, and behind the last one how many there are.
    pub(crate) first_mode: Vec<u32>,
    /// The number of each mode in its activity, from 1.
    pub(crate) numbers: Vec<u32>,
    pub(crate) durations: Vec<u32>,
    /// What each mode uses of each renewable resource, mode after mode.
    pub(crate) requests: Vec<u32>,
    pub(crate) consumptions: Vec<u32>,
    pub(crate) stocks: Vec<u32>,
    /// The activities that have a choice of modes.
    pub(crate) choosers: Vec<u32>,
    pub(crate) before: Arcs,
    pub(crate) after: Arcs,
    /// The longest chain from each activity on, itself included, by shortest durations.
    pub(crate) tails: Vec<u32>,
    pub(crate) longest_chain: u32,
    pub(crate) horizon: u32,
}

fn blank(alloc: Global, project: &Project) -> Result<ModeTables, AllocError> {
    let activities = project.activities();
    Ok(ModeTables {
        size: 0,
        kinds: project.nonrenewables() as u32,
        renewables: project.renewables() as u32,
        first_mode: vec![in alloc; 0u32]?,
        numbers: Vec::new(alloc),
        durations: Vec::new(alloc),
        requests: Vec::new(alloc),
        consumptions: Vec::new(alloc),
        stocks: Vec::from_slice(alloc, project.nonrenewable())?,
        choosers: Vec::new(alloc),
        before: predecessors(alloc, activities)?,
        after: successors(alloc, activities)?,
        tails: vec![in alloc; 0u32; activities.len()]?,
        longest_chain: 0,
        horizon: project.horizon(),
    })
}

fn push_all(row: &mut Vec<u32>, numbers: &[u32]) -> Result<(), AllocError> {
    for number in numbers {
        row.push(*number)?;
    }
    Ok(())
}

impl ModeTables {
    fn push_mode(&mut self, number: u32, mode: &Mode) -> Result<(), AllocError> {
        self.numbers.push(number)?;
        self.durations.push(mode.duration)?;
        push_all(&mut self.requests, mode.renewable.as_slice())?;
        push_all(&mut self.consumptions, mode.nonrenewable.as_slice())
    }

    /// Adds the useful modes of an activity, and returns how many they are.
    fn push_modes(&mut self, activity: &Activity, capacities: &[u32]) -> Result<u32, AllocError> {
        let mut number = 0u32;
        let mut count = 0u32;
        for (place, mode) in activity.modes.as_slice().iter().enumerate() {
            number = number.wrapping_add(1);
            if is_useful(place, mode, activity, capacities) {
                self.push_mode(number, mode)?;
                count = count.wrapping_add(1);
            }
        }
        Ok(count)
    }

    /// Returns whether the activity has a useful mode.
    fn push_activity(
        &mut self,
        activity: &Activity,
        capacities: &[u32],
    ) -> Result<bool, AllocError> {
        let count = self.push_modes(activity, capacities)?;
        let first = at(&self.first_mode, self.size);
        self.first_mode.push(first.wrapping_add(count))?;
        if count > 1 {
            self.choosers.push(self.size)?;
        }
        self.size = self.size.wrapping_add(1);
        Ok(count > 0)
    }

    /// The first of an activity's modes, and the first one behind them.
    #[inline]
    pub(crate) fn modes_of(&self, activity: u32) -> (u32, u32) {
        let first = at(&self.first_mode, activity);
        let end = at(&self.first_mode, activity.wrapping_add(1));
        (first, end)
    }

    #[inline]
    pub(crate) fn mode_count(&self, activity: u32) -> u32 {
        let (first, end) = self.modes_of(activity);
        end.saturating_sub(first)
    }

    #[inline]
    pub(crate) fn consumption(&self, mode: u32) -> &[u32] {
        let from = mode.wrapping_mul(self.kinds);
        part(&self.consumptions, from, from.wrapping_add(self.kinds))
    }

    pub(crate) fn request(&self, mode: u32) -> &[u32] {
        let from = mode.wrapping_mul(self.renewables);
        part(&self.requests, from, from.wrapping_add(self.renewables))
    }

    fn most_consumed(&self, activity: u32, kind: u32) -> u32 {
        let (first, end) = self.modes_of(activity);
        let mut most = 0;
        for mode in first..end {
            most = most.max(at(self.consumption(mode), kind));
        }
        most
    }

    fn is_ample(&self, kind: u32) -> bool {
        let mut most = 0u64;
        for activity in 0..self.size {
            most = most.wrapping_add(u64::from(self.most_consumed(activity, kind)));
        }
        most <= u64::from(at(&self.stocks, kind))
    }

    pub(crate) fn has_ample_stocks(&self) -> bool {
        (0..self.kinds).all(|kind| self.is_ample(kind))
    }

    fn shortest(&self, activity: u32) -> u32 {
        let (first, end) = self.modes_of(activity);
        part(&self.durations, first, end)
            .iter()
            .copied()
            .min()
            .unwrap_or(0)
    }

    /// The chains of the successors are known.
    fn chain_behind(&self, activity: u32) -> u32 {
        let mut longest = 0;
        for successor in self.after.of(activity) {
            longest = longest.max(at(&self.tails, *successor));
        }
        longest
    }

    fn find_tails(&mut self) {
        for activity in (0..self.size).rev() {
            let tail = self
                .shortest(activity)
                .wrapping_add(self.chain_behind(activity));
            put(&mut self.tails, activity, tail);
            self.longest_chain = self.longest_chain.max(tail);
        }
    }
}

/// `None` if an activity has no mode that may run.
pub(crate) fn tables_of(
    alloc: Global,
    project: &Project,
) -> Result<Option<ModeTables>, AllocError> {
    let mut tables = blank(alloc, project)?;
    for activity in project.activities() {
        if !tables.push_activity(activity, project.renewable())? {
            return Ok(None);
        }
    }
    tables.find_tails();
    Ok(Some(tables))
}
