//! A point of the search: a list of the activities, a mode for each, and the schedule of both.
use crate::rows::{at, copy, put};
use crate::tables::ModeTables;
use std::alloc::{AllocError, Global};

#[derive(Drop)]
pub(crate) struct ListSchedule {
    pub(crate) order: Vec<u32>,
    /// The place of each activity in the list.
    pub(crate) places: Vec<u32>,
    pub(crate) modes: Vec<u32>,
    pub(crate) starts: Vec<u32>,
    pub(crate) finishes: Vec<u32>,
    pub(crate) consumed: Vec<u32>,
    pub(crate) makespan: u32,
}

impl ListSchedule {
    pub(crate) fn blank(alloc: Global, tables: &ModeTables) -> Result<ListSchedule, AllocError> {
        let size = tables.size as usize;
        Ok(ListSchedule {
            order: vec![in alloc; 0u32; size]?,
            places: vec![in alloc; 0u32; size]?,
            modes: vec![in alloc; 0u32; size]?,
            starts: vec![in alloc; 0u32; size]?,
            finishes: vec![in alloc; 0u32; size]?,
            consumed: vec![in alloc; 0u32; tables.kinds as usize]?,
            makespan: 0,
        })
    }

    pub(crate) fn copy(&mut self, other: &ListSchedule) {
        copy(&mut self.order, &other.order);
        copy(&mut self.places, &other.places);
        copy(&mut self.modes, &other.modes);
        copy(&mut self.starts, &other.starts);
        copy(&mut self.finishes, &other.finishes);
        copy(&mut self.consumed, &other.consumed);
        self.makespan = other.makespan;
    }

    pub(crate) fn copy_list(&mut self, other: &ListSchedule) {
        copy(&mut self.order, &other.order);
        copy(&mut self.places, &other.places);
    }

    #[inline]
    pub(crate) fn place(&mut self, place: u32, activity: u32) {
        put(&mut self.order, place, activity);
        put(&mut self.places, activity, place);
    }

    pub(crate) fn consume(&mut self, tables: &ModeTables, mode: u32) {
        for (consumed, amount) in self.consumed.iter_mut().zip(tables.consumption(mode)) {
            *consumed = consumed.wrapping_add(*amount);
        }
    }

    fn give_back(&mut self, tables: &ModeTables, mode: u32) {
        for (consumed, amount) in self.consumed.iter_mut().zip(tables.consumption(mode)) {
            *consumed = consumed.wrapping_sub(*amount);
        }
    }

    pub(crate) fn set_mode(&mut self, tables: &ModeTables, activity: u32, mode: u32) {
        let old = at(&self.modes, activity);
        self.consume(tables, mode);
        self.give_back(tables, old);
        put(&mut self.modes, activity, mode);
    }

    /// By how much the modes exceed all nonrenewable capacities together.
    pub(crate) fn excess(&self, tables: &ModeTables) -> u64 {
        let mut excess = 0u64;
        for (consumed, stock) in self.consumed.iter().zip(&tables.stocks) {
            excess = excess.wrapping_add(u64::from(consumed.saturating_sub(*stock)));
        }
        excess
    }

    /// Whether no nonrenewable resource is then exceeded more than it is.
    pub(crate) fn affords(&self, tables: &ModeTables, activity: u32, mode: u32) -> bool {
        let old = tables.consumption(at(&self.modes, activity));
        let new = tables.consumption(mode);
        for kind in 0..tables.kinds {
            let consumed = at(&self.consumed, kind);
            let after = consumed
                .wrapping_add(at(new, kind))
                .wrapping_sub(at(old, kind));
            if after > consumed && after > at(&tables.stocks, kind) {
                return false;
            }
        }
        true
    }

    #[inline]
    pub(crate) fn starts_as(&self, other: &ListSchedule, activity: u32) -> bool {
        at(&self.starts, activity) == at(&other.starts, activity)
    }

    #[inline]
    pub(crate) fn run(&mut self, tables: &ModeTables, activity: u32, start: u32) {
        let duration = at(&tables.durations, at(&self.modes, activity));
        put(&mut self.starts, activity, start);
        put(&mut self.finishes, activity, start.wrapping_add(duration));
    }

    #[inline]
    pub(crate) fn latest(&self, activities: &[u32]) -> u32 {
        let mut latest = 0;
        for activity in activities {
            latest = latest.max(at(&self.finishes, *activity));
        }
        latest
    }

    pub(crate) fn find_makespan(&mut self) {
        let mut latest = 0;
        for finish in &self.finishes {
            latest = latest.max(*finish);
        }
        self.makespan = latest;
    }
}
