//! A table of jobs as a plain list, a model to compare `JobTable` with. Each call walks a `Vec`.
use job_table::Phase;
use std::alloc::Global;

/// A job without its search.
#[derive(Clone, Copy)]
pub(crate) struct Row {
    pub(crate) tenant: u32,
    pub(crate) seq: u64,
    pub(crate) phase: Phase,
    pub(crate) left: u64,
}

/// The waiting rows are in the order of their turns.
#[derive(Drop)]
pub(crate) struct PlainTable {
    rows: Vec<Row>,
}

fn place_of(rows: &[Row], tenant: u32, seq: u64) -> Option<usize> {
    for (at, row) in rows.iter().enumerate() {
        if row.tenant == tenant && row.seq == seq {
            return Some(at);
        }
    }
    None
}

fn move_last(rows: &mut [Row], at: usize) {
    let count = rows.len();
    for behind in 1..count {
        if at < behind {
            rows.swap(behind - 1, behind);
        }
    }
}

impl PlainTable {
    pub(crate) fn new(alloc: Global) -> PlainTable {
        PlainTable {
            rows: Vec::new(alloc),
        }
    }

    /// Returns `false` if the key is known, or without memory.
    pub(crate) fn insert(&mut self, row: Row) -> bool {
        place_of(&self.rows, row.tenant, row.seq).is_none() && self.rows.push(row).is_ok()
    }

    pub(crate) fn find(&self, tenant: u32, seq: u64) -> Option<Row> {
        let at = place_of(&self.rows, tenant, seq)?;
        let row = self.rows.get(at)?;
        Some(*row)
    }

    pub(crate) fn find_mut(&mut self, tenant: u32, seq: u64) -> Option<&mut u64> {
        let at = place_of(&self.rows, tenant, seq)?;
        let row = self.rows.get_mut(at)?;
        Some(&mut row.left)
    }

    /// A job that begins to wait goes to the end of the list.
    pub(crate) fn set_phase(&mut self, tenant: u32, seq: u64, phase: Phase) -> bool {
        let Some(at) = place_of(&self.rows, tenant, seq) else {
            return false;
        };
        let Some(row) = self.rows.get_mut(at) else {
            return false;
        };
        let begins = phase.is_waiting() && !row.phase.is_waiting();
        row.phase = phase;
        if begins {
            move_last(&mut self.rows, at);
        }
        true
    }

    pub(crate) fn remove(&mut self, tenant: u32, seq: u64) -> Option<Row> {
        let at = place_of(&self.rows, tenant, seq)?;
        if at < self.rows.len() {
            return Some(self.rows.remove(at));
        }
        None
    }

    pub(crate) fn count_of(&self, tenant: u32) -> usize {
        let mut count: usize = 0;
        for row in self.rows.iter() {
            if row.tenant == tenant {
                count = count.saturating_add(1);
            }
        }
        count
    }

    pub(crate) fn out_of(&self, tenant: u32) -> usize {
        let mut count: usize = 0;
        for row in self.rows.iter() {
            if row.tenant == tenant && row.phase.is_out() {
                count = count.saturating_add(1);
            }
        }
        count
    }

    pub(crate) fn waiting(&self, i: usize) -> Option<(u32, u64)> {
        let mut before: usize = 0;
        for row in self.rows.iter() {
            if row.phase.is_waiting() {
                if before == i {
                    return Some((row.tenant, row.seq));
                }
                before = before.saturating_add(1);
            }
        }
        None
    }

    pub(crate) fn first_waiting(&self) -> Option<(u32, u64)> {
        self.waiting(0)
    }
}
