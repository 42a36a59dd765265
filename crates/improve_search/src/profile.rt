//! What is left of the renewable resources in each period.
use crate::rows::{at, word_at};
use crate::tables::ModeTables;
use std::alloc::{AllocError, Global};

/// The places of a list between two saved profiles.
pub(crate) const STRIDE: u32 = 8;

/// How capacities are packed into a word: in fields of equal width, the highest bit of each its
/// guard.
#[derive(Clone, Copy)]
struct WordLayout {
    fields: u32,
    /// Two to the power of a field's width.
    base: u64,
}

/// Four fields of 16 bits, for capacities below 2^15.
const NARROW: WordLayout = WordLayout {
    fields: 4,
    base: 1 << 16,
};

/// Three fields of 21 bits, for capacities below 2^20.
const WIDE: WordLayout = WordLayout {
    fields: 3,
    base: 1 << 21,
};

impl WordLayout {
    fn of(capacities: &[u32]) -> WordLayout {
        if capacities.iter().all(|capacity| *capacity < 1 << 15) {
            NARROW
        } else {
            WIDE
        }
    }

    /// One amount for each field, from `from` on. An amount that is too large is cut.
    fn packed(self, amounts: &[u32], from: u32) -> u64 {
        let most = self.base / 2;
        let mut word = 0u64;
        for field in 0..self.fields {
            let place = from.wrapping_add(self.fields.wrapping_sub(field).wrapping_sub(1));
            let amount = u64::from(at(amounts, place)).min(most.wrapping_sub(1));
            word = word.wrapping_mul(self.base).wrapping_add(amount);
        }
        word
    }

    fn guards(self) -> u64 {
        let mut word = 0u64;
        for _ in 0..self.fields {
            word = word.wrapping_mul(self.base).wrapping_add(self.base / 2);
        }
        word
    }
}

/// What is left of the resources of one word in each period, now and at saved places of the list.
#[derive(Drop)]
struct WordUse {
    free: Vec<u64>,
    saved: Vec<u64>,
    requests: Vec<u64>,
    empty: u64,
    guards: u64,
}

fn packed_requests(
    alloc: Global,
    tables: &ModeTables,
    layout: WordLayout,
    from: u32,
) -> Result<Vec<u64>, AllocError> {
    let mut requests = Vec::new(alloc);
    let mut mode = 0u32;
    for _ in &tables.durations {
        requests.push(layout.packed(tables.request(mode), from))?;
        mode = mode.wrapping_add(1);
    }
    Ok(requests)
}

impl WordUse {
    fn new(
        alloc: Global,
        tables: &ModeTables,
        capacities: &[u32],
        layout: WordLayout,
        from: u32,
    ) -> Result<WordUse, AllocError> {
        let guards = layout.guards();
        let empty = layout.packed(capacities, from) | guards;
        let periods = (tables.horizon as usize).wrapping_add(1);
        let rows = ((tables.size / STRIDE) as usize).wrapping_add(1);
        Ok(WordUse {
            free: vec![in alloc; empty; periods]?,
            saved: vec![in alloc; empty; periods.wrapping_mul(rows)]?,
            requests: packed_requests(alloc, tables, layout, from)?,
            empty,
            guards,
        })
    }

    /// The earliest start from `from` on at which a mode fits for `duration` periods.
    #[inline]
    fn earliest(&self, mode: u32, duration: u32, from: u32) -> u32 {
        let begin = from as usize;
        if self.free.len() < begin {
            return from;
        }
        let request = word_at(&self.requests, mode);
        let mut next = from;
        let mut run = 0u32;
        for word in &self.free[begin..] {
            if run == duration {
                break;
            }
            next = next.wrapping_add(1);
            let fits = word.wrapping_sub(request) & self.guards == self.guards;
            run = if fits { run.wrapping_add(1) } else { 0 };
        }
        next.wrapping_sub(run)
    }

    #[inline]
    fn take(&mut self, mode: u32, start: u32, finish: u32) {
        let request = word_at(&self.requests, mode);
        let from = start as usize;
        let to = finish as usize;
        if from <= to && to <= self.free.len() {
            for word in &mut self.free[from..to] {
                *word = word.wrapping_sub(request);
            }
        }
    }

    fn clear(&mut self, periods: u32) {
        let to = periods as usize;
        if to <= self.free.len() {
            self.free[..to].fill(self.empty);
        }
    }

    #[inline]
    fn restore(&mut self, row: u32, periods: u32) {
        let from = self.free.len().wrapping_mul(row as usize);
        let count = periods as usize;
        let to = from.wrapping_add(count);
        if count <= self.free.len() && from <= to && to <= self.saved.len() {
            copy_words(&mut self.free[..count], &self.saved[from..to]);
        }
    }

    #[inline]
    fn save(&mut self, row: u32, periods: u32) {
        let from = self.free.len().wrapping_mul(row as usize);
        let count = periods as usize;
        let to = from.wrapping_add(count);
        if count <= self.free.len() && from <= to && to <= self.saved.len() {
            copy_words(&mut self.saved[from..to], &self.free[..count]);
        }
    }
}

#[inline]
fn copy_words(row: &mut [u64], from: &[u64]) {
    if row.len() == from.len() {
        row.copy_from_slice(from);
    }
}

#[derive(Drop)]
pub(crate) struct Profile {
    lanes: Vec<WordUse>,
    periods: u32,
}

impl Profile {
    pub(crate) fn new(
        alloc: Global,
        tables: &ModeTables,
        capacities: &[u32],
    ) -> Result<Profile, AllocError> {
        let layout = WordLayout::of(capacities);
        let mut lanes = Vec::new(alloc);
        for lane in 0..3u32 {
            let from = lane.wrapping_mul(layout.fields);
            if from < tables.renewables {
                lanes.push(WordUse::new(alloc, tables, capacities, layout, from)?)?;
            }
        }
        Ok(Profile {
            lanes,
            periods: tables.horizon,
        })
    }

    /// Each lane in turn puts the mode off.
    #[inline]
    fn put_off(&self, mode: u32, duration: u32, from: u32) -> u32 {
        let mut start = from;
        for lane in &self.lanes {
            start = lane.earliest(mode, duration, start);
        }
        start
    }

    #[inline]
    pub(crate) fn earliest(&self, mode: u32, duration: u32, from: u32) -> u32 {
        let mut start = from;
        for _ in 0..self.periods {
            let next = self.put_off(mode, duration, start);
            if next == start || self.lanes.len() == 1 {
                return next;
            }
            start = next;
        }
        start
    }

    #[inline]
    pub(crate) fn take(&mut self, mode: u32, start: u32, finish: u32) {
        for lane in &mut self.lanes {
            lane.take(mode, start, finish);
        }
    }

    pub(crate) fn clear(&mut self, periods: u32) {
        for lane in &mut self.lanes {
            lane.clear(periods);
        }
    }

    pub(crate) fn restore(&mut self, row: u32, periods: u32) {
        for lane in &mut self.lanes {
            lane.restore(row, periods);
        }
    }

    pub(crate) fn save(&mut self, row: u32, periods: u32) {
        for lane in &mut self.lanes {
            lane.save(row, periods);
        }
    }
}
