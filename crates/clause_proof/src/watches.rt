//! Which clauses watch which literal.
use std::alloc::{AllocError, Global};
use std::mem;

#[derive(Clone, Copy)]
pub(crate) struct Watcher {
    /// 2 · the place of the clause's first literal, and 1 more if the clause has two literals.
    pub(crate) code: u32,
    /// Another literal of the clause.
    pub(crate) blocker: u32,
}

/// For each literal the watchers of the core, and right behind them in memory the others.
#[derive(Drop)]
pub(crate) struct WatchLists {
    lists: Vec<Vec<Watcher>>,
}

fn place_of(literal: u32, is_core: bool) -> usize {
    2 * literal as usize + !is_core as usize
}

impl WatchLists {
    pub(crate) fn new(alloc: Global, size: usize) -> Result<WatchLists, AllocError> {
        let places = size.saturating_mul(2);
        let mut lists = Vec::with_capacity(alloc, places)?;
        for _ in 0..places {
            lists.push(Vec::new(alloc))?;
        }
        Ok(WatchLists { lists })
    }

    pub(crate) fn add(
        &mut self,
        literal: u32,
        watch: Watcher,
        is_core: bool,
    ) -> Result<(), AllocError> {
        let at = place_of(literal, is_core);
        if at < self.lists.len() {
            self.lists[at].push(watch)?;
        }
        Ok(())
    }

    pub(crate) fn take(
        &mut self,
        alloc: Global,
        literal: u32,
        is_core: bool,
    ) -> Option<Vec<Watcher>> {
        let at = place_of(literal, is_core);
        if at < self.lists.len() && !self.lists[at].is_empty() {
            Some(mem::replace(&mut self.lists[at], Vec::new(alloc)))
        } else {
            None
        }
    }

    pub(crate) fn put(&mut self, literal: u32, list: Vec<Watcher>, is_core: bool) {
        let at = place_of(literal, is_core);
        if at < self.lists.len() {
            self.lists[at] = list;
        }
    }

    pub(crate) fn clear(&mut self) {
        for at in 0..self.lists.len() {
            self.lists[at].clear();
        }
    }
}
