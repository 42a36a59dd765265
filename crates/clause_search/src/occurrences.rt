//! Which clauses have which literal, and the literals of one clause as marks.
use clause_store::arena::{Arena, GONE};
use clause_store::trail::filled;
use std::alloc::{AllocError, Global};
use std::mem;

/// The literal of no flip: a clause that is subsumed as it is.
pub(crate) const NO_LITERAL: u32 = u32::MAX;

#[derive(Drop)]
pub(crate) struct Occurrences {
    /// By literal. A clause that is gone may still be listed.
    lists: Vec<Vec<u32>>,
    /// By literal: clauses that are not gone.
    counts: Vec<u32>,
    alloc: Global,
}

impl Occurrences {
    pub(crate) fn new(alloc: Global, literals: usize) -> Result<Occurrences, AllocError> {
        let mut lists = Vec::with_capacity(alloc, literals)?;
        for _ in 0..literals {
            lists.push(Vec::new(alloc))?;
        }
        Ok(Occurrences {
            lists,
            counts: filled(alloc, literals, 0)?,
            alloc,
        })
    }

    pub(crate) fn add(&mut self, literal: u32, clause: u32) -> Result<(), AllocError> {
        let at = literal as usize;
        if at < self.lists.len() && at < self.counts.len() {
            self.lists[at].push(clause)?;
            self.counts[at] = self.counts[at].saturating_add(1);
        }
        Ok(())
    }

    pub(crate) fn lessen(&mut self, literal: u32) {
        if let Some(count) = self.counts.get_mut(literal as usize) {
            *count = count.saturating_sub(1);
        }
    }

    pub(crate) fn count(&self, literal: u32) -> u32 {
        match self.counts.get(literal as usize) {
            Some(count) => *count,
            None => 0,
        }
    }

    /// The listed clauses of both literals of a variable.
    pub(crate) fn listed(&self, literal: u32) -> usize {
        let at = literal as usize;
        let other = (literal ^ 1) as usize;
        if at < self.lists.len() && other < self.lists.len() {
            self.lists[at].len().saturating_add(self.lists[other].len())
        } else {
            usize::MAX
        }
    }

    pub(crate) fn take(&mut self, literal: u32) -> Vec<u32> {
        let at = literal as usize;
        if at < self.lists.len() {
            mem::replace(&mut self.lists[at], Vec::new(self.alloc))
        } else {
            Vec::new(self.alloc)
        }
    }

    pub(crate) fn take_live(&mut self, arena: &Arena, literal: u32) -> Vec<u32> {
        let mut list = self.take(literal);
        list.retain(|clause| !arena.has(*clause, GONE));
        list
    }

    pub(crate) fn put(&mut self, literal: u32, list: Vec<u32>) {
        let at = literal as usize;
        if at < self.lists.len() {
            self.lists[at] = list;
        }
    }

    /// Lists a clause under a literal no more.
    pub(crate) fn strike(&mut self, literal: u32, clause: u32) {
        let mut list = self.take(literal);
        list.retain(|other| *other != clause);
        self.put(literal, list);
    }
}

/// The literals of one clause, by the last round in which they were marked.
#[derive(Drop)]
pub(crate) struct Marks {
    rounds: Vec<u32>,
    round: u32,
}

impl Marks {
    pub(crate) fn new(alloc: Global, literals: usize) -> Result<Marks, AllocError> {
        Ok(Marks {
            rounds: filled(alloc, literals, 0)?,
            round: 0,
        })
    }

    fn clear(&mut self) {
        for round in self.rounds.iter_mut() {
            *round = 0;
        }
        self.round = 0;
    }

    /// Marks the literals of a clause alone.
    pub(crate) fn begin(&mut self, literals: &[u32]) {
        if self.round == u32::MAX {
            self.clear();
        }
        self.round = self.round.saturating_add(1);
        for literal in literals {
            if let Some(round) = self.rounds.get_mut(*literal as usize) {
                *round = self.round;
            }
        }
    }

    #[inline(always)]
    pub(crate) fn has(&self, literal: u32) -> bool {
        match self.rounds.get(literal as usize) {
            Some(round) => *round == self.round,
            None => false,
        }
    }

    /// Whether a clause has all `size` marked literals, one of them perhaps negated. Returns that
    /// one, or `NO_LITERAL`.
    pub(crate) fn flip(&self, literals: &[u32], size: usize) -> Option<u32> {
        let mut met = 0usize;
        let mut flip = NO_LITERAL;
        for literal in literals {
            if self.has(*literal) {
                met = met.saturating_add(1);
            } else if self.has(*literal ^ 1) {
                if flip != NO_LITERAL {
                    return None;
                }
                flip = *literal;
                met = met.saturating_add(1);
            }
        }
        if met == size { Some(flip) } else { None }
    }
}
