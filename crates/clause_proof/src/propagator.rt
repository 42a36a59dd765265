//! Unit propagation over two watched literals (Moskewicz, Madigan, Zhao, Zhang and Malik 2001),
//! clauses of the core first (Wetzler, Heule and Hunt 2014). No proof rests on what it finds.
use crate::assignment::Assignment;
use crate::clause_list::{
    ClauseEntry, ClauseState, LiteralSpan, NO_CLAUSE, NO_LITERAL, NumberedClauses,
};
use crate::watches::{WatchLists, Watcher};
use clause_kernel::negated;
use std::alloc::{AllocError, Global};

/// The greatest place of a clause that is watched, so that a watch's code fits.
const MOST_PLACE: usize = 2_000_000_000;

#[derive(Clone, Copy)]
enum ClauseVisit {
    Stays { blocker: u32 },
    Gone,
    Conflict { clause: u32 },
}

#[derive(Clone, Copy)]
enum Look {
    IsTrue(u32),
    /// `literal`, which is not false, is watched from now on.
    Moves { literal: u32, other: u32 },
    /// All literals but this one are false.
    Forces(u32),
}

/// The two watched literals of a clause come first in it.
#[derive(Drop)]
pub(crate) struct Propagator {
    alloc: Global,
    pub(crate) clauses: NumberedClauses,
    pub(crate) assignment: Assignment,
    watches: WatchLists,
}

impl Propagator {
    pub(crate) fn new(alloc: Global, size: usize) -> Result<Propagator, AllocError> {
        Ok(Propagator {
            alloc,
            clauses: NumberedClauses::new(alloc),
            assignment: Assignment::new(alloc, size)?,
            watches: WatchLists::new(alloc, size)?,
        })
    }

    pub(crate) fn push(&mut self, clause: &[u32]) -> Result<u32, AllocError> {
        let number = self.clauses.count();
        self.clauses.push(clause)?;
        Ok(number)
    }

    /// The first place from `from` on whose literal is not false and not `other`.
    fn open_place(&self, from: usize, end: usize, other: u32) -> Option<usize> {
        for place in from..end {
            let literal = self.clauses.literal(place);
            if literal != other && !self.assignment.is_false(literal) {
                return Some(place);
            }
        }
        None
    }

    /// Lets a clause watch two literals that are not false, or makes the only such literal true.
    /// Returns whether all its literals are false.
    pub(crate) fn attach(&mut self, clause: u32) -> Result<bool, AllocError> {
        let LiteralSpan { start, end } = self.clauses.span(clause);
        if end <= start {
            return Ok(true);
        }
        let Some(place) = self.open_place(start, end, NO_LITERAL) else {
            return Ok(true);
        };
        self.clauses.swap(start, place);
        let first = self.clauses.literal(start);
        let Some(place) = self.open_place(start + 1, end, first) else {
            if !self.assignment.is_true(first) {
                self.assignment.assign(first, clause)?;
            }
            return Ok(false);
        };
        self.clauses.swap(start + 1, place);
        self.clauses.set_state(clause, ClauseState::Watched);
        self.watch(clause)?;
        Ok(false)
    }

    pub(crate) fn watch(&mut self, clause: u32) -> Result<(), AllocError> {
        let LiteralSpan { start, end } = self.clauses.span(clause);
        if end < 2 || end - 2 < start || MOST_PLACE < start {
            return Ok(());
        }
        let (one, other) = (self.clauses.literal(start), self.clauses.literal(start + 1));
        let code = 2 * start as u32 + (end - start == 2) as u32;
        let blocker = other;
        self.watches.add(one, Watcher { code, blocker }, false)?;
        let blocker = one;
        self.watches.add(other, Watcher { code, blocker }, false)
    }

    /// Watches only clauses that take part and are not of the core.
    pub(crate) fn watch_all(&mut self) -> Result<(), AllocError> {
        self.watches.clear();
        for clause in 0..self.clauses.count() {
            if self.clauses.state(clause) == ClauseState::Watched {
                self.watch(clause)?;
            }
        }
        Ok(())
    }

    /// The clause has three or more literals, and watches `falsified`.
    fn look(&mut self, span: LiteralSpan, falsified: u32) -> Look {
        let LiteralSpan { start, end } = span;
        if end < 2 || end - 2 < start {
            return Look::IsTrue(NO_LITERAL);
        }
        if self.clauses.literal(start) == falsified {
            self.clauses.swap(start, start + 1);
        }
        let other = self.clauses.literal(start);
        if self.assignment.is_true(other) {
            return Look::IsTrue(other);
        }
        match self.open_place(start + 2, end, NO_LITERAL) {
            None => Look::Forces(other),
            Some(place) => {
                let literal = self.clauses.literal(place);
                self.clauses.swap(start + 1, place);
                Look::Moves { literal, other }
            }
        }
    }

    /// The watch goes to those of the core if the clause is of it by now.
    fn keep(
        &mut self,
        watch: Watcher,
        falsified: u32,
        moves_to_core: bool,
    ) -> Result<ClauseVisit, AllocError> {
        if !moves_to_core {
            return Ok(ClauseVisit::Stays {
                blocker: watch.blocker,
            });
        }
        self.watches.add(falsified, watch, true)?;
        Ok(ClauseVisit::Gone)
    }

    /// The clause watches `falsified`, and its blocker is not true.
    fn visit(
        &mut self,
        watch: Watcher,
        falsified: u32,
        is_core: bool,
    ) -> Result<ClauseVisit, AllocError> {
        let Watcher { code, blocker } = watch;
        let ClauseEntry {
            clause,
            state,
            span,
        } = self.clauses.entry((code / 2) as usize);
        if state == ClauseState::Idle || state == ClauseState::Deleted {
            return Ok(ClauseVisit::Gone);
        }
        let moves_to_core = !is_core && state == ClauseState::Core;
        let look = if code % 2 == 1 {
            Look::Forces(blocker)
        } else {
            self.look(span, falsified)
        };
        match look {
            Look::IsTrue(blocker) => self.keep(Watcher { code, blocker }, falsified, moves_to_core),
            Look::Moves { literal, other } => {
                let blocker = other;
                self.watches.add(
                    literal,
                    Watcher { code, blocker },
                    state == ClauseState::Core,
                )?;
                Ok(ClauseVisit::Gone)
            }
            Look::Forces(blocker) => {
                if self.assignment.is_false(blocker) {
                    return Ok(ClauseVisit::Conflict { clause });
                }
                self.assignment.assign(blocker, clause)?;
                self.keep(Watcher { code, blocker }, falsified, moves_to_core)
            }
        }
    }

    /// Returns a clause of which all literals are false, or `NO_CLAUSE`.
    fn visit_all(
        &mut self,
        list: &mut Vec<Watcher>,
        falsified: u32,
        is_core: bool,
    ) -> Result<u32, AllocError> {
        let mut kept = 0;
        let mut conflict = NO_CLAUSE;
        for place in 0..list.len() {
            let watch = list[place];
            let mut blocker = watch.blocker;
            if conflict == NO_CLAUSE && !self.assignment.is_true(blocker) {
                match self.visit(watch, falsified, is_core)? {
                    ClauseVisit::Gone => continue,
                    ClauseVisit::Stays { blocker: other } => blocker = other,
                    ClauseVisit::Conflict { clause } => conflict = clause,
                }
            }
            list[kept] = Watcher {
                code: watch.code,
                blocker,
            };
            kept += 1;
        }
        list.truncate(kept);
        Ok(conflict)
    }

    fn falsify(&mut self, literal: u32, is_core: bool) -> Result<u32, AllocError> {
        let falsified = negated(literal);
        let Some(list) = self.watches.take(self.alloc, falsified, is_core) else {
            return Ok(NO_CLAUSE);
        };
        let mut list = list;
        let conflict = self.visit_all(&mut list, falsified, is_core)?;
        self.watches.put(falsified, list, is_core);
        Ok(conflict)
    }

    /// Propagates the true literals from place `from` on, through the core as long as that goes on.
    /// Returns a clause of which all literals are false, or `NO_CLAUSE`.
    pub(crate) fn propagate(&mut self, from: usize) -> Result<u32, AllocError> {
        let (mut next_core, mut next_other) = (from, from);
        for _ in 0..usize::MAX {
            let mut is_core = true;
            let mut next = self.assignment.assigned(next_core);
            if next.is_some() {
                next_core = next_core.saturating_add(1);
            } else {
                is_core = false;
                next = self.assignment.assigned(next_other);
                next_other = next_other.saturating_add(1);
            }
            let Some(literal) = next else {
                break;
            };
            let conflict = self.falsify(literal, is_core)?;
            if conflict != NO_CLAUSE {
                return Ok(conflict);
            }
        }
        Ok(NO_CLAUSE)
    }
}
