//! What follows without a decision: the kernel learns it, and clauses are cleaned of it.
use crate::engine::Engine;
use clause_kernel::{Formula, Kernel};
use clause_store::arena::{Arena, GONE, HEAD, NO_CLAUSE, clause_at};
use clause_store::trail::{FALSE, TRUE, Trail};
use clause_store::watches::Watches;
use std::alloc::AllocError;

/// The literals of a clause that are not false, moved to its front; `None` if one is true.
fn open_literals(arena: &mut Arena, trail: &Trail, clause: u32) -> Option<usize> {
    let mut kept = 0usize;
    for place in 0..arena.size(clause) {
        let literal = arena.literal(clause, place);
        let value = trail.value(literal);
        if value == TRUE {
            return None;
        }
        if value != FALSE {
            arena.set_literal(clause, kept, literal);
            kept = kept.saturating_add(1);
        }
    }
    Some(kept)
}

fn drop_gone(arena: &Arena, list: &mut Vec<u32>) {
    list.retain(|clause| !arena.has(*clause, GONE));
}

/// Watches the clauses of two literals in a list, or the others.
fn attach_each(
    watches: &mut Watches,
    arena: &Arena,
    list: &[u32],
    is_binary: bool,
) -> Result<(), AllocError> {
    for clause in list {
        if (arena.size(*clause) == 2) == is_binary {
            watches.attach(arena, *clause)?;
        }
    }
    Ok(())
}

impl Engine {
    /// Derives each literal of level 0 by its reason.
    pub fn settle<F: Formula>(&mut self, kernel: &mut Kernel<F>) -> Result<(), AllocError> {
        for place in self.settled..self.trail.count() {
            let literal = self.trail.at(place);
            let reason = self.trail.reason(literal / 2);
            if reason != NO_CLAUSE {
                let number = self.arena.number(reason);
                self.derive(kernel, &[literal], &[number])?;
            }
        }
        self.settled = self.settled.max(self.trail.count());
        Ok(())
    }

    /// Derives the empty clause from a conflict at level 0.
    pub fn refute<F: Formula>(
        &mut self,
        kernel: &mut Kernel<F>,
        conflict: u32,
    ) -> Result<(), AllocError> {
        self.settle(kernel)?;
        let number = self.arena.number(conflict);
        self.derive(kernel, &[], &[number])?;
        Ok(())
    }

    /// Makes a literal true that the kernel knows as a clause, at level 0.
    pub fn assign_settled(&mut self, literal: u32) {
        self.trail.assign(literal, NO_CLAUSE);
        self.settled = self.trail.count();
    }

    /// Derives a literal by the clause with this number, at level 0.
    pub fn assign_unit<F: Formula>(
        &mut self,
        kernel: &mut Kernel<F>,
        literal: u32,
        number: u32,
    ) -> Result<(), AllocError> {
        self.derive(kernel, &[literal], &[number])?;
        self.assign_settled(literal);
        Ok(())
    }

    /// Drops a clause with a true literal, and the false literals of others.
    fn clean_clause<F: Formula>(
        &mut self,
        kernel: &mut Kernel<F>,
        clause: u32,
    ) -> Result<(), AllocError> {
        let size = self.arena.size(clause);
        let Some(kept) = open_literals(&mut self.arena, &self.trail, clause) else {
            self.drop_clause(kernel, clause);
            return Ok(());
        };
        if kept >= size {
            return Ok(());
        }
        self.arena.waste(size - kept);
        self.arena.set_size(clause, kept);
        if kept > 1 {
            return Ok(());
        }
        let number = self.arena.number(clause);
        if kept == 0 {
            self.derive(kernel, &[], &[number])?;
            return Ok(());
        }
        let literal = self.arena.literal(clause, 0);
        self.assign_unit(kernel, literal, number)?;
        self.drop_clause(kernel, clause);
        Ok(())
    }

    fn clean_each<F: Formula>(&mut self, kernel: &mut Kernel<F>) -> Result<(), AllocError> {
        for place in 0..self.clauses.len() {
            let clause = clause_at(&self.clauses, place);
            if !self.arena.has(clause, GONE) {
                self.clean_clause(kernel, clause)?;
            }
        }
        for place in 0..self.learned.len() {
            let clause = clause_at(&self.learned, place);
            if !self.arena.has(clause, GONE) {
                self.clean_clause(kernel, clause)?;
            }
        }
        Ok(())
    }

    /// At level 0: cleans all clauses, until nothing more follows.
    pub fn clean<F: Formula>(&mut self, kernel: &mut Kernel<F>) -> Result<(), AllocError> {
        self.settle(kernel)?;
        for _ in 0..usize::MAX {
            let before = self.trail.count();
            self.clean_each(kernel)?;
            if self.trail.count() == before || self.is_done(kernel) {
                break;
            }
        }
        self.trail.finish();
        self.trail.forget_reasons();
        drop_gone(&self.arena, &mut self.learned);
        drop_gone(&self.arena, &mut self.clauses);
        self.cleaned = self.trail.count();
        Ok(())
    }

    /// Makes the watches anew, those of clauses of two literals first.
    pub fn watch_all(&mut self) -> Result<(), AllocError> {
        self.watches.clear();
        for is_binary in [true, false] {
            attach_each(&mut self.watches, &self.arena, &self.clauses, is_binary)?;
            attach_each(&mut self.watches, &self.arena, &self.learned, is_binary)?;
        }
        self.collect()
    }

    /// Goes back to level 0, cleans the clauses and watches them anew.
    pub fn tidy<F: Formula>(&mut self, kernel: &mut Kernel<F>) -> Result<(), AllocError> {
        self.backtrack(0)?;
        let conflict = self.propagate()?;
        if conflict != NO_CLAUSE {
            return self.refute(kernel, conflict);
        }
        self.clean(kernel)?;
        if self.is_done(kernel) {
            return Ok(());
        }
        self.watch_all()?;
        self.queue.reset();
        Ok(())
    }
}
