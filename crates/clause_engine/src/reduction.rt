//! Which learned clauses are forgotten (Audemard and Simon 2009), and the arena without gaps.
use crate::engine::Engine;
use clause_kernel::{Formula, Kernel};
use clause_store::arena::{Arena, GONE, LEARNED, MOVED, NO_CLAUSE, REASON, clause_at, short};
use clause_store::queue::NO_VARIABLE;
use clause_store::trail::negated;
use std::alloc::AllocError;

/// The part of the candidates that a reduction keeps.
const KEPT: usize = 4;

/// Copies a clause to another arena, unless it was, and names its new place.
fn move_clause(arena: &mut Arena, fresh: &mut Arena, clause: u32) -> Result<(), AllocError> {
    if arena.has(clause, GONE | MOVED) {
        return Ok(());
    }
    let (glue, used) = (arena.glue(clause), arena.used(clause));
    let place = fresh.push(
        arena.literals(clause),
        arena.flags(clause),
        0,
        arena.number(clause),
    )?;
    fresh.set_glue(place, glue, used);
    arena.set_moved(clause, place);
    Ok(())
}

/// Copies the clauses of a list to another arena, and names their new places in the list.
fn move_list(arena: &mut Arena, fresh: &mut Arena, list: &mut [u32]) -> Result<(), AllocError> {
    for clause in list.iter_mut() {
        move_clause(arena, fresh, *clause)?;
        *clause = arena.place_of_moved(*clause);
    }
    Ok(())
}

impl Engine {
    fn mark_reasons(&mut self, is_reason: bool) {
        for place in 0..self.trail.count() {
            let reason = self.trail.reason(self.trail.at(place) / 2);
            if reason == NO_CLAUSE {
                continue;
            }
            if is_reason {
                self.arena.set_flag(reason, REASON);
            } else {
                self.arena.clear_flag(reason, REASON);
            }
        }
    }

    /// The place of a learned clause that may be forgotten, below a number that grows with glue and
    /// length.
    fn candidate(&mut self, place: usize, is_crowded: bool) -> Option<u64> {
        let clause = clause_at(&self.learned, place);
        let (glue, used) = (self.arena.glue(clause), self.arena.used(clause));
        let size = self.arena.size(clause);
        if used > 0 {
            self.arena.set_glue(clause, glue, used - 1);
        }
        if self.arena.has(clause, REASON | GONE) || size == 2 || glue <= 2 {
            return None;
        }
        if used > 0 && !is_crowded {
            return None;
        }
        let key = (glue.min(4095) as u64) << 20 | size.min(1_048_575) as u64;
        Some(key << 32 | short(place) as u64)
    }

    fn candidates(&mut self, is_crowded: bool) -> Result<Vec<u64>, AllocError> {
        let mut list = Vec::new(self.alloc);
        for place in 0..self.learned.len() {
            if let Some(candidate) = self.candidate(place, is_crowded) {
                list.push(candidate)?;
            }
        }
        list.sort_unstable();
        Ok(list)
    }

    /// Forgets three quarters of the learned clauses that are of many levels and were not used of
    /// late, or of all that are of many levels if room is short.
    pub fn reduce<F: Formula>(
        &mut self,
        kernel: &mut Kernel<F>,
        is_crowded: bool,
    ) -> Result<(), AllocError> {
        self.reductions = self.reductions.saturating_add(1);
        self.exchange.clear();
        self.mark_reasons(true);
        let candidates = self.candidates(is_crowded)?;
        for place in candidates.len() / KEPT..candidates.len() {
            let at = (candidates[place] % 4_294_967_296) as usize;
            let clause = clause_at(&self.learned, at);
            self.drop_clause(kernel, clause);
        }
        self.mark_reasons(false);
        let arena = &self.arena;
        self.learned.retain(|clause| !arena.has(*clause, GONE));
        self.watches.sweep(&self.arena);
        self.collect()
    }

    fn move_watchers(&mut self, fresh: &mut Arena, literal: u32) -> Result<(), AllocError> {
        for place in 0..self.watches.count(literal) {
            let clause = self.watches.clause(literal, place);
            move_clause(&mut self.arena, fresh, clause)?;
        }
        Ok(())
    }

    /// Moves clauses that are visited together to places near each other.
    fn move_watched(&mut self, fresh: &mut Arena) -> Result<(), AllocError> {
        let mut variable = self.queue.last();
        for _ in 0..self.variables {
            if variable == NO_VARIABLE {
                break;
            }
            let literal = self.trail.saved_literal(variable);
            self.move_watchers(fresh, negated(literal))?;
            self.move_watchers(fresh, literal)?;
            variable = self.queue.before(variable);
        }
        Ok(())
    }

    /// Moves all clauses to a new arena. No watch and no list names one that is gone.
    pub fn collect(&mut self) -> Result<(), AllocError> {
        let mut fresh = Arena::new(self.alloc, self.arena.most());
        self.move_watched(&mut fresh)?;
        move_list(&mut self.arena, &mut fresh, &mut self.clauses)?;
        move_list(&mut self.arena, &mut fresh, &mut self.learned)?;
        for place in 0..self.trail.count() {
            let variable = self.trail.at(place) / 2;
            let reason = self.trail.reason(variable);
            if reason != NO_CLAUSE {
                let is_there = self.arena.has(reason, MOVED);
                let place = self.arena.place_of_moved(reason);
                self.trail
                    .set_reason(variable, if is_there { place } else { NO_CLAUSE });
            }
        }
        self.watches.follow(&self.arena);
        self.arena = fresh;
        Ok(())
    }
}
