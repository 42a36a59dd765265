//! Clauses that another one subsumes, and clauses that it shortens by a literal.
use crate::occurrences::NO_LITERAL;
use crate::simplifier::Simplifier;
use clause_engine::engine::Engine;
use clause_kernel::{Formula, Kernel};
use clause_store::arena::{Arena, GONE, QUEUED};
use std::alloc::AllocError;

/// Longer clauses are not tried.
const LONGEST: usize = 1000;

/// A hit is a clause that is subsumed, or that has the negation of one literal: `flip`.
#[derive(Clone, Copy)]
pub(crate) struct Hit {
    clause: u32,
    flip: u32,
}

impl Simplifier {
    /// The literal of a clause whose variable is in the fewest clauses.
    fn rarest(&self, literals: &[u32]) -> u32 {
        let mut best = 0;
        let mut least = usize::MAX;
        for literal in literals {
            let listed = self.occurrences.listed(*literal);
            if listed < least {
                least = listed;
                best = *literal;
            }
        }
        best
    }

    fn find_hits_at(&mut self, arena: &Arena, clause: u32, literal: u32) -> Result<(), AllocError> {
        let size = arena.size(clause);
        let signature = arena.signature(clause);
        let list = self.occurrences.take_live(arena, literal);
        for other in &list {
            if signature & !arena.signature(*other) != 0
                || *other == clause
                || arena.size(*other) < size
            {
                continue;
            }
            if let Some(flip) = self.marks.flip(arena.literals(*other), size) {
                self.hits.push(Hit {
                    clause: *other,
                    flip,
                })?;
            }
        }
        self.occurrences.put(literal, list);
        Ok(())
    }

    fn find_hits(&mut self, arena: &Arena, clause: u32) -> Result<(), AllocError> {
        self.marks.begin(arena.literals(clause));
        self.hits.clear();
        let best = self.rarest(arena.literals(clause));
        self.find_hits_at(arena, clause, best)?;
        self.find_hits_at(arena, clause, best ^ 1)
    }

    /// Takes the literal `hit.flip` out of a clause, by a resolution with `clause`.
    fn strengthen<F: Formula>(
        &mut self,
        engine: &mut Engine,
        kernel: &mut Kernel<F>,
        clause: u32,
        hit: Hit,
    ) -> Result<(), AllocError> {
        self.clause.clear();
        for literal in engine.arena.literals(hit.clause) {
            if *literal != hit.flip {
                self.clause.push(*literal)?;
            }
        }
        let (one, other) = (engine.arena.number(clause), engine.arena.number(hit.clause));
        let number = engine.derive(kernel, &self.clause, &[one, other])?;
        engine.forget(kernel, other);
        engine.arena.set_number(hit.clause, number);
        self.occurrences.strike(hit.flip, hit.clause);
        self.shorten(engine, kernel, hit.clause, hit.flip)
    }

    fn apply_hits<F: Formula>(
        &mut self,
        engine: &mut Engine,
        kernel: &mut Kernel<F>,
        clause: u32,
    ) -> Result<(), AllocError> {
        for place in 0..self.hits.len() {
            let Some(hit) = self.hits.get(place).copied() else {
                break;
            };
            if engine.is_done(kernel) || engine.arena.has(clause, GONE) {
                break;
            }
            if engine.trail.is_pending() {
                // Both clauses may have false literals now.
                return self.enqueue(engine, clause);
            }
            if engine.arena.has(hit.clause, GONE) {
                continue;
            }
            if hit.flip == NO_LITERAL {
                self.remove(engine, kernel, hit.clause)?;
            } else {
                self.strengthen(engine, kernel, clause, hit)?;
            }
        }
        Ok(())
    }

    /// Tries each clause of the queue on all others.
    pub(crate) fn subsume_all<F: Formula>(
        &mut self,
        engine: &mut Engine,
        kernel: &mut Kernel<F>,
    ) -> Result<(), AllocError> {
        for _ in 0..usize::MAX {
            self.drain(engine, kernel)?;
            if engine.is_done(kernel) {
                break;
            }
            let Some(clause) = self.queue.pop_front() else {
                break;
            };
            engine.arena.clear_flag(clause, QUEUED);
            if engine.arena.has(clause, GONE) || engine.arena.size(clause) > LONGEST {
                continue;
            }
            self.find_hits(&engine.arena, clause)?;
            self.apply_hits(engine, kernel, clause)?;
        }
        Ok(())
    }
}
