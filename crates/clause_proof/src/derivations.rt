//! The hints of a clause: the reasons of a propagation, collected backwards from its conflict.
use crate::clause_list::{ClauseState, NO_CLAUSE};
use crate::propagator::Propagator;
use clause_kernel::negated;
use std::alloc::{AllocError, Global};

#[derive(Drop)]
pub(crate) struct Derivations {
    pub(crate) propagator: Propagator,
    /// The clauses by which the last clause follows, the last one first.
    pub(crate) hints: Vec<u32>,
    /// True literals on which a conflict rests, and whose reasons are not hints yet.
    seen: Vec<bool>,
}

impl Derivations {
    pub(crate) fn new(alloc: Global, size: usize) -> Result<Derivations, AllocError> {
        let mut seen = Vec::with_capacity(alloc, size)?;
        seen.resize(size, false)?;
        Ok(Derivations {
            propagator: Propagator::new(alloc, size)?,
            hints: Vec::new(alloc),
            seen,
        })
    }

    fn is_seen(&self, literal: u32) -> bool {
        match self.seen.get(literal as usize) {
            Some(seen) => *seen,
            None => false,
        }
    }

    fn set_seen(&mut self, literal: u32, seen: bool) {
        let at = literal as usize;
        if at < self.seen.len() {
            self.seen[at] = seen;
        }
    }

    /// The hint is of the core from now on, and its false literals are seen.
    fn push_hint(&mut self, clause: u32, implied: u32) -> Result<(), AllocError> {
        self.hints.push(clause)?;
        let clauses = &mut self.propagator.clauses;
        if clauses.state(clause) == ClauseState::Watched {
            clauses.set_state(clause, ClauseState::Core);
        }
        let span = clauses.span(clause);
        for place in span.start..span.end {
            let literal = self.propagator.clauses.literal(place);
            if literal != implied {
                self.set_seen(negated(literal), true);
            }
        }
        Ok(())
    }

    /// Adds the reasons of the seen literals that were assigned behind the first `root`.
    fn push_reasons(&mut self, root: usize) -> Result<(), AllocError> {
        let count = self.propagator.assignment.count();
        for back in root..count {
            let Some(literal) = self
                .propagator
                .assignment
                .assigned(count - 1 - (back - root))
            else {
                continue;
            };
            if self.is_seen(literal) {
                self.set_seen(literal, false);
                let reason = self.propagator.assignment.reason(literal);
                if reason != NO_CLAUSE {
                    self.push_hint(reason, literal)?;
                }
            }
        }
        Ok(())
    }

    /// Adds the unit clauses of a hint's literals that are still seen.
    fn push_units(&mut self, hint: u32) -> Result<(), AllocError> {
        let span = self.propagator.clauses.span(hint);
        for place in span.start..span.end {
            let literal = negated(self.propagator.clauses.literal(place));
            if self.is_seen(literal) {
                self.set_seen(literal, false);
                self.hints.push(self.propagator.assignment.reason(literal))?;
            }
        }
        Ok(())
    }

    /// The literals of a clause were assumed false, and `conflict` came of it.
    fn explain(&mut self, conflict: u32, root: usize) -> Result<(), AllocError> {
        self.push_hint(conflict, u32::MAX)?;
        self.push_reasons(root)?;
        for at in 0..self.hints.len() {
            if at < self.hints.len() {
                let hint = self.hints[at];
                self.push_units(hint)?;
            }
        }
        Ok(())
    }

    /// Assumes the literals of `clause` false. Returns whether one is true; its reason is then the
    /// hint.
    fn assume(&mut self, clause: u32) -> Result<bool, AllocError> {
        let span = self.propagator.clauses.span(clause);
        for place in span.start..span.end {
            let literal = self.propagator.clauses.literal(place);
            let assignment = &mut self.propagator.assignment;
            if assignment.is_true(literal) {
                self.hints.push(assignment.reason(literal))?;
                return Ok(true);
            }
            if !assignment.is_false(literal) {
                assignment.assign(negated(literal), NO_CLAUSE)?;
            }
        }
        Ok(false)
    }

    /// Returns whether a clause follows: from `conflict`, whose other literals are false, or by
    /// propagation.
    pub(crate) fn derive(&mut self, clause: u32, conflict: u32) -> Result<bool, AllocError> {
        self.hints.clear();
        let root = self.propagator.assignment.count();
        let mut follows = self.assume(clause)?;
        if !follows {
            let mut conflict = conflict;
            if conflict == NO_CLAUSE {
                conflict = self.propagator.propagate(root)?;
            }
            if conflict != NO_CLAUSE {
                self.explain(conflict, root)?;
                follows = true;
            }
        }
        self.propagator.assignment.undo(root);
        Ok(follows)
    }
}
