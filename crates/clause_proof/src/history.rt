//! The steps of a proof, read from the first to the last, and taken back again.
ghost use Rattle.std.specs.Prelude.{◌≤◌, length};

use crate::clause_list::{ClauseState, NO_CLAUSE};
use crate::derivations::Derivations;
use crate::fault::ProofFault;
use crate::index::{ClauseIndex, signature};
use crate::reader::{Reader, Step};
use clause_kernel::ClauseList;
use std::alloc::{AllocError, Global};

/// A literal that is true by the clauses alone: its unit clause, and the clause that makes it unit.
#[derive(Clone, Copy)]
struct Root {
    unit: u32,
    reason: u32,
    /// How many literals were true before it.
    before: usize,
}

/// A deleted clause, and how many clauses there were then.
#[derive(Clone, Copy)]
struct Deletion {
    clause: u32,
    count: u32,
}

/// What was added and deleted, up to a conflict of the clauses alone.
#[derive(Drop)]
pub(crate) struct History {
    alloc: Global,
    derivations: Derivations,
    index: ClauseIndex,
    roots: Vec<Root>,
    deletions: Vec<Deletion>,
    /// How many clauses there were before the first step.
    originals: u32,
    /// A clause of which all literals are false by the clauses alone.
    conflict: u32,
}

impl History {
    pub(crate) fn new(
        alloc: Global,
        clauses: &ClauseList,
        originals: usize,
        size: usize,
    ) -> Result<History, AllocError>
        requires { originals ≤ length clauses.now }
    {
        let chains = 2 * originals.min(1_000_000_000) + 1;
        let mut history = History {
            alloc,
            derivations: Derivations::new(alloc, size)?,
            index: ClauseIndex::new(alloc, chains)?,
            roots: Vec::new(alloc),
            deletions: Vec::new(alloc),
            originals: 0,
            conflict: NO_CLAUSE,
        };
        for number in 0..originals {
            history.push(clauses.get(number))?;
        }
        history.originals = history.count();
        history.attach_all()?;
        history.settle(0)?;
        Ok(history)
    }

    pub(crate) fn count(&self) -> u32 {
        self.derivations.propagator.clauses.count()
    }

    pub(crate) fn originals(&self) -> u32 {
        self.originals
    }

    pub(crate) fn clause(&self, clause: u32) -> &[u32] {
        self.derivations.propagator.clauses.literals(clause)
    }

    /// The clauses by which the clause follows that was taken back last, the last one first.
    pub(crate) fn hints(&self) -> &[u32] {
        &self.derivations.hints
    }

    fn push(&mut self, clause: &[u32]) -> Result<u32, AllocError> {
        self.index.add(signature(clause))?;
        self.derivations.propagator.push(clause)
    }

    fn attach_all(&mut self) -> Result<(), AllocError> {
        let propagator = &mut self.derivations.propagator;
        for clause in 0..propagator.clauses.count() {
            if propagator.attach(clause)? {
                self.conflict = clause;
                return Ok(());
            }
        }
        self.conflict = propagator.propagate(0)?;
        Ok(())
    }

    /// Adds a unit clause for each literal behind the first `from` that is true by the clauses
    /// alone. At a conflict the empty clause is next.
    fn settle(&mut self, from: usize) -> Result<(), AllocError> {
        for before in from..self.derivations.propagator.assignment.count() {
            self.settle_one(before)?;
        }
        if self.conflict != NO_CLAUSE {
            let unit = self.count();
            let before = self.derivations.propagator.assignment.count();
            self.roots.push(Root {
                unit,
                reason: self.conflict,
                before,
            })?;
        }
        Ok(())
    }

    fn settle_one(&mut self, before: usize) -> Result<(), AllocError> {
        let Some(literal) = self.derivations.propagator.assignment.assigned(before) else {
            return Ok(());
        };
        let reason = self.derivations.propagator.assignment.reason(literal);
        let span = self.derivations.propagator.clauses.span(reason);
        let is_unit = span.end.saturating_sub(span.start) == 1;
        if is_unit && reason < self.originals {
            return Ok(());
        }
        let unit = if is_unit {
            reason
        } else {
            self.push(&[literal])?
        };
        let reason = if is_unit { NO_CLAUSE } else { reason };
        self.derivations
            .propagator
            .assignment
            .set_reason(literal, unit);
        self.roots.push(Root {
            unit,
            reason,
            before,
        })?;
        Ok(())
    }

    /// Returns whether the clause follows, or was not checked.
    fn add(&mut self, clause: &[u32], is_checked: bool) -> Result<bool, AllocError> {
        let number = self.push(clause)?;
        if is_checked && !self.derivations.derive(number, NO_CLAUSE)? {
            return Ok(false);
        }
        let propagator = &mut self.derivations.propagator;
        let from = propagator.assignment.count();
        self.conflict = if propagator.attach(number)? {
            number
        } else {
            propagator.propagate(from)?
        };
        self.settle(from)?;
        Ok(true)
    }

    fn delete(&mut self, clause: &[u32]) -> Result<(), AllocError> {
        if let Some(at) = self.index.remove(signature(clause))
            && let Ok(number) = u32::try_from(at)
            && self.derivations.propagator.clauses.state(number) != ClauseState::Idle
        {
            let clauses = &mut self.derivations.propagator.clauses;
            clauses.set_state(number, ClauseState::Deleted);
            let count = self.count();
            self.deletions.push(Deletion {
                clause: number,
                count,
            })?;
        }
        Ok(())
    }

    /// Reads up to a conflict of the clauses alone. Returns the first fault before it.
    pub(crate) fn read(
        &mut self,
        proof: &[u8],
        is_checked: bool,
    ) -> Result<Option<ProofFault>, AllocError> {
        let mut reader = Reader::new(proof);
        let mut clause = Vec::new(self.alloc);
        for _ in 0..usize::MAX {
            if self.conflict != NO_CLAUSE {
                break;
            }
            match reader.step(&mut clause)? {
                Step::Add => {
                    if !self.add(&clause, is_checked)? {
                        return Ok(Some(ProofFault::Unproved(reader.line())));
                    }
                }
                Step::Delete => self.delete(&clause)?,
                Step::Unreadable => return Ok(Some(ProofFault::Word(reader.line()))),
                Step::End => return Ok(Some(ProofFault::Unfinished)),
            }
        }
        Ok(None)
    }

    /// Begins to take back steps. No clause is looked for from now on.
    pub(crate) fn turn(&mut self) -> Result<(), AllocError> {
        self.index = ClauseIndex::new(self.alloc, 0)?;
        self.derivations.propagator.watch_all()
    }

    fn undelete(&mut self, count: u32) -> Result<(), AllocError> {
        for _ in 0..self.deletions.len() {
            let Some(last) = self.deletions.last().copied() else {
                break;
            };
            if last.count <= count {
                break;
            }
            self.deletions.pop();
            let propagator = &mut self.derivations.propagator;
            propagator
                .clauses
                .set_state(last.clause, ClauseState::Watched);
            propagator.watch(last.clause)?;
        }
        Ok(())
    }

    /// Takes back the last clause, and finds its hints if it is used.
    pub(crate) fn take_back(&mut self, at: usize, is_used: bool) -> Result<(), AllocError> {
        let Ok(clause) = u32::try_from(at) else {
            return Ok(());
        };
        self.undelete(clause)?;
        let clauses = &mut self.derivations.propagator.clauses;
        clauses.set_state(clause, ClauseState::Idle);
        let mut reason = NO_CLAUSE;
        if let Some(root) = self.roots.last().copied()
            && root.unit == clause
        {
            self.roots.pop();
            self.derivations.propagator.assignment.undo(root.before);
            reason = root.reason;
        }
        if is_used {
            self.derivations.derive(clause, reason)?;
        }
        Ok(())
    }
}
