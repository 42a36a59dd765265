//! Clauses over variables whose meanings are kept.
ghost use Rattle.std.specs.Prelude.{◌≡◌, ◌<◌, ◌≤◌, ◌/◌, ◌%◌, ◌==◌, IfOk, [], length, Some, slice_get};
ghost use Rattle.schedule_clauses.specs.Meaning.{IsValid};
ghost use Rattle.schedule_clauses.specs.Encoding.{AllGood, Extends};

use crate::index::FactIndex;
use crate::meaning::{Fact, Term};
use crate::scope::Scope;
use clause_kernel::ClauseList;
use std::alloc::{AllocError, Global};
use std::mem::replace;

/// Clauses and their variables.
#[derive(Drop)]
pub(crate) struct Encoding {
    pub(crate) alloc: Global,
    pub(crate) clauses: ClauseList,
    /// The meaning of each variable.
    pub(crate) meanings: Vec<Fact>,
    index: FactIndex,
    /// Memory for the literals of a clause.
    literals: Vec<u32>,
}

impl Encoding {
    /// The number 0 is no variable's, since proofs cannot name it.
    pub(crate) fn new(alloc: Global) -> Result<Encoding, AllocError>
        ensures { IfOk result (λ encoding. encoding.clauses ≡ []) }
    {
        let mut meanings = Vec::new(alloc);
        meanings.push(Fact::InMode {
            activity: 0,
            mode: 0,
        })?;
        Ok(Encoding {
            alloc,
            clauses: ClauseList::new(alloc),
            meanings,
            index: FactIndex::new(alloc)?,
            literals: Vec::new(alloc),
        })
    }

    /// Makes the variable if there is none, but no more than 1,000,000,000 of them.
    fn variable(&mut self, meaning: Fact) -> Result<u32, AllocError>
        ensures extends { Extends self.old.meanings.items self.new.meanings.items }
        ensures stands { IfOk result (λ x. slice_get self.new.meanings.items x ≡ Some meaning) }
        ensures same { self.new.clauses ≡ self.old.clauses }
        ensures few { IfOk result (λ x. x < 1000000000) }
    {
        if let Some(found) = self.index.find(&self.meanings, meaning)
            && found < 1_000_000_000
        {
            return Ok(found as u32);
        }
        let number = self.meanings.len();
        if number >= 1_000_000_000 {
            return Err(AllocError);
        }
        self.meanings.push(meaning)?;
        self.index.add(&self.meanings, number)?;
        Ok(number as u32)
    }

    #[tactic(auto, using(crate::proofs::EncodingLemmas::sign_rules))]
    fn literal(&mut self, term: Term) -> Result<u32, AllocError>
        ensures extends { Extends self.old.meanings.items self.new.meanings.items }
        ensures stands { IfOk result (λ l. slice_get self.new.meanings.items (l / 2) ≡ Some term.meaning) }
        ensures sign { IfOk result (λ l. (l % 2 == 0) ≡ term.positive) }
        ensures same { self.new.clauses ≡ self.old.clauses }
    {
        let variable = self.variable(term.meaning)?;
        let literal = if term.positive {
            2 * variable
        } else {
            2 * variable + 1
        };
        Ok(literal)
    }

    #[tactic(auto, using(crate::proofs::EncodingLemmas::add_rules))]
    pub(crate) fn add(&mut self, scope: Scope<'_>, terms: &[Term]) -> Result<(), AllocError>
        requires valid { IsValid scope.project.now scope.limit terms.now }
        requires good { AllGood scope.project.now scope.limit self.old }
        ensures good { AllGood scope.entry.project.now scope.entry.limit self.new }
        ensures grows { length self.old.clauses ≤ length self.new.clauses }
    {
        let mut literals = replace(&mut self.literals, Vec::new(self.alloc));
        literals.clear();
        for term in terms {
            let literal = self.literal(*term)?;
            literals.push(literal)?;
        }
        self.clauses.push(&literals)?;
        self.literals = literals;
        Ok(())
    }
}
