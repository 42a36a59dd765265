//! A formula in one list of literals.
ghost use Rattle.std.specs.Prelude.{◌≡◌, ◌<◌, ◌++◌, ◌∷◌, [], length, slice_index_or, IfOk, OnErr};
ghost use Rattle.clause_kernel.specs.Pieces.{pieces, AreEnds, start_of};

use std::alloc::{AllocError, Global};
use std::marker::Model;

/// A `ClauseList` is a list of clauses, each a list of literals.
#[derive(Drop)]
pub struct ClauseList {
    literals: Vec<u32>,
    ends: Vec<u32>,
}

impl Model for ClauseList {
    ghost use Rattle.std.specs.Prelude.{ℕ, List, length};
    ghost use Rattle.clause_kernel.specs.Pieces.{pieces, AreEnds};

    ghost Value = { List (List ℕ) };

    ghost view = { λ f. pieces f.literals.items 0 f.ends.items };

    ghost invariant = { λ f. AreEnds 0 f.ends.items (length f.literals.items) };
}

#[tactic(auto, using(crate::proofs::PieceLemmas::get_rules))]
fn start_of(ends: &[u32], number: usize) -> usize
    requires { number < length ends.now }
    ensures { result ≡ start_of 0 ends.now number }
{
    if number == 0 {
        return 0;
    }
    ends[number - 1] as usize
}

#[tactic(auto, using(crate::proofs::PieceLemmas::get_rules))]
fn piece<'a>(literals: &'a [u32], ends: &[u32], number: usize) -> &'a [u32]
    requires ends { AreEnds 0 ends.now (length literals.now) }
    requires inside { number < length ends.now }
    ensures { result.now ≡ slice_index_or (pieces literals.now 0 ends.now) number [] }
{
    let start = start_of(ends, number);
    let end = ends[number] as usize;
    &literals[start..end]
}

impl ClauseList {
    pub fn new(alloc: Global) -> ClauseList
        ensures { result ≡ [] }
    {
        ClauseList {
            literals: Vec::new(alloc),
            ends: Vec::new(alloc),
        }
    }

    #[tactic(auto, using(crate::proofs::PieceLemmas::len_rules))]
    pub fn len(&self) -> usize
        ensures { result ≡ length self.now }
    {
        self.ends.len()
    }

    /// The least even number above all literals.
    pub fn literal_count(&self) -> usize {
        let mut greatest = 1;
        for literal in &self.literals {
            greatest = greatest.max(*literal);
        }
        (greatest / 2) as usize * 2 + 2
    }

    /// The literals of clause `number`.
    #[tactic(auto, using(crate::proofs::PieceLemmas::len_rules))]
    pub fn get(&self, number: usize) -> &[u32]
        requires { number < length self.now }
        ensures { result.now ≡ slice_index_or self.now number [] }
    {
        piece(&self.literals, &self.ends, number)
    }

    /// More than 4,294,967,295 literals in all count as want of memory.
    #[tactic(auto, using(crate::proofs::PieceLemmas::push_rules))]
    pub fn push(&mut self, clause: &[u32]) -> Result<(), AllocError>
        ensures pushed { IfOk result (λ _. self.new ≡ self.old ++ clause.now ∷ []) }
        ensures no_memory { OnErr result (self.new ≡ self.old) }
    {
        let end = self.literals.len() + clause.len();
        if end > u32::MAX as usize {
            return Err(AllocError);
        }
        self.ends.reserve(1)?;
        self.literals.extend_from_slice(clause)?;
        self.ends.push(end as u32)?;
        Ok(())
    }
}
