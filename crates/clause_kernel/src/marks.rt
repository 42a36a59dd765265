//! Which literals are true: for good, or in the present check.
ghost use Rattle.std.specs.Prelude.{◌≡◌, ◌<◌, ◌≤◌, ◌+◌, ◌-◌, ◌||◌, ◌&&◌, ◌==◌, ◌^◌, nat_lt, nat_le, length, map, IfOk, replicate, slice_set, slice_index, true, false, cond, [], ◌∷◌};
ghost use Rattle.std.specs.List.{list_any, filter};
ghost use Rattle.clause_kernel.specs.Propagation.{with_true, open_literals, unit_of, propagates, clause_at, is_fixed, follows_by};
ghost use Rattle.clause_kernel.specs.Marks.{is_marked, IsFresh, fixed_of};
ghost use Rattle.clause_kernel.specs.Clauses.{negated};
ghost use Rattle.clause_kernel.specs.Opening.{open_case};

use crate::literal::negated;
use crate::store::Store;
use std::alloc::{AllocError, Global};
use std::marker::Model;

/// The mark of a literal that is a clause of its own.
const FIXED: u32 = 4_294_967_295;

/// `Marks` is a set of fixed literals, and memory for the literals that a check takes as true.
#[derive(Drop)]
pub(crate) struct Marks {
    values: Vec<u32>,
    last: u32,
}

impl Model for Marks {
    ghost use Rattle.std.specs.Prelude.{List, Bool};
    ghost use Rattle.clause_kernel.specs.Marks.{IsFresh, fixed_of};

    ghost Value = { List Bool };

    ghost view = { λ m. fixed_of m.values.items };

    ghost invariant = { λ m. IsFresh m.values.items m.last };
}

#[inline]
fn mark_of(values: &[u32], literal: u32) -> u32
    ensures { result ≡ slice_index values.now literal }
{
    match values.get(literal as usize) {
        Some(mark) => *mark,
        None => 0,
    }
}

#[inline]
fn is_marked(values: &[u32], literal: u32, mark: u32) -> bool
    ensures { result ≡ is_marked values.now mark literal }
{
    mark <= mark_of(values, literal)
}

/// Marks a literal of a variable that there is, if it has no later mark.
#[inline]
#[tactic(auto, using(crate::proofs::MarkLemmas::assign_rules))]
fn assign(values: &mut [u32], literal: u32, mark: u32)
    requires { IsFresh values.old mark }
    ensures marked { is_marked values.new mark ≡ with_true (length values.old) (is_marked values.old mark) (literal ∷ []) }
    ensures fixed { fixed_of values.new ≡ fixed_of values.old }
    ensures fresh { IsFresh values.new mark }
{
    let at = literal as usize;
    if at < values.len() {
        values[at] = values[at].max(mark);
    }
}

/// Takes all literals of a clause as false.
#[tactic(auto, using(crate::proofs::MarkLemmas::assume_rules))]
fn assume(values: &mut [u32], clause: &[u32], mark: u32)
    requires { IsFresh values.old mark }
    ensures marked { is_marked values.new mark ≡ with_true (length values.old) (is_marked values.old mark) (map negated clause.now) }
    ensures fixed { fixed_of values.new ≡ fixed_of values.old }
    ensures fresh { IsFresh values.new mark }
{
    for literal in clause {
        assign(values, negated(*literal), mark);
    }
}

/// The literals of a clause that are not false.
#[derive(Clone, Copy, PartialEq, Eq)]
enum Open {
    Nothing,
    One(u32),
    More,
}

#[tactic(auto, using(crate::proofs::MarkLemmas::open_rules))]
fn open_in(clause: &[u32], values: &[u32], mark: u32) -> Open
    ensures { result ≡ open_case (open_literals (is_marked values.now mark) clause.now) }
{
    let mut first = None;
    for literal in clause {
        if !is_marked(values, negated(*literal), mark) {
            if first.is_some() {
                return Open::More;
            }
            first = Some(*literal);
        }
    }
    match first {
        Some(literal) => Open::One(literal),
        None => Open::Nothing,
    }
}

fn is_met(clause: &[u32], values: &[u32], mark: u32) -> bool
    ensures { result ≡ list_any (is_marked values.now mark) clause.now }
{
    clause
        .iter()
        .any(|literal| is_marked(values, *literal, mark))
}

/// Propagates along the clauses with the numbers `hints`, in this order. Returns whether one of them
/// is false.
#[tactic(auto, using(crate::proofs::MarkLemmas::propagate_rules))]
fn propagates(store: &Store, hints: &[u32], values: &mut [u32], mark: u32) -> bool
    requires { IsFresh values.old mark }
    ensures answers { result ≡ propagates (length values.old) (map (clause_at store.now) hints.now) (is_marked values.old mark) }
    ensures fixed { fixed_of values.new ≡ fixed_of values.old }
    ensures fresh { IsFresh values.new mark }
{
    for hint in hints {
        let Some(clause) = store.get(*hint) else {
            return false;
        };
        match open_in(clause, values, mark) {
            Open::Nothing => return true,
            Open::One(literal) => assign(values, literal, mark),
            Open::More => {}
        }
    }
    false
}

fn cleared(mark: u32) -> u32
    ensures { result ≡ cond (mark == 4294967295) 4294967295 0 }
{
    if mark == FIXED { FIXED } else { 0 }
}

/// Removes all marks but those of fixed literals.
#[tactic(auto, using(crate::proofs::MarkLemmas::clear_rules))]
fn clear(values: &mut [u32])
    ensures fixed { fixed_of values.new ≡ fixed_of values.old }
    ensures fresh { IsFresh values.new 0 }
{
    for value in values.iter_mut() {
        *value = cleared(*value);
    }
}

/// A mark above all but that of fixed literals. The values are cleared if there is none.
#[tactic(auto, using(crate::proofs::MarkLemmas::next_rules))]
fn next_mark(values: &mut [u32], last: u32) -> u32
    requires { IsFresh values.old last }
    ensures fixed { fixed_of values.new ≡ fixed_of values.old }
    ensures fresh { IsFresh values.new result }
    ensures marked { is_marked values.new result ≡ is_fixed (fixed_of values.old) }
{
    if last < FIXED - 1 {
        return last + 1;
    }
    clear(values);
    1
}

fn mark_as(values: &mut Vec<u32>, literal: u32, mark: u32)
    ensures { values.new.items ≡ slice_set values.old.items literal mark }
{
    let at = literal as usize;
    if at < values.len() {
        values[at] = mark;
    }
}

impl Marks {
    #[tactic(auto, using(crate::proofs::MarkLemmas::new_rules))]
    pub(crate) fn new(alloc: Global, literals: usize) -> Result<Marks, AllocError>
        ensures { IfOk result (λ marks. marks ≡ replicate literals false) }
    {
        let mut values = Vec::with_capacity(alloc, literals)?;
        values.resize(literals, 0)?;
        Ok(Marks { values, last: 0 })
    }

    #[tactic(auto, using(crate::proofs::MarkLemmas::count_rules))]
    pub(crate) fn count(&self) -> usize
        ensures { result ≡ length self.now }
    {
        self.values.len()
    }

    pub(crate) fn is_fixed(&self, literal: u32) -> bool
        ensures { result ≡ is_fixed self.now literal }
    {
        mark_of(&self.values, literal) == FIXED
    }

    #[tactic(auto, using(crate::proofs::MarkLemmas::fix_rules))]
    pub(crate) fn fix(&mut self, literal: u32)
        ensures { self.new ≡ slice_set self.old literal true }
    {
        mark_as(&mut self.values, literal, FIXED);
    }

    /// Whether a clause follows by the clauses with the numbers `hints`, in this order.
    pub(crate) fn follows(&mut self, store: &Store, clause: &[u32], hints: &[u32]) -> bool
        ensures answers { result ≡ follows_by store.now self.old clause.now hints.now }
        ensures marks { self.new ≡ self.old }
    {
        let mark = next_mark(&mut self.values, self.last);
        self.last = mark;
        assume(&mut self.values, clause, mark);
        if is_met(clause, &self.values, mark) {
            return true;
        }
        propagates(store, hints, &mut self.values, mark)
    }
}
