//! Whether a clause follows by unit propagation, through clauses that are named in order
//! (Cruz-Filipe, Heule, Hunt, Kaufmann and Schneider-Kamp 2017: LRAT).
ghost use Rattle.std.specs.Prelude.{◌≡◌, ◌+◌, ◌<◌, ◌≤◌, IfNone, length, true, false, slice_index, slice_index_or};
ghost use Rattle.clause_kernel.specs.Clauses.{negated};
ghost use Rattle.clause_proof.specs.Propagation.{IsAssigned, HasOnly, HasNone, IsFresh, Infers, Assumes, IsTautology, Keeps, Follows};

use crate::clause_list::NO_LITERAL;
use clause_kernel::{ClauseList, negated};

fn mark_of(values: &[u32], literal: u32) -> u32
    ensures { result ≡ slice_index values.now literal }
{
    match values.get(literal as usize) {
        Some(mark) => *mark,
        None => 0,
    }
}

fn open_literal(clause: &[u32], values: &[u32], mark: u32, other: u32) -> Option<u32>
    ensures { IfNone result (HasOnly clause.now values.now mark other) }
{
    for literal in clause {
        if *literal != other && mark_of(values, negated(*literal)) < mark {
            return Some(*literal);
        }
    }
    None
}

fn is_false(clause: &[u32], values: &[u32], mark: u32) -> bool
    ensures { result ≡ true → HasNone clause.now values.now mark }
{
    for literal in clause {
        if mark_of(values, negated(*literal)) < mark {
            return false;
        }
    }
    true
}

fn assign(values: &mut [u32], literal: u32, mark: u32)
    ensures { IsAssigned values.old values.new literal mark }
{
    let at = literal as usize;
    if at < values.len() {
        values[at] = mark;
    }
}

/// Makes a literal true if all others of the clause are false. Returns whether all of them are.
#[tactic(auto, using(crate::proofs::ReplayLemmas::infer_rules))]
fn infer(clause: &[u32], values: &mut [u32], mark: u32) -> bool
    ensures { Infers clause.now values.old values.new mark result }
{
    let Some(first) = open_literal(clause, values, mark, NO_LITERAL) else {
        return is_false(clause, values, mark);
    };
    if open_literal(clause, values, mark, first).is_none() {
        assign(values, first, mark);
    }
    false
}

/// Makes the literals of a clause false. Returns whether one of them is true.
#[tactic(auto, using(crate::proofs::ReplayLemmas::assume_rules))]
fn assume(clause: &[u32], values: &mut [u32], mark: u32) -> bool
    requires { IsFresh values.old mark }
    ensures fresh { IsFresh values.new (mark + 1) }
    ensures assumes { result ≡ false → Assumes clause.now (length clause.now) values.new mark }
    ensures tautology { result ≡ true → IsTautology clause.now }
{
    for literal in clause {
        if mark <= mark_of(values, *literal) {
            return true;
        }
        assign(values, negated(*literal), mark);
    }
    false
}

pub(crate) fn is_used(used: &[bool], clause: usize) -> bool
    ensures { result ≡ slice_index_or used.now clause false }
{
    match used.get(clause) {
        Some(used) => *used,
        None => false,
    }
}

fn mark_used(used: &mut [bool], clause: usize) -> bool
    ensures keeps { Keeps used.old used.new }
    ensures used { result ≡ true → slice_index_or used.new clause false ≡ true }
{
    let is_there = clause < used.len();
    if is_there {
        used[clause] = true;
    }
    is_there
}

/// Whether clause `at` follows from the clauses of `hints`, which are then used. The last hint is
/// taken first; each is to be before `at`.
#[tactic(auto, using(crate::proofs::ReplayLemmas::replay_rules))]
pub(crate) fn replay(
    clauses: &ClauseList,
    at: usize,
    hints: &[u32],
    used: &mut [bool],
    values: &mut [u32],
    mark: u32,
) -> bool
    requires inside { at < length clauses.now }
    requires fresh { IsFresh values.old mark }
    ensures fresh { IsFresh values.new (mark + 1) }
    ensures keeps { Keeps used.old used.new }
    ensures follows { result ≡ true → Follows clauses.now used.new at }
{
    if assume(clauses.get(at), values, mark) {
        return true;
    }
    for hint in hints.iter().rev() {
        let hint = *hint as usize;
        if at <= hint || !mark_used(used, hint) {
            return false;
        }
        if infer(clauses.get(hint), values, mark) {
            return true;
        }
    }
    false
}
