//! Whole proofs, from the last step to the first.
ghost use Rattle.std.specs.Prelude.{◌≡◌, ℕ, ◌+◌, ◌<◌, IfOk, OnOk, length, true, slice_index};
ghost use Rattle.clause_kernel.specs.Clauses.{IsUnsatisfiable};
ghost use Rattle.clause_proof.specs.Propagation.{IsFresh, Extends, IsRefuted};

use crate::fault::ProofFault;
use crate::history::History;
use crate::replay::{is_used, replay};
use clause_kernel::ClauseList;
use std::alloc::{AllocError, Global};

fn no_marks(alloc: Global, literals: usize) -> Result<Vec<u32>, AllocError>
    ensures { IfOk result (λ values. IsFresh values.items 1) }
{
    let mut values = Vec::with_capacity(alloc, literals)?;
    values.resize(literals, 0)?;
    Ok(values)
}

#[tactic(auto, using(crate::proofs::RefutationLemmas::extend_rules))]
fn extend(clauses: &mut ClauseList, history: &History) -> Result<(), AllocError>
    ensures { IfOk result (λ _. Extends clauses.old clauses.new) }
{
    for clause in history.originals()..history.count() {
        clauses.push(history.clause(clause))?;
    }
    Ok(())
}

/// The empty clause alone is used.
#[tactic(auto, using(crate::proofs::RefutationLemmas::aim_rules))]
fn aim(alloc: Global, clauses: &mut ClauseList) -> Result<Vec<bool>, AllocError>
    ensures extends { OnOk result (Extends clauses.old clauses.new) }
    ensures refuted { IfOk result (λ used. IsRefuted clauses.new used.items (length clauses.new)) }
{
    let mut used = Vec::new(alloc);
    used.resize(clauses.len(), false)?;
    used.push(true)?;
    clauses.push(&[])?;
    Ok(used)
}

/// Whether clause `at` is not used or follows from clauses before it, which are then used.
#[tactic(auto, using(crate::proofs::RefutationLemmas::step_rules))]
fn check_one(
    clauses: &ClauseList,
    at: usize,
    used: &mut [bool],
    values: &mut [u32],
    history: &mut History,
    mark: u32,
) -> Result<bool, AllocError>
    requires inside { at < length clauses.now }
    requires refuted { IsRefuted clauses.now used.old (at + 1) }
    requires fresh { IsFresh values.old mark }
    ensures refuted { IfOk result (λ well. well ≡ true → IsRefuted clauses.now used.new at) }
    ensures fresh { IfOk result (λ _. IsFresh values.new (mark + 1)) }
{
    let is_used = is_used(used, at);
    history.take_back(at, is_used)?;
    if !is_used {
        return Ok(true);
    }
    let well = replay(clauses, at, history.hints(), used, values, mark);
    Ok(well)
}

#[tactic(auto, using(crate::proofs::RefutationLemmas::back_rules))]
fn check_backwards(
    clauses: &ClauseList,
    originals: usize,
    used: &mut [bool],
    values: &mut [u32],
    history: &mut History,
) -> Result<bool, AllocError>
    requires refuted { IsRefuted clauses.now used.old (length clauses.now) }
    requires fresh { IsFresh values.old 1 }
    ensures { IfOk result (λ well. well ≡ true → IsRefuted clauses.now used.new originals) }
{
    let mut count = clauses.len();
    for mark in 1..u32::MAX {
        if count <= originals {
            return Ok(true);
        }
        count -= 1;
        if !check_one(clauses, count, used, values, history, mark)? {
            return Ok(false);
        }
    }
    Ok(false)
}

#[tactic(auto, using(crate::proofs::RefutationLemmas::check_rules))]
fn check(
    alloc: Global,
    clauses: &mut ClauseList,
    literals: usize,
    history: &mut History,
) -> Result<bool, AllocError>
    ensures { IfOk result (λ well. well ≡ true → IsUnsatisfiable clauses.old) }
{
    let originals = clauses.len();
    history.turn()?;
    extend(clauses, history)?;
    let mut used = aim(alloc, clauses)?;
    let mut values = no_marks(alloc, literals)?;
    let well = check_backwards(clauses, originals, &mut used, &mut values, history)?;
    Ok(well)
}

/// Steps that no checked step uses are not checked.
fn is_refuted(
    alloc: Global,
    clauses: &mut ClauseList,
    literals: usize,
    proof: &[u8],
) -> Result<bool, AllocError>
    ensures { IfOk result (λ well. well ≡ true → IsUnsatisfiable clauses.old) }
{
    let mut history = History::new(alloc, clauses, clauses.len(), literals)?;
    let fault = history.read(proof, false)?;
    if fault.is_some() {
        return Ok(false);
    }
    let well = check(alloc, clauses, literals, &mut history)?;
    Ok(well)
}

fn first_fault(
    alloc: Global,
    clauses: &ClauseList,
    originals: usize,
    literals: usize,
    proof: &[u8],
) -> Result<ProofFault, AllocError> {
    let originals = originals.min(clauses.len());
    let mut history = History::new(alloc, clauses, originals, literals)?;
    let fault = history.read(proof, true)?;
    Ok(fault.unwrap_or(ProofFault::Unfinished))
}

/// Checks a proof, in either form, that no values of the variables make all clauses true. It is not
/// read if the clauses alone conflict. Steps that no checked step uses are not checked. If it is
/// refused, all its steps are checked for the first fault. That this is the first one is only
/// tested. Each call ends; how long it takes is in no contract.
pub fn refute(alloc: Global, clauses: ClauseList, proof: &[u8]) -> Result<(), ProofFault>
    ensures { IfOk result (λ _. IsUnsatisfiable clauses) }
{
    let mut clauses = clauses;
    let originals = clauses.len();
    // (the given clauses' alone: a step of a proof may name a variable of any number)
    let literals = clauses.literal_count();
    if is_refuted(alloc, &mut clauses, literals, proof)? {
        return Ok(());
    }
    let fault = first_fault(alloc, &clauses, originals, literals, proof)?;
    Err(fault)
}
