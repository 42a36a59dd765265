//! Formulas whose answer is known.
use clause_kernel::ClauseList;
use std::alloc::{AllocError, Global};

fn draw(state: u64) -> u64 {
    let one = state ^ state << 13;
    let two = one ^ one >> 7;
    two ^ two << 17
}

/// Clauses of three literals, which may be equal or opposite.
pub(crate) fn random(
    alloc: Global,
    seed: u64,
    variables: u32,
    clauses: u32,
) -> Result<ClauseList, AllocError> {
    let mut formula = ClauseList::new(alloc);
    let literals = (variables as u64).saturating_mul(2).max(1);
    let mut state = seed | 1;
    for _ in 0..clauses {
        let mut clause = [0u32; 3];
        for literal in clause.iter_mut() {
            state = draw(state);
            *literal = u32::try_from((state >> 11) % literals).unwrap_or(0);
        }
        formula.push(&clause)?;
    }
    Ok(formula)
}

fn push_pigeon(
    alloc: Global,
    formula: &mut ClauseList,
    pigeon: u32,
    holes: u32,
) -> Result<(), AllocError> {
    let mut clause = Vec::new(alloc);
    for hole in 0..holes {
        let variable = pigeon.saturating_mul(holes).saturating_add(hole);
        clause.push(variable.saturating_mul(2))?;
    }
    formula.push(&clause)
}

fn push_pair(formula: &mut ClauseList, one: u32, other: u32, holes: u32) -> Result<(), AllocError> {
    for hole in 0..holes {
        let first = one.saturating_mul(holes).saturating_add(hole);
        let second = other.saturating_mul(holes).saturating_add(hole);
        formula.push(&[first.saturating_mul(2) | 1, second.saturating_mul(2) | 1])?;
    }
    Ok(())
}

/// Each pigeon is in a hole, and no two are in one: satisfiable unless there are more pigeons.
pub(crate) fn pigeons(alloc: Global, pigeons: u32, holes: u32) -> Result<ClauseList, AllocError> {
    let mut formula = ClauseList::new(alloc);
    for pigeon in 0..pigeons {
        push_pigeon(alloc, &mut formula, pigeon, holes)?;
        for other in 0..pigeon {
            push_pair(&mut formula, other, pigeon, holes)?;
        }
    }
    Ok(formula)
}

fn has_true(clause: &[u32], values: u64) -> bool {
    for literal in clause {
        if values >> (*literal / 2 % 64) & 1 != (*literal % 2) as u64 {
            return true;
        }
    }
    false
}

/// Bit v of `values` is the value of variable v.
pub(crate) fn holds(formula: &ClauseList, values: u64) -> bool {
    for number in 0..formula.len() {
        if !has_true(formula.get(number), values) {
            return false;
        }
    }
    true
}

pub(crate) fn is_satisfiable(formula: &ClauseList, variables: u32) -> bool {
    for values in 0..1u64 << (variables % 64) {
        if holds(formula, values) {
            return true;
        }
    }
    false
}
