//! Searches of those formulas.
ghost use Rattle.std.specs.Prelude.{◌≡◌};

use crate::formulas::{holds, is_satisfiable, pigeons, random};
use clause_kernel::{ClauseList, Formula, Kernel};
use clause_search::{Search, SearchAnswer, SearchLimits};
use std::alloc::{AllocError, Global};
use std::marker::Brand;

/// Conflicts of one run.
const SLICE: u64 = 7;

/// What a search came to: its answer, whether its values satisfy, and the steps that were refused.
#[derive(Clone, Copy)]
struct Outcome {
    answer: SearchAnswer,
    holds: bool,
    refused: u64,
}

pub(crate) fn packed(values: &[bool]) -> u64 {
    let mut bits = 0u64;
    let mut bit = 1u64;
    for value in values {
        if *value {
            bits |= bit;
        }
        bit = bit.wrapping_mul(2);
    }
    bits
}

/// Runs a search in slices. A run that wants memory is made again.
fn search_formula<F: Formula>(
    alloc: Global,
    formula: &ClauseList,
    words: usize,
    prefers_values: bool,
) -> Result<Outcome, AllocError>
    requires { formula.now ≡ F.clauses }
{
    let mut kernel = Kernel::<F>::new(alloc, formula)?;
    let mut search = Search::new(alloc, formula, SearchLimits { words })?;
    if prefers_values {
        search.prefer_values();
    }
    let mut answer = SearchAnswer::Open;
    for _ in 0..10_000 {
        answer = search.run(&mut kernel, SLICE).unwrap_or(SearchAnswer::Open);
        if answer != SearchAnswer::Open {
            break;
        }
    }
    Ok(Outcome {
        answer,
        holds: holds(formula, packed(search.values())),
        refused: search.refused(),
    })
}

fn search_any(
    alloc: Global,
    formula: &ClauseList,
    words: usize,
    prefers_values: bool,
) -> Result<Outcome, AllocError> {
    search_formula::<Brand>(alloc, formula, words, prefers_values)
}

/// Whether the search ends as enumeration does.
fn agrees(alloc: Global, seed: u64) -> Result<bool, AllocError> {
    let variables = u32::try_from(3 + seed % 6).unwrap_or(3);
    let clauses = variables
        .saturating_mul(4)
        .saturating_add(u32::try_from(seed % 5).unwrap_or(0));
    let formula = random(
        alloc,
        seed.wrapping_mul(0x9E37_79B9_7F4A_7C15),
        variables,
        clauses,
    )?;
    let outcome = search_any(alloc, &formula, 1_000_000, seed % 2 == 0)?;
    let is_right = match outcome.answer {
        SearchAnswer::Satisfied => outcome.holds,
        SearchAnswer::Refuted => !is_satisfiable(&formula, variables),
        _ => false,
    };
    Ok(is_right && outcome.refused == 0)
}

fn disagreements(alloc: Global, formulas: u64) -> Result<u64, AllocError> {
    let mut count = 0u64;
    for seed in 0..formulas {
        if !agrees(alloc, seed)? {
            count = count.saturating_add(1);
        }
    }
    Ok(count)
}

#[test]
fn agrees_with_enumeration(rt: HostRuntime) -> Result<(), AllocError> {
    let count = disagreements(rt.alloc(), 2000)?;
    assert!(rt; count == 0);
    Ok(())
}

#[test]
fn seats_pigeons(rt: HostRuntime) -> Result<(), AllocError> {
    for holes in 1..7 {
        let few = pigeons(rt.alloc(), holes, holes)?;
        let seated = search_any(rt.alloc(), &few, 1_000_000, true)?;
        assert!(rt;
            seated.answer == SearchAnswer::Satisfied && seated.holds && seated.refused == 0
        );
        let many = pigeons(rt.alloc(), holes + 1, holes)?;
        let refuted = search_any(rt.alloc(), &many, 1_000_000, false)?;
        assert!(rt; refuted.answer == SearchAnswer::Refuted && refuted.refused == 0);
    }
    Ok(())
}

/// Too few words for the clauses that are learned, and for those that are given.
#[test]
fn wants_words(rt: HostRuntime) -> Result<(), AllocError> {
    let formula = pigeons(rt.alloc(), 10, 9)?;
    let learned = search_any(rt.alloc(), &formula, 2_600, false)?;
    assert!(rt; learned.answer == SearchAnswer::Full);
    let given = search_any(rt.alloc(), &formula, 100, true)?;
    assert!(rt; given.answer == SearchAnswer::Full);
    Ok(())
}

/// Holds whichever one allocation fails.
#[test]
fn never_wrong_without_memory(rt: HostRuntime) {
    let Ok(few) = pigeons(rt.alloc(), 5, 5) else {
        return;
    };
    if let Ok(outcome) = search_any(rt.alloc(), &few, 1_000_000, true) {
        assert!(rt;
            outcome.answer == SearchAnswer::Open || outcome.answer == SearchAnswer::Satisfied
        );
        assert!(rt; outcome.answer == SearchAnswer::Open || outcome.holds);
    }
    let Ok(many) = pigeons(rt.alloc(), 6, 5) else {
        return;
    };
    if let Ok(outcome) = search_any(rt.alloc(), &many, 1_000_000, false) {
        assert!(rt;
            outcome.answer == SearchAnswer::Open || outcome.answer == SearchAnswer::Refuted
        );
    }
}
