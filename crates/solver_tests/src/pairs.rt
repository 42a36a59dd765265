//! Two searches of a formula that tell each other what they learn.
ghost use Rattle.std.specs.Prelude.{◌≡◌};

use crate::formulas::{holds, is_satisfiable, pigeons, random};
use crate::searches::packed;
use clause_kernel::{ClauseList, Formula, Kernel};
use clause_search::{Search, SearchAnswer, SearchLimits};
use std::alloc::{AllocError, Global};
use std::marker::Brand;
use std::mem;

/// Conflicts of one run.
const SLICE: u64 = 3;

/// What two searches came to: the first answer, whether its values satisfy, the steps that were
/// refused, and the clauses that were told.
#[derive(Clone, Copy)]
struct Ended {
    answer: SearchAnswer,
    holds: bool,
    refused: u64,
    told: u64,
}

/// One of the two.
#[derive(Drop)]
struct One<F: Formula> {
    kernel: Kernel<F>,
    search: Search,
}

impl<F: Formula> One<F> {
    fn new(alloc: Global, formula: &ClauseList) -> Result<One<F>, AllocError>
        requires { formula.now ≡ F.clauses }
    {
        let kernel = Kernel::<F>::new(alloc, formula)?;
        let mut search = Search::new(alloc, formula, SearchLimits { words: 1_000_000 })?;
        search.tell_up_to(8);
        Ok(One { kernel, search })
    }

    /// Searches for a few conflicts. A run that wants memory is made again.
    fn run(&mut self) -> SearchAnswer {
        self.search
            .run(&mut self.kernel, SLICE)
            .unwrap_or(SearchAnswer::Open)
    }

    /// Takes what the other one has learned. Returns how many clauses that were.
    fn hear(&mut self, other: &mut One<F>) -> Result<u64, AllocError> {
        let messages = other.search.tell(&other.kernel)?;
        for message in messages.iter() {
            self.search.take(&mut self.kernel, message)?;
        }
        Ok(messages.len() as u64)
    }

    fn ended(&self, formula: &ClauseList, answer: SearchAnswer, told: u64) -> Ended {
        Ended {
            answer,
            holds: holds(formula, packed(self.search.values())),
            refused: self.search.refused(),
            told,
        }
    }
}

/// Lets two searches run in turn. The one that runs first begins its variables as true.
fn race<F: Formula>(
    formula: &ClauseList,
    mut one: One<F>,
    mut other: One<F>,
) -> Result<Ended, AllocError> {
    let mut told = 0u64;
    one.search.begin_with_true();
    for _ in 0..20_000 {
        let answer = one.run();
        if answer != SearchAnswer::Open {
            return Ok(one.ended(formula, answer, told));
        }
        told = told.saturating_add(other.hear(&mut one)?);
        mem::swap(&mut one, &mut other);
    }
    Ok(one.ended(formula, SearchAnswer::Open, told))
}

fn search_both<F: Formula>(alloc: Global, formula: &ClauseList) -> Result<Ended, AllocError>
    requires { formula.now ≡ F.clauses }
{
    let one = One::<F>::new(alloc, formula)?;
    let other = One::<F>::new(alloc, formula)?;
    race(formula, one, other)
}

fn search_any(alloc: Global, formula: &ClauseList) -> Result<Ended, AllocError> {
    search_both::<Brand>(alloc, formula)
}

fn agrees(alloc: Global, seed: u64) -> Result<bool, AllocError> {
    let variables = u32::try_from(4 + seed % 5).unwrap_or(4);
    let clauses = variables.saturating_mul(4);
    let drawn = seed.wrapping_mul(0x9E37_79B9_7F4A_7C15).wrapping_add(7);
    let formula = random(alloc, drawn, variables, clauses)?;
    let ended = search_any(alloc, &formula)?;
    let is_right = match ended.answer {
        SearchAnswer::Satisfied => ended.holds,
        SearchAnswer::Refuted => !is_satisfiable(&formula, variables),
        _ => false,
    };
    Ok(is_right && ended.refused == 0)
}

fn disagreements(alloc: Global, formulas: u64) -> Result<u64, AllocError> {
    let mut count = 0u64;
    for seed in 0..formulas {
        if !agrees(alloc, seed)? {
            count = count.saturating_add(1);
        }
    }
    Ok(count)
}

#[test]
fn two_agree_with_enumeration(rt: HostRuntime) -> Result<(), AllocError> {
    let count = disagreements(rt.alloc(), 500)?;
    assert!(rt; count == 0);
    Ok(())
}

#[test]
fn two_refute_pigeons(rt: HostRuntime) -> Result<(), AllocError> {
    for holes in 3..7 {
        let many = pigeons(rt.alloc(), holes + 1, holes)?;
        let refuted = search_any(rt.alloc(), &many)?;
        assert!(rt; refuted.answer == SearchAnswer::Refuted && refuted.refused == 0);
        assert!(rt; holes < 5 || refuted.told > 0);
    }
    Ok(())
}

/// Holds whichever one allocation fails.
#[test]
fn two_are_never_wrong_without_memory(rt: HostRuntime) {
    let Ok(many) = pigeons(rt.alloc(), 6, 5) else {
        return;
    };
    if let Ok(ended) = search_any(rt.alloc(), &many) {
        assert!(rt; ended.answer == SearchAnswer::Open || ended.answer == SearchAnswer::Refuted);
    }
}
