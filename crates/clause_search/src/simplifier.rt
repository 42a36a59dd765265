//! Clauses made fewer before the search: subsumption, strengthening and elimination of variables in
//! turn, until nothing changes (Een and Biere 2005).
use crate::elimination::Resolvents;
use crate::occurrences::{Marks, Occurrences};
use crate::subsumption::Hit;
use clause_engine::engine::Engine;
use clause_kernel::{Formula, Kernel};
use clause_store::arena::{GONE, NO_CLAUSE, QUEUED, clause_at, short};
use clause_store::heap::Heap;
use clause_store::trail::{FALSE, OPEN, filled};
use std::alloc::{AllocError, Global};
use std::collections::VecDeque;
use std::mem;

/// A simplifier is what elimination and subsumption know of the clauses.
#[derive(Drop)]
pub(crate) struct Simplifier {
    pub(crate) alloc: Global,
    pub(crate) occurrences: Occurrences,
    pub(crate) heap: Heap,
    /// Clauses that may subsume others.
    pub(crate) queue: VecDeque<u32>,
    pub(crate) marks: Marks,
    pub(crate) hits: Vec<Hit>,
    pub(crate) resolvents: Resolvents,
    /// Eliminated variables.
    pub(crate) is_gone: Vec<bool>,
    /// Variables of new resolvents.
    touched: Vec<u32>,
    is_touched: Vec<bool>,
    /// The clause that is derived next.
    pub(crate) clause: Vec<u32>,
}

/// The variables of a clause, as bits that collide.
fn signature_of(literals: &[u32]) -> u32 {
    let mut signature = 0u32;
    for literal in literals {
        let bit = (*literal / 2).wrapping_mul(0x9E37_79B1) >> 27;
        signature |= 1u32 << (bit % 32);
    }
    signature
}

impl Simplifier {
    fn new(alloc: Global, variables: usize) -> Result<Simplifier, AllocError> {
        let literals = variables.saturating_mul(2);
        Ok(Simplifier {
            alloc,
            occurrences: Occurrences::new(alloc, literals)?,
            heap: Heap::new(alloc, variables)?,
            queue: VecDeque::new(alloc),
            marks: Marks::new(alloc, literals)?,
            hits: Vec::new(alloc),
            resolvents: Resolvents::new(alloc),
            is_gone: filled(alloc, variables, false)?,
            touched: Vec::new(alloc),
            is_touched: filled(alloc, variables, false)?,
            clause: Vec::new(alloc),
        })
    }

    pub(crate) fn enqueue(&mut self, engine: &mut Engine, clause: u32) -> Result<(), AllocError> {
        if !engine.arena.has(clause, GONE | QUEUED) {
            engine.arena.set_flag(clause, QUEUED);
            self.queue.push_back(clause)?;
        }
        Ok(())
    }

    pub(crate) fn is_gone(&self, variable: u32) -> bool {
        match self.is_gone.get(variable as usize) {
            Some(is_gone) => *is_gone,
            None => true,
        }
    }

    /// Counts a variable's clauses again.
    pub(crate) fn update(&mut self, engine: &Engine, variable: u32) -> Result<(), AllocError> {
        let literal = variable.saturating_mul(2);
        let (one, other) = (
            self.occurrences.count(literal),
            self.occurrences.count(literal | 1),
        );
        self.heap
            .set_cost(variable, (one as u64).saturating_mul(other as u64));
        if !self.is_gone(variable) && engine.trail.is_open(variable) {
            self.heap.insert(variable)?;
        }
        Ok(())
    }

    pub(crate) fn touch(&mut self, variable: u32) -> Result<(), AllocError> {
        let at = variable as usize;
        if at < self.is_touched.len() && !self.is_touched[at] {
            self.touched.push(variable)?;
            self.is_touched[at] = true;
        }
        Ok(())
    }

    /// Takes a clause of the arena in.
    pub(crate) fn add(&mut self, engine: &mut Engine, clause: u32) -> Result<(), AllocError> {
        let signature = signature_of(engine.arena.literals(clause));
        engine.arena.set_signature(clause, signature);
        for literal in engine.arena.literals(clause) {
            self.occurrences.add(*literal, clause)?;
        }
        self.enqueue(engine, clause)
    }

    pub(crate) fn remove<F: Formula>(
        &mut self,
        engine: &mut Engine,
        kernel: &mut Kernel<F>,
        clause: u32,
    ) -> Result<(), AllocError> {
        for literal in engine.arena.literals(clause) {
            self.occurrences.lessen(*literal);
            self.update(engine, *literal / 2)?;
        }
        engine.drop_clause(kernel, clause);
        Ok(())
    }

    /// Makes the last literal of a clause true, or refutes.
    fn assign_rest<F: Formula>(
        &mut self,
        engine: &mut Engine,
        kernel: &mut Kernel<F>,
        clause: u32,
    ) -> Result<(), AllocError> {
        let literal = engine.arena.literal(clause, 0);
        let number = engine.arena.number(clause);
        match engine.trail.value(literal) {
            OPEN => {
                if number == NO_CLAUSE {
                    engine.assign_settled(literal);
                } else {
                    engine.assign_unit(kernel, literal, number)?;
                }
            }
            FALSE => {
                engine.derive(kernel, &[], &[number])?;
            }
            _ => {}
        }
        self.remove(engine, kernel, clause)
    }

    /// Takes a literal out of a clause. The kernel knows already that it may.
    pub(crate) fn shorten<F: Formula>(
        &mut self,
        engine: &mut Engine,
        kernel: &mut Kernel<F>,
        clause: u32,
        literal: u32,
    ) -> Result<(), AllocError> {
        let size = engine.arena.size(clause);
        let literals = engine.arena.literals(clause);
        let Some(place) = literals.iter().position(|other| *other == literal) else {
            return Ok(());
        };
        let last = size.saturating_sub(1);
        let moved = engine.arena.literal(clause, last);
        engine.arena.set_literal(clause, place, moved);
        engine.arena.set_size(clause, last);
        engine.arena.waste(1);
        let signature = signature_of(engine.arena.literals(clause));
        engine.arena.set_signature(clause, signature);
        self.occurrences.lessen(literal);
        self.update(engine, literal / 2)?;
        if last > 1 {
            return self.enqueue(engine, clause);
        }
        self.assign_rest(engine, kernel, clause)
    }

    fn drain_literal<F: Formula>(
        &mut self,
        engine: &mut Engine,
        kernel: &mut Kernel<F>,
        literal: u32,
    ) -> Result<(), AllocError> {
        let satisfied = self.occurrences.take_live(&engine.arena, literal);
        for clause in &satisfied {
            self.remove(engine, kernel, *clause)?;
        }
        let shorter = self.occurrences.take_live(&engine.arena, literal ^ 1);
        for clause in &shorter {
            if engine.is_done(kernel) {
                break;
            }
            self.shorten(engine, kernel, *clause, literal ^ 1)?;
        }
        Ok(())
    }

    /// Takes true literals' clauses away, and false literals out of the others.
    pub(crate) fn drain<F: Formula>(
        &mut self,
        engine: &mut Engine,
        kernel: &mut Kernel<F>,
    ) -> Result<(), AllocError> {
        for _ in 0..usize::MAX {
            if engine.is_done(kernel) {
                break;
            }
            let Some(literal) = engine.trail.advance() else {
                break;
            };
            self.drain_literal(engine, kernel, literal)?;
        }
        Ok(())
    }

    fn load(&mut self, engine: &mut Engine) -> Result<(), AllocError> {
        for place in 0..engine.clauses.len() {
            let clause = clause_at(&engine.clauses, place);
            self.add(engine, clause)?;
        }
        for variable in 0..short(self.is_gone.len()) {
            self.update(engine, variable)?;
        }
        Ok(())
    }

    fn enqueue_each(&mut self, engine: &mut Engine, literal: u32) -> Result<(), AllocError> {
        let list = self.occurrences.take_live(&engine.arena, literal);
        for clause in &list {
            self.enqueue(engine, *clause)?;
        }
        self.occurrences.put(literal, list);
        Ok(())
    }

    /// Tries the clauses of the touched variables again.
    fn enqueue_touched(&mut self, engine: &mut Engine) -> Result<(), AllocError> {
        let touched = mem::replace(&mut self.touched, Vec::new(self.alloc));
        for variable in &touched {
            if let Some(is_touched) = self.is_touched.get_mut(*variable as usize) {
                *is_touched = false;
            }
            self.enqueue_each(engine, variable.saturating_mul(2))?;
            self.enqueue_each(engine, variable.saturating_mul(2) | 1)?;
        }
        Ok(())
    }
}

/// Simplifies the given clauses at level 0.
pub(crate) fn simplify<F: Formula>(
    engine: &mut Engine,
    kernel: &mut Kernel<F>,
) -> Result<(), AllocError> {
    let mut simplifier = Simplifier::new(engine.alloc, engine.variables as usize)?;
    simplifier.load(engine)?;
    for _ in 0..usize::MAX {
        simplifier.subsume_all(engine, kernel)?;
        simplifier.eliminate_all(engine, kernel)?;
        simplifier.enqueue_touched(engine)?;
        if engine.is_done(kernel) || simplifier.queue.is_empty() && simplifier.heap.is_empty() {
            break;
        }
    }
    for place in 0..engine.clauses.len() {
        let clause = clause_at(&engine.clauses, place);
        engine.arena.set_signature(clause, 0);
        engine.arena.clear_flag(clause, QUEUED);
    }
    Ok(())
}
