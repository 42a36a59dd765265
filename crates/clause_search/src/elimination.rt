//! Elimination of a variable: its clauses give way to their resolvents, if those are no more.
use crate::occurrences::Marks;
use crate::simplifier::Simplifier;
use clause_engine::engine::Engine;
use clause_kernel::{Formula, Kernel};
use clause_store::arena::{Arena, HEAD, NO_CLAUSE};
use clause_store::trail::{FALSE, TRUE};
use std::alloc::{AllocError, Global};

/// A variable with a longer resolvent stays.
const LONGEST: usize = 20;

/// A `Parent` is a clause with the literal of `variable` that is resolved away. `marks` has its
/// literals.
#[derive(Clone, Copy)]
struct Parent<'a> {
    arena: &'a Arena,
    marks: &'a Marks,
    clause: u32,
    variable: u32,
}

/// A resolvent is a clause in `Resolvents::literals`, up to the place `end`, and the numbers of its
/// parents.
#[derive(Clone, Copy)]
pub(crate) struct Resolvent {
    end: usize,
    one: u32,
    other: u32,
}

/// The resolvents of one variable, which are no tautologies.
#[derive(Drop)]
pub(crate) struct Resolvents {
    literals: Vec<u32>,
    list: Vec<Resolvent>,
}

impl Resolvents {
    pub(crate) fn new(alloc: Global) -> Resolvents {
        Resolvents {
            literals: Vec::new(alloc),
            list: Vec::new(alloc),
        }
    }

    fn clear(&mut self) {
        self.literals.clear();
        self.list.clear();
    }

    /// Resolves `parent` with the clause `other`. Returns the resolvent's length, 0 for a tautology.
    fn resolve(&mut self, parent: &Parent<'_>, other: u32) -> Result<usize, AllocError> {
        let begun = self.literals.len();
        for literal in parent.arena.literals(other) {
            if *literal / 2 == parent.variable {
                continue;
            }
            if parent.marks.has(*literal ^ 1) {
                self.literals.truncate(begun);
                return Ok(0);
            }
            if !parent.marks.has(*literal) {
                self.literals.push(*literal)?;
            }
        }
        for literal in parent.arena.literals(parent.clause) {
            if *literal / 2 != parent.variable {
                self.literals.push(*literal)?;
            }
        }
        let end = self.literals.len();
        self.list.push(Resolvent {
            end,
            one: parent.arena.number(parent.clause),
            other: parent.arena.number(other),
        })?;
        Ok(end.saturating_sub(begun))
    }

    /// Resolves `parent` with each of `others`. Returns false if there are more than `most`
    /// resolvents, or if one is longer than `LONGEST`.
    fn resolve_each(
        &mut self,
        parent: &Parent<'_>,
        others: &[u32],
        most: usize,
    ) -> Result<bool, AllocError> {
        for other in others {
            let length = self.resolve(parent, *other)?;
            if length > LONGEST || self.list.len() > most {
                return Ok(false);
            }
        }
        Ok(true)
    }

    fn has_room(&self, arena: &Arena) -> bool {
        let heads = self.list.len().saturating_mul(HEAD);
        self.literals.len().saturating_add(heads) <= arena.room()
    }
}

impl Simplifier {
    fn resolve_all(
        &mut self,
        arena: &Arena,
        positive: &[u32],
        negative: &[u32],
        variable: u32,
    ) -> Result<bool, AllocError> {
        let most = positive.len().saturating_add(negative.len());
        self.resolvents.clear();
        for one in positive {
            self.marks.begin(arena.literals(*one));
            let parent = Parent {
                arena,
                marks: &self.marks,
                clause: *one,
                variable,
            };
            if !self.resolvents.resolve_each(&parent, negative, most)? {
                return Ok(false);
            }
        }
        Ok(self.resolvents.has_room(arena))
    }

    /// Copies a resolvent to `clause`. Returns how many of its literals are not false, or `None` if
    /// one is true.
    fn copy_resolvent(
        &mut self,
        engine: &Engine,
        from: usize,
        end: usize,
    ) -> Result<Option<usize>, AllocError> {
        self.clause.clear();
        let mut open = 0usize;
        for place in from..end {
            let Some(literal) = self.resolvents.literals.get(place).copied() else {
                break;
            };
            match engine.trail.value(literal) {
                TRUE => return Ok(None),
                FALSE => {}
                _ => open = open.saturating_add(1),
            }
            self.clause.push(literal)?;
        }
        Ok(Some(open))
    }

    fn add_resolvent<F: Formula>(
        &mut self,
        engine: &mut Engine,
        kernel: &mut Kernel<F>,
        from: usize,
        resolvent: Resolvent,
    ) -> Result<(), AllocError> {
        let hints = [resolvent.one, resolvent.other];
        let Some(open) = self.copy_resolvent(engine, from, resolvent.end)? else {
            return Ok(());
        };
        if open == 0 {
            engine.derive(kernel, &[], &hints)?;
            return Ok(());
        }
        let number = engine.derive(kernel, &self.clause, &hints)?;
        if let [literal] = self.clause.as_slice() {
            engine.assign_settled(*literal);
            return Ok(());
        }
        let clause = engine.arena.push(&self.clause, 0, 0, number)?;
        if clause == NO_CLAUSE {
            engine.is_full = true;
            return Ok(());
        }
        engine.clauses.push(clause)?;
        self.add(engine, clause)?;
        for literal in engine.arena.literals(clause) {
            self.touch(*literal / 2)?;
        }
        Ok(())
    }

    fn add_resolvents<F: Formula>(
        &mut self,
        engine: &mut Engine,
        kernel: &mut Kernel<F>,
    ) -> Result<(), AllocError> {
        let mut from = 0;
        for place in 0..self.resolvents.list.len() {
            let Some(resolvent) = self.resolvents.list.get(place).copied() else {
                break;
            };
            self.add_resolvent(engine, kernel, from, resolvent)?;
            from = resolvent.end;
            if engine.is_done(kernel) {
                break;
            }
        }
        Ok(())
    }

    /// Notes which value the variable takes, and that it is gone.
    fn note_gone(
        &mut self,
        engine: &mut Engine,
        positive: &[u32],
        negative: &[u32],
        variable: u32,
    ) -> Result<(), AllocError> {
        let literal = variable.saturating_mul(2);
        if let Some(is_gone) = self.is_gone.get_mut(variable as usize) {
            *is_gone = true;
        }
        engine.queue.remove(variable);
        engine.stable.forbid(variable);
        if positive.len() <= negative.len() {
            engine.extension.note(&engine.arena, positive, literal)
        } else {
            engine.extension.note(&engine.arena, negative, literal | 1)
        }
    }

    fn eliminate<F: Formula>(
        &mut self,
        engine: &mut Engine,
        kernel: &mut Kernel<F>,
        variable: u32,
    ) -> Result<(), AllocError> {
        let literal = variable.saturating_mul(2);
        let positive = self.occurrences.take_live(&engine.arena, literal);
        let negative = self.occurrences.take_live(&engine.arena, literal | 1);
        if !self.resolve_all(&engine.arena, &positive, &negative, variable)? {
            self.occurrences.put(literal, positive);
            self.occurrences.put(literal | 1, negative);
            return Ok(());
        }
        self.note_gone(engine, &positive, &negative, variable)?;
        self.add_resolvents(engine, kernel)?;
        for clause in &positive {
            self.remove(engine, kernel, *clause)?;
        }
        for clause in &negative {
            self.remove(engine, kernel, *clause)?;
        }
        for place in 0..self.resolvents.literals.len() {
            if let Some(literal) = self.resolvents.literals.get(place).copied() {
                self.update(engine, literal / 2)?;
            }
        }
        Ok(())
    }

    /// Eliminates variables, the cheapest first, with subsumption behind each.
    pub(crate) fn eliminate_all<F: Formula>(
        &mut self,
        engine: &mut Engine,
        kernel: &mut Kernel<F>,
    ) -> Result<(), AllocError> {
        for _ in 0..usize::MAX {
            if engine.is_done(kernel) {
                break;
            }
            let Some(variable) = self.heap.pop() else {
                break;
            };
            if !self.is_gone(variable) && engine.trail.is_open(variable) {
                self.eliminate(engine, kernel, variable)?;
                self.subsume_all(engine, kernel)?;
            }
        }
        Ok(())
    }
}
