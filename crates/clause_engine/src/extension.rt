//! Values of eliminated variables (Jarvisalo and Biere 2010).
use clause_store::arena::{Arena, short};
use std::alloc::{AllocError, Global};

/// An extension is the clauses that elimination took away and that tell the variable's value.
#[derive(Drop)]
pub struct Extension {
    /// By clause: the literal of the eliminated variable, the others, and their number.
    words: Vec<u32>,
}

fn is_true(values: &[bool], literal: u32) -> bool {
    match values.get((literal / 2) as usize) {
        Some(value) => *value == (literal % 2 == 0),
        None => false,
    }
}

fn make_true(values: &mut [bool], literal: u32) {
    if let Some(value) = values.get_mut((literal / 2) as usize) {
        *value = literal % 2 == 0;
    }
}

impl Extension {
    pub fn new(alloc: Global) -> Extension {
        Extension {
            words: Vec::new(alloc),
        }
    }

    fn add(&mut self, literals: &[u32], first: u32) -> Result<(), AllocError> {
        self.words.push(first)?;
        for literal in literals {
            if *literal != first {
                self.words.push(*literal)?;
            }
        }
        self.words.push(short(literals.len()))?;
        Ok(())
    }

    /// Notes that a literal is true if one of its clauses needs it, and else false.
    pub fn note(&mut self, arena: &Arena, clauses: &[u32], literal: u32) -> Result<(), AllocError> {
        for clause in clauses {
            self.add(arena.literals(*clause), literal)?;
        }
        self.add(&[literal ^ 1], literal ^ 1)
    }

    /// Gives the eliminated variables their values, the last one first.
    pub fn extend(&self, values: &mut [bool]) {
        let mut end = self.words.len();
        for _ in 0..self.words.len() {
            if end == 0 || end > self.words.len() {
                break;
            }
            let size = self.words[end - 1] as usize;
            let from = (end - 1).saturating_sub(size);
            let mut needs = true;
            for literal in &self.words[from..end - 1] {
                if is_true(values, *literal) {
                    needs = false;
                    break;
                }
            }
            if needs {
                make_true(values, self.words[from]);
            }
            end = from;
        }
    }
}
