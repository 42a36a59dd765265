//! Which literals are true, since when, and why.
ghost use Rattle.std.specs.Prelude.{◌≤◌, length};

use crate::arena::{NO_CLAUSE, short};
use crate::queue::Queue;
use std::alloc::{AllocError, Global};

pub const OPEN: u8 = 0;

pub const TRUE: u8 = 1;

pub const FALSE: u8 = 2;

/// When and why a variable was assigned.
#[derive(Clone, Copy)]
struct Cause {
    level: u32,
    reason: u32,
    place: u32,
}

const NO_CAUSE: Cause = Cause {
    level: 0,
    reason: NO_CLAUSE,
    place: 0,
};

/// A trail is the true literals in the order in which they were assigned.
#[derive(Drop)]
pub struct Trail {
    values: Vec<u8>,
    causes: Vec<Cause>,
    /// As long as there are variables; the first `count` are true.
    literals: Vec<u32>,
    count: usize,
    /// Literals before this place were propagated.
    head: usize,
    /// `count` before each decision.
    limits: Vec<usize>,
    saved: Vec<u8>,
}

#[inline(always)]
pub fn negated(literal: u32) -> u32 {
    literal ^ 1
}

pub fn filled<T: Copy>(alloc: Global, size: usize, value: T) -> Result<Vec<T>, AllocError> {
    let mut list = Vec::with_capacity(alloc, size)?;
    list.resize(size, value)?;
    Ok(list)
}

impl Trail {
    pub fn new(alloc: Global, variables: u32) -> Result<Trail, AllocError> {
        let size = variables as usize;
        Ok(Trail {
            values: filled(alloc, 2 * size, OPEN)?,
            causes: filled(alloc, size, NO_CAUSE)?,
            literals: filled(alloc, size, 0)?,
            count: 0,
            head: 0,
            limits: Vec::with_capacity(alloc, size)?,
            saved: filled(alloc, size, 1)?,
        })
    }

    #[inline(always)]
    pub fn value(&self, literal: u32) -> u8 {
        match self.values.get(literal as usize) {
            Some(value) => *value,
            None => FALSE,
        }
    }

    #[inline(always)]
    pub fn is_open(&self, variable: u32) -> bool {
        self.value(variable.saturating_mul(2)) == OPEN
    }

    #[inline(always)]
    fn cause(&self, variable: u32) -> Cause {
        match self.causes.get(variable as usize) {
            Some(cause) => *cause,
            None => NO_CAUSE,
        }
    }

    #[inline(always)]
    pub fn level(&self, variable: u32) -> u32 {
        self.cause(variable).level
    }

    #[inline(always)]
    pub fn reason(&self, variable: u32) -> u32 {
        self.cause(variable).reason
    }

    pub fn set_reason(&mut self, variable: u32, reason: u32) {
        if let Some(cause) = self.causes.get_mut(variable as usize) {
            cause.reason = reason;
        }
    }

    #[inline(always)]
    pub fn place(&self, variable: u32) -> u32 {
        self.cause(variable).place
    }

    pub fn depth(&self) -> usize {
        self.limits.len()
    }

    pub fn count(&self) -> usize {
        self.count
    }

    /// How many literals are true at level 0.
    pub fn root_count(&self) -> usize {
        match self.limits.first() {
            Some(limit) => *limit,
            None => self.count,
        }
    }

    /// How many literals were true before the last decision.
    pub fn last_limit(&self) -> usize {
        match self.limits.last() {
            Some(limit) => *limit,
            None => 0,
        }
    }

    #[inline(always)]
    pub fn assign(&mut self, literal: u32, reason: u32) {
        let at = literal as usize;
        let other = negated(literal) as usize;
        let variable = (literal / 2) as usize;
        if self.count < self.literals.len()
            && at < self.values.len()
            && other < self.values.len()
            && variable < self.causes.len()
        {
            self.values[at] = TRUE;
            self.values[other] = FALSE;
            self.causes[variable] = Cause {
                level: short(self.limits.len()),
                reason,
                place: short(self.count),
            };
            self.literals[self.count] = literal;
            self.count += 1;
        }
    }

    #[inline(always)]
    pub fn at(&self, place: usize) -> u32 {
        match self.literals.get(place) {
            Some(literal) => *literal,
            None => 0,
        }
    }

    /// The next literal to be propagated.
    #[inline(always)]
    pub fn advance(&mut self) -> Option<u32> {
        if self.head < self.count && self.head < self.literals.len() {
            let literal = self.literals[self.head];
            self.head += 1;
            Some(literal)
        } else {
            None
        }
    }

    /// Whether a literal waits to be propagated.
    pub fn is_pending(&self) -> bool {
        self.head < self.count
    }

    /// Takes all literals as propagated.
    pub fn finish(&mut self) {
        self.head = self.count;
    }

    pub fn decide(&mut self, literal: u32) -> Result<(), AllocError> {
        self.limits.push(self.count)?;
        self.assign(literal, NO_CLAUSE);
        Ok(())
    }

    /// The variable that was decided at a level below the last.
    pub fn decided(&self, level: usize) -> u32 {
        match self.limits.get(level) {
            Some(limit) => self.at(*limit) / 2,
            None => 0,
        }
    }

    #[inline(always)]
    fn undo(&mut self, literal: u32) {
        let at = literal as usize;
        let other = negated(literal) as usize;
        let variable = (literal / 2) as usize;
        if at < self.values.len() && other < self.values.len() && variable < self.saved.len() {
            self.values[at] = OPEN;
            self.values[other] = OPEN;
            self.saved[variable] = (literal & 1) as u8;
        }
    }

    pub fn backtrack(&mut self, level: usize, queue: &mut Queue) {
        if self.limits.len() <= level {
            return;
        }
        let to = self.limits[level];
        for place in to..self.count {
            let literal = self.at(place);
            self.undo(literal);
            queue.opened(literal / 2);
        }
        self.count = self.count.min(to);
        self.head = self.count;
        self.limits.truncate(level);
    }

    /// The literal of a variable that was true last.
    pub fn saved_literal(&self, variable: u32) -> u32 {
        let sign = match self.saved.get(variable as usize) {
            Some(sign) => *sign as u32 & 1,
            None => 1,
        };
        variable.saturating_mul(2) | sign
    }

    pub fn set_saved(&mut self, variable: u32, value: bool) {
        if let Some(sign) = self.saved.get_mut(variable as usize) {
            *sign = !value as u8;
        }
    }

    pub fn forget_reasons(&mut self) {
        for cause in self.causes.iter_mut() {
            cause.reason = NO_CLAUSE;
        }
    }
}
