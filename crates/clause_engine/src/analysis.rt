//! What is learned from a conflict: the clause of the first unique implication point, made smaller
//! (Sorensson and Biere 2009), with the clauses by which a kernel sees that it follows.
use clause_store::arena::{Arena, LEARNED, NO_CLAUSE, short};
use clause_store::queue::Queue;
use clause_store::trail::{Trail, filled, negated};
use std::alloc::{AllocError, Global};

/// The variable is of a literal of the lesson.
const IN_LESSON: u8 = 1;

/// The variable's literal follows from others of the lesson.
const REMOVABLE: u8 = 2;

/// It does not.
const POISON: u8 = 4;

/// Clauses of at most this glue outlive two reductions unused.
const GOOD_GLUE: u32 = 6;

/// A frame is a variable whose reason is walked through, from the place `at` on.
#[derive(Clone, Copy)]
struct Frame {
    variable: u32,
    at: usize,
}

/// A lesson is the level to go back to, and the number of levels of the learned clause.
#[derive(Clone, Copy)]
pub struct Lesson {
    pub level: usize,
    pub glue: u32,
}

#[derive(Drop)]
pub struct Analysis {
    /// By variable.
    states: Vec<u8>,
    /// Variables of the lesson before it was made smaller.
    pub analyzed: Vec<u32>,
    /// Other variables with a state.
    tried: Vec<u32>,
    frames: Vec<Frame>,
    /// By level.
    stamps: Vec<u64>,
    round: u64,
    /// The learned clause. The first literal is implied after the jump back, the second is of the
    /// level to go back to.
    pub clause: Vec<u32>,
    /// 2^32 · the place of an implied literal on the trail, and the number of its reason.
    hints: Vec<u64>,
    /// The hints of the learned clause, in the order of the trail.
    pub numbers: Vec<u32>,
    order: Vec<u64>,
    /// By literal: the last round in which it was of the learned clause.
    marks: Vec<u64>,
}

impl Analysis {
    pub fn new(alloc: Global, variables: u32) -> Result<Analysis, AllocError> {
        let size = variables as usize;
        Ok(Analysis {
            states: filled(alloc, size, 0)?,
            analyzed: Vec::new(alloc),
            tried: Vec::new(alloc),
            frames: Vec::new(alloc),
            stamps: filled(alloc, size + 1, 0)?,
            round: 0,
            clause: Vec::new(alloc),
            hints: Vec::new(alloc),
            numbers: Vec::new(alloc),
            order: Vec::new(alloc),
            marks: filled(alloc, 2 * size, 0)?,
        })
    }

    #[inline(always)]
    fn state(&self, variable: u32) -> u8 {
        match self.states.get(variable as usize) {
            Some(state) => *state,
            None => IN_LESSON,
        }
    }

    #[inline(always)]
    fn add_state(&mut self, variable: u32, state: u8) {
        if let Some(states) = self.states.get_mut(variable as usize) {
            *states |= state;
        }
    }

    fn clear_state(&mut self, variable: u32) {
        if let Some(states) = self.states.get_mut(variable as usize) {
            *states = 0;
        }
    }

    /// Whether this is the first literal of its level in this round.
    #[inline(always)]
    fn stamp_level(&mut self, level: u32) -> bool {
        let round = self.round;
        match self.stamps.get_mut(level as usize) {
            Some(stamp) => {
                let is_new = *stamp != round;
                *stamp = round;
                is_new
            }
            None => false,
        }
    }

    #[inline(always)]
    fn has_level(&self, level: u32) -> bool {
        match self.stamps.get(level as usize) {
            Some(stamp) => *stamp == self.round,
            None => false,
        }
    }

    fn hint(&mut self, place: u32, number: u32) -> Result<(), AllocError> {
        self.hints.push((place as u64) << 32 | number as u64)?;
        Ok(())
    }

    /// Counts the levels of a learned clause that was used again.
    fn refresh(&mut self, arena: &mut Arena, trail: &Trail, clause: u32) {
        if !arena.has(clause, LEARNED) {
            return;
        }
        let mut glue = arena.glue(clause);
        if glue > 2 {
            self.round = self.round.wrapping_add(1);
            let mut count = 0u32;
            for literal in arena.literals(clause) {
                if self.stamp_level(trail.level(*literal / 2)) {
                    count = count.saturating_add(1);
                    if count >= glue {
                        break;
                    }
                }
            }
            glue = glue.min(count);
        }
        arena.set_glue(clause, glue, if glue <= GOOD_GLUE { 2 } else { 1 });
    }

    /// Adds the false literals of a clause to the lesson. Returns how many are of the last level.
    fn resolve(
        &mut self,
        arena: &Arena,
        trail: &Trail,
        clause: u32,
        implied: u32,
    ) -> Result<usize, AllocError> {
        let here = short(trail.depth());
        let mut count = 0usize;
        for literal in arena.literals(clause) {
            let variable = *literal / 2;
            if *literal == implied || self.state(variable) != 0 {
                continue;
            }
            let level = trail.level(variable);
            if level == 0 {
                continue;
            }
            self.add_state(variable, IN_LESSON);
            self.analyzed.push(variable)?;
            if level >= here {
                count = count.saturating_add(1);
            } else {
                self.clause.push(*literal)?;
            }
        }
        Ok(count)
    }

    /// Ends a walk at a literal that does not follow: nor do those on the stack.
    fn poison(&mut self) -> Result<(), AllocError> {
        for place in 0..self.frames.len() {
            if let Some(frame) = self.frames.get(place).copied() {
                self.add_state(frame.variable, POISON);
                self.tried.push(frame.variable)?;
            }
        }
        self.frames.clear();
        Ok(())
    }

    /// Ends the walk of the last frame: its literal follows.
    fn remove(&mut self, arena: &Arena, trail: &Trail, frame: Frame) -> Result<(), AllocError> {
        let reason = trail.reason(frame.variable);
        self.hint(trail.place(frame.variable), arena.number(reason))?;
        self.add_state(frame.variable, REMOVABLE);
        self.tried.push(frame.variable)?;
        Ok(())
    }

    /// Whether a literal of the lesson follows from the others, through their reasons.
    fn is_removable(
        &mut self,
        arena: &Arena,
        trail: &Trail,
        literal: u32,
    ) -> Result<bool, AllocError> {
        let variable = literal / 2;
        if trail.reason(variable) == NO_CLAUSE || self.state(variable) & POISON != 0 {
            return Ok(false);
        }
        if self.state(variable) & REMOVABLE != 0 {
            return Ok(true);
        }
        self.frames.push(Frame { variable, at: 0 })?;
        for _ in 0..usize::MAX {
            let Some(mut frame) = self.frames.pop() else {
                return Ok(true);
            };
            let reason = trail.reason(frame.variable);
            if frame.at >= arena.size(reason) {
                self.remove(arena, trail, frame)?;
                continue;
            }
            let next = arena.literal(reason, frame.at) / 2;
            let variable = frame.variable;
            frame.at = frame.at.saturating_add(1);
            self.frames.push(frame)?;
            let level = trail.level(next);
            if next == variable || level == 0 || self.state(next) & (IN_LESSON | REMOVABLE) != 0 {
                continue;
            }
            if trail.reason(next) == NO_CLAUSE
                || self.state(next) & POISON != 0
                || !self.has_level(level)
            {
                self.poison()?;
                return Ok(false);
            }
            self.frames.push(Frame {
                variable: next,
                at: 0,
            })?;
        }
        Ok(false)
    }

    fn stamp_levels(&mut self, trail: &Trail) {
        self.round = self.round.wrapping_add(1);
        for place in 1..self.clause.len() {
            if let Some(literal) = self.clause.get(place).copied() {
                self.stamp_level(trail.level(literal / 2));
            }
        }
    }

    /// Drops the literals that follow from the others.
    fn minimize(&mut self, arena: &Arena, trail: &Trail) -> Result<(), AllocError> {
        self.stamp_levels(trail);
        let mut kept = 1;
        for place in 1..self.clause.len() {
            let Some(literal) = self.clause.get(place).copied() else {
                break;
            };
            if !self.is_removable(arena, trail, literal)? && kept < self.clause.len() {
                self.clause[kept] = literal;
                kept += 1;
            }
        }
        self.clause.truncate(kept);
        Ok(())
    }

    /// Counts the levels of the learned clause, and puts the deepest but one in the second place.
    fn lesson(&mut self, trail: &Trail) -> Lesson {
        self.round = self.round.wrapping_add(1);
        let (mut deepest, mut at, mut glue) = (0, 1, 1u32);
        for place in 1..self.clause.len() {
            if let Some(literal) = self.clause.get(place).copied() {
                let level = trail.level(literal / 2);
                if self.stamp_level(level) {
                    glue = glue.saturating_add(1);
                }
                if level > deepest {
                    deepest = level;
                    at = place;
                }
            }
        }
        if 1 < self.clause.len() && at < self.clause.len() {
            self.clause.swap(1, at);
        }
        Lesson {
            level: deepest as usize,
            glue,
        }
    }

    /// Learns the clause of the first unique implication point.
    pub fn analyze(
        &mut self,
        arena: &mut Arena,
        trail: &Trail,
        conflict: u32,
    ) -> Result<Lesson, AllocError> {
        self.clause.clear();
        self.clause.push(0)?;
        self.hints.clear();
        self.hint(u32::MAX, arena.number(conflict))?;
        self.refresh(arena, trail, conflict);
        let mut open = self.resolve(arena, trail, conflict, u32::MAX)?;
        for place in (0..trail.count()).rev() {
            let literal = trail.at(place);
            if self.state(literal / 2) & IN_LESSON == 0 {
                continue;
            }
            open = open.saturating_sub(1);
            if open == 0 {
                if let Some(first) = self.clause.first_mut() {
                    *first = negated(literal);
                }
                break;
            }
            let reason = trail.reason(literal / 2);
            self.hint(short(place), arena.number(reason))?;
            self.refresh(arena, trail, reason);
            open = open.saturating_add(self.resolve(arena, trail, reason, literal)?);
        }
        self.minimize(arena, trail)?;
        let lesson = self.lesson(trail);
        self.order_hints()?;
        self.clear_states();
        Ok(lesson)
    }

    /// Marks the literals of the learned clause alone.
    pub fn mark_clause(&mut self) {
        self.round = self.round.wrapping_add(1);
        for literal in self.clause.as_slice() {
            if let Some(mark) = self.marks.get_mut(*literal as usize) {
                *mark = self.round;
            }
        }
    }

    /// Whether a clause has all literals of the learned one.
    pub fn is_within(&self, literals: &[u32]) -> bool {
        let mut missing = self.clause.len();
        let mut left = literals.len();
        for literal in literals {
            if left < missing {
                return false;
            }
            left = left.saturating_sub(1);
            if self.marks.get(*literal as usize).copied() == Some(self.round) {
                missing = missing.saturating_sub(1);
            }
        }
        missing == 0
    }

    fn order_hints(&mut self) -> Result<(), AllocError> {
        self.hints.sort_unstable();
        self.numbers.clear();
        let mut last = u64::MAX;
        for place in 0..self.hints.len() {
            if let Some(hint) = self.hints.get(place).copied() {
                if hint != last {
                    self.numbers.push((hint % 4_294_967_296) as u32)?;
                }
                last = hint;
            }
        }
        Ok(())
    }

    fn clear_states(&mut self) {
        for place in 0..self.analyzed.len() {
            if let Some(variable) = self.analyzed.get(place).copied() {
                self.clear_state(variable);
            }
        }
        for place in 0..self.tried.len() {
            if let Some(variable) = self.tried.get(place).copied() {
                self.clear_state(variable);
            }
        }
        self.tried.clear();
    }

    pub fn forget_analyzed(&mut self) {
        self.analyzed.clear();
    }

    /// Moves the variables of the conflict to the end of the queue, in the order that they have.
    pub fn bump(&mut self, queue: &mut Queue, trail: &Trail) -> Result<(), AllocError> {
        self.order.clear();
        for variable in self.analyzed.as_slice() {
            self.order
                .push((queue.stamp(*variable) << 32) | *variable as u64)?;
        }
        self.order.sort_unstable();
        for word in self.order.as_slice() {
            let variable = (*word % 4_294_967_296) as u32;
            queue.bump(variable, trail.is_open(variable));
        }
        Ok(())
    }
}
