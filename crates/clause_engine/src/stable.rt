//! A search for values: variables by activity (Een and Sorensson 2003), the values of the longest
//! trail without a conflict, and restarts by the sequence of Luby, Sinclair and Zuckerman (1993).
use clause_store::heap::Heap;
use clause_store::queue::NO_VARIABLE;
use clause_store::trail::{FALSE, OPEN, TRUE, Trail, filled};
use std::alloc::{AllocError, Global};

/// Conflicts of the shortest run between restarts.
const RUN: u64 = 1024;

/// Conflicts before the first change of phases, and how much later each next one comes.
const PHASES: u64 = 1000;

/// A variable's activity is at most this far below `u64::MAX`.
const LEAST_COST: u64 = 1 << 62;

const FIRST_STEP: u64 = 1 << 20;

/// A stable order is the activities of variables, and the values that were best so far.
#[derive(Drop)]
pub struct Stable {
    /// The cost is `u64::MAX` less the activity.
    heap: Heap,
    /// What a conflict adds to an activity.
    step: u64,
    is_gone: Vec<bool>,
    /// By variable: its value on the longest trail without a conflict since the last change of
    /// phases, and on the longest of all since it was used; `OPEN` if it had none.
    targets: Vec<u8>,
    best: Vec<u8>,
    target_count: usize,
    best_count: usize,
    /// Conflicts until the next restart.
    left: u64,
    luby: u64,
    luby_run: u64,
    phases_at: u64,
    phases: u64,
    random: u64,
}

/// Notes the values of the first `count` literals of the trail.
fn copy_values(list: &mut [u8], trail: &Trail, count: usize) {
    for place in 0..count {
        let literal = trail.at(place);
        if let Some(value) = list.get_mut((literal / 2) as usize) {
            *value = if literal % 2 == 0 { TRUE } else { FALSE };
        }
    }
}

impl Stable {
    pub fn new(alloc: Global, variables: u32) -> Result<Stable, AllocError> {
        let size = variables as usize;
        let mut heap = Heap::new(alloc, size)?;
        for variable in 0..variables {
            heap.set_cost(variable, u64::MAX);
        }
        Ok(Stable {
            heap,
            step: FIRST_STEP,
            is_gone: filled(alloc, size, false)?,
            targets: filled(alloc, size, OPEN)?,
            best: filled(alloc, size, OPEN)?,
            target_count: 0,
            best_count: 0,
            left: RUN,
            luby: 1,
            luby_run: 1,
            phases_at: PHASES,
            phases: 0,
            random: FIRST_STEP,
        })
    }

    /// Takes an eliminated variable out.
    pub fn forbid(&mut self, variable: u32) {
        if let Some(is_gone) = self.is_gone.get_mut(variable as usize) {
            *is_gone = true;
        }
    }

    pub fn insert(&mut self, variable: u32) -> Result<(), AllocError> {
        if self.is_gone.get(variable as usize).copied() == Some(false) {
            self.heap.insert(variable)?;
        }
        Ok(())
    }

    /// The open variable of the greatest activity.
    pub fn next(&mut self, trail: &Trail) -> u32 {
        for _ in 0..u32::MAX {
            let Some(variable) = self.heap.first() else {
                break;
            };
            if trail.is_open(variable) {
                return variable;
            }
            self.heap.pop();
        }
        NO_VARIABLE
    }

    pub fn cost(&self, variable: u32) -> u64 {
        self.heap.cost(variable)
    }

    /// Adds to the activities of the variables of a conflict.
    pub fn bump(&mut self, variables: &[u32]) {
        let mut is_high = false;
        for variable in variables {
            let cost = self.heap.cost(*variable).saturating_sub(self.step);
            self.heap.set_cost(*variable, cost);
            is_high = is_high || cost < LEAST_COST;
        }
        self.step = self.step.saturating_add(self.step / 19);
        if is_high || self.step > LEAST_COST {
            self.heap.lower();
            self.step = (self.step >> 32).max(1);
        }
        self.left = self.left.saturating_sub(1);
    }

    /// Notes a trail without a conflict.
    pub fn note(&mut self, trail: &Trail, count: usize) {
        if count > self.target_count {
            self.target_count = count;
            copy_values(&mut self.targets, trail, count);
        }
        if count > self.best_count {
            self.best_count = count;
            copy_values(&mut self.best, trail, count);
        }
    }

    /// The literal of a variable that is to be decided.
    pub fn literal(&self, trail: &Trail, variable: u32) -> u32 {
        match self.targets.get(variable as usize).copied() {
            Some(TRUE) => variable.saturating_mul(2),
            Some(FALSE) => variable.saturating_mul(2) | 1,
            _ => trail.saved_literal(variable),
        }
    }

    /// Whether a restart is due. If it is, the next one is planned.
    pub fn restarts(&mut self) -> bool {
        if self.left > 0 {
            return false;
        }
        if self.luby & (!self.luby).wrapping_add(1) == self.luby_run {
            self.luby = self.luby.saturating_add(1);
            self.luby_run = 1;
        } else {
            self.luby_run = self.luby_run.saturating_mul(2);
        }
        self.left = self.luby_run.saturating_mul(RUN);
        true
    }

    pub fn changes_phases(&self, conflicts: u64) -> bool {
        self.phases_at <= conflicts
    }

    fn flip_some(&mut self, trail: &mut Trail, variables: u32) {
        for variable in 0..variables {
            self.random ^= self.random << 13;
            self.random ^= self.random >> 7;
            self.random ^= self.random << 17;
            if self.random % 2 == 0 {
                let is_true = trail.saved_literal(variable) % 2 == 0;
                trail.set_saved(variable, !is_true);
            }
        }
    }

    fn use_best(&self, trail: &mut Trail, variables: u32) {
        for variable in 0..variables {
            match self.best.get(variable as usize).copied() {
                Some(TRUE) => trail.set_saved(variable, true),
                Some(FALSE) => trail.set_saved(variable, false),
                _ => {}
            }
        }
    }

    /// Begins with other phases: the best ones, all true, all false, or some turned.
    pub fn change_phases(&mut self, trail: &mut Trail, variables: u32, conflicts: u64) {
        self.phases = self.phases.saturating_add(1);
        match self.phases % 6 {
            1 => set_each(trail, variables, true),
            3 => set_each(trail, variables, false),
            5 => self.flip_some(trail, variables),
            _ => self.use_best(trail, variables),
        }
        for target in self.targets.iter_mut() {
            *target = OPEN;
        }
        self.target_count = 0;
        self.best_count = 0;
        let wait = PHASES.saturating_mul(self.phases.saturating_add(1));
        self.phases_at = conflicts.saturating_add(wait);
    }
}

/// Sets the phase of each variable.
pub fn set_each(trail: &mut Trail, variables: u32, value: bool) {
    for variable in 0..variables {
        trail.set_saved(variable, value);
    }
}
