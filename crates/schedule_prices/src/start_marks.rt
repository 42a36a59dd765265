//! Marks of the starts of an activity in a mode.
ghost use Rattle.std.specs.Prelude.{◌≡◌, ℕ, ◌+◌, ◌<◌, ◌≤◌, ◌||◌, ◌&&◌, nat_le, nat_lt, true, false, get_or, replicate, IfOk};
ghost use Rattle.mrcpsp.specs.Project.{size, mode_count, duration};
ghost use Rattle.schedule_prices.specs.Rows.{cost};

use crate::costs::Costs;
use std::alloc::{AllocError, Global};
use std::marker::Model;

/// A `StartMarks` is a mark for each start of an activity in a mode, true if it is barred. A start
/// without a mark is barred.
#[derive(Drop)]
pub(crate) struct StartMarks {
    barred: Vec<bool>,
}

impl Model for StartMarks {
    ghost use Rattle.std.specs.Prelude.{List, Bool};

    ghost Value = { List Bool };

    ghost view = { λ starts. starts.barred.items };
}

impl StartMarks {
    pub(crate) fn new(alloc: Global, count: usize) -> Result<StartMarks, AllocError>
        ensures { IfOk result (λ starts. starts ≡ replicate count false) }
    {
        let barred = vec![in alloc; false; count]?;
        Ok(StartMarks { barred })
    }

    pub(crate) fn is_barred(&self, start: usize) -> bool
        ensures { result ≡ get_or self.now start true }
    {
        start >= self.barred.len() || self.barred[start]
    }

    /// Bars the starts `from` to `to`, both included.
    pub(crate) fn bar(&mut self, from: usize, to: usize)
        ensures { (t : ℕ) → get_or self.new t true
            ≡ (get_or self.old t true || (nat_le from t && nat_le t to)) }
    {
        for start in from..self.barred.len() {
            if start <= to {
                self.barred[start] = true;
            }
        }
    }

    /// Bars the starts that cost more than `most`.
    pub(crate) fn bar_above(&mut self, costs: &Costs, activity: usize, mode: usize, most: u64)
        requires activity { activity < size costs.now.project }
        requires mode { mode < mode_count costs.now.project activity }
        requires ends { (t : ℕ) → get_or self.old t true ≡ false
            → t + duration costs.now.project activity mode ≤ costs.now.bound }
        requires low { costs.now.bound < 1048576 }
        ensures { (t : ℕ) → get_or self.new t true ≡ (get_or self.old t true
            || nat_lt most (cost costs.now.project costs.now.prices activity mode t)) }
    {
        for start in 0..self.barred.len() {
            if !self.barred[start] && most < costs.of(activity, mode, start as u32) {
                self.barred[start] = true;
            }
        }
    }
}
