//! Marks of the choices of an activity, by mode.
ghost use Rattle.std.specs.Prelude.{◌≡◌, ℕ, ◌+◌, ◌-◌, ◌<◌, ◌≤◌, ◌||◌, ◌&&◌, ◌==◌, true, false, [], length, get_or, sum, nat_lt, IfOk};
ghost use Rattle.mrcpsp.specs.Project.{size, mode_count, duration};
ghost use Rattle.schedule_prices.specs.Choices.{is_marked, is_mode_of, is_in, with_piece};
ghost use Rattle.schedule_prices.specs.Rows.{supply};
ghost use Rattle.schedule_prices.specs.Dear.{is_above, is_dear};
ghost use Rattle.schedule_prices.specs.Steps.{ends_late};

use crate::choice_range::ChoiceRange;
use crate::costs::Costs;
use crate::least::sum_of;
use crate::start_marks::StartMarks;
use mrcpsp::Project;
use std::alloc::{AllocError, Global};
use std::marker::Model;

/// The marks of an activity's choices: of each mode, its starts.
#[derive(Drop)]
pub(crate) struct Choices {
    modes: Vec<StartMarks>,
}

impl Model for Choices {
    ghost use Rattle.std.specs.Prelude.{List, Bool};

    ghost Value = { List (List Bool) };

    ghost view = { λ choices. choices.modes.items };
}

fn has_mode(piece: &ChoiceRange, mode: usize) -> bool
    ensures { result ≡ is_mode_of piece.now.mode mode }
{
    match piece.mode {
        None => true,
        Some(only) => mode == only,
    }
}

/// Whether the mode and the start are in the piece.
pub(crate) fn holds(piece: &ChoiceRange, mode: usize, start: u32) -> bool
    ensures { result ≡ is_in piece.now mode start }
{
    has_mode(piece, mode) && piece.from <= start && start <= piece.to
}

impl Choices {
    /// Bars the starts after which a mode ends behind the bound, and nothing else.
    pub(crate) fn new(
        alloc: Global,
        project: &Project,
        bound: u32,
        activity: usize,
    ) -> Result<Choices, AllocError>
        requires activity { activity < size project.now }
        requires bound { bound < 1048576 }
        ensures { IfOk result (λ choices. (m t : ℕ) → m < mode_count project.now activity
            → get_or (get_or choices m []) t true ≡ nat_lt bound (t + duration project.now activity m)) }
    {
        let mut modes = Vec::new(alloc);
        for mode in 0..project.mode_count(activity) {
            let count = (bound + 1).saturating_sub(project.duration(activity, mode));
            modes.push(StartMarks::new(alloc, count as usize)?)?;
        }
        Ok(Choices { modes })
    }

    pub(crate) fn is_barred(&self, mode: usize, start: usize) -> bool
        ensures { result ≡ get_or (get_or self.now mode []) start true }
    {
        if mode < self.modes.len() {
            self.modes[mode].is_barred(start)
        } else {
            true
        }
    }

    /// Bars the choices that cost more than `most`.
    pub(crate) fn bar_above(&mut self, costs: &Costs, activity: usize, most: u64)
        requires activity { activity < size costs.now.project }
        requires ends { (m t : ℕ) → m < mode_count costs.now.project activity
            → get_or (get_or self.old m []) t true ≡ false
            → t + duration costs.now.project activity m ≤ costs.now.bound }
        requires low { costs.now.bound < 1048576 }
        ensures { (m t : ℕ) → get_or (get_or self.new m []) t true ≡ (get_or (get_or self.old m []) t true
            || is_above costs.now most activity m t) }
    {
        for mode in 0..self.modes.len() {
            if mode < costs.project().mode_count(activity) {
                let starts = &mut self.modes[mode];
                starts.bar_above(costs, activity, mode, most);
            }
        }
    }

    /// Bars the choices of the piece.
    pub(crate) fn bar(&mut self, piece: &ChoiceRange)
        ensures { (m t : ℕ) → get_or (get_or self.new m []) t true
            ≡ (get_or (get_or self.old m []) t true || is_in piece.now m t) }
    {
        for mode in 0..self.modes.len() {
            if has_mode(piece, mode) {
                let starts = &mut self.modes[mode];
                starts.bar(piece.from as usize, piece.to as usize);
            }
        }
    }
}

/// The choices of all activities. Those that end behind the bound are barred.
#[tactic(auto, unfolding(crate::specs::Choices::is_marked))]
pub(crate) fn all_choices(
    alloc: Global,
    project: &Project,
    bound: u32,
) -> Result<Vec<Choices>, AllocError>
    requires { bound < 1048576 }
    ensures { IfOk result (λ all. (j m t : ℕ) → j < size project.now → m < mode_count project.now j
        → is_marked all.items j m t ≡ ends_late project.now bound j m t) }
{
    let mut activities = Vec::new(alloc);
    for activity in 0..project.size() {
        activities.push(Choices::new(alloc, project, bound, activity)?)?;
    }
    Ok(activities)
}

/// Bars the choices of the piece.
pub(crate) fn bar_in(activities: &mut Vec<Choices>, piece: &ChoiceRange)
    ensures { (j m t : ℕ) → is_marked activities.new.items j m t
        ≡ with_piece (is_marked activities.old.items) piece.now.activity (is_in piece.now) j m t }
{
    if piece.activity < activities.len() {
        let choices = &mut activities[piece.activity];
        choices.bar(piece);
    }
}

/// Bars the choices of an activity that cost more than `most`.
fn bar_above_in(activities: &mut Vec<Choices>, costs: &Costs, activity: usize, most: u64)
    requires activity { activity < size costs.now.project }
    requires ends { (m t : ℕ) → m < mode_count costs.now.project activity
        → is_marked activities.old.items activity m t ≡ false
        → t + duration costs.now.project activity m ≤ costs.now.bound }
    requires low { costs.now.bound < 1048576 }
    ensures { (j m t : ℕ) → is_marked activities.new.items j m t
        ≡ with_piece (is_marked activities.old.items) activity (is_above costs.now most activity) j m t }
{
    if activity < activities.len() {
        let choices = &mut activities[activity];
        choices.bar_above(costs, activity, most);
    }
}

/// Bars the choices that cost more above the least of their activity than all least costs leave of
/// the supply.
pub(crate) fn bar_dear_in(activities: &mut Vec<Choices>, costs: &Costs, least: &[u64])
    requires size { length least.now ≡ size costs.now.project }
    requires within { sum least.now ≤ supply costs.now.project costs.now.prices }
    requires ends { (j m t : ℕ) → j < size costs.now.project → m < mode_count costs.now.project j
        → is_marked activities.old.items j m t ≡ false
        → t + duration costs.now.project j m ≤ costs.now.bound }
    requires low { costs.now.bound < 1048576 }
    ensures { (j m t : ℕ) → is_marked activities.new.items j m t ≡ (is_marked activities.old.items j m t
        || is_dear costs.now.project costs.now.prices least.now j m t) }
{
    let left = costs.supply() - sum_of(least);
    for activity in 0..least.len() {
        bar_above_in(activities, costs, activity, left + least[activity]);
    }
}
