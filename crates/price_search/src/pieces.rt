//! Pieces of the choices: which are tried, and which cost too much.
use crate::model::{BAR, ModeStarts, Model};
use schedule_prices::{Barred, ChoiceRange};
use std::alloc::{AllocError, Global};

/// Whether the piece, of this activity, has the choice.
fn has(piece: &ChoiceRange, mode: usize, start: usize) -> bool {
    let inside = piece.from as usize <= start && start <= piece.to as usize;
    inside && piece.mode.is_none_or(|only| only == mode)
}

fn is_left(model: &Model, starts: &ModeStarts, at: usize) -> bool {
    model.bars.get(starts.place.saturating_add(at)).copied() == Some(0)
}

fn set_bar(model: &mut Model, place: usize, bar: i64) {
    if place < model.bars.len() {
        model.bars[place] = bar;
    }
}

fn modes_of(model: &Model, activity: usize) -> (usize, usize) {
    model.modes.get(activity).copied().unwrap_or((0, 0))
}

fn starts_at(model: &Model, place: usize) -> Option<ModeStarts> {
    model.starts.get(place).copied()
}

/// Bars the starts that lie outside the piece. Returns how many are left.
fn keep_starts(model: &mut Model, piece: &ChoiceRange, starts: &ModeStarts) -> usize {
    let mut left = 0usize;
    for at in 0..starts.count {
        let start = starts.first.saturating_add(at);
        if !has(piece, starts.mode, start) {
            set_bar(model, starts.place.saturating_add(at), BAR);
        } else if is_left(model, starts, at) {
            left = left.saturating_add(1);
        }
    }
    left
}

/// Bars the choices of the piece's activity outside the piece. Returns how many are left.
pub(crate) fn keep(model: &mut Model, piece: &ChoiceRange) -> usize {
    let mut left = 0usize;
    let (from, to) = modes_of(model, piece.activity);
    for place in from..to {
        if let Some(starts) = starts_at(model, place) {
            left = left.saturating_add(keep_starts(model, piece, &starts));
        }
    }
    left
}

fn leave_starts(model: &mut Model, barred: &Barred, activity: usize, starts: &ModeStarts) {
    for at in 0..starts.count {
        let start = u32::try_from(starts.first.saturating_add(at)).unwrap_or(u32::MAX);
        let bar = if barred.is_barred(activity, starts.mode, start) {
            BAR
        } else {
            0
        };
        set_bar(model, starts.place.saturating_add(at), bar);
    }
}

/// Leaves out the choices of the activity that are barred, and no others.
pub(crate) fn leave_out(model: &mut Model, barred: &Barred, activity: usize) {
    let (from, to) = modes_of(model, activity);
    for place in from..to {
        if let Some(starts) = starts_at(model, place) {
            leave_starts(model, barred, activity, &starts);
        }
    }
}

/// Leaves out the choices that are barred, and no others.
pub(crate) fn leave_out_all(model: &mut Model, barred: &Barred) {
    for activity in 0..model.modes.len() {
        leave_out(model, barred, activity);
    }
}

/// The number of choices left.
pub(crate) fn count_left(model: &Model) -> usize {
    model.bars.iter().filter(|bar| **bar == 0).count()
}

/// Marks the starts that are left in some mode.
fn mark(model: &Model, activity: usize, marks: &mut [bool]) {
    marks.fill(false);
    let (from, to) = modes_of(model, activity);
    for place in from..to {
        if let Some(starts) = model.starts.get(place) {
            mark_starts(model, starts, marks);
        }
    }
}

fn mark_starts(model: &Model, starts: &ModeStarts, marks: &mut [bool]) {
    for at in 0..starts.count {
        let start = starts.first.saturating_add(at);
        if start < marks.len() && is_left(model, starts, at) {
            marks[start] = true;
        }
    }
}

/// The start that `count` marked ones precede.
fn start_after(marks: &[bool], count: usize) -> u32 {
    let mut seen = 0usize;
    for at in 0..marks.len() {
        if marks[at] {
            if seen == count {
                return u32::try_from(at).unwrap_or(u32::MAX);
            }
            seen = seen.saturating_add(1);
        }
    }
    u32::MAX
}

/// The pieces of an activity that are tried: each mode if there are several, and the first and the
/// last third of its starts.
pub(crate) fn pieces_of(
    model: &Model,
    activity: usize,
    marks: &mut [bool],
    pieces: &mut Vec<ChoiceRange>,
) -> Result<(), AllocError> {
    pieces.clear();
    let (from, to) = modes_of(model, activity);
    let whole = ChoiceRange {
        activity,
        mode: None,
        from: 0,
        to: u32::MAX,
    };
    if to.saturating_sub(from) > 1 {
        for place in from..to {
            if let Some(starts) = model.starts.get(place) {
                let mode = Some(starts.mode);
                pieces.push(ChoiceRange { mode, ..whole })?;
            }
        }
    }
    mark(model, activity, marks);
    let left = marks.iter().filter(|mark| **mark).count();
    let third = left / 3;
    if third > 0 {
        let to = start_after(marks, third.saturating_sub(1));
        let from = start_after(marks, left.saturating_sub(third));
        pieces.push(ChoiceRange { to, ..whole })?;
        pieces.push(ChoiceRange { from, ..whole })?;
    }
    Ok(())
}

/// A table to mark starts in, for any activity.
pub(crate) fn marks_of(alloc: Global, model: &Model) -> Result<Vec<bool>, AllocError> {
    vec![in alloc; false; model.width()]
}
