//! Bounds refuted by cases: choices that prices of their own bar, until prices refute the rest.
ghost use Rattle.std.specs.Prelude.{◌≡◌, IsTrue, IfOk};
ghost use Rattle.schedule_prices.specs.Choices.{EachExceeds};

use crate::effort::{Effort, LEAST_STRETCH};
use crate::model::{BoundQuestion, Model};
use crate::pace::FIRST_THETA;
use crate::pieces::{count_left, keep, leave_out, leave_out_all, marks_of, pieces_of};
use crate::rounding::listed;
use crate::slope::RowState;
use crate::steps::{Steps, StepsEnd};
use mrcpsp::Project;
use schedule_prices::{Barred, ChoiceRange};
use std::alloc::{AllocError, Global};

/// The most steps for all pieces of all bounds of a project.
pub const MOST_PIECE_STEPS: u32 = 3_000;

const PIECE_STEPS: u32 = 60;
/// The steps in which a piece has to get dearer.
const FIRST_STEPS: u32 = 20;
/// A thirtieth of the first step.
const PIECE_THETA: i64 = 3_277;

const ROUNDS: u32 = 3;

/// A `Cases` is a search for prices with the best ones so far, from which that of a piece begins.
#[derive(Drop)]
struct Cases {
    search: Steps,
    best: Vec<i64>,
    /// What steps had seen of the rows by then.
    rows: Vec<RowState>,
    /// The stretch of all choices left at the best prices.
    stretch: i64,
    marks: Vec<bool>,
    /// Steps for pieces that are left.
    left: u32,
}

/// Bars the choices that are too dear by the rounded prices (reduced cost fixing).
fn bar_dear(alloc: Global, barred: &mut Barred, cases: &Cases) -> Result<(), AllocError>
    ensures project { barred.new.project ≡ barred.old.project }
    ensures bound { barred.new.bound ≡ barred.old.bound }
{
    let prices = listed(alloc, &cases.search.model, &cases.search.rounded)?;
    barred.bar_dear(alloc, &prices)?;
    Ok(())
}

/// Bars the piece if the rounded prices refute it.
fn bar_piece(
    alloc: Global,
    barred: &mut Barred,
    cases: &Cases,
    piece: ChoiceRange,
) -> Result<(), AllocError>
    ensures project { barred.new.project ≡ barred.old.project }
    ensures bound { barred.new.bound ≡ barred.old.bound }
{
    let prices = listed(alloc, &cases.search.model, &cases.search.rounded)?;
    barred.bar_piece(alloc, &prices, piece)?;
    Ok(())
}

/// Steps for a piece, from the best prices. `None` if the piece is not dearer than all choices there,
/// or does not get dearer soon.
fn run_piece(cases: &mut Cases) -> Option<StepsEnd> {
    let search = &mut cases.search;
    search.resume(&cases.best, &cases.rows, PIECE_THETA);
    let mut ended = search.run(1);
    let first = search.most;
    if ended == StepsEnd::Open {
        if first <= cases.stretch {
            return None;
        }
        ended = search.run(FIRST_STEPS);
    }
    if ended == StepsEnd::Open {
        if search.most <= first {
            return None;
        }
        ended = search.run(PIECE_STEPS);
    }
    Some(ended)
}

/// The stretch of all choices left at the best prices.
fn measure(cases: &mut Cases) {
    cases.search.restart(&cases.best, PIECE_THETA);
    cases.search.run(1);
    cases.stretch = cases.search.most;
}

/// Looks for prices that refute the piece. Bars it, or else the choices that are dear by these.
fn try_piece(
    alloc: Global,
    barred: &mut Barred,
    cases: &mut Cases,
    piece: ChoiceRange,
) -> Result<(), AllocError>
    ensures project { barred.new.project ≡ barred.old.project }
    ensures bound { barred.new.bound ≡ barred.old.bound }
{
    if cases.left == 0 || keep(&mut cases.search.model, &piece) == 0 {
        leave_out(&mut cases.search.model, barred, piece.activity);
        return Ok(());
    }
    let ended = run_piece(cases);
    cases.left = cases.left.saturating_sub(cases.search.taken_steps);
    match ended {
        None => {
            leave_out(&mut cases.search.model, barred, piece.activity);
            return Ok(());
        }
        Some(StepsEnd::Refuted) => bar_piece(alloc, barred, cases, piece)?,
        Some(_) => bar_dear(alloc, barred, cases)?,
    }
    leave_out_all(&mut cases.search.model, barred);
    Ok(())
}

/// Tries the pieces of an activity.
fn try_activity(
    alloc: Global,
    barred: &mut Barred,
    cases: &mut Cases,
    activity: usize,
) -> Result<(), AllocError>
    ensures project { barred.new.project ≡ barred.old.project }
    ensures bound { barred.new.bound ≡ barred.old.bound }
{
    let mut pieces = Vec::new(alloc);
    measure(cases);
    pieces_of(&cases.search.model, activity, &mut cases.marks, &mut pieces)?;
    for piece in pieces {
        try_piece(alloc, barred, cases, piece)?;
    }
    Ok(())
}

/// Tries the pieces of each activity.
fn try_all(alloc: Global, barred: &mut Barred, cases: &mut Cases) -> Result<(), AllocError>
    ensures project { barred.new.project ≡ barred.old.project }
    ensures bound { barred.new.bound ≡ barred.old.bound }
{
    for activity in 0..cases.search.model.modes.len() {
        try_activity(alloc, barred, cases, activity)?;
        barred.tighten();
        leave_out_all(&mut cases.search.model, barred);
    }
    Ok(())
}

/// Bars what the best prices show to be dear, and what precedences then leave no room for.
fn reduce(alloc: Global, barred: &mut Barred, cases: &mut Cases) -> Result<(), AllocError>
    ensures project { barred.new.project ≡ barred.old.project }
    ensures bound { barred.new.bound ≡ barred.old.bound }
{
    cases.best.clear();
    cases.best.extend_from_slice(&cases.search.best)?;
    cases.search.save_rows(&mut cases.rows)?;
    bar_dear(alloc, barred, cases)?;
    barred.tighten();
    leave_out_all(&mut cases.search.model, barred);
    Ok(())
}

/// One round of pieces, then steps for all that is left. Returns whether the steps believe that
/// their prices refute the bound.
fn try_round(
    alloc: Global,
    barred: &mut Barred,
    cases: &mut Cases,
    steps: u32,
) -> Result<bool, AllocError>
    ensures project { barred.new.project ≡ barred.old.project }
    ensures bound { barred.new.bound ≡ barred.old.bound }
{
    try_all(alloc, barred, cases)?;
    cases.search.restart(&cases.best, FIRST_THETA);
    if cases.search.run(steps) == StepsEnd::Refuted {
        return Ok(true);
    }
    reduce(alloc, barred, cases)?;
    Ok(false)
}

/// Rounds of pieces until the steps believe that their prices refute the bound, or little is barred.
fn try_rounds(
    alloc: Global,
    barred: &mut Barred,
    cases: &mut Cases,
    steps: u32,
) -> Result<(), AllocError>
    ensures project { barred.new.project ≡ barred.old.project }
    ensures bound { barred.new.bound ≡ barred.old.bound }
{
    for _ in 0..ROUNDS {
        let before = count_left(&cases.search.model);
        if try_round(alloc, barred, cases, steps)? {
            return Ok(());
        }
        let after = count_left(&cases.search.model);
        if cases.left == 0 || after.saturating_mul(500) > before.saturating_mul(499) {
            return Ok(());
        }
    }
    Ok(())
}

/// Steps for all choices, then rounds of pieces if these do not refute the bound.
fn try_cases(
    alloc: Global,
    barred: &mut Barred,
    cases: &mut Cases,
    effort: Effort,
) -> Result<(), AllocError>
    ensures project { barred.new.project ≡ barred.old.project }
    ensures bound { barred.new.bound ≡ barred.old.bound }
{
    let items = cases.search.model.items();
    let ended = cases.search.run(effort.steps_for(items));
    let stretch = cases.search.most;
    if ended == StepsEnd::Refuted || stretch < LEAST_STRETCH {
        return Ok(());
    }
    reduce(alloc, barred, cases)?;
    if !effort.tries_pieces(items, stretch) {
        return Ok(());
    }
    try_rounds(alloc, barred, cases, effort.steps)
}

/// Whether prices and pieces refute the bound of the table. The table gets the choices that they
/// bar. `left` is the steps left for pieces.
pub(crate) fn refute_by_cases(
    alloc: Global,
    project: &Project,
    barred: &mut Barred,
    effort: Effort,
    left: &mut u32,
) -> Result<bool, AllocError>
    ensures right { IfOk result (λ refuted. IsTrue refuted → EachExceeds barred.old.project barred.old.bound) }
    ensures project { barred.new.project ≡ barred.old.project }
    ensures bound { barred.new.bound ≡ barred.old.bound }
{
    let BoundQuestion::Open(model) = Model::new(alloc, project, barred.bound(), barred)? else {
        return barred.refute(alloc, &[]);
    };
    let marks = marks_of(alloc, &model)?;
    let mut cases = Cases {
        search: Steps::new(alloc, model)?,
        best: Vec::new(alloc),
        rows: Vec::new(alloc),
        stretch: 0,
        marks,
        left: *left,
    };
    try_cases(alloc, barred, &mut cases, effort)?;
    *left = cases.left;
    let prices = listed(alloc, &cases.search.model, &cases.search.rounded)?;
    barred.refute(alloc, &prices)
}
