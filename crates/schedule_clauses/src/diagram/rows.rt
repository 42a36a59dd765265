//! The clauses of a capacity row, by its diagram.
ghost use Rattle.std.specs.Prelude.{◌≡◌, ◌||◌, cond, min, nat_lt, IfOk};
ghost use Rattle.schedule_clauses.specs.LeftOut.{AreBefore, IsRowOf, with_row};

use crate::diagram::{Demand, Diagram, Level, in_order};
use crate::forms::amounts::{Descent, all, fewer, take};
use crate::formula::CapacityRow;
use crate::scope::Clauses;
use std::alloc::AllocError;

/// The most clauses of all rows together: half a gigabyte of them.
const MOST_ROW_CLAUSES: usize = 8_000_000;

#[derive(Clone, Copy)]
struct RowLevel<'a> {
    row: CapacityRow,
    diagram: &'a Diagram,
    level: Level,
}

fn demand_clauses(
    clauses: &mut Clauses<'_>,
    place: RowLevel<'_>,
    demand: Demand,
    amount: u32,
    below: &mut Vec<u32>,
) -> Result<(), AllocError>
    ensures { clauses.new ≡ clauses.old }
{
    let RowLevel {
        row,
        diagram,
        level,
    } = place;
    let from = level.up_to(amount);
    if amount < demand.amount {
        return take(clauses, row, demand, Descent { from, to: None });
    }
    let Some(most) = diagram.greatest(level.place, amount - demand.amount) else {
        return Ok(());
    };
    below.push(most)?;
    let to = Some(level.under(most));
    take(clauses, row, demand, Descent { from, to })
}

/// The activities up to a level take no less than those below it.
fn skip_clauses(
    clauses: &mut Clauses<'_>,
    place: RowLevel<'_>,
    amount: u32,
    below: &mut Vec<u32>,
) -> Result<(), AllocError>
    ensures { clauses.new ≡ clauses.old }
{
    let RowLevel {
        row,
        diagram,
        level,
    } = place;
    let Some(most) = diagram.greatest(level.place, amount) else {
        return Ok(());
    };
    below.push(most)?;
    fewer(clauses, row, level.up_to(amount), level.under(most))
}

/// `amount` is left for the activities up to this level. What it leaves to the levels below goes to
/// `below`.
fn node_clauses(
    clauses: &mut Clauses<'_>,
    place: RowLevel<'_>,
    amount: u32,
    below: &mut Vec<u32>,
) -> Result<(), AllocError>
    ensures { clauses.new ≡ clauses.old }
{
    skip_clauses(clauses, place, amount, below)?;
    for demand in place.diagram.demands_of(place.level) {
        demand_clauses(clauses, place, *demand, amount, below)?;
    }
    Ok(())
}

/// Returns the nodes of the level below.
fn level_clauses(
    clauses: &mut Clauses<'_>,
    place: RowLevel<'_>,
    amounts: &[u32],
) -> Result<Vec<u32>, AllocError>
    ensures { clauses.new ≡ clauses.old }
{
    let mut below = Vec::new(clauses.alloc());
    for amount in amounts {
        node_clauses(clauses, place, *amount, &mut below)?;
    }
    in_order(clauses.alloc(), below)
}

/// A `ClauseBudget` is how many clauses all rows to come may have, and each of them.
#[derive(Drop)]
pub(crate) struct ClauseBudget {
    left: usize,
    each: usize,
}

impl ClauseBudget {
    /// Each row may have four times its equal share, since most rows are smaller.
    pub(crate) fn of(rows: usize) -> ClauseBudget {
        let shares = rows.max(1);
        ClauseBudget {
            left: MOST_ROW_CLAUSES,
            each: MOST_ROW_CLAUSES.saturating_mul(4) / shares,
        }
    }

    pub(crate) fn most(&self) -> usize
        ensures { result ≡ min self.now.each self.now.left }
    {
        self.each.min(self.left)
    }

    fn take(&mut self, clauses: usize) {
        self.left = self.left.saturating_sub(clauses);
    }
}

fn diagram_clauses(
    clauses: &mut Clauses<'_>,
    row: CapacityRow,
    diagram: &Diagram,
) -> Result<(), AllocError>
    ensures { clauses.new ≡ clauses.old }
{
    let levels = diagram.levels.len();
    let (Some(most), Some(last)) = (
        diagram.greatest(levels, diagram.capacity),
        diagram.levels.last(),
    ) else {
        return Ok(());
    };
    all(clauses, row, last.up_to(most))?;
    let mut amounts = Vec::new(clauses.alloc());
    amounts.push(most)?;
    for level in diagram.levels.iter().rev() {
        let place = RowLevel {
            row,
            diagram,
            level: *level,
        };
        amounts = level_clauses(clauses, place, &amounts)?;
    }
    Ok(())
}

/// Leaves a row out that is too large, or larger than `budget` has left.
pub(crate) fn row_clauses(
    clauses: &mut Clauses<'_>,
    row: CapacityRow,
    diagram: &Diagram,
    budget: &mut ClauseBudget,
) -> Result<(), AllocError>
    requires row { IsRowOf clauses.old.project clauses.old.limit row }
    requires before { AreBefore clauses.old.left_out row }
    ensures { IfOk result (λ _. clauses.new
        ≡ cond (diagram.now.is_too_large || nat_lt (min budget.old.each budget.old.left) diagram.now.most_clauses)
        (with_row row clauses.old) clauses.old) }
{
    if diagram.is_too_large || diagram.most_clauses > budget.most() {
        return clauses.leave_out(row);
    }
    budget.take(diagram.most_clauses);
    diagram_clauses(clauses, row, diagram)
}
