//! Where a row counts among sums over time.
ghost use Rattle.std.specs.Prelude.{◌≡◌};
ghost use Rattle.schedule_prices.specs.Sums.{place_of};

use crate::row::PricedRow;

/// A `SumKind` is what the sums over time are of.
#[derive(Clone, Copy, Debug, PartialEq, Eq)]
pub(crate) enum SumKind {
    /// Prices that an activity pays if it has started, by its start.
    Begun,
    /// Prices that an activity pays if it is not over, by its end.
    Ended,
    /// Prices of a renewable resource in all periods before one.
    Used,
    /// Prices of a nonrenewable resource.
    Consumed,
}

/// A `Place` is where a price counts: the line of an activity or a resource, and a time.
#[derive(Clone, Copy, Debug, PartialEq, Eq)]
pub(crate) struct Place {
    pub(crate) line: usize,
    pub(crate) time: u32,
}

/// The place of a row among the sums of a kind, if it has one.
pub(crate) fn place_of(kind: SumKind, row: PricedRow) -> Option<Place>
    ensures { result ≡ place_of kind row }
{
    let (line, time) = match (kind, row) {
        (
            SumKind::Begun,
            PricedRow::Before {
                before: _,
                after,
                time,
            },
        ) => (after, time),
        (
            SumKind::Ended,
            PricedRow::Before {
                before,
                after: _,
                time,
            },
        ) => (before, time),
        (SumKind::Used, PricedRow::Use { resource, time }) => (resource, time),
        (SumKind::Consumed, PricedRow::Stock { resource }) => (resource, 0),
        _ => return None,
    };
    Some(Place { line, time })
}
