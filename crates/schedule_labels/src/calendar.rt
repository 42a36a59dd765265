//! Dates of periods.
use jiff::Span;
use jiff::civil::DateTime;
use std::fmt;

/// A `Unit` is the length of a period.
#[derive(Clone, Copy, Debug, PartialEq, Eq)]
pub enum Unit {
    Hour,
    /// Eight hours.
    Shift,
    Day,
    Week,
}

/// A `Calendar` is the moment at which period 0 begins, and the length of a period.
#[derive(Clone, Copy)]
pub struct Calendar {
    pub start: DateTime,
    pub unit: Unit,
}

/// A `Moment` is the moment at which a period begins. Its text has a time unless all periods of its
/// calendar begin at midnight.
#[derive(Clone, Copy)]
pub struct Moment {
    at: DateTime,
    has_time: bool,
}

fn span_of(unit: Unit, period: u32) -> Option<Span> {
    let count = i64::from(period);
    let span = Span::new();
    match unit {
        Unit::Hour => span.try_hours(count),
        Unit::Shift => span.try_hours(8 * count),
        Unit::Day => span.try_days(count),
        Unit::Week => span.try_weeks(count),
    }
    .ok()
}

impl Calendar {
    /// Returns `None` behind the year 9999.
    pub fn moment(&self, period: u32) -> Option<Moment> {
        let span = span_of(self.unit, period)?;
        let at = self.start.checked_add(span).ok()?;
        Some(Moment {
            at,
            has_time: self.has_time(),
        })
    }

    /// Returns whether some period may begin at another time than midnight.
    pub fn has_time(&self) -> bool {
        let start = self.start;
        matches!(self.unit, Unit::Hour | Unit::Shift)
            || start.hour() != 0
            || start.minute() != 0
            || start.second() != 0
            || start.subsec_nanosecond() != 0
    }
}

impl fmt::Display for Moment {
    fn fmt<W: fmt::Write>(&self, f: &mut fmt::Formatter<W>) -> fmt::Result {
        let at = self.at;
        if self.has_time {
            write!(f, "{at}")
        } else {
            let day = at.date();
            write!(f, "{day}")
        }
    }
}
