//! The frame of a picture, as SVG: its heading, its legend and its axis. Lengths are in tenths of a
//! pixel.
use crate::bars::{Bar, consumed, end_of, has_mode};
use crate::drawing::{Drawing, Heading};
use crate::scale::{plural, step_of};
use schedule_labels::Calendar;
use std::alloc::AllocError;

/// The width beside the bars: of numbers and modes, and of names.
const LEFT: u64 = 1_100;

const LEFT_OF_NAMES: u64 = 2_800;

const WIDTH: u64 = 9_000;

/// The width behind the bars: of a number, and of half a date with its time.
const RIGHT: u64 = 500;

const RIGHT_OF_TIMES: u64 = 750;

const TOP: u64 = 1_150;

pub(crate) const ROW: u64 = 180;

/// The height of a bar, and that above a bar of an earlier schedule.
const BAR: u64 = 140;

const LOW_BAR: u64 = 100;

/// The height of a capacity, and the room above it.
pub(crate) const HEIGHT: u64 = 800;

const ROOM: u64 = 500;

const BOTTOM: u64 = 450;

/// How many stocks of seven digits have room in a line.
const STOCKS_IN_LINE: usize = 4;

/// The most marks of the axis: of periods, of days, and of moments.
const MARKS: u32 = 20;

const DAYS: u32 = 10;

const MOMENTS: u32 = 6;

/// The fills of modes 1 to 10, which readers with any kind of colour vision can tell apart.
const FILLS: [&str; 10] = [
    "#88ccee", "#ddcc77", "#cc6677", "#44aa99", "#aa4499", "#999933", "#332288", "#117733",
    "#882255", "#bbbbbb",
];

/// A `Size` is the number of rows and profiles of a picture, and the lengths that follow from what
/// is asked of it.
#[derive(Clone, Copy, Debug)]
pub(crate) struct Size {
    rows: usize,
    profiles: usize,
    /// In periods.
    span: u32,
    pub(crate) left: u64,
    right: u64,
    pub(crate) bar: u64,
}

#[derive(Drop)]
pub(crate) struct Picture {
    pub(crate) text: String,
    pub(crate) size: Size,
}

pub(crate) fn fill_of(mode: u32) -> &'static str {
    FILLS[(mode.saturating_sub(1) % 10) as usize]
}

pub(crate) fn row_at(row: usize) -> u64 {
    TOP.saturating_add(ROW.saturating_mul(row as u64))
}

pub(crate) fn size_of(rows: usize, profiles: usize, span: u32, asked: &Drawing<'_>) -> Size {
    let has_times = asked.calendar.is_some_and(|calendar| calendar.has_time());
    Size {
        rows,
        profiles,
        span,
        left: if asked.names.is_some() {
            LEFT_OF_NAMES
        } else {
            LEFT
        },
        right: if has_times { RIGHT_OF_TIMES } else { RIGHT },
        bar: if asked.before.is_some() { LOW_BAR } else { BAR },
    }
}

impl Size {
    pub(crate) fn at(self, time: u32) -> u64 {
        let all = u64::from(self.span.max(1));
        self.left
            .saturating_add(u64::from(time).saturating_mul(WIDTH) / all)
    }

    /// The end of the span.
    pub(crate) fn end(self) -> u64 {
        self.left.saturating_add(WIDTH)
    }

    pub(crate) fn base_at(self, place: usize) -> u64 {
        let each = HEIGHT.saturating_add(ROOM);
        let above = row_at(self.rows).saturating_add(150);
        above.saturating_add(each.saturating_mul((place as u64).saturating_add(1)))
    }

    fn bottom(self) -> u64 {
        match self.profiles.checked_sub(1) {
            Some(last) => self.base_at(last),
            None => row_at(self.rows),
        }
    }
}

/// The periods between two marks.
fn step_for(span: u32, calendar: Option<Calendar>) -> u32 {
    match calendar {
        Some(calendar) if calendar.has_time() => step_of(span, MOMENTS),
        Some(_) => step_of(span, DAYS),
        None => step_of(span, MARKS),
    }
}

impl Picture {
    pub(crate) fn put_head(&mut self) -> Result<(), AllocError> {
        let (rows, span) = (self.size.rows, self.size.span);
        let width = self.size.end().saturating_add(self.size.right);
        let height = self.size.bottom().saturating_add(BOTTOM);
        let (across, down) = (width / 10, height / 10);
        let activities = plural(rows as u64, "activity", "activities");
        let periods = plural(u64::from(span), "period", "periods");
        write!(
            self.text,
            "<svg xmlns=\"http://www.w3.org/2000/svg\" role=\"img\" aria-labelledby=\"title\" width=\"{across}\" height=\"{down}\" style=\"max-width:100%;height:auto\" "
        )?;
        write!(
            self.text,
            "viewBox=\"0 0 {width} {height}\" font-family=\"sans-serif\" font-size=\"120\">\n"
        )?;
        write!(
            self.text,
            "<title id=\"title\">A schedule of {rows} {activities} that takes {span} {periods}</title>\n"
        )?;
        write!(
            self.text,
            "<rect width=\"{width}\" height=\"{height}\" fill=\"white\"/>\n"
        )
    }

    pub(crate) fn put_heading(&mut self, heading: Heading) -> Result<(), AllocError> {
        let (left, rows, makespan) = (self.size.left, self.size.rows, heading.makespan);
        let activities = plural(rows as u64, "activity", "activities");
        write!(
            self.text,
            "<text x=\"{left}\" y=\"260\" font-size=\"180\">{rows} {activities}, makespan {makespan}"
        )?;
        if let Some(bound) = heading.bound {
            let (periods, ground) = (bound.periods, bound.ground);
            if makespan == periods {
                write!(self.text, ", optimal by {ground}")?;
            } else {
                write!(self.text, " (at least {periods} by {ground})")?;
            }
        }
        self.text.push_str("</text>\n")
    }

    pub(crate) fn put_stocks(
        &mut self,
        bars: &[Bar<'_>],
        stocks: &[u32],
    ) -> Result<(), AllocError> {
        let left = self.size.left;
        if stocks.is_empty() {
            return Ok(());
        }
        write!(self.text, "<text x=\"{left}\" y=\"430\">")?;
        for place in 0..stocks.len() {
            let (number, used, stock) = (
                place.saturating_add(1),
                consumed(bars, place),
                stocks[place],
            );
            let comma = if place == 0 { "" } else { ", " };
            if place == STOCKS_IN_LINE {
                write!(self.text, "</text>\n<text x=\"{left}\" y=\"560\">")?;
                write!(self.text, "N {number}: {used} of {stock}")?;
            } else {
                write!(self.text, "{comma}N {number}: {used} of {stock}")?;
            }
        }
        self.text.push_str("</text>\n")
    }

    pub(crate) fn put_legend(
        &mut self,
        bars: &[Bar<'_>],
        earlier: &[Bar<'_>],
    ) -> Result<(), AllocError> {
        let mut x = self.size.left;
        for mode in 1u32..=10 {
            if has_mode(bars, mode) {
                let (fill, beside) = (fill_of(mode), x.saturating_add(200));
                write!(
                    self.text,
                    "<rect x=\"{x}\" y=\"600\" width=\"140\" height=\"140\" fill=\"{fill}\" stroke=\"#222\" stroke-width=\"8\"/>"
                )?;
                write!(
                    self.text,
                    "<text x=\"{beside}\" y=\"715\">mode {mode}</text>\n"
                )?;
                x = x.saturating_add(750);
            }
        }
        let beside = x.saturating_add(200);
        write!(
            self.text,
            "<rect x=\"{x}\" y=\"600\" width=\"140\" height=\"140\" fill=\"none\" stroke=\"#000\" stroke-width=\"30\"/>"
        )?;
        write!(
            self.text,
            "<text x=\"{beside}\" y=\"715\">critical chain</text>\n"
        )?;
        self.put_legend_before(earlier)
    }

    /// In a line of its own, since ten modes fill the other one.
    fn put_legend_before(&mut self, earlier: &[Bar<'_>]) -> Result<(), AllocError> {
        if earlier.is_empty() {
            return Ok(());
        }
        let (x, end) = (self.size.left, end_of(earlier));
        let beside = x.saturating_add(200);
        write!(
            self.text,
            "<rect x=\"{x}\" y=\"835\" width=\"140\" height=\"40\" fill=\"#777\"/>"
        )?;
        write!(
            self.text,
            "<text x=\"{beside}\" y=\"895\">before, makespan {end}</text>\n"
        )
    }

    pub(crate) fn put_bands(&mut self) -> Result<(), AllocError> {
        let end = self.size.end();
        for row in 0..self.size.rows {
            if row % 2 == 1 {
                let y = row_at(row);
                write!(
                    self.text,
                    "<path d=\"M0 {y}h{end}v{ROW}H0Z\" fill=\"#f2f2f2\"/>\n"
                )?;
            }
        }
        Ok(())
    }

    fn put_mark(&mut self, calendar: Option<Calendar>, time: u32) -> Result<(), AllocError> {
        let (x, bottom) = (self.size.at(time), self.size.bottom());
        let (above, below) = (TOP.saturating_sub(60), bottom.saturating_add(160));
        write!(
            self.text,
            "<path d=\"M{x} {TOP}V{bottom}\" stroke=\"#ccc\" stroke-width=\"6\"/>"
        )?;
        write!(
            self.text,
            "<text x=\"{x}\" y=\"{above}\" text-anchor=\"middle\">"
        )?;
        match calendar {
            Some(calendar) => self.put_date(calendar, time)?,
            None => write!(self.text, "{time}")?,
        }
        write!(
            self.text,
            "</text><text x=\"{x}\" y=\"{below}\" text-anchor=\"middle\">{time}</text>\n"
        )
    }

    fn put_date(&mut self, calendar: Calendar, time: u32) -> Result<(), AllocError> {
        match calendar.moment(time) {
            Some(moment) => write!(self.text, "{moment}")?,
            None => self.text.push_str("none")?,
        }
        Ok(())
    }

    /// Periods stand above and below the rows, or dates above them.
    pub(crate) fn put_marks(&mut self, calendar: Option<Calendar>) -> Result<(), AllocError> {
        let span = self.size.span;
        let step = step_for(span, calendar);
        let least = if calendar.is_some() {
            step.saturating_mul(3) / 4
        } else {
            step / 2
        };
        let mut time = 0u32;
        for _ in 0..22 {
            if time.saturating_add(least) >= span {
                break;
            }
            self.put_mark(calendar, time)?;
            time = time.saturating_add(step);
        }
        self.put_mark(calendar, span)?;
        self.put_axis_words(if calendar.is_some() { "" } else { "period" })
    }

    fn put_axis_words(&mut self, top: &str) -> Result<(), AllocError> {
        let (above, below, label) = (
            TOP.saturating_sub(60),
            self.size.bottom().saturating_add(160),
            self.size.left.saturating_sub(120),
        );
        write!(
            self.text,
            "<text x=\"{label}\" y=\"{above}\" text-anchor=\"end\">{top}</text>"
        )?;
        write!(
            self.text,
            "<text x=\"{label}\" y=\"{below}\" text-anchor=\"end\">period</text>\n"
        )
    }
}
