//! What is asked of a picture, and its parts in their order.
ghost use Rattle.mrcpsp.specs.Schedule.{IsFeasible};

use crate::bars::{Bar, bars_of, end_of, times_of};
use crate::chain::mark_chain;
use crate::svg::{Picture, size_of};
use mrcpsp::{Project, Schedule};
use schedule_labels::{ActivityName, Calendar};
use std::alloc::{AllocError, Global};
use std::fmt;

/// An `Order` is the order of a picture's rows.
#[derive(Clone, Copy, Debug, PartialEq, Eq)]
pub enum Order {
    Number,
    /// By the starts, and by the numbers of activities that start together.
    Start,
}

/// A `Ground` is what shows a lower bound.
#[derive(Clone, Copy, Debug, PartialEq, Eq)]
pub enum Ground {
    /// The longest chain of activities by shortest modes.
    Chain,
    /// A refutation of each shorter makespan.
    Proof,
}

impl fmt::Display for Ground {
    fn fmt<W: fmt::Write>(&self, f: &mut fmt::Formatter<W>) -> fmt::Result {
        match self {
            Ground::Chain => write!(f, "the longest chain"),
            Ground::Proof => write!(f, "a proof"),
        }
    }
}

/// A `Bound` is a lower bound on makespans: no feasible schedule takes fewer periods.
#[derive(Clone, Copy, Debug, PartialEq, Eq)]
pub struct Bound {
    pub periods: u32,
    pub ground: Ground,
}

/// A `Heading` is what is known of a schedule above its picture.
#[derive(Clone, Copy, Debug, PartialEq, Eq)]
pub struct Heading {
    /// In periods.
    pub makespan: u32,
    pub bound: Option<Bound>,
}

/// A `Drawing` is what a picture has beside the bars of its schedule.
#[derive(Clone, Copy)]
pub struct Drawing<'a> {
    pub heading: Heading,
    pub order: Order,
    /// Dates above the rows.
    pub calendar: Option<Calendar>,
    /// Names beside the rows.
    pub names: Option<&'a [ActivityName]>,
    /// An earlier schedule of the project, as a thin bar in each row.
    pub before: Option<&'a Schedule>,
}

/// Returns an SVG picture of a feasible schedule: a bar for each activity, and the use of each
/// renewable resource against its capacity. An error is want of memory.
pub fn draw(
    alloc: Global,
    project: &Project,
    schedule: &Schedule,
    asked: &Drawing<'_>,
) -> Result<String, AllocError>
    requires { IsFeasible project.now schedule.now }
{
    let mut bars = bars_of(alloc, project, schedule)?;
    mark_chain(&mut bars);
    if asked.order == Order::Start {
        bars.sort_by_key(|bar| bar.start)?;
    }
    let earlier = match asked.before {
        Some(before) => bars_of(alloc, project, before)?,
        None => Vec::new(alloc),
    };
    let span = asked.heading.makespan.max(end_of(&earlier));
    let mut picture = Picture {
        text: String::new(alloc),
        size: size_of(bars.len(), project.renewable().len(), span, asked),
    };
    let times = times_of(alloc, &bars)?;
    put_whole(&mut picture, project, &bars, &earlier, &times, asked)?;
    Ok(picture.text)
}

fn put_whole(
    picture: &mut Picture,
    project: &Project,
    bars: &[Bar<'_>],
    earlier: &[Bar<'_>],
    times: &[u32],
    asked: &Drawing<'_>,
) -> Result<(), AllocError> {
    picture.put_head()?;
    picture.put_heading(asked.heading)?;
    picture.put_stocks(bars, project.nonrenewable())?;
    picture.put_legend(bars, earlier)?;
    picture.put_bands()?;
    picture.put_marks(asked.calendar)?;
    picture.put_bars(bars, earlier, asked.names)?;
    picture.put_profiles(bars, times, project.renewable())?;
    picture.text.push_str("</svg>\n")
}
