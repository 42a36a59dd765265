//! The picture of a schedule, and its heading.
ghost use Rattle.std.specs.Prelude.{◌≡◌, IfOk, IfSome};
ghost use Rattle.mrcpsp.specs.Schedule.{IsFeasible};
ghost use Rattle.price_search.specs.LowerBound.{TakesAtLeast};

use crate::arguments::BoundWord;
use crate::proof::bound_within;
use crate::verification::Verified;
use mrcpsp::Schedule;
use price_search::lower_bound;
use schedule_labels::{ActivityName, Calendar};
use schedule_picture::{Bound, Drawing, Ground, Heading, Order, draw};
use std::alloc::{AllocError, Global};

/// A `PictureWords` is what a picture is to have beside its bars.
#[derive(Clone, Copy)]
pub(crate) struct PictureWords<'a> {
    pub(crate) bound: BoundWord,
    pub(crate) order: Order,
    pub(crate) calendar: Option<Calendar>,
    pub(crate) names: Option<&'a [ActivityName]>,
    pub(crate) before: Option<&'a Schedule>,
}

/// The longest chain of activities, or what is proved within `most` conflicts, if that is more.
fn bound_by(alloc: Global, verified: &Verified, most: Option<u64>) -> Result<Bound, AllocError>
    ensures { IfOk result (λ bound. TakesAtLeast verified.now.project bound.periods) }
{
    let project = &verified.project;
    let chain = lower_bound(alloc, project, 0)?;
    if let Some(most) = most
        && chain < verified.makespan
    {
        let bound = bound_within(alloc, project, most, &verified.schedule);
        if bound > chain {
            return Ok(Bound {
                periods: bound,
                ground: Ground::Proof,
            });
        }
    }
    Ok(Bound {
        periods: chain,
        ground: Ground::Chain,
    })
}

/// The heading of a feasible schedule.
fn heading_of(alloc: Global, verified: &Verified, word: BoundWord) -> Result<Heading, AllocError>
    ensures makespan { IfOk result (λ heading. heading.makespan ≡ verified.now.makespan) }
    ensures bound { IfOk result (λ heading. IfSome heading.bound (λ bound. TakesAtLeast verified.now.project bound.periods)) }
{
    let makespan = verified.makespan;
    let bound = match word {
        BoundWord::Left => None,
        BoundWord::Chain => Some(bound_by(alloc, verified, None)?),
        BoundWord::Proved(most) => Some(bound_by(alloc, verified, Some(most))?),
    };
    Ok(Heading { makespan, bound })
}

/// The picture of a feasible schedule.
pub(crate) fn picture_of(
    alloc: Global,
    verified: &Verified,
    words: &PictureWords<'_>,
) -> Result<String, AllocError>
    requires { IsFeasible verified.now.project verified.now.schedule }
{
    let asked = Drawing {
        heading: heading_of(alloc, verified, words.bound)?,
        order: words.order,
        calendar: words.calendar,
        names: words.names,
        before: words.before,
    };
    draw(alloc, &verified.project, &verified.schedule, &asked)
}
