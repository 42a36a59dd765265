//! Prices that may refute a bound.
use crate::model::{BoundQuestion, Model};
use crate::rounding::listed;
use crate::steps::{Steps, StepsEnd};
use mrcpsp::Project;
use schedule_prices::{Barred, Price};
use std::alloc::{AllocError, Global};

/// A `Found` is the best prices that steps came to.
#[derive(Drop)]
pub struct Found {
    /// Those above 0, of 24 bits.
    pub prices: Vec<Price>,
    /// Whether the steps believe that these prices refute the bound.
    pub refuted: bool,
    /// Whether the steps believe that no prices refute it, or the question is too large for prices.
    pub hopeless: bool,
    pub steps: u32,
    /// The cost of the cheapest choices over what the rows supply, in parts of 2^24.
    pub stretch: u64,
}

/// Looks for prices that refute `bound`, in at most `steps` steps. Barred choices are left out.
pub fn find_prices(
    alloc: Global,
    project: &Project,
    bound: u32,
    steps: u32,
    barred: &Barred,
) -> Result<Found, AllocError> {
    let model = match Model::new(alloc, project, bound, barred)? {
        BoundQuestion::Open(model) => model,
        BoundQuestion::Closed => {
            return Ok(Found {
                prices: Vec::new(alloc),
                refuted: true,
                hopeless: false,
                steps: 0,
                stretch: 0,
            });
        }
        BoundQuestion::TooLarge => {
            return Ok(Found {
                prices: Vec::new(alloc),
                refuted: false,
                hopeless: true,
                steps: 0,
                stretch: 0,
            });
        }
    };
    let mut search = Steps::new(alloc, model)?;
    let ended = search.run(steps);
    Ok(Found {
        prices: listed(alloc, &search.model, &search.rounded)?,
        refuted: ended == StepsEnd::Refuted,
        hopeless: ended == StepsEnd::Hopeless,
        steps: search.taken_steps,
        stretch: u64::try_from(search.most).unwrap_or(0),
    })
}
