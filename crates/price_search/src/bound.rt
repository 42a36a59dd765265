//! Lower bounds by prices.
ghost use Rattle.std.specs.Prelude.{◌≡◌, ◌<◌, ◌≤◌, IsTrue, IfOk, IfSome};
ghost use Rattle.mrcpsp.specs.Schedule.{IsInfeasible};
ghost use Rattle.mrcpsp.specs.Values.{bound};
ghost use Rattle.mrcpsp.specs.Values.{bound as chain_of};
ghost use Rattle.schedule_prices.specs.Choices.{EachExceeds};
ghost use Rattle.price_search.specs.Barring.{IsBarring};
ghost use Rattle.price_search.specs.LowerBound.{TakesAtLeast};

use crate::cases::{MOST_PIECE_STEPS, refute_by_cases};
use crate::climb::{BoundAnswer, Climb};
use crate::count::items_of;
use crate::effort::Effort;
use crate::laws::fitting_modes_decide;
use crate::model::MOST_ITEMS;
use crate::narrow::narrow;
use crate::search::find_prices;
use measures::Measures;
use mrcpsp::Project;
use mrcpsp::laws::none_is_below_the_bound;
use schedule_prices::{Barred, PriceFault};
use std::alloc::{AllocError, Global};

/// The most bounds that are asked of a project.
pub const MOST_QUESTIONS: u32 = 256;

/// The choices within a bound that are left. Returns `None` if there are more choices and rows than
/// `most_items`, or too many starts for prices.
fn table<'a>(
    alloc: Global,
    project: &'a Project,
    bound: u32,
    most_items: usize,
) -> Result<Option<Barred<'a>>, AllocError>
    ensures project { IfOk result (λ table. IfSome table (λ barred. barred.project ≡ project.now)) }
    ensures bound { IfOk result (λ table. IfSome table (λ barred. barred.bound ≡ bound)) }
{
    if items_of(alloc, project, bound)? > most_items {
        return Ok(None);
    }
    match Barred::new(alloc, project, bound) {
        Ok(mut barred) => {
            narrow(alloc, project, &mut barred)?;
            Ok(Some(barred))
        }
        Err(PriceFault::TooManyStarts) => Ok(None),
        Err(PriceFault::NoMemory) => Err(AllocError),
    }
}

/// Looks for prices that refute the bound, and checks them.
fn ask(alloc: Global, project: &Project, bound: u32, steps: u32) -> Result<BoundAnswer, AllocError>
    ensures { IfOk result (λ answer. IsTrue answer.refuted → EachExceeds project.now bound) }
{
    let Some(barred) = table(alloc, project, bound, MOST_ITEMS)? else {
        return Ok(BoundAnswer {
            refuted: false,
            stretch: 0,
        });
    };
    let found = find_prices(alloc, project, bound, steps, &barred)?;
    let stretch = found.stretch;
    let refuted = if found.refuted {
        barred.refute(alloc, &found.prices)?
    } else {
        false
    };
    Ok(BoundAnswer { refuted, stretch })
}

/// Goes up from a known lower bound while prices refute.
fn climb(alloc: Global, project: &Project, steps: u32, known: u32) -> Result<u32, AllocError>
    requires { TakesAtLeast project.now known }
    ensures least { IfOk result (λ periods. TakesAtLeast project.now periods) }
    ensures known { IfOk result (λ periods. known ≤ periods) }
{
    let mut periods = known;
    let mut climb = Climb::new(known, project.horizon());
    for _ in 0..MOST_QUESTIONS {
        if !climb.goes_on() {
            break;
        }
        let bound = climb.at;
        let answer = ask(alloc, project, bound, steps)?;
        if answer.refuted {
            periods = periods.max(bound.saturating_add(1));
        }
        climb.learn(answer);
    }
    Ok(periods)
}

/// A `Barring` is what prices and pieces show of a bound.
#[derive(Drop)]
pub enum Barring<'a> {
    /// Each feasible schedule is longer than the bound.
    Refuted,
    /// The choices that are known to be in no feasible schedule within the bound.
    Open(Barred<'a>),
    /// There are too many choices and rows, or more starts than [`schedule_prices::MOST_STARTS`].
    TooLarge,
}

/// Bars choices as `bar_choices` does, with an effort and at most `left` steps for ranges of
/// choices. Subtracts the steps that it takes.
fn bar_by_cases<'a>(
    alloc: Global,
    project: &'a Project,
    bound: u32,
    effort: Effort,
    left: &mut u32,
) -> Result<Barring<'a>, AllocError>
    ensures { IfOk result (IsBarring project.now bound) }
{
    let Some(mut barred) = table(alloc, project, bound, effort.most_items)? else {
        return Ok(Barring::TooLarge);
    };
    if refute_by_cases(alloc, project, &mut barred, effort, left)? {
        return Ok(Barring::Refuted);
    }
    Ok(Barring::Open(barred))
}

/// Looks for prices that refute the bound, or bar choices within it, in at most `steps` steps, and
/// for pieces in [`MOST_PIECE_STEPS`] more. Above 8,000,000 choices and rows times `steps` there
/// are fewer steps, and no pieces. Above 80,000 choices and rows nothing is barred.
pub fn bar_choices<'a>(
    alloc: Global,
    project: &'a Project,
    bound: u32,
    steps: u32,
) -> Result<Barring<'a>, AllocError>
    ensures { IfOk result (IsBarring project.now bound) }
{
    let mut left = MOST_PIECE_STEPS;
    bar_by_cases(alloc, project, bound, Effort::to_bar(steps), &mut left)
}

/// Goes up from a known lower bound while pieces refute.
fn climb_by_cases(
    alloc: Global,
    project: &Project,
    steps: u32,
    known: u32,
) -> Result<u32, AllocError>
    requires { TakesAtLeast project.now known }
    ensures least { IfOk result (λ periods. TakesAtLeast project.now periods) }
    ensures known { IfOk result (λ periods. known ≤ periods) }
{
    let effort = Effort::to_refute(steps);
    let mut periods = known;
    let mut left = MOST_PIECE_STEPS;
    for _ in 0..MOST_QUESTIONS {
        let next = periods.saturating_add(1);
        if left == 0 || periods > project.horizon() {
            break;
        }
        match bar_by_cases(alloc, project, periods, effort, &mut left)? {
            Barring::Refuted => periods = next,
            _ => break,
        }
    }
    Ok(periods)
}

/// The periods that every feasible schedule takes: the longest chain of activities by shortest
/// durations, or more if prices, or pieces of the choices, refute bounds above it. Each bound is
/// asked in at most `steps` steps, and all pieces in [`MOST_PIECE_STEPS`]; with 0 steps the answer
/// is the chain. Above [`crate::MOST_ITEMS`] choices and rows no prices are looked for.
pub fn lower_bound(alloc: Global, project: &Project, steps: u32) -> Result<u32, AllocError>
    ensures least { IfOk result (λ periods. TakesAtLeast project.now periods) }
    ensures chain { IfOk result (λ periods. bound project.now ≤ periods) }
    ensures alone { steps ≡ 0 → IfOk result (λ periods. periods ≡ bound project.now) }
{
    none_is_below_the_bound();
    project.activities();
    let measures = Measures::of(alloc, project)?;
    let chain = measures.bound();
    if steps == 0 {
        return Ok(chain);
    }
    let periods = climb(alloc, project, steps, chain)?;
    climb_by_cases(alloc, project, steps, periods)
}

/// Whether each feasible schedule takes more than `bound` periods, as far as the longest chain, then
/// prices and pieces show it. Prices are looked for in at most `steps` steps, and pieces in
/// [`MOST_PIECE_STEPS`] more.
pub fn exceeds(alloc: Global, project: &Project, bound: u32, steps: u32) -> Result<bool, AllocError>
    ensures sound { IfOk result (λ shown. IsTrue shown → EachExceeds project.now bound) }
    ensures chain { bound < chain_of project.now → IfOk result (λ shown. IsTrue shown) }
{
    none_is_below_the_bound();
    project.activities();
    let measures = Measures::of(alloc, project)?;
    if measures.bound() > bound {
        return Ok(true);
    }
    let effort = Effort::to_refute(steps);
    let mut left = MOST_PIECE_STEPS;
    match bar_by_cases(alloc, project, bound, effort, &mut left)? {
        Barring::Refuted => Ok(true),
        _ => Ok(false),
    }
}

/// Whether no schedule is feasible, as far as prices show it: then they refute the horizon, within
/// which modes that fit would have a schedule.
pub fn is_infeasible(alloc: Global, project: &Project, steps: u32) -> Result<bool, AllocError>
    ensures { IfOk result (λ shown. IsTrue shown → IsInfeasible project.now) }
{
    fitting_modes_decide();
    project.activities();
    exceeds(alloc, project, project.horizon(), steps)
}
