//! The choices that capacities and precedences leave.
ghost use Rattle.std.specs.Prelude.{◌≡◌};

use mrcpsp::{Activity, Mode, Project};
use schedule_prices::{Barred, ChoiceRange, Price, PricedRow};
use std::alloc::{AllocError, Global};

/// The first renewable resource of which the mode takes more than there is.
pub(crate) fn overused(project: &Project, way: &Mode) -> Option<usize> {
    let mut overused = None;
    for (resource, capacity) in project.renewable().iter().enumerate() {
        if way.renewable.as_slice().get(resource).copied().unwrap_or(0) > *capacity {
            overused = Some(resource);
        }
    }
    overused
}

/// Bars all starts of a mode that takes more of a resource than there is: those that run over one
/// period by a price on the resource there.
fn bar_overuse(
    alloc: Global,
    barred: &mut Barred,
    number: usize,
    mode: usize,
    duration: u32,
    resource: usize,
) -> Result<(), AllocError>
    ensures project { barred.new.project ≡ barred.old.project }
    ensures bound { barred.new.bound ≡ barred.old.bound }
{
    let bound = barred.bound();
    let Some(pieces) = bound.checked_div(duration) else {
        return Ok(());
    };
    for at in 0..pieces {
        let from = at.saturating_mul(duration);
        let time = from.saturating_add(duration).saturating_sub(1);
        let row = PricedRow::Use { resource, time };
        let piece = ChoiceRange {
            activity: number,
            mode: Some(mode),
            from,
            to: time,
        };
        barred.bar_piece(alloc, &[Price { row, price: 1 }], piece)?;
    }
    Ok(())
}

fn bar_modes(
    alloc: Global,
    project: &Project,
    barred: &mut Barred,
    number: usize,
    activity: &Activity,
) -> Result<(), AllocError>
    ensures project { barred.new.project ≡ barred.old.project }
    ensures bound { barred.new.bound ≡ barred.old.bound }
{
    for (mode, way) in activity.modes.as_slice().iter().enumerate() {
        if let Some(resource) = overused(project, way) {
            bar_overuse(alloc, barred, number, mode, way.duration, resource)?;
        }
    }
    Ok(())
}

fn narrow_modes(alloc: Global, project: &Project, barred: &mut Barred) -> Result<(), AllocError>
    ensures project { barred.new.project ≡ barred.old.project }
    ensures bound { barred.new.bound ≡ barred.old.bound }
{
    for (number, activity) in project.activities().iter().enumerate() {
        bar_modes(alloc, project, barred, number, activity)?;
    }
    Ok(())
}

/// Bars the modes that no capacity has room for, and the starts that precedences leave no room for.
pub(crate) fn narrow(
    alloc: Global,
    project: &Project,
    barred: &mut Barred,
) -> Result<(), AllocError>
    ensures project { barred.new.project ≡ barred.old.project }
    ensures bound { barred.new.bound ≡ barred.old.bound }
{
    narrow_modes(alloc, project, barred)?;
    barred.tighten();
    Ok(())
}
