ghost use Rattle.std.specs.Prelude.{◌≡◌, ◌↔◌, IsTrue, IfOk};

use crate::mode::{clone_modes, same_modes};
use crate::sequence::same_numbers;
use crate::{Mode, Sequence};
use std::alloc::{AllocError, Global};
use std::marker::Model;

/// An `Activity` is a piece of work that runs without interruption in exactly one of its modes.
#[derive(Debug, Drop)]
pub struct Activity {
    /// Mode numbers count from 1.
    pub modes: Sequence<Mode>,
    /// The numbers of the direct successors, counted from 1.
    pub successors: Sequence<u32>,
}

impl Model for Activity {
    ghost use Rattle.mrcpsp.specs.Project.{ActivityData};

    ghost Value = { ActivityData };

    ghost view = { λ a. record { modes = a.modes; successors = a.successors } };
}

impl Activity {
    pub(crate) fn clone_in(&self, alloc: Global) -> Result<Activity, AllocError>
        ensures { IfOk result (λ copy. copy ≡ self.now) }
    {
        Ok(Activity {
            modes: Sequence::from(clone_modes(alloc, self.modes.as_slice())?),
            successors: self.successors.clone_in(alloc)?,
        })
    }
}

fn same_activity(one: &Activity, other: &Activity) -> bool
    ensures { IsTrue result ↔ (one.now ≡ other.now) }
{
    same_modes(one.modes.as_slice(), other.modes.as_slice())
        && same_numbers(&one.successors, &other.successors)
}

pub(crate) fn clone_activities(
    alloc: Global,
    activities: &[Activity],
) -> Result<Vec<Activity>, AllocError>
    ensures { IfOk result (λ copy. copy.items ≡ activities.now) }
{
    let mut copy = Vec::with_capacity(alloc, activities.len())?;
    for activity in activities {
        copy.push(activity.clone_in(alloc)?)?;
    }
    Ok(copy)
}

pub(crate) fn same_activities(one: &[Activity], other: &[Activity]) -> bool
    ensures { IsTrue result ↔ (one.now ≡ other.now) }
{
    if one.len() != other.len() {
        return false;
    }
    for (i, activity) in one.iter().enumerate() {
        if !same_activity(activity, &other[i]) {
            return false;
        }
    }
    true
}
