ghost use Rattle.std.specs.Prelude.{◌≡◌, ◌↔◌, IsTrue, IfOk};
ghost use Rattle.mrcpsp.specs.Project.{is_project};

use crate::activity::{clone_activities, same_activities};
use crate::sequence::same_numbers;
use crate::{Activity, Sequence};
use std::alloc::{AllocError, Global};
use std::marker::Model;

/// Activities and capacities that keep the limits.
#[derive(Debug, Drop)]
pub(crate) struct Parts {
    pub(crate) activities: Sequence<Activity>,
    pub(crate) renewable: Sequence<u32>,
    pub(crate) nonrenewable: Sequence<u32>,
}

impl Model for Parts {
    ghost use Rattle.std.specs.Prelude.{IsTrue};
    ghost use Rattle.mrcpsp.specs.Project.{ProjectData, is_project};

    ghost Value = { ProjectData };

    ghost view = { λ p. record { activities = p.activities; renewable = p.renewable; nonrenewable = p.nonrenewable } };

    ghost invariant = { λ p. IsTrue (is_project
        (record { activities = p.activities; renewable = p.renewable; nonrenewable = p.nonrenewable })) };
}

impl Parts {
    pub(crate) fn clone_in(&self, alloc: Global) -> Result<Parts, AllocError>
        ensures { IfOk result (λ copy. copy ≡ self.now) }
    {
        Ok(Parts {
            activities: Sequence::from(clone_activities(alloc, self.activities())?),
            renewable: self.renewable.clone_in(alloc)?,
            nonrenewable: self.nonrenewable.clone_in(alloc)?,
        })
    }

    pub(crate) fn activities(&self) -> &[Activity]
        ensures all { result.now ≡ self.now.activities }
        ensures project { IsTrue (is_project self.now) }
    {
        self.activities.as_slice()
    }

    pub(crate) fn renewable(&self) -> &[u32]
        ensures all { result.now ≡ self.now.renewable }
        ensures project { IsTrue (is_project self.now) }
    {
        self.renewable.as_slice()
    }

    pub(crate) fn nonrenewable(&self) -> &[u32]
        ensures all { result.now ≡ self.now.nonrenewable }
        ensures project { IsTrue (is_project self.now) }
    {
        self.nonrenewable.as_slice()
    }
}

pub(crate) fn same_parts(one: &Parts, other: &Parts) -> bool
    ensures { IsTrue result ↔ (one.now ≡ other.now) }
{
    same_activities(one.activities.as_slice(), other.activities.as_slice())
        && same_numbers(&one.renewable, &other.renewable)
        && same_numbers(&one.nonrenewable, &other.nonrenewable)
}
