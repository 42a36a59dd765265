ghost use Rattle.std.specs.Prelude.{◌≡◌, ◌↔◌, IsTrue, IfOk};

use crate::Sequence;
use crate::sequence::same_numbers;
use std::alloc::{AllocError, Global};
use std::marker::Model;

/// A `Mode` is one way to run an activity.
#[derive(Debug, Drop)]
pub struct Mode {
    /// In periods.
    pub duration: u32,
    /// The use of each renewable resource in each period of the activity.
    pub renewable: Sequence<u32>,
    /// The consumption of each nonrenewable resource in all.
    pub nonrenewable: Sequence<u32>,
}

impl Model for Mode {
    ghost use Rattle.mrcpsp.specs.Project.{ModeData};

    ghost Value = { ModeData };

    ghost view = { λ m. record { duration = m.duration; renewable = m.renewable; nonrenewable = m.nonrenewable } };
}

impl Mode {
    pub(crate) fn clone_in(&self, alloc: Global) -> Result<Mode, AllocError>
        ensures { IfOk result (λ copy. copy ≡ self.now) }
    {
        Ok(Mode {
            duration: self.duration,
            renewable: self.renewable.clone_in(alloc)?,
            nonrenewable: self.nonrenewable.clone_in(alloc)?,
        })
    }
}

pub(crate) fn same_mode(one: &Mode, other: &Mode) -> bool
    ensures { IsTrue result ↔ (one.now ≡ other.now) }
{
    one.duration == other.duration
        && same_numbers(&one.renewable, &other.renewable)
        && same_numbers(&one.nonrenewable, &other.nonrenewable)
}

pub(crate) fn clone_modes(alloc: Global, modes: &[Mode]) -> Result<Vec<Mode>, AllocError>
    ensures { IfOk result (λ copy. copy.items ≡ modes.now) }
{
    let mut copy = Vec::with_capacity(alloc, modes.len())?;
    for mode in modes {
        copy.push(mode.clone_in(alloc)?)?;
    }
    Ok(copy)
}

pub(crate) fn same_modes(one: &[Mode], other: &[Mode]) -> bool
    ensures { IsTrue result ↔ (one.now ≡ other.now) }
{
    if one.len() != other.len() {
        return false;
    }
    for (i, mode) in one.iter().enumerate() {
        if !same_mode(mode, &other[i]) {
            return false;
        }
    }
    true
}
