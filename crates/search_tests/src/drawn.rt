//! Small random projects.
use mrcpsp::{Activity, Mode, Project, Sequence};
use std::alloc::{AllocError, Global};
use std::process::Abort;

/// A `Bounds` is the numbers below which a project is drawn: further activities, further modes of
/// an activity, and durations.
#[derive(Clone, Copy, Debug)]
pub(crate) struct Bounds {
    activities: u32,
    modes: u32,
    durations: u32,
}

/// Up to 8 activities of up to 3 modes of up to 4 periods.
pub(crate) const SMALL: Bounds = Bounds {
    activities: 8,
    modes: 3,
    durations: 5,
};

/// Up to 3 activities of up to 2 modes of up to 2 periods.
pub(crate) const SMALLEST: Bounds = Bounds {
    activities: 3,
    modes: 2,
    durations: 3,
};

/// A `Drawn` is a generator: x becomes x * 1103515245 + 12345 modulo 2^31, and gives x div 2^16.
#[derive(Drop)]
pub(crate) struct Drawn {
    x: u32,
}

impl Drawn {
    pub(crate) fn new(seed: u32) -> Drawn {
        Drawn { x: seed }
    }

    /// A number below `n`, or 0 if `n` is 0.
    pub(crate) fn below(&mut self, n: u32) -> u32 {
        let next = self.x.wrapping_mul(1_103_515_245).wrapping_add(12_345);
        self.x = next & 0x7fff_ffff;
        (self.x >> 16).checked_rem(n).unwrap_or(0)
    }

    /// `count` numbers below `n`, each with `least` added.
    fn list(
        &mut self,
        alloc: Global,
        count: u32,
        least: u32,
        n: u32,
    ) -> Result<Sequence<u32>, AllocError> {
        let mut numbers = Vec::new(alloc);
        for _ in 0..count {
            numbers.push(self.below(n).saturating_add(least))?;
        }
        Ok(Sequence::from(numbers))
    }

    fn modes(
        &mut self,
        alloc: Global,
        bounds: Bounds,
        kinds: (u32, u32),
    ) -> Result<Sequence<Mode>, AllocError> {
        let mut modes = Vec::new(alloc);
        let count = self.below(bounds.modes);
        for _ in 0..=count {
            let duration = self.below(bounds.durations);
            let renewable = self.list(alloc, kinds.0, 0, 4)?;
            let nonrenewable = self.list(alloc, kinds.1, 0, 3)?;
            modes.push(Mode {
                duration,
                renewable,
                nonrenewable,
            })?;
        }
        Ok(Sequence::from(modes))
    }

    fn successors(
        &mut self,
        alloc: Global,
        number: u32,
        size: u32,
    ) -> Result<Sequence<u32>, AllocError> {
        let mut numbers = Vec::new(alloc);
        for next in number.saturating_add(1)..=size {
            if self.below(4) == 0 {
                numbers.push(next)?;
            }
        }
        Ok(Sequence::from(numbers))
    }

    fn activities(
        &mut self,
        alloc: Global,
        bounds: Bounds,
        size: u32,
        kinds: (u32, u32),
    ) -> Result<Sequence<Activity>, AllocError> {
        let mut activities = Vec::new(alloc);
        for number in 1..=size {
            let modes = self.modes(alloc, bounds, kinds)?;
            let successors = self.successors(alloc, number, size)?;
            activities.push(Activity { modes, successors })?;
        }
        Ok(Sequence::from(activities))
    }

    pub(crate) fn project(&mut self, rt: &impl Abort, alloc: Global, bounds: Bounds) -> Project {
        let drawn = self.project_of(alloc, bounds);
        drawn
            .expect(rt, "no memory for a project")
            .expect(rt, "within the limits")
    }

    fn project_of(&mut self, alloc: Global, bounds: Bounds) -> Result<Option<Project>, AllocError> {
        let size = self.below(bounds.activities).saturating_add(1);
        let kinds = (self.below(3), self.below(3));
        let activities = self.activities(alloc, bounds, size, kinds)?;
        let renewable = self.list(alloc, kinds.0, 2, 4)?;
        let nonrenewable = self.list(alloc, kinds.1, 0, size.saturating_mul(3))?;
        Ok(Project::new(activities, renewable, nonrenewable))
    }
}
