//! Who hears of what is proved, while it is.
ghost use Rattle.price_search.specs.LowerBound.{TakesAtLeast};
ghost use Rattle.prover.specs.Known.{IsBest};

use crate::known::BestKnown;
use mrcpsp::Project;

/// A `Herald` is what hears of each better schedule and each higher bound. Several workers call it
/// under their lock: makespans fall and bounds rise.
pub trait Herald {
    /// The schedule is shorter than all before. No schedule takes fewer periods than `bound`.
    fn better(&self, project: &Project, best: &BestKnown, bound: u32)
        requires best { IsBest project.now best.now }
        requires bound { TakesAtLeast project.now bound };

    /// The bound is higher than all before, in periods.
    fn higher(&self, project: &Project, bound: u32)
        requires { TakesAtLeast project.now bound };
}
