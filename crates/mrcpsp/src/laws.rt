//! Laws of the definitions, each the proved contract of a function that does nothing.
ghost use Rattle.mrcpsp.specs.Earliest.{EarliestIsLeast, EarliestIsUnique};
ghost use Rattle.mrcpsp.specs.Bound.{NoneIsBelowBound};
ghost use Rattle.mrcpsp.specs.Breaches.{BreachesAreRight};

/// The earliest start that is computed is the least one at which nothing is broken, and it alone
/// is.
pub fn earliest_is_the_least_start()
    ensures least { EarliestIsLeast }
    ensures unique { EarliestIsUnique }
{}

/// No feasible schedule is shorter than the longest chain of activities by shortest durations.
pub fn none_is_below_the_bound()
    ensures { NoneIsBelowBound }
{}

/// A schedule breaks each breach of the list of all, and each breach has a line in it; so the list
/// of a feasible schedule is empty.
pub fn breaches_are_right()
    ensures { BreachesAreRight }
{}
