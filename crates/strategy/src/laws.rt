ghost use Rattle.strategy.specs.Laws.{ClosedTreeDecides, BestIsFeasible, BestHasShape, OptimalIsTrue, InfeasibleIsTrue, OnlyTreesShowInfeasible, StopsAtBound, EndsWithItsNodes, ClosedStays};

/// 'Optimal' and 'infeasible' are true, and a tree that is over shows one of them.
pub fn what_is_shown_is_true()
    ensures tree { ClosedTreeDecides }
    ensures optimal { OptimalIsTrue }
    ensures infeasible { InfeasibleIsTrue }
    ensures alone { OnlyTreesShowInfeasible }
{}

pub fn a_search_stops_at_the_bound()
    ensures bound { StopsAtBound }
    ensures nodes { EndsWithItsNodes }
    ensures stays { ClosedStays }
{}

pub fn each_best_is_feasible()
    ensures feasible { BestIsFeasible }
    ensures shape { BestHasShape }
{}
