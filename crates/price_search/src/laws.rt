//! Laws of the definitions, each the proved contract of a function that does nothing.
ghost use Rattle.price_search.specs.Fitting.{FittingModesSuffice, FeasibleModesFit, BeyondTheHorizonIsNone};

/// A project has a feasible schedule exactly if modes fit: activities in such modes may run one
/// after the other. So if each feasible schedule is longer than the horizon, there is none.
pub fn fitting_modes_decide()
    ensures suffice { FittingModesSuffice }
    ensures fit { FeasibleModesFit }
    ensures beyond { BeyondTheHorizonIsNone }
{}
