//! Laws of the definitions, each the proved contract of a function that does nothing.
ghost use Rattle.schedule_prices.specs.Choices.{NoChoiceIsLeft};
ghost use Rattle.schedule_prices.specs.Prices.{EachStepIsSound, PricesExceed};
ghost use Rattle.schedule_prices.specs.Rows.{EachKeepsRows, EachPaysAtMostSupply};
ghost use Rattle.schedule_prices.specs.Steps.{BehindIsBarred, EarlyIsBarred, LateIsBarred};

/// A feasible schedule keeps each row of its project.
pub fn each_keeps_rows()
    ensures { EachKeepsRows }
{}

/// A feasible schedule pays at most the supply, at any prices.
pub fn each_pays_at_most_supply()
    ensures { EachPaysAtMostSupply }
{}

/// If the cheapest choices cost more than the supply, each feasible schedule exceeds the bound.
pub fn prices_exceed()
    ensures { PricesExceed }
{}

/// If prices refute the bound with an activity kept to a piece, no short schedule takes the piece.
pub fn each_step_is_sound()
    ensures { EachStepIsSound }
{}

/// If an activity has no choice left, each feasible schedule exceeds the bound.
pub fn no_choice_is_left()
    ensures { NoChoiceIsLeft }
{}

/// The bound and precedences bar choices too.
pub fn bound_and_precedences_bar()
    ensures late { LateIsBarred }
    ensures early { EarlyIsBarred }
    ensures behind { BehindIsBarred }
{}
