//! Literals as numbers: 2 · x for the variable x, and 2 · x + 1 for its negation.
ghost use Rattle.std.specs.Prelude.{◌≡◌};
ghost use Rattle.clause_kernel.specs.Clauses.{negated};

/// The other literal of the variable.
#[inline]
#[tactic(auto, unfolding(crate::specs::Clauses::negated))]
pub fn negated(literal: u32) -> u32
    ensures { result ≡ negated literal }
{
    if literal % 2 == 0 {
        literal + 1
    } else {
        literal - 1
    }
}
