//! Least numbers of which some may be missing.
ghost use Rattle.std.specs.Prelude.{◌≡◌, ℕ, ◌<◌, ◌≤◌, ◌^◌, Some, IfSome, sum};
ghost use Rattle.schedule_prices.specs.Least.{lesser};

/// The lesser of a number that may be missing and one that is there.
pub(crate) fn lesser(least: Option<u64>, cost: u64) -> Option<u64>
    ensures exact { result ≡ lesser least (Some cost) }
    ensures few { (n : ℕ) → cost ≤ n → IfSome least (λ x. x ≤ n) → IfSome result (λ x. x ≤ n) }
{
    match least {
        None => Some(cost),
        Some(before) => Some(before.min(cost)),
    }
}

/// The lesser of two numbers that may be missing.
pub(crate) fn lesser_of(one: Option<u64>, other: Option<u64>) -> Option<u64>
    ensures exact { result ≡ lesser one other }
    ensures few { (n : ℕ) → IfSome one (λ x. x ≤ n) → IfSome other (λ x. x ≤ n)
        → IfSome result (λ x. x ≤ n) }
{
    match other {
        None => one,
        Some(cost) => lesser(one, cost),
    }
}

pub(crate) fn sum_of(least: &[u64]) -> u64
    requires { sum least.now < 2 ^ 64 }
    ensures { result ≡ sum least.now }
{
    least.iter().sum()
}
