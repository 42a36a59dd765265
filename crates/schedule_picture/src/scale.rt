//! The marks of the axis.

/// The least of 1, 2, 5, 10, 20, .. periods that `most` marks are enough for.
pub(crate) fn step_of(span: u32, most: u32) -> u32 {
    let mut step = 1u32;
    for _ in 0..10 {
        for factor in [1u32, 2, 5] {
            let next = step.saturating_mul(factor);
            if next.saturating_mul(most) >= span {
                return next;
            }
        }
        step = step.saturating_mul(10);
    }
    step
}

pub(crate) fn plural(count: u64, one: &'static str, more: &'static str) -> &'static str {
    if count == 1 { one } else { more }
}
