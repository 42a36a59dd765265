//! The critical chain of a schedule, from an activity that ends last back to one that begins first.
//! Each begins when the one before it ends: a predecessor, or a user of one of its resources.
use crate::bars::Bar;

fn share_resource(one: &Bar<'_>, other: &Bar<'_>) -> bool {
    one.requests
        .iter()
        .zip(other.requests.iter())
        .any(|(a, b)| *a > 0 && *b > 0)
}

/// 2 for a predecessor, 1 for an activity with a resource in common, 0 for no cause.
fn hold_of(before: &Bar<'_>, after: &Bar<'_>) -> u32 {
    if before.finish != after.start || before.number == after.number {
        return 0;
    }
    if before
        .successors
        .iter()
        .any(|number| *number as usize == after.number)
    {
        return 2;
    }
    if before.start < before.finish && share_resource(before, after) {
        return 1;
    }
    0
}

/// A predecessor is preferred to an activity with a resource in common.
fn cause_of(bars: &[Bar<'_>], place: usize) -> Option<usize> {
    let after = bars.get(place)?;
    let mut found = None;
    let mut strongest = 0u32;
    for (other, before) in bars.iter().enumerate() {
        let hold = hold_of(before, after);
        if hold > strongest {
            strongest = hold;
            found = Some(other);
        }
    }
    found
}

/// The last of the activities with the latest finish: the sink, if the project has one.
fn last_of(bars: &[Bar<'_>]) -> Option<usize> {
    let mut latest = None;
    let mut found = None;
    for (place, bar) in bars.iter().enumerate() {
        if latest.is_none_or(|finish| bar.finish >= finish) {
            latest = Some(bar.finish);
            found = Some(place);
        }
    }
    found
}

pub(crate) fn mark_chain(bars: &mut Vec<Bar<'_>>) {
    let mut next = last_of(bars);
    for _ in 0..bars.len() {
        let Some(place) = next else {
            return;
        };
        let Some(bar) = bars.get_mut(place) else {
            return;
        };
        if bar.is_critical {
            return;
        }
        bar.is_critical = true;
        next = cause_of(bars, place);
    }
}
