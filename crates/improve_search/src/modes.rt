//! Which modes of a project are worth trying.
use mrcpsp::{Activity, Mode};

fn is_within(row: &[u32], other: &[u32]) -> bool {
    row.iter().zip(other).all(|(one, most)| *one <= *most)
}

/// A mode of duration 0 uses no renewable resource.
fn is_executable(mode: &Mode, capacities: &[u32]) -> bool {
    mode.duration == 0 || is_within(mode.renewable.as_slice(), capacities)
}

fn is_no_worse(mode: &Mode, other: &Mode) -> bool {
    mode.duration <= other.duration
        && is_within(mode.renewable.as_slice(), other.renewable.as_slice())
        && is_within(mode.nonrenewable.as_slice(), other.nonrenewable.as_slice())
}

/// Another mode that may run is nowhere worse, and is better somewhere or comes earlier.
fn is_dominated(place: usize, mode: &Mode, modes: &[Mode], capacities: &[u32]) -> bool {
    for (i, other) in modes.iter().enumerate() {
        let comes_first = i < place || !is_no_worse(mode, other);
        if i != place
            && is_executable(other, capacities)
            && is_no_worse(other, mode)
            && comes_first
        {
            return true;
        }
    }
    false
}

pub(crate) fn is_useful(
    place: usize,
    mode: &Mode,
    activity: &Activity,
    capacities: &[u32],
) -> bool {
    is_executable(mode, capacities)
        && !is_dominated(place, mode, activity.modes.as_slice(), capacities)
}
