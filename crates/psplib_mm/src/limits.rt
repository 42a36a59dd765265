ghost use Rattle.std.specs.Prelude.{◌≡◌, ◌≤◌, ◌||◌, ◌∷◌, [], length, not, nat_lt};
ghost use Rattle.std.specs.List.{list_any};
ghost use Rattle.mrcpsp.specs.Project.{ProjectData, is_between};
ghost use Rattle.psplib_mm.specs.Contents.{any_above, first_broken};
ghost use Rattle.psplib_mm.specs.Scan.{broken_count, broken_amount};

use crate::fault::LimitName;
use crate::groups::Resources;
use crate::jobs::Jobs;
use mrcpsp::{
    Activity, MOST_ACTIVITIES, MOST_AMOUNT, MOST_DURATION, MOST_HORIZON, MOST_MODES,
    MOST_RESOURCES, Mode, horizon_of,
};

fn are_modes_miscounted(jobs: &Jobs<'_>) -> bool
    ensures { result ≡ list_any (λ j. not (is_between 1 MOST_MODES j.modes.number)) jobs.now }
{
    let mut left = jobs.again();
    while let Some(job) = left.next_job() {
        if !(1..=MOST_MODES).contains(&(job.modes.number as usize)) {
            return true;
        }
    }
    false
}

/// The first broken limit on the numbers of jobs, modes and resources.
pub fn broken_number(jobs: &Jobs<'_>, resources: Resources) -> Option<LimitName>
    ensures { result ≡ broken_count jobs.now resources.renewable resources.nonrenewable }
{
    if !(1..=MOST_ACTIVITIES).contains(&(jobs.len() as usize)) {
        Some(LimitName::Jobs)
    } else if are_modes_miscounted(jobs) {
        Some(LimitName::Modes)
    } else if resources.renewable as usize > MOST_RESOURCES {
        Some(LimitName::Renewable)
    } else if resources.nonrenewable as usize > MOST_RESOURCES {
        Some(LimitName::Nonrenewable)
    } else {
        None
    }
}

fn is_any_above(most: u32, amounts: &[u32]) -> bool
    ensures { result ≡ any_above most amounts.now }
{
    amounts.iter().any(|amount| most < *amount)
}

fn is_any_long(modes: &[Mode]) -> bool
    ensures { result ≡ list_any (λ m. nat_lt MOST_DURATION m.duration) modes.now }
{
    modes.iter().any(|mode| MOST_DURATION < mode.duration)
}

fn is_any_large(modes: &[Mode]) -> bool
    ensures { result ≡ list_any (λ m.
        any_above MOST_AMOUNT m.renewable || any_above MOST_AMOUNT m.nonrenewable) modes.now }
{
    modes.iter().any(|mode| {
        is_any_above(MOST_AMOUNT, mode.renewable.as_slice())
            || is_any_above(MOST_AMOUNT, mode.nonrenewable.as_slice())
    })
}

fn is_any_activity_long(activities: &[Activity]) -> bool
    ensures { result ≡ list_any (λ a. list_any (λ m. nat_lt MOST_DURATION m.duration) a.modes) activities.now }
{
    activities
        .iter()
        .any(|activity| is_any_long(activity.modes.as_slice()))
}

fn is_any_activity_large(activities: &[Activity]) -> bool
    ensures { result ≡ list_any (λ a. list_any (λ m.
        any_above MOST_AMOUNT m.renewable || any_above MOST_AMOUNT m.nonrenewable) a.modes) activities.now }
{
    activities
        .iter()
        .any(|activity| is_any_large(activity.modes.as_slice()))
}

/// The first broken limit on durations, requests, capacities and the horizon.
pub fn broken_size(
    activities: &[Activity],
    renewable: &[u32],
    nonrenewable: &[u32],
) -> Option<LimitName>
    requires { length activities.now ≤ MOST_ACTIVITIES }
    ensures { let given : ProjectData =
        record { activities = activities.now; renewable = renewable.now; nonrenewable = nonrenewable.now } in
        result ≡ broken_amount given }
{
    if is_any_activity_long(activities) {
        Some(LimitName::Duration)
    } else if is_any_activity_large(activities) {
        Some(LimitName::Request)
    } else if is_any_above(MOST_AMOUNT, renewable) || is_any_above(MOST_AMOUNT, nonrenewable) {
        Some(LimitName::Capacity)
    } else if horizon_of(activities) > MOST_HORIZON {
        Some(LimitName::Horizon)
    } else {
        None
    }
}
