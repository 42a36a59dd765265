ghost use Rattle.std.specs.Prelude.{◌≡◌, ◌≤◌, [], length, nat_le};
ghost use Rattle.std.specs.List.{list_all};
ghost use Rattle.mrcpsp.specs.Project.{is_mode, are_amounts, are_successors, are_activities, horizon, longest};

use crate::{Activity, Mode};

/// The most activities of a project.
pub const MOST_ACTIVITIES: usize = 202;

/// The most modes of an activity.
pub const MOST_MODES: usize = 10;

/// The most renewable resources, and the most nonrenewable ones.
pub const MOST_RESOURCES: usize = 8;

/// The most of a request, a consumption or a capacity, in units of its resource.
pub const MOST_AMOUNT: u32 = 1_000_000;

/// In periods.
pub const MOST_DURATION: u32 = 1_000;

/// The longest horizon of a project: the sum of its longest durations, in periods.
pub const MOST_HORIZON: u64 = 20_000;

pub(crate) fn are_small(amounts: &[u32]) -> bool
    ensures { result ≡ list_all (λ a. nat_le a MOST_AMOUNT) amounts.now }
{
    amounts.iter().all(|amount| *amount <= MOST_AMOUNT)
}

fn are_limited(amounts: &[u32], count: usize) -> bool
    ensures { result ≡ are_amounts count amounts.now }
{
    amounts.len() == count && are_small(amounts)
}

fn fits(mode: &Mode, renewable: usize, nonrenewable: usize) -> bool
    ensures { result ≡ is_mode renewable nonrenewable mode.now }
{
    mode.duration <= MOST_DURATION
        && are_limited(mode.renewable.as_slice(), renewable)
        && are_limited(mode.nonrenewable.as_slice(), nonrenewable)
}

fn all_fit(modes: &[Mode], renewable: usize, nonrenewable: usize) -> bool
    ensures { result ≡ list_all (is_mode renewable nonrenewable) modes.now }
{
    modes.iter().all(|mode| fits(mode, renewable, nonrenewable))
}

fn may_follow(successors: &[u32], number: usize, activities: usize) -> bool
    ensures { result ≡ are_successors activities number [] successors.now }
{
    for (i, &successor) in successors.iter().enumerate() {
        let after = successor as usize;
        if after <= number || activities < after || successors[..i].contains(&successor) {
            return false;
        }
    }
    true
}

pub(crate) fn all_keep(activities: &[Activity], renewable: usize, nonrenewable: usize) -> bool
    ensures { result ≡ are_activities renewable nonrenewable (length activities.now) 1 activities.now }
{
    for (i, activity) in activities.iter().enumerate() {
        let modes = activity.modes.as_slice();
        if !(1..=MOST_MODES).contains(&modes.len())
            || !all_fit(modes, renewable, nonrenewable)
            || !may_follow(activity.successors.as_slice(), i + 1, activities.len())
        {
            return false;
        }
    }
    true
}

fn longest_of(modes: &[Mode]) -> u32
    ensures { result ≡ longest modes.now }
{
    let mut most = 0;
    for mode in modes {
        most = most.max(mode.duration);
    }
    most
}

/// The horizon of `activities`: the sum of their longest durations, in periods.
pub fn horizon_of(activities: &[Activity]) -> u64
    requires { length activities.now ≤ MOST_ACTIVITIES }
    ensures { result ≡ horizon activities.now }
{
    let mut sum = 0;
    for activity in activities {
        sum += u64::from(longest_of(activity.modes.as_slice()));
    }
    sum
}
