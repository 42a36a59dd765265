//! Sets of activities.
ghost use Rattle.std.specs.Prelude.{◌≡◌, true};
ghost use Rattle.schedule_clauses.specs.Activities.{is_among, IsPart};

/// An `Activities` is a set of activities, by their places from 0: a bit for each, the lowest of
/// the first word for activity 0.
pub type Activities = [u64; 4];

#[tactic(auto, unfolding(crate::specs::Activities::is_among))]
pub(crate) fn is_among(activities: Activities, activity: usize) -> bool
    ensures { result ≡ is_among activities activity }
{
    match activities.get(activity / 64) {
        Some(word) => (*word >> (activity % 64)) % 2 == 1,
        None => false,
    }
}

#[tactic(auto, using(crate::proofs::ActivityLemmas::part_rules))]
pub(crate) fn is_part(part: Activities, whole: Activities) -> bool
    ensures { result ≡ true → IsPart part whole }
{
    for at in 0..4 {
        if part[at] & whole[at] != part[at] {
            return false;
        }
    }
    true
}

pub(crate) fn add_one(activities: &mut Activities, activity: usize) {
    let at = activity / 64;
    if at < 4 {
        activities[at] |= 1 << (activity % 64);
    }
}

pub(crate) fn add_all(activities: &mut Activities, others: Activities) {
    for at in 0..4 {
        activities[at] |= others[at];
    }
}
