//! When activities are ready, and for how many predecessors they wait.
ghost use Rattle.std.specs.Prelude.{◌≡◌, ℕ, ◌<◌, ◌==◌, true, false, All, length, set, get_or, vec_capacity};
ghost use Rattle.mrcpsp.specs.Project.{ProjectData, size};
ghost use Rattle.serial_sgs.specs.Members.{has};
ghost use Rattle.serial_sgs.specs.Waiting.{AreOthers};
ghost use Rattle.serial_pass.specs.Eligible.{AreFinishes, HasSums};
ghost use Rattle.serial_pass.specs.Waiting.{AreTold, HaveEntered, no_wait, told};

use crate::eligible::Eligible;

/// A `Wait` is what is known of the predecessors of an activity.
#[derive(Clone, Copy)]
pub(crate) struct Wait {
    /// The latest finish of those that are placed, 0 if none is.
    pub(crate) ready: u32,
    /// The point of that finish.
    pub(crate) point: u16,
    /// How many are not placed.
    pub(crate) missing: u16,
}

/// Returns whether no predecessor is missing any more.
#[inline(always)]
fn note(waiting: &mut [Wait], activity: usize, finish: u32, point: u16) -> bool
    requires inside { activity < length waiting.old }
    requires some { 0 < (get_or waiting.old activity no_wait).missing }
    ensures told { waiting.new ≡ set waiting.old activity (told finish point (get_or waiting.old activity no_wait)) }
    ensures none { result ≡ ((told finish point (get_or waiting.old activity no_wait)).missing == 0) }
{
    let wait = &mut waiting[activity];
    if wait.ready < finish {
        wait.ready = finish;
        wait.point = point;
    }
    wait.missing -= 1;
    wait.missing == 0
}

/// An activity that misses nobody any more is eligible.
#[inline(always)]
fn tell(
    waiting: &mut [Wait],
    eligible: &mut Eligible,
    activity: usize,
    finish: u32,
    point: u16,
    lfts: &[u32],
)
    requires inside { activity < length waiting.old }
    requires some { 0 < (get_or waiting.old activity no_wait).missing }
    requires closed { has eligible.old.set activity ≡ false }
    requires sums { (p : ProjectData) × AreFinishes p lfts.now × HasSums p eligible.old × (activity < size p) }
    ensures told { waiting.new ≡ set waiting.old activity (told finish point (get_or waiting.old activity no_wait)) }
    ensures own { has eligible.new.set activity ≡ ((told finish point (get_or waiting.old activity no_wait)).missing == 0) }
    ensures others { (j : ℕ) → (j ≡ activity → ⊥) → has eligible.new.set j ≡ has eligible.old.set j }
    ensures sums { (p : ProjectData) → AreFinishes p lfts.now → HasSums p eligible.old → activity < size p
        → HasSums p eligible.new }
{
    if note(waiting, activity, finish, point) {
        eligible.add(activity, lfts);
    }
}

/// Tells the activities in `after` that a predecessor of theirs has been placed.
#[inline(always)]
fn tell_in(
    waiting: &mut [Wait],
    eligible: &mut Eligible,
    after: &[u32],
    finish: u32,
    point: u16,
    lfts: &[u32],
)
    requires others { AreOthers (length waiting.old) after.now }
    requires some { All (λ s. 0 < (get_or waiting.old s no_wait).missing) after.now }
    requires closed { All (λ s. has eligible.old.set s ≡ false) after.now }
    requires sums { (p : ProjectData) × AreFinishes p lfts.now × HasSums p eligible.old
        × (size p ≡ length waiting.old) }
    ensures told { AreTold after.now finish point waiting.old waiting.new }
    ensures entered { HaveEntered after.now waiting.new eligible.old.set eligible.new.set }
    ensures sums { (p : ProjectData) → AreFinishes p lfts.now → HasSums p eligible.old → size p ≡ length waiting.old
        → HasSums p eligible.new }
{
    for other in after {
        tell(waiting, eligible, *other as usize, finish, point, lfts);
    }
}

/// Calls `tell_in` for all activities.
#[inline(always)]
pub(crate) fn tell_all(
    waiting: &mut Vec<Wait>,
    eligible: &mut Eligible,
    after: &[u32],
    finish: u32,
    point: u16,
    lfts: &[u32],
)
    requires others { AreOthers (length waiting.old.items) after.now }
    requires some { All (λ s. 0 < (get_or waiting.old.items s no_wait).missing) after.now }
    requires closed { All (λ s. has eligible.old.set s ≡ false) after.now }
    requires sums { (p : ProjectData) × AreFinishes p lfts.now × HasSums p eligible.old
        × (size p ≡ length waiting.old.items) }
    ensures told { AreTold after.now finish point waiting.old.items waiting.new.items }
    ensures entered { HaveEntered after.now waiting.new.items eligible.old.set eligible.new.set }
    ensures sums { (p : ProjectData) → AreFinishes p lfts.now → HasSums p eligible.old
        → size p ≡ length waiting.old.items → HasSums p eligible.new }
{
    tell_in(waiting.as_mut_slice(), eligible, after, finish, point, lfts);
}
