//! Amounts of `MOST_RESOURCES` resources, 0 for each that a project does not have. They are taken
//! at once: that is one step of the machine for four of them. Sums are made in a copy, since the
//! compiler does not know that two references differ.
ghost use Rattle.std.specs.Prelude.{◌≡◌, ℕ, ◌+◌, ◌<◌, ◌≤◌, ◌↔◌, IsTrue, slice_index};

use mrcpsp::MOST_RESOURCES;

pub type Amounts = [u32; MOST_RESOURCES];

/// The most of a sum, below `GUARD`. It is enough: a nonrenewable resource needs at most
/// `MOST_AMOUNT` for each activity, a renewable one at most its capacity in a period.
pub const MOST_SUM: u32 = 2_000_000_000;

/// The highest bit. A difference has it if more is subtracted than there is.
const GUARD: u32 = 1 << 31;

pub fn add(amounts: &mut Amounts, more: &Amounts)
    requires few { (r : ℕ) → r < MOST_RESOURCES → slice_index amounts.old r + slice_index more.now r ≤ MOST_SUM }
    ensures { (r : ℕ) → r < MOST_RESOURCES
        → slice_index amounts.new r ≡ slice_index amounts.old r + slice_index more.now r }
{
    let mut sums = *amounts;
    for kind in 0..MOST_RESOURCES {
        sums[kind] += more[kind];
    }
    *amounts = sums;
}

pub fn subtract(amounts: &mut Amounts, less: &Amounts)
    requires enough { (r : ℕ) → r < MOST_RESOURCES → slice_index less.now r ≤ slice_index amounts.old r }
    ensures { (r : ℕ) → r < MOST_RESOURCES
        → slice_index amounts.old r ≡ slice_index amounts.new r + slice_index less.now r }
{
    let mut rests = *amounts;
    for kind in 0..MOST_RESOURCES {
        rests[kind] -= less[kind];
    }
    *amounts = rests;
}

/// Whether `amounts + more` is at most `most`, for each resource.
pub(crate) fn fits(amounts: &Amounts, more: &Amounts, most: &Amounts) -> bool
    requires few { (r : ℕ) → r < MOST_RESOURCES → slice_index amounts.now r + slice_index more.now r ≤ MOST_SUM }
    requires most { (r : ℕ) → r < MOST_RESOURCES → slice_index most.now r ≤ MOST_SUM }
    ensures { IsTrue result ↔ ((r : ℕ) → r < MOST_RESOURCES
        → slice_index amounts.now r + slice_index more.now r ≤ slice_index most.now r) }
{
    let mut over: u32 = 0;
    for kind in 0..MOST_RESOURCES {
        over |= most[kind].wrapping_sub(amounts[kind] + more[kind]);
    }
    over < GUARD
}

pub(crate) fn are_same(one: &Amounts, other: &Amounts) -> bool
    ensures { IsTrue result ↔ ((r : ℕ) → r < MOST_RESOURCES → slice_index one.now r ≡ slice_index other.now r) }
{
    let mut holds = true;
    for kind in 0..MOST_RESOURCES {
        if one[kind] != other[kind] {
            holds = false;
        }
    }
    holds
}
