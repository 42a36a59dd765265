//! The amounts of the first resources at once, as many as there are lanes: beyond is nothing. Sums
//! are made in a copy, since the compiler does not know that two references differ.
ghost use Rattle.std.specs.Prelude.{◌≡◌, ℕ, ◌+◌, ◌-◌, ◌%◌, ◌<◌, ◌≤◌, ◌↔◌, IsTrue, slice_index};
ghost use Rattle.tree_search.specs.Width.{IsNone};

use mrcpsp::MOST_RESOURCES;
use serial_sgs::amounts::{Amounts, MOST_SUM};

/// The highest bit. A difference has it if more is subtracted than there is.
const GUARD: u32 = 1 << 31;

#[inline(always)]
pub(crate) fn add(amounts: &mut Amounts, more: &Amounts, lanes: usize)
    requires few { (r : ℕ) → r < MOST_RESOURCES → slice_index amounts.old r + slice_index more.now r ≤ MOST_SUM }
    requires lanes { lanes ≤ MOST_RESOURCES }
    requires none { IsNone lanes more.now }
    ensures { (r : ℕ) → r < MOST_RESOURCES
        → slice_index amounts.new r ≡ slice_index amounts.old r + slice_index more.now r }
{
    let mut sums = *amounts;
    for kind in 0..lanes {
        sums[kind] += more[kind];
    }
    *amounts = sums;
}

#[inline(always)]
pub(crate) fn subtract(amounts: &mut Amounts, less: &Amounts, lanes: usize)
    requires enough { (r : ℕ) → r < MOST_RESOURCES → slice_index less.now r ≤ slice_index amounts.old r }
    requires lanes { lanes ≤ MOST_RESOURCES }
    requires none { IsNone lanes less.now }
    ensures { (r : ℕ) → r < MOST_RESOURCES
        → slice_index amounts.old r ≡ slice_index amounts.new r + slice_index less.now r }
{
    let mut rests = *amounts;
    for kind in 0..lanes {
        rests[kind] -= less[kind];
    }
    *amounts = rests;
}

/// Whether no `there - taken`, modulo 2^32, has the highest bit.
#[inline(always)]
pub(crate) fn is_covered(taken: &Amounts, there: &Amounts, lanes: usize) -> bool
    requires lanes { lanes ≤ MOST_RESOURCES }
    requires none { IsNone lanes taken.now }
    requires beyond { IsNone lanes there.now }
    ensures { IsTrue result ↔ ((r : ℕ) → r < MOST_RESOURCES
        → (slice_index there.now r + (4294967296 - slice_index taken.now r)) % 4294967296 < 2147483648) }
{
    let mut over: u32 = 0;
    for kind in 0..lanes {
        over |= there[kind].wrapping_sub(taken[kind]);
    }
    over < GUARD
}

/// Whether `request` is at most `free`, for each resource.
#[inline(always)]
pub(crate) fn fits(request: &Amounts, free: &Amounts, lanes: usize) -> bool
    requires small { (r : ℕ) → r < MOST_RESOURCES → slice_index request.now r ≤ MOST_SUM }
    requires few { (r : ℕ) → r < MOST_RESOURCES → slice_index free.now r ≤ MOST_SUM }
    requires lanes { lanes ≤ MOST_RESOURCES }
    requires none { IsNone lanes request.now }
    requires beyond { IsNone lanes free.now }
    ensures { IsTrue result ↔ ((r : ℕ) → r < MOST_RESOURCES → slice_index request.now r ≤ slice_index free.now r) }
{
    is_covered(request, free, lanes)
}

/// Subtracts modulo 2^32.
#[inline(always)]
pub(crate) fn take_off(amounts: &mut Amounts, less: &Amounts, lanes: usize)
    requires lanes { lanes ≤ MOST_RESOURCES }
    requires none { IsNone lanes less.now }
    requires beyond { IsNone lanes amounts.old }
    ensures { (r : ℕ) → r < MOST_RESOURCES
        → slice_index amounts.new r ≡ (slice_index amounts.old r + (4294967296 - slice_index less.now r)) % 4294967296 }
{
    let mut rests = *amounts;
    for kind in 0..lanes {
        rests[kind] = rests[kind].wrapping_sub(less[kind]);
    }
    *amounts = rests;
}

/// Copies the first lanes of `new`. Beyond them both are 0.
#[inline(always)]
pub(crate) fn copy_lanes(amounts: &mut Amounts, new: &Amounts, lanes: usize)
    requires lanes { lanes ≤ MOST_RESOURCES }
    requires none { IsNone lanes new.now }
    requires beyond { IsNone lanes amounts.old }
    ensures { amounts.new ≡ new.now }
{
    for kind in 0..lanes {
        amounts[kind] = new[kind];
    }
}
