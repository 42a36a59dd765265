//! Tests of the amounts of all resources at once.
ghost use Rattle.std.specs.Prelude.{◌≡◌, ℕ, ◌+◌, ◌-◌, ◌%◌, ◌<◌, ◌≤◌, ◌↔◌, IsTrue, slice_index};

use mrcpsp::MOST_RESOURCES;
use serial_sgs::amounts::{Amounts, MOST_SUM};

/// The highest bit. A difference has it if more is subtracted than there is.
const GUARD: u32 = 1 << 31;

/// Whether no `there - taken`, modulo 2^32, has the highest bit.
#[inline(always)]
pub(crate) fn is_covered(taken: &Amounts, there: &Amounts) -> bool
    ensures { IsTrue result ↔ ((r : ℕ) → r < MOST_RESOURCES
        → (slice_index there.now r + (4294967296 - slice_index taken.now r)) % 4294967296 < 2147483648) }
{
    let mut over: u32 = 0;
    for kind in 0..MOST_RESOURCES {
        over |= there[kind].wrapping_sub(taken[kind]) & GUARD;
    }
    over == 0
}

/// Whether `request` is at most `free`, for each resource.
#[inline(always)]
pub(crate) fn fits(request: &Amounts, free: &Amounts) -> bool
    requires small { (r : ℕ) → r < MOST_RESOURCES → slice_index request.now r ≤ MOST_SUM }
    requires few { (r : ℕ) → r < MOST_RESOURCES → slice_index free.now r ≤ MOST_SUM }
    ensures { IsTrue result ↔ ((r : ℕ) → r < MOST_RESOURCES → slice_index request.now r ≤ slice_index free.now r) }
{
    is_covered(request, free)
}

/// Subtracts modulo 2^32.
#[inline(always)]
pub(crate) fn take_off(amounts: &mut Amounts, less: &Amounts)
    ensures { (r : ℕ) → r < MOST_RESOURCES
        → slice_index amounts.new r ≡ (slice_index amounts.old r + (4294967296 - slice_index less.now r)) % 4294967296 }
{
    let mut rests = *amounts;
    for kind in 0..MOST_RESOURCES {
        rests[kind] = rests[kind].wrapping_sub(less[kind]);
    }
    *amounts = rests;
}
