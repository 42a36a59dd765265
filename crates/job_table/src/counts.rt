//! How many jobs each tenant has, and of how many the turn is out.
ghost use Rattle.std.specs.Prelude.{◌≡◌, ℕ, ◌≤◌, ◌<◌, ◌^◌, true, false, nat_eq, cond, OnOk};
ghost use Rattle.indexmap.specs.IndexMap.{get, ContainsKey};
ghost use Rattle.job_table.specs.Kept.{counted, moved, one_more, one_less};

use indexmap::IndexMap;
use std::alloc::AllocError;

#[derive(Clone, Copy)]
pub(crate) struct Counts {
    pub(crate) kept: usize,
    pub(crate) out: usize,
}

pub(crate) fn counts_in(counts: &IndexMap<u32, Counts>, tenant: u32) -> Counts
    ensures { result ≡ counted (get nat_eq counts.now tenant) }
{
    match counts.get(&tenant) {
        Some(found) => *found,
        None => Counts { kept: 0, out: 0 },
    }
}

/// Takes the memory for a tenant's counts, so that no later count takes any.
pub(crate) fn begin_counts(
    counts: &mut IndexMap<u32, Counts>,
    tenant: u32,
) -> Result<(), AllocError>
    ensures same { (t : ℕ) → counted (get nat_eq counts.new t) ≡ counted (get nat_eq counts.old t) }
    ensures there { OnOk result (ContainsKey nat_eq counts.new tenant) }
{
    if !counts.contains_key(&tenant) {
        let Ok(_) = counts.insert(tenant, Counts { kept: 0, out: 0 }) else {
            return Err(AllocError);
        };
    }
    Ok(())
}

pub(crate) fn set_counts(counts: &mut IndexMap<u32, Counts>, tenant: u32, to: Counts)
    requires { ContainsKey nat_eq counts.old tenant }
    ensures { (t : ℕ) → counted (get nat_eq counts.new t)
        ≡ cond (nat_eq tenant t) to (counted (get nat_eq counts.old t)) }
{
    if let Some(place) = counts.get_mut(&tenant) {
        *place = to;
    }
}

/// Updates the count of turns that are out: `was` before the change, `is` after it.
pub(crate) fn recount(counts: &mut IndexMap<u32, Counts>, tenant: u32, was: bool, is: bool)
    requires there { ContainsKey nat_eq counts.old tenant }
    requires least { was ≡ true → 1 ≤ (counted (get nat_eq counts.old tenant)).out }
    requires most { was ≡ false → is ≡ true
        → (counted (get nat_eq counts.old tenant)).out < (counted (get nat_eq counts.old tenant)).kept }
    ensures { (t : ℕ) → counted (get nat_eq counts.new t)
        ≡ cond (nat_eq tenant t)
        (moved was is (counted (get nat_eq counts.old tenant)))
        (counted (get nat_eq counts.old t)) }
{
    if was == is {
        return;
    }
    let Counts { kept, out } = counts_in(counts, tenant);
    let out = if is { out + 1 } else { out - 1 };
    set_counts(counts, tenant, Counts { kept, out });
}

pub(crate) fn count_in(counts: &mut IndexMap<u32, Counts>, tenant: u32, is: bool)
    requires there { ContainsKey nat_eq counts.old tenant }
    requires kept { (counted (get nat_eq counts.old tenant)).kept < 2 ^ 63 }
    requires out { (counted (get nat_eq counts.old tenant)).out < 2 ^ 63 }
    ensures { (t : ℕ) → counted (get nat_eq counts.new t)
        ≡ cond (nat_eq tenant t)
        (one_more is (counted (get nat_eq counts.old tenant)))
        (counted (get nat_eq counts.old t)) }
{
    let Counts { kept, out } = counts_in(counts, tenant);
    let out = if is { out + 1 } else { out };
    set_counts(
        counts,
        tenant,
        Counts {
            kept: kept + 1,
            out,
        },
    );
}

pub(crate) fn count_out(counts: &mut IndexMap<u32, Counts>, tenant: u32, was: bool)
    requires there { ContainsKey nat_eq counts.old tenant }
    requires kept { 1 ≤ (counted (get nat_eq counts.old tenant)).kept }
    requires out { was ≡ true → 1 ≤ (counted (get nat_eq counts.old tenant)).out }
    ensures { (t : ℕ) → counted (get nat_eq counts.new t)
        ≡ cond (nat_eq tenant t)
        (one_less was (counted (get nat_eq counts.old tenant)))
        (counted (get nat_eq counts.old t)) }
{
    let Counts { kept, out } = counts_in(counts, tenant);
    let out = if was { out - 1 } else { out };
    set_counts(
        counts,
        tenant,
        Counts {
            kept: kept - 1,
            out,
        },
    );
}
