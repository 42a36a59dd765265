//! Which tenants share a purse, and how purses are numbered.
ghost use Rattle.std.specs.Prelude.{◌≡◌, ◌<◌, ◌≤◌, IsTrue, length, slice_index};
ghost use Rattle.std.specs.List.{list_all};
ghost use Rattle.farm_core.specs.Config.{are_terms, purse_names, member_lines, granted_by, are_purses};
ghost use Rattle.farm_core.specs.Purses.{is_shared, first_member, AreNumbered};

use crate::{MOST_QUANTA, MOST_TENANTS, Name, TenantLine};

fn is_shared(one: &Option<Name>, other: &Option<Name>) -> bool
    ensures { result ≡ is_shared one.now other.now }
{
    match (one, other) {
        (Some(one), Some(other)) => one.is_same(other),
        _ => false,
    }
}

#[tactic(auto, unfolding(crate::specs::Purses::first_member))]
fn first_member(lines: &[TenantLine], tenant: usize) -> usize
    requires known { tenant < length lines.now }
    ensures exact { result ≡ first_member (purse_names lines.now) tenant }
    ensures most { result ≤ tenant }
{
    for other in 0..tenant {
        if is_shared(&lines[other].purse, &lines[tenant].purse) {
            return other;
        }
    }
    tenant
}

/// The number of each tenant's purse, and the number of purses.
#[derive(Clone, Copy, Debug)]
pub(crate) struct Purses {
    numbers: [u32; MOST_TENANTS],
    count: u32,
}

impl Purses {
    pub(crate) fn of(lines: &[TenantLine]) -> Purses
        requires few { length lines.now ≤ MOST_TENANTS }
        ensures { AreNumbered (purse_names lines.now) result.numbers result.count }
    {
        let mut numbers = [0; MOST_TENANTS];
        let mut count = 0;
        for tenant in 0..lines.len() {
            let first = first_member(lines, tenant);
            if first < tenant {
                numbers[tenant] = numbers[first];
            } else {
                numbers[tenant] = count;
                count += 1;
            }
        }
        Purses { numbers, count }
    }

    pub(crate) fn number(&self, tenant: usize) -> u32
        requires { tenant < MOST_TENANTS }
        ensures { result ≡ slice_index self.now.numbers tenant }
    {
        self.numbers[tenant]
    }

    pub(crate) fn count(&self) -> u32
        ensures { result ≡ self.now.count }
    {
        self.count
    }
}

pub(crate) fn granted_to(lines: &[TenantLine], purses: &Purses, purse: u32) -> u64
    requires numbered { AreNumbered (purse_names lines.now) purses.now.numbers purses.now.count }
    requires few { length lines.now ≤ MOST_TENANTS }
    requires terms { IsTrue (list_all are_terms lines.now) }
    ensures exact { result ≡ granted_by (member_lines lines.now purse) }
{
    let mut granted = 0;
    for (tenant, line) in lines.iter().enumerate() {
        if purses.number(tenant) == purse {
            granted += line.quanta;
        }
    }
    granted
}

pub(crate) fn are_purses(lines: &[TenantLine], purses: &Purses) -> bool
    requires numbered { AreNumbered (purse_names lines.now) purses.now.numbers purses.now.count }
    requires few { length lines.now ≤ MOST_TENANTS }
    requires terms { IsTrue (list_all are_terms lines.now) }
    ensures { result ≡ are_purses lines.now }
{
    for purse in 0..purses.count() {
        if granted_to(lines, purses, purse) > MOST_QUANTA {
            return false;
        }
    }
    true
}
