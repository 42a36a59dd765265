//! The words of tills whose leases are used in one thread, and of tills in slices.
ghost use Rattle.std.specs.Prelude.{◌≡◌, ℕ, length, slice_get, Some};
ghost use Rattle.quanta_till.specs.Till.{TillValue};
ghost use Rattle.quanta_till.specs.Desk.{DeskValue};

use quanta_till::{Desk, LEASE_LIMIT, Till, TillWords};
use std::alloc::AllocError;
use std::test::Fail;

pub(crate) fn words(pool: u64, spent: u64, granted: u64) -> TillWords {
    TillWords {
        pool,
        spent,
        granted,
    }
}

#[test]
fn a_lease_hands_back_what_it_did_not_use(rt: HostRuntime) -> Result<(), Fail> {
    let (till, mut desk) = Till::new(rt.alloc(), 7, 100)?;
    assert!(rt; till.words(&mut desk) == words(100, 0, 100));
    let mut lease = till.lease(&mut desk, 7)?;
    assert!(rt; lease.tenant() == 7 && lease.left() == 0);
    lease.draw(10);
    for _ in 0..4 {
        if lease.left() > 0 {
            lease.use_one();
        }
    }
    assert!(rt; lease.left() == 6);
    assert!(rt; till.words(&mut desk) == words(90, 4, 100));
    drop(lease);
    assert!(rt; till.words(&mut desk) == words(96, 4, 100));
    drop(till.lease(&mut desk, 7)?);
    assert!(rt; till.words(&mut desk) == words(96, 4, 100));
    Ok(())
}

#[test]
fn a_settled_lease_may_draw_again(rt: HostRuntime) -> Result<(), Fail> {
    let (till, mut desk) = Till::new(rt.alloc(), 0, 20)?;
    let mut lease = till.lease(&mut desk, 0)?;
    lease.draw(5);
    lease.use_one();
    lease.settle();
    assert!(rt; lease.left() == 0);
    assert!(rt; till.words(&mut desk) == words(19, 1, 20));
    lease.settle();
    assert!(rt; till.words(&mut desk) == words(19, 1, 20));
    lease.draw(2);
    assert!(rt; lease.left() == 2);
    drop(lease);
    assert!(rt; till.words(&mut desk) == words(19, 1, 20));
    Ok(())
}

// The pool of a till of 1 from which 3 are drawn is 2 below zero.
#[test]
fn the_pool_goes_below_zero_modulo_2_to_the_64(rt: HostRuntime) -> Result<(), Fail> {
    let (till, mut desk) = Till::new(rt.alloc(), 0, 1)?;
    let mut lease = till.lease(&mut desk, 0)?;
    lease.draw(3);
    assert!(rt; till.words(&mut desk) == words(18_446_744_073_709_551_614, 0, 1));
    lease.settle();
    lease.draw(LEASE_LIMIT);
    assert!(rt; lease.left() == 1_000_000_000_000);
    drop(lease);
    assert!(rt; till.words(&mut desk) == words(1, 0, 1));
    Ok(())
}

// The sum of the pools and of what was spent, as far as it fits.
fn accounted(tills: &[Till], desks: &mut [Desk]) -> u64
    requires count { length desks.old ≡ length tills.now }
    requires seated { (i : ℕ) (t : TillValue) (d : DeskValue)
        → slice_get tills.now i ≡ Some t → slice_get desks.old i ≡ Some d → d.id ≡ t.id }
{
    let mut sum: u64 = 0;
    for (i, till) in tills.iter().enumerate() {
        let loaded = till.words(&mut desks[i]);
        sum = sum.saturating_add(loaded.pool).saturating_add(loaded.spent);
    }
    sum
}

// Of 30 and 12 a lease holds 7.
#[test]
fn tills_and_desks_lie_in_slices(rt: HostRuntime) -> Result<(), Fail> {
    let (first, mut first_desk) = Till::new(rt.alloc(), 1, 30)?;
    let (second, second_desk) = Till::new(rt.alloc(), 2, 12)?;
    let mut lease = first.lease(&mut first_desk, 1)?;
    lease.draw(8);
    lease.use_one();
    let tills = [first, second];
    let mut desks = [first_desk, second_desk];
    assert!(rt; accounted(&tills, &mut desks) == 35);
    Ok(())
}

// Of 10, one tenant draws 6 and uses 5, and another draws 4 and uses 1.
#[test]
fn leases_of_two_tenants_draw_on_one_pool(rt: HostRuntime) -> Result<(), Fail> {
    let (till, mut desk) = Till::new(rt.alloc(), 5, 10)?;
    let mut first = till.lease(&mut desk, 0)?;
    let mut second = till.lease(&mut desk, 1)?;
    assert!(rt; first.tenant() == 0 && second.tenant() == 1);
    first.draw(6);
    assert!(rt; till.words(&mut desk) == words(4, 0, 10));
    second.draw(4);
    assert!(rt; till.words(&mut desk) == words(0, 0, 10));
    first.use_up(5);
    second.use_one();
    assert!(rt; first.left() == 1 && second.left() == 3);
    drop(first);
    assert!(rt; till.words(&mut desk) == words(1, 6, 10));
    assert!(rt; second.tenant() == 1 && second.left() == 3);
    drop(second);
    assert!(rt; till.words(&mut desk) == words(4, 6, 10));
    Ok(())
}

// If a growth of the first till is refused, the second one is made, and works.
#[test]
fn new_fails_only_for_want_of_memory(rt: HostRuntime) -> Result<(), Fail> {
    let (till, mut desk) = match Till::new(rt.alloc(), 3, 9) {
        Ok(made) => made,
        Err(AllocError) => Till::new(rt.alloc(), 3, 9)?,
    };
    let mut lease = till.lease(&mut desk, 3)?;
    lease.draw(9);
    lease.use_one();
    drop(lease);
    assert!(rt; till.words(&mut desk) == words(8, 1, 9));
    Ok(())
}
