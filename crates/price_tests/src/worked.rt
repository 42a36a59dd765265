//! Prices worked by hand.
use crate::fixtures::{arc_at, pair, refutes, stock, use_at};
use schedule_prices::{MOST_STARTS, PriceFault, refute_by_prices};

/// Two activities of 2 periods that share the resource take 4 periods.
#[test]
fn one_resource(rt: HostRuntime) {
    let alloc = rt.alloc();
    let two = pair(&rt, alloc, ((2, 1, 0), (2, 1, 0)), false, (1, 0));
    let uses = [use_at(0, 3), use_at(1, 3), use_at(2, 3)];
    let turned = [use_at(2, 3), use_at(1, 3), use_at(0, 3)];
    assert!(rt; refutes(&rt, alloc, &two, 3, &uses));
    assert!(rt; refutes(&rt, alloc, &two, 3, &turned));
    assert!(rt; !refutes(&rt, alloc, &two, 4, &uses));
    // a price in a period that no choice needs pays for it
    assert!(rt;
        !refutes(
            &rt,
            alloc,
            &two,
            3,
            &[use_at(0, 3), use_at(1, 3), use_at(2, 9)]
        )
    );
}

/// Activities of 2 and 2 periods, one after the other, take 4 periods.
#[test]
fn one_precedence(rt: HostRuntime) {
    let alloc = rt.alloc();
    let two = pair(&rt, alloc, ((2, 0, 0), (2, 0, 0)), true, (0, 0));
    let arc = [arc_at(0, 1, 1, 3)];
    assert!(rt; refutes(&rt, alloc, &two, 3, &arc));
    assert!(rt; !refutes(&rt, alloc, &two, 4, &arc));
    // the first is over at the end of period 2, and the second need not have started by 0
    assert!(rt; !refutes(&rt, alloc, &two, 3, &[arc_at(0, 1, 2, 3)]));
    assert!(rt; !refutes(&rt, alloc, &two, 3, &[arc_at(0, 1, 0, 3)]));
}

/// Consumptions of 2 and 3 need a stock of 5.
#[test]
fn one_stock(rt: HostRuntime) {
    let alloc = rt.alloc();
    let modes = ((1, 0, 2), (4, 0, 3));
    let short = pair(&rt, alloc, modes, false, (0, 4));
    let enough = pair(&rt, alloc, modes, false, (0, 5));
    assert!(rt; refutes(&rt, alloc, &short, 9, &[stock(1)]));
    assert!(rt; !refutes(&rt, alloc, &enough, 9, &[stock(1)]));
}

/// Foreign rows, rows twice, no rows, and prices at and above the most that they may sum to.
#[test]
fn any_prices(rt: HostRuntime) {
    let alloc = rt.alloc();
    let two = pair(&rt, alloc, ((2, 0, 0), (2, 0, 0)), true, (0, 0));
    let arc = arc_at(0, 1, 1, 3);
    assert!(rt; refutes(&rt, alloc, &two, 3, &[arc, arc]));
    assert!(rt; !refutes(&rt, alloc, &two, 3, &[arc, arc_at(1, 0, 1, 3)]));
    assert!(rt; !refutes(&rt, alloc, &two, 3, &[arc, arc_at(0, 7, 1, 3)]));
    assert!(rt; !refutes(&rt, alloc, &two, 3, &[]));
    // no choice of an activity ends by period 1
    assert!(rt; refutes(&rt, alloc, &two, 1, &[]));
    let highest = arc_at(0, 1, 1, u32::MAX);
    let mut prices = Vec::new(alloc);
    for _ in 0..256 {
        assert!(rt; prices.push(highest).is_ok());
    }
    // 256 times 2^32 - 1 is within 2^40, and with 256 and one more is above
    assert!(rt; refutes(&rt, alloc, &two, 3, &prices));
    assert!(rt; prices.push(arc_at(0, 1, 1, 256)).is_ok());
    assert!(rt; refutes(&rt, alloc, &two, 3, &prices));
    assert!(rt; prices.push(arc_at(0, 1, 1, 1)).is_ok());
    assert!(rt; !refutes(&rt, alloc, &two, 3, &prices));
}

/// Two activities have room for half the starts each.
#[test]
fn too_many_starts(rt: HostRuntime) {
    let alloc = rt.alloc();
    let two = pair(&rt, alloc, ((2, 0, 0), (2, 0, 0)), true, (0, 0));
    assert!(rt; MOST_STARTS == 1_048_576);
    let late = refute_by_prices(alloc, &two, 524_287, &[]);
    assert!(rt; late == Ok(false));
    let later = refute_by_prices(alloc, &two, 524_288, &[]);
    assert!(rt; later == Err(PriceFault::TooManyStarts));
}
