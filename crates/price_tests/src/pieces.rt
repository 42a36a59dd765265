//! Barred choices worked by hand.
use crate::fixtures::{arc_at, pair, use_at};
use mrcpsp::Project;
use schedule_prices::{Barred, ChoiceRange};
use std::alloc::Global;
use std::process::Abort;

fn barred<'a>(rt: &impl Abort, alloc: Global, project: &'a Project, bound: u32) -> Barred<'a> {
    match Barred::new(alloc, project, bound) {
        Ok(barred) => barred,
        Err(_) => panic!(rt; "no memory for a table"),
    }
}

/// The starts left of the one mode of an activity, of the first eight: a bit for each.
fn left(barred: &Barred, activity: usize) -> u32 {
    let mut bits = 0;
    for start in 0..8 {
        if !barred.is_barred(activity, 0, start) {
            bits |= 1 << start;
        }
    }
    bits
}

/// Activities of 2 and 3 periods, one after the other, have one start each within 5 periods.
#[test]
fn precedences_tighten(rt: HostRuntime) {
    let alloc = rt.alloc();
    let two = pair(&rt, alloc, ((2, 0, 0), (3, 0, 0)), true, (0, 0));
    let mut five = barred(&rt, alloc, &two, 5);
    assert!(rt; left(&five, 0) == 0b1111 && left(&five, 1) == 0b111);
    assert!(rt; !five.tighten());
    assert!(rt; left(&five, 0) == 0b1 && left(&five, 1) == 0b100);
    let mut four = barred(&rt, alloc, &two, 4);
    assert!(rt; four.tighten());
    assert!(rt; five.is_barred(2, 0, 0) && five.is_barred(0, 1, 0));
}

/// With 2 of 5 periods and the resource to itself, no activity of 2 periods starts in period 1 or 2
/// if the other takes 3.
#[test]
fn prices_bar_pieces(rt: HostRuntime) {
    let alloc = rt.alloc();
    let two = pair(&rt, alloc, ((2, 1, 0), (3, 1, 0)), false, (1, 0));
    let uses = [
        use_at(0, 1),
        use_at(1, 1),
        use_at(2, 1),
        use_at(3, 1),
        use_at(4, 1),
    ];
    let mut five = barred(&rt, alloc, &two, 5);
    let middle = ChoiceRange {
        activity: 1,
        mode: Some(0),
        from: 1,
        to: 1,
    };
    // all periods cost the same: 2 + 3 is within the supply of 5
    assert!(rt; five.bar_piece(alloc, &uses, middle) == Ok(false));
    assert!(rt; left(&five, 1) == 0b111);
    // started in period 1 the second runs in 1 to 3, and the first cannot but run in two of them
    let three = [use_at(1, 1), use_at(2, 1), use_at(3, 1)];
    assert!(rt; five.bar_piece(alloc, &three, middle) == Ok(true));
    assert!(rt; left(&five, 1) == 0b101 && left(&five, 0) == 0b1111);
    // it has 3 of what there is 3 of, and the first at least 1: it starts where it has 2
    assert!(rt; five.refute(alloc, &three) == Ok(false));
    let every = ChoiceRange {
        activity: 0,
        mode: None,
        from: 1,
        to: 2,
    };
    assert!(rt; five.bar_piece(alloc, &three, every) == Ok(true));
    assert!(rt; left(&five, 0) == 0b1001);
}

/// The dear choices are barred in one call, as they are piece by piece.
#[test]
fn prices_bar_the_dear(rt: HostRuntime) {
    let alloc = rt.alloc();
    let two = pair(&rt, alloc, ((2, 1, 0), (3, 1, 0)), false, (1, 0));
    let three = [use_at(1, 1), use_at(2, 1), use_at(3, 1)];
    let mut five = barred(&rt, alloc, &two, 5);
    // the cheapest cost 1 and 2, the supply is 3: what costs more than its cheapest is too dear
    assert!(rt; five.bar_dear(alloc, &three) == Ok(false));
    assert!(rt; left(&five, 0) == 0b1001 && left(&five, 1) == 0b101);
    let mut four = barred(&rt, alloc, &two, 4);
    assert!(rt; four.bar_dear(alloc, &[use_at(1, 1), use_at(2, 1)]) == Ok(true));
    assert!(rt; left(&four, 0) == 0b111 && left(&four, 1) == 0b11);
    assert!(rt; five.bar_dear(alloc, &[arc_at(0, 1, 0, 1)]) == Ok(false));
    assert!(rt; left(&five, 0) == 0b1001 && left(&five, 1) == 0b101);
}
