//! Configurations at both sides of each limit.
use crate::fixtures::{Terms, config_of};

#[test]
fn limits(rt: HostRuntime) {
    let rows = [
        ([0, 1, 1], [1, 1], true),
        ([1_000_000_000_000, 1_000, 1_000_000], [16, 1_000_000], true),
        ([1_000_000_000_001, 1, 1], [1, 1], false),
        ([0, 0, 1], [1, 1], false),
        ([0, 1_001, 1], [1, 1], false),
        ([0, 1, 0], [1, 1], false),
        ([0, 1, 1_000_001], [1, 1], false),
        ([0, 1, 1], [0, 1], false),
        ([0, 1, 1], [17, 1], false),
        ([0, 1, 1], [1, 0], false),
        ([0, 1, 1], [1, 1_000_001], false),
    ];
    for (terms, numbers, good) in rows {
        let is_good = config_of(&rt, rt.alloc(), &[("a", "", terms)], numbers).is_some();
        assert!(rt; is_good == good, "{terms:?} {numbers:?}");
    }
}

const FEW: [u64; 3] = [5, 1, 1];

/// Tenants, and whether a configuration may have them.
const TENANTS: [(&[Terms], bool); 5] = [
    (&[], false),
    (&[("a", "", FEW), ("b", "", FEW), ("ab", "", FEW)], true),
    (&[("a", "", FEW), ("b", "", FEW), ("a", "", FEW)], false),
    (&[("a", "", FEW), ("a", "", FEW)], false),
    (
        &[("a", "", FEW), ("abcdefghijklmnopqrstuvwxyz", "", FEW)],
        true,
    ),
];

#[test]
fn tenants(rt: HostRuntime) {
    for (at, (tenants, good)) in TENANTS.iter().enumerate() {
        let is_good = config_of(&rt, rt.alloc(), tenants, [2, 1_000]).is_some();
        assert!(rt; is_good == *good, "row {at}");
    }
}
