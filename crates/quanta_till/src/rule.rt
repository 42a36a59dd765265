//! The words of a till, what each seat at it knows, and what every step keeps.
use atomic_table::{Play, Split, Table, TableRule};
use std::alloc::Global;

/// Seven unused words lie on each side of the three that count. So a cache line of 64 bytes with
/// one of them has words of this table alone.
pub(crate) const WORDS: usize = 17;

/// The quanta that nobody has drawn, modulo 2^64.
pub(crate) const POOL: usize = 7;

/// The quanta that were used, modulo 2^64.
pub(crate) const SPENT: usize = 8;

/// The quanta that the till was opened with.
pub(crate) const GRANTED: usize = 9;

/// A `SeatView` is what a seat knows, for contracts alone: no value of it is made.
pub struct SeatView {
    pub drawn: u64,
    pub used: u64,
    pub back: u64,
    pub granted: u64,
    pub depth: u64,
    pub seats: u64,
    pub loads: u64,
    pub pool: u64,
    pub spent: u64,
}

pub(crate) struct Balance;

impl TableRule<(), SeatView, u64> for Balance {
    ghost use Rattle.quanta_till.specs.Till.{IsBalanced, new_view};

    ghost holds = { IsBalanced };

    ghost first = { λ granted. new_view granted 0 };
}

pub(crate) type TillTable = Table<(), SeatView, u64, Balance, Global>;

pub(crate) struct NewSeat;

impl Split<SeatView> for NewSeat {
    ghost use Rattle.std.specs.Prelude.{◌+◌};
    ghost use Rattle.quanta_till.specs.Till.{view_after_split, new_view};

    ghost left = { view_after_split };

    ghost right = { λ v. new_view v.granted (v.depth + 1) };
}

pub(crate) struct Draw;

impl Play<(), SeatView> for Draw {
    ghost use Rattle.std.specs.Prelude.{◌≡◌};
    ghost use Rattle.quanta_till.specs.Till.{view_after_draw};

    ghost then = { λ step before _ after. after.0 ≡ view_after_draw before.0 step.first };
}

pub(crate) struct Use;

impl Play<(), SeatView> for Use {
    ghost use Rattle.std.specs.Prelude.{◌≡◌};
    ghost use Rattle.quanta_till.specs.Till.{view_after_use};

    ghost then = { λ step before _ after. after.0 ≡ view_after_use before.0 step.first };
}

pub(crate) struct HandBack;

impl Play<(), SeatView> for HandBack {
    ghost use Rattle.std.specs.Prelude.{◌≡◌};
    ghost use Rattle.quanta_till.specs.Till.{view_after_hand_back};

    ghost then = { λ step before _ after. after.0 ≡ view_after_hand_back before.0 step.first };
}

pub(crate) struct LoadPool;

impl Play<(), SeatView> for LoadPool {
    ghost use Rattle.std.specs.Prelude.{◌≡◌};
    ghost use Rattle.quanta_till.specs.Till.{view_after_pool_load};
    ghost use Rattle.quanta_till.specs.declared.rule.TheConstants.{POOL};

    ghost then = { λ step before found after. (step.word ≡ POOL) × (after.0 ≡ view_after_pool_load before.0 found) };
}

pub(crate) struct LoadSpent;

impl Play<(), SeatView> for LoadSpent {
    ghost use Rattle.std.specs.Prelude.{◌≡◌};
    ghost use Rattle.quanta_till.specs.Till.{view_after_spent_load};
    ghost use Rattle.quanta_till.specs.declared.rule.TheConstants.{SPENT};

    ghost then = { λ step before found after. (step.word ≡ SPENT) × (after.0 ≡ view_after_spent_load before.0 found) };
}

pub(crate) struct LoadGranted;

impl Play<(), SeatView> for LoadGranted {
    ghost use Rattle.std.specs.Prelude.{◌≡◌};
    ghost use Rattle.quanta_till.specs.Till.{view_after_granted_load};
    ghost use Rattle.quanta_till.specs.declared.rule.TheConstants.{GRANTED};

    ghost then = { λ step before found after.
        (step.word ≡ GRANTED) × (found ≡ before.0.granted) × (after.0 ≡ view_after_granted_load before.0) };
}
