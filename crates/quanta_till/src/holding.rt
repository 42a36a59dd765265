//! What a lease holds. It cannot be let go, so it ends only if it holds nothing.
ghost use Rattle.std.specs.Prelude.{◌≡◌, ◌+◌, ◌-◌, ◌<◌, ◌≤◌};
ghost use Rattle.quanta_till.specs.declared.rule.TheConstants.{WORDS};
ghost use Rattle.quanta_till.specs.Till.{new_view};

use crate::rule::{Draw, HandBack, POOL, SPENT, SeatView, TillTable, Use};
use atomic_table::Seat;
use std::marker::Model;

/// The most quanta that a lease may hold at a time.
pub const LEASE_LIMIT: u64 = 1_000_000_000_000;

pub(crate) struct Holding {
    seat: Seat<(), SeatView>,
    left: u64,
}

impl Model for Holding {
    ghost use Rattle.std.specs.Prelude.{◌≡◌, ◌+◌, ◌≤◌};
    ghost use Rattle.quanta_till.specs.declared.holding.TheConstants.{LEASE_LIMIT};
    ghost use Rattle.quanta_till.specs.Lease.{HoldingValue};

    ghost Value = { HoldingValue };

    ghost view = { λ h. record {
      id = h.seat.table_id;
      depth = h.seat.me.0.depth;
      drawn = h.seat.me.0.drawn;
      used = h.seat.me.0.used;
      back = h.seat.me.0.back;
      left = h.left;
    } };

    // What was drawn was used, was handed back or is left. No seat is made from a holding's seat.
    ghost invariant = { λ h.
        ((h.seat.me.0.used + h.seat.me.0.back) + h.left ≡ h.seat.me.0.drawn)
        × (h.left ≤ LEASE_LIMIT)
        × (h.seat.me.0.seats ≡ 0) };
}

impl Holding {
    pub(crate) fn new(seat: Seat<(), SeatView>) -> Holding
        requires { seat.me.0 ≡ new_view seat.me.0.granted seat.me.0.depth }
        ensures { result ≡ record {
          id = seat.table_id;
          depth = seat.me.0.depth;
          drawn = 0;
          used = 0;
          back = 0;
          left = 0;
        } }
    {
        Holding { seat, left: 0 }
    }

    pub(crate) fn left(&self) -> u64
        ensures left { result ≡ self.now.left }
        ensures counted { (self.now.used + self.now.back) + result ≡ self.now.drawn }
        ensures limited { result ≤ LEASE_LIMIT }
    {
        self.left
    }

    pub(crate) fn draw(&mut self, words: &TillTable, n: u64)
        requires till { self.old.id ≡ words.now.shared.table_id }
        requires words { words.now.shared.table_id.words ≡ WORDS }
        requires limited { self.old.left + n ≤ LEASE_LIMIT }
        ensures { self.new ≡ record self.old { drawn = self.old.drawn + n; left = self.old.left + n } }
    {
        words.shared.fetch_sub::<Draw>(&mut self.seat, POOL, n);
        self.left += n;
    }

    pub(crate) fn use_up(&mut self, words: &TillTable, n: u64)
        requires till { self.old.id ≡ words.now.shared.table_id }
        requires words { words.now.shared.table_id.words ≡ WORDS }
        requires left { n ≤ self.old.left }
        ensures { self.new ≡ record self.old { used = self.old.used + n; left = self.old.left - n } }
    {
        words.shared.fetch_add::<Use>(&mut self.seat, SPENT, n);
        self.left -= n;
    }

    pub(crate) fn settle(&mut self, words: &TillTable)
        requires till { self.old.id ≡ words.now.shared.table_id }
        requires words { words.now.shared.table_id.words ≡ WORDS }
        ensures { self.new ≡ record self.old { back = self.old.back + self.old.left; left = 0 } }
    {
        let rest = self.left;
        words
            .shared
            .fetch_add::<HandBack>(&mut self.seat, POOL, rest);
        self.left = 0;
    }

    pub(crate) fn end(self, words: &TillTable) -> Seat<(), SeatView>
        requires till { self.id ≡ words.now.shared.table_id }
        requires empty { self.left ≡ 0 }
        requires counted { self.drawn ≡ self.used + self.back }
        ensures till { result.table_id ≡ self.id }
        ensures depth { result.me.0.depth ≡ self.depth }
        ensures drawn { result.me.0.drawn ≡ self.drawn }
        ensures used { result.me.0.used ≡ self.used }
        ensures back { result.me.0.back ≡ self.back }
    {
        let Holding { seat, left: _ } = self;
        seat
    }
}
