ghost use Rattle.std.specs.Prelude.{◌≡◌, ◌+◌, IfOk, OnOk, OnErr};
ghost use Rattle.quanta_till.specs.Desk.{new_desk, after_seat, after_words};
ghost use Rattle.quanta_till.specs.Lease.{empty_lease};

use crate::account::SharedTill;
use crate::holding::Holding;
use crate::lease::Lease;
use crate::owned::Owned;
use crate::rule::{
    GRANTED, LoadGranted, LoadPool, LoadSpent, NewSeat, POOL, SPENT, SeatView, TillTable, WORDS,
};
use atomic_table::Seat;
use std::alloc::{AllocError, Global};
use std::marker::Model;
use std::sync::Arc;

/// A `Till` is the prepaid quanta of a purse in three words: POOL, not drawn; SPENT; and GRANTED.
#[derive(Drop)]
pub struct Till {
    account: Arc<SharedTill, Global>,
}

impl Model for Till {
    ghost use Rattle.std.specs.Arc.{arc_value};
    ghost use Rattle.quanta_till.specs.Till.{TillValue};

    ghost Value = { TillValue };

    ghost view = { λ t. record {
      id = (arc_value t.account).table.shared.table_id;
      purse = (arc_value t.account).purse;
      granted = (arc_value t.account).table.shared.key;
    } };
}

/// A `Desk` is one thread's seat at a till. It has its purse's number too: a seat has no bytes, and
/// slices of such values are not supported.
#[derive(Drop)]
pub struct Desk {
    purse: u32,
    seat: Seat<(), SeatView>,
}

impl Model for Desk {
    ghost use Rattle.std.specs.Prelude.{◌≡◌};
    ghost use Rattle.quanta_till.specs.Desk.{DeskValue};

    ghost Value = { DeskValue };

    ghost view = { λ d. record {
      id = d.seat.table_id;
      number = d.seat.id;
      purse = d.purse;
      granted = d.seat.me.0.granted;
      depth = d.seat.me.0.depth;
      seats = d.seat.me.0.seats;
      loads = d.seat.me.0.loads;
      pool = d.seat.me.0.pool;
      spent = d.seat.me.0.spent;
    } };

    // Nothing is drawn, used or handed back at a desk.
    ghost invariant = { λ d.
        (d.seat.me.0.drawn ≡ 0) × (d.seat.me.0.used ≡ 0) × (d.seat.me.0.back ≡ 0) };
}

/// A `TillWords` is a till's words as a desk loaded them, in quanta, modulo 2^64.
#[derive(Clone, Copy, Debug, PartialEq, Eq)]
pub struct TillWords {
    pub pool: u64,
    pub spent: u64,
    pub granted: u64,
}

impl Till {
    /// Opens a till with `granted` quanta, and its first desk. Fails only for want of memory.
    pub fn new(alloc: Global, purse: u32, granted: u64) -> Result<(Till, Desk), AllocError>
        ensures till { IfOk result (λ made. (made.0.purse ≡ purse) × (made.0.granted ≡ granted)) }
        ensures desk { IfOk result (λ made. made.1 ≡ new_desk made.0.id 0 purse granted 0) }
    {
        let mut words = [0; WORDS];
        words[POOL] = granted;
        words[GRANTED] = granted;
        let (table, seat) = TillTable::of_words(alloc, &words, &granted)?;
        let account = Arc::new(alloc, SharedTill { table, purse })?;
        Ok((Till { account }, Desk { purse, seat }))
    }

    /// Makes a desk for another thread. Takes no memory.
    pub fn desk(&self, desk: &mut Desk) -> Desk
        requires { desk.old.id ≡ self.now.id }
        ensures desk { desk.new ≡ after_seat desk.old }
        ensures new { result ≡ new_desk self.now.id result.number self.now.purse desk.old.granted (desk.old.depth + 1) }
    {
        let seat = self
            .account
            .table
            .shared
            .split_seat::<NewSeat>(&mut desk.seat);
        Desk {
            purse: self.account.purse,
            seat,
        }
    }

    /// Makes an empty lease for `tenant`. Fails only if the count of the till's sharers is full.
    pub fn lease(&self, desk: &mut Desk, tenant: u32) -> Result<Lease, AllocError>
        requires { desk.old.id ≡ self.now.id }
        ensures empty { IfOk result (λ lease. lease ≡ empty_lease self.now tenant (desk.old.depth + 1)) }
        ensures desk { OnOk result (desk.new ≡ after_seat desk.old) }
        ensures err { OnErr result (desk.new ≡ desk.old) }
    {
        let account = Arc::try_clone(&self.account)?;
        let seat = account.table.shared.split_seat::<NewSeat>(&mut desk.seat);
        Ok(Lease::new(Owned::new(account, tenant, Holding::new(seat))))
    }

    /// Loads the words one after the other: other threads may step in between. Takes no memory.
    pub fn words(&self, desk: &mut Desk) -> TillWords
        requires { desk.old.id ≡ self.now.id }
        ensures loaded { desk.new ≡ after_words desk.old result.pool result.spent }
        ensures granted { result.granted ≡ desk.old.granted }
    {
        let shared = &self.account.table.shared;
        let pool = shared.load::<LoadPool>(&mut desk.seat, POOL);
        let spent = shared.load::<LoadSpent>(&mut desk.seat, SPENT);
        let granted = shared.load::<LoadGranted>(&mut desk.seat, GRANTED);
        TillWords {
            pool,
            spent,
            granted,
        }
    }
}
