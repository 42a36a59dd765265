ghost use Rattle.std.specs.Prelude.{◌≡◌, ◌+◌, ◌<◌, ◌≤◌};
ghost use Rattle.std.specs.Arc.{arc_value};
ghost use Rattle.quanta_till.specs.Lease.{after_draw, after_use, after_settle};

use crate::account::SharedTill;
use crate::holding::{Holding, LEASE_LIMIT};
use crate::rule::SeatView;
use atomic_table::Seat;
use std::alloc::Global;
use std::marker::Model;
use std::sync::Arc;

/// An `Owned` is what a [`Lease`](crate::Lease) holds. It cannot be let go: it ends by `end`. So
/// the drop of a lease has to end it.
pub(crate) struct Owned {
    account: Arc<SharedTill, Global>,
    tenant: u32,
    holding: Holding,
}

/// An `Ended` is a lease that has ended, by which contracts see what was drawn, used and handed
/// back.
#[derive(Drop)]
pub(crate) struct Ended {
    tenant: u32,
    seat: Seat<(), SeatView>,
}

impl Model for Ended {
    ghost use Rattle.quanta_till.specs.Lease.{LeaseValue};

    ghost Value = { LeaseValue };

    ghost view = { λ e. record {
      id = e.seat.table_id;
      tenant = e.tenant;
      depth = e.seat.me.0.depth;
      drawn = e.seat.me.0.drawn;
      used = e.seat.me.0.used;
      back = e.seat.me.0.back;
      left = 0;
    } };
}

impl Model for Owned {
    ghost use Rattle.std.specs.Prelude.{◌≡◌};
    ghost use Rattle.std.specs.Arc.{arc_value};
    ghost use Rattle.quanta_till.specs.Lease.{LeaseValue};

    ghost Value = { LeaseValue };

    ghost view = { λ o. record {
      id = (arc_value o.account).table.shared.table_id;
      tenant = o.tenant;
      depth = o.holding.depth;
      drawn = o.holding.drawn;
      used = o.holding.used;
      back = o.holding.back;
      left = o.holding.left;
    } };

    // The holding is of the lease's own till.
    ghost invariant = { λ o. o.holding.id ≡ (arc_value o.account).table.shared.table_id };
}

impl Owned {
    pub(crate) fn new(account: Arc<SharedTill, Global>, tenant: u32, holding: Holding) -> Owned
        requires { holding.id ≡ (arc_value account).table.shared.table_id }
        ensures { result ≡ record {
          id = holding.id;
          tenant = tenant;
          depth = holding.depth;
          drawn = holding.drawn;
          used = holding.used;
          back = holding.back;
          left = holding.left;
        } }
    {
        Owned {
            account,
            tenant,
            holding,
        }
    }

    pub(crate) fn tenant(&self) -> u32
        ensures { result ≡ self.now.tenant }
    {
        self.tenant
    }

    pub(crate) fn left(&self) -> u64
        ensures left { result ≡ self.now.left }
        ensures counted { (self.now.used + self.now.back) + result ≡ self.now.drawn }
        ensures limited { result ≤ LEASE_LIMIT }
    {
        self.holding.left()
    }

    pub(crate) fn draw(&mut self, n: u64)
        requires { self.old.left + n ≤ LEASE_LIMIT }
        ensures { self.new ≡ after_draw self.old n }
    {
        self.holding.draw(&self.account.table, n);
    }

    pub(crate) fn use_one(&mut self)
        requires { 0 < self.old.left }
        ensures { self.new ≡ after_use self.old 1 }
    {
        self.holding.use_up(&self.account.table, 1);
    }

    pub(crate) fn use_up(&mut self, n: u64)
        requires { n ≤ self.old.left }
        ensures { self.new ≡ after_use self.old n }
    {
        self.holding.use_up(&self.account.table, n);
    }

    pub(crate) fn settle(&mut self)
        ensures { self.new ≡ after_settle self.old }
    {
        self.holding.settle(&self.account.table);
    }

    /// Hands back what is left, and ends.
    pub(crate) fn end(self) -> Ended
        ensures { result ≡ after_settle self }
    {
        let Owned {
            account,
            tenant,
            mut holding,
        } = self;
        holding.settle(&account.table);
        Ended {
            tenant,
            seat: holding.end(&account.table),
        }
    }
}
