ghost use Rattle.std.specs.Prelude.{◌≡◌, map, IfOk, OnOk, OnErr};
ghost use Rattle.farm_core.specs.Tills.{AreSeated, AreTillsOf};
ghost use Rattle.farm_session.specs.TillDesk.{lease_at, having_leased, first_desk, AreNew, HaveSeated};

use farm_core::Config;
use quanta_till::{Desk, Lease, Till};
use std::alloc::{AllocError, Global};
use std::marker::Model;

/// A `TillDesk` is a purse's till with a desk, which counts the leases that are made there.
#[derive(Drop)]
pub struct TillDesk<'a> {
    till: &'a Till,
    desk: Desk,
}

impl<'a> Model for TillDesk<'a> {
    ghost use Rattle.std.specs.Prelude.{◌≡◌};
    ghost use Rattle.farm_session.specs.TillDesk.{TillDeskValue};

    ghost Value = { TillDeskValue };

    ghost view = { λ c. record { till = c.till.now; depth = c.desk.depth; seats = c.desk.seats } };

    ghost invariant = { λ c. c.desk.id ≡ c.till.now.id };
}

impl<'a> TillDesk<'a> {
    /// Makes an empty lease of this till for `tenant`. If there is no memory, no lease was made.
    pub fn lease(&mut self, tenant: u32) -> Result<Lease, AllocError>
        ensures made { IfOk result (λ lease. lease ≡ lease_at self.old tenant) }
        ensures one { OnOk result (self.new ≡ having_leased self.old) }
        ensures none { OnErr result (self.new ≡ self.old) }
    {
        self.till.lease(&mut self.desk, tenant)
    }
}

/// A till of each purse with all its quanta, in the order of purses, and the first desk of each.
pub fn open_tills(alloc: Global, config: &Config) -> Result<(Vec<Till>, Vec<Desk>), AllocError>
    ensures tills { IfOk result (λ made. AreTillsOf config.now made.0.items) }
    ensures seated { IfOk result (λ made. AreSeated made.0.items made.1.items) }
    ensures unused { IfOk result (λ made. made.1.items ≡ map first_desk made.0.items) }
{
    let mut tills = Vec::new(alloc);
    let mut desks = Vec::new(alloc);
    for purse in 0..config.purses() {
        let (till, desk) = Till::new(alloc, purse, config.granted(purse))?;
        tills.push(till)?;
        desks.push(desk)?;
    }
    Ok((tills, desks))
}

/// One more desk at each till, at which no lease was made yet.
pub fn till_desks<'a>(
    alloc: Global,
    tills: &'a [Till],
    desks: &mut [Desk],
) -> Result<Vec<TillDesk<'a>>, AllocError>
    requires seated { AreSeated tills.now desks.old }
    ensures seated { AreSeated tills.entry.now desks.new }
    ensures new { IfOk result (λ till_desks. AreNew tills.entry.now desks.old till_desks.items) }
    ensures one { OnOk result (HaveSeated 1 desks.old desks.new) }
{
    let mut till_desks = Vec::new(alloc);
    for (i, till) in tills.iter().enumerate() {
        let desk = till.desk(&mut desks[i]);
        till_desks.push(TillDesk { till, desk })?;
    }
    Ok(till_desks)
}
