//! The desks of a service's connections.
ghost use Rattle.std.specs.Prelude.{◌≡◌, length, All, IfOk, OnOk};
ghost use Rattle.farm_core.specs.Tills.{AreSeated};
ghost use Rattle.farm_session.specs.TillDesk.{AreNew, HaveSeated};

use farm_session::{TillDesk, till_desks};
use quanta_till::{Desk, Till};
use std::alloc::{AllocError, Global};

pub(crate) fn connection_desks<'a>(
    alloc: Global,
    tills: &'a [Till],
    desks: &mut [Desk],
    count: u64,
) -> Result<Vec<Vec<TillDesk<'a>>>, AllocError>
    requires seated { AreSeated tills.now desks.old }
    ensures seated { AreSeated tills.entry.now desks.new }
    ensures new { IfOk result (λ connection_desks. All (λ own. AreNew tills.entry.now desks.old own.items) connection_desks.items) }
    ensures count { IfOk result (λ connection_desks. length connection_desks.items ≡ count) }
    ensures each { OnOk result (HaveSeated count desks.old desks.new) }
{
    let mut connection_desks = Vec::new(alloc);
    for _ in 0..count {
        connection_desks.push(till_desks(alloc, tills, desks)?)?;
    }
    Ok(connection_desks)
}
