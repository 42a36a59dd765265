ghost use Rattle.std.specs.Prelude.{◌≡◌, ◌/◌, max};
ghost use Rattle.farm_cli.specs.Entries.{entries_for};

use farm_core::{Config, TenantLine};
use std::env::Env;
use std::io::Eprint;
use std::str;
use watched_io::explains;

/// The kilobytes that the journal keeps of a submit of 202 activities, each in three modes.
const PROJECT: u128 = 104;

/// The variable of the kilobytes that are free, which `./farm` sets.
const FREE: &str = "FARM_MEMORY";

/// The entries of one job that runs `quanta` nodes, and of a request for its result.
fn entries_of_job(quanta: u64, slice: u64) -> u128
    ensures { result ≡ entries_for (quanta / max slice 1) 1 1 }
{
    u128::from(quanta / slice.max(1)) * 2 + 4
}

fn tell_scarce<R: Eprint>(rt: &R, line: &TenantLine, quanta: u64, slice: u64) {
    let (needed, entries) = (entries_of_job(quanta, slice), line.entries);
    if quanta == 0 || needed <= u128::from(entries) {
        return;
    }
    let whose = if quanta == line.quanta {
        ""
    } else {
        "purse's "
    };
    if let Ok(name) = str::from_utf8(line.name.as_bytes()) {
        let _ = eprintln!(rt;
            "farm: tenant {name}: its {entries} entries do not last for its {whose}{quanta} quanta: one job and its result need {needed}, two for each {slice} nodes, three for a submit or fund and one for any other request"
        );
    }
}

pub(crate) fn tell_scarce_entries<R: Env + Eprint>(rt: &R, config: &Config) {
    if !explains(rt) {
        return;
    }
    for (tenant, line) in config.tenants().iter().enumerate() {
        let purse = config.purse_of(tenant as u32);
        tell_scarce(rt, line, config.granted(purse), config.slice());
    }
}

/// The kilobytes that are free to this process, if `./farm` has found them out.
fn free_memory<R: Env>(rt: &R) -> Option<u64> {
    let mut value = [0u8; 20];
    let length = rt.var(FREE, &mut value).ok()?;
    let digits = value.get(..length)?;
    str::from_utf8(digits).ok()?.parse::<u64>().ok()
}

/// Warns if the projects of all submits, as many as entries, can take more memory than is free.
pub(crate) fn tell_large_journal<R: Env + Eprint>(rt: &R, config: &Config) {
    if !explains(rt) {
        return;
    }
    let Some(free) = free_memory(rt) else {
        return;
    };
    let mut entries = 0u128;
    for line in config.tenants() {
        entries = entries.saturating_add(u128::from(line.entries));
    }
    let most = entries.saturating_mul(PROJECT);
    if most > u128::from(free) {
        let (most, free) = (most / 1000, free / 1000);
        let _ = eprintln!(rt;
            "farm: submits for all {entries} entries of the tenants can take {most} MB, and {free} MB are free"
        );
    }
}
