//! Configurations of a farm, and their limits.
ghost use Rattle.std.specs.Prelude.{◌≡◌, ◌↔◌, IsTrue, Some, None, if◌then◌else◌, drop, length, ◌<◌, ◌≤◌, IfOk};
ghost use Rattle.std.specs.List.{list_all};
ghost use Rattle.farm_core.specs.Config.{ConfigData, are_terms, has_name, are_distinct, is_config, purse_names, member_lines, granted_by};
ghost use Rattle.farm_core.specs.Purses.{purse_of, purses};

use crate::Name;
use crate::purses::{Purses, are_purses, granted_to};
use mrcpsp::Sequence;
use std::alloc::{AllocError, Global};
use std::marker::Model;

/// The most quanta of a purse.
pub const MOST_QUANTA: u64 = tenant_book::MOST_QUANTA;

/// The most tenants of a farm.
pub const MOST_TENANTS: usize = 64;

/// The most jobs that a tenant may keep.
pub const MOST_JOBS: u64 = 1_000;

/// The most entries of the journal that a tenant may use.
pub const MOST_ENTRIES: u64 = 1_000_000;

/// The most workers of a farm.
pub const MOST_WORKERS: u64 = 16;

/// The most nodes of a turn.
pub const MOST_SLICE: u64 = 1_000_000;

/// A `TenantLine` is what a configuration says of a tenant.
#[derive(Debug, Drop)]
pub struct TenantLine {
    pub name: Name,
    /// The quanta that it is granted, at most 10^12.
    pub quanta: u64,
    /// The most jobs that it may keep, 1 to 1,000.
    pub jobs: u64,
    /// The most entries of the journal that it may use, 1 to 1,000,000.
    pub entries: u64,
    /// The purse that it shares with all tenants that name it. `None`: a purse of its own.
    pub purse: Option<Name>,
}

/// A `Config` is what a farm is made for: 1 to 64 tenants of different names within their limits,
/// purses of at most 10^12 quanta, 1 to 16 workers, and turns of 1 to 1,000,000 nodes.
#[derive(Debug, Drop)]
pub struct Config {
    tenants: Sequence<TenantLine>,
    workers: u64,
    slice: u64,
    purses: Purses,
}

impl Model for Config {
    ghost use Rattle.std.specs.Prelude.{IsTrue};
    ghost use Rattle.farm_core.specs.Config.{ConfigData, is_config, purse_names};
    ghost use Rattle.farm_core.specs.Purses.{AreNumbered};

    ghost Value = { ConfigData };

    ghost view = { λ c. record { tenants = c.tenants; workers = c.workers; slice = c.slice } };

    ghost invariant = { λ c.
        IsTrue (is_config (record { tenants = c.tenants; workers = c.workers; slice = c.slice }))
        × AreNumbered (purse_names c.tenants) c.purses.numbers c.purses.count };
}

impl TenantLine {
    /// Takes no memory.
    pub fn copy(&self) -> TenantLine
        ensures { result ≡ self.now }
    {
        let purse = match &self.purse {
            Some(name) => Some(name.copy()),
            None => None,
        };
        TenantLine {
            name: self.name.copy(),
            quanta: self.quanta,
            jobs: self.jobs,
            entries: self.entries,
            purse,
        }
    }
}

fn clone_lines(alloc: Global, lines: &[TenantLine]) -> Result<Vec<TenantLine>, AllocError>
    ensures { IfOk result (λ copy. copy.items ≡ lines.now) }
{
    let mut copies = Vec::new(alloc);
    for line in lines {
        copies.push(line.copy())?;
    }
    Ok(copies)
}

/// Whether a tenant's line keeps its limits.
#[tactic(auto, unfolding(crate::specs::Config::are_terms))]
fn are_terms(line: &TenantLine) -> bool
    ensures { result ≡ are_terms line.now }
{
    line.quanta <= MOST_QUANTA
        && (1..=MOST_JOBS).contains(&line.jobs)
        && (1..=MOST_ENTRIES).contains(&line.entries)
}

/// Whether each of these keeps its limits.
fn are_all_terms(lines: &[TenantLine]) -> bool
    ensures { result ≡ list_all are_terms lines.now }
{
    for line in lines {
        if !are_terms(line) {
            return false;
        }
    }
    true
}

/// Whether one of these lines has the name.
fn has_name(name: &Name, lines: &[TenantLine]) -> bool
    ensures { result ≡ has_name name.now lines.now }
{
    for line in lines {
        if name.is_same(&line.name) {
            return true;
        }
    }
    false
}

/// Whether no two of these lines have the same name.
fn are_distinct(lines: &[TenantLine]) -> bool
    ensures { result ≡ are_distinct lines.now }
{
    for (i, line) in lines.iter().enumerate() {
        if has_name(&line.name, &lines[i + 1..]) {
            return false;
        }
    }
    true
}

impl Config {
    /// `None`, and the list is dropped, if a limit is broken or two tenants have the same name. Takes
    /// no memory.
    #[tactic(auto, unfolding(crate::specs::Config::is_config))]
    pub fn new(tenants: Sequence<TenantLine>, workers: u64, slice: u64) -> Option<Config>
        ensures { let given : ConfigData = record { tenants = tenants; workers = workers; slice = slice } in
            result ≡ (if is_config given then Some given else None) }
    {
        let lines = tenants.as_slice();
        if !(1..=MOST_TENANTS).contains(&lines.len()) {
            return None;
        }
        let purses = Purses::of(lines);
        let holds = are_all_terms(lines)
            && are_distinct(lines)
            && are_purses(lines, &purses)
            && (1..=MOST_WORKERS).contains(&workers)
            && (1..=MOST_SLICE).contains(&slice);
        if holds {
            Some(Config {
                tenants,
                workers,
                slice,
                purses,
            })
        } else {
            None
        }
    }

    /// Fails for want of memory.
    pub fn clone_in(&self, alloc: Global) -> Result<Config, AllocError>
        ensures { IfOk result (λ copy. copy ≡ self.now) }
    {
        Ok(Config {
            tenants: Sequence::from(clone_lines(alloc, self.tenants())?),
            workers: self.workers,
            slice: self.slice,
            purses: self.purses,
        })
    }

    /// The tenants by their numbers.
    #[tactic(auto, unfolding(crate::specs::Config::is_config))]
    pub fn tenants(&self) -> &[TenantLine]
        ensures all { result.now ≡ self.now.tenants }
        ensures config { IsTrue (is_config self.now) }
        ensures terms { IsTrue (list_all are_terms result.now) }
        ensures some { 0 < length result.now }
        ensures few { length result.now ≤ MOST_TENANTS }
    {
        self.tenants.as_slice()
    }

    /// The number of purses: at least 1, and no more than tenants.
    #[tactic(auto, using(crate::proofs::PurseCountLemmas::some_purse, crate::proofs::PurseCountLemmas::most_purses))]
    pub fn purses(&self) -> u32
        ensures exact { result ≡ purses (purse_names self.now.tenants) }
        ensures some { 0 < result }
        ensures most { result ≤ length self.now.tenants }
        ensures few { result ≤ MOST_TENANTS }
    {
        // (the contract of `tenants` has the limit of their number)
        self.tenants();
        self.purses.count()
    }

    /// The number of the tenant's purse. Purses are numbered by their first members, from 0.
    pub fn purse_of(&self, tenant: u32) -> u32
        requires { tenant < length self.now.tenants }
        ensures exact { result ≡ purse_of (purse_names self.now.tenants) tenant }
        ensures known { result < purses (purse_names self.now.tenants) }
    {
        prove!((tenant as usize) < self.tenants().len());
        self.purses.number(tenant as usize)
    }

    /// The quanta of a purse: the sum of what its members are granted.
    pub fn granted(&self, purse: u32) -> u64
        ensures { result ≡ granted_by (member_lines self.now.tenants purse) }
    {
        granted_to(self.tenants(), &self.purses, purse)
    }

    /// The number of workers, 1 to 16.
    pub fn workers(&self) -> u64
        ensures { result ≡ self.now.workers }
    {
        self.workers
    }

    /// The most nodes of a worker's turn, 1 to 1,000,000.
    pub fn slice(&self) -> u64
        ensures { result ≡ self.now.slice }
    {
        self.slice
    }
}
