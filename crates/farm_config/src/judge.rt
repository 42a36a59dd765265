ghost use Rattle.std.specs.Prelude.{◌≡◌, ◌&&◌, not, option_map, if◌then◌else◌, Some, None};
ghost use Rattle.farm_core.specs.Config.{has_name};
ghost use Rattle.farm_config.specs.declared.fault.ConfigFault.TheVariants.{Name as misnamed};
ghost use Rattle.farm_config.specs.Config.{first_misnamed, keyed_terms, all_terms, first_out, is_name_if_any, is_well_named, fault_before_purses, judged, unless, Gives};

use crate::draft::{Draft, LineDraft};
use crate::fault::{ConfigFault, Key};
use farm_core::{Config, MOST_TENANTS, Name, TenantLine};
use mrcpsp::Sequence;
use std::alloc::Global;

fn has_name(name: &Name, lines: &[TenantLine]) -> bool
    ensures { result ≡ has_name name.now lines.now }
{
    for line in lines {
        if name.is_same(&line.name) {
            return true;
        }
    }
    false
}

fn purse_of(draft: &LineDraft<'_>) -> Option<Option<Name>>
    ensures { result ≡ (if is_name_if_any draft.now.purse then Some draft.now.purse else None) }
{
    match draft.purse {
        Some(purse) => Some(Some(Name::new(purse)?)),
        None => Some(None),
    }
}

fn named_line(draft: &LineDraft<'_>, earlier: &[TenantLine]) -> Option<TenantLine>
    ensures { result
        ≡ (if is_well_named draft.now && not (has_name draft.now.name earlier.now) then Some draft.now else None) }
{
    let name = Name::new(draft.name)?;
    let purse = purse_of(draft)?;
    if has_name(&name, earlier) {
        return None;
    }
    Some(TenantLine {
        name,
        quanta: draft.quanta,
        jobs: draft.jobs,
        entries: draft.entries,
        purse,
    })
}

fn named(alloc: Global, drafts: &[LineDraft<'_>]) -> Result<Vec<TenantLine>, ConfigFault>
    ensures { Gives (λ lines. lines.items) result
        (unless (option_map misnamed (first_misnamed drafts.now)) drafts.now) }
{
    let mut lines = Vec::new(alloc);
    for (index, draft) in drafts.iter().enumerate() {
        let Some(line) = named_line(draft, &lines) else {
            return Err(ConfigFault::Name(index));
        };
        if lines.push(line).is_err() {
            return Err(ConfigFault::NoMemory);
        }
    }
    Ok(lines)
}

pub(crate) fn first_out_of_line(line: &LineDraft<'_>) -> Option<Key>
    ensures { result ≡ first_out (keyed_terms line.now) }
{
    if !Key::Quanta.allows(line.quanta) {
        Some(Key::Quanta)
    } else if !Key::Jobs.allows(line.jobs) {
        Some(Key::Jobs)
    } else if !Key::Entries.allows(line.entries) {
        Some(Key::Entries)
    } else {
        None
    }
}

fn first_out(draft: &Draft<'_>) -> Option<Key>
    ensures { result ≡ first_out (all_terms draft.now) }
{
    for line in &draft.tenants {
        if let Some(key) = first_out_of_line(line) {
            return Some(key);
        }
    }
    if !Key::Workers.allows(draft.workers) {
        Some(Key::Workers)
    } else if !Key::Slice.allows(draft.slice) {
        Some(Key::Slice)
    } else {
        None
    }
}

fn judged_lines(alloc: Global, draft: &Draft<'_>) -> Result<Vec<TenantLine>, ConfigFault>
    ensures { Gives (λ lines. lines.items) result (unless (fault_before_purses draft.now) draft.now.tenants) }
{
    if !(1..=MOST_TENANTS).contains(&draft.tenants.len()) {
        return Err(ConfigFault::Tenants);
    }
    let lines = named(alloc, &draft.tenants)?;
    match first_out(draft) {
        Some(key) => Err(ConfigFault::Range(key)),
        None => Ok(lines),
    }
}

/// The configuration that is written, or its first fault.
pub fn config_of(alloc: Global, draft: &Draft<'_>) -> Result<Config, ConfigFault>
    ensures { Gives (λ config. config) result (judged draft.now) }
{
    let lines = judged_lines(alloc, draft)?;
    match Config::new(Sequence::from(lines), draft.workers, draft.slice) {
        Some(config) => Ok(config),
        // All but the purses was judged.
        None => Err(ConfigFault::Range(Key::Purse)),
    }
}
