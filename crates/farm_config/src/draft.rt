ghost use Rattle.std.specs.Prelude.{◌≡◌, map, option_map};
ghost use Rattle.serde_json.specs.View.{view, items_of};
ghost use Rattle.serde_json.specs.Find.{get};
ghost use Rattle.farm_config.specs.Config.{natural_at, natural_or, text_if_any, tenant_line, tenant_lines, written, shaped, Gives};

use crate::fault::ConfigFault;
use serde_json::Value;
use std::alloc::Global;
use std::marker::Model;

/// A `LineDraft` is a tenant's line as written: names may be ill formed, numbers out of range.
#[derive(Debug, Drop)]
pub struct LineDraft<'a> {
    pub name: &'a [u8],
    pub quanta: u64,
    pub jobs: u64,
    pub entries: u64,
    pub purse: Option<&'a [u8]>,
}

impl<'a> Model for LineDraft<'a> {
    ghost use Rattle.std.specs.Prelude.{option_map};
    ghost use Rattle.farm_core.specs.declared.config.TenantLine.{TenantLine};

    ghost Value = { TenantLine };

    ghost view = { λ d. record {
      name = d.name.now;
      quanta = d.quanta;
      jobs = d.jobs;
      entries = d.entries;
      purse = option_map (λ purse. purse.now) d.purse;
    } };
}

/// A `Draft` is a configuration as it is written.
#[derive(Debug, Drop)]
pub struct Draft<'a> {
    pub tenants: Vec<LineDraft<'a>>,
    pub workers: u64,
    pub slice: u64,
}

impl<'a> Model for Draft<'a> {
    ghost use Rattle.farm_core.specs.Config.{ConfigData};

    ghost Value = { ConfigData };

    ghost view = { λ d. record { tenants = d.tenants.items; workers = d.workers; slice = d.slice } };
}

fn natural_at(value: &Value, key: &str) -> Option<u64>
    ensures { result ≡ natural_at key.now (view value.now) }
{
    value.get(key).and_then(Value::as_u64)
}

fn natural_or(value: &Value, key: &str, missing: u64) -> Option<u64>
    ensures { result ≡ natural_or missing (get key.now (view value.now)) }
{
    match value.get(key) {
        Some(number) => number.as_u64(),
        None => Some(missing),
    }
}

/// The outer `None` is a value that is no string.
fn text_if_any<'a>(value: &'a Value, key: &str) -> Option<Option<&'a [u8]>>
    ensures { option_map (λ text. option_map (λ bytes. bytes.now) text) result
        ≡ text_if_any (get key.now (view value.now)) }
{
    match value.get(key) {
        Some(text) => Some(Some(text.as_str()?.as_bytes())),
        None => Some(None),
    }
}

fn tenant_line(value: &Value) -> Option<LineDraft<'_>>
    ensures { result ≡ tenant_line (view value.now) }
{
    let name = value.get("name").and_then(Value::as_str)?;
    let quanta = natural_at(value, "quanta")?;
    let jobs = natural_at(value, "jobs")?;
    let entries = natural_at(value, "entries")?;
    let purse = text_if_any(value, "purse")?;
    Some(LineDraft {
        name: name.as_bytes(),
        quanta,
        jobs,
        entries,
        purse,
    })
}

fn tenant_lines(alloc: Global, values: &[Value]) -> Result<Vec<LineDraft<'_>>, ConfigFault>
    ensures { Gives (λ lines. lines.items) result (shaped (tenant_lines (items_of (map view values.now)))) }
{
    let mut lines = Vec::new(alloc);
    for value in values {
        let Some(line) = tenant_line(value) else {
            return Err(ConfigFault::Shape);
        };
        if lines.push(line).is_err() {
            return Err(ConfigFault::NoMemory);
        }
    }
    Ok(lines)
}

/// The draft of `value`, or `Shape` if a key is missing or a value is not of its kind.
pub fn draft_of(alloc: Global, value: &Value) -> Result<Draft<'_>, ConfigFault>
    ensures { Gives (λ draft. draft) result (shaped (written (view value.now))) }
{
    let Some(list) = value.get("tenants").and_then(Value::as_array) else {
        return Err(ConfigFault::Shape);
    };
    let tenants = tenant_lines(alloc, list)?;
    let Some(workers) = natural_or(value, "workers", 2) else {
        return Err(ConfigFault::Shape);
    };
    let Some(slice) = natural_or(value, "slice", 1_000) else {
        return Err(ConfigFault::Shape);
    };
    Ok(Draft {
        tenants,
        workers,
        slice,
    })
}
