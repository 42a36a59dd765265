ghost use Rattle.std.specs.Prelude.{◌≡◌, ℕ, Some, IfSome};
ghost use Rattle.farm_config.specs.declared.fault.ConfigFault.TheVariants.{Name as misnamed};
ghost use Rattle.farm_config.specs.Place.{part_to_blame, to_blame};

use crate::draft::{LineDraft, draft_of};
use crate::fault::{ConfigFault, Key};
use crate::judge::first_out_of_line;
use crate::read::value_of;
use farm_core::{
    MOST_ENTRIES, MOST_JOBS, MOST_NAME, MOST_QUANTA, MOST_SLICE, MOST_TENANTS, MOST_WORKERS, Name,
};
use serde_json::Value;
use std::alloc::Global;
use std::fmt;

/// A `ConfigPart` is a part of a configuration, or of a tenant in it.
#[derive(Clone, Copy, Debug, PartialEq, Eq)]
pub enum ConfigPart {
    /// The object itself.
    Whole,
    Tenants,
    Name,
    Purse,
    Number(Key),
}

/// A `ConfigPlace` is the place of a fault, for a person who mends it.
#[derive(Clone, Copy, Debug, PartialEq, Eq)]
pub enum ConfigPlace {
    /// A line and a column of the text, counted from 1.
    Text(usize, usize),
    Whole(ConfigPart),
    /// A part of the tenant at this place of the list, counted from 0.
    Tenant(usize, ConfigPart),
}

impl fmt::Display for ConfigPart {
    fn fmt<W: fmt::Write>(&self, f: &mut fmt::Formatter<W>) -> fmt::Result {
        match self {
            ConfigPart::Whole => write!(f, "the whole"),
            ConfigPart::Tenants => write!(f, "tenants"),
            ConfigPart::Name => write!(f, "name"),
            ConfigPart::Purse => write!(f, "purse"),
            ConfigPart::Number(key) => write!(f, "{key}"),
        }
    }
}

impl fmt::Display for ConfigPlace {
    /// Writes a path, as `tenants[1].name`.
    fn fmt<W: fmt::Write>(&self, f: &mut fmt::Formatter<W>) -> fmt::Result {
        match self {
            ConfigPlace::Text(line, column) => write!(f, "line {line} column {column}"),
            ConfigPlace::Whole(part) => write!(f, "{part}"),
            ConfigPlace::Tenant(index, ConfigPart::Whole) => write!(f, "tenants[{index}]"),
            ConfigPlace::Tenant(index, part) => write!(f, "tenants[{index}].{part}"),
        }
    }
}

const NAME_SIGNS: &str = "of a-z, 0-9, _ and - are allowed, a letter first";

/// A `Wanted` is what a place of a configuration may have. It writes itself as a sentence.
#[derive(Clone, Copy, Debug, PartialEq, Eq)]
pub enum Wanted {
    /// A value of this JSON type.
    Json(&'static str),
    Number,
    /// A number from the first to the second, or as many tenants.
    Range(u64, u64),
    /// At most so many quanta of a purse's tenants together.
    PurseQuanta(u64),
    PurseName,
    /// A name that no other tenant has.
    TenantName,
    /// A JSON text.
    Text,
}

impl fmt::Display for Wanted {
    fn fmt<W: fmt::Write>(&self, f: &mut fmt::Formatter<W>) -> fmt::Result {
        match self {
            Wanted::Json(kind) => write!(f, "{kind} is wanted"),
            Wanted::Number => write!(f, "a natural number below 2^64 is wanted, in digits alone"),
            Wanted::Range(least, most) => write!(f, "{least} to {most} are allowed"),
            Wanted::PurseQuanta(most) => write!(
                f,
                "0 to {most} quanta are allowed for its tenants together"
            ),
            Wanted::PurseName => write!(f, "1 to {MOST_NAME} {NAME_SIGNS}"),
            Wanted::TenantName => write!(f, "1 to {MOST_NAME} {NAME_SIGNS}, and no name twice"),
            Wanted::Text => write!(f, "this is no JSON text"),
        }
    }
}

fn kind_of(part: ConfigPart) -> Wanted {
    match part {
        ConfigPart::Whole => Wanted::Json("an object"),
        ConfigPart::Tenants => Wanted::Json("a list"),
        ConfigPart::Name | ConfigPart::Purse => Wanted::Json("a string"),
        ConfigPart::Number(_) => Wanted::Number,
    }
}

fn range_of(key: Key) -> Wanted {
    match key {
        Key::Quanta => Wanted::Range(0, MOST_QUANTA),
        Key::Jobs => Wanted::Range(1, MOST_JOBS),
        Key::Entries => Wanted::Range(1, MOST_ENTRIES),
        Key::Workers => Wanted::Range(1, MOST_WORKERS),
        Key::Slice => Wanted::Range(1, MOST_SLICE),
        Key::Purse => Wanted::PurseQuanta(MOST_QUANTA),
    }
}

impl ConfigPlace {
    /// What is wanted at the place of `fault`.
    pub fn wanted(self, fault: ConfigFault) -> Wanted {
        match (fault, self) {
            (ConfigFault::Shape, ConfigPlace::Whole(part) | ConfigPlace::Tenant(_, part)) =>
                kind_of(part),
            (ConfigFault::Tenants, _) => Wanted::Range(1, MOST_TENANTS as u64),
            (ConfigFault::Name(_), ConfigPlace::Tenant(_, ConfigPart::Purse)) => Wanted::PurseName,
            (ConfigFault::Name(_), _) => Wanted::TenantName,
            (ConfigFault::Range(key), _) => range_of(key),
            _ => Wanted::Text,
        }
    }
}

fn misfit_of(tenant: &Value) -> Option<ConfigPart> {
    if !tenant.is_object() {
        return Some(ConfigPart::Whole);
    }
    if tenant.get("name").and_then(Value::as_str).is_none() {
        return Some(ConfigPart::Name);
    }
    let keys = [
        ("quanta", Key::Quanta),
        ("jobs", Key::Jobs),
        ("entries", Key::Entries),
    ];
    for (key, number) in keys {
        if tenant.get(key).and_then(Value::as_u64).is_none() {
            return Some(ConfigPart::Number(number));
        }
    }
    match tenant.get("purse") {
        Some(purse) if purse.as_str().is_none() => Some(ConfigPart::Purse),
        _ => None,
    }
}

fn misfit(value: &Value) -> ConfigPlace {
    if !value.is_object() {
        return ConfigPlace::Whole(ConfigPart::Whole);
    }
    let Some(tenants) = value.get("tenants").and_then(Value::as_array) else {
        return ConfigPlace::Whole(ConfigPart::Tenants);
    };
    for (index, tenant) in tenants.iter().enumerate() {
        if let Some(part) = misfit_of(tenant) {
            return ConfigPlace::Tenant(index, part);
        }
    }
    match value.get("workers") {
        Some(workers) if workers.as_u64().is_none() => ConfigPlace::Whole(ConfigPart::Number(
            Key::Workers,
        )),
        _ => ConfigPlace::Whole(ConfigPart::Number(Key::Slice)),
    }
}

fn granted_to(purse: &[u8], lines: &[LineDraft<'_>]) -> u64 {
    let mut granted = 0u64;
    for line in lines {
        if let Some(other) = line.purse {
            if other == purse {
                granted = granted.saturating_add(line.quanta);
            }
        }
    }
    granted
}

fn overfull(lines: &[LineDraft<'_>]) -> Option<usize> {
    for (index, line) in lines.iter().enumerate() {
        if let Some(purse) = line.purse {
            if !Key::Purse.allows(granted_to(purse, lines)) {
                return Some(index);
            }
        }
    }
    None
}

fn first_over(lines: &[LineDraft<'_>], key: Key) -> Option<usize> {
    for (index, line) in lines.iter().enumerate() {
        if first_out_of_line(line) == Some(key) {
            return Some(index);
        }
    }
    None
}

/// For `Key::Purse`, the place of the purse's first tenant.
fn out_of_range(alloc: Global, value: &Value, key: Key) -> ConfigPlace {
    let part = match key {
        Key::Purse => ConfigPart::Purse,
        _ => ConfigPart::Number(key),
    };
    let Ok(draft) = draft_of(alloc, value) else {
        return ConfigPlace::Whole(part);
    };
    let tenant = match key {
        Key::Purse => overfull(&draft.tenants),
        _ => first_over(&draft.tenants, key),
    };
    match tenant {
        Some(index) => ConfigPlace::Tenant(index, part),
        None => ConfigPlace::Whole(part),
    }
}

fn part_to_blame(line: &LineDraft<'_>) -> ConfigPart
    ensures { result ≡ part_to_blame line.now }
{
    match line.purse {
        Some(purse) if Name::new(purse).is_none() => ConfigPart::Purse,
        _ => ConfigPart::Name,
    }
}

fn misnamed_place(alloc: Global, bytes: &[u8], index: usize) -> Option<ConfigPlace>
    ensures { IfSome result (λ place.
        (part : ConfigPart) × (to_blame bytes.now index ≡ Some part) × (place ≡ ConfigPlace.Tenant index part)) }
{
    let Ok(value) = value_of(alloc, bytes) else {
        return None;
    };
    let Ok(draft) = draft_of(alloc, &value) else {
        return None;
    };
    match draft.tenants.get(index) {
        Some(line) => Some(ConfigPlace::Tenant(index, part_to_blame(line))),
        None => None,
    }
}

/// Where the `fault` of `bytes` lies, or `None` if memory ran out.
pub fn place_of(alloc: Global, bytes: &[u8], fault: ConfigFault) -> Option<ConfigPlace>
    ensures { (index : ℕ) → fault ≡ misnamed index →
        IfSome result (λ place.
        (part : ConfigPart) × (to_blame bytes.now index ≡ Some part) × (place ≡ ConfigPlace.Tenant index part)) }
{
    if let ConfigFault::Name(index) = fault {
        return misnamed_place(alloc, bytes, index);
    }
    match (Value::from_slice(alloc, bytes), fault) {
        (Ok(value), ConfigFault::Shape) => Some(misfit(&value)),
        (Ok(_), ConfigFault::Tenants) => Some(ConfigPlace::Whole(ConfigPart::Tenants)),
        (Ok(value), ConfigFault::Range(key)) => Some(out_of_range(alloc, &value, key)),
        (Err(error), ConfigFault::Json) => Some(ConfigPlace::Text(error.line(), error.column())),
        _ => None,
    }
}
