//! Keys of a configuration that are not read.
use explain::nearest;
use serde_json::Value;
use std::alloc::Global;

const KEYS: [&str; 3] = ["tenants", "workers", "slice"];

const TENANT_KEYS: [&str; 5] = ["name", "quanta", "jobs", "entries", "purse"];

fn first_unread<'a>(value: &'a Value, keys: &[&str]) -> Option<&'a str> {
    let object = value.as_object()?;
    for key in object.keys() {
        let key = key.as_str();
        if !keys.iter().any(|known| *known == key) {
            return Some(key);
        }
    }
    None
}

fn why_key(alloc: Global, place: &str, key: &str, keys: &[&str]) -> Option<String> {
    match nearest(alloc, key, keys) {
        Some(near) => format!(in alloc; "{place}{key} is not read; {near} is near").ok(),
        None => format!(in alloc; "{place}{key} is not read").ok(),
    }
}

fn why_tenant(alloc: Global, index: usize, key: &str) -> Option<String> {
    let place = format!(in alloc; "tenants[{index}].").ok()?;
    why_key(alloc, place.as_str(), key, &TENANT_KEYS)
}

/// The first key of a configuration that is not read, with the key that is near: of the object, or
/// else of its tenants. `None` if there is none, or no memory.
pub(crate) fn why_unread(alloc: Global, bytes: &[u8]) -> Option<String> {
    let value = Value::from_slice(alloc, bytes).ok()?;
    if let Some(key) = first_unread(&value, &KEYS) {
        return why_key(alloc, "", key, &KEYS);
    }
    let tenants = value.get("tenants").and_then(Value::as_array)?;
    for (index, tenant) in tenants.iter().enumerate() {
        if let Some(key) = first_unread(tenant, &TENANT_KEYS) {
            return why_tenant(alloc, index, key);
        }
    }
    None
}
