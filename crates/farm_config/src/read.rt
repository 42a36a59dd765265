ghost use Rattle.std.specs.Prelude.{◌≡◌, ◌⊎◌, IfOk, IfErr, IsUtf8};
ghost use Rattle.serde_json.specs.View.{view};
ghost use Rattle.serde_json.specs.Read.{read};
ghost use Rattle.farm_config.specs.Config.{HasFault, Means};

use crate::draft::draft_of;
use crate::fault::ConfigFault;
use crate::judge::config_of;
use farm_core::Config;
use serde_json::{Category, Value};
use std::alloc::Global;

pub(crate) fn value_of(alloc: Global, bytes: &[u8]) -> Result<Value, ConfigFault>
    ensures ok { IfOk result (λ value. IsUtf8 bytes.now × (read bytes.now ≡ Some (view value))) }
    ensures err { IfErr result (λ fault. (fault ≡ ConfigFault.NoMemory)
        ⊎ ((fault ≡ ConfigFault.Json) × (IsUtf8 bytes.now → read bytes.now ≡ None))) }
{
    match Value::from_slice(alloc, bytes) {
        Ok(value) => Ok(value),
        Err(error) => {
            if error.classify() == Category::Memory {
                Err(ConfigFault::NoMemory)
            } else {
                Err(ConfigFault::Json)
            }
        }
    }
}

/// Returns the configuration that `bytes` spell in JSON, or the first fault in the order of
/// `ConfigFault`. Only `NoMemory` may take the place of another answer.
///
/// `tenants` is a list of objects with `name`, `quanta`, `jobs`, `entries` and perhaps `purse`. A
/// missing `workers` is 2, a missing `slice` 1,000. Other keys are ignored. If an object has a key
/// twice, the last value counts.
pub fn read_config(alloc: Global, bytes: &[u8]) -> Result<Config, ConfigFault>
    ensures ok { IfOk result (λ config. Means bytes.now (Ok config)) }
    ensures err { IfErr result (λ fault. HasFault bytes.now fault) }
{
    let value = value_of(alloc, bytes)?;
    let draft = draft_of(alloc, &value)?;
    config_of(alloc, &draft)
}
