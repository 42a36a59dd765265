//! The command: what it answers to the bytes of a file.
ghost use Rattle.std.specs.Prelude.{IfOk, IfErr, string_bytes};
ghost use Rattle.config_cli.specs.Configured.{IsShown, IsRefused};

use crate::meaning::config_text;
use crate::unread::why_unread;
use farm_config::{ConfigFault, place_of, read_config};
use file_commands::{CommandAnswer, FileCommand, MOST_TEXT, Texts};
use std::alloc::Global;
use std::fmt;

/// A `ConfigRefusal` is why a file has no configuration. Its text is as in `config Range(jobs)`.
#[derive(Clone, Copy, Debug, PartialEq, Eq)]
pub enum ConfigRefusal {
    /// The file has more bytes than a configuration may have.
    TooLong,
    Fault(ConfigFault),
    /// There was no memory for the text.
    NoMemory,
}

impl fmt::Display for ConfigRefusal {
    fn fmt<W: fmt::Write>(&self, f: &mut fmt::Formatter<W>) -> fmt::Result {
        match self {
            ConfigRefusal::TooLong => write!(f, "config TooLong"),
            ConfigRefusal::Fault(fault) => write!(f, "config {fault}"),
            ConfigRefusal::NoMemory => write!(f, "config NoMemory"),
        }
    }
}

fn why_refused(alloc: Global, bytes: &[u8], refusal: ConfigRefusal) -> Option<String> {
    let ConfigRefusal::Fault(fault) = refusal else {
        return None;
    };
    let place = place_of(alloc, bytes, fault)?;
    let wanted = place.wanted(fault);
    format!(in alloc; "{place}: {wanted}").ok()
}

fn configured(alloc: Global, bytes: &[u8]) -> Result<String, ConfigRefusal>
    ensures shown { IfOk result (λ text. IsShown bytes.now (string_bytes text)) }
    ensures refused { IfErr result (λ refusal. IsRefused bytes.now refusal) }
{
    if bytes.len() as u64 >= MOST_TEXT {
        return Err(ConfigRefusal::TooLong);
    }
    let config = match read_config(alloc, bytes) {
        Ok(config) => config,
        Err(fault) => return Err(ConfigRefusal::Fault(fault)),
    };
    match config_text(alloc, &config) {
        Ok(text) => Ok(text),
        Err(_) => Err(ConfigRefusal::NoMemory),
    }
}

/// A `Configure` is the command `config`: what the configuration of a file means. A key that is not
/// read is explained.
#[derive(Clone, Copy)]
pub struct Configure;

impl FileCommand for Configure {
    type Fault = ConfigRefusal;

    ghost gives = { λ _ texts shown. IsShown texts.file shown };

    ghost refuses = { λ _ texts refusal. IsRefused texts.file refusal };

    fn answer(&mut self, alloc: Global, texts: &Texts<'_>) -> CommandAnswer<ConfigRefusal> {
        match configured(alloc, texts.file) {
            Ok(text) => CommandAnswer::new(Ok(text), why_unread(alloc, texts.file)),
            Err(refusal) => CommandAnswer::new(
                Err(refusal),
                why_refused(alloc, texts.file, refusal),
            ),
        }
    }
}
