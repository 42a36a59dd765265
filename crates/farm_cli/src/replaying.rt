//! Scripts replayed under the text of a configuration, over any reader and writer.
ghost use Rattle.std.specs.Prelude.{◌≡◌, [], is_some, OnOk, OnErr};
ghost use Rattle.std.specs.Io.Buffered.{writer_buffer, writer_contents, writer_inner};
ghost use Rattle.std.specs.Process.{exit_status};
ghost use Rattle.farm_cli.specs.Replayed.{IsReplayOf, IsReplayed, stop_status};

use farm_config::{ConfigFault, place_of, read_config};
use farm_replay::{Notes, ReplayFault, ReplayWatches, replay};
use std::alloc::Global;
use std::env::Env;
use std::io::{BufWriter, Eprint, Read, Write};
use std::process::ExitCode;
use watched_io::{Watch, explains};

/// A `ReplayStop` is why a replay ended before its script.
#[derive(Clone, Copy, Debug, PartialEq, Eq)]
pub enum ReplayStop {
    Config(ConfigFault),
    Fault(ReplayFault),
    /// The gathered replies could not be written at the end.
    Unsent,
}

/// A `ReplayLog` is what a replay counts and notes: the failures of the script's reader `S` and
/// of the buffered replies, those of the sends to the writer `W`, and which lines stand out.
#[derive(Drop)]
pub struct ReplayLog<S, W: Write + Drop> {
    pub watches: ReplayWatches<S, BufWriter<W>>,
    pub sends: Watch<BufWriter<W>>,
    pub notes: Notes,
}

/// Replays `script` on a farm of the configuration that `text` spells. The gathered replies are
/// written out at the end and after a fault; `Unsent` comes only if that fails.
pub fn replay_text<S: Read + Drop, W: Write + Drop>(
    alloc: Global,
    text: &[u8],
    script: S,
    output: &mut BufWriter<W>,
    log: &mut ReplayLog<S, W>,
) -> Result<(), ReplayStop>
    requires { writer_buffer output.old ≡ [] }
    ensures { IsReplayOf result text.now log.old.watches log.new.watches (is_some log.new.notes.refused) log.old.sends log.new.sends
        (S.remaining script)
        (W.contents (writer_inner output.old))
        (W.contents (writer_inner output.new)) }
{
    let config = match read_config(alloc, text) {
        Ok(config) => config,
        Err(fault) => return Err(ReplayStop::Config(fault)),
    };
    let watches = &mut log.watches;
    let notes = &mut log.notes;
    let ended = replay(alloc, &config, script, output, watches, notes);
    match log.sends.send_all(output) {
        Ok(()) => match ended {
            Ok(()) => Ok(()),
            Err(fault) => Err(ReplayStop::Fault(fault)),
        },
        Err(_) => Err(ReplayStop::Unsent),
    }
}

pub(crate) fn tell_config_fault<R: AllocGlobal + Env + Eprint>(
    rt: &R,
    bytes: &[u8],
    fault: ConfigFault,
) {
    let _ = eprintln!(rt; "farm: config {fault}");
    if explains(rt)
        && let Some(place) = place_of(rt.alloc(), bytes, fault)
    {
        let wanted = place.wanted(fault);
        let _ = eprintln!(rt; "farm: why: {place}: {wanted}");
    }
}

fn tell_stop<R: AllocGlobal + Env + Eprint>(rt: &R, text: &[u8], stop: ReplayStop) {
    match stop {
        ReplayStop::Config(fault) => tell_config_fault(rt, text, fault),
        ReplayStop::Fault(fault) => {
            let _ = eprintln!(rt; "farm: replay {fault}");
        }
        ReplayStop::Unsent => {
            let _ = eprintln!(rt; "farm: replay Write");
        }
    }
}

fn end_replay<R: AllocGlobal + Env + Eprint>(
    rt: &R,
    text: &[u8],
    ended: Result<(), ReplayStop>,
    notes: Notes,
    is_strict: bool,
) -> ExitCode
    ensures { exit_status result ≡ stop_status ended is_strict (is_some notes.refused) }
{
    let status = match (ended, notes.refused) {
        (Err(stop), _) => {
            tell_stop(rt, text, stop);
            ExitCode::FAILURE
        }
        (Ok(()), Some(line)) if is_strict => {
            let _ = eprintln!(rt; "farm: refused at line {line}");
            ExitCode::FAILURE
        }
        (Ok(()), _) => ExitCode::SUCCESS,
    };
    if explains(rt)
        && let Some(line) = notes.submit_ends_in_request
    {
        let _ = eprintln!(rt;
            "farm: line {line}: the text of this submit ends with a line that begins with '@'; is its count of lines right?"
        );
    }
    status
}

/// Is `replay_text` with a status: 1 after a fault, otherwise by the rule of `specs/Strict`.
pub fn replay_to<R: AllocGlobal + Env + Eprint, S: Read + Drop, W: Write + Drop>(
    rt: &R,
    text: &[u8],
    script: S,
    is_strict: bool,
    output: &mut BufWriter<W>,
    log: &mut ReplayLog<S, W>,
) -> ExitCode
    requires { writer_buffer output.old ≡ [] }
    ensures { IsReplayed (exit_status result) is_strict (is_some log.new.notes.refused) text.now log.old.watches log.new.watches
        log.old.sends
        log.new.sends
        (S.remaining script)
        (W.contents (writer_inner output.old))
        (W.contents (writer_inner output.new)) }
{
    let ended = replay_text(rt.alloc(), text, script, output, log);
    end_replay(rt, text, ended, log.notes, is_strict)
}
