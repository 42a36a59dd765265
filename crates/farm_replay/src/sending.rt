//! When replies go out: before a wait for more of the script, and before nodes are run.
ghost use Rattle.std.specs.Prelude.{◌≡◌, IfErr};
ghost use Rattle.std.specs.Io.KnownBytes.{Keeps};
ghost use Rattle.watched_io.specs.Failure.{IsNoted};

use crate::reader::Script;
use crate::script::ReplayFault;
use farm_session::{Ask, TurnAsk};
use std::io::{Read, Write};
use watched_io::Watch;

/// A failure is not noted: the replies stay gathered, and a later write or the replay's end reports
/// it.
pub(crate) fn send_before_wait<R: Read, W: Write>(script: &Script<R>, writer: &mut W)
    ensures { Keeps (W.contents writer.old) (W.contents writer.new) }
{
    if !script.is_at_hand() {
        let _ = writer.flush();
    }
}

pub(crate) fn send_before_nodes<W: Write>(
    asked: &Ask,
    writer: &mut W,
    watch: &mut Watch<W>,
) -> Result<(), ReplayFault>
    ensures kept { Keeps (W.contents writer.old) (W.contents writer.new) }
    ensures fault { IfErr result (λ fault. fault ≡ ReplayFault.Write) }
    ensures noted { IsNoted result watch.old watch.new }
{
    if !matches!(asked, Ask::Turn(TurnAsk::Whole { .. } | TurnAsk::Give(_))) {
        return Ok(());
    }
    match watch.flush(writer) {
        Ok(()) => Ok(()),
        Err(_) => Err(ReplayFault::Write),
    }
}
