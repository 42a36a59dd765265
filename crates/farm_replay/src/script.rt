//! Scripts of requests, run one after another on a farm of one thread.
ghost use Rattle.std.specs.Prelude.{◌≡◌, ℕ, [], true, false, is_some, IfSome, IfErr, OnOk, OnErr};
ghost use Rattle.farm_core.specs.World.{opened};
ghost use Rattle.watched_io.specs.Failure.{HasFailed, IsNoted};
ghost use Rattle.session_lines.specs.Known.{Writes};
ghost use Rattle.session_lines.specs.ReplyText.{reply_line};
ghost use Rattle.session_lines.specs.Script.{requests_of};
ghost use Rattle.farm_core.specs.Tills.{AreTillsOf};
ghost use Rattle.job_table.specs.Job.{fresh_search};
ghost use Rattle.farm_session.specs.TillDesk.{tills_of};
ghost use Rattle.farm_session.specs.Ready.{MakesFresh};
ghost use Rattle.farm_replay.specs.ScriptFarm.{IsScriptFarm};
ghost use Rattle.farm_replay.specs.Closing.{parts_at_end, HasLed};
ghost use Rattle.farm_replay.specs.Headline.{IsHeadline};
ghost use Rattle.farm_replay.specs.Leases.{AreLeasesOf};
ghost use Rattle.farm_replay.specs.Noted.{AreNoted};
ghost use Rattle.farm_replay.specs.Output.{opening, parts_after, IsWritten, IsCutOff};
ghost use Rattle.farm_replay.specs.Reader.{script_rest};
ghost use Rattle.farm_replay.specs.Replay.{end_of, GoesOn};

use crate::laws::{each_line_is_true, each_output_is_alone, outputs_are_isolated};
use crate::notes::Notes;
use crate::reader::Script;
use crate::script_farm::ScriptFarm;
use crate::sending::{send_before_nodes, send_before_wait};
use crate::stage::Stage;
use crate::watches::ReplayWatches;
use farm_core::laws::farms_are_replayed;
use farm_core::{Config, Farm, Name};
use farm_session::{Ready, Routed, Workshop, boxed_search, open_tills, route, till_desks};
use session_lines::laws::requests_come_in_turn;
use session_lines::{LineFault, Request, Said, read_request, write_reply};
use std::alloc::Global;
use std::io::{BufRead, Read, Write};
use strategy::{Kind, Strategy};
use watched_io::Watch;

const MOST_REQUESTS: u64 = 1_000_000;

/// A `ReplayFault` is why a replay ended before its script.
#[derive(Clone, Copy, Debug, PartialEq, Eq, thiserror::Error)]
pub enum ReplayFault {
    /// The reader failed, or one request passed 100,000,000 bytes.
    #[error("Read")]
    Read,
    /// A write failed, or took nothing.
    #[error("Write")]
    Write,
    /// The script has more than 1,000,000 requests.
    #[error("Requests")]
    Requests,
    /// There was no memory to begin.
    #[error("NoMemory")]
    NoMemory,
}

fn tell<W: Write>(
    writer: &mut W,
    watch: &mut Watch<W>,
    who: Option<Name>,
    said: Said,
) -> Result<(), ReplayFault>
    ensures writes { Writes result (W.contents writer.old) (W.contents writer.new) (reply_line who said) }
    ensures fault { IfErr result (λ fault. fault ≡ ReplayFault.Write) }
    ensures noted { IsNoted result watch.old watch.new }
{
    match write_reply(writer, watch, who, &said) {
        Ok(()) => Ok(()),
        Err(_) => Err(ReplayFault::Write),
    }
}

/// The result of a replay that has reached `MOST_REQUESTS`: `Ok` only if the input ends here.
fn ended(read: Result<Request, LineFault>) -> Result<(), ReplayFault>
    ensures { result ≡ end_of read }
{
    match read {
        Err(LineFault::Eof) => Ok(()),
        Err(LineFault::Read) => Err(ReplayFault::Read),
        _ => Err(ReplayFault::Requests),
    }
}

fn end<R: BufRead>(alloc: Global, script: &mut R, watch: &mut Watch<R>) -> Result<(), ReplayFault>
    ensures over { OnOk result (IfSome (R.remaining script.old) (λ bytes. requests_of bytes ≡ [])) }
    ensures fault { IfErr result (λ fault. IfSome (R.remaining script.old) (λ bytes.
        GoesOn fault (HasFailed watch.old watch.new) bytes)) }
    ensures noted { (writes : ℕ) → AreNoted result
        (record { reads = watch.old; writes = writes })
        (record { reads = watch.new; writes = writes }) }
{
    requests_come_in_turn();
    ended(read_request(alloc, script, watch))
}

fn play<J: Strategy, R: Read, W: Write, M: Fn(Ready) -> Option<J>>(
    shop: &Workshop<'_, M>,
    stage: &mut Stage<'_, J>,
    script: &mut Script<R>,
    writer: &mut W,
    watches: &mut ReplayWatches<R, W>,
    notes: &mut Notes,
) -> Result<(), ReplayFault>
    requires farm { stage.old.script_farm.farm ≡ opened shop.now.config.now }
    requires tills { AreTillsOf shop.now.config.now (tills_of stage.old.till_desks.items) }
    requires make { M.IsAlwaysCallable shop.now.make.now }
    requires fresh { MakesFresh J.meaning J.lease (M.post shop.now.make.now) }
    requires script_farm { IsScriptFarm J.meaning stage.old.script_farm.farm stage.old.script_farm.held.items }
    requires notes { is_some notes.old.refused ≡ false }
    ensures written { OnOk result (IfSome (script_rest R.remaining script.old) (λ bytes.
        HasLed (parts_after shop.now.config.now (opening shop.now.config.now)) shop.now.config.now bytes
        (is_some notes.new.refused) (W.contents writer.old) (W.contents writer.new) stage.new.script_farm.farm)) }
    ensures cut_off { IfErr result (λ fault. IfSome (script_rest R.remaining script.old) (λ bytes.
        IsCutOff shop.now.config.now fault watches.old watches.new bytes (W.contents writer.old) (W.contents writer.new))) }
    ensures noted { AreNoted result watches.old watches.new }
    ensures script_farm { IsScriptFarm J.meaning stage.new.script_farm.farm stage.new.script_farm.held.items }
    ensures leased { AreLeasesOf shop.now.config.now (M.post shop.now.make.now)
        (script_rest R.remaining script.old) stage.old.till_desks.items stage.new.till_desks.items }
{
    requests_come_in_turn();
    farms_are_replayed();
    for _answered in 0..MOST_REQUESTS {
        send_before_wait(script, writer);
        script.begin();
        match route(
            shop.config,
            read_request(shop.alloc, script, &mut watches.reads),
        ) {
            Routed::End => return Ok(()),
            Routed::ReadFailed => return Err(ReplayFault::Read),
            Routed::Answered(who, said) => {
                notes.add(script.line(), script.ends_in_request(), &said);
                if let Err(fault) = tell(writer, &mut watches.writes, who, said) {
                    return Err(fault);
                }
            }
            Routed::Asked(tenant, who, asked) => {
                if let Err(fault) = send_before_nodes(&asked, writer, &mut watches.writes) {
                    return Err(fault);
                }
                let said = stage.answer(shop, tenant, asked);
                notes.add(script.line(), script.ends_in_request(), &said);
                if let Err(fault) = tell(writer, &mut watches.writes, Some(who), said) {
                    return Err(fault);
                }
            }
        }
    }
    end(shop.alloc, script, &mut watches.reads)
}

/// Plays the script, and gives back unrun the turns that it holds at its end.
fn play_out<J: Strategy, R: Read, W: Write, M: Fn(Ready) -> Option<J>>(
    shop: &Workshop<'_, M>,
    stage: Stage<'_, J>,
    script: &mut Script<R>,
    writer: &mut W,
    watches: &mut ReplayWatches<R, W>,
    notes: &mut Notes,
) -> (Result<(), ReplayFault>, Farm<J>)
    requires farm { stage.script_farm.farm ≡ opened shop.now.config.now }
    requires tills { AreTillsOf shop.now.config.now (tills_of stage.till_desks.items) }
    requires make { M.IsAlwaysCallable shop.now.make.now }
    requires fresh { MakesFresh J.meaning J.lease (M.post shop.now.make.now) }
    requires script_farm { IsScriptFarm J.meaning stage.script_farm.farm stage.script_farm.held.items }
    requires notes { is_some notes.old.refused ≡ false }
    ensures written { OnOk result.0 (IfSome (script_rest R.remaining script.old) (λ bytes.
        HasLed (parts_at_end shop.now.config.now) shop.now.config.now bytes
        (is_some notes.new.refused) (W.contents writer.old) (W.contents writer.new) result.1)) }
    ensures cut_off { IfErr result.0 (λ fault. IfSome (script_rest R.remaining script.old) (λ bytes.
        IsCutOff shop.now.config.now fault watches.old watches.new bytes (W.contents writer.old) (W.contents writer.new))) }
    ensures noted { AreNoted result.0 watches.old watches.new }
{
    let mut stage = stage;
    let ended = play(shop, &mut stage, script, writer, watches, notes);
    let Stage {
        script_farm,
        till_desks,
    } = stage;
    drop(till_desks);
    (ended, script_farm.close())
}

/// Runs the requests of `reader` on a new farm of `config`, and writes one reply line for each.
/// After a fault all lines of earlier requests are whole; after `Write` a prefix of the next line
/// may follow. It sets `notes` anew. Turns that the script holds at its end are given back unrun.
pub fn replay<R: Read + Drop, W: Write>(
    alloc: Global,
    config: &Config,
    reader: R,
    writer: &mut W,
    watches: &mut ReplayWatches<R, W>,
    notes: &mut Notes,
) -> Result<(), ReplayFault>
    ensures written { OnOk result (IfSome (R.remaining reader) (λ script.
        IsWritten config.now script (is_some notes.new.refused) (W.contents writer.old) (W.contents writer.new))) }
    ensures headline { OnOk result (IfSome (R.remaining reader) (λ script.
        IsHeadline config.now script (is_some notes.new.refused) (W.contents writer.old) (W.contents writer.new))) }
    ensures cut_off { IfErr result (λ fault. IfSome (R.remaining reader) (λ script.
        IsCutOff config.now fault watches.old watches.new script (W.contents writer.old) (W.contents writer.new))) }
    ensures noted { AreNoted result watches.old watches.new }
{
    outputs_are_isolated();
    each_output_is_alone();
    each_line_is_true();
    *notes = Notes::default();
    let Ok(mut script) = Script::new(alloc, reader) else {
        return Err(ReplayFault::NoMemory);
    };
    let Ok((tills, mut desks)) = open_tills(alloc, config) else {
        return Err(ReplayFault::NoMemory);
    };
    let Ok(till_desks) = till_desks(alloc, &tills, &mut desks) else {
        return Err(ReplayFault::NoMemory);
    };
    let Ok(script_farm) = ScriptFarm::<Box<dyn Strategy>>::new(alloc, config) else {
        return Err(ReplayFault::NoMemory);
    };
    let make = |ready: Ready| -> Option<Box<dyn Strategy>>
        ensures { IfSome result (λ search.
            ((Strategy-box search).meaning search.value ≡ fresh_search ready.lease.tenant ready.plan)
            × ((Strategy-box search).lease search.value ≡ ready.lease)) }
    { boxed_search!(ready, alloc) };
    let shop = Workshop {
        alloc,
        config,
        make: &make,
    };
    let (ended, farm) = play_out(
        &shop,
        Stage {
            script_farm,
            till_desks,
        },
        &mut script,
        writer,
        watches,
        notes,
    );
    drop(farm);
    ended
}
