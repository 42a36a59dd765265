//! One connection: its requests are read, called and answered in their order.
ghost use Rattle.std.specs.Prelude.{◌≡◌, ◌<◌, ℕ, true, length};
ghost use Rattle.watched_io.specs.Failure.{IsNoted};
ghost use Rattle.farm_core.specs.Command.{event_of, IsFresh};
ghost use Rattle.farm_session.specs.TillDesk.{tills_of, HasLeasedOne, HasLeasedIn};
ghost use Rattle.farm_session.specs.Ready.{MakesFresh};
ghost use Rattle.farm_session.specs.Routed.{IsKnown};
ghost use Rattle.farm_service.specs.Asked.{IsCallAnswered};
ghost use Rattle.farm_service.specs.Batch.{IsEmptyBatch};
ghost use Rattle.farm_service.specs.Session.{stand, is_end, IsPartOfSession, IsSession};
ghost use Rattle.farm_service.specs.Told.{IsToldOf};
ghost use Rattle.farm_core.specs.Tills.{AreTillsOf};

use crate::batch::{Batch, MOST_TOGETHER, gather, tell_all};
use crate::shared::Shared;
use crate::signal::WorkSignal;
use crate::wire::Ahead;
use farm_core::{Command, Reply};
use farm_session::{Ready, Routed, TillDesk, Workshop, command_of};
use session_lines::{Said, WriteFault, write_reply};
use std::io::{BufRead, Write};
use std::sync::Wait;
use watched_io::Watch;

/// A `SessionIo` is what a connection keeps between its requests.
#[derive(Drop)]
struct SessionIo<I, O> {
    reads: Watch<I>,
    writes: Watch<O>,
    batch: Batch,
}

impl<I, O> SessionIo<I, O> {
    fn new(batch: Batch) -> SessionIo<I, O>
        ensures reads { result.reads ≡ 0 }
        ensures writes { result.writes ≡ 0 }
        ensures batch { result.batch ≡ batch }
    {
        SessionIo {
            reads: Watch::new(),
            writes: Watch::new(),
            batch,
        }
    }
}

/// A `Service` is what each connection needs: the pool, the signal to its workers, and the workshop.
#[derive(Drop)]
pub(crate) struct Service<'a, 'c, R, D, M> {
    pub(crate) rt: &'a R,
    pub(crate) shared: &'a D,
    pub(crate) signal: &'a WorkSignal,
    pub(crate) shop: Workshop<'c, M>,
}

/// Gives the signal after a submit or a fund, since a job may wait then.
fn call<D: Shared, R: Wait, M>(
    service: &Service<'_, '_, R, D, M>,
    token: &mut D::Token,
    tenant: u32,
    command: Command<D::Search>,
) -> Reply
    requires own { D.owns service.now.shared.now token.old }
    requires known { tenant < length (D.config service.now.shared.now).tenants }
    requires fresh { IsFresh D.means tenant command }
    ensures own { D.owns service.now.shared.now token.new }
    ensures told { D.tells service.now.shared.now
        token.old tenant (event_of command) result token.new }
{
    let is_work = matches!(command, Command::Submit { .. } | Command::Fund { .. });
    let reply = service.shared.call(token, tenant, command);
    if is_work {
        service.signal.notify(service.rt);
    }
    reply
}

fn answer<D: Shared, R: Wait, M: Fn(Ready) -> Option<D::Search>>(
    service: &Service<'_, '_, R, D, M>,
    token: &mut D::Token,
    till_desks: &mut [TillDesk<'_>],
    tenant: u32,
    asked: Command<()>,
) -> Said
    requires own { D.owns service.now.shared.now token.old }
    requires config { D.config service.now.shared.now ≡ service.now.shop.config.now }
    requires known { tenant < length service.now.shop.config.now.tenants }
    requires tills { AreTillsOf service.now.shop.config.now (tills_of till_desks.old) }
    requires make { M.IsAlwaysCallable service.now.shop.make.now }
    requires fresh { MakesFresh D.means D.leases (M.post service.now.shop.make.now) }
    ensures own { D.owns service.now.shared.now token.new }
    ensures said { IsCallAnswered (D.tells service.now.shared.now token.old tenant)
        token.old (event_of asked) result token.new }
    ensures leased { HasLeasedOne (M.post service.now.shop.make.now)
        service.now.shop.config.now tenant asked till_desks.old till_desks.new }
{
    match command_of(&service.shop, till_desks, tenant, asked) {
        Some(command) => Said::Reply(call(service, token, tenant, command)),
        None => Said::Reply(Reply::NoMemory),
    }
}

/// Writes nothing if the input is over or cannot be read.
fn reply<D: Shared, R: Wait, W: Write, M: Fn(Ready) -> Option<D::Search>>(
    service: &Service<'_, '_, R, D, M>,
    token: &mut D::Token,
    till_desks: &mut [TillDesk<'_>],
    writer: &mut W,
    watch: &mut Watch<W>,
    routed: Routed<Command<()>>,
) -> Result<(), WriteFault>
    requires own { D.owns service.now.shared.now token.old }
    requires config { D.config service.now.shared.now ≡ service.now.shop.config.now }
    requires tills { AreTillsOf service.now.shop.config.now (tills_of till_desks.old) }
    requires known { IsKnown service.now.shop.config.now routed }
    requires make { M.IsAlwaysCallable service.now.shop.make.now }
    requires fresh { MakesFresh D.means D.leases (M.post service.now.shop.make.now) }
    ensures own { D.owns service.now.shared.now token.new }
    ensures told { IsToldOf (D.tells service.now.shared.now) token.old routed result
        (W.contents writer.old)
        (W.contents writer.new)
        token.new }
    ensures leased { HasLeasedIn (M.post service.now.shop.make.now)
        service.now.shop.config.now routed till_desks.old till_desks.new }
    ensures noted { IsNoted result watch.old watch.new }
{
    match routed {
        Routed::End | Routed::ReadFailed => Ok(()),
        Routed::Answered(who, said) => write_reply(writer, watch, who, &said),
        Routed::Asked(tenant, who, asked) => {
            let said = answer(service, token, till_desks, tenant, asked);
            write_reply(writer, watch, Some(who), &said)
        }
    }
}

fn is_end(routed: &Routed<Command<()>>) -> bool
    ensures { result ≡ is_end routed.now }
{
    matches!(routed, Routed::End | Routed::ReadFailed)
}

/// Reads queries as long as a further one was read ahead, answers them in one turn of the farm's
/// lock, and then answers the request that ended the batch. Whether the session goes on: it ends
/// with the input, or if a read or a write fails.
fn serve_next<D: Shared, R: Wait, I: BufRead + Ahead, O: Write, M: Fn(Ready) -> Option<D::Search>>(
    service: &Service<'_, '_, R, D, M>,
    token: &mut D::Token,
    till_desks: &mut [TillDesk<'_>],
    reader: &mut I,
    writer: &mut O,
    io: &mut SessionIo<I, O>,
) -> bool
    requires own { D.owns service.now.shared.now token.old }
    requires config { D.config service.now.shared.now ≡ service.now.shop.config.now }
    requires tills { AreTillsOf service.now.shop.config.now (tills_of till_desks.old) }
    requires make { M.IsAlwaysCallable service.now.shop.make.now }
    requires fresh { MakesFresh D.means D.leases (M.post service.now.shop.make.now) }
    requires empty { IsEmptyBatch io.old.batch }
    ensures own { D.owns service.now.shared.now token.new }
    ensures tills { AreTillsOf service.now.shop.config.now (tills_of till_desks.new) }
    ensures empty { result ≡ true → IsEmptyBatch io.new.batch }
    ensures served { IsPartOfSession service.now.shop.config.now
        (D.tells service.now.shared.now)
        (M.post service.now.shop.make.now)
        (stand token.old till_desks.old
        (I.remaining reader.old) (O.contents writer.old)
        io.old.reads io.old.writes)
        result
        (stand token.new till_desks.new
        (I.remaining reader.new) (O.contents writer.new)
        io.new.reads io.new.writes) }
{
    let (alloc, config) = (service.shop.alloc, service.shop.config);
    let (reads, batch) = (&mut io.reads, &mut io.batch);
    let last = gather(alloc, config, reader, reads, batch, MOST_TOGETHER);
    let queries = batch.queries.as_slice();
    service.shared.ask_all(token, queries, &mut batch.replies);
    batch.turn();
    if !tell_all(batch, writer, &mut io.writes) {
        return false;
    }
    let Some(routed) = last else {
        return true;
    };
    let is_end = is_end(&routed);
    let told = reply(service, token, till_desks, writer, &mut io.writes, routed);
    !is_end && told.is_ok()
}

/// Answers requests until the input ends, or until a read or a write fails.
pub(crate) fn session<
    D: Shared,
    R: Wait,
    I: BufRead + Ahead,
    O: Write,
    M: Fn(Ready) -> Option<D::Search>,
>(
    service: &Service<'_, '_, R, D, M>,
    token: &mut D::Token,
    till_desks: &mut [TillDesk<'_>],
    reader: &mut I,
    writer: &mut O,
    batch: Batch,
)
    requires own { D.owns service.now.shared.now token.old }
    requires config { D.config service.now.shared.now ≡ service.now.shop.config.now }
    requires tills { AreTillsOf service.now.shop.config.now (tills_of till_desks.old) }
    requires make { M.IsAlwaysCallable service.now.shop.make.now }
    requires fresh { MakesFresh D.means D.leases (M.post service.now.shop.make.now) }
    requires empty { IsEmptyBatch batch }
    ensures own { D.owns service.now.shared.now token.new }
    ensures served { (reads : ℕ) × (writes : ℕ) × IsSession service.now.shop.config.now
        (D.tells service.now.shared.now)
        (M.post service.now.shop.make.now)
        (stand token.old till_desks.old (I.remaining reader.old) (O.contents writer.old) 0 0)
        (stand token.new till_desks.new
        (I.remaining reader.new) (O.contents writer.new) reads writes) }
{
    let mut io = SessionIo::new(batch);
    for _ in service.rt.forever() {
        if !serve_next(service, token, till_desks, reader, writer, &mut io) {
            return;
        }
    }
    unreachable!()
}
