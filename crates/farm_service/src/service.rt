//! The threads of a service, and its end.
ghost use Rattle.std.specs.Prelude.{◌≡◌, All, map, true, None, IfOk, IfSome, OnOk, OnErr, is_some};
ghost use Rattle.job_table.specs.Job.{fresh_search};
ghost use Rattle.farm_core.specs.Config.{ConfigData};
ghost use Rattle.farm_core.specs.Tills.{AreSeated, AreTillsOf};
ghost use Rattle.farm_session.specs.TillDesk.{tills_of};
ghost use Rattle.farm_session.specs.Ready.{MakesFresh};
ghost use Rattle.farm_pool.specs.Settle.{books_of, words_at, AreLoaded, first_unsettled};
ghost use Rattle.farm_service.specs.Role.{IsAtTills};
ghost use Rattle.farm_service.specs.Session.{HasRunRole, IsClientServed};
ghost use Rattle.farm_service.specs.Tills.{IsSettled};

use crate::batch::Batch;
use crate::connection::{Service, session};
use crate::connection_desks::connection_desks;
use crate::shared::{PoolAt, ReturnsToken, Shared, join_all, promise_of, push_handle};
use crate::signal::{StopWhenIdle, WorkSignal, WorkerGate};
use crate::wire::{Incoming, Outgoing};
use farm_core::{Config, Farm};
use farm_pool::{Pool, Settled, finish};
use farm_session::{Ready, TillDesk, Workshop, boxed_search, open_tills};
use quanta_till::{Desk, Till};
use std::alloc::Global;
use std::cell::RefCell;
use std::io::{BufReader, BufWriter, Write};
use std::net::{TcpListener, TcpStream};
use std::sync::Wait;
use std::thread;
use std::thread::{PromisedHandle, Scope, Threads};
use std::time::Clock;
use strategy::{Kind, Strategy};

/// A `ServeFault` is why a farm's service failed.
#[derive(Clone, Copy, Debug, PartialEq, Eq, thiserror::Error)]
pub enum ServeFault {
    /// The ledgers and the tills do not agree at the end.
    #[error("Unsettled")]
    Unsettled,
    /// A connection was not accepted, or no thread was made.
    #[error("Listen")]
    Listen,
    /// There was no memory to begin, or for one more thread.
    #[error("NoMemory")]
    NoMemory,
}

#[derive(Drop)]
enum Role<'a> {
    Worker,
    Client(Vec<TillDesk<'a>>, TcpStream),
}

/// Without memory for its buffers a client is not answered.
fn serve_connection<D: Shared, R: Wait, M: Fn(Ready) -> Option<D::Search>>(
    service: &Service<'_, '_, R, D, M>,
    token: &mut D::Token,
    own: &mut [TillDesk<'_>],
    stream: &TcpStream,
)
    requires own { D.owns service.now.shared.now token.old }
    requires config { D.config service.now.shared.now ≡ service.now.shop.config.now }
    requires tills { AreTillsOf service.now.shop.config.now (tills_of own.old) }
    requires make { M.IsAlwaysCallable service.now.shop.make.now }
    requires fresh { MakesFresh D.means D.leases (M.post service.now.shop.make.now) }
    ensures own { D.owns service.now.shared.now token.new }
    ensures served { IsClientServed service.now.shop.config.now
        (D.tells service.now.shared.now)
        (M.post service.now.shop.make.now)
        token.old own.old token.new own.new }
{
    let _ = stream.set_nodelay(true);
    let Ok(input) = BufReader::new(service.shop.alloc, stream) else {
        return;
    };
    let Ok(output) = BufWriter::new(service.shop.alloc, stream) else {
        return;
    };
    let Ok(batch) = Batch::new(service.shop.alloc) else {
        return;
    };
    let output = RefCell::new(output);
    let mut reader = Incoming {
        input,
        output: &output,
    };
    let mut writer = Outgoing { output: &output };
    session(service, token, own, &mut reader, &mut writer, batch);
    let _ = writer.flush();
}

fn run_role<'a, D: Shared, R: Wait + Clock, M: Fn(Ready) -> Option<D::Search>>(
    service: &Service<'_, '_, R, D, M>,
    token: D::Token,
    role: Role<'a>,
) -> (D::Token, Role<'a>)
    requires own { D.owns service.now.shared.now token }
    requires config { D.config service.now.shared.now ≡ service.now.shop.config.now }
    requires tills { IsAtTills service.now.shop.config.now role }
    requires make { M.IsAlwaysCallable service.now.shop.make.now }
    requires fresh { MakesFresh D.means D.leases (M.post service.now.shop.make.now) }
    ensures own { D.owns service.now.shared.now result.0 }
    ensures role { HasRunRole service.now.shop.config.now
        (D.tells service.now.shared.now)
        (M.post service.now.shop.make.now)
        (D.works service.now.shared.now)
        role.entry token result.1 result.0 }
{
    let mut token = token;
    match role {
        Role::Worker => {
            let seat = WorkerGate::new(service.rt, service.signal);
            service.shared.work(&mut token, &seat);
            (token, Role::Worker)
        }
        Role::Client(mut own, stream) => {
            serve_connection(service, &mut token, own.as_mut_slice(), &stream);
            service.signal.leave(service.rt, 1);
            (token, Role::Client(own, stream))
        }
    }
}

fn next_role<'a>(
    listener: &TcpListener,
    is_worker: bool,
    connection_desks: &mut Vec<Vec<TillDesk<'a>>>,
) -> Result<Role<'a>, ServeFault>
    ensures left { (config : ConfigData) → All (λ own. AreTillsOf config (tills_of own.items)) connection_desks.old.items
        → All (λ own. AreTillsOf config (tills_of own.items)) connection_desks.new.items }
    ensures own { (config : ConfigData) → All (λ own. AreTillsOf config (tills_of own.items)) connection_desks.old.items
        → IfOk result (IsAtTills config) }
{
    if is_worker {
        return Ok(Role::Worker);
    }
    match (connection_desks.pop(), listener.accept()) {
        (Some(own), Ok((stream, _))) => Ok(Role::Client(own, stream)),
        _ => Err(ServeFault::Listen),
    }
}

/// Starts a thread for `role`, with a token of its own, and keeps its handle.
fn spawn_role<
    's,
    'e: 's,
    D: Shared<Token: Send + Drop + 'static> + Sync,
    R: Threads + Wait + Clock + Sync,
    M: Fn(Ready) -> Option<D::Search> + Sync,
>(
    scope: &Scope<'s, &'e ()>,
    service: &'e Service<'e, 'e, R, D, M>,
    token: &mut D::Token,
    handles: &mut Vec<PromisedHandle<D::Token, ReturnsToken<D>>>,
    role: Role<'e>,
) -> Result<(), ServeFault>
    requires own { D.owns service.now.shared.now token.old }
    requires config { D.config service.now.shared.now ≡ service.now.shop.config.now }
    requires tills { IsAtTills service.now.shop.config.now role }
    requires make { M.IsAlwaysCallable service.now.shop.make.now }
    requires fresh { MakesFresh D.means D.leases (M.post service.now.shop.make.now) }
    requires all { All (λ h. h.promise.0.value ≡ service.now.shared.now) handles.old.items }
    ensures own { D.owns service.now.shared.now token.new }
    ensures all { All (λ h. h.promise.0.value ≡ service.now.shared.now) handles.new.items }
{
    if handles.reserve(1).is_err() {
        return Err(ServeFault::NoMemory);
    }
    let theirs = service.shared.split(token);
    let spawned = scope.spawn_with(
        promise_of(service.shared),
        move || -> D::Token
            requires { D.owns service.now.shared.now theirs
                × (D.config service.now.shared.now ≡ service.now.shop.config.now)
                × IsAtTills service.now.shop.config.now role
                × M.IsAlwaysCallable service.now.shop.make.now
                × MakesFresh D.means D.leases (M.post service.now.shop.make.now) }
            ensures { D.owns service.entry.now.shared.now result }
        { run_role(service, theirs, role).0 },
    );
    let Ok(handle) = spawned else {
        return Err(ServeFault::Listen);
    };
    push_handle(service.shared, handles, handle);
    Ok(())
}

/// Starts the workers, then a thread for each of `connection_desks` and its connection. After a
/// fault it starts no more.
fn spawn_all<
    's,
    'e: 's,
    D: Shared<Token: Send + Drop + 'static> + Sync,
    R: Threads + Wait + Clock + Sync,
    M: Fn(Ready) -> Option<D::Search> + Sync,
>(
    scope: &Scope<'s, &'e ()>,
    service: &'e Service<'e, 'e, R, D, M>,
    listener: &TcpListener,
    connection_desks: Vec<Vec<TillDesk<'e>>>,
    token: &mut D::Token,
    handles: &mut Vec<PromisedHandle<D::Token, ReturnsToken<D>>>,
) -> Option<ServeFault>
    requires own { D.owns service.now.shared.now token.old }
    requires config { D.config service.now.shared.now ≡ service.now.shop.config.now }
    requires tills { All (λ own. AreTillsOf service.now.shop.config.now (tills_of own.items)) connection_desks.items }
    requires make { M.IsAlwaysCallable service.now.shop.make.now }
    requires fresh { MakesFresh D.means D.leases (M.post service.now.shop.make.now) }
    requires all { All (λ h. h.promise.0.value ≡ service.now.shared.now) handles.old.items }
    ensures own { D.owns service.now.shared.now token.new }
    ensures all { All (λ h. h.promise.0.value ≡ service.now.shared.now) handles.new.items }
{
    let mut connection_desks = connection_desks;
    let workers = service.shop.config.workers();
    for i in 0..workers.saturating_add(connection_desks.len() as u64) {
        let Ok(role) = next_role(listener, i < workers, &mut connection_desks) else {
            return Some(ServeFault::Listen);
        };
        if let Err(why) = spawn_role(scope, service, token, handles, role) {
            return Some(why);
        }
    }
    None
}

/// Answers a connection for each of `connection_desks` in a thread of its own, while workers take
/// turns. After a fault it accepts no more connections.
fn run_threads<
    D: Shared<Token: Send + Drop + 'static> + Sync,
    R: Threads + Wait + Clock + Sync,
    M: Fn(Ready) -> Option<D::Search> + Sync,
>(
    service: &Service<'_, '_, R, D, M>,
    listener: TcpListener,
    token: &mut D::Token,
    connection_desks: Vec<Vec<TillDesk<'_>>>,
) -> Option<ServeFault>
    requires own { D.owns service.now.shared.now token.old }
    requires config { D.config service.now.shared.now ≡ service.now.shop.config.now }
    requires tills { All (λ own. AreTillsOf service.now.shop.config.now (tills_of own.items)) connection_desks.items }
    requires make { M.IsAlwaysCallable service.now.shop.make.now }
    requires fresh { MakesFresh D.means D.leases (M.post service.now.shop.make.now) }
    ensures { D.owns service.now.shared.now token.new }
{
    let mine = service.shared.split(token);
    let (back, fault) = thread::scope(
        thread::scope_env(),
        service.rt,
        move |scope| -> (D::Token, Option<ServeFault>)
            requires { D.owns service.now.shared.now mine
                × (D.config service.now.shared.now ≡ service.now.shop.config.now)
                × All (λ own. AreTillsOf service.now.shop.config.now (tills_of own.items)) connection_desks.items
                × M.IsAlwaysCallable service.now.shop.make.now
                × MakesFresh D.means D.leases (M.post service.now.shop.make.now) }
            ensures { D.owns service.entry.now.shared.now result.0 }
        {
            let mut mine = mine;
            let workers = service.shop.config.workers();
            let total = workers.saturating_add(connection_desks.len() as u64);
            let mut handles = Vec::new(service.shop.alloc);
            let fault = spawn_all(
                scope,
                service,
                &listener,
                connection_desks,
                &mut mine,
                &mut handles,
            );
            drop(listener);
            let unmade = total.saturating_sub(handles.len() as u64);
            service.signal.leave(service.rt, unmade);
            (join_all(service.rt, service.shared, mine, handles), fault)
        },
    );
    service.shared.join(token, back);
    fault
}

/// Answers `sessions` connections on a new farm, each in a thread of its own, while workers run
/// turns. Then it works off the jobs that wait, and settles the farm with its tills. The port is
/// closed once the last connection is accepted.
pub fn serve<R: Threads + Wait + Clock + Sync>(
    rt: &R,
    alloc: Global,
    config: &Config,
    listener: TcpListener,
    sessions: u64,
) -> Result<Settled, ServeFault>
    ensures { OnOk result (IsSettled config.now sessions) }
{
    let Ok((pool, mut pass)) = Pool::new(alloc, config) else {
        return Err(ServeFault::NoMemory);
    };
    let Ok((tills, mut desks)) = open_tills(alloc, config) else {
        return Err(ServeFault::NoMemory);
    };
    let (tills, desks) = (tills.as_slice(), desks.as_mut_slice());
    let Ok(connection_desks) = connection_desks(alloc, tills, desks, sessions) else {
        return Err(ServeFault::NoMemory);
    };
    let signal = WorkSignal::new(connection_desks.len() as u64);
    let make = |ready: Ready| -> Option<Box<dyn Strategy>>
        ensures { IfSome result (λ search.
            ((Strategy-box search).meaning search.value ≡ fresh_search ready.lease.tenant ready.plan)
            × ((Strategy-box search).lease search.value ≡ ready.lease)) }
    { boxed_search!(ready, alloc) };
    let shared = PoolAt { rt, pool: &pool };
    let service = Service {
        rt,
        shared: &shared,
        signal: &signal,
        shop: Workshop {
            alloc,
            config,
            make: &make,
        },
    };
    if let Some(fault) = run_threads(&service, listener, &mut pass, connection_desks) {
        return Err(fault);
    }
    pool.work(rt, &mut pass, &StopWhenIdle);
    match pool.close(pass) {
        Some(farm) => settle(farm, tills, desks),
        None => Err(ServeFault::Unsettled),
    }
}

fn settle<J: Strategy>(
    farm: Farm<J>,
    tills: &[Till],
    desks: &mut [Desk],
) -> Result<Settled, ServeFault>
    requires tills { AreTillsOf farm.config tills.now }
    requires seated { AreSeated tills.now desks.old }
    ensures loaded { AreLoaded desks.old desks.new }
    ensures settled { OnOk result (first_unsettled (books_of farm) (map words_at desks.new) ≡ None) }
    ensures unsettled { OnErr result (is_some (first_unsettled (books_of farm) (map words_at desks.new)) ≡ true) }
{
    match finish(farm, tills, desks) {
        Ok(settled) => Ok(settled),
        Err(_) => Err(ServeFault::Unsettled),
    }
}
