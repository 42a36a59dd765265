//! Calls of a pool, and the texts of their answers.
ghost use Rattle.std.specs.Prelude.{◌≡◌, ◌<◌, length};
ghost use Rattle.farm_core.specs.Command.{IsFresh};
ghost use Rattle.turn_lock.specs.Values.{IsPassOf};

use crate::fixtures::{A, Planned};
use crate::gates::Counting;
use farm_core::{Name, Reply};
use farm_pool::{Command, Pool, PoolPass};
use job_table::is_fresh;
use session_lines::{Said, write_reply};
use std::alloc::Global;
use std::process::Abort;
use std::sync::Wait;
use strategy::Strategy;
use watched_io::Watch;

/// An `Ask` is a call of a pool. A single number is a job's, but a submit's is its quanta.
#[derive(Clone, Copy)]
pub(crate) enum Ask {
    /// A job of the diamond's tree.
    Submit(u64),
    /// A job, and further quanta for it.
    Fund(u64, u64),
    Status(u64),
    Fetch(u64),
    Cancel(u64),
    Forget(u64),
    Ledger,
    /// A worker takes what there is, which is one turn.
    Work,
}

/// The answer of a worker that had one turn.
pub(crate) const WORKED: &str = "@a worked\n";

/// The answer if a growth was refused; also of a worker that took no turn.
pub(crate) const SCARCE: &str = "@a no memory\n";

fn text_of(rt: &impl Abort, alloc: Global, reply: Reply) -> Vec<u8> {
    let mut text = Vec::new(alloc);
    assert!(rt; text.reserve(256).is_ok(), "no memory");
    let said = Said::Reply(reply);
    let written = write_reply(&mut text, &mut Watch::new(), Name::new(b"a"), &said);
    assert!(rt; written.is_ok(), "a line of 256 bytes");
    text
}

pub(crate) fn is_line(rt: &impl Abort, alloc: Global, reply: Reply, line: &str) -> bool {
    text_of(rt, alloc, reply).as_slice() == line.as_bytes()
}

/// For calls that need no search. Any call that is no other one is for the ledger.
fn command_of(ask: Ask) -> Command<Box<dyn Strategy>>
    ensures { IsFresh (λ b. (Strategy-box b).meaning b.value) 0 result }
{
    match ask {
        Ask::Fund(seq, quanta) => Command::Fund { seq, quanta },
        Ask::Status(seq) => Command::Status(seq),
        Ask::Fetch(seq) => Command::Fetch(seq),
        Ask::Cancel(seq) => Command::Cancel(seq),
        Ask::Forget(seq) => Command::Forget(seq),
        Ask::Submit(_) | Ask::Ledger | Ask::Work => Command::Ledger,
    }
}

/// The worker takes what there is, and asks once whether to go on.
fn work<R: Wait>(rt: &R, pool: &Pool, pass: &mut PoolPass) -> &'static str
    requires { IsPassOf pool.now.lock pass.old }
    ensures { IsPassOf pool.now.lock pass.new }
{
    let gate = Counting::new();
    let end = pool.work(rt, pass, &gate);
    match (end.turns, end.strangers, gate.asked()) {
        (1, 0, 1) => WORKED,
        (0, 0, 1) => SCARCE,
        _ => "@a worked otherwise\n",
    }
}

/// Takes the last of the searches that are ready.
fn submit_of<R: Abort>(rt: &R, ready: &mut Vec<Planned>, quanta: u64) -> Command<Box<dyn Strategy>>
    ensures { IsFresh (λ b. (Strategy-box b).meaning b.value) 0 result }
{
    let Planned { plan, search } = ready.pop().expect(rt, "a search");
    assert!(rt; is_fresh(&search, A, &plan), "a search that has run");
    Command::Submit {
        plan,
        quanta,
        search,
    }
}

fn bytes_of(rt: &impl Abort, alloc: Global, said: &str) -> Vec<u8> {
    let mut text = Vec::new(alloc);
    assert!(rt;
        text.extend_from_slice(said.as_bytes()).is_ok(),
        "no memory"
    );
    text
}

fn reply_to<R: Wait + Abort>(
    rt: &R,
    pool: &Pool,
    pass: &mut PoolPass,
    ready: &mut Vec<Planned>,
    ask: Ask,
) -> Reply
    requires own { IsPassOf pool.now.lock pass.old }
    requires known { length pool.now.lock.opening.tenants ≡ 1 }
    ensures own { IsPassOf pool.now.lock pass.new }
{
    if let Ask::Submit(quanta) = ask {
        let command = submit_of(rt, ready, quanta);
        return pool.call(rt, pass, A, command);
    }
    let command = command_of(ask);
    pool.call(rt, pass, A, command)
}

/// A submit takes the last of the searches that are ready.
pub(crate) fn make<R: Wait + Abort>(
    rt: &R,
    alloc: Global,
    pool: &Pool,
    pass: &mut PoolPass,
    ready: &mut Vec<Planned>,
    ask: Ask,
) -> Vec<u8>
    requires own { IsPassOf pool.now.lock pass.old }
    requires known { length pool.now.lock.opening.tenants ≡ 1 }
    ensures own { IsPassOf pool.now.lock pass.new }
{
    if matches!(ask, Ask::Work) {
        return bytes_of(rt, alloc, work(rt, pool, pass));
    }
    let reply = reply_to(rt, pool, pass, ready, ask);
    text_of(rt, alloc, reply)
}
