//! A script is played on a pool of its own.
ghost use Rattle.std.specs.Prelude.{◌≡◌, length};
ghost use Rattle.turn_lock.specs.Values.{IsPassOf};

use crate::calls::{Ask, SCARCE, make};
use crate::fixtures::{A, Planned, Purse, Terms, config_of, pool_of, trees_of};
use farm_pool::{Pool, PoolPass};
use std::alloc::Global;
use std::process::Abort;
use std::sync::Wait;

/// A call, its answer, and status and ledger from then on.
#[derive(Clone, Copy)]
pub(crate) struct Step(pub(crate) Ask, pub(crate) &'static str, pub(crate) Known);

/// Job 1's status, and the ledger.
#[derive(Clone, Copy)]
pub(crate) struct Known(pub(crate) &'static str, pub(crate) &'static str);

/// Tenant a alone, of 100 quanta and 100 entries.
pub(crate) const ALONE: [Terms; 1] = [("a", "", 100, 100)];

/// The most submits of a script, each of which may be made twice.
const MOST_SUBMITS: u32 = 4;

const NOTHING: Known = Known("@a no unknown\n", WHOLE);

const WHOLE: &str = "@a ledger granted 100 free 100 held 0 spent 0\n";

/// An accepted cancel wants no memory.
fn may_want_memory(step: Step) -> bool {
    match step {
        Step(Ask::Cancel(_), told, _) => !told.starts_with("@a job"),
        _ => true,
    }
}

/// The entries of a call that had memory.
fn entries_of(ask: Ask) -> usize {
    match ask {
        Ask::Work => 2,
        _ => 1,
    }
}

/// The texts are for messages too. The second one is that of the step that found no memory.
fn see<R: Wait + Abort>(
    rt: &R,
    alloc: Global,
    pool: &Pool,
    pass: &mut PoolPass,
    ready: &mut Vec<Planned>,
    ask: Ask,
    texts: [&str; 2],
)
    requires own { IsPassOf pool.now.lock pass.old }
    requires known { length pool.now.lock.opening.tenants ≡ 1 }
    ensures own { IsPassOf pool.now.lock pass.new }
{
    let [wanted, of_step] = texts;
    let told = make(rt, alloc, pool, pass, ready, ask);
    assert!(rt;
        told.as_slice() == wanted.as_bytes(),
        "{of_step}, once refused: {wanted}"
    );
}

/// A call that finds no memory has changed nothing, and is made again. Returns the entries that it
/// left.
fn insist<R: Wait + Abort>(
    rt: &R,
    alloc: Global,
    pool: &Pool,
    pass: &mut PoolPass,
    ready: &mut Vec<Planned>,
    step: Step,
    before: Known,
) -> usize
    requires own { IsPassOf pool.now.lock pass.old }
    requires known { length pool.now.lock.opening.tenants ≡ 1 }
    ensures own { IsPassOf pool.now.lock pass.new }
{
    let Step(ask, wanted, _) = step;
    let told = make(rt, alloc, pool, pass, ready, ask);
    if told.as_slice() != SCARCE.as_bytes() {
        assert!(rt; told.as_slice() == wanted.as_bytes(), "{wanted}");
        return entries_of(ask);
    }
    assert!(rt; may_want_memory(step), "a call that needs none: {wanted}");
    let Known(status, ledger) = before;
    see(
        rt,
        alloc,
        pool,
        pass,
        ready,
        Ask::Status(1),
        [status, wanted],
    );
    see(rt, alloc, pool, pass, ready, Ask::Ledger, [ledger, wanted]);
    see(rt, alloc, pool, pass, ready, ask, [wanted, wanted]);
    entries_of(ask).saturating_add(2)
}

/// `lead` calls for the ledger come before the script.
fn step_at(lead: usize, steps: &[Step], at: usize) -> Step {
    match steps.get(at.saturating_sub(lead)) {
        Some(step) if lead <= at => *step,
        _ => Step(Ask::Ledger, WHOLE, NOTHING),
    }
}

/// Makes `lead` calls for the ledger first. Returns the entries that were left.
fn play_all<R: Wait + Abort>(
    rt: &R,
    alloc: Global,
    pool: &Pool,
    pass: &mut PoolPass,
    ready: &mut Vec<Planned>,
    lead: usize,
    steps: &[Step],
) -> usize
    requires own { IsPassOf pool.now.lock pass.old }
    requires known { length pool.now.lock.opening.tenants ≡ 1 }
    ensures own { IsPassOf pool.now.lock pass.new }
{
    let mut entries: usize = 0;
    let mut before = NOTHING;
    for at in 0..lead.saturating_add(steps.len()) {
        let step = step_at(lead, steps, at);
        let left = insist(rt, alloc, pool, pass, ready, step, before);
        entries = entries.saturating_add(left);
        before = step.2;
    }
    entries
}

/// Compares the length of the journal, and the words of the till once the farm is gone.
pub(crate) fn play<R: Wait + Abort>(
    rt: &R,
    alloc: Global,
    lead: usize,
    steps: &[Step],
    words: [u64; 3],
) {
    let config = config_of(rt, alloc, &ALONE, 10);
    let (pool, mut pass) = pool_of(alloc, &config, 1).expect(rt, "no memory for a pool");
    let mut purse = Purse::new(rt, alloc, A, 100);
    let mut ready = trees_of(rt, alloc, &mut purse, MOST_SUBMITS);
    let entries = play_all(rt, alloc, &pool, &mut pass, &mut ready, lead, steps);
    drop(ready);
    let farm = pool.close(pass).expect(rt, "a farm");
    assert!(rt;
        farm.journal().len() == entries,
        "the entries of the journal"
    );
    drop(farm);
    assert!(rt; purse.words() == words, "the words of the till");
}
