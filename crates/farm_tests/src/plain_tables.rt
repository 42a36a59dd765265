//! Calls of a `JobTable` and of a plain list: each answer agrees.
use crate::fixtures::{Planned, Purses, Text, Wanted, planned_for};
use crate::plain_table::{PlainTable, Row};
use job_table::Phase::{Cancelled, Closed, Dry, Leaving, Out, Waiting};
use job_table::{Job, JobTable, Phase, is_fresh};
use std::alloc::Global;
use std::process::Abort;
use strategy::{Kind, Strategy};

/// A `Call` is a call about the job of a tenant and a number.
#[derive(Clone, Copy)]
enum Call {
    /// A new job of the tree with one quantum.
    Insert(u32, u64),
    /// A new job of a priority rule with one quantum.
    InsertRule(u32, u64),
    /// `set_phase`.
    Put(u32, u64, Phase),
    /// `find_mut`: the job gives up its search and its quanta.
    Empty(u32, u64),
    /// `find_mut`: the job draws further quanta.
    Draw(u32, u64, u64),
    Remove(u32, u64),
}

use Call::{Draw, Empty, Insert, InsertRule, Put, Remove};

/// A call, whether it finds its job or adds one, and who waits then.
#[derive(Clone, Copy)]
struct Step(Call, bool, &'static [(u32, u64)]);

/// One job goes out, comes back, is dry, is funded, and closes.
const TREE: [Step; 8] = [
    Step(Insert(0, 1), true, &[(0, 1)]),
    Step(Put(0, 1, Out(10)), true, &[]),
    Step(Put(0, 1, Dry), true, &[]),
    Step(Draw(0, 1, 3), true, &[]),
    Step(Put(0, 1, Waiting), true, &[(0, 1)]),
    Step(Put(0, 1, Out(10)), true, &[]),
    Step(Empty(0, 1), true, &[]),
    Step(Put(0, 1, Closed), true, &[]),
];

/// While a tenant's job is out, another's job runs and is cancelled, and its next one goes out.
const BESIDE: [Step; 12] = [
    Step(Insert(0, 1), true, &[(0, 1)]),
    Step(Put(0, 1, Out(10)), true, &[]),
    Step(Insert(1, 1), true, &[(1, 1)]),
    Step(Put(1, 1, Out(4)), true, &[]),
    Step(Put(1, 1, Waiting), true, &[(1, 1)]),
    Step(Put(0, 1, Waiting), true, &[(1, 1), (0, 1)]),
    Step(Empty(1, 1), true, &[(1, 1), (0, 1)]),
    Step(Put(1, 1, Cancelled), true, &[(0, 1)]),
    Step(InsertRule(1, 2), true, &[(0, 1), (1, 2)]),
    Step(Put(1, 2, Out(3)), true, &[(0, 1)]),
    Step(Put(0, 1, Out(10)), true, &[]),
    Step(Put(0, 1, Dry), true, &[]),
];

/// A job closes and is forgotten; the tenant's next one has a new number.
const FORGET: [Step; 11] = [
    Step(InsertRule(0, 1), true, &[(0, 1)]),
    Step(Put(0, 1, Out(10)), true, &[]),
    Step(Empty(0, 1), true, &[]),
    Step(Put(0, 1, Closed), true, &[]),
    Step(Insert(0, 2), true, &[(0, 2)]),
    Step(Remove(0, 1), true, &[(0, 2)]),
    Step(Insert(0, 3), true, &[(0, 2), (0, 3)]),
    Step(Put(0, 1, Waiting), false, &[(0, 2), (0, 3)]),
    Step(Draw(0, 1, 1), false, &[(0, 2), (0, 3)]),
    Step(Remove(0, 1), false, &[(0, 2), (0, 3)]),
    Step(Remove(0, 2), true, &[(0, 3)]),
];

/// Two tenants' jobs of equal numbers: each one comes back behind all others.
const TWO: [Step; 10] = [
    Step(Insert(0, 1), true, &[(0, 1)]),
    Step(Insert(1, 1), true, &[(0, 1), (1, 1)]),
    Step(Insert(0, 2), true, &[(0, 1), (1, 1), (0, 2)]),
    Step(Insert(1, 2), true, &[(0, 1), (1, 1), (0, 2), (1, 2)]),
    Step(Put(0, 1, Out(2)), true, &[(1, 1), (0, 2), (1, 2)]),
    Step(Put(0, 2, Out(2)), true, &[(1, 1), (1, 2)]),
    Step(Put(0, 1, Waiting), true, &[(1, 1), (1, 2), (0, 1)]),
    Step(Put(1, 2, Out(2)), true, &[(1, 1), (0, 1)]),
    Step(Put(0, 2, Waiting), true, &[(1, 1), (0, 1), (0, 2)]),
    Step(Put(0, 1, Waiting), true, &[(1, 1), (0, 1), (0, 2)]),
];

/// Jobs are cancelled while they wait or are out, and when they are dry, and are removed.
const CANCELS: [Step; 12] = [
    Step(Insert(0, 1), true, &[(0, 1)]),
    Step(Insert(0, 2), true, &[(0, 1), (0, 2)]),
    Step(Insert(1, 1), true, &[(0, 1), (0, 2), (1, 1)]),
    Step(Empty(0, 2), true, &[(0, 1), (0, 2), (1, 1)]),
    Step(Put(0, 2, Cancelled), true, &[(0, 1), (1, 1)]),
    Step(Put(0, 1, Out(1)), true, &[(1, 1)]),
    Step(Put(0, 1, Leaving(1)), true, &[(1, 1)]),
    Step(Put(1, 1, Dry), true, &[]),
    Step(Put(1, 1, Cancelled), true, &[]),
    Step(Remove(0, 2), true, &[]),
    Step(Put(0, 1, Cancelled), true, &[]),
    Step(Remove(0, 1), true, &[]),
];

/// Calls about jobs that are not there change nothing.
const UNKNOWN: [Step; 10] = [
    Step(Put(0, 1, Waiting), false, &[]),
    Step(Insert(0, 1), true, &[(0, 1)]),
    Step(Insert(0, 1), false, &[(0, 1)]),
    Step(Put(1, 1, Out(1)), false, &[(0, 1)]),
    Step(Put(0, 2, Out(1)), false, &[(0, 1)]),
    Step(Empty(1, 1), false, &[(0, 1)]),
    Step(Draw(0, 2, 1), false, &[(0, 1)]),
    Step(Remove(1, 1), false, &[(0, 1)]),
    Step(Remove(0, 1), true, &[]),
    Step(Remove(0, 1), false, &[]),
];

/// Returns `false` if the key is known.
fn insert<J: Strategy>(
    alloc: Global,
    table: &mut JobTable<J>,
    (tenant, seq): (u32, u64),
    planned: Planned<J>,
) -> bool {
    let Planned { plan, search } = planned;
    if table.find(tenant, seq).is_some() || !is_fresh(&search, tenant, &plan) {
        return false;
    }
    match Job::new(alloc, tenant, seq, plan, 1, search) {
        Ok(job) => table.insert(tenant, job).is_ok(),
        Err(_) => false,
    }
}

fn empty<J: Strategy>(table: &mut JobTable<J>, tenant: u32, seq: u64) -> bool {
    match table.find_mut(tenant, seq) {
        Some(work) => {
            work.give_up();
            true
        }
        None => false,
    }
}

/// Draws up to 9 quanta for a job that holds its search.
fn draw<J: Strategy>(table: &mut JobTable<J>, tenant: u32, seq: u64, quanta: u64) -> bool {
    let Some(job) = table.find(tenant, seq) else {
        return false;
    };
    if job.nodes() > 9 || job.left() > 9 || quanta > 9 {
        return false;
    }
    match table.find_mut(tenant, seq) {
        Some(work) => work.fund(tenant, quanta),
        None => false,
    }
}

#[derive(Drop)]
struct Both {
    table: JobTable<Box<dyn Strategy>>,
    plain: PlainTable,
    purses: Purses,
}

fn kind_of(call: Call) -> Kind {
    match call {
        InsertRule(..) => Kind::RuleSpt,
        _ => Kind::Tree,
    }
}

fn make_call(rt: &impl Abort, alloc: Global, both: &mut Both, call: Call) -> bool {
    let table = &mut both.table;
    match call {
        Insert(tenant, seq) | InsertRule(tenant, seq) => {
            let lease = both.purses.lease_of(rt, tenant);
            let (kind, text) = (kind_of(call), Text::Diamond);
            let planned = planned_for(rt, alloc, lease, Wanted { tenant, kind, text });
            insert(alloc, table, (tenant, seq), planned)
        }
        Put(tenant, seq, phase) => table.set_phase(tenant, seq, phase),
        Empty(tenant, seq) => empty(table, tenant, seq),
        Draw(tenant, seq, quanta) => draw(table, tenant, seq, quanta),
        Remove(tenant, seq) => table.remove(tenant, seq).is_some(),
    }
}

fn make_plain_call(plain: &mut PlainTable, call: Call) -> bool {
    match call {
        Insert(tenant, seq) | InsertRule(tenant, seq) => plain.insert(Row {
            tenant,
            seq,
            phase: Waiting,
            left: 1,
        }),
        Put(tenant, seq, phase) => plain.set_phase(tenant, seq, phase),
        Empty(tenant, seq) => match plain.find_mut(tenant, seq) {
            Some(left) => {
                *left = 0;
                true
            }
            None => false,
        },
        Draw(tenant, seq, quanta) => match plain.find_mut(tenant, seq) {
            Some(left) => {
                *left = left.saturating_add(quanta);
                true
            }
            None => false,
        },
        Remove(tenant, seq) => plain.remove(tenant, seq).is_some(),
    }
}

fn same_job<J>(table: &JobTable<J>, plain: &PlainTable, tenant: u32, seq: u64) -> bool {
    match (table.find(tenant, seq), plain.find(tenant, seq)) {
        (Some(job), Some(row)) => job.phase() == row.phase && job.left() == row.left,
        (None, None) => true,
        _ => false,
    }
}

/// Compares each reader for tenants 0 to 2 and numbers 0 to 3.
fn compare(rt: &impl Abort, both: &Both, waiting: &[(u32, u64)], name: &str) {
    let (table, plain) = (&both.table, &both.plain);
    for tenant in 0..3u32 {
        assert!(rt;
            table.count_of(tenant) == plain.count_of(tenant),
            "{name}, how many jobs"
        );
        assert!(rt;
            table.out_of(tenant) == plain.out_of(tenant),
            "{name}, how many are out"
        );
        for seq in 0..4u64 {
            assert!(rt; same_job(table, plain, tenant, seq), "{name}, a job");
        }
    }
    for i in 0..5usize {
        assert!(rt; table.waiting(i) == plain.waiting(i), "{name}, who waits");
        assert!(rt;
            table.waiting(i) == waiting.get(i).copied(),
            "{name}, who is to wait"
        );
    }
    assert!(rt;
        table.first_waiting() == plain.first_waiting(),
        "{name}, who is first"
    );
}

fn play(rt: &impl Abort, alloc: Global, script: &[Step], name: &str) {
    let mut both = Both {
        table: JobTable::new(alloc),
        plain: PlainTable::new(alloc),
        purses: Purses::new(rt, alloc),
    };
    for step in script {
        let Step(asked, found, waiting) = *step;
        assert!(rt;
            make_call(rt, alloc, &mut both, asked) == found,
            "{name}, an answer"
        );
        assert!(rt;
            make_plain_call(&mut both.plain, asked) == found,
            "{name}, a plain answer"
        );
        compare(rt, &both, waiting, name);
    }
}

#[test]
fn a_table_is_a_plain_list(rt: HostRuntime) {
    play(&rt, rt.alloc(), &TREE, "a job to its end");
    play(&rt, rt.alloc(), &BESIDE, "a job beside a turn");
    play(&rt, rt.alloc(), &FORGET, "a new number");
    play(&rt, rt.alloc(), &TWO, "two tenants");
    play(&rt, rt.alloc(), &CANCELS, "cancels");
    play(&rt, rt.alloc(), &UNKNOWN, "unknown jobs");
}
