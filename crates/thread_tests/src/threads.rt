//! Threads that add to one counter.
ghost use Rattle.std.specs.Prelude.{◌≡◌, All};
ghost use Rattle.std.specs.Vec.{vec_len, vec_capacity};
ghost use Rattle.turn_lock.specs.Values.{IsPassOf};

use crate::counter::{Ask, Counter, Reply};
use std::alloc::Global;
use std::snapshot::Snapshot;
use std::sync::Wait;
use std::thread;
use std::thread::{Promise, PromisedHandle, Threads};
use turn_lock::{Pass, TurnLock};

/// A thread's pass, and its answers in order.
#[derive(Drop)]
pub struct Made {
    pub pass: Pass<Counter>,
    pub answers: Vec<u64>,
}

/// The promise of a thread to return a pass of this lock.
#[derive(Drop)]
pub struct ReturnsPass(Snapshot<TurnLock<Counter>>);

impl Promise<Made> for ReturnsPass {
    ghost use Rattle.turn_lock.specs.Values.{IsPassOf};

    ghost kept_by = { λ p made. IsPassOf p.0.value made.pass };
}

fn add<R: Wait>(
    rt: &R,
    alloc: Global,
    lock: &TurnLock<Counter>,
    pass: Pass<Counter>,
    amount: u64,
    calls: u64,
) -> Made
    requires { IsPassOf lock.now pass }
    ensures { IsPassOf lock.now result.pass }
{
    let mut pass = pass;
    let mut answers = Vec::new(alloc);
    for _ in 0..calls {
        if let Reply::Is(now) = lock.with_turn(rt, &mut pass, Ask::Add(amount)) {
            let _ = answers.push(now);
        }
    }
    Made { pass, answers }
}

/// Returns the answers, the last thread first.
fn gather<R: Threads>(
    rt: &R,
    lock: &TurnLock<Counter>,
    pass: &mut Pass<Counter>,
    handles: Vec<PromisedHandle<Made, ReturnsPass>>,
    told: &mut Vec<Vec<u64>>,
)
    requires own { IsPassOf lock.now pass.old }
    requires all { All (λ h. h.promise.0.value ≡ lock.now) handles.items }
    ensures { IsPassOf lock.now pass.new }
{
    let mut handles = handles;
    for _ in 0..handles.len() {
        let Some(handle) = handles.pop() else {
            break;
        };
        let Made {
            pass: theirs,
            answers,
        } = handle.join(rt);
        lock.join_pass(pass, theirs);
        let _ = told.push(answers);
    }
}

/// Thread 1 adds 1, thread 2 adds 2 and so on. Returns the answers, the last thread first.
pub fn crowd<R: Threads + Wait + Sync>(
    rt: &R,
    alloc: Global,
    lock: &TurnLock<Counter>,
    pass: Pass<Counter>,
    threads: u64,
    calls: u64,
) -> (Pass<Counter>, Vec<Vec<u64>>)
    requires { IsPassOf lock.now pass }
    ensures { IsPassOf lock.now result.0 }
{
    thread::scope(
        thread::scope_env(),
        rt,
        move |scope| -> (Pass<Counter>, Vec<Vec<u64>>)
            requires { IsPassOf lock.now pass }
            ensures { IsPassOf lock.entry.now result.0 }
        {
            let mut mine = pass;
            let mut handles = Vec::new(alloc);
            for i in 0..threads {
                if handles.reserve(1).is_err() {
                    break;
                }
                let theirs = lock.split_pass(&mut mine);
                let amount = i + 1;
                let promise = ReturnsPass(Snapshot::of(lock));
                let spawned = scope.spawn_with(
                    promise,
                    move || -> Made
                        requires { IsPassOf lock.now theirs }
                        ensures { IsPassOf lock.entry.now result.pass }
                    { add(rt, alloc, lock, theirs, amount, calls) },
                );
                if let Ok(handle) = spawned {
                    handles.push_reserved(handle);
                }
            }
            let mut told = Vec::new(alloc);
            gather(rt, lock, &mut mine, handles, &mut told);
            (mine, told)
        },
    )
}
