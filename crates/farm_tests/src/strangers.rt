//! Turns of one farm at another one, and whose turn is next.
ghost use Rattle.std.specs.Prelude.{◌≡◌, IfOk, IfErr};
ghost use Rattle.farm_core.specs.Turn.{IsTurn};

use crate::calls::{CallAnswer, Shown, give, put_back, submit, take};
use crate::fixtures::Planned;
use crate::play::seen_of;
use farm_core::{Farm, NoTurn, Turn};
use job_table::Phase;
use std::process::Abort;
use strategy::{Strategy, Verdict};

/// A job with 6 quanta that waits.
const WAITING: Shown = Shown(1, Phase::Waiting, 0, 6, None, Verdict::Going);

/// `WAITING` after 2 nodes of the tree.
const BEGUN: Shown = Shown(1, Phase::Waiting, 2, 4, None, Verdict::Going);

fn sent<J: Strategy>(rt: &impl Abort, farm: &mut Farm<J>, tenant: u32, slice: u64) -> Turn<J>
    ensures { IsTurn result.slice result.ran (J.meaning result.search) }
{
    match take(farm, tenant, 1, slice) {
        Ok(turn) => turn,
        Err(NoTurn::None) => panic!(rt; "no turn"),
        Err(NoTurn::NoMemory) => panic!(rt; "no memory"),
    }
}

/// A farm hands a stranger back, and nothing changes.
fn refuse<J: Strategy>(
    rt: &impl Abort,
    farm: &mut Farm<J>,
    turn: Turn<J>,
) -> Result<Turn<J>, CallAnswer>
    requires { IsTurn turn.slice turn.ran (J.meaning turn.search) }
    ensures { IfOk result (λ turn. IsTurn turn.slice turn.ran (J.meaning turn.search)) }
{
    let before = seen_of(farm, 0);
    let told = give(farm, turn);
    assert!(rt; seen_of(farm, 0) == before);
    match told {
        Ok(answer) => Err(answer),
        Err(turn) => Ok(turn),
    }
}

/// A turn is a stranger at another farm: while that has no job, and while a turn of its own job of
/// that number is out. The job's farm takes it back as it is.
pub(crate) fn stray<J: Strategy>(
    rt: &impl Abort,
    home: &mut Farm<J>,
    farm: &mut Farm<J>,
    own: Planned<J>,
    other: Planned<J>,
    slice: u64,
) {
    assert!(rt; submit(home, 0, 6, Some(own)) == CallAnswer::Job(1));
    let turn = sent(rt, home, 0, 2);
    let Ok(turn) = refuse(rt, farm, turn) else {
        panic!(rt; "taken by a farm without jobs");
    };
    assert!(rt; submit(farm, 0, 6, Some(other)) == CallAnswer::Job(1));
    let there = sent(rt, farm, 0, slice);
    let Ok(turn) = refuse(rt, farm, turn) else {
        panic!(rt; "taken for another job");
    };
    assert!(rt; put_back(home, turn) == CallAnswer::Ran(0, WAITING));
    assert!(rt; put_back(farm, there) == CallAnswer::Ran(0, WAITING));
}

/// Turns of two jobs that agree in all that is compared serve each for the other. One of them runs,
/// and runs no more when it is run again.
pub(crate) fn exchange<J: Strategy>(
    rt: &impl Abort,
    home: &mut Farm<J>,
    farm: &mut Farm<J>,
    own: Planned<J>,
    other: Planned<J>,
) {
    assert!(rt; submit(home, 0, 6, Some(own)) == CallAnswer::Job(1));
    assert!(rt; submit(farm, 0, 6, Some(other)) == CallAnswer::Job(1));
    let mut here = sent(rt, home, 0, 2);
    let there = sent(rt, farm, 0, 2);
    assert!(rt; here.run() == 2);
    assert!(rt; here.run() == 0);
    assert!(rt; put_back(farm, here) == CallAnswer::Ran(2, BEGUN));
    assert!(rt; put_back(home, there) == CallAnswer::Ran(0, WAITING));
}

/// Gives the turn back as it is, and returns whose it was.
fn next_of<J: Strategy>(farm: &mut Farm<J>, slice: u64) -> Result<(u32, u64), NoTurn> {
    match farm.take_next(slice) {
        Ok(turn) => {
            let whose = (turn.tenant(), turn.seq());
            put_back(farm, turn);
            Ok(whose)
        }
        Err(why) => Err(why),
    }
}

/// a's job has no entry of the journal left, and b's job waits: the next turn is b's. There is none
/// if nothing waits, if only a's job does, or of no nodes or too many.
pub(crate) fn take_any<J: Strategy>(
    rt: &impl Abort,
    farm: &mut Farm<J>,
    ready: Planned<J>,
    other: Planned<J>,
) {
    const NONE: Result<(u32, u64), NoTurn> = Err(NoTurn::None);
    assert!(rt; next_of(farm, 2) == NONE);
    assert!(rt; submit(farm, 0, 6, Some(ready)) == CallAnswer::Job(1));
    assert!(rt; next_of(farm, 2) == NONE);
    assert!(rt; submit(farm, 1, 6, Some(other)) == CallAnswer::Job(1));
    assert!(rt; next_of(farm, 0) == NONE);
    assert!(rt; next_of(farm, 1_000_001) == NONE);
    assert!(rt; next_of(farm, 1_000_000) == Ok((1, 1)));
    assert!(rt; next_of(farm, 1) == Ok((1, 1)));
    let held = sent(rt, farm, 1, 2);
    assert!(rt; next_of(farm, 2) == NONE);
    assert!(rt; put_back(farm, held) == CallAnswer::Ran(0, WAITING));
}

/// Each job in `order` is the next, and gives its turn back as it is.
fn follow<J: Strategy>(rt: &impl Abort, farm: &mut Farm<J>, order: &[(u32, u64)]) {
    for whose in order {
        assert!(rt; next_of(farm, 2) == Ok(*whose));
    }
}

/// Jobs 1 and 2 of a and job 1 of b take turns. A job comes, or comes back, behind all that wait.
/// By hand: a1 a2 b1 wait; after a turn of a1, a2 b1 a1; of a2, b1 a1 a2; of b1, a1 a2 b1; of a1,
/// a2 b1 a1. While b1 is out, a2 a1 wait, and after a turn of a2, a1 a2. Once b1 is back, a1, a2
/// and b1 are next.
pub(crate) fn take_turns<J: Strategy>(
    rt: &impl Abort,
    farm: &mut Farm<J>,
    first: Planned<J>,
    second: Planned<J>,
    other: Planned<J>,
) {
    assert!(rt; submit(farm, 0, 6, Some(first)) == CallAnswer::Job(1));
    assert!(rt; submit(farm, 0, 6, Some(second)) == CallAnswer::Job(2));
    assert!(rt; submit(farm, 1, 6, Some(other)) == CallAnswer::Job(1));
    follow(rt, farm, &[(0, 1), (0, 2), (1, 1), (0, 1)]);
    let held = sent(rt, farm, 1, 2);
    follow(rt, farm, &[(0, 2)]);
    assert!(rt; put_back(farm, held) == CallAnswer::Ran(0, WAITING));
    follow(rt, farm, &[(0, 1), (0, 2), (1, 1)]);
}
