//! Calls of a farm, and their answers.
ghost use Rattle.std.specs.Prelude.{◌≡◌, ◌<◌, IfSome, IfOk, IfErr};
ghost use Rattle.farm_core.specs.Turn.{IsTurn};

use crate::fixtures::{Planned, Text};
use farm_core::{Farm, Line, NoTurn, Reply, Stranger, Turn};
use job_table::{Phase, is_fresh};
use mrcpsp::Schedule;
use strategy::{Kind, Plan, Strategy, Verdict};
use tenant_book::Book;

/// A `Call` is what a tenant, or a worker for it, asks for. A single number is a job's.
#[derive(Clone, Copy)]
pub(crate) enum Call {
    /// The kind, the quanta and the project.
    Submit(Kind, u64, Text),
    /// The job, and the quanta that it draws.
    Fund(u64, u64),
    Status(u64),
    Fetch(u64),
    Cancel(u64),
    Forget(u64),
    Ledger,
    /// Takes a turn of a job, with a slice of nodes, and holds it.
    Take(u64, u64),
    /// The held turn is run and given back.
    Give,
    /// The held turn is given back as it is.
    GiveUnrun,
    /// The held turn is run and dropped.
    Abandon,
    /// Takes a turn of a job, with a slice of nodes, runs it and gives it back.
    Turn(u64, u64),
}

/// A job's number, phase, nodes, quanta, best makespan and verdict.
#[derive(Clone, Copy, PartialEq)]
pub(crate) struct Shown(
    pub(crate) u64,
    pub(crate) Phase,
    pub(crate) u64,
    pub(crate) u64,
    pub(crate) Option<u32>,
    pub(crate) Verdict,
);

/// The mode and start of each activity, and zeros after them.
#[derive(Clone, Copy, PartialEq)]
pub(crate) struct Placed(pub(crate) usize, pub(crate) [(u32, u32); 4]);

/// A `CallAnswer` is the answer to a call.
#[derive(Clone, Copy, PartialEq)]
pub(crate) enum CallAnswer {
    Job(u64),
    Told(Shown),
    /// The nodes that a turn ran, and its job then.
    Ran(u64, Shown),
    /// A job's number, its best schedule and makespan, and its verdict.
    Best(u64, Option<Placed>, Option<u32>, Verdict),
    Forgotten(u64),
    /// Granted, free, held and spent.
    Books([u64; 4]),
    /// No entry of the journal is free.
    NoRoom,
    /// There is no such job.
    NoUnknown,
    /// The job is out, or not at its end.
    NoBusy,
    /// The job is at its end.
    NoOver,
    /// The amount cannot be given.
    NoAmount,
    /// No further job may be kept.
    NoJobs,
    /// The quanta that are free.
    NoShort(u64),
    /// A growth was refused.
    NoMemory,
    /// There is no such turn, or none is held.
    NoTurn,
    /// The turn belongs to no job of the farm.
    Stranger,
    /// The turn that was held is gone.
    Gone,
    /// There is no such tenant, or no search for the submit.
    Unmade,
}

pub(crate) fn shown_of(line: &Line) -> Shown {
    Shown(
        line.seq,
        line.phase,
        line.nodes,
        line.left,
        line.best,
        line.verdict,
    )
}

pub(crate) fn numbers_of(book: &Book) -> [u64; 4] {
    [book.granted(), book.free(), book.held(), book.spent()]
}

fn placed_by(schedule: &Schedule) -> Placed {
    let mut placed = [(0, 0); 4];
    let modes = schedule.modes.as_slice();
    let starts = schedule.starts.as_slice();
    for (at, (mode, start)) in placed.iter_mut().zip(modes.iter().zip(starts)) {
        *at = (*mode, *start);
    }
    Placed(modes.len(), placed)
}

fn answer_of(reply: Reply) -> CallAnswer {
    match reply {
        Reply::Job(seq) => CallAnswer::Job(seq),
        Reply::Line(line) => CallAnswer::Told(shown_of(&line)),
        Reply::Ran(ran, line) => CallAnswer::Ran(ran, shown_of(&line)),
        Reply::Best(seq, best, makespan, verdict) => {
            CallAnswer::Best(seq, best.as_ref().map(placed_by), makespan, verdict)
        }
        Reply::Forgotten(seq) => CallAnswer::Forgotten(seq),
        Reply::Ledger(book) => CallAnswer::Books(numbers_of(&book)),
        Reply::NoRoom => CallAnswer::NoRoom,
        Reply::NoUnknown => CallAnswer::NoUnknown,
        Reply::NoBusy => CallAnswer::NoBusy,
        Reply::NoOver => CallAnswer::NoOver,
        Reply::NoAmount => CallAnswer::NoAmount,
        Reply::NoJobs => CallAnswer::NoJobs,
        Reply::NoShort(free) => CallAnswer::NoShort(free),
        Reply::NoMemory => CallAnswer::NoMemory,
    }
}

pub(crate) fn take<J: Strategy>(
    farm: &mut Farm<J>,
    tenant: u32,
    seq: u64,
    slice: u64,
) -> Result<Turn<J>, NoTurn>
    ensures { IfOk result (λ turn. IsTurn turn.slice turn.ran (J.meaning turn.search)) }
{
    if farm.tenants() <= tenant {
        return Err(NoTurn::None);
    }
    farm.take(tenant, seq, slice)
}

/// A stranger is handed back.
pub(crate) fn give<J: Strategy>(farm: &mut Farm<J>, turn: Turn<J>) -> Result<CallAnswer, Turn<J>>
    requires { IsTurn turn.slice turn.ran (J.meaning turn.search) }
    ensures { IfErr result (λ turn. IsTurn turn.slice turn.ran (J.meaning turn.search)) }
{
    if farm.tenants() <= turn.tenant() {
        return Err(turn);
    }
    match farm.give(turn) {
        Ok(reply) => Ok(answer_of(reply)),
        Err(Stranger(turn)) => Err(turn),
    }
}

/// A stranger is dropped.
pub(crate) fn put_back<J: Strategy>(farm: &mut Farm<J>, turn: Turn<J>) -> CallAnswer
    requires { IsTurn turn.slice turn.ran (J.meaning turn.search) }
{
    match give(farm, turn) {
        Ok(answer) => answer,
        Err(turn) => {
            turn.abandon();
            CallAnswer::Stranger
        }
    }
}

pub(crate) fn submit<J: Strategy>(
    farm: &mut Farm<J>,
    tenant: u32,
    quanta: u64,
    ready: Option<Planned<J>>,
) -> CallAnswer {
    let Some(Planned { plan, search }) = ready else {
        return CallAnswer::Unmade;
    };
    if farm.tenants() <= tenant || !is_fresh(&search, tenant, &plan) {
        return CallAnswer::Unmade;
    }
    answer_of(farm.submit(tenant, plan, quanta, search))
}

/// Makes a call that needs neither a search nor a turn.
fn command<J: Strategy>(farm: &mut Farm<J>, tenant: u32, call: Call) -> CallAnswer {
    if farm.tenants() <= tenant {
        return CallAnswer::Unmade;
    }
    match call {
        Call::Fund(seq, quanta) => answer_of(farm.fund(tenant, seq, quanta)),
        Call::Status(seq) => answer_of(farm.status(tenant, seq)),
        Call::Fetch(seq) => answer_of(farm.result(tenant, seq)),
        Call::Cancel(seq) => answer_of(farm.cancel(tenant, seq)),
        Call::Forget(seq) => answer_of(farm.forget(tenant, seq)),
        Call::Ledger => answer_of(farm.ledger(tenant)),
        _ => CallAnswer::Unmade,
    }
}

fn refused_by(why: NoTurn) -> CallAnswer {
    match why {
        NoTurn::None => CallAnswer::NoTurn,
        NoTurn::NoMemory => CallAnswer::NoMemory,
    }
}

fn run_turn<J: Strategy>(farm: &mut Farm<J>, tenant: u32, seq: u64, slice: u64) -> CallAnswer {
    match take(farm, tenant, seq, slice) {
        Ok(mut turn) => {
            turn.run();
            put_back(farm, turn)
        }
        Err(why) => refused_by(why),
    }
}

fn hold<J: Strategy>(
    farm: &mut Farm<J>,
    hand: &mut Option<Turn<J>>,
    tenant: u32,
    seq: u64,
    slice: u64,
) -> CallAnswer
    requires { IfSome hand.old (λ turn. IsTurn turn.slice turn.ran (J.meaning turn.search)) }
    ensures { IfSome hand.new (λ turn. IsTurn turn.slice turn.ran (J.meaning turn.search)) }
{
    match take(farm, tenant, seq, slice) {
        Ok(turn) => {
            if let Some(former) = hand.replace(turn) {
                former.abandon();
            }
            out_of(farm, tenant, seq)
        }
        Err(why) => refused_by(why),
    }
}

/// Leaves no entry.
fn out_of<J>(farm: &Farm<J>, tenant: u32, seq: u64) -> CallAnswer {
    match snapshot(farm, tenant, seq) {
        Some(shown) => CallAnswer::Told(shown),
        None => CallAnswer::Unmade,
    }
}

/// Leaves no entry.
pub(crate) fn snapshot<J>(farm: &Farm<J>, tenant: u32, seq: u64) -> Option<Shown> {
    if farm.tenants() <= tenant {
        return None;
    }
    let line = farm.snapshot(tenant, seq)?;
    Some(shown_of(&line))
}

fn give_held<J: Strategy>(farm: &mut Farm<J>, hand: &mut Option<Turn<J>>, runs: bool) -> CallAnswer
    requires { IfSome hand.old (λ turn. IsTurn turn.slice turn.ran (J.meaning turn.search)) }
    ensures { IfSome hand.new (λ turn. IsTurn turn.slice turn.ran (J.meaning turn.search)) }
{
    match hand.take() {
        Some(mut turn) => {
            if runs {
                turn.run();
            }
            put_back(farm, turn)
        }
        None => CallAnswer::NoTurn,
    }
}

fn abandon_held<J: Strategy>(hand: &mut Option<Turn<J>>) -> CallAnswer
    requires { IfSome hand.old (λ turn. IsTurn turn.slice turn.ran (J.meaning turn.search)) }
    ensures { IfSome hand.new (λ turn. IsTurn turn.slice turn.ran (J.meaning turn.search)) }
{
    match hand.take() {
        Some(mut turn) => {
            turn.run();
            turn.abandon();
            CallAnswer::Gone
        }
        None => CallAnswer::NoTurn,
    }
}

/// Makes a call with the turn that is held. The next of the `ready` searches is the last one.
pub(crate) fn ask<J: Strategy>(
    farm: &mut Farm<J>,
    hand: &mut Option<Turn<J>>,
    ready: &mut Vec<Planned<J>>,
    tenant: u32,
    call: Call,
) -> CallAnswer
    requires { IfSome hand.old (λ turn. IsTurn turn.slice turn.ran (J.meaning turn.search)) }
    ensures { IfSome hand.new (λ turn. IsTurn turn.slice turn.ran (J.meaning turn.search)) }
{
    match call {
        Call::Submit(_, quanta, _) => submit(farm, tenant, quanta, ready.pop()),
        Call::Take(seq, slice) => hold(farm, hand, tenant, seq, slice),
        Call::Give => give_held(farm, hand, true),
        Call::GiveUnrun => give_held(farm, hand, false),
        Call::Abandon => abandon_held(hand),
        Call::Turn(seq, slice) => run_turn(farm, tenant, seq, slice),
        _ => command(farm, tenant, call),
    }
}
