//! A script is played on a farm of its own.
ghost use Rattle.std.specs.Prelude.{◌≡◌, IfSome};
ghost use Rattle.farm_core.specs.Turn.{IsTurn};

use crate::calls::{Call, CallAnswer, Shown, ask, numbers_of, put_back, snapshot};
use crate::fixtures::{Planned, Purses, Wanted, all_planned, farm_of};
use farm_core::{Event, Farm, Turn};
use std::alloc::{AllocError, Global};
use std::process::Abort;
use strategy::{Kind, Strategy};

/// A tenant's number, its call, and the answer.
#[derive(Clone, Copy)]
pub(crate) struct Step(pub(crate) u32, pub(crate) Call, pub(crate) CallAnswer);

/// A `Manner` is what becomes of a call that finds no memory.
#[derive(Clone, Copy, PartialEq)]
pub(crate) enum Manner {
    /// There is memory for each call.
    Ample,
    /// The call changes nothing, and is made again.
    Scarce,
}

/// The length of the journal, a tenant's ledger, and its jobs 1 to 3.
#[derive(Clone, Copy, PartialEq)]
pub(crate) struct Seen {
    entries: usize,
    book: [u64; 4],
    jobs: [Option<Shown>; 3],
}

/// Leaves no entry.
pub(crate) fn seen_of<J>(farm: &Farm<J>, tenant: u32) -> Option<Seen> {
    if farm.tenants() <= tenant {
        return None;
    }
    Some(Seen {
        entries: farm.journal().len(),
        book: numbers_of(&farm.book(tenant)),
        jobs: [
            snapshot(farm, tenant, 1),
            snapshot(farm, tenant, 2),
            snapshot(farm, tenant, 3),
        ],
    })
}

/// Neither the give of a turn nor an accepted cancel wants memory.
fn may_want_memory(step: Step) -> bool {
    match step {
        Step(_, Call::Give | Call::GiveUnrun | Call::Abandon, _) => false,
        Step(_, Call::Cancel(_), CallAnswer::Told(_)) => false,
        _ => true,
    }
}

/// A call that finds no memory has changed nothing, and is made again. A submit has a second search
/// for that.
fn insist<J: Strategy>(
    rt: &impl Abort,
    farm: &mut Farm<J>,
    hand: &mut Option<Turn<J>>,
    ready: &mut Vec<Planned<J>>,
    step: Step,
) -> CallAnswer
    requires { IfSome hand.old (λ turn. IsTurn turn.slice turn.ran (J.meaning turn.search)) }
    ensures { IfSome hand.new (λ turn. IsTurn turn.slice turn.ran (J.meaning turn.search)) }
{
    let Step(tenant, call, _) = step;
    let before = seen_of(farm, tenant);
    let told = ask(farm, hand, ready, tenant, call);
    if told == CallAnswer::NoMemory {
        assert!(rt; may_want_memory(step), "a call that takes no memory");
        assert!(rt; seen_of(farm, tenant) == before, "something has changed");
        return ask(farm, hand, ready, tenant, call);
    }
    if let Call::Submit(_, _, _) = call {
        drop(ready.pop());
    }
    told
}

fn make<J: Strategy>(
    rt: &impl Abort,
    farm: &mut Farm<J>,
    hand: &mut Option<Turn<J>>,
    ready: &mut Vec<Planned<J>>,
    step: Step,
    manner: Manner,
) -> CallAnswer
    requires { IfSome hand.old (λ turn. IsTurn turn.slice turn.ran (J.meaning turn.search)) }
    ensures { IfSome hand.new (λ turn. IsTurn turn.slice turn.ran (J.meaning turn.search)) }
{
    let Step(tenant, call, _) = step;
    match manner {
        Manner::Ample => ask(farm, hand, ready, tenant, call),
        Manner::Scarce => insist(rt, farm, hand, ready, step),
    }
}

/// `at` is the place of the call in the script.
fn compare(rt: &impl Abort, told: CallAnswer, wanted: CallAnswer, name: &str, at: usize) {
    assert!(rt; told == wanted, "{name}, call {at}");
}

/// A turn that is held in the end is given back as it is.
pub(crate) fn play_all<J: Strategy>(
    rt: &impl Abort,
    farm: &mut Farm<J>,
    mut ready: Vec<Planned<J>>,
    stage: Stage,
    steps: &[Step],
) {
    let mut hand = None;
    for (at, step) in steps.iter().enumerate() {
        let told = make(rt, farm, &mut hand, &mut ready, *step, stage.manner);
        compare(rt, told, step.2, stage.name, at);
    }
    if let Some(turn) = hand {
        put_back(farm, turn);
    }
}

/// An entry of the journal: a submit by its kind and quanta, a give by the nodes that ran.
#[derive(Clone, Copy, PartialEq)]
pub(crate) enum Noted {
    Submit(Kind, u64),
    Fund(u64, u64),
    Status(u64),
    Fetch(u64),
    Cancel(u64),
    Forget(u64),
    Ledger,
    Take(u64, u64),
    Give(u64, u64),
}

fn noted_by(event: &Event) -> Noted {
    match event {
        Event::Submit(noted, quanta) => Noted::Submit(noted.plan().kind, *quanta),
        Event::Fund(seq, quanta) => Noted::Fund(*seq, *quanta),
        Event::Status(seq) => Noted::Status(*seq),
        Event::Fetch(seq) => Noted::Fetch(*seq),
        Event::Cancel(seq) => Noted::Cancel(*seq),
        Event::Forget(seq) => Noted::Forget(*seq),
        Event::Ledger => Noted::Ledger,
        Event::Take(seq, slice) => Noted::Take(*seq, *slice),
        Event::Give(seq, ran) => Noted::Give(*seq, *ran),
    }
}

fn compare_journal<J>(rt: &impl Abort, farm: &Farm<J>, tenant: u32, entries: &[Noted], name: &str) {
    let mut rest = entries.iter();
    for entry in farm.journal() {
        if entry.tenant == tenant {
            assert!(rt;
                rest.next().copied() == Some(noted_by(&entry.event)),
                "{name}"
            );
        }
    }
    assert!(rt; rest.next().is_none(), "{name}, an entry less");
}

/// The last submit comes first. If memory may be scarce, each comes twice.
pub(crate) fn submits_of(
    alloc: Global,
    manner: Manner,
    steps: &[Step],
) -> Result<Vec<Wanted>, AllocError> {
    let mut submits = Vec::new(alloc);
    for step in steps.iter().rev() {
        if let Step(tenant, Call::Submit(kind, _, text), _) = *step {
            let wanted = Wanted { tenant, kind, text };
            submits.push(wanted)?;
            if manner == Manner::Scarce {
                submits.push(wanted)?;
            }
        }
    }
    Ok(submits)
}

/// A name for messages, a's entries of the journal, and the manner.
#[derive(Clone, Copy)]
pub(crate) struct Stage {
    pub(crate) name: &'static str,
    pub(crate) entries: u64,
    pub(crate) manner: Manner,
}

/// Compares the journals if a's and b's entries are given.
fn play_with<J: Strategy>(
    rt: &impl Abort,
    alloc: Global,
    stage: Stage,
    ready: Vec<Planned<J>>,
    steps: &[Step],
    journals: [Option<&[Noted]>; 2],
) {
    let mut farm = farm_of(rt, alloc, stage.entries);
    play_all(rt, &mut farm, ready, stage, steps);
    if let Some(entries) = journals[0] {
        compare_journal(rt, &farm, 0, entries, stage.name);
    }
    if let Some(entries) = journals[1] {
        compare_journal(rt, &farm, 1, entries, stage.name);
    }
}

/// Compares the journals if a's and b's entries are given, and at last the words of both tills.
pub(crate) fn play(
    rt: &impl Abort,
    alloc: Global,
    stage: Stage,
    steps: &[Step],
    journals: [Option<&[Noted]>; 2],
    words: [[u64; 3]; 2],
) {
    let mut purses = Purses::new(rt, alloc);
    let submits = submits_of(alloc, stage.manner, steps).expect(rt, "no memory for the submits");
    let ready = all_planned(rt, alloc, &mut purses, &submits);
    play_with(rt, alloc, stage, ready, steps, journals);
    let name = stage.name;
    assert!(rt; purses.words() == words, "{name}, the words of the tills");
}
