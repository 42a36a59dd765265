ghost use Rattle.std.specs.Prelude.{◌≡◌, ◌≢◌, ◌<◌, ◌≤◌, [], ◌∷◌, None, length, drop, map, All, IfOk, IfErr, IfSome};
ghost use Rattle.std.specs.Vec.{vec_capacity};
ghost use Rattle.turn_lock.specs.History.{entries_of};
ghost use Rattle.turn_lock.specs.Rule.{opened};
ghost use Rattle.turn_lock.specs.Plays.{having_ended, having_split, newcomer, Holds, MayEnd, BothSeen, Called, AreCalled, Ended};
ghost use Rattle.turn_lock.specs.Values.{IsPassOf, Keeps, AreKept};
ghost use Rattle.turn_lock.specs.declared.view.Stage.TheVariants.{Idle, Turn};

use crate::kept::{Kept, Queries, Runs};
use crate::rule::{InTurns, Learn, Release, SplitOff, Take, TakeIn, Tell};
use crate::view::View;
use atomic_table::{Refused, Seat, Table};
use std::alloc::{AllocFailed, Global};
use std::marker::Model;
use std::snapshot::Snapshot;
use std::sync::Wait;
use std::thread::yield_now;

const FREE: u64 = 0;

const TRIES: u32 = 64;

type LockTable<T> = Table<
    Option<T>,
    View<<T as Kept>::Opening, <T as Kept>::Event>,
    Snapshot<T>,
    InTurns<T>,
    Global,
>;

type Chair<T> = Seat<Option<T>, View<<T as Kept>::Opening, <T as Kept>::Event>>;

/// A `TurnLock` is a value that threads call one at a time, and the history of their calls.
#[derive(Drop)]
pub struct TurnLock<T: Kept> {
    table: LockTable<T>,
}

impl<T: Kept> Model for TurnLock<T> {
    ghost use Rattle.std.specs.Prelude.{◌≡◌};
    ghost use Rattle.turn_lock.specs.Values.{LockValue};

    ghost Value = { LockValue T.Opening };

    ghost view = { λ l. record { table = l.table.shared.table_id; opening = T.opening l.table.shared.key.value } };

    ghost invariant = { λ l. (l.table.shared.table_id.words ≡ 1) × (l.table.shared.table_id.slots ≡ 1) };
}

/// A `Pass` is the right to call a lock's value, with what is known of the history.
#[derive(Drop)]
pub struct Pass<T: Kept> {
    seat: Chair<T>,
}

impl<T: Kept> Model for Pass<T> {
    ghost use Rattle.std.specs.Prelude.{◌≡◌, []};
    ghost use Rattle.turn_lock.specs.declared.view.Stage.TheVariants.{Idle};
    ghost use Rattle.turn_lock.specs.Values.{PassValue};

    ghost Value = { PassValue T.Opening T.Event };

    ghost view = { λ p. record { table = p.seat.table_id; view = p.seat.me.0 } };

    ghost invariant = { λ p. (p.seat.me.1 ≡ []) × (p.seat.me.0.stage ≡ Idle) };
}

impl<T: Kept + Drop> TurnLock<T> {
    /// A lock of a value without events, and its first pass. Without memory it returns `value`.
    pub fn new(alloc: Global, value: T) -> Result<(TurnLock<T>, Pass<T>), AllocFailed<T>>
        requires { T.events value ≡ [] }
        ensures lock { IfOk result (λ r. (r.0.opening ≡ T.opening value) × IsPassOf r.0 r.1) }
        ensures pass { IfOk result (λ r. r.1.view ≡ opened (T.opening value)) }
        ensures err { IfErr result (λ e. e.value ≡ value) }
    {
        let Ok(mut slots) = Vec::with_capacity(alloc, 1) else {
            return Err(AllocFailed { value });
        };
        let about = Snapshot::of(&value);
        slots.push_reserved(Some(value));
        match Table::new(alloc, &[FREE], slots, &about) {
            Ok((table, seat)) => Ok((TurnLock { table }, Pass { seat })),
            Err(Refused { mut slots }) => {
                let value = slots.pop().unwrap().unwrap();
                Err(AllocFailed { value })
            }
        }
    }

    /// Waits for the turn. The word is then the number of its calls.
    fn take<R: Wait>(&self, rt: &R, seat: &mut Chair<T>, count: u64) -> T
        requires own { seat.old.table_id ≡ self.now.table }
        requires some { 0 < count }
        requires idle { (seat.old.me.0.stage ≡ Idle) × (seat.old.me.1 ≡ []) }
        ensures own { seat.new.table_id ≡ seat.old.table_id }
        ensures took { Holds T.opening T.events T.relation seat.old.me.0 count result seat.new.me }
    {
        let shared = &self.table.shared;
        let mut tries: u32 = 0;
        for _ in rt.forever() {
            if shared.compare_exchange::<Take<T>>(seat, 0, FREE, count) == FREE {
                return shared.exchange(seat, 0, None).unwrap();
            }
            if tries < TRIES {
                tries += 1;
            } else {
                yield_now();
            }
        }
        unreachable!()
    }

    fn end_turn(&self, seat: &mut Chair<T>, value: T)
        requires own { seat.old.table_id ≡ self.now.table }
        requires turn { (seat.old.me.0.stage ≡ Turn) × (seat.old.me.1 ≡ (0, None) ∷ []) }
        requires value { MayEnd T.opening T.events T.relation seat.old.me.0 value }
        ensures own { seat.new.table_id ≡ seat.old.table_id }
        ensures made { seat.new.me
            ≡ (having_ended seat.old.me.0 (drop (length seat.old.me.0.seen) (T.events value)), []) }
    {
        let shared = &self.table.shared;
        drop(shared.exchange(seat, 0, Some(value)));
        shared.store::<Release<T>>(seat, 0, FREE);
    }

    /// Returns a pass for another thread, with this pass's knowledge and no calls of its own.
    pub fn split_pass(&self, pass: &mut Pass<T>) -> Pass<T>
        requires own { IsPassOf self.now pass.old }
        ensures split { pass.new ≡ record pass.old { view = having_split pass.old.view } }
        ensures own { IsPassOf self.now result }
        ensures new { result.view ≡ newcomer pass.old.view result.view.number }
        ensures apart { result.view.number ≢ pass.old.view.number }
        ensures unseen { entries_of result.view.number pass.old.view.seen ≡ [] }
    {
        let shared = &self.table.shared;
        let mut seat = shared.split_seat::<SplitOff>(&mut pass.seat);
        shared.load::<Tell>(&mut seat, 0);
        Pass { seat }
    }

    /// Ends `other`. `pass` then knows what either had seen, and counts the splits of both.
    pub fn join_pass(&self, pass: &mut Pass<T>, other: Pass<T>)
        requires own { IsPassOf self.now pass.old }
        requires other { IsPassOf self.now other }
        ensures own { IsPassOf self.now pass.new }
        ensures both { BothSeen T.relation pass.old.view other.view pass.new.view }
    {
        let Pass { seat } = other;
        let shared = &self.table.shared;
        shared.join_seat::<TakeIn>(&mut pass.seat, seat);
        shared.load::<Learn<T>>(&mut pass.seat, 0);
    }

    /// The value, or `None` if a turn is still held: a pass was then lost during a call.
    pub fn close(self, pass: Pass<T>) -> Option<T>
        requires own { IsPassOf self pass }
        ensures { IfSome result (λ value. Ended T.opening T.events T.relation pass.view value) }
    {
        let TurnLock { table } = self;
        let Pass { seat } = pass;
        let mut closed = table.close_with(seat);
        let word = closed.word(0);
        let value = closed.take(0);
        closed.free();
        if word == FREE { value } else { None }
    }
}

/// Answers `queries` in their order. `replies` has room for all.
fn answer_all<T: Kept + Queries<Says = <T as Kept>::Said, Tells = <T as Kept>::Told>>(
    value: &mut T,
    queries: &[T::Query],
    replies: &mut Vec<T::Reply>,
)
    requires can { All (λ query. (t : T) → T.opening t ≡ T.opening value.old → T.can t query) queries.now }
    requires keeps { All (λ query. (t : T) (a : T.Reply) (u : T) → T.gives t query a u
        → Keeps T.opening T.events T.relation t (T.asked query) (T.replied a) u) queries.now }
    requires none { replies.old.items ≡ [] }
    requires room { length queries.now ≤ vec_capacity replies.old }
    ensures kept { AreKept T.opening T.events T.relation value.old
        (map T.asked queries.now) (map T.replied replies.new.items) value.new }
    ensures capacity { vec_capacity replies.new ≡ vec_capacity replies.old }
{
    for query in queries {
        replies.push_reserved(value.answer(query));
    }
}

impl<T: Kept + Runs<Says = <T as Kept>::Said, Tells = <T as Kept>::Told> + Drop> TurnLock<T> {
    /// Waits for the turn, and makes one call. Its event is then the last that `pass` has seen.
    pub fn with_turn<R: Wait>(&self, rt: &R, pass: &mut Pass<T>, call: T::Call) -> T::Answer
        requires own { IsPassOf self.now pass.old }
        requires can { (t : T) → T.opening t ≡ self.now.opening → T.may t call }
        requires keeps { (t : T) (a : T.Answer) (u : T) → T.does t call a u
            → Keeps T.opening T.events T.relation t (T.said call) (T.told a) u }
        ensures own { IsPassOf self.now pass.new }
        ensures called { Called T.relation pass.old.view (T.said call) (T.told result) pass.new.view }
    {
        let mut value = self.take(rt, &mut pass.seat, 1);
        let answer = value.apply(call);
        self.end_turn(&mut pass.seat, value);
        answer
    }
}

impl<T: Kept + Queries<Says = <T as Kept>::Said, Tells = <T as Kept>::Told> + Drop> TurnLock<T> {
    /// Waits for the turn, and answers `queries` in it, in their order: no other pass calls between
    /// them. Without queries it does not wait.
    pub fn with_queries<R: Wait>(
        &self,
        rt: &R,
        pass: &mut Pass<T>,
        queries: &[T::Query],
        replies: &mut Vec<T::Reply>,
    )
        requires own { IsPassOf self.now pass.old }
        requires can { All (λ query. (t : T) → T.opening t ≡ self.now.opening → T.can t query) queries.now }
        requires keeps { All (λ query. (t : T) (a : T.Reply) (u : T) → T.gives t query a u
            → Keeps T.opening T.events T.relation t (T.asked query) (T.replied a) u) queries.now }
        requires none { replies.old.items ≡ [] }
        requires room { length queries.now ≤ vec_capacity replies.old }
        ensures own { IsPassOf self.now pass.new }
        ensures called { AreCalled T.relation pass.old.view
            (map T.asked queries.now) (map T.replied replies.new.items) pass.new.view }
        ensures capacity { vec_capacity replies.new ≡ vec_capacity replies.old }
    {
        if queries.is_empty() {
            return;
        }
        let mut value = self.take(rt, &mut pass.seat, queries.len() as u64);
        answer_all(&mut value, queries, replies);
        self.end_turn(&mut pass.seat, value);
    }
}
