use crate::kept::Kept;
use crate::view::View;
use atomic_table::{Join, Play, Split, TableRule};
use std::marker::PhantomData;
use std::snapshot::Snapshot;

/// An `InTurns` is the rule of a lock's table. Of its key, a value, only the opening is read.
pub struct InTurns<T> {
    marker: PhantomData<T>,
}

impl<T: Kept> TableRule<Option<T>, View<T::Opening, T::Event>, Snapshot<T>> for InTurns<T> {
    ghost use Rattle.turn_lock.specs.Rule.{IsKept, opened};

    ghost holds = { λ key. IsKept T.opening T.events T.relation (T.opening key.value) };

    ghost first = { λ key. opened (T.opening key.value) };
}

pub(crate) struct SplitOff;

impl<O, E> Split<View<O, E>> for SplitOff {
    ghost use Rattle.turn_lock.specs.Plays.{having_split, split_off};

    ghost left = { having_split };

    ghost right = { split_off };
}

pub(crate) struct TakeIn;

impl<O, E> Join<View<O, E>> for TakeIn {
    ghost use Rattle.turn_lock.specs.Plays.{taking_in};
    ghost use Rattle.turn_lock.specs.Rule.{spent};

    ghost both = { taking_in };

    ghost spent = { spent };
}

/// A load, by which a new pass learns its number.
pub(crate) struct Tell;

impl<S, O, E> Play<S, View<O, E>> for Tell {
    ghost use Rattle.turn_lock.specs.Plays.{told};

    ghost then = { told };
}

/// A load, by which a pass that took in another learns that both saw one history.
pub(crate) struct Learn<T> {
    marker: PhantomData<T>,
}

impl<T: Kept> Play<Option<T>, View<T::Opening, T::Event>> for Learn<T> {
    ghost use Rattle.turn_lock.specs.Plays.{learned};

    ghost then = { learned T.relation };
}

pub(crate) struct Take<T> {
    marker: PhantomData<T>,
}

impl<T: Kept> Play<Option<T>, View<T::Opening, T::Event>> for Take<T> {
    ghost use Rattle.turn_lock.specs.Plays.{took};

    ghost then = { took T.opening T.events T.relation };
}

pub(crate) struct Release<T> {
    marker: PhantomData<T>,
}

impl<T: Kept> Play<Option<T>, View<T::Opening, T::Event>> for Release<T> {
    ghost use Rattle.turn_lock.specs.Plays.{released};

    ghost then = { released T.opening T.events T.relation };
}
