//! Random changes of a point.
use crate::chance::Chance;
use crate::point::ListSchedule;
use crate::rows::at;
use crate::tables::ModeTables;

const MOST_CHANGES: u32 = 64;

/// The draws for a second activity that pays.
const MOST_DRAWS: u32 = 10;

/// A share of 2^32, as the two below.
const HALF: u32 = 1 << 31;

const THREE_TENTHS: u32 = 1_288_490_189;

const TENTH: u32 = 429_496_730;

/// The places of a list that a change has touched.
#[derive(Clone, Copy)]
pub(crate) struct ChangedPlaces {
    /// The first place at which the list or a mode differs.
    pub(crate) first: u32,
    /// The last place at which the list differs.
    pub(crate) last: u32,
    pub(crate) keeps_modes: bool,
}

impl ChangedPlaces {
    fn none(size: u32) -> ChangedPlaces {
        ChangedPlaces {
            first: size,
            last: 0,
            keeps_modes: true,
        }
    }

    pub(crate) fn whole() -> ChangedPlaces {
        ChangedPlaces {
            first: 0,
            last: u32::MAX,
            keeps_modes: false,
        }
    }

    fn touch_mode(&mut self, place: u32) {
        self.first = self.first.min(place);
        self.keeps_modes = false;
    }
}

/// The first place behind the activity's predecessors.
fn first_place(tables: &ModeTables, point: &ListSchedule, activity: u32) -> u32 {
    let mut first = 0;
    for before in tables.before.of(activity) {
        first = first.max(at(&point.places, *before).wrapping_add(1));
    }
    first
}

/// The last place before the activity's successors.
fn last_place(tables: &ModeTables, point: &ListSchedule, activity: u32) -> u32 {
    let mut last = tables.size.saturating_sub(1);
    for after in tables.after.of(activity) {
        last = last.min(at(&point.places, *after).saturating_sub(1));
    }
    last
}

fn move_back(point: &mut ListSchedule, from: u32, to: u32) {
    let activity = at(&point.order, from);
    for place in from..to {
        let next = at(&point.order, place.wrapping_add(1));
        point.place(place, next);
    }
    point.place(to, activity);
}

fn move_forward(point: &mut ListSchedule, from: u32, to: u32) {
    let activity = at(&point.order, from);
    for place in (to..from).rev() {
        let last = at(&point.order, place);
        point.place(place.wrapping_add(1), last);
    }
    point.place(to, activity);
}

/// Moves a random activity to another place between its predecessors and its successors.
fn shift(
    tables: &ModeTables,
    chance: &mut Chance,
    point: &mut ListSchedule,
    change: &mut ChangedPlaces,
) {
    let activity = chance.below(tables.size);
    let from = at(&point.places, activity);
    let first = first_place(tables, point, activity);
    let last = last_place(tables, point, activity);
    if last <= first {
        return;
    }
    let drawn = first.wrapping_add(chance.below(last.wrapping_sub(first)));
    let to = if drawn < from {
        move_forward(point, from, drawn);
        drawn
    } else {
        move_back(point, from, drawn.wrapping_add(1));
        drawn.wrapping_add(1)
    };
    change.first = change.first.min(from).min(to);
    change.last = change.last.max(from).max(to);
}

pub(crate) fn chooser(tables: &ModeTables, chance: &mut Chance) -> u32 {
    let count = tables.choosers.len().min(u32::MAX as usize) as u32;
    at(&tables.choosers, chance.below(count))
}

pub(crate) fn other_mode(
    tables: &ModeTables,
    chance: &mut Chance,
    point: &ListSchedule,
    activity: u32,
) -> u32 {
    let (first, end) = tables.modes_of(activity);
    let others = end.saturating_sub(first).saturating_sub(1);
    let drawn = first.wrapping_add(chance.below(others));
    if drawn < at(&point.modes, activity) {
        drawn
    } else {
        drawn.wrapping_add(1)
    }
}

/// Changes the mode of a second activity for an excess of at most `most`, if a few draws find one.
fn pay(
    tables: &ModeTables,
    chance: &mut Chance,
    point: &mut ListSchedule,
    change: &mut ChangedPlaces,
    (first, most): (u32, u64),
) {
    for _ in 0..MOST_DRAWS {
        let activity = chooser(tables, chance);
        if activity != first {
            let old = at(&point.modes, activity);
            let mode = other_mode(tables, chance, point, activity);
            point.set_mode(tables, activity, mode);
            if point.excess(tables) <= most {
                change.touch_mode(at(&point.places, activity));
                return;
            }
            point.set_mode(tables, activity, old);
        }
    }
}

/// Changes the mode of a random activity; sometimes a second one pays for the first.
fn switch(
    tables: &ModeTables,
    chance: &mut Chance,
    point: &mut ListSchedule,
    change: &mut ChangedPlaces,
) {
    let is_pair = chance.happens(THREE_TENTHS);
    let activity = chooser(tables, chance);
    let excess = point.excess(tables);
    let mode = other_mode(tables, chance, point, activity);
    point.set_mode(tables, activity, mode);
    change.touch_mode(at(&point.places, activity));
    if is_pair {
        pay(tables, chance, point, change, (activity, excess));
    }
}

/// Changes a point a little, and returns where it differs.
pub(crate) fn vary(
    tables: &ModeTables,
    chance: &mut Chance,
    point: &mut ListSchedule,
) -> ChangedPlaces {
    let mut change = ChangedPlaces::none(tables.size);
    for _ in 0..MOST_CHANGES {
        if tables.choosers.is_empty() || chance.happens(HALF) {
            shift(tables, chance, point, &mut change);
        } else {
            switch(tables, chance, point, &mut change);
        }
        if !chance.happens(TENTH) {
            break;
        }
    }
    change
}
