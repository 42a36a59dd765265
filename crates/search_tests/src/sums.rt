//! The earliest start by its definition: period by period, with sums over what is placed.
use mrcpsp::Project;
use serial_sgs::{Board, Placement};

fn finish(project: &Project, place: Placement) -> u32 {
    if project.size() <= place.activity || project.mode_count(place.activity) <= place.mode {
        return 0;
    }
    place
        .start
        .saturating_add(project.duration(place.activity, place.mode))
}

fn load(project: &Project, place: Placement, resource: usize, time: u32) -> u32 {
    if project.size() <= place.activity || project.mode_count(place.activity) <= place.mode {
        return 0;
    }
    if project.renewables() <= resource || time < place.start || finish(project, place) <= time {
        return 0;
    }
    project.request(place.activity, place.mode, resource)
}

fn left(board: &Board, resource: usize, time: u32) -> u32 {
    if board.project().renewables() <= resource {
        return 0;
    }
    let mut left = board.project().capacity(resource);
    for place in board.placed() {
        left = left.saturating_sub(load(board.project(), *place, resource, time));
    }
    left
}

fn has_room(board: &Board, own: Placement, time: u32) -> bool {
    for resource in 0..board.project().renewables() {
        if left(board, resource, time) < load(board.project(), own, resource, time) {
            return false;
        }
    }
    true
}

fn is_ready(board: &Board, own: Placement) -> bool {
    for place in board.placed() {
        let size = board.project().size();
        if place.activity < size
            && own.activity < size
            && board.project().precedes(place.activity, own.activity)
            && own.start < finish(board.project(), *place)
        {
            return false;
        }
    }
    true
}

fn may_start(board: &Board, own: Placement) -> bool {
    for time in own.start..finish(board.project(), own) {
        if !has_room(board, own, time) {
            return false;
        }
    }
    is_ready(board, own)
}

/// The first period in `[from, 10,000)` in which the activity may start.
pub(crate) fn first_start(board: &Board, activity: usize, mode: usize, from: u32) -> Option<u32> {
    for start in from..10_000 {
        let own = Placement {
            activity,
            mode,
            start,
        };
        if may_start(board, own) {
            return Some(start);
        }
    }
    None
}
