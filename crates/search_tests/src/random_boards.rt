use crate::drawn::{Drawn, SMALL};
use crate::fixtures::{DIAMOND, project};
use crate::sum::Sum;
use crate::sums::first_start;
use serial_sgs::Board;
use std::alloc::Global;
use std::process::Abort;

/// Adds the earliest start of an unplaced activity, which has to be `first_start`. An eligible
/// activity is placed there.
fn place(
    rt: &impl Abort,
    sum: &mut Sum,
    board: &mut Board,
    activity: usize,
    mode: usize,
    from: u32,
) {
    if board.project().size() <= activity || board.project().mode_count(activity) <= mode {
        return;
    }
    if board.is_placed(activity) || !board.is_executable(activity, mode) || 10 < from {
        return;
    }
    let start = board.earliest(activity, mode, from);
    assert!(rt; first_start(board, activity, mode, from) == Some(start));
    sum.count();
    sum.add(start);
    if board.is_eligible(activity) && start <= 1_000_000_000 {
        board.place(activity, mode, start);
        sum.add(board.finish(activity));
    }
}

/// Adds what a board shows of a random activity, which is placed if it may be; sometimes the last
/// one is taken away.
fn add_step(rt: &impl Abort, sum: &mut Sum, board: &mut Board, drawn: &mut Drawn) {
    let size = board.project().size();
    let activity = drawn.below(size as u32) as usize;
    let (mode, from) = (drawn.below(3) as usize, drawn.below(10));
    if activity < size {
        let mode = mode % board.project().mode_count(activity);
        sum.add(u32::from(board.is_executable(activity, mode)));
        sum.add(u32::from(board.is_affordable(activity, mode)));
        sum.add(u32::from(board.is_eligible(activity)));
        place(rt, sum, board, activity, mode, from);
    }
    sum.add(board.makespan());
    if 0 < board.count() && drawn.below(6) == 0 {
        board.unplace_last();
    }
}

/// Places four activities in this order, the third one in `mode`.
fn place_all(
    rt: &impl Abort,
    alloc: Global,
    sum: &mut Sum,
    order: [usize; 4],
    mode: usize,
    from: u32,
) {
    let project = project(rt, alloc, DIAMOND, "3 1");
    let mut board = Board::new(alloc, &project).expect(rt, "no memory for a board");
    for activity in order {
        let mode = if activity == 2 { mode } else { 0 };
        place(rt, sum, &mut board, activity, mode, from);
    }
}

// Each board that a tree or a rule may fill for the worked project.
#[test]
fn boards_of_the_worked_project(rt: HostRuntime) {
    let mut sum = Sum::NONE;
    for from in 0..8 {
        for mode in [0, 1] {
            place_all(&rt, rt.alloc(), &mut sum, [0, 1, 2, 3], mode, from);
            place_all(&rt, rt.alloc(), &mut sum, [0, 2, 1, 3], mode, from);
        }
    }
    assert!(rt; sum.count == 128);
}

#[test]
fn boards_of_random_projects(rt: HostRuntime) {
    let mut drawn = Drawn::new(7);
    let mut sum = Sum::NONE;
    for _ in 0..1_000 {
        let project = drawn.project(&rt, rt.alloc(), SMALL);
        let mut board = Board::new(rt.alloc(), &project).expect(&rt, "no memory for a board");
        for _ in 0..12 {
            add_step(&rt, &mut sum, &mut board, &mut drawn);
        }
    }
    assert!(rt; sum.count == 6_637 && sum.sum == 2_551_684_494);
}
