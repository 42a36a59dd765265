use crate::fixtures::{DIAMOND, GREEDY, project};
use mrcpsp::Project;
use serial_sgs::Board;
use std::alloc::Global;
use std::process::Abort;

fn board_of(rt: &impl Abort, alloc: Global, project: &Project) -> Board {
    Board::new(alloc, project).expect(rt, "no memory for a board")
}

fn earliest(rt: &impl Abort, board: &Board, activity: usize, mode: usize, from: u32) -> u32 {
    assert!(rt; activity < board.project().size());
    assert!(rt; mode < board.project().mode_count(activity));
    assert!(rt; board.is_executable(activity, mode));
    assert!(rt; from <= 1_000_000_000);
    board.earliest(activity, mode, from)
}

fn place(rt: &impl Abort, board: &mut Board, activity: usize, from: u32) -> u32 {
    assert!(rt; activity < board.project().size());
    assert!(rt; 0 < board.project().mode_count(activity));
    assert!(rt; board.is_executable(activity, 0));
    assert!(rt; from <= 1_000_000_000);
    assert!(rt; !board.is_placed(activity));
    let start = board.earliest(activity, 0, from);
    assert!(rt; start <= 1_000_000_000);
    board.place(activity, 0, start);
    start
}

fn affordable_modes(rt: &impl Abort, board: &Board) -> [bool; 2] {
    assert!(rt; 2 < board.project().size());
    assert!(rt; board.project().mode_count(2) == 2);
    [board.is_affordable(2, 0), board.is_affordable(2, 1)]
}

#[test]
fn what_is_affordable(rt: HostRuntime) {
    let table = [
        (DIAMOND, "3 0", [false, true]),
        (DIAMOND, "3 1", [true, true]),
        (GREEDY, "3 0", [false, false]),
        (GREEDY, "3 1", [false, true]),
        (GREEDY, "3 2", [true, true]),
    ];
    for (text, capacities, affordable) in table {
        let project = project(&rt, rt.alloc(), text, capacities);
        let mut board = board_of(&rt, rt.alloc(), &project);
        assert!(rt; affordable_modes(&rt, &board) == affordable);
        place(&rt, &mut board, 0, 0);
        place(&rt, &mut board, 1, 0);
        assert!(rt; affordable_modes(&rt, &board) == affordable);
    }
}

#[test]
fn earliest_starts(rt: HostRuntime) {
    let project = project(&rt, rt.alloc(), DIAMOND, "3 1");
    let mut board = board_of(&rt, rt.alloc(), &project);
    let first = place(&rt, &mut board, 0, 0);
    let second = place(&rt, &mut board, 1, 3);
    assert!(rt; first == 0 && second == 3);
    // Period 2 is free, and period 3 is not.
    for (mode, from, start) in [(0, 0, 0), (0, 2, 6), (1, 2, 2)] {
        let found = earliest(&rt, &board, 2, mode, from);
        assert!(rt; found == start);
    }
}

fn compare(rt: &impl Abort, board: &Board, count: usize, makespan: u32) {
    assert!(rt; board.count() == count && board.placed().len() == count);
    assert!(rt; board.makespan() == makespan);
}

fn compare_placed(rt: &impl Abort, board: &Board) {
    assert!(rt; 3 < board.project().size());
    assert!(rt; board.is_eligible(2) && !board.is_eligible(3));
    assert!(rt; board.is_placed(1));
    assert!(rt; board.finish(1) == 6);
}

fn grow_and_shrink(rt: &impl Abort, board: &mut Board) {
    compare(rt, board, 0, 0);
    place(rt, board, 0, 0);
    place(rt, board, 1, 3);
    compare(rt, board, 2, 6);
    compare_placed(rt, board);
    assert!(rt; 0 < board.count());
    board.unplace_last();
    compare(rt, board, 1, 0);
    assert!(rt; !board.is_placed(1));
}

#[test]
fn boards_grow_and_shrink(rt: HostRuntime) {
    let project = project(&rt, rt.alloc(), DIAMOND, "3 1");
    let mut board = board_of(&rt, rt.alloc(), &project);
    grow_and_shrink(&rt, &mut board);
}
