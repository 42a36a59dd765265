//! Whether each activity has a mode in which it could run alone.
ghost use Rattle.std.specs.Prelude.{◌≡◌, ◌<◌, IfOk};
ghost use Rattle.mrcpsp.specs.Project.{size};
ghost use Rattle.solve_cli.specs.Improved.{can_run, can_all_run};

use mrcpsp::Project;
use serial_sgs::Board;
use std::alloc::{AllocError, Global};

/// Whether the activity has an executable mode.
#[tactic(auto, using(crate::proofs::ExecutableLemmas::run_rules))]
fn can_run(board: &Board, project: &Project, activity: usize) -> bool
    requires board { board.now.project ≡ project.now }
    requires activity { activity < size project.now }
    ensures { result ≡ can_run project.now activity }
{
    for mode in 0..project.mode_count(activity) {
        if board.is_executable(activity, mode) {
            return true;
        }
    }
    false
}

/// Whether each activity has one.
#[tactic(auto, using(crate::proofs::ExecutableLemmas::all_run_rules))]
pub(crate) fn can_all_run(alloc: Global, project: &Project) -> Result<bool, AllocError>
    ensures { IfOk result (λ can. can ≡ can_all_run project.now) }
{
    let board = Board::new(alloc, project)?;
    for activity in 0..project.size() {
        if !can_run(&board, project, activity) {
            return Ok(false);
        }
    }
    Ok(true)
}
