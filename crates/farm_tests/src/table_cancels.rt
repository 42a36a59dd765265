//! Cancels at every phase of a job.
ghost use Rattle.std.specs.Prelude.{◌≡◌, false, IfSome};

use crate::table_moves::{cancel, phase_of, send, take_back};
use crate::table_turns::{run, turn};
use job_table::{JobTable, Phase};
use std::process::Abort;
use strategy::Strategy;

/// What comes before the cancel.
#[derive(Clone, Copy)]
pub(crate) enum Before {
    Nothing,
    /// A turn with a slice of nodes is taken, run and given back.
    Turn(u64),
    /// A turn of at most 2 nodes is taken.
    Out,
    /// `Out`, and then the job is cancelled.
    Leaving,
    Cancelled,
}

/// A `Case` is a cancel of a job: what comes before it, and whether it is accepted. Then a turn
/// that is out runs and comes back. The words are POOL, SPENT and GRANTED in the end.
#[derive(Clone, Copy)]
pub(crate) struct Case {
    pub(crate) name: &'static str,
    pub(crate) quanta: u32,
    before: Before,
    cancels: bool,
    phase: Phase,
    runs: u64,
    end: Phase,
    pub(crate) words: [u64; 3],
}

/// Each phase, and turns that are given back run and unrun.
pub(crate) const CASES: [Case; 8] = [
    Case {
        name: "a fresh job",
        quanta: 6,
        before: Before::Nothing,
        cancels: true,
        phase: Phase::Cancelled,
        runs: 0,
        end: Phase::Cancelled,
        words: [100, 0, 100],
    },
    Case {
        name: "a job after a turn",
        quanta: 6,
        before: Before::Turn(2),
        cancels: true,
        phase: Phase::Cancelled,
        runs: 0,
        end: Phase::Cancelled,
        words: [98, 2, 100],
    },
    Case {
        name: "a job that is out",
        quanta: 6,
        before: Before::Out,
        cancels: true,
        phase: Phase::Leaving(2),
        runs: 2,
        end: Phase::Cancelled,
        words: [98, 2, 100],
    },
    Case {
        name: "a turn given back unrun",
        quanta: 6,
        before: Before::Out,
        cancels: true,
        phase: Phase::Leaving(2),
        runs: 0,
        end: Phase::Cancelled,
        words: [100, 0, 100],
    },
    Case {
        name: "a dry job",
        quanta: 6,
        before: Before::Turn(10),
        cancels: true,
        phase: Phase::Cancelled,
        runs: 0,
        end: Phase::Cancelled,
        words: [94, 6, 100],
    },
    Case {
        name: "a closed job",
        quanta: 10,
        before: Before::Turn(10),
        cancels: false,
        phase: Phase::Closed,
        runs: 0,
        end: Phase::Closed,
        words: [91, 9, 100],
    },
    Case {
        name: "a leaving job",
        quanta: 6,
        before: Before::Leaving,
        cancels: false,
        phase: Phase::Leaving(2),
        runs: 2,
        end: Phase::Cancelled,
        words: [98, 2, 100],
    },
    Case {
        name: "a cancelled job",
        quanta: 6,
        before: Before::Cancelled,
        cancels: false,
        phase: Phase::Cancelled,
        runs: 0,
        end: Phase::Cancelled,
        words: [100, 0, 100],
    },
];

/// Returns the search of the turn that is then out.
fn begin<J: Strategy>(table: &mut JobTable<J>, before: Before) -> Option<J>
    ensures { IfSome result (λ search. (J.meaning search).taken ≡ false) }
{
    match before {
        Before::Nothing => {}
        Before::Turn(slice) => {
            let _ran = turn(table, 0, 1, slice);
        }
        Before::Out => return send(table, 0, 1, 2),
        Before::Leaving => {
            let search = send(table, 0, 1, 2);
            let _told = cancel(table, 0, 1);
            return search;
        }
        Before::Cancelled => {
            let _told = cancel(table, 0, 1);
        }
    }
    None
}

/// Runs nodes of a turn of at most 2. Returns whether the table took it.
fn give<J: Strategy>(table: &mut JobTable<J>, mut search: J, runs: u64) -> bool
    requires { (J.meaning search).taken ≡ false }
{
    let ran = run(&mut search, runs);
    take_back(table, 0, 1, 2, ran, search).is_ok()
}

pub(crate) fn cancel_in<J: Strategy>(rt: &impl Abort, table: &mut JobTable<J>, case: &Case) {
    let name = case.name;
    let out = begin(table, case.before);
    assert!(rt; cancel(table, 0, 1) == case.cancels, "{name}");
    assert!(rt;
        phase_of(table, 0, 1) == Some(case.phase),
        "{name}, cancelled"
    );
    if let Some(search) = out {
        assert!(rt; give(table, search, case.runs), "{name}, given back");
    }
    assert!(rt;
        phase_of(table, 0, 1) == Some(case.end),
        "{name}, in the end"
    );
}
