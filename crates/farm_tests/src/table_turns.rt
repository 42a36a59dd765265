//! The line of a job, and turns of it.
ghost use Rattle.std.specs.Prelude.{◌≡◌, false};

use crate::table_moves::{send, take_back};
use job_table::{Job, JobTable, Phase};
use strategy::{Strategy, Verdict};

/// A job's phase, nodes, quanta and best schedule.
#[derive(Clone, Copy, PartialEq)]
pub(crate) struct Line {
    pub(crate) phase: Phase,
    pub(crate) nodes: u64,
    pub(crate) left: u64,
    pub(crate) best: Option<u32>,
    pub(crate) verdict: Verdict,
}

/// A new job with 6 quanta.
pub(crate) const FRESH: Line = Line {
    phase: Phase::Waiting,
    nodes: 0,
    left: 6,
    best: None,
    verdict: Verdict::Going,
};

fn line_of<J>(job: &Job<J>) -> Line {
    Line {
        phase: job.phase(),
        nodes: job.nodes(),
        left: job.left(),
        best: job.makespan(),
        verdict: job.verdict(),
    }
}

/// Whether `line` is that of the tenant's job 1.
pub(crate) fn is_told<J>(table: &JobTable<J>, tenant: u32, line: Line) -> bool {
    match table.find(tenant, 1) {
        Some(job) => line_of(job) == line,
        None => false,
    }
}

/// Runs at most `most` nodes, while the search holds quanta and is not over. Returns their number.
pub(crate) fn run<S: Strategy>(search: &mut S, most: u64) -> u64
    requires { (S.meaning search.old).taken ≡ false }
    ensures { (S.meaning search.new).taken ≡ false }
{
    let before = search.nodes();
    for _ in 0..most {
        if search.closed() || search.left() == 0 {
            break;
        }
        search.advance();
    }
    search.nodes().saturating_sub(before)
}

/// Returns the nodes that ran, or `None` if the job was not sent.
pub(crate) fn turn<J: Strategy>(
    table: &mut JobTable<J>,
    tenant: u32,
    seq: u64,
    slice: u64,
) -> Option<u64> {
    let Some(mut search) = send(table, tenant, seq, slice) else {
        return None;
    };
    let ran = run(&mut search, slice);
    match take_back(table, tenant, seq, slice, ran, search) {
        Ok(()) => Some(ran),
        Err(_) => None,
    }
}
