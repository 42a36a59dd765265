//! The workers of a project, each in a thread of its own.
ghost use Rattle.std.specs.Prelude.{◌≡◌, IfOk, IfSome};
ghost use Rattle.std.specs.Option.{option_copied};
ghost use Rattle.price_search.specs.LowerBound.{TakesAtLeast};
ghost use Rattle.prover.specs.Answers.{IsAnswer};
ghost use Rattle.prover.specs.Known.{IsBest};

use crate::alone::{Allowance, Overseer, prove_alone};
use crate::herald::Herald;
use crate::known::{BestKnown, Known, Subject};
use crate::lanes::{Lane, Worker, work};
use crate::shared_work::SharedWork;
use crate::task::{Deadline, Pace, ProofTask, Proved};
use mrcpsp::Project;
use std::alloc::{AllocError, Global};
use std::marker::Brand;
use std::sync::atomic::{AtomicBool, AtomicU64};
use std::sync::{Mutex, Wait};
use std::thread;
use std::thread::Threads;
use std::time::{Clock, Instant};

/// The most activities of a project whose shorter schedules are asked for by clauses. In larger ones
/// no such question was answered within minutes, so those workers improve.
const MOST_BY_CLAUSES: usize = 80;

/// What a worker does, by its place among several.
fn lane_at(place: usize, activities: usize) -> Lane {
    if place > 1 && activities > MOST_BY_CLAUSES {
        return Lane::Improve;
    }
    match place {
        0 => Lane::Low,
        2 => Lane::Middle,
        3 => Lane::High,
        _ => Lane::Improve,
    }
}

/// Several workers of a project of `activities` activities.
fn workers(alloc: Global, jobs: usize, activities: usize) -> Result<Vec<Worker>, AllocError> {
    let mut workers = Vec::new(alloc);
    for place in 0..jobs {
        let lane = lane_at(place, activities);
        let seed = (place as u64).wrapping_mul(1_000_003).wrapping_add(1);
        workers.push(Worker { lane, seed })?;
    }
    Ok(workers)
}

/// A `Clerk` reports to a herald what the only worker has proved, and ends it at a deadline.
#[derive(Drop)]
struct Clerk<'a, R, H> {
    deadline: Deadline<'a, R>,
    herald: &'a H,
    shortest: Option<u32>,
    highest: u32,
}

fn is_shorter(shortest: Option<u32>, makespan: u32) -> bool {
    match shortest {
        Some(shortest) => makespan < shortest,
        None => true,
    }
}

impl<R: Wait + Clock, H: Herald> Overseer for Clerk<'_, R, H> {
    fn look(
        &mut self,
        project: &Project,
        _conflicts: u64,
        best: Option<&BestKnown>,
        bound: u32,
    ) -> bool
        requires best { IfSome (option_copied best) (IsBest project.now) }
        requires bound { TakesAtLeast project.now bound }
    {
        if bound > self.highest {
            self.highest = bound;
            self.herald.higher(project, bound);
        }
        if let Some(best) = best
            && is_shorter(self.shortest, best.makespan)
        {
            self.shortest = Some(best.makespan);
            self.herald.better(project, best, bound);
        }
        !self.deadline.is_over()
    }

    fn pace(&self) -> Option<Pace> {
        self.deadline.pace()
    }
}

fn prove_together<'a, F: Subject + Send + Sync, R: Threads + Wait + Clock + Sync, H: Herald + Sync>(
    alloc: Global,
    project: &'a Project,
    task: ProofTask<'a>,
    deadline: Deadline<'a, R>,
    herald: &'a H,
) -> Result<Proved, AllocError>
    requires { project.now ≡ F.project }
    ensures { IfOk result (λ proved. IsAnswer F.project proved.answer) }
{
    let workers = workers(alloc, task.jobs, project.size())?;
    let rt = deadline.rt;
    let known = Mutex::new(Known::<F>::new());
    let conflicts = AtomicU64::new(0);
    let is_teamed = AtomicBool::new(false);
    let is_called = AtomicBool::new(false);
    let shared = SharedWork {
        alloc,
        project,
        known: &known,
        conflicts: &conflicts,
        deadline,
        limits: task.limits,
        jobs: task.jobs,
        is_teamed: &is_teamed,
        is_called: &is_called,
        first: task.first,
        herald,
    };
    let shared = &shared;
    thread::map_vec(
        rt,
        workers,
        &|worker: Worker| -> () { work(shared, worker) },
    )?;
    Ok(Proved {
        answer: known.into_inner().into_answer(),
        conflicts: conflicts.into_inner(),
    })
}

/// Proves what the workers can within the limits, or until `task.stop` is set. The answer is true of
/// the project, whatever the workers did. Want of memory in a worker ends that worker. Without a
/// time limit the worker that raises the bound sets `task.stop` when it ends.
pub fn prove<R: Threads + Wait + Clock + Sync, H: Herald + Sync>(
    rt: &R,
    alloc: Global,
    project: &Project,
    task: ProofTask<'_>,
    herald: &H,
) -> Result<Proved, AllocError>
    ensures { IfOk result (λ proved. IsAnswer project.now proved.answer) }
{
    let Ok(begun) = Instant::now(rt) else {
        return Err(AllocError);
    };
    let deadline = Deadline {
        rt,
        begun,
        time: task.limits.time,
        stop: task.stop,
    };
    if task.jobs > 1 {
        return prove_together::<Brand, R, H>(alloc, project, task, deadline, herald);
    }
    let allowance = Allowance {
        words: task.limits.words,
        conflicts: task.limits.conflicts,
        is_endless: task.limits.time.is_some(),
    };
    let clerk = Clerk {
        deadline,
        herald,
        shortest: None,
        highest: 0,
    };
    Ok(prove_alone(alloc, project, allowance, task.first, clerk))
}
