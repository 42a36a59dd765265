//! What is proved of a file's project, over any reader and writer.
ghost use Rattle.std.specs.Prelude.{◌≡◌, ℕ, List, Option, IfOk, IfErr, IfSome, OnOk, Ok, take};
ghost use Rattle.psplib_mm.specs.Reading.{reading};
ghost use Rattle.file_commands.specs.Counts.{AreReadWell};
ghost use Rattle.prover.specs.Answers.{IsAnswer};
ghost use Rattle.prove_cli.specs.Command.{IsProveOf, IsUnproved};
ghost use Rattle.prove_cli.specs.Proved.{ended_by};

use crate::cost::cost_since;
use crate::fault::ProveFault;
use crate::first_schedule::begin_with;
use crate::output::output_text;
use explain::why_file;
use file_commands::{CommandFault, CommandWatches, MOST_TEXT};
use mrcpsp::{Project, Schedule};
use prover::{Answer, Herald, Limits, ProofTask, Proved, prove};
use psplib_mm::read;
use std::alloc::{AllocError, Global};
use std::io::{Eprint, Read, Write};
use std::sync::Wait;
use std::sync::atomic::AtomicBool;
use std::thread::Threads;
use std::time::{Clock, Instant};

/// A `ProofEnd` is how a run of `prove` ends.
#[derive(Clone, Copy, Debug, PartialEq, Eq)]
pub enum ProofEnd {
    /// The project is decided.
    Decided,
    /// A gap is left.
    Gap,
}

/// The options of a run of `prove`.
#[derive(Drop)]
pub struct ProveOptions<'a, H> {
    /// How many workers there are.
    pub jobs: usize,
    pub limits: Limits,
    /// A schedule to begin with. If it is not feasible, its order and its modes begin the search.
    pub from: Option<Schedule>,
    pub is_json: bool,
    /// The workers end soon after it is set.
    pub stop: &'a AtomicBool,
    pub herald: &'a H,
}

fn read_project<S: Read + Drop, W>(
    alloc: Global,
    file: S,
    watches: &mut CommandWatches<S, (), (), W>,
) -> Result<Project, CommandFault<ProveFault>>
    ensures project { IfOk result (λ project.
        IfSome (S.remaining file) (λ all. reading (take MOST_TEXT all) ≡ Ok project)) }
    ensures read { OnOk result (AreReadWell watches.old watches.new) }
    ensures kept { watches.new.output ≡ watches.old.output }
    ensures fault { IfErr result (λ fault. (out : Option (List ℕ)) → IsUnproved fault watches.old watches.new (S.remaining file) out out) }
{
    let bytes = match watches.file.read_front(alloc, file, MOST_TEXT) {
        Ok(bytes) => bytes,
        Err(error) => return Err(CommandFault::File(error.kind())),
    };
    match read(alloc, &bytes) {
        Ok(project) => Ok(project),
        Err(fault) => {
            watches.why = why_file(alloc, &bytes, fault);
            Err(CommandFault::Refused(ProveFault::File(fault)))
        }
    }
}

fn ended_by(answer: &Answer) -> ProofEnd
    ensures { result ≡ ended_by answer.now }
{
    match answer {
        Answer::Optimal(_) | Answer::Infeasible => ProofEnd::Decided,
        Answer::Gap(_, _) | Answer::AtLeast(_) => ProofEnd::Gap,
    }
}

fn task_of<'a>(
    jobs: usize,
    limits: Limits,
    first: Option<&'a Schedule>,
    stop: &'a AtomicBool,
) -> ProofTask<'a> {
    ProofTask {
        jobs,
        limits,
        first,
        stop,
    }
}

fn proved_of<R: Threads + Wait + Clock + Eprint + Sync, H: Herald + Sync>(
    rt: &R,
    alloc: Global,
    project: &Project,
    asked: &ProveOptions<'_, H>,
) -> Result<Proved, AllocError>
    ensures { IfOk result (λ proved. IsAnswer project.now proved.answer) }
{
    let first = begin_with(rt, alloc, project, asked.from.as_ref())?;
    let stop = &*asked.stop;
    let task = task_of(asked.jobs, asked.limits, first.as_ref(), stop);
    prove(rt, alloc, project, task, asked.herald)
}

/// Writes what is proved of the project of `file`. On any error except `Write`, nothing was written.
/// The result is `Decided` exactly if an optimal schedule was written, or that none is feasible.
pub fn prove_read<
    R: Threads + Wait + Clock + Eprint + Sync,
    S: Read + Drop,
    W: Write,
    H: Herald + Sync,
>(
    rt: &R,
    alloc: Global,
    file: S,
    asked: &ProveOptions<'_, H>,
    writer: &mut W,
    watches: &mut CommandWatches<S, (), (), W>,
) -> Result<ProofEnd, CommandFault<ProveFault>>
    ensures { IsProveOf asked.now.is_json result watches.old watches.new (S.remaining file) (W.contents writer.old) (W.contents writer.new) }
{
    let begun = Instant::now(rt).ok();
    let project = match read_project(alloc, file, watches) {
        Ok(project) => project,
        Err(fault) => return Err(fault),
    };
    let proved = match proved_of(rt, alloc, &project, asked) {
        Ok(proved) => proved,
        Err(_) => return Err(CommandFault::Refused(ProveFault::NoMemory)),
    };
    let ended = ended_by(&proved.answer);
    let cost = cost_since(rt, begun, asked.jobs, Some(proved.conflicts));
    let text = match output_text(alloc, asked.is_json, &proved.answer, cost) {
        Ok(text) => text,
        Err(_) => return Err(CommandFault::Refused(ProveFault::NoMemory)),
    };
    match watches.output.write_text(writer, text) {
        Ok(()) => Ok(ended),
        Err(_) => Err(CommandFault::Write),
    }
}
