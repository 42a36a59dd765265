//! A refutation of a limit, written while the solver finds it.
ghost use Rattle.std.specs.Prelude.{◌≡◌, IfOk, IfErr, IfSome};
ghost use Rattle.mrcpsp.specs.Schedule.{IsInfeasible};
ghost use Rattle.clause_kernel.specs.Clauses.{IsUnsatisfiable};
ghost use Rattle.schedule_prices.specs.Choices.{EachExceeds};
ghost use Rattle.certify_cli.specs.Certified.{IsClausesFault};
ghost use Rattle.certify_cli.specs.Refuted.{IsRuledOut, RefutesLimit};

use crate::dimacs::write_steps;
use crate::fault::CertifyFault;
use clause_kernel::{ClauseList, Formula, Kernel};
use clause_search::{Search, SearchAnswer, SearchLimits};
use file_commands::CommandFault;
use mrcpsp::Project;
use psplib_mm::read;
use schedule_clauses::{CertificateFault, clauses, stock_clauses};
use std::alloc::{AllocError, Global};
use std::io;
use std::io::Write;
use std::marker::Brand;

/// The most conflicts before the steps so far are written.
const SLICE: u64 = 100;

/// A `RefuteEnd` is how a search for a refutation ends.
#[derive(Clone, Copy, Debug, PartialEq, Eq)]
pub enum RefuteEnd {
    /// The clauses cannot all be true.
    Refuted,
    /// Values were found by which all clauses are true. They are not checked.
    Values,
    /// The conflicts were not enough.
    Conflicts,
    /// The memory was not enough.
    Memory,
    /// The kernel rejected a step of the solver, which is a fault of the program.
    Rejected,
}

/// A `RefuteLimits` is what a search for a refutation may use.
#[derive(Clone, Copy, Debug)]
pub struct RefuteLimits {
    /// The most words of four bytes that the search holds in clauses.
    pub words: usize,
    pub conflicts: u64,
}

/// Why a search ends without an end of its own.
#[derive(Clone, Copy)]
enum Break {
    NoMemory,
    /// There are no clauses of the limit.
    Clauses(CertificateFault),
    Write,
}

impl From<AllocError> for Break {
    fn from(_: AllocError) -> Break {
        Break::NoMemory
    }
}

impl From<CertificateFault> for Break {
    fn from(fault: CertificateFault) -> Break {
        Break::Clauses(fault)
    }
}

impl From<io::Error> for Break {
    fn from(_: io::Error) -> Break {
        Break::Write
    }
}

/// Searches until the clauses are decided or `most` conflicts are spent. After each slice its steps
/// are written, and behind the last one the empty clause.
fn refute_in_slices<F: Formula, W: Write>(
    kernel: &mut Kernel<F>,
    search: &mut Search,
    most: u64,
    writer: &mut W,
) -> Result<RefuteEnd, Break>
    ensures { IfOk result (λ ended. ended ≡ RefuteEnd.Refuted → IsUnsatisfiable F.clauses) }
{
    for _ in 0..u64::MAX {
        if kernel.is_refuted() {
            writer.write_all(b"0\n")?;
            return Ok(RefuteEnd::Refuted);
        }
        let left = most.saturating_sub(search.conflicts());
        if left == 0 {
            break;
        }
        let answer = search.run(kernel, SLICE.min(left))?;
        if let Some(log) = search.take_log() {
            write_steps(writer, &log)?;
        }
        if kernel.is_refuted() {
            continue;
        }
        match answer {
            SearchAnswer::Satisfied => return Ok(RefuteEnd::Values),
            SearchAnswer::Full => return Ok(RefuteEnd::Memory),
            _ => {}
        }
        if search.refused() > 0 {
            return Ok(RefuteEnd::Rejected);
        }
    }
    Ok(RefuteEnd::Conflicts)
}

fn refute_as<F: Formula, W: Write>(
    alloc: Global,
    formula: &ClauseList,
    limits: RefuteLimits,
    writer: &mut W,
) -> Result<RefuteEnd, Break>
    requires { formula.now ≡ F.clauses }
    ensures { IfOk result (λ ended. ended ≡ RefuteEnd.Refuted → IsUnsatisfiable formula.now) }
{
    let words = limits.words;
    let mut kernel = Kernel::<F>::new(alloc, formula)?;
    let mut search = Search::new(alloc, formula, SearchLimits { words })?;
    search.keep_log();
    refute_in_slices(&mut kernel, &mut search, limits.conflicts, writer)
}

fn refute_clauses<W: Write>(
    alloc: Global,
    formula: &ClauseList,
    limits: RefuteLimits,
    writer: &mut W,
) -> Result<RefuteEnd, Break>
    ensures { IfOk result (λ ended. ended ≡ RefuteEnd.Refuted → IsUnsatisfiable formula.now) }
{
    refute_as::<Brand, W>(alloc, formula, limits, writer)
}

#[tactic(auto, using(crate::proofs::RefuteLemmas::limit_rules))]
fn refute_limit<W: Write>(
    alloc: Global,
    project: &Project,
    limit: u32,
    limits: RefuteLimits,
    writer: &mut W,
) -> Result<RefuteEnd, Break>
    ensures { IfOk result (λ ended. ended ≡ RefuteEnd.Refuted → EachExceeds project.now limit) }
{
    let formula = clauses(alloc, project, limit)?;
    refute_clauses(alloc, &formula.clauses, limits, writer)
}

#[tactic(auto, using(crate::proofs::RefuteLemmas::stock_rules))]
fn refute_stocks<W: Write>(
    alloc: Global,
    project: &Project,
    limits: RefuteLimits,
    writer: &mut W,
) -> Result<RefuteEnd, Break>
    ensures { IfOk result (λ ended. ended ≡ RefuteEnd.Refuted → IsInfeasible project.now) }
{
    let formula = stock_clauses(alloc, project)?;
    refute_clauses(alloc, &formula.clauses, limits, writer)
}

fn refute_project<W: Write>(
    alloc: Global,
    project: &Project,
    limit: Option<u32>,
    limits: RefuteLimits,
    writer: &mut W,
) -> Result<RefuteEnd, Break>
    ensures { IfOk result (λ ended. ended ≡ RefuteEnd.Refuted → IsRuledOut limit project.now) }
{
    match limit {
        Some(limit) => refute_limit(alloc, project, limit, limits, writer),
        None => refute_stocks(alloc, project, limits, writer),
    }
}

/// Looks for a refutation of the clauses that `write_clauses` writes of `file` and `limit`, and
/// writes its steps as DRAT text. The result is `Refuted` only if no feasible schedule takes at most
/// `limit` periods; without a limit, only if none is feasible. That the text is a proof is tested.
pub fn write_refutation<W: Write>(
    alloc: Global,
    file: &[u8],
    limit: Option<u32>,
    limits: RefuteLimits,
    writer: &mut W,
) -> Result<RefuteEnd, CommandFault<CertifyFault>>
    ensures refuted { IfOk result (λ ended. ended ≡ RefuteEnd.Refuted → RefutesLimit limit file.now) }
    ensures fault { IfErr result (λ fault. IsClausesFault fault file.now) }
{
    let project = match read(alloc, file) {
        Ok(project) => project,
        Err(fault) => return Err(CommandFault::Refused(CertifyFault::File(fault))),
    };
    match refute_project(alloc, &project, limit, limits, writer) {
        Ok(ended) => Ok(ended),
        Err(Break::NoMemory) => Err(CommandFault::Refused(CertifyFault::NoMemory)),
        Err(Break::Clauses(fault)) => Err(CommandFault::Refused(CertifyFault::Certificate(fault))),
        Err(Break::Write) => Err(CommandFault::Write),
    }
}
