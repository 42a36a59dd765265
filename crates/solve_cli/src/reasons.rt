//! The second line on how a command ended: why its inputs are at fault, or what to do next.
ghost use Rattle.std.specs.Prelude.{◌≡◌, IfOk};
ghost use Rattle.mrcpsp.specs.Values.{bound};

use crate::fault::VerifyFault;
use crate::search_result::SearchResult;
use explain::{all_breaches, why_breach_of, why_file, why_infeasible, why_no_schedule};
use measures::Measures;
use mrcpsp::Project;
use std::alloc::{AllocError, Global};
use strategy::Verdict;

pub(crate) fn why_unverified(
    alloc: Global,
    file: &[u8],
    text: &[u8],
    fault: VerifyFault,
) -> Option<String> {
    match fault {
        VerifyFault::File(fault) => why_file(alloc, file, fault),
        VerifyFault::Words | VerifyFault::TooLong => why_no_schedule(alloc, text),
        VerifyFault::Breach(breach) => why_breach_of(alloc, file, text, breach),
        VerifyFault::NoMemory => None,
    }
}

pub(crate) fn list_of(
    alloc: Global,
    file: &[u8],
    text: &[u8],
    fault: VerifyFault,
) -> Result<Option<String>, AllocError> {
    match fault {
        VerifyFault::Breach(_) => Ok(Some(all_breaches(alloc, file, text)?)),
        _ => Ok(None),
    }
}

/// The longest chain of activities by shortest modes, in periods. No schedule is shorter.
pub(crate) fn chain_of(alloc: Global, project: &Project) -> Result<u32, AllocError>
    ensures { IfOk result (λ chain. chain ≡ bound project.now) }
{
    let measures = Measures::of(alloc, project)?;
    Ok(measures.bound())
}

pub(crate) fn next_step(alloc: Global, project: &Project, found: &SearchResult) -> Option<String> {
    if found.verdict == Verdict::Infeasible {
        return why_infeasible(alloc, project);
    }
    if found.verdict != Verdict::Going {
        return None;
    }
    let chain = chain_of(alloc, project).ok()?;
    let step =
        "more --nodes or --search all may find a shorter one, and farm prove FILE looks for a proof too";
    format!(in alloc;
        "open: each schedule takes at least {chain} periods, by the longest chain of activities; {step}"
    ).ok()
}
