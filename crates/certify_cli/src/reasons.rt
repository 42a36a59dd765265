//! The second line on why nothing is certified.
use crate::fault::CertifyFault;
use clause_proof::ProofFault;
use explain::{why_breach_of, why_file, why_no_schedule};
use measures::Measures;
use psplib_mm::read;
use schedule_clauses::CertificateFault;
use std::alloc::{AllocError, Global};

fn why_unproved(
    alloc: Global,
    file: &[u8],
    fault: ProofFault,
) -> Option<Result<String, AllocError>> {
    match fault {
        ProofFault::Word(_) => Some(format!(in alloc;
            "a step is a line of numbers that ends with 0, behind d where it deletes a clause, or is in the solver's binary form"
        )),
        ProofFault::Unproved(_) => Some(format!(in alloc;
            "the clause of this step does not follow from those before it: is it a proof of the clauses of this file and of one period less?"
        )),
        ProofFault::Unfinished => {
            let project = read(alloc, file).ok()?;
            let chain = Measures::of(alloc, &project).ok()?.bound();
            Some(format!(in alloc;
                "a proof to the end is needed, since the longest chain of activities takes {chain} periods alone: farm prove FILE makes one"
            ))
        }
        ProofFault::NoMemory => None,
    }
}

/// `text` is empty if there is no schedule.
pub(crate) fn why_uncertified(
    alloc: Global,
    file: &[u8],
    text: &[u8],
    fault: CertifyFault,
) -> Option<String> {
    match fault {
        CertifyFault::File(fault) => why_file(alloc, file, fault),
        CertifyFault::Words | CertifyFault::TooLong => why_no_schedule(alloc, text),
        CertifyFault::Certificate(CertificateFault::Schedule(breach)) => {
            why_breach_of(alloc, file, text, breach)
        }
        CertifyFault::Certificate(CertificateFault::Horizon(horizon)) => format!(in alloc;
            "the bound is above the horizon {horizon}, the sum of the longest durations"
        ).ok(),
        CertifyFault::Certificate(CertificateFault::Proof(fault)) => {
            why_unproved(alloc, file, fault)?.ok()
        }
        _ => None,
    }
}

pub(crate) fn why_not_infeasible(
    alloc: Global,
    file: &[u8],
    fault: CertifyFault,
) -> Option<String> {
    match fault {
        CertifyFault::Certificate(CertificateFault::Proof(ProofFault::Unfinished)) =>
            format!(in alloc;
                "a proof to the end is needed, of the clauses that farm clauses FILE none writes: farm prove FILE looks for one"
            ).ok(),
        _ => why_uncertified(alloc, file, &[], fault),
    }
}
