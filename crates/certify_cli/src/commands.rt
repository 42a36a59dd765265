//! The commands that check proofs: what each answers to the bytes of its inputs.
ghost use Rattle.certify_cli.specs.Certified.{CertifiesOptimal, CertifiesInfeasible, CertifiesBound, CertifiesLeast, IsOfFile, IsOfText, IsOfProofAlone, IsOfPeriods, IsOfFileAlone};

use crate::bounds::{certify_bound, certify_least};
use crate::certificates::{certify, certify_infeasible};
use crate::fault::CertifyFault;
use crate::reasons::{why_not_infeasible, why_uncertified};
use file_commands::{CommandAnswer, FileCommand, Texts};
use std::alloc::Global;

/// The most bytes that are read of a proof.
pub const MOST_PROOF: u64 = 4_000_000_000;

/// A `Certify` is the command `certify`: that a schedule is optimal.
#[derive(Clone, Copy, Debug)]
pub struct Certify;

impl FileCommand for Certify {
    type Fault = CertifyFault;

    ghost gives = { λ _ texts line. CertifiesOptimal texts.file texts.text line };

    ghost refuses = { λ _ texts fault. IsOfFile fault texts.file × IsOfText fault texts.file texts.text };

    fn answer(&mut self, alloc: Global, texts: &Texts<'_>) -> CommandAnswer<CertifyFault> {
        match certify(alloc, texts.file, texts.text, texts.other) {
            Ok(line) => CommandAnswer::new(Ok(line), None),
            Err(fault) => {
                let why = why_uncertified(alloc, texts.file, texts.text, fault);
                CommandAnswer::new(Err(fault), why)
            }
        }
    }
}

/// A `CertifyInfeasible` is the command `infeasible`: that no schedule is feasible.
#[derive(Clone, Copy, Debug)]
pub struct CertifyInfeasible;

impl FileCommand for CertifyInfeasible {
    type Fault = CertifyFault;

    ghost gives = { λ _ texts line. CertifiesInfeasible texts.file line };

    ghost refuses = { λ _ texts fault. IsOfFile fault texts.file × IsOfProofAlone fault };

    fn answer(&mut self, alloc: Global, texts: &Texts<'_>) -> CommandAnswer<CertifyFault> {
        match certify_infeasible(alloc, texts.file, texts.other) {
            Ok(line) => CommandAnswer::new(Ok(line), None),
            Err(fault) => {
                let why = why_not_infeasible(alloc, texts.file, fault);
                CommandAnswer::new(Err(fault), why)
            }
        }
    }
}

/// A `CertifyBound` is the command `bound` with a number of periods: that no schedule takes fewer.
#[derive(Clone, Copy, Debug)]
pub struct CertifyBound {
    pub periods: u32,
}

impl FileCommand for CertifyBound {
    type Fault = CertifyFault;

    ghost gives = { λ bound texts line. CertifiesBound bound.periods texts.file line };

    ghost refuses = { λ bound texts fault. IsOfFile fault texts.file × IsOfPeriods fault texts.file bound.periods };

    fn answer(&mut self, alloc: Global, texts: &Texts<'_>) -> CommandAnswer<CertifyFault> {
        match certify_bound(alloc, texts.file, self.periods, texts.other) {
            Ok(line) => CommandAnswer::new(Ok(line), None),
            Err(fault) => {
                let why = why_uncertified(alloc, texts.file, &[], fault);
                CommandAnswer::new(Err(fault), why)
            }
        }
    }
}

/// A `FindBound` is the command `bound` without a number: a bound by the longest chain of
/// activities, or by prices.
#[derive(Clone, Copy, Debug)]
pub struct FindBound {
    /// The most steps for the prices of each bound.
    pub steps: u32,
}

impl FileCommand for FindBound {
    type Fault = CertifyFault;

    ghost gives = { λ bound texts line. CertifiesLeast bound.steps texts.file line };

    ghost refuses = { λ _ texts fault. IsOfFile fault texts.file × IsOfFileAlone fault };

    fn answer(&mut self, alloc: Global, texts: &Texts<'_>) -> CommandAnswer<CertifyFault> {
        match certify_least(alloc, texts.file, self.steps) {
            Ok(line) => CommandAnswer::new(Ok(line), None),
            Err(fault) => {
                let why = why_uncertified(alloc, texts.file, &[], fault);
                CommandAnswer::new(Err(fault), why)
            }
        }
    }
}
