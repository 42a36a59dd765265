//! The command `verify`: what it answers to a file and a schedule's text.
ghost use Rattle.std.specs.Prelude.{◌≡◌, Err};
ghost use Rattle.solve_cli.specs.Verified.{IsAtFault};
ghost use Rattle.solve_cli.specs.Commands.{IsReported, TellsMakespan};

use crate::fault::VerifyFault;
use crate::reasons::{list_of, why_unverified};
use crate::verification::verify;
use file_commands::{CommandAnswer, FileCommand, Texts};
use std::alloc::Global;

/// The answer to texts that have no feasible schedule.
pub(crate) fn refused(
    alloc: Global,
    texts: &Texts<'_>,
    fault: VerifyFault,
) -> CommandAnswer<VerifyFault>
    ensures { result.text ≡ Err fault }
{
    let why = why_unverified(alloc, texts.file, texts.text, fault);
    CommandAnswer::new(Err(fault), why)
}

/// A `Verify` is the command `verify`: the makespan of a feasible schedule.
#[derive(Clone, Copy, Debug)]
pub struct Verify {
    /// Whether a line of each breach is asked for, in place of the first one.
    pub lists_all: bool,
}

impl FileCommand for Verify {
    type Fault = VerifyFault;

    ghost gives = { λ _ texts shown. IsReported TellsMakespan texts.file texts.text shown };

    ghost refuses = { λ _ texts fault. IsAtFault texts.file texts.text fault };

    fn answer(&mut self, alloc: Global, texts: &Texts<'_>) -> CommandAnswer<VerifyFault> {
        let verified = match verify(alloc, texts.file, texts.text) {
            Ok(verified) => verified,
            Err(fault) => {
                let mut answer = refused(alloc, texts, fault);
                if self.lists_all {
                    answer.list = list_of(alloc, texts.file, texts.text, fault);
                }
                return answer;
            }
        };
        let makespan = verified.makespan;
        match format!(in alloc; "feasible makespan {makespan}\n") {
            Ok(text) => CommandAnswer::new(Ok(text), None),
            Err(_) => CommandAnswer::new(Err(VerifyFault::NoMemory), None),
        }
    }
}
