//! The command `draw`: what it answers to a file and a schedule's text.
ghost use Rattle.std.specs.Prelude.{IfOk, IfErr, string_bytes};
ghost use Rattle.solve_cli.specs.Verified.{IsAtFault};
ghost use Rattle.solve_cli.specs.Commands.{IsReported, IsOfFeasible};

use crate::fault::VerifyFault;
use crate::picture::{PictureWords, picture_of};
use crate::verification::verify;
use crate::verify_command::refused;
use file_commands::{CommandAnswer, FileCommand, Texts};
use std::alloc::Global;

fn answer_draw(
    alloc: Global,
    texts: &Texts<'_>,
    words: &PictureWords<'_>,
) -> CommandAnswer<VerifyFault>
    ensures gives { IfOk result.text (λ text. IsReported IsOfFeasible texts.now.file.now texts.now.text.now (string_bytes text)) }
    ensures refuses { IfErr result.text (λ fault. IsAtFault texts.now.file.now texts.now.text.now fault) }
{
    let verified = match verify(alloc, texts.file, texts.text) {
        Ok(verified) => verified,
        Err(fault) => return refused(alloc, texts, fault),
    };
    match picture_of(alloc, &verified, words) {
        Ok(text) => CommandAnswer::new(Ok(text), None),
        Err(_) => CommandAnswer::new(Err(VerifyFault::NoMemory), None),
    }
}

/// A `Draw` is the command `draw`: the picture of a feasible schedule.
#[derive(Clone, Copy)]
pub(crate) struct Draw<'a, 'b> {
    pub(crate) words: &'a PictureWords<'b>,
}

impl FileCommand for Draw<'_, '_> {
    type Fault = VerifyFault;

    ghost gives = { λ _ texts shown. IsReported IsOfFeasible texts.file texts.text shown };

    ghost refuses = { λ _ texts fault. IsAtFault texts.file texts.text fault };

    fn answer(&mut self, alloc: Global, texts: &Texts<'_>) -> CommandAnswer<VerifyFault> {
        answer_draw(alloc, texts, self.words)
    }
}
