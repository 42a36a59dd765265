//! The commands: what each answers to the bytes of its inputs.
ghost use Rattle.std.specs.Prelude.{◌≡◌, ◌&&◌, ℕ, List, IfOk, IfErr, is_none, string_bytes};
ghost use Rattle.plan_cli.specs.Plan.{IsAtFault};
ghost use Rattle.plan_cli.specs.Shown.{IsShown, IsComparison, IsCompareFault};

use crate::output::{CompareFault, ShowOptions, compare, show};
use crate::plan::PlanFault;
use explain::{why_breach_of, why_file, why_no_schedule};
use file_commands::{CommandAnswer, FileCommand, Texts};
use std::alloc::Global;

fn why_unplanned(alloc: Global, file: &[u8], text: &[u8], fault: PlanFault) -> Option<String> {
    match fault {
        PlanFault::File(fault) => why_file(alloc, file, fault),
        PlanFault::Words | PlanFault::TooLong => why_no_schedule(alloc, text),
        PlanFault::Breach(breach) => why_breach_of(alloc, file, text, breach),
        PlanFault::NoMemory => None,
    }
}

fn why_apart(alloc: Global, texts: &Texts<'_>, fault: CompareFault) -> Option<String> {
    match fault {
        CompareFault::First(fault) => why_unplanned(alloc, texts.file, texts.text, fault),
        CompareFault::Second(fault) => why_unplanned(alloc, texts.file, texts.other, fault),
    }
}

fn answer_show(
    alloc: Global,
    texts: &Texts<'_>,
    asked: &ShowOptions<'_>,
) -> CommandAnswer<PlanFault>
    ensures gives { IfOk result.text (λ shown. IsShown asked.now.layout (is_none asked.now.calendar && is_none asked.now.names) texts.now.file.now texts.now.text.now (string_bytes shown)) }
    ensures refuses { IfErr result.text (λ fault. IsAtFault texts.now.file.now texts.now.text.now fault) }
{
    match show(alloc, texts.file, texts.text, asked) {
        Ok(text) => CommandAnswer::new(Ok(text), None),
        Err(fault) => {
            let why = why_unplanned(alloc, texts.file, texts.text, fault);
            CommandAnswer::new(Err(fault), why)
        }
    }
}

/// A `Show` is the command `show`: the table of the feasible schedule that a text has.
#[derive(Clone, Copy)]
pub struct Show<'a, 'b> {
    pub asked: &'a ShowOptions<'b>,
}

impl FileCommand for Show<'_, '_> {
    type Fault = PlanFault;

    ghost gives = { λ show texts shown. IsShown show.asked.now.layout (is_none show.asked.now.calendar && is_none show.asked.now.names) texts.file texts.text shown };

    ghost refuses = { λ show texts fault. IsAtFault texts.file texts.text fault };

    fn answer(&mut self, alloc: Global, texts: &Texts<'_>) -> CommandAnswer<PlanFault> {
        answer_show(alloc, texts, self.asked)
    }
}

/// A `Compare` is the command `compare`: what differs between the schedules of two texts.
#[derive(Clone, Copy)]
pub struct Compare;

impl FileCommand for Compare {
    type Fault = CompareFault;

    ghost gives = { λ _ texts told. IsComparison texts.file texts.text texts.other told };

    ghost refuses = { λ _ texts fault. IsCompareFault texts.file texts.text texts.other fault };

    fn answer(&mut self, alloc: Global, texts: &Texts<'_>) -> CommandAnswer<CompareFault> {
        match compare(alloc, texts.file, texts.text, texts.other) {
            Ok(text) => CommandAnswer::new(Ok(text), None),
            Err(fault) => CommandAnswer::new(Err(fault), why_apart(alloc, texts, fault)),
        }
    }
}
