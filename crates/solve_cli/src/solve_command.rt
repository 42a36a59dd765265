//! The command `solve`: what it answers to a file.
ghost use Rattle.std.specs.Prelude.{◌≡◌, ◌≤◌, length, IfOk, IfErr, string_bytes};
ghost use Rattle.solve_cli.specs.Commands.{IsOfFile, IsSolved, told_text};

use crate::fault::VerifyFault;
use crate::output::{tell, tell_json};
use crate::portfolio::{MOST_SEARCHES, solve_each};
use crate::reasons::next_step;
use crate::search_kinds::SearchKind;
use crate::search_result::{MOST_NODES, Observer, SearchResult};
use explain::why_file;
use file_commands::{CommandAnswer, FileCommand, Texts};
use psplib_mm::read;
use std::alloc::{AllocError, Global};
use std::marker::Model;

/// A `SolveOptions` is which searches are asked for, and how their result is written: at most
/// `MOST_SEARCHES` searches of at most `MOST_NODES` nodes each.
#[derive(Debug, Drop)]
pub struct SolveOptions<'a> {
    /// In the order in which they run.
    kinds: &'a [SearchKind],
    /// The most nodes of each search.
    most: u64,
    is_json: bool,
}

impl<'a> Model for SolveOptions<'a> {
    ghost use Rattle.std.specs.Prelude.{◌≤◌, length};
    ghost use Rattle.solve_cli.specs.Commands.{SolveAsked};
    ghost use Rattle.solve_cli.specs.declared.search_result.TheConstants.{MOST_NODES};
    ghost use Rattle.solve_cli.specs.declared.portfolio.TheConstants.{MOST_SEARCHES};

    ghost Value = { SolveAsked };

    ghost view = { λ s. record { kinds = s.kinds.now; most = s.most; is_json = s.is_json } };

    ghost invariant = { λ s. (s.most ≤ MOST_NODES) × (length s.kinds.now ≤ MOST_SEARCHES) };
}

impl<'a> SolveOptions<'a> {
    pub fn new(kinds: &'a [SearchKind], most: u64, is_json: bool) -> SolveOptions<'a>
        requires few { most ≤ MOST_NODES }
        requires short { length kinds.now ≤ MOST_SEARCHES }
        ensures { result ≡ record { kinds = kinds.now; most = most; is_json = is_json } }
    {
        SolveOptions {
            kinds,
            most,
            is_json,
        }
    }
}

fn output_text(alloc: Global, is_json: bool, found: &SearchResult) -> Result<String, AllocError>
    ensures { IfOk result (λ text. string_bytes text ≡ told_text is_json found.now) }
{
    if is_json {
        tell_json(alloc, found)
    } else {
        tell(alloc, found)
    }
}

fn answer_solve<L: Observer>(
    alloc: Global,
    texts: &Texts<'_>,
    asked: &SolveOptions<'_>,
    looks: &mut L,
) -> CommandAnswer<VerifyFault>
    ensures gives { IfOk result.text (λ text. IsSolved asked.now texts.now.file.now (string_bytes text)) }
    ensures refuses { IfErr result.text (λ fault. IsOfFile fault texts.now.file.now) }
{
    let project = match read(alloc, texts.file) {
        Ok(project) => project,
        Err(fault) => {
            let why = why_file(alloc, texts.file, fault);
            return CommandAnswer::new(Err(VerifyFault::File(fault)), why);
        }
    };
    let Ok(found) = solve_each(alloc, &project, asked.kinds, asked.most, looks) else {
        return CommandAnswer::new(Err(VerifyFault::NoMemory), None);
    };
    match output_text(alloc, asked.is_json, &found) {
        Ok(text) => CommandAnswer::new(Ok(text), next_step(alloc, &project, &found)),
        Err(_) => CommandAnswer::new(Err(VerifyFault::NoMemory), None),
    }
}

/// A `Solve` is the command `solve`: what the searches find of a project.
#[derive(Drop)]
pub struct Solve<'a, 'b, L> {
    pub asked: SolveOptions<'a>,
    pub looks: &'b mut L,
}

impl<L: Observer> FileCommand for Solve<'_, '_, L> {
    type Fault = VerifyFault;

    ghost gives = { λ solve texts shown. IsSolved solve.asked texts.file shown };

    ghost refuses = { λ _ texts fault. IsOfFile fault texts.file };

    fn answer(&mut self, alloc: Global, texts: &Texts<'_>) -> CommandAnswer<VerifyFault> {
        answer_solve(alloc, texts, &self.asked, self.looks)
    }
}
