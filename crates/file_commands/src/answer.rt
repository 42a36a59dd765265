ghost use Rattle.std.specs.Prelude.{◌≡◌, List, ℕ, IfOk, IfErr, string_bytes};
ghost use Rattle.file_commands.specs.Run.{TextsData, texts_of};

use std::alloc::{AllocError, Global};
use std::fmt::Display;

/// A `Texts` is the bytes of a command's inputs. An input that it does not read has none.
#[derive(Clone, Copy, Debug)]
pub struct Texts<'a> {
    pub file: &'a [u8],
    pub text: &'a [u8],
    /// A proof, or a second schedule.
    pub other: &'a [u8],
}

/// A `CommandAnswer` is the text that a command gives, or why it gives none, and what standard
/// error has besides.
#[derive(Drop)]
pub struct CommandAnswer<F> {
    pub text: Result<String, F>,
    /// The second line on standard error.
    pub why: Option<String>,
    /// Lines in place of the second one, if these are asked for. An error is want of memory.
    pub list: Result<Option<String>, AllocError>,
}

impl<F> CommandAnswer<F> {
    /// Returns the answer `text`, with this second line on standard error.
    pub fn new(text: Result<String, F>, why: Option<String>) -> CommandAnswer<F>
        ensures { result.text ≡ text }
    {
        CommandAnswer {
            text,
            why,
            list: Ok(None),
        }
    }
}

/// A `FileCommand` is a command over files, with its options.
pub trait FileCommand: Drop {
    type Fault: Display + Copy;

    // The texts that it may give for the texts of its inputs, and the faults for which it refuses
    // them.
    ghost gives: { Self → TextsData → List ℕ → Type 0 };

    ghost refuses: { Self → TextsData → Self.Fault → Type 0 };

    fn answer(&mut self, alloc: Global, texts: &Texts<'_>) -> CommandAnswer<Self::Fault>
        ensures gives { IfOk result.text (λ text. gives self.old (texts_of texts.now) (string_bytes text)) }
        ensures refuses { IfErr result.text (λ fault. refuses self.old (texts_of texts.now) fault) };
}
