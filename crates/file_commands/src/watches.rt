ghost use Rattle.std.specs.Prelude.{◌≡◌};

use std::alloc::AllocError;
use std::marker::Model;
use watched_io::Watch;

/// A `CommandWatches` is a watch of a project's file `S`, of a schedule's text `T`, of a proof
/// or a second schedule `O`, and of the writer `W`. An input that is not read has the type `()`. Contracts see what each has
/// counted.
#[derive(Drop)]
pub struct CommandWatches<S, T, O, W> {
    pub file: Watch<S>,
    pub text: Watch<T>,
    pub other: Watch<O>,
    pub output: Watch<W>,
    /// The second line on standard error about how the command ended.
    pub why: Option<String>,
    /// A line of each breach, if these are asked for. An error is want of memory.
    pub list: Result<Option<String>, AllocError>,
}

impl<S, T, O, W> Model for CommandWatches<S, T, O, W> {
    ghost use Rattle.file_commands.specs.Counts.{CommandCounts};

    ghost Value = { CommandCounts };

    ghost view = { λ w. record { file = w.file; text = w.text; other = w.other; output = w.output } };
}

impl<S, T, O, W> CommandWatches<S, T, O, W> {
    /// Returns watches through which nothing has failed.
    pub fn new() -> CommandWatches<S, T, O, W>
        ensures file { result.file ≡ 0 }
        ensures text { result.text ≡ 0 }
        ensures other { result.other ≡ 0 }
        ensures output { result.output ≡ 0 }
    {
        CommandWatches {
            file: Watch::new(),
            text: Watch::new(),
            other: Watch::new(),
            output: Watch::new(),
            why: None,
            list: Ok(None),
        }
    }
}
