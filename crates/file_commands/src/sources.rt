use crate::inputs::{MOST_TEXT, Paths, open_path};
use std::env::Env;
use std::io::{Eprint, Input};
use std::rt::Files;
use watched_io::Source;

/// A `Sources` is the inputs of a command, open: a project's file, and with some commands a
/// schedule's text, and a proof or a second schedule.
#[derive(Drop)]
pub struct Sources<'a, S> {
    pub paths: Paths<'a>,
    pub file: S,
    pub text: Option<S>,
    pub other: Option<S>,
    /// The most bytes that are read of `other`. Of `file` and `text`, it is `MOST_TEXT`.
    pub most_other: u64,
}

/// On an inner `None` it is on standard error why the file at `path` cannot be read.
#[inline(always)]
fn open_some<R: Input + Files + Env + Eprint>(
    rt: &R,
    path: Option<&str>,
) -> Option<Option<Source<R::Reader, R::File>>> {
    match path {
        Some(path) => Some(Some(open_path(rt, path)?)),
        None => Some(None),
    }
}

/// Opens the files at `paths`, or standard input for the path `-`. On `None` standard error has
/// which cannot be read, and why. Inlined, as `open_path` is.
#[inline(always)]
pub fn open_sources<'a, R: Input + Files + Env + Eprint>(
    rt: &R,
    paths: Paths<'a>,
) -> Option<Sources<'a, Source<R::Reader, R::File>>> {
    Some(Sources {
        paths,
        file: open_path(rt, paths.file)?,
        text: open_some(rt, paths.text)?,
        other: open_some(rt, paths.other)?,
        most_other: MOST_TEXT,
    })
}
