ghost use Rattle.watched_io.specs.Source.{source_rest};

use std::io::{Input, Read};
use std::rt::Files;
use std::{fs, io};

/// A `Source` is standard input, a file, or nothing.
#[derive(Drop)]
pub enum Source<S, F> {
    Standard(S),
    File(F),
    Nothing,
}

impl<S: Read, F: Read> Read for Source<S, F> {
    ghost remaining = { source_rest S.remaining F.remaining };

    fn read(&mut self, bytes: &mut [u8]) -> io::Result<usize> {
        match self {
            Source::Standard(input) => input.read(bytes),
            Source::File(file) => file.read(bytes),
            Source::Nothing => Ok(0),
        }
    }
}

/// Opens the file at `path`, or standard input if that is `-`.
pub fn open<R: Input + Files>(rt: &R, path: &str) -> io::Result<Source<R::Reader, R::File>> {
    if path == "-" {
        return Ok(Source::Standard(rt.reader()));
    }
    let file = fs::open(rt, path)?;
    Ok(Source::File(file))
}
