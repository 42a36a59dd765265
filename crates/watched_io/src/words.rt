ghost use Rattle.std.specs.Prelude.{◌≡◌};
ghost use Rattle.watched_io.specs.Reason.{reason_text};

use std::env::Env;
use std::io::{Eprint, ErrorKind};

/// Whether each fault is to be explained: the variable `FARM_EXPLAIN` is `1`.
pub fn explains<R: Env>(rt: &R) -> bool {
    let mut value = [0u8; 2];
    match rt.var("FARM_EXPLAIN", &mut value) {
        Ok(length) => length == 1 && value[0] == b'1',
        Err(_) => false,
    }
}

/// Writes on standard error that `path` cannot be read, and `why` if that is asked for.
pub fn tell_unread<R: Env + Eprint>(rt: &R, path: &str, why: &str) {
    let _ = eprintln!(rt; "farm: cannot read {path}");
    if explains(rt) {
        let _ = eprintln!(rt; "farm: why: {why}");
    }
}

/// Writes on standard error why there is a fault, if that is asked for and known.
pub fn tell_why<R: Env + Eprint>(rt: &R, why: &Option<String>) {
    if explains(rt)
        && let Some(text) = why
    {
        let _ = eprintln!(rt; "farm: why: {text}");
    }
}

/// Why a file could not be opened or read.
pub fn reason(kind: ErrorKind) -> &'static str
    ensures { result.now ≡ reason_text kind }
{
    match kind {
        ErrorKind::NotFound => "there is no such file",
        ErrorKind::PermissionDenied => "permission is denied",
        ErrorKind::IsADirectory => "it is a folder",
        ErrorKind::NotADirectory => "a part of its path is no folder",
        ErrorKind::InvalidFilename => "its name is too long",
        ErrorKind::FilesystemLoop => "its links lead in a circle",
        ErrorKind::OutOfMemory => "there is no memory for it",
        _ => "opening or reading it failed",
    }
}
