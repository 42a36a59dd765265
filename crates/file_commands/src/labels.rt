//! Dates and names that a command is asked for.
ghost use Rattle.std.specs.Prelude.{◌≡◌, IfErr};
ghost use Rattle.std.specs.Process.{exit_status};

use crate::ending::end_no_memory;
use crate::inputs::{MOST_TEXT, open_path, or_report};
use jiff::civil::DateTime;
use schedule_labels::{ActivityName, Calendar, Unit, names_of};
use std::alloc::Global;
use std::env::Env;
use std::io::Eprint;
use std::process::ExitCode;
use std::rt::Runtime;
use watched_io::{Watch, tell_why};

/// Whether two of `paths` are standard input, which gives its bytes only once.
pub fn is_input_twice(paths: &[&str]) -> bool {
    paths.iter().filter(|path| **path == "-").count() > 1
}

/// Writes on standard error that two inputs are standard input.
pub fn refuse_same<R: Eprint>(rt: &R) -> ExitCode
    ensures { exit_status result ≡ 2 }
{
    let _ = eprintln!(rt; "farm: two inputs cannot both be standard input");
    ExitCode::from(2)
}

/// The words of lengths of a period, in the order of `Unit`.
pub const UNITS: [&str; 4] = ["hour", "shift", "day", "week"];

/// The unit that `word` names, a day if it names none.
pub fn unit_of(word: Option<&str>) -> Unit {
    match word {
        Some("hour") => Unit::Hour,
        Some("shift") => Unit::Shift,
        Some("week") => Unit::Week,
        _ => Unit::Day,
    }
}

/// The calendar whose period 0 begins at the date that `start` writes. On an error, the status, the
/// fault is on standard error.
pub fn calendar_of<R: Env + Eprint + AllocGlobal>(
    rt: &R,
    start: Option<&str>,
    unit: Unit,
) -> Result<Option<Calendar>, ExitCode>
    ensures { IfErr result (λ status. exit_status status ≡ 2) }
{
    let Some(word) = start else {
        return Ok(None);
    };
    match word.parse::<DateTime>() {
        Ok(start) => Ok(Some(Calendar { start, unit })),
        Err(_) => {
            let _ = eprintln!(rt; "farm: no date {word}");
            let why = "a date is as 2026-12-01, or with a time as 2026-12-01T06:00";
            tell_why(rt, &String::from_str(rt.alloc(), why).ok());
            Err(ExitCode::from(2))
        }
    }
}

/// The first `MOST_TEXT` bytes of the file at `path`, or of standard input if that is `-`. On
/// `None` the reason is on standard error.
pub fn read_path<R: Runtime + AllocGlobal>(rt: &R, path: &str) -> Option<Vec<u8>> {
    let file = open_path(rt, path)?;
    let got = Watch::new().read_front(rt.alloc(), file, MOST_TEXT);
    or_report(rt, path, got)
}

/// The names in the file at `path`. On an error, the status, the reason is on standard error.
pub fn read_names<R: Runtime + AllocGlobal>(
    rt: &R,
    path: Option<&str>,
) -> Result<Option<Vec<ActivityName>>, ExitCode>
    ensures { IfErr result (λ status. exit_status status ≡ 1) }
{
    let Some(path) = path else {
        return Ok(None);
    };
    let Some(bytes) = read_path(rt, path) else {
        return Err(ExitCode::FAILURE);
    };
    match names_of(rt.alloc(), &bytes) {
        Ok(names) => Ok(Some(names)),
        Err(_) => Err(end_no_memory(rt)),
    }
}
