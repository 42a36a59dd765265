//! Reading the whole of an input that is not too long.
ghost use Rattle.std.specs.Prelude.{◌≡◌, ◌<◌, ◌≤◌, length, IfOk, IfSome, MatchOption};

use file_commands::MOST_TEXT;
use std::alloc::Global;
use std::io;
use std::io::Read;
use watched_io::Watch;

/// All bytes of `reader`, or `None` if these are `MOST_TEXT` or more. Fails with its error, or for
/// want of memory.
pub fn read_whole<R: Read + Drop>(alloc: Global, reader: R) -> io::Result<Option<Vec<u8>>>
    ensures { IfOk result (λ found. IfSome (R.remaining reader) (λ all. MatchOption found
        (MOST_TEXT ≤ length all)
        (λ bytes. (bytes.items ≡ all) × (length all < MOST_TEXT)))) }
{
    let bytes = Watch::new().read_front(alloc, reader, MOST_TEXT)?;
    if bytes.len() as u64 == MOST_TEXT {
        return Ok(None);
    }
    Ok(Some(bytes))
}
