ghost use types.Logic.{sem};
ghost use Rattle.std.specs.Prelude.{◌≡◌, ◌<◌, [], IfOk, IfSome, OnOk, length, take};
ghost use Rattle.std.specs.Io.{WritesAtMost, StartsWith};
ghost use Rattle.std.specs.Io.BufRead.{Rests, FillKeeps};
ghost use Rattle.std.specs.Io.Buffered.{writer_buffer, writer_contents};
ghost use Rattle.std.specs.Io.KnownBytes.{Appends, Keeps, IsAtEnd, WriteAppends};
ghost use Rattle.watched_io.specs.Failure.{HasFailed, IsNoted};

use std::alloc::Global;
use std::fmt::Display;
use std::io;
use std::io::{BufRead, BufWriter, Error, ErrorKind, Read, Write};
use std::marker::{Model, PhantomData};

/// A `Watch` is a count, modulo 2^64, of the failures of one reader or writer of type `S`. That it
/// counts no other failure is seen in its methods' bodies alone.
#[derive(Drop)]
pub struct Watch<S> {
    failures: u64,
    of: PhantomData<S>,
}

impl<S> Model for Watch<S> {
    ghost use Rattle.std.specs.Prelude.{ℕ};

    ghost Value = { ℕ };

    ghost view = { λ w. w.failures };
}

impl<S> Watch<S> {
    pub fn new() -> Watch<S>
        ensures { result ≡ 0 }
    {
        Watch {
            failures: 0,
            of: PhantomData,
        }
    }

    fn count(&mut self)
        ensures { HasFailed self.old self.new }
    {
        self.failures = self.failures.wrapping_add(1);
    }

    fn note<T>(&mut self, error: Error) -> io::Result<T>
        ensures noted { HasFailed self.old self.new }
        ensures error { result ≡ Err error }
    {
        self.count();
        Err(error)
    }
}

impl<R: Read> Watch<R> {
    /// Reads to the end or to `most` bytes, and notes the reader's error or want of memory.
    pub fn read_front(&mut self, alloc: Global, reader: R, most: u64) -> io::Result<Vec<u8>>
    where
        R: Drop,
        ensures front { IfOk result (λ bytes. IfSome (R.remaining reader) (λ all. bytes.items ≡ take most all)) }
        ensures noted { IsNoted result self.old self.new }
    {
        let mut bytes = Vec::new(alloc);
        match reader.take(most).read_to_end(&mut bytes) {
            Ok(_) => Ok(bytes),
            Err(error) => self.note(error),
        }
    }
}

impl<R: BufRead> Watch<R> {
    fn wait(&mut self, reader: &mut R) -> io::Result<usize>
        ensures kept { Keeps (R.remaining reader.old) (R.remaining reader.new) }
        ensures end { IfOk result (λ count. count ≡ 0 → IsAtEnd (R.remaining reader.old)) }
        ensures noted { IsNoted result self.old self.new }
    {
        for _ in 0..u64::MAX {
            match reader.fill_buf() {
                Ok(shown) => return Ok(shown.len()),
                Err(error) => {
                    if error.kind() != ErrorKind::Interrupted {
                        return self.note(error);
                    }
                }
            }
        }
        self.note(Error::from(ErrorKind::Interrupted))
    }
}

impl<W: Write> Watch<W> {
    /// Calls `Write::write`, again after a signal, and notes an error: no byte taken is one.
    pub fn write(&mut self, writer: &mut W, bytes: &[u8]) -> io::Result<usize>
        ensures bound { WritesAtMost result bytes.now }
        ensures bytes { WriteAppends (W.contents writer.old) (W.contents writer.new) result bytes.now }
        ensures some { IfOk result (λ count. 0 < length bytes.now → 0 < count) }
        ensures noted { IsNoted result self.old self.new }
    {
        for _ in 0..u64::MAX {
            match writer.write(bytes) {
                Ok(count) => {
                    if count == 0 && !bytes.is_empty() {
                        return self.note(Error::from(ErrorKind::WriteZero));
                    }
                    return Ok(count);
                }
                Err(error) => {
                    if error.kind() != ErrorKind::Interrupted {
                        return self.note(error);
                    }
                }
            }
        }
        self.note(Error::from(ErrorKind::Interrupted))
    }

    pub fn flush(&mut self, writer: &mut W) -> io::Result<()>
        ensures bytes { Keeps (W.contents writer.old) (W.contents writer.new) }
        ensures noted { IsNoted result self.old self.new }
    {
        match writer.flush() {
            Ok(()) => Ok(()),
            Err(error) => self.note(error),
        }
    }

    /// Calls `Write::write_fmt`, and notes an error.
    pub fn write_text<D: Display + Drop>(&mut self, writer: &mut W, text: D) -> io::Result<()>
        ensures bytes { OnOk result (IfSome (D.output text) (Appends (W.contents writer.old) (W.contents writer.new))) }
        ensures noted { IsNoted result self.old self.new }
    {
        match writer.write_fmt(text) {
            Ok(()) => Ok(()),
            Err(error) => self.note(error),
        }
    }
}

impl<W: Write + Drop> Watch<BufWriter<W>> {
    pub fn send_all(&mut self, output: &mut BufWriter<W>) -> io::Result<()>
        ensures bytes { Keeps (writer_contents W.contents output.old) (writer_contents W.contents output.new) }
        ensures sent { OnOk result (writer_buffer output.new ≡ []) }
        ensures noted { IsNoted result self.old self.new }
    {
        match output.flush() {
            Ok(()) => Ok(()),
            Err(error) => self.note(error),
        }
    }
}

/// Calls `BufRead::fill_buf`, again after a signal, and notes an error. At the end of the input the
/// reader is asked once.
pub fn fill<'a, R: BufRead>(reader: &'a mut R, watch: &mut Watch<R>) -> io::Result<&'a [u8]>
    ensures front { IfSome (R.remaining reader.old) (λ xs. IfOk result (λ s. StartsWith xs s.now)) }
    ensures end { IfSome (R.remaining reader.old)
        (λ xs. IfOk result (λ s. length s.now ≡ 0 → xs ≡ [])) }
    ensures* after_borrow { sem 𝓛 (Rests R.row reader.entry (λ new.
        FillKeeps (R.remaining reader.old) (R.remaining new) (R.consumable_len new) result)) }
    ensures noted { IsNoted result watch.old watch.new }
{
    if watch.wait(reader)? == 0 {
        return Ok(b"");
    }
    match reader.fill_buf() {
        Ok(shown) => Ok(shown),
        Err(error) => {
            watch.count();
            Err(error)
        }
    }
}
