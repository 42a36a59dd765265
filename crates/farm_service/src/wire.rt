//! A connection's two directions, so that no reply waits behind a read.
use std::cell::RefCell;
use std::io;
use std::io::{BufRead, BufReader, BufWriter, Error, ErrorKind, Read, Write};

/// An `Incoming` is the bytes of a client, read ahead. Before it waits for the client, it sends the
/// gathered replies; while read bytes are left, it sends nothing.
#[derive(Drop)]
pub(crate) struct Incoming<'a, R, W: Write + Drop> {
    pub(crate) input: BufReader<R>,
    pub(crate) output: &'a RefCell<BufWriter<W>>,
}

/// An `Ahead` is a reader that can look at what it has read ahead, and never waits for it.
pub(crate) trait Ahead {
    /// Whether a whole line was read ahead, and its second word begins as that of a query.
    fn is_query_ahead(&self) -> bool;
}

/// An `Outgoing` is the replies to a client, gathered until the reader waits for the client.
#[derive(Drop)]
pub(crate) struct Outgoing<'a, W: Write + Drop> {
    pub(crate) output: &'a RefCell<BufWriter<W>>,
}

impl<'a, R: Read, W: Write + Drop> Read for Incoming<'a, R, W> {
    fn read(&mut self, bytes: &mut [u8]) -> io::Result<usize> {
        if self.input.buffer().is_empty() {
            send(self.output)?;
        }
        self.input.read(bytes)
    }
}

impl<'a, R: Read, W: Write + Drop> BufRead for Incoming<'a, R, W> {
    fn fill_buf(&mut self) -> io::Result<&[u8]> {
        if self.input.buffer().is_empty() {
            send(self.output)?;
        }
        self.input.fill_buf()
    }

    fn consume(&mut self, amount: usize) {
        self.input.consume(amount);
    }
}

impl<'a, R: Read, W: Write + Drop> Ahead for Incoming<'a, R, W> {
    fn is_query_ahead(&self) -> bool {
        is_query_line(self.input.buffer())
    }
}

/// Whether `bytes` begin with a whole line whose second word begins as `status`, `result` or
/// `ledger` does. So a submit, whose text may still be on its way, is never taken for a query.
fn is_query_line(bytes: &[u8]) -> bool {
    let Some(end) = bytes.iter().position(|byte| *byte == b'\n') else {
        return false;
    };
    let line = &bytes[..end];
    let Some(blank) = line.iter().position(|byte| matches!(*byte, b' ' | b'\t')) else {
        return false;
    };
    let word = &line[blank + 1..];
    word.starts_with(b"st") || word.starts_with(b"r") || word.starts_with(b"l")
}

impl<'a, W: Write + Drop> Write for Outgoing<'a, W> {
    fn write(&mut self, bytes: &[u8]) -> io::Result<usize> {
        match self.output.try_borrow_mut() {
            Ok(mut output) => output.write(bytes),
            Err(_) => Err(Error::from(ErrorKind::Other)),
        }
    }

    fn flush(&mut self) -> io::Result<()> {
        send(self.output)
    }
}

/// The borrow never fails: one thread has both directions, and uses one at a time.
fn send<W: Write + Drop>(output: &RefCell<BufWriter<W>>) -> io::Result<()> {
    match output.try_borrow_mut() {
        Ok(mut output) => output.flush(),
        Err(_) => Err(Error::from(ErrorKind::Other)),
    }
}
