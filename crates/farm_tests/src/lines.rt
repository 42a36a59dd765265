//! Requests and replies that no file shows: failing or interrupted readers, full or interrupted
//! writers, and lines that come only of want of memory.
use farm_core::{Name, Reply};
use psplib_mm::MmFault;
use session_lines::{LineFault, Said, What, WriteFault, read_request, write_reply};
use std::alloc::Global;
use std::io;
use std::io::{BufRead, BufReader, Error, ErrorKind, Read, Write};
use std::test::Fail;
use watched_io::Watch;

// Gives the bytes three at a time, with an interrupted read before each, and fails after them.
#[derive(Drop)]
struct Cut<'a> {
    rest: &'a [u8],
    interrupts: bool,
}

impl<'a> Read for Cut<'a> {
    fn read(&mut self, buf: &mut [u8]) -> io::Result<usize> {
        self.interrupts = !self.interrupts;
        if self.interrupts {
            return Err(Error::from(ErrorKind::Interrupted));
        }
        if self.rest.is_empty() {
            return Err(Error::from(ErrorKind::Other));
        }
        let most = self.rest.len().min(3).min(buf.len());
        buf[..most].copy_from_slice(&self.rest[..most]);
        self.rest = &self.rest[most..];
        Ok(most)
    }
}

fn reads_ledger<R: BufRead>(alloc: Global, reader: &mut R) -> bool {
    match read_request(alloc, reader, &mut Watch::new()) {
        Ok(request) => request.who.as_bytes() == b"a".as_slice()
            && matches!(&request.what, What::Ledger),
        Err(_) => false,
    }
}

fn fails<R: BufRead>(alloc: Global, reader: &mut R) -> bool {
    match read_request(alloc, reader, &mut Watch::new()) {
        Err(LineFault::Read) => true,
        _ => false,
    }
}

#[test]
fn a_reader_that_fails(rt: HostRuntime) -> Result<(), Fail> {
    let line = Cut {
        rest: b"@a ledger\n@a led",
        interrupts: false,
    };
    let mut line = BufReader::new(rt.alloc(), line)?;
    assert!(rt; reads_ledger(rt.alloc(), &mut line));
    assert!(rt; fails(rt.alloc(), &mut line));
    assert!(rt; fails(rt.alloc(), &mut line));
    let text = Cut {
        rest: b"@a submit tree 6 2\nx\ny",
        interrupts: false,
    };
    let mut text = BufReader::new(rt.alloc(), text)?;
    assert!(rt; fails(rt.alloc(), &mut text));
    Ok(())
}

#[test]
fn the_rest_is_left(rt: HostRuntime) {
    let mut bytes: &[u8] = b"\n\r\n@a ledger\n\n@b ledger\n";
    assert!(rt; reads_ledger(rt.alloc(), &mut bytes));
    assert!(rt; bytes == b"\n@b ledger\n".as_slice());
}

#[test]
fn lines_that_no_buffer_holds(rt: HostRuntime) -> Result<(), Fail> {
    for capacity in 1..12 {
        let bytes: &[u8] = b"@a ledger\r\n \r\n@a ledger";
        let mut reader = BufReader::with_capacity(rt.alloc(), capacity, bytes)?;
        assert!(rt; reads_ledger(rt.alloc(), &mut reader), "{capacity}");
        assert!(rt; reads_ledger(rt.alloc(), &mut reader), "{capacity}");
    }
    Ok(())
}

// Takes at most three bytes a write up to its room, and then none. If it interrupts, an interrupted
// write comes before each.
#[derive(Drop)]
struct Slow {
    taken: Vec<u8>,
    room: usize,
    interrupts: bool,
    is_ready: bool,
}

impl Write for Slow {
    fn write(&mut self, buf: &[u8]) -> io::Result<usize> {
        self.is_ready = !self.is_ready;
        if self.interrupts && self.is_ready {
            return Err(Error::from(ErrorKind::Interrupted));
        }
        let most = self.room.min(buf.len()).min(3);
        self.taken.extend_from_slice(&buf[..most])?;
        self.room -= most;
        Ok(most)
    }

    fn flush(&mut self) -> io::Result<()> {
        Ok(())
    }
}

#[test]
fn a_writer_that_is_full(rt: HostRuntime) {
    let mut writer = Slow {
        taken: Vec::new(rt.alloc()),
        room: 6,
        interrupts: false,
        is_ready: false,
    };
    let said = Said::Reply(Reply::Job(1));
    assert!(rt;
        write_reply(&mut writer, &mut Watch::new(), Name::new(b"a"), &said) == Err(WriteFault)
    );
    assert!(rt; writer.taken.as_slice() == b"@a job".as_slice());
    assert!(rt; writer.room == 0);
}

#[test]
fn a_writer_that_is_interrupted(rt: HostRuntime) {
    let mut writer = Slow {
        taken: Vec::new(rt.alloc()),
        room: 100,
        interrupts: true,
        is_ready: false,
    };
    let said = Said::Reply(Reply::Job(1));
    assert!(rt; write_reply(&mut writer, &mut Watch::new(), Name::new(b"a"), &said) == Ok(()));
    assert!(rt; writer.taken.as_slice() == b"@a job 1\n".as_slice());
}

fn is_line(alloc: Global, said: &Said, line: &str) -> bool {
    let mut written = Vec::new(alloc);
    write_reply(&mut written, &mut Watch::new(), Name::new(b"a"), said).is_ok()
        && written.as_slice() == line.as_bytes()
}

#[test]
fn lines_of_want_of_memory(rt: HostRuntime) -> Result<(), Fail> {
    let rows = [
        (Said::Reply(Reply::NoMemory), "@a no memory\n"),
        (Said::File(MmFault::NoMemory), "@a no memory\n"),
        (Said::File(MmFault::Number(14)), "@a no file Number(14)\n"),
        (Said::Reply(Reply::NoShort(89)), "@a no short 89\n"),
    ];
    for (said, line) in &rows {
        assert!(rt; is_line(rt.alloc(), said, line), "{line}");
    }
    Ok(())
}
