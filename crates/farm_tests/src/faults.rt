//! Replays whose reader or writer fails.
use crate::replays::{TREE, TREE_TOLD, TWO, spelled};
use farm_config::read_config;
use farm_core::Config;
use farm_replay::{Notes, ReplayFault, ReplayWatches, replay};
use std::alloc::{AllocError, Global};
use std::io;
use std::io::{Error, ErrorKind, Read, Write};
use std::process::Abort;
use std::test::Fail;

// Gives at most three bytes at a time, and fails after the last one.
#[derive(Drop)]
struct Cut<'a> {
    rest: &'a [u8],
}

impl<'a> Read for Cut<'a> {
    fn read(&mut self, buf: &mut [u8]) -> io::Result<usize> {
        if self.rest.is_empty() {
            return Err(Error::from(ErrorKind::Other));
        }
        let most = self.rest.len().min(3).min(buf.len());
        buf[..most].copy_from_slice(&self.rest[..most]);
        self.rest = &self.rest[most..];
        Ok(most)
    }
}

// Takes bytes up to its room, and from then on takes none, or fails.
#[derive(Drop)]
struct Full {
    taken: Vec<u8>,
    room: usize,
    fails: bool,
}

impl Write for Full {
    fn write(&mut self, buf: &[u8]) -> io::Result<usize> {
        if self.room == 0 && self.fails {
            return Err(Error::from(ErrorKind::Other));
        }
        let most = self.room.min(buf.len());
        self.taken.extend_from_slice(&buf[..most])?;
        self.room -= most;
        Ok(most)
    }

    fn flush(&mut self) -> io::Result<()> {
        Ok(())
    }
}

// Takes one byte at each write, and fails from a write on.
#[derive(Drop)]
struct Narrow {
    taken: Vec<u8>,
    writes: usize,
}

impl Write for Narrow {
    fn write(&mut self, buf: &[u8]) -> io::Result<usize> {
        if self.writes == 0 {
            return Err(Error::from(ErrorKind::Other));
        }
        let most = buf.len().min(1);
        self.taken.extend_from_slice(&buf[..most])?;
        self.writes -= 1;
        Ok(most)
    }

    fn flush(&mut self) -> io::Result<()> {
        Ok(())
    }
}

// Has memory for all lines.
fn room_for_lines(alloc: Global) -> Result<Vec<u8>, AllocError> {
    let mut room = Vec::new(alloc);
    room.reserve(4096)?;
    Ok(room)
}

fn line_ends(bytes: &[u8]) -> usize {
    bytes.iter().filter(|byte| **byte == b'\n').count()
}

fn first_lines(text: &[u8], count: usize) -> &[u8] {
    let mut left = count;
    for (at, byte) in text.iter().enumerate() {
        if left == 0 {
            return &text[..at];
        }
        if *byte == b'\n' {
            left -= 1;
        }
    }
    text
}

// If the reader fails after `bytes`, the requests that were read whole are answered. The first has
// 20 lines, and each other one has one.
fn is_cut_off(rt: &impl Abort, alloc: Global, config: &Config, bytes: &[u8]) -> Result<(), Fail> {
    let mut written = room_for_lines(alloc)?;
    let reader = Cut { rest: bytes };
    let ended = replay(
        alloc,
        config,
        reader,
        &mut written,
        &mut ReplayWatches::new(),
        &mut Notes::default(),
    );
    let expected = first_lines(TREE_TOLD.as_bytes(), line_ends(bytes).saturating_sub(19));
    assert!(rt;
        ended == Err(ReplayFault::Read),
        "after {} bytes",
        bytes.len()
    );
    assert!(rt;
        written.as_slice() == expected,
        "after {} bytes",
        bytes.len()
    );
    Ok(())
}

#[test]
fn readers_that_fail(rt: HostRuntime) -> Result<(), Fail> {
    let config = read_config(rt.alloc(), TWO.as_bytes())?;
    let script = spelled(rt.alloc(), TREE)?;
    for most in 0..=script.len() {
        is_cut_off(&rt, rt.alloc(), &config, &script.as_bytes()[..most])?;
    }
    Ok(())
}

// What a writer with limited room has taken, and the result of the replay.
fn written_into(
    alloc: Global,
    config: &Config,
    script: &str,
    room: usize,
    fails: bool,
) -> Result<(Vec<u8>, Result<(), ReplayFault>), AllocError> {
    let taken = room_for_lines(alloc)?;
    let mut writer = Full { taken, room, fails };
    let ended = replay(
        alloc,
        config,
        script.as_bytes(),
        &mut writer,
        &mut ReplayWatches::new(),
        &mut Notes::default(),
    );
    Ok((writer.taken, ended))
}

// A writer with too little room holds whole lines, and a prefix of the next one.
#[test]
fn writers_that_fail(rt: HostRuntime) -> Result<(), Fail> {
    let config = read_config(rt.alloc(), TWO.as_bytes())?;
    let script = spelled(rt.alloc(), TREE)?;
    let expected = TREE_TOLD.as_bytes();
    for most in (0..2 * expected.len()).rev() {
        let (room, fails) = (most / 2, most % 2 == 1);
        let (taken, ended) = written_into(rt.alloc(), &config, &script, room, fails)?;
        assert!(rt; ended == Err(ReplayFault::Write), "after {room} bytes");
        assert!(rt; expected.starts_with(&taken), "after {room} bytes");
        assert!(rt;
            line_ends(&taken) == line_ends(&expected[..room]),
            "after {room} bytes"
        );
    }
    Ok(())
}

#[test]
fn a_writer_with_just_enough_room(rt: HostRuntime) -> Result<(), Fail> {
    let config = read_config(rt.alloc(), TWO.as_bytes())?;
    let script = spelled(rt.alloc(), TREE)?;
    let (taken, ended) = written_into(rt.alloc(), &config, &script, TREE_TOLD.len(), true)?;
    assert!(rt; ended == Ok(()));
    assert!(rt; taken.as_slice() == TREE_TOLD.as_bytes());
    Ok(())
}

// If each write takes one byte and a later one fails, each byte before it is kept.
#[test]
fn writers_of_one_byte(rt: HostRuntime) -> Result<(), Fail> {
    let config = read_config(rt.alloc(), TWO.as_bytes())?;
    let script = spelled(rt.alloc(), TREE)?;
    let expected = TREE_TOLD.as_bytes();
    for writes in 0..=expected.len() {
        let taken = room_for_lines(rt.alloc())?;
        let mut writer = Narrow { taken, writes };
        let ended = replay(
            rt.alloc(),
            &config,
            script.as_bytes(),
            &mut writer,
            &mut ReplayWatches::new(),
            &mut Notes::default(),
        );
        let is_whole = writes == expected.len();
        assert!(rt; ended.is_ok() == is_whole, "after {writes} writes");
        assert!(rt;
            is_whole || ended == Err(ReplayFault::Write),
            "after {writes} writes"
        );
        assert!(rt;
            writer.taken.as_slice() == &expected[..writes],
            "after {writes} writes"
        );
    }
    Ok(())
}
