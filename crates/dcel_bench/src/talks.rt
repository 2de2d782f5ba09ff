//! The outcome of a run over known lines.

ghost use Rattle.std.specs.Prelude.{◌≤◌, ◌^◌};

use crate::meshes::NO_LIMIT;
use dcel_commands::commands::{RunFault, StdSink, StdSource, run};
use std::alloc::{AllocError, Allocator, Global};
use std::io;
use std::io::{Error, ErrorKind, Read, Write};

/// Adds a line and its line feed.
pub fn push_line(text: &mut Vec<u8>, line: &str) -> Result<(), AllocError> {
    text.extend_from_slice(line.as_bytes())?;
    text.push(b'\n')?;
    Ok(())
}

/// More bytes and calls than any test needs.
pub const PLENTY: usize = 1_000_000;

/// Gives some bytes at a time, and fails after some calls.
#[derive(Drop)]
struct Giver<'a> {
    bytes: &'a [u8],
    chunk: usize,
    calls: usize,
}

impl<'a> Read for Giver<'a> {
    fn read(&mut self, buf: &mut [u8]) -> io::Result<usize> {
        if self.calls == 0 {
            return Err(Error::from(ErrorKind::Other));
        }
        self.calls -= 1;
        let n = self.bytes.len().min(self.chunk).min(buf.len());
        buf[..n].copy_from_slice(&self.bytes[..n]);
        self.bytes = &self.bytes[n..];
        Ok(n)
    }
}

/// Takes some bytes at a time, and fails once there is no room left.
#[derive(Drop)]
struct Taker {
    bytes: Vec<u8>,
    chunk: usize,
    room: usize,
}

impl Write for Taker {
    fn write(&mut self, buf: &[u8]) -> io::Result<usize> {
        if self.room == 0 {
            return Err(Error::from(ErrorKind::Other));
        }
        let n = buf.len().min(self.chunk).min(self.room);
        self.bytes.extend_from_slice(&buf[..n])?;
        self.room -= n;
        Ok(n)
    }

    fn flush(&mut self) -> io::Result<()> {
        Ok(())
    }
}

/// The outcome of a run.
#[derive(Drop)]
pub struct Ran {
    /// How it ended.
    pub ended: Result<(), RunFault>,
    /// Whether it asked for bytes.
    pub has_read: bool,
    /// What it wrote.
    pub written: Vec<u8>,
}

/// Runs the lines with reads of `chunk` bytes that fail after `calls`, and writes of as many that
/// fail after `room` bytes; returns how the run ended and what it wrote.
pub fn answers(
    alloc: Global,
    limit: usize,
    lines: &[u8],
    chunk: usize,
    calls: usize,
    room: usize,
) -> (Result<(), RunFault>, Vec<u8>)
    requires { limit ≤ 2 ^ 31 }
{
    let giver = Giver {
        bytes: lines,
        chunk,
        calls,
    };
    let taker = Taker {
        bytes: Vec::new(alloc),
        chunk,
        room,
    };
    let ran = run_in(alloc, limit, giver, taker);
    (ran.ended, ran.written)
}

/// Runs the lines with the mesh in some memory; reads and writes don't fail.
pub fn run_lines<A: Allocator + Clone>(memory: A, lines: &[u8], alloc: Global) -> Ran {
    let giver = Giver {
        bytes: lines,
        chunk: PLENTY,
        calls: PLENTY,
    };
    let taker = Taker {
        bytes: Vec::new(alloc),
        chunk: PLENTY,
        room: PLENTY,
    };
    run_in(memory, NO_LIMIT, giver, taker)
}

// Runs the lines that `giver` gives, with the mesh in some memory.
fn run_in<'a, A: Allocator + Clone>(
    memory: A,
    limit: usize,
    mut giver: Giver<'a>,
    mut taker: Taker,
) -> Ran
    requires { limit ≤ 2 ^ 31 }
{
    let calls = giver.calls;
    let mut source = StdSource::new(&mut giver);
    let mut sink = StdSink::new(&mut taker);
    let ended = run(memory, &mut source, &mut sink, limit);
    Ran {
        ended,
        has_read: giver.calls < calls,
        written: taker.bytes,
    }
}
