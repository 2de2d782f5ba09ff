//! Traits for one read and one write, which a contract can tell from none and from two.

ghost use Rattle.std.specs.Prelude.{ℕ, List, Option, Result};
ghost use Rattle.std.specs.Io.{ReadsAtMost, WritesAtMost};
ghost use Rattle.std.specs.Io.KnownBytes.{ReadConsumes, WriteAppends};
ghost use Rattle.dcel_text.specs.declared.faults.Failed.{Failed};

use crate::faults::Failed;
use std::io::{Read, Write};

/// A reader whose single reads a contract can name. Every std reader is one.
///
/// Code that is generic over this trait can show `read_gives` of two states of the reader only by
/// a call of [`read_once`](Self::read_once) that leads from one to the other.
pub trait ReadOnce {
    // the bytes that reads will give, where they are known
    ghost remaining: { Self → Option (List ℕ) };

    // the reader and the buffer before one read, its result, and the buffer and the reader after it
    ghost read_gives: { Self → List ℕ → Result ℕ Failed → List ℕ → Self → Type 0 };

    /// Reads once into `buf`, and returns how many bytes came.
    ///
    /// Returns [`Failed`] if the read failed.
    fn read_once(&mut self, buf: &mut [u8]) -> Result<usize, Failed>
        ensures one_read { read_gives self.old buf.old result buf.new self.new }
        ensures bound { ReadsAtMost result buf.new }
        ensures bytes { ReadConsumes (remaining self.old) (remaining self.new) result buf.new };
}

impl<R: Read> ReadOnce for R {
    ghost remaining = { λ r. R.remaining r };

    ghost read_gives = { λ old before result after new. ReadConsumes (R.remaining old) (R.remaining new) result after };

    fn read_once(&mut self, buf: &mut [u8]) -> Result<usize, Failed> {
        self.read(buf).map_err(|_| Failed)
    }
}

/// A writer whose single writes a contract can name. Every std writer is one.
///
/// Code that is generic over this trait can show `write_gives` of two states of the writer only by
/// a call of [`write_once`](Self::write_once) that leads from one to the other.
pub trait WriteOnce {
    // the bytes that the writer holds, where they are known
    ghost contents: { Self → Option (List ℕ) };

    // the writer before one write, the text, its result, and the writer after it
    ghost write_gives: { Self → List ℕ → Result ℕ Failed → Self → Type 0 };

    /// Writes once, and returns how many of the bytes were taken.
    ///
    /// Returns [`Failed`] if the write failed.
    fn write_once(&mut self, bytes: &[u8]) -> Result<usize, Failed>
        ensures one_write { write_gives self.old bytes.now result self.new }
        ensures bound { WritesAtMost result bytes.now }
        ensures bytes { WriteAppends (contents self.old) (contents self.new) result bytes.now };
}

impl<W: Write> WriteOnce for W {
    ghost contents = { λ w. W.contents w };

    ghost write_gives = { λ old bytes result new. WriteAppends (W.contents old) (W.contents new) result bytes };

    fn write_once(&mut self, bytes: &[u8]) -> Result<usize, Failed> {
        self.write(bytes).map_err(|_| Failed)
    }
}
