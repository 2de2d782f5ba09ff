//! Sinks, which take the bytes of replies.

ghost use Rattle.std.specs.Prelude.{◌≡◌, ◌<◌, ℕ, Bool, true, false, List, Option, IfOk, OnOk, OnErr, length};
ghost use Rattle.std.specs.Io.{WritesAtMost};
ghost use Rattle.dcel_text.specs.Transfer.{PutTakes, PutsOnce};

use crate::faults::Failed;
use crate::once::WriteOnce;

/// A sink of bytes.
///
/// A contract may know the bytes that it took, or not.
pub trait LineSink {
    // the bytes taken, where the sink tells them
    ghost contents: { Self → Option (List ℕ) };

    // whether a call has failed
    ghost has_failed: { Self → Bool };

    /// Takes the first bytes of `bytes`, and returns how many.
    ///
    /// At least one is taken, unless `bytes` is empty; they come after those taken before. After
    /// an `Err` the sink has failed, and the bytes taken are as before, or no longer known.
    fn put(&mut self, bytes: &[u8]) -> Result<usize, Failed>
        ensures bound { WritesAtMost result bytes.now }
        ensures bytes { PutTakes (contents self.old) (contents self.new) result bytes.now }
        ensures some { IfOk result (λ n. 0 < length bytes.now → 0 < n) }
        ensures calm { OnOk result (has_failed self.new ≡ has_failed self.old) }
        ensures fails { OnErr result (has_failed self.new ≡ true) };

    /// Returns whether a call of [`put`](Self::put) has failed.
    fn failed(&self) -> bool
        ensures { result ≡ has_failed self.now };
}

/// A sink whose bytes go to a writer. Each call of `put` writes once.
///
/// The bytes taken are those that the writer took. A writer that holds bytes back, such as a
/// `BufWriter`, may not have passed them on: flush it after [`into_inner`](Self::into_inner).
#[derive(Drop)]
pub struct StdSink<W: WriteOnce + Drop> {
    writer: W,
    failed: bool,
}

impl<W: WriteOnce + Drop> StdSink<W> {
    /// Creates a sink that hasn't failed, and whose bytes come after those that the writer has.
    pub fn new(writer: W) -> Self
        ensures bytes { ⟦<StdSink<W> as LineSink>⟧.contents result ≡ W.contents writer }
        ensures calm { ⟦<StdSink<W> as LineSink>⟧.has_failed result ≡ false }
        ensures writer { result.writer ≡ writer }
    {
        StdSink {
            writer,
            failed: false,
        }
    }

    /// Returns the writer, as the writes left it.
    pub fn into_inner(self) -> W
        ensures writer { result ≡ self.writer }
        ensures bytes { W.contents result ≡ ⟦<StdSink<W> as LineSink>⟧.contents self }
    {
        self.writer
    }
}

impl<W: WriteOnce + Drop> LineSink for StdSink<W> {
    ghost contents = { λ s. W.contents s.writer };

    ghost has_failed = { λ s. s.failed };

    /// Writes once, and returns how many bytes that write took.
    ///
    /// Fails if that write failed, or took no byte although `bytes` isn't empty.
    fn put(&mut self, bytes: &[u8]) -> Result<usize, Failed>
        // As at every sink.
        ensures bound { WritesAtMost result bytes.now }
        ensures bytes { PutTakes (W.contents self.old.writer) (W.contents self.new.writer) result bytes.now }
        ensures some { IfOk result (λ n. 0 < length bytes.now → 0 < n) }
        ensures calm { OnOk result (self.new.failed ≡ self.old.failed) }
        ensures fails { OnErr result (self.new.failed ≡ true) }

        ensures one_write { PutsOnce (λ outcome. W.write_gives self.old.writer bytes.now outcome self.new.writer) bytes.now result }
    {
        let result = match self.writer.write_once(bytes) {
            Ok(0) if !bytes.is_empty() => Err(Failed),
            result => result,
        };
        if result.is_err() {
            self.failed = true;
        }
        result
    }

    fn failed(&self) -> bool {
        self.failed
    }
}
