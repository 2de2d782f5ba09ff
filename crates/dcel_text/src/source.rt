//! Sources, which give the bytes of lines.

ghost use Rattle.std.specs.Prelude.{◌≡◌, ◌<◌, ◌+◌, ◌-◌, ◌^◌, ◌↔◌, ℕ, Bool, true, false, List, Option, IfOk, OnOk, OnErr, IsErr, length};
ghost use Rattle.std.specs.Io.{ReadsAtMost};
ghost use Rattle.std.specs.Io.KnownBytes.{IsAtEnd};
ghost use Rattle.dcel_text.specs.Transfer.{FillGives, IsAtEnd-prop};

use crate::faults::Failed;
use crate::once::ReadOnce;

/// A source of bytes.
///
/// A contract may know the bytes to come, or not.
pub trait LineSource {
    // the bytes to come, where the source tells them
    ghost remaining: { Self → Option (List ℕ) };

    // whether a call has failed
    ghost has_failed: { Self → Bool };

    // a number that falls with each call that gives a byte
    ghost calls_left: { Self → ℕ };

    /// Puts the next bytes at the front of `buf`, and returns how many.
    ///
    /// Returns 0 only at the end or for an empty `buf`. After an `Err` the source has failed, and
    /// the bytes to come are as before, or no longer known.
    fn fill(&mut self, buf: &mut [u8]) -> Result<usize, Failed>
        ensures bound { ReadsAtMost result buf.new }
        ensures bytes { FillGives (remaining self.old) (remaining self.new) result buf.new }
        ensures falls { IfOk result (λ n. 0 < n → calls_left self.new < calls_left self.old) }
        ensures calm { OnOk result (has_failed self.new ≡ has_failed self.old) }
        ensures fails { OnErr result (has_failed self.new ≡ true) };

    /// Returns whether a call of [`fill`](Self::fill) has failed.
    fn failed(&self) -> bool
        ensures { result ≡ has_failed self.now };
}

/// A source whose bytes come from a reader. Each call of `fill` reads at most once.
///
/// It reads at most 2^64 - 1 times, so that a loop over it ends whatever the reader gives.
#[derive(Drop)]
pub struct StdSource<R: ReadOnce + Drop> {
    reader: R,
    /// The number of reads that are left.
    reads_left: u64,
    /// Whether a read reached the reader's end.
    ended: bool,
    failed: bool,
    // an ended reader has no known byte left
    ghost at_end: { ended ≡ true → IsAtEnd (R.remaining reader) } by { Prim.hlevel IsAtEnd-prop },
}

impl<R: ReadOnce + Drop> StdSource<R> {
    /// Creates a source of what the reader has left, which has neither ended nor failed.
    pub fn new(reader: R) -> Self
        ensures bytes { ⟦<StdSource<R> as LineSource>⟧.remaining result ≡ R.remaining reader }
        ensures calm { ⟦<StdSource<R> as LineSource>⟧.has_failed result ≡ false }
        ensures reads { ⟦<StdSource<R> as LineSource>⟧.calls_left result ≡ 2 ^ 64 - 1 }
        ensures reader { result.reader ≡ reader }
        ensures open { result.ended ≡ false }
    {
        StdSource {
            reader,
            reads_left: u64::MAX,
            ended: false,
            failed: false,
        }
    }

    /// Returns the reader, as the reads left it.
    pub fn into_inner(self) -> R
        ensures reader { result ≡ self.reader }
        ensures bytes { R.remaining result ≡ ⟦<StdSource<R> as LineSource>⟧.remaining self }
    {
        self.reader
    }
}

impl<R: ReadOnce + Drop> LineSource for StdSource<R> {
    ghost remaining = { λ s. R.remaining s.reader };

    ghost has_failed = { λ s. s.failed };

    ghost calls_left = { λ s. s.reads_left };

    /// Reads once, and returns what that read gave.
    ///
    /// Fails if that read failed, and without a read after 2^64 - 1 reads. If a read gives nothing
    /// although `buf` has room, the source has ended: from then on this returns 0 and doesn't read.
    #[tactic(auto, using(crate::proofs::Reading::reads_nothing))]
    fn fill(&mut self, buf: &mut [u8]) -> Result<usize, Failed>
        // As at every source.
        ensures bound { ReadsAtMost result buf.new }
        ensures bytes { FillGives (R.remaining self.old.reader) (R.remaining self.new.reader) result buf.new }
        ensures falls { IfOk result (λ n. 0 < n → self.new.reads_left < self.old.reads_left) }
        ensures calm { OnOk result (self.new.failed ≡ self.old.failed) }
        ensures fails { OnErr result (self.new.failed ≡ true) }

        ensures one_read { self.old.ended ≡ false → 0 < self.old.reads_left →
            R.read_gives self.old.reader buf.old result buf.new self.new.reader }
        ensures counts { self.old.ended ≡ false → 0 < self.old.reads_left → self.new.reads_left + 1 ≡ self.old.reads_left }
        ensures ends { self.old.ended ≡ false → (self.new.ended ≡ true) ↔ ((result ≡ Ok 0) × 0 < length buf.old) }

        // Nothing is read after the end, or if no read is left.
        ensures ended { self.old.ended ≡ true → (result ≡ Ok 0) × (self.new ≡ self.old) × (buf.new ≡ buf.old) }
        ensures used_up { self.old.ended ≡ false → self.old.reads_left ≡ 0 →
            IsErr result × (self.new.reader ≡ self.old.reader) × (self.new.reads_left ≡ 0) × (buf.new ≡ buf.old) }
    {
        if self.ended {
            return Ok(0);
        }
        if self.reads_left == 0 {
            self.failed = true;
            return Err(Failed);
        }
        self.reads_left -= 1;
        let result = self.reader.read_once(buf);
        match &result {
            Ok(n) => self.ended = *n == 0 && !buf.is_empty(),
            Err(_) => self.failed = true,
        }
        result
    }

    fn failed(&self) -> bool {
        self.failed
    }
}
