//! A buffer of bytes with a fixed capacity.

ghost use Rattle.std.specs.Prelude.{◌≡◌, ◌↔◌, ◌+◌, ◌≤◌, ◌++◌, [], IsTrue, length, take};

use std::marker::Model;

/// A list of at most `N` bytes, held in place: it never allocates.
#[derive(Drop)]
pub struct Buffer<const N: usize> {
    bytes: [u8; N],
    len: usize,
}

impl<const N: usize> Model for Buffer<N> {
    ghost use Rattle.std.specs.Prelude.{◌≤◌, ℕ, List, take};

    ghost Value = { List ℕ };

    ghost view = { λ buffer. take buffer.len buffer.bytes };

    ghost invariant = { λ buffer. buffer.len ≤ N };
}

impl<const N: usize> Buffer<N> {
    /// Creates an empty buffer.
    pub fn new() -> Self
        ensures { result ≡ [] }
    {
        Buffer {
            bytes: [0; N],
            len: 0,
        }
    }

    /// Returns how many more bytes fit.
    pub fn room(&self) -> usize
        ensures { length self.now + result ≡ N }
    {
        N - self.len
    }

    /// Appends the bytes.
    ///
    /// Asks that they fit ([`room`](Self::room)).
    pub fn add(&mut self, bytes: &[u8])
        requires { length self.old + length bytes.now ≤ N }
        ensures { self.new ≡ self.old ++ bytes.now }
    {
        let end = self.len + bytes.len();
        let all = &mut self.bytes[..];
        all[self.len..end].copy_from_slice(bytes);
        self.len = end;
    }

    /// Appends as many of the bytes as fit, and drops the others.
    pub fn add_some(&mut self, bytes: &[u8])
        ensures { self.new ≡ take N (self.old ++ bytes.now) }
    {
        let count = bytes.len().min(self.room());
        self.add(&bytes[..count]);
    }

    /// Returns the bytes.
    pub fn as_slice(&self) -> &[u8]
        ensures { result.now ≡ self.now }
    {
        let all = &self.bytes[..];
        &all[..self.len]
    }

    /// Returns whether there is no byte.
    pub fn is_empty(&self) -> bool
        ensures { IsTrue result ↔ (self.now ≡ []) }
    {
        self.len == 0
    }

    /// Removes all bytes.
    pub fn clear(&mut self)
        ensures { self.new ≡ [] }
    {
        self.len = 0;
    }
}
