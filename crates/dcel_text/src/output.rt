//! A writer that collects text before it goes to a sink.

ghost use Rattle.std.specs.Prelude.{◌≡◌, ◌∷◌, []};
ghost use Rattle.std.specs.Fmt.{decimal, signed_decimal};
ghost use Rattle.dcel_text.specs.Output.{Writing, Writes};
ghost use Rattle.dcel_text.specs.Texts.{numbered};

use crate::buffer::Buffer;
use crate::sink::LineSink;

/// How many bytes a [`Writer`] holds at most.
const ROOM: usize = 4096;

/// How many digits a `u64` has at most.
const MOST_DIGITS: usize = 20;

/// Puts the bytes into the sink until all are taken or the sink fails.
///
/// A sink that has failed gets none.
fn send<K: LineSink>(sink: &mut K, bytes: &[u8])
    ensures { Writing K.has_failed K.contents sink.old [] sink.new [] bytes.now }
{
    if sink.failed() {
        return;
    }
    let mut at = 0;
    while at < bytes.len() {
        match sink.put(&bytes[at..]) {
            Ok(n) => at += n,
            Err(_) => return,
        }
    }
}

/// A writer to a sink, which holds text until there is enough of it to be put.
///
/// It has no `Result`: once the sink has failed, nothing more is put, and
/// [`failed`](Self::failed) tells so.
#[derive(Drop)]
pub struct Writer<'a, K: LineSink> {
    sink: &'a mut K,
    held: Buffer<ROOM>,
}

impl<'a, K: LineSink> Writer<'a, K> {
    /// Creates a writer that holds nothing.
    pub fn new(sink: &'a mut K) -> Writer<'a, K>
        ensures same_reference { result.sink.ghost_name ≡ sink.entry.ghost_name }
        ensures sink { result.sink.now ≡ sink.old }
        ensures empty { result.held ≡ [] }
    {
        Writer {
            sink,
            held: Buffer::new(),
        }
    }

    /// Returns whether the sink has failed.
    pub fn failed(&self) -> bool
        ensures { result ≡ K.has_failed self.now.sink.now }
    {
        self.sink.failed()
    }

    /// Puts what is held into the sink.
    pub fn flush(&mut self)
        ensures writes { Writes K.has_failed K.contents self.old self.new [] }
        ensures empty { self.new.held ≡ [] }
    {
        send(self.sink, self.held.as_slice());
        self.held.clear();
    }

    /// Writes the bytes.
    ///
    /// They stay here until more come than fit, or until [`flush`](Self::flush).
    pub fn write(&mut self, bytes: &[u8])
        ensures { Writes K.has_failed K.contents self.old self.new bytes.now }
    {
        if bytes.len() <= self.held.room() {
            self.held.add(bytes);
            return;
        }
        self.flush();
        if bytes.len() <= ROOM {
            self.held.add(bytes);
        } else {
            send(self.sink, bytes);
        }
    }

    /// Writes a number in decimals.
    pub fn number(&mut self, n: u64)
        ensures { Writes K.has_failed K.contents self.old self.new (decimal n) }
    {
        let mut slot = [0u8; MOST_DIGITS];
        let mut at = MOST_DIGITS - 1;
        let mut high = n;
        while high >= 10 {
            slot[at] = b'0' + (high % 10) as u8;
            at -= 1;
            high /= 10;
        }
        slot[at] = b'0' + high as u8;
        self.write(&slot[at..]);
    }

    /// Writes a datum in decimals, with a minus sign if it is below zero.
    pub fn datum(&mut self, d: i64)
        ensures { Writes K.has_failed K.contents self.old self.new (signed_decimal d) }
    {
        if d < 0 {
            self.write(b"-");
        }
        self.number(d.unsigned_abs());
    }

    /// Writes a word and then a number.
    pub fn numbered(&mut self, word: &[u8], n: u64)
        ensures { Writes K.has_failed K.contents self.old self.new (numbered word.now n) }
    {
        self.write(word);
        self.number(n);
    }

    /// Writes a space and then a number.
    pub fn spaced_number(&mut self, n: u64)
        ensures { Writes K.has_failed K.contents self.old self.new (32 ∷ decimal n) }
    {
        self.write(b" ");
        self.number(n);
    }
}
