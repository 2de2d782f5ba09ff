//! What exports return.

ghost use Rattle.std.specs.Prelude.{◌≡◌, ◌≤◌, ◌<◌};

/// All of the answer is in the buffer.
pub const DONE: u32 = 0;

/// The buffer was short: it has the first part of the answer, as much as it holds.
pub const SHORT: u32 = 1;

/// There was no memory, and nothing was put into the buffer.
pub const NO_MEMORY: u32 = 2;

/// Returns whether an answer of this many items is done or short of the room that there is.
pub fn done_or_short(needed: usize, room: usize) -> u32
    ensures done { result ≡ 0 → needed ≤ room }
    ensures short { result ≡ 1 → room < needed }
    ensures no_other { result ≤ 1 }
{
    if needed <= room { DONE } else { SHORT }
}
