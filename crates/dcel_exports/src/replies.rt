//! The replies to lines.

ghost use Rattle.std.specs.Prelude.{◌≡◌, ◌≢◌, ◌≤◌, ◌<◌, length};
ghost use Rattle.dcel_exports.specs.Answers.{HasReplies};

use crate::buffer::put;
use crate::status::NO_MEMORY;
use dcel_commands::commands::{MAX_LIMIT, StdSink, StdSource, run};
use std::alloc::Allocator;

/// Answers the lines on an empty mesh, and puts the replies into `replies`.
///
/// As many bytes of the replies as fit are put there, from the front, and what is behind them
/// stays. `needed` is how many bytes all replies are. Returns [`DONE`](crate::status::DONE) if all
/// are there, and [`SHORT`](crate::status::SHORT) if the buffer was short;
/// [`NO_MEMORY`](crate::status::NO_MEMORY) if there was no memory for the mesh or the replies, and
/// then the buffer stays as it was and `needed` is 0.
pub fn put_replies<A: Allocator + Copy>(
    alloc: A,
    lines: &[u8],
    replies: &mut [u8],
    needed: &mut u64,
) -> u32
    ensures replies { result ≢ 2 → HasReplies lines.now replies.old replies.new needed.new }
    ensures done { result ≡ 0 → needed.new ≤ length replies.old }
    ensures short { result ≡ 1 → length replies.old < needed.new }
    ensures no_memory { result ≡ 2 → (replies.new ≡ replies.old) × (needed.new ≡ 0) }
    ensures no_other { result ≤ 2 }
{
    let mut source = StdSource::new(lines);
    let mut sink = StdSink::new(Vec::new(alloc));
    if run(alloc, &mut source, &mut sink, MAX_LIMIT).is_err() {
        *needed = 0;
        return NO_MEMORY;
    }
    let text = sink.into_inner();
    put(&text, replies, needed)
}
