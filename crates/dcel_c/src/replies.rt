//! The replies to lines.

ghost use Rattle.std.specs.Prelude.{◌≡◌, ◌≢◌, length};
ghost use Rattle.dcel_exports.specs.Answers.{HasReplies};
ghost use Rattle.dcel_c.specs.Lists.{buffer_status};

use crate::status::{OUT_OF_MEMORY, done_or_short};
use dcel_exports::put_replies;
use dcel_exports::status::NO_MEMORY;
use std::alloc::Global;

/// Answers the lines on an empty mesh of its own, which isn't kept, and puts the replies into the
/// buffer.
///
/// As many bytes of the replies as fit are put there, from the front, and what lies behind them
/// stays. `needed` is how many bytes all replies are. If there is no memory for the mesh or the
/// replies, the buffer stays as it was, and `needed` is 0.
#[unsafe(no_mangle)]
pub extern "C" fn dcel_replies(
    alloc: Global,
    lines: &[u8],
    replies: &mut [u8],
    needed: &mut u64,
) -> u32
    ensures replies { result ≢ 20 → HasReplies lines.now replies.old replies.new needed.new }
    ensures status { result ≢ 20 → result ≡ buffer_status needed.new (length replies.old) }
    ensures no_memory { result ≡ 20 → (replies.new ≡ replies.old) × (needed.new ≡ 0) }
{
    if put_replies(alloc, lines, replies, needed) == NO_MEMORY {
        return OUT_OF_MEMORY;
    }
    done_or_short(*needed, replies.len())
}
