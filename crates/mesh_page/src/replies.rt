//! The replies to lines.

ghost use Rattle.std.specs.Prelude.{◌≡◌, ◌≢◌, ◌≤◌, ◌<◌, length};
ghost use Rattle.dcel_exports.specs.Answers.{HasReplies};

use dcel_exports::put_replies;
use lent_heap::{Heap, Memory};

/// Answers the lines on an empty mesh, and puts the replies into `replies`.
///
/// As many bytes of the replies as fit are put there, from the front, and what lies behind them
/// stays. `needed` is how many bytes all replies are. Returns 0 if all are there, and 1 if the
/// buffer was short; 2 if the memory lent was too small for the mesh or the replies, and then the
/// buffer stays as it was and `needed` is 0. A line that finds too little memory is refused in its
/// reply.
#[unsafe(no_mangle)]
pub extern "C" fn mesh_page_replies(
    memory: Memory,
    lines: &[u8],
    replies: &mut [u8],
    needed: &mut u64,
) -> u32
    ensures replies { result ≢ 2 → HasReplies lines.now replies.old replies.new needed.new }
    ensures done { result ≡ 0 → needed.new ≤ length replies.old }
    ensures short { result ≡ 1 → length replies.old < needed.new }
    ensures no_memory { result ≡ 2 → (replies.new ≡ replies.old) × (needed.new ≡ 0) }
    ensures no_other { result ≤ 2 }
{
    let heap = Heap::new(memory);
    put_replies(&heap, lines, replies, needed)
}
