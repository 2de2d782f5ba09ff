//! An answer put into a buffer.

ghost use Rattle.std.specs.Prelude.{◌≡◌, ◌≤◌, ◌<◌, length};
ghost use Rattle.dcel_exports.specs.Answers.{filled};

use crate::status::done_or_short;

/// Puts the items of a list into a buffer, as many as fit, from the front. What is behind them
/// stays. `needed` is how many items there are.
///
/// Returns [`DONE`](crate::status::DONE) if all are there, and [`SHORT`](crate::status::SHORT) if
/// the buffer is short.
pub fn put<T: Copy>(list: &[T], buffer: &mut [T], needed: &mut u64) -> u32
    ensures put { buffer.new ≡ filled list.now buffer.old }
    ensures counted { needed.new ≡ length list.now }
    ensures done { result ≡ 0 → length list.now ≤ length buffer.old }
    ensures short { result ≡ 1 → length buffer.old < length list.now }
    ensures no_other { result ≤ 1 }
{
    let room = buffer.len();
    let fitting = list.len().min(room);
    buffer[..fitting].copy_from_slice(&list[..fitting]);
    *needed = list.len() as u64;
    done_or_short(list.len(), room)
}
