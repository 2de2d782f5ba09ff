//! Lists of numbers, in and out.

ghost use Rattle.std.specs.Prelude.{◌≡◌, IfOk};
ghost use Rattle.dcel_exports.specs.Answers.{filled};

use dcel_fixed::{FixedHandleImpl, InnerOuterMarker};
use std::alloc::{AllocError, Global};

/// Returns the numbers as handles.
pub fn handles<Kind, InnerOuter: InnerOuterMarker>(
    alloc: Global,
    numbers: &[u32],
) -> Result<Vec<FixedHandleImpl<Kind, InnerOuter>, Global>, AllocError>
    ensures { IfOk result (λ list. list.items ≡ numbers.now) }
{
    let mut list = Vec::with_capacity(alloc, numbers.len())?;
    let mut at = 0;
    while at < numbers.len() {
        list.push(FixedHandleImpl::new(numbers[at] as usize))?;
        at += 1;
    }
    Ok(list)
}

/// Puts the numbers of the handles into the buffer, as many as fit.
pub fn put<Kind, InnerOuter: InnerOuterMarker>(
    list: &[FixedHandleImpl<Kind, InnerOuter>],
    buffer: &mut [u32],
)
    ensures { buffer.new ≡ filled list.now buffer.old }
{
    let fitting = list.len().min(buffer.len());
    let mut at = 0;
    while at < fitting {
        buffer[at] = list[at].index() as u32;
        at += 1;
    }
}
