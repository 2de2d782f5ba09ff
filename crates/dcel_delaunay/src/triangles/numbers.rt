//! Which point is at a vertex.

ghost use Rattle.std.specs.Prelude.{◌≡◌, IfOk, length};
ghost use Rattle.dcel_delaunay.specs.Listing.{NamesLeast};

use spade_dcel::handles::FixedVertexHandle;
use std::alloc::{AllocError, Allocator};

/// Returns the least number of a point at each of so many vertices, where each point has its vertex.
///
/// A vertex without a point gets any number. If memory runs out, or there are too many points for
/// numbers of 32 bits, it returns `AllocError`.
pub fn least_numbers<A: Allocator>(
    alloc: A,
    vertices: &[FixedVertexHandle],
    count: usize,
) -> Result<Vec<u32, A>, AllocError>
    ensures count { IfOk result (λ numbers. length numbers.items ≡ count) }
    ensures least { IfOk result (λ numbers. NamesLeast vertices.now 0 numbers.items) }
{
    let mut numbers = vec![in alloc; 0; count]?;
    let mut left = vertices.len();
    while left > 0 {
        left -= 1;
        let Ok(number) = u32::try_from(left) else {
            return Err(AllocError);
        };
        let vertex = vertices[left].index();
        if vertex < numbers.len() {
            numbers[vertex] = number;
        }
    }
    Ok(numbers)
}
