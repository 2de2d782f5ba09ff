//! What exports return, besides the numbers of refusals. The same names stand in the header.

ghost use Rattle.std.specs.Prelude.{◌≡◌};
ghost use Rattle.dcel_c.specs.Lists.{buffer_status};

/// The call is carried out.
pub const DONE: u32 = 0;

/// The vertex's number is out of range.
pub const NO_SUCH_VERTEX: u32 = 1;

/// The edge's number is out of range.
pub const NO_SUCH_EDGE: u32 = 2;

/// The face's number is out of range.
pub const NO_SUCH_FACE: u32 = 3;

/// A removal is open.
pub const REMOVAL_OPEN: u32 = 4;

/// A face isn't a triangle.
pub const NOT_TRIANGLE: u32 = 13;

/// There are no numbers for so many elements.
pub const NO_ROOM: u32 = 19;

/// There was no memory, and nothing has changed.
pub const OUT_OF_MEMORY: u32 = 20;

/// There is no mesh: it was not made, or it was freed.
pub const NO_MESH: u32 = 21;

/// A buffer is short.
pub const SHORT: u32 = 22;

/// No mesh is made of what is given, and a fault says why.
pub const FAULTY: u32 = 23;

/// The faces around the vertex, or around the start of the half edge, aren't three or more inner
/// triangles that make a disc.
pub const NOT_INSIDE: u32 = 27;

/// A second edge would join two vertices.
pub const SECOND_EDGE: u32 = 28;

/// The outer face meets the vertex twice.
pub const CUT_VERTEX: u32 = 29;

/// The outer face has two half edges.
pub const SHORT_BORDER: u32 = 30;

/// No call of a list of edits has this number.
pub const NO_SUCH_EDIT: u32 = 31;

/// What answers a call for an element's number where there is none. No element has it.
pub const NONE: u64 = u64::MAX;

/// Returns whether so many items were put into a buffer with so many places.
pub fn done_or_short(needed: u64, room: usize) -> u32
    ensures { result ≡ buffer_status needed room }
{
    if (room as u64) < needed { SHORT } else { DONE }
}
