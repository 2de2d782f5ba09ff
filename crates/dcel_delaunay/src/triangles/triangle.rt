//! A triangle.

/// Three points that go round counterclockwise, by their numbers.
///
/// [`triangulate`](crate::triangulate) numbers the points of the list that it is given, and
/// [`lists::triangles`](crate::lists::triangles) the vertices.
#[repr(C)]
#[derive(Clone, Copy, PartialEq, Eq, Debug)]
pub struct Triangle {
    /// The number of one of them.
    pub first: u32,
    /// The number of the next one, counterclockwise.
    pub second: u32,
    /// The number of the one after that.
    pub third: u32,
}
