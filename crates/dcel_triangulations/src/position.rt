//! Where a point is, as C has it.

ghost use Rattle.std.specs.Prelude.{◌≡◌, ◌<◌, ◌^◌};
ghost use Rattle.dcel_triangulations.specs.Positions.{position_told, vertex_told};

use dcel_delaunay::PositionInTriangulation;
use spade_dcel::handles::FixedVertexHandle;

/// What a position's number is of: C's `enum dcel_place` has the same numbers. Here it is the place of
/// a triangle that the point is inside.
pub const ON_FACE: u32 = 0;

/// It is the half edge that the point is on.
pub const ON_EDGE: u32 = 1;

/// It is the vertex that is there.
pub const ON_VERTEX: u32 = 2;

/// It is a half edge of the outer face that has the point on its left.
pub const OUTSIDE: u32 = 3;

/// It is the vertex that ends the line of all points, before the point.
pub const BEYOND_LINE: u32 = 4;

/// There is no edge, and no vertex there: the number is 2^32 - 1.
pub const NOWHERE: u32 = 5;

/// Where a point is: C's `dcel_position`.
#[repr(C)]
#[derive(Clone, Copy)]
pub struct DcelPosition {
    /// What the number is of.
    pub kind: u32,
    /// The number of a triangle, a half edge or a vertex.
    pub number: u32,
}

/// Returns a position as C has it. A triangle has its place in the list of triangles, which begins
/// with face 1.
pub(crate) fn tell_position(position: PositionInTriangulation) -> DcelPosition
    ensures { result ≡ position_told position }
{
    match position {
        PositionInTriangulation::OnFace(face) => at(ON_FACE, face.index().saturating_sub(1)),
        PositionInTriangulation::OnEdge(edge) => at(ON_EDGE, edge.index()),
        PositionInTriangulation::OnVertex(vertex) => at(ON_VERTEX, vertex.index()),
        PositionInTriangulation::OutsideOfConvexHull(edge) => at(OUTSIDE, edge.index()),
        PositionInTriangulation::BeyondLine(vertex) => at(BEYOND_LINE, vertex.index()),
        PositionInTriangulation::NoTriangulation => at(NOWHERE, u32::MAX as usize),
    }
}

/// Returns a position with this number.
fn at(kind: u32, number: usize) -> DcelPosition
    requires { number < 2 ^ 32 }
    ensures { result ≡ record { kind = kind; number = number } }
{
    DcelPosition {
        kind,
        number: number as u32,
    }
}

/// Returns the number of a vertex, or 2^32 - 1 if there is none.
pub(crate) fn tell_vertex(vertex: Option<FixedVertexHandle>) -> u32
    ensures { result ≡ vertex_told vertex }
{
    match vertex {
        Some(vertex) => vertex.index() as u32,
        None => u32::MAX,
    }
}
