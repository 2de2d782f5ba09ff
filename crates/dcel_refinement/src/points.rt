//! A half edge of a triangle, with its points and what is beside it.

ghost use Rattle.std.specs.Prelude.{◌≡◌, ◌*◌, ◌<◌};
ghost use Rattle.dcel_maps.specs.Removals.{Closed};
ghost use Rattle.dcel_maps.specs.Shapes.{end_of, origin_of, prev_of};
ghost use Rattle.dcel_plane.specs.Plane.{point_at};

use dcel_constrained::{ConstrainedMesh, Mark};
use dcel_planar::point_of;
use dcel_predicates::Point;
use spade_dcel::handles::FixedDirectedEdgeHandle;
use spade_dcel::laws::every_mesh;
use std::alloc::Allocator;

/// The points at a half edge.
#[derive(Clone, Copy)]
pub(crate) struct Corners {
    /// Where it starts.
    pub from: Point,
    /// Where it ends.
    pub to: Point,
    /// Where the one before it starts: in a triangle, the corner opposite.
    pub opposite: Point,
}

/// Returns the points at a half edge.
pub(crate) fn corners_at<A: Allocator>(
    mesh: &ConstrainedMesh<A>,
    half: FixedDirectedEdgeHandle,
) -> Corners
    requires closed { mesh.now.shape.removal ≡ Closed }
    requires within { half < 2 * mesh.now.shape.edges }
    ensures from { result.from ≡ point_at mesh.now (origin_of mesh.now.shape half) }
    ensures to { result.to ≡ point_at mesh.now (end_of mesh.now.shape half) }
    ensures opposite { result.opposite ≡ point_at mesh.now (origin_of mesh.now.shape (prev_of mesh.now.shape half)) }
{
    every_mesh(mesh);
    let edge = mesh.directed_edge(half);
    Corners {
        from: point_of(edge.from()),
        to: point_of(edge.to()),
        opposite: point_of(edge.prev().from()),
    }
}

/// A half edge, its points, and the numbers of what is beside it.
#[derive(Clone, Copy)]
pub(crate) struct Side {
    /// Its points.
    pub corners: Corners,
    /// The half edge after it around its face.
    pub next: FixedDirectedEdgeHandle,
    /// The one before it.
    pub prev: FixedDirectedEdgeHandle,
    /// The number of its face.
    pub face: usize,
    /// Whether it is a constraint.
    pub is_constraint: bool,
}

/// Returns a half edge with what is beside it, if there is one with this number.
pub(crate) fn side_of<A: Allocator>(
    mesh: &ConstrainedMesh<A>,
    half: FixedDirectedEdgeHandle,
) -> Option<Side> {
    every_mesh(mesh);
    let edge = mesh.get_directed_edge(half)?;
    Some(Side {
        corners: Corners {
            from: point_of(edge.from()),
            to: point_of(edge.to()),
            opposite: point_of(edge.prev().from()),
        },
        next: edge.next().fix(),
        prev: edge.prev().fix(),
        face: edge.face().fix().index(),
        is_constraint: *edge.as_undirected().data() == Mark::Constraint,
    })
}
