//! Where a point is: in the triangles, or on the line of all vertices.

ghost use Rattle.dcel_planar.specs.Leaving.{IsOutlined};
ghost use Rattle.dcel_planar.specs.Places.{IsPlace};

mod line;
mod scan;
mod walk;

use crate::planar::PlanarMesh;
use crate::position::PositionInTriangulation;
use dcel_predicates::Point;
use line::{at_a_vertex, locate_on_line};
use scan::scan;
use spade_dcel::handles::FixedDirectedEdgeHandle;
use std::alloc::Allocator;
use walk::{beginning, inner_half, walk};

impl<UE, A: Allocator> PlanarMesh<UE, A> {
    /// Walks from a half edge towards a point, and returns where it is.
    ///
    /// If the mesh has no such half edge, the walk begins at the first one. In a Delaunay
    /// triangulation it comes to no triangle twice. Where edges are not Delaunay it may go in
    /// circles: then each half edge is looked at.
    ///
    /// Asks for a mesh whose hull isn't to be closed ([`is_whole`](Self::is_whole)).
    pub fn locate(&self, start: FixedDirectedEdgeHandle, point: Point) -> PositionInTriangulation
        requires hull { IsOutlined self.now.dcel }
        ensures { IsPlace self.now.dcel point result }
    {
        if self.dcel.num_undirected_edges() == 0 {
            return at_a_vertex(&self.dcel, point);
        }
        let edge = beginning(&self.dcel, start);
        if self.dcel.num_faces() == 1 {
            return locate_on_line(&self.dcel, edge, point);
        }
        match walk(&self.dcel, inner_half(&self.dcel, edge), point) {
            Some(position) => position,
            None => scan(&self.dcel, point),
        }
    }
}
