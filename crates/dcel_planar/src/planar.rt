//! A planar mesh of points, with a list of edges that may be illegal.

ghost use Rattle.dcel_planar.specs.Growing.{HasOutside, IsTriangleMesh};

use crate::mesh::EdgeMesh;
use spade_dcel::handles::FixedUndirectedEdgeHandle;
use std::alloc::{Allocator, Global};

/// A planar mesh of points, with a list of edges that may be illegal.
///
/// The inner faces are positively oriented triangles, and the outer face goes around their convex
/// hull, unless the hull still has to be closed around the last vertex. If all points are on one
/// line, the mesh is a path along it. Edges may have data.
///
/// The fields are public for crates whose types contain a planar mesh: whoever changes them proves
/// that the mesh is planar again.
#[derive(Drop)]
pub struct PlanarMesh<UE, A: Allocator = Global> {
    /// The mesh.
    pub dcel: EdgeMesh<UE, A>,
    /// Edges that flips still have to look at.
    pub due: Vec<FixedUndirectedEdgeHandle, A>,
    pub ghost triangulated: { IsTriangleMesh dcel },
    pub ghost outlined: { ∥ HasOutside dcel due.items ∥₁ },
}
