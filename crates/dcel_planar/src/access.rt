//! A planar mesh created, and what one may read of it.

ghost use Rattle.std.specs.Prelude.{◌≡◌, ◌↔◌, [], IfOk, IsTrue};
ghost use Rattle.dcel_planar.specs.Growing.{IsTriangulation};
ghost use Rattle.dcel_planar.specs.Leaving.{IsOutlined};
ghost use Rattle.dcel_planar.specs.Outcomes.{IsWholeMesh};

use crate::mesh::EdgeMesh;
use crate::planar::PlanarMesh;
use spade_dcel::operations::new;
use std::alloc::{AllocError, Allocator};

impl<UE: Drop, A: Allocator + Clone> PlanarMesh<UE, A> {
    /// Creates a mesh of no points. If memory runs out it returns `AllocError`.
    pub fn new(alloc: A) -> Result<Self, AllocError>
        ensures empty { IfOk result (λ m. m.dcel.vertex_data ≡ []) }
        ensures whole { IfOk result IsWholeMesh }
        ensures delaunay { IfOk result (λ m. IsTriangulation m.dcel) }
    {
        let due = Vec::new(alloc.clone()?);
        let dcel = new(alloc)?;
        Ok(PlanarMesh { dcel, due })
    }
}

impl<UE, A: Allocator> PlanarMesh<UE, A> {
    /// Lends the mesh.
    #[inline]
    pub fn dcel(&self) -> &EdgeMesh<UE, A>
        ensures { result.now ≡ self.now.dcel }
    {
        &self.dcel
    }

    /// Returns whether no edge is still to be looked at. The hull isn't to be closed then.
    #[inline]
    pub fn is_whole(&self) -> bool
        ensures whole { IsTrue result ↔ IsWholeMesh self.now }
        ensures hull { IsTrue result → IsOutlined self.now.dcel }
    {
        self.due.is_empty()
    }
}
