//! Swapping two vertices.

ghost use Rattle.std.specs.Prelude.{◌≡◌, ◌∷◌, [], true};
ghost use Rattle.dcel_maps.specs.EditLists.{EditedBy};
ghost use Rattle.dcel_maps.specs.EditLists.EditKind.{numbers_changed};
ghost use Rattle.dcel_maps.specs.edits.Rename.{vertices_swapped};
ghost use Rattle.dcel_maps.specs.Shapes.{IsMesh, vertex_is_live};

use crate::dcel::Dcel;
use dcel_edits::rename::exchange_vertices;
use dcel_fixed::FixedVertexHandle;
use std::alloc::Allocator;

/// Swaps.
impl<V, DE, UE, F, A: Allocator> Dcel<V, DE, UE, F, A> {
    /// Swaps two vertices: their data, their anchors and the half edges that start there.
    ///
    /// ```text
    /// before                                   after
    /// first ---> x       y <--- second         second ---> x       y <--- first
    /// ```
    ///
    /// The two may be the same vertex, and then nothing changes. It allocates nothing.
    ///
    /// Asks that both are live ([`is_live_vertex`](Self::is_live_vertex)).
    pub fn swap_vertices(&mut self, first: FixedVertexHandle, second: FixedVertexHandle)
        requires first_live { vertex_is_live self.old.shape first ≡ true }
        requires second_live { vertex_is_live self.old.shape second ≡ true }
        ensures edit { self.new ≡ vertices_swapped self.old first second }
        ensures edits { EditedBy (numbers_changed ∷ []) self.old self.new }
        ensures mesh { IsMesh self.new }
    {
        exchange_vertices(&mut self.store, first, second);
    }
}
