//! The edges around a vertex listed: its own, and those across from it in its triangles.

ghost use Rattle.std.specs.Prelude.{◌≡◌, ◌<◌, ◌≤◌, ◌+◌, ◌/◌, ◌++◌, ◌∷◌, ℕ, [], OnOk, vec_capacity, vec_len};
ghost use Rattle.dcel_maps.specs.Shapes.{IsLive, next_of};
ghost use Rattle.dcel_maps.specs.Triangulations.{AllTriangles};
ghost use Rattle.dcel_maps.specs.Words.{count_of};
ghost use Rattle.dcel_delaunay.specs.Thinning.{HasPlaces, ListsAround, with_spokes};
ghost use Rattle.spade_dcel.specs.Handles.{mesh_behind, number_of};

use crate::remove::Due;
use dcel_planar::{Edge, EdgeMesh};
use spade_dcel::handles::FixedVertexHandle;
use spade_dcel::laws::every_mesh;
use std::alloc::{AllocError, Allocator};

/// Lists the edges across from a vertex in its triangles, and reserves a place for each of its own.
///
/// Flips of its edges change no other triangles, and no other edge becomes one of these. So
/// afterwards none else is to be looked at.
pub(crate) fn list_link<UE, A: Allocator, L: Allocator>(
    dcel: &EdgeMesh<UE, A>,
    due: &mut Due<L>,
    vertex: FixedVertexHandle,
) -> Result<(), AllocError>
    requires triangles { AllTriangles dcel.now.shape }
    requires vertex { vertex < dcel.now.shape.vertices }
    ensures around { OnOk result (ListsAround dcel.now.shape vertex (with_spokes dcel.now vertex due.new.items)) }
    ensures places { OnOk result (HasPlaces dcel.now vertex (vec_len due.new) (vec_capacity due.new)) }
    ensures keeps { (u : ℕ) → 0 < count_of u due.old.items → 0 < count_of u due.new.items }
{
    every_mesh(dcel);
    let mut spokes = dcel.vertex(vertex).out_edges();
    let mut listed = 0;
    while let Some(spoke) = spokes.next() {
        // Each spoke so far has a place, too.
        due.reserve(listed + 2)?;
        list_across(spoke, due);
        listed += 1;
    }
    Ok(())
}

/// Lists the edge of the half edge after this one.
fn list_across<UE, A: Allocator, L: Allocator>(half: Edge<'_, UE, A>, due: &mut Due<L>)
    requires live { IsLive (mesh_behind half).shape (number_of half) }
    requires room { vec_len due.old < vec_capacity due.old }
    ensures items { due.new.items ≡ due.old.items ++ next_of (mesh_behind half.entry).shape (number_of half.entry) / 2 ∷ [] }
    ensures len { vec_len due.new ≡ vec_len due.old + 1 }
    ensures capacity { vec_capacity due.new ≡ vec_capacity due.old }
{
    due.push_reserved(half.next().as_undirected().fix());
}

/// Lists the edges of a vertex, for which there are places.
pub(crate) fn list_spokes<UE, A: Allocator, L: Allocator>(
    dcel: &EdgeMesh<UE, A>,
    due: &mut Due<L>,
    vertex: FixedVertexHandle,
)
    requires vertex { vertex < dcel.now.shape.vertices }
    requires places { HasPlaces dcel.now vertex (vec_len due.old) (vec_capacity due.old) }
    ensures { due.new.items ≡ with_spokes dcel.now vertex due.old.items }
{
    let mut spokes = dcel.vertex(vertex).out_edges();
    while let Some(spoke) = spokes.next() {
        due.push_reserved(spoke.fix().as_undirected());
    }
}
