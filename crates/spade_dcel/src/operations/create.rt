//! Creating a mesh, its vertices and its first edge.

ghost use Rattle.std.specs.Prelude.{◌≡◌, ◌≢◌, ◌^◌, ◌<◌, ◌≤◌, ◌∷◌, [], IfOk, IfErr, OnErr, OnOk, true, vec_len};
ghost use Rattle.dcel_maps.specs.Conditions.{HasRoom};
ghost use Rattle.dcel_maps.specs.EditLists.{EditedBy, MadeBy};
ghost use Rattle.dcel_maps.specs.EditLists.EditKind.{first_edge};
ghost use Rattle.dcel_maps.specs.Removals.{Closed};
ghost use Rattle.dcel_store.specs.Lists.{HasPlaces, empty};
ghost use Rattle.dcel_maps.specs.edits.Create.{IsNew, first_edge_added, first_edge_alone, vertex_appended};
ghost use Rattle.dcel_maps.specs.edits.DefaultData.{AddsEdge, AddsEdgesAndFaces};
ghost use Rattle.dcel_maps.specs.Shapes.{IsMesh, vertex_is_live};

use crate::dcel::Dcel;
use crate::operations::NoMemory;
use dcel_edits::create::{put_first_edge, put_vertices};
use dcel_fixed::FixedVertexHandle;
use dcel_record::RemovalRecord;
use dcel_store::Store;
use std::alloc::{AllocError, Allocator};

/// Creates an empty mesh: no vertex, no edge, and the outer face with a default datum.
///
/// If memory runs out it returns `AllocError`.
pub fn new<V: Drop, DE: Drop, UE: Drop, F: Default + Drop, A: Allocator + Clone>(
    alloc: A,
) -> Result<Dcel<V, DE, UE, F, A>, AllocError>
    ensures new { IfOk result (λ dcel. IsNew F.is_default dcel) }
    ensures edits { IfOk result (MadeBy []) }
    ensures mesh { IfOk result IsMesh }
{
    let (mut store, removal) = with_room(alloc, 0, 0, 1)?;
    store.push_face(F::default(), None);
    Ok(Dcel { store, removal })
}

/// Creates a mesh with these vertices and one edge between two of them.
///
/// ```text
///               0
/// first_vertex ---> second_vertex        the outer face lies on both sides
///              <---
///               1
/// ```
///
/// Asks that the two are different numbers below the number of vertices, and that there are at most
/// 2^32 vertices. If memory runs out it returns [`NoMemory`] with the vertices.
pub fn new_with_fixed_vertices<
    V: Drop,
    DE: Default + Drop,
    UE: Default + Drop,
    F: Default + Drop,
    A: Allocator + Clone,
>(
    alloc: A,
    vertices: Vec<V, A>,
    first_vertex: FixedVertexHandle,
    second_vertex: FixedVertexHandle,
) -> Result<Dcel<V, DE, UE, F, A>, NoMemory<Vec<V, A>>>
    requires first_in { first_vertex < vec_len vertices }
    requires second_in { second_vertex < vec_len vertices }
    requires apart { first_vertex ≢ second_vertex }
    requires few { vec_len vertices ≤ 2 ^ 32 }
    ensures edge { IfOk result (λ dcel. AddsEdgesAndFaces DE.is_default UE.is_default F.is_default 1 1 dcel (first_edge_alone vertices.items first_vertex second_vertex)) }
    ensures edits { IfOk result (MadeBy (first_edge ∷ [])) }
    ensures back { IfErr result (λ refused. refused.back ≡ vertices) }
    ensures mesh { IfOk result IsMesh }
{
    let Ok((mut store, removal)) = with_room(alloc, vertices.len(), 1, 1) else {
        return Err(NoMemory { back: vertices });
    };
    store.push_face(F::default(), None);
    put_vertices(&mut store, vertices);
    put_first_edge(&mut store, first_vertex, second_vertex);
    Ok(Dcel { store, removal })
}

// Creates an empty store with room for this many elements, and a record that no removal is open.
pub(crate) fn with_room<V: Drop, DE: Drop, UE: Drop, F: Drop, A: Allocator + Clone>(
    alloc: A,
    vertices: usize,
    edges: usize,
    faces: usize,
) -> Result<(Store<V, DE, UE, F, A>, RemovalRecord<A>), AllocError>
    ensures empty { IfOk result (λ parts. parts.0 ≡ record empty {
      vertex_room = parts.0.vertex_room;
      edge_room = parts.0.edge_room;
      face_room = parts.0.face_room;
    }) }
    ensures room { IfOk result (λ parts. HasPlaces parts.0 vertices edges faces) }
    ensures closed { IfOk result (λ parts. parts.1 ≡ Closed) }
{
    let removal = RemovalRecord::closed(&alloc)?;
    let mut store = Store::new(alloc)?;
    store.reserve(vertices, edges, faces)?;
    Ok((store, removal))
}

/// Appends a vertex without an edge and returns its number, the old number of vertices.
///
/// Asks for room for one vertex ([`has_room`](Dcel::has_room)). If memory runs out it returns
/// [`NoMemory`] with the datum, and the mesh is as it was.
pub fn append_unconnected_vertex<V, DE, UE, F, A: Allocator>(
    dcel: &mut Dcel<V, DE, UE, F, A>,
    datum: V,
) -> Result<FixedVertexHandle, NoMemory<V>>
    requires { HasRoom dcel.old.shape 1 0 0 }
    ensures edit { OnOk result (dcel.new ≡ vertex_appended dcel.old datum) }
    ensures edits { OnOk result (EditedBy [] dcel.old dcel.new) }
    ensures answer { IfOk result (λ vertex. vertex ≡ dcel.old.shape.vertices) }
    ensures refused { OnErr result (dcel.new ≡ dcel.old) }
    ensures back { IfErr result (λ refused. refused.back ≡ datum) }
    ensures mesh { IsMesh dcel.new }
{
    let vertex = FixedVertexHandle::new(dcel.num_vertices());
    if dcel.store.reserve(1, 0, 0).is_err() {
        return Err(NoMemory { back: datum });
    }
    dcel.store.push_vertex(datum, None);
    Ok(vertex)
}

/// Adds the first edge, between two vertices of a mesh that has none.
///
/// ```text
/// before                        after
///                                              0
/// first_vertex  second_vertex   first_vertex ----> second_vertex
///                                            <----
///                                              1
/// ```
///
/// Asks that there is no edge ([`num_undirected_edges`](Dcel::num_undirected_edges)), that the two
/// vertices are different and live ([`is_live_vertex`](Dcel::is_live_vertex)), and for room for one
/// edge ([`has_room`](Dcel::has_room)). If memory runs out it returns `AllocError`, and the mesh is
/// as it was.
pub fn setup_initial_two_vertices<V, DE: Default, UE: Default, F, A: Allocator>(
    dcel: &mut Dcel<V, DE, UE, F, A>,
    first_vertex: FixedVertexHandle,
    second_vertex: FixedVertexHandle,
) -> Result<(), AllocError>
    requires no_edge { dcel.old.shape.edges ≡ 0 }
    requires first_live { vertex_is_live dcel.old.shape first_vertex ≡ true }
    requires second_live { vertex_is_live dcel.old.shape second_vertex ≡ true }
    requires apart { first_vertex ≢ second_vertex }
    requires room { HasRoom dcel.old.shape 0 1 0 }
    ensures edit { OnOk result (AddsEdge DE.is_default UE.is_default dcel.new (first_edge_added dcel.old first_vertex second_vertex)) }
    ensures edits { OnOk result (EditedBy (first_edge ∷ []) dcel.old dcel.new) }
    ensures refused { OnErr result (dcel.new ≡ dcel.old) }
    ensures mesh { IsMesh dcel.new }
{
    dcel.store.reserve(0, 1, 0)?;
    put_first_edge(&mut dcel.store, first_vertex, second_vertex);
    Ok(())
}
