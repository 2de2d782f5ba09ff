//! Links, anchors and data as lists, and a mesh constructed again from them.

ghost use Rattle.std.specs.Prelude.{◌≡◌, ◌+◌, ◌*◌, ◌<◌, ℕ, IfErr, IfOk, Some, length, slice_get};
ghost use Rattle.std.specs.Option.{option_map};
ghost use Rattle.dcel_exchange.specs.Links.{lists_claim};
ghost use Rattle.dcel_links.specs.Claims.{claim_of};
ghost use Rattle.dcel_links.specs.Meshes.{IsLinked};
ghost use Rattle.dcel_maps.specs.Removals.{Closed};
ghost use Rattle.dcel_maps.specs.Shapes.{IsMesh, face_count};
ghost use Rattle.dcel_store.specs.EdgeLists.{edges_data, halves_data};
ghost use Rattle.spade_dcel.specs.Handles.{number_of};

use crate::steps::links;
use spade_dcel::dcel::Dcel;
use spade_dcel::handles::{
    DirectedEdgeHandle, FixedFaceHandle, FixedUndirectedEdgeHandle, FixedVertexHandle,
    PossiblyOuterTag,
};
use spade_dcel::laws::every_mesh;
use spade_dcel::operations::{
    Anchors, EdgeData, Links, LinksError, MeshData, RefusedLinks, from_anchored_links,
};
use std::alloc::{AllocError, Allocator, Global};

/// The links of a mesh as lists of their own, with an item for each half edge.
#[derive(Drop)]
pub struct LinkLists<A: Allocator = Global> {
    /// The next half edge of each one around its face.
    pub next: Vec<u32, A>,
    /// The vertex where each one starts.
    pub origin: Vec<u32, A>,
    /// The face of each one.
    pub face: Vec<u32, A>,
}

impl<A: Allocator> LinkLists<A> {
    /// Lends the lists, as `from_links` takes them.
    pub fn as_links(&self) -> Links<'_>
        ensures { (vertices faces : ℕ) → claim_of result vertices faces ≡ lists_claim self.now vertices faces }
    {
        Links {
            next: &self.next,
            origin: &self.origin,
            face: &self.face,
        }
    }
}

/// The anchors of a mesh as lists of their own.
#[derive(Drop)]
pub struct AnchorLists<A: Allocator = Global> {
    /// The anchor of each vertex: a half edge that starts there, or None where none does.
    pub vertices: Vec<Option<u32>, A>,
    /// The anchor of each face: a half edge of its boundary cycle, or None if that is empty.
    pub faces: Vec<Option<u32>, A>,
}

impl<A: Allocator> AnchorLists<A> {
    /// Lends the lists, as `from_anchored_links` takes them.
    pub fn as_anchors(&self) -> Anchors<'_>
        ensures vertices { result.vertices.now ≡ self.now.vertices.items }
        ensures faces { result.faces.now ≡ self.now.faces.items }
    {
        Anchors {
            vertices: &self.vertices,
            faces: &self.faces,
        }
    }
}

/// Returns the links of a mesh as lists.
///
/// Asks that no removal is open ([`removal_state`](Dcel::removal_state) is `Closed`). If memory
/// runs out it returns `AllocError`.
pub fn link_lists<V, DE, UE, F, A: Allocator, B: Allocator + Clone>(
    alloc: B,
    dcel: &Dcel<V, DE, UE, F, A>,
) -> Result<LinkLists<B>, AllocError>
    requires { dcel.now.shape.removal ≡ Closed }
    ensures { IfOk result (λ lists. IsLinked dcel.now.shape (lists_claim lists dcel.now.shape.vertices (face_count dcel.now.shape))) }
{
    every_mesh(dcel);
    let mut next = Vec::new(alloc.clone()?);
    let mut origin = Vec::new(alloc.clone()?);
    let mut face = Vec::new(alloc.clone()?);
    for link in links(dcel) {
        next.push(link.next)?;
        origin.push(link.origin)?;
        face.push(link.face)?;
    }
    Ok(LinkLists { next, origin, face })
}

/// Returns the anchors of a mesh as lists, in the order of their numbers.
///
/// If memory runs out it returns `AllocError`.
pub fn anchor_lists<V, DE, UE, F, A: Allocator, B: Allocator + Clone>(
    alloc: B,
    dcel: &Dcel<V, DE, UE, F, A>,
) -> Result<AnchorLists<B>, AllocError>
    ensures vertices { IfOk result (λ anchors. anchors.vertices.items ≡ dcel.now.vertex_anchors) }
    ensures faces { IfOk result (λ anchors. anchors.faces.items ≡ dcel.now.face_anchors) }
{
    Ok(AnchorLists {
        vertices: list_vertex_anchors(alloc.clone()?, dcel)?,
        faces: list_face_anchors(alloc, dcel)?,
    })
}

// Lists the anchors of the vertices, in the order of their numbers.
fn list_vertex_anchors<V, DE, UE, F, A: Allocator, B: Allocator>(
    alloc: B,
    dcel: &Dcel<V, DE, UE, F, A>,
) -> Result<Vec<Option<u32>, B>, AllocError>
    ensures { IfOk result (λ anchors. anchors.items ≡ dcel.now.vertex_anchors) }
{
    every_mesh(dcel);
    let mut anchors = Vec::new(alloc);
    for vertex in dcel.vertices() {
        anchors.push(anchor(vertex.out_edge()))?;
    }
    Ok(anchors)
}

// Lists the anchors of the faces, in the order of their numbers.
fn list_face_anchors<V, DE, UE, F, A: Allocator, B: Allocator>(
    alloc: B,
    dcel: &Dcel<V, DE, UE, F, A>,
) -> Result<Vec<Option<u32>, B>, AllocError>
    ensures { IfOk result (λ anchors. anchors.items ≡ dcel.now.face_anchors) }
{
    every_mesh(dcel);
    let mut anchors = Vec::new(alloc);
    for face in dcel.faces() {
        anchors.push(anchor(face.adjacent_edge()))?;
    }
    Ok(anchors)
}

// Returns the number of an anchor.
#[inline]
fn anchor<V, DE, UE, F, A: Allocator>(
    edge: Option<DirectedEdgeHandle<'_, V, DE, UE, F, A>>,
) -> Option<u32>
    ensures { result ≡ option_map (λ half. number_of half) edge.entry }
{
    match edge {
        Some(edge) => Some(edge.fix().index() as u32),
        None => None,
    }
}

/// Returns the data of a mesh as lists, by number, as [`with_data`] takes them.
///
/// What an open removal has given up still has data. If memory runs out it returns `AllocError`.
pub fn data_lists<
    V: Copy + Drop,
    DE: Copy + Drop,
    UE: Copy + Drop,
    F: Copy + Drop,
    A: Allocator,
    B: Allocator + Clone,
>(alloc: B, dcel: &Dcel<V, DE, UE, F, A>) -> Result<MeshData<V, DE, UE, F, B>, AllocError>
    ensures vertices { IfOk result (λ lists. lists.vertices.items ≡ dcel.now.vertex_data) }
    ensures halves { IfOk result (λ lists. halves_data lists.edges.items ≡ dcel.now.directed_data) }
    ensures edges { IfOk result (λ lists. edges_data lists.edges.items ≡ dcel.now.undirected_data) }
    ensures faces { IfOk result (λ lists. lists.faces.items ≡ dcel.now.face_data) }
{
    let vertices = list_vertex_data(alloc.clone()?, dcel)?;
    let edges = list_edge_data(alloc.clone()?, dcel)?;
    let faces = list_face_data(alloc, dcel)?;
    Ok(MeshData {
        vertices,
        edges,
        faces,
    })
}

// Lists the data of the vertices.
fn list_vertex_data<V: Copy + Drop, DE, UE, F, A: Allocator, B: Allocator>(
    alloc: B,
    dcel: &Dcel<V, DE, UE, F, A>,
) -> Result<Vec<V, B>, AllocError>
    ensures { IfOk result (λ list. list.items ≡ dcel.now.vertex_data) }
{
    every_mesh(dcel);
    let mut list = Vec::new(alloc);
    for number in 0..dcel.num_vertices() {
        list.push(*dcel.vertex_data(FixedVertexHandle::new(number)))?;
    }
    Ok(list)
}

// Lists the data of the edges, with those of their halves.
fn list_edge_data<V, DE: Copy + Drop, UE: Copy + Drop, F, A: Allocator, B: Allocator>(
    alloc: B,
    dcel: &Dcel<V, DE, UE, F, A>,
) -> Result<Vec<EdgeData<DE, UE>, B>, AllocError>
    ensures halves { IfOk result (λ list. halves_data list.items ≡ dcel.now.directed_data) }
    ensures edges { IfOk result (λ list. edges_data list.items ≡ dcel.now.undirected_data) }
{
    every_mesh(dcel);
    let mut list = Vec::new(alloc);
    for number in 0..dcel.num_undirected_edges() {
        list.push(data_of(dcel, FixedUndirectedEdgeHandle::new(number)))?;
    }
    Ok(list)
}

// Returns the data of an edge and of its two halves.
fn data_of<V, DE: Copy, UE: Copy, F, A: Allocator>(
    dcel: &Dcel<V, DE, UE, F, A>,
    edge: FixedUndirectedEdgeHandle,
) -> EdgeData<DE, UE>
    requires { edge < dcel.now.shape.edges }
    ensures normalized { slice_get dcel.now.directed_data (2 * edge) ≡ Some result.normalized }
    ensures reversed { slice_get dcel.now.directed_data (2 * edge + 1) ≡ Some result.reversed }
    ensures undirected { slice_get dcel.now.undirected_data edge ≡ Some result.undirected }
{
    every_mesh(dcel);
    let [normalized, reversed] = edge.directed_edges();
    EdgeData {
        normalized: *dcel.directed_edge_data(normalized),
        reversed: *dcel.directed_edge_data(reversed),
        undirected: *dcel.undirected_edge_data(edge),
    }
}

// Lists the data of the faces.
fn list_face_data<V, DE, UE, F: Copy + Drop, A: Allocator, B: Allocator>(
    alloc: B,
    dcel: &Dcel<V, DE, UE, F, A>,
) -> Result<Vec<F, B>, AllocError>
    ensures { IfOk result (λ list. list.items ≡ dcel.now.face_data) }
{
    every_mesh(dcel);
    let mut list = Vec::new(alloc);
    for number in 0..dcel.num_faces() {
        let face: FixedFaceHandle<PossiblyOuterTag> = FixedFaceHandle::new(number);
        list.push(*dcel.face_data(face))?;
    }
    Ok(list)
}

/// Constructs the same mesh over other data, which may be of other types.
///
/// It has the same vertices, half edges and faces with the same numbers, links, words and anchors,
/// so walks start where they started. This is the round-trip law: `from_anchored_links` of the
/// lists of [`link_lists`] and [`anchor_lists`] constructs the mesh that they were read from,
/// unless memory runs out.
///
/// Asks that no removal is open ([`removal_state`](Dcel::removal_state) is `Closed`), and for a
/// datum for each vertex, edge and face (`num_vertices`, `num_undirected_edges`, `num_faces`). The
/// data are returned if memory runs out, and for no other reason.
pub fn with_data<
    V: Drop,
    DE: Drop,
    UE: Drop,
    F: Drop,
    A: Allocator + Clone,
    V0,
    DE0,
    UE0,
    F0,
    A0: Allocator,
>(
    alloc: A,
    dcel: &Dcel<V0, DE0, UE0, F0, A0>,
    given: MeshData<V, DE, UE, F, A>,
) -> Result<Dcel<V, DE, UE, F, A>, RefusedLinks<MeshData<V, DE, UE, F, A>>>
    requires closed { dcel.now.shape.removal ≡ Closed }
    requires vertices { length given.vertices.items ≡ dcel.now.shape.vertices }
    requires edges { length given.edges.items ≡ dcel.now.shape.edges }
    requires faces { length given.faces.items ≡ face_count dcel.now.shape }
    ensures shape { IfOk result (λ made. made.shape ≡ dcel.now.shape) }
    ensures vertex_anchors { IfOk result (λ made. made.vertex_anchors ≡ dcel.now.vertex_anchors) }
    ensures face_anchors { IfOk result (λ made. made.face_anchors ≡ dcel.now.face_anchors) }
    ensures vertices { IfOk result (λ made. made.vertex_data ≡ given.vertices.items) }
    ensures halves { IfOk result (λ made. made.directed_data ≡ halves_data given.edges.items) }
    ensures edges { IfOk result (λ made. made.undirected_data ≡ edges_data given.edges.items) }
    ensures faces { IfOk result (λ made. made.face_data ≡ given.faces.items) }
    ensures mesh { IfOk result IsMesh }
    ensures reason { IfErr result (λ refused. refused.reason ≡ LinksError.OutOfMemory) }
    ensures back { IfErr result (λ refused. refused.back ≡ given) }
{
    every_mesh(dcel);
    let Ok((lists, anchors)) = list_all(&alloc, dcel) else {
        return Err(RefusedLinks {
            reason: LinksError::OutOfMemory,
            back: given,
        });
    };
    from_anchored_links(alloc, lists.as_links(), anchors.as_anchors(), given)
}

// Returns links and anchors, in memory of the same kind.
fn list_all<V, DE, UE, F, A: Allocator, B: Allocator + Clone>(
    alloc: &B,
    dcel: &Dcel<V, DE, UE, F, A>,
) -> Result<(LinkLists<B>, AnchorLists<B>), AllocError>
    requires { dcel.now.shape.removal ≡ Closed }
    ensures links { IfOk result (λ lists. IsLinked dcel.now.shape (lists_claim lists.0 dcel.now.shape.vertices (face_count dcel.now.shape))) }
    ensures vertex_anchors { IfOk result (λ lists. lists.1.vertices.items ≡ dcel.now.vertex_anchors) }
    ensures face_anchors { IfOk result (λ lists. lists.1.faces.items ≡ dcel.now.face_anchors) }
{
    let links = link_lists(alloc.clone()?, dcel)?;
    let anchors = anchor_lists(alloc.clone()?, dcel)?;
    Ok((links, anchors))
}
