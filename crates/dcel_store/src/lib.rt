//! Storage of a half-edge mesh: links, anchors and data by number. `dcel_edits` writes edits into
//! it; below is only `dcel_fixed`. Start with [`Store`].
//!
//! A store has a datum and an anchor for each vertex, four links and a datum for each half edge, a
//! datum for each edge, and a datum and an anchor for each face. It does not know what makes a mesh
//! sound. Contracts see it as lists by number, the record `Lists` of `specs/Lists.antt`, and say
//! which items each call reads or changes.
//!
//! Each of the four links has a vector of its own, and so have the data of half edges and those of
//! edges. A walk reads one or two links of each half edge, and little else enters the cache with
//! them. A new edge is appended to six vectors, and all of them grow if there is no room.
#![tactic(auto)]

ghost use Rattle.std.specs.Prelude.{◌≡◌, ◌↔◌, ◌+◌, ◌-◌, ◌<◌, ◌≤◌, [], ◌∷◌, ◌++◌, length, slice_index, slice_index_or, slice_set, OnOk, IfOk, IsOk, IsTrue, None, vec_capacity, vec_len};
ghost use Rattle.dcel_store.specs.Lists.{empty, LengthsAgree, HasPlaces};

mod data;
mod push;
mod swap;
mod take;
mod whole;

use dcel_fixed::{FixedDirectedEdgeHandle, FixedFaceHandle, FixedVertexHandle, PossiblyOuterTag};
use std::alloc::{AllocError, Allocator, Global};
use std::marker::Model;

/// The links of a half edge, as [`Store::push_edge`] takes them.
#[derive(Clone, Copy)]
pub struct HalfEdgeLinks {
    /// The next half edge around its face.
    pub next: FixedDirectedEdgeHandle,

    /// The previous half edge around its face.
    pub prev: FixedDirectedEdgeHandle,

    /// Its face.
    pub face: FixedFaceHandle<PossiblyOuterTag>,

    /// The vertex where it starts.
    pub origin: FixedVertexHandle,
}

/// The data of an edge: one for each half edge, and one for the edge itself.
#[derive(Clone, Drop, Default)]
pub struct EdgeData<DE, UE> {
    /// The datum of the normalized half edge.
    pub normalized: DE,

    /// The datum of the other half edge.
    pub reversed: DE,

    /// The datum of the edge itself.
    pub undirected: UE,
}

/// A new edge, as [`Store::push_three_edges`] takes it: the links of its half edges, and its data.
#[derive(Drop)]
pub struct NewEdge<DE, UE> {
    /// The links of the normalized half edge.
    pub normalized: HalfEdgeLinks,

    /// The links of the other half edge.
    pub reversed: HalfEdgeLinks,

    /// The data of both half edges, and of the edge itself.
    pub edge_data: EdgeData<DE, UE>,
}

#[derive(Drop)]
struct VertexEntry<V> {
    data: V,
    out_edge: Option<FixedDirectedEdgeHandle>,
}

#[derive(Drop)]
struct FaceEntry<F> {
    data: F,
    adjacent_edge: Option<FixedDirectedEdgeHandle>,
}

/// The vertices, edges and faces of a mesh, by number.
#[derive(Drop)]
pub struct Store<V, DE, UE, F, A: Allocator = Global> {
    vertices: Vec<VertexEntry<V>, A>,

    // An item for each half edge: the two of an edge are neighbors, the normalized one first.
    next: Vec<FixedDirectedEdgeHandle, A>,
    prev: Vec<FixedDirectedEdgeHandle, A>,
    origin: Vec<FixedVertexHandle, A>,
    face: Vec<FixedFaceHandle<PossiblyOuterTag>, A>,
    directed_data: Vec<DE, A>,

    // An item for each edge. For each place left here, each vector of half edges has two, so the
    // capacity of this vector shows whether there is room for an edge.
    undirected_data: Vec<UE, A>,

    faces: Vec<FaceEntry<F>, A>,
}

impl<V, DE, UE, F, A: Allocator> Model for Store<V, DE, UE, F, A> {
    ghost use Rattle.dcel_store.specs.Lists.{Lists};

    ghost Value = { Lists V DE UE F };

    ghost use Rattle.dcel_store.specs.Vectors.{lists_of, VectorsAgree};

    ghost view = { lists_of };

    ghost invariant = { VectorsAgree };
}

impl<V, DE, UE, F, A: Allocator + Clone> Store<V, DE, UE, F, A> {
    /// Creates an empty store, without allocating.
    ///
    /// It clones `alloc` once for the vertices and six times for the edges, and returns
    /// `AllocError` only if that fails. With `Global` or a `&` it never does.
    pub fn new(alloc: A) -> Result<Self, AllocError>
        ensures { IfOk result (λ store. store ≡ empty) }
    {
        let alloc_for_vertices = alloc.clone()?;
        let alloc_for_next = alloc.clone()?;
        let alloc_for_prev = alloc.clone()?;
        let alloc_for_origin = alloc.clone()?;
        let alloc_for_face = alloc.clone()?;
        let alloc_for_directed_data = alloc.clone()?;
        let alloc_for_undirected_data = alloc.clone()?;
        Ok(Store {
            vertices: Vec::new(alloc_for_vertices),
            next: Vec::new(alloc_for_next),
            prev: Vec::new(alloc_for_prev),
            origin: Vec::new(alloc_for_origin),
            face: Vec::new(alloc_for_face),
            directed_data: Vec::new(alloc_for_directed_data),
            undirected_data: Vec::new(alloc_for_undirected_data),
            faces: Vec::new(alloc),
        })
    }
}

impl<V, DE, UE, F, A: Allocator> Store<V, DE, UE, F, A> {
    /// Returns the allocator that the store was created with.
    ///
    /// Contracts see nothing of it.
    #[inline]
    pub fn allocator(&self) -> &A {
        self.faces.allocator()
    }

    /// Returns the number of vertices.
    #[inline]
    pub fn num_vertices(&self) -> usize
        ensures count { result ≡ length self.now.vertex_data }
        ensures lengths { LengthsAgree self.now }
    {
        self.vertices.len()
    }

    /// Returns the number of edges, each with two half edges.
    #[inline]
    pub fn num_edges(&self) -> usize
        ensures count { result ≡ length self.now.undirected_data }
        ensures lengths { LengthsAgree self.now }
    {
        self.undirected_data.len()
    }

    /// Returns the number of faces.
    #[inline]
    pub fn num_faces(&self) -> usize
        ensures count { result ≡ length self.now.face_data }
        ensures lengths { LengthsAgree self.now }
    {
        self.faces.len()
    }

    /// Reserves memory for this many more vertices, edges and faces.
    ///
    /// If there is room for all of them already, it succeeds without allocating. If memory runs out
    /// it returns `AllocError`; the store is unchanged, but may have more room.
    #[inline]
    pub fn reserve(&mut self, vertices: usize, edges: usize, faces: usize) -> Result<(), AllocError>
        ensures same { self.new ≡ record self.old {
          vertex_room = self.new.vertex_room;
          edge_room = self.new.edge_room;
          face_room = self.new.face_room;
        } }
        ensures room { OnOk result (HasPlaces self.new vertices edges faces) }
        ensures kept { HasPlaces self.new self.old.vertex_room self.old.edge_room self.old.face_room }
        ensures succeeds { HasPlaces self.old vertices edges faces → IsOk result }
    {
        if self.has_places(vertices, edges, faces) {
            return Ok(());
        }
        self.grow(vertices, edges, faces)
    }

    // Returns whether there is room for this many more. One test is enough for all six vectors of
    // edges.
    #[inline]
    fn has_places(&self, vertices: usize, edges: usize, faces: usize) -> bool
        ensures { IsTrue result ↔ HasPlaces self.now vertices edges faces }
    {
        vertices <= places_left(&self.vertices)
            && edges <= places_left(&self.undirected_data)
            && faces <= places_left(&self.faces)
    }

    // Reserves memory where there is too little. Out of line, since it is rare, and so that the
    // test for it goes into each edit, where most of the counts are known to be 0.
    #[cold]
    #[inline(never)]
    fn grow(&mut self, vertices: usize, edges: usize, faces: usize) -> Result<(), AllocError>
        ensures same { self.new ≡ record self.old {
          vertex_room = self.new.vertex_room;
          edge_room = self.new.edge_room;
          face_room = self.new.face_room;
        } }
        ensures room { OnOk result (HasPlaces self.new vertices edges faces) }
        ensures kept { HasPlaces self.new self.old.vertex_room self.old.edge_room self.old.face_room }
    {
        self.vertices.reserve(vertices)?;
        self.grow_edges(edges)?;
        self.faces.reserve(faces)?;
        Ok(())
    }

    // Grows the six vectors of edges, if there is too little room. That of the edges' data comes
    // last: if memory runs out before, it has no more places than the others are sure to have.
    fn grow_edges(&mut self, edges: usize) -> Result<(), AllocError>
        ensures same { self.new ≡ record self.old { edge_room = self.new.edge_room } }
        ensures room { OnOk result (edges ≤ self.new.edge_room) }
        ensures kept { self.old.edge_room ≤ self.new.edge_room }
    {
        if edges <= places_left(&self.undirected_data) {
            return Ok(());
        }
        let room = room_for_growth(self.num_edges(), edges);
        let half_edges = room.checked_mul(2).ok_or(AllocError)?;
        self.next.reserve_exact(half_edges)?;
        self.prev.reserve_exact(half_edges)?;
        self.origin.reserve_exact(half_edges)?;
        self.face.reserve_exact(half_edges)?;
        self.directed_data.reserve_exact(half_edges)?;
        self.undirected_data.reserve_exact(room)?;
        Ok(())
    }

    /// Appends a vertex with this datum and anchor.
    ///
    /// Asks for room for a vertex, which [`reserve`](Self::reserve) provides.
    #[inline]
    pub fn push_vertex(&mut self, datum: V, anchor: Option<FixedDirectedEdgeHandle>)
        requires { 0 < self.old.vertex_room }
        ensures { self.new ≡ record self.old {
          vertex_data = self.old.vertex_data ++ datum ∷ [];
          vertex_anchors = self.old.vertex_anchors ++ anchor ∷ [];
          vertex_room = self.old.vertex_room - 1;
        } }
    {
        self.vertices.push_reserved(VertexEntry {
            data: datum,
            out_edge: anchor,
        });
    }

    /// Appends an edge with the links of its half edges and its data.
    ///
    /// Asks for room for an edge, which [`reserve`](Self::reserve) provides.
    #[inline]
    pub fn push_edge(
        &mut self,
        normalized: HalfEdgeLinks,
        reversed: HalfEdgeLinks,
        edge_data: EdgeData<DE, UE>,
    )
        requires { 0 < self.old.edge_room }
        ensures { self.new ≡ record self.old {
          next = self.old.next ++ normalized.next ∷ reversed.next ∷ [];
          prev = self.old.prev ++ normalized.prev ∷ reversed.prev ∷ [];
          origin = self.old.origin ++ normalized.origin ∷ reversed.origin ∷ [];
          face = self.old.face ++ normalized.face ∷ reversed.face ∷ [];
          directed_data = self.old.directed_data ++ edge_data.normalized ∷ edge_data.reversed ∷ [];
          undirected_data = self.old.undirected_data ++ edge_data.undirected ∷ [];
          edge_room = self.old.edge_room - 1;
        } }
    {
        self.next.push_reserved(normalized.next);
        self.next.push_reserved(reversed.next);
        self.prev.push_reserved(normalized.prev);
        self.prev.push_reserved(reversed.prev);
        self.origin.push_reserved(normalized.origin);
        self.origin.push_reserved(reversed.origin);
        self.face.push_reserved(normalized.face);
        self.face.push_reserved(reversed.face);
        self.directed_data.push_reserved(edge_data.normalized);
        self.directed_data.push_reserved(edge_data.reversed);
        self.undirected_data.push_reserved(edge_data.undirected);
    }

    /// Appends a face with this datum and anchor.
    ///
    /// Asks for room for a face, which [`reserve`](Self::reserve) provides.
    #[inline]
    pub fn push_face(&mut self, datum: F, anchor: Option<FixedDirectedEdgeHandle>)
        requires { 0 < self.old.face_room }
        ensures { self.new ≡ record self.old {
          face_data = self.old.face_data ++ datum ∷ [];
          face_anchors = self.old.face_anchors ++ anchor ∷ [];
          face_room = self.old.face_room - 1;
        } }
    {
        self.faces.push_reserved(FaceEntry {
            data: datum,
            adjacent_edge: anchor,
        });
    }

    /// Returns the anchor of a vertex.
    ///
    /// Asks for a number below [`num_vertices`](Self::num_vertices).
    #[inline]
    pub fn vertex_anchor(&self, vertex: FixedVertexHandle) -> Option<FixedDirectedEdgeHandle>
        requires { vertex < length self.now.vertex_anchors }
        ensures { result ≡ slice_index_or self.now.vertex_anchors vertex None }
    {
        self.vertices[vertex.index()].out_edge
    }

    /// Replaces the anchor of a vertex, and nothing else.
    ///
    /// Asks for a number below [`num_vertices`](Self::num_vertices).
    #[inline]
    pub fn set_vertex_anchor(
        &mut self,
        vertex: FixedVertexHandle,
        to: Option<FixedDirectedEdgeHandle>,
    )
        requires { vertex < length self.old.vertex_anchors }
        ensures { self.new ≡ record self.old {
          vertex_anchors = slice_set self.old.vertex_anchors vertex to;
        } }
    {
        let entry = &mut self.vertices[vertex.index()];
        entry.out_edge = to;
    }

    /// Returns the anchor of a face.
    ///
    /// Asks for a number below [`num_faces`](Self::num_faces).
    #[inline]
    pub fn face_anchor(
        &self,
        face: FixedFaceHandle<PossiblyOuterTag>,
    ) -> Option<FixedDirectedEdgeHandle>
        requires { face < length self.now.face_anchors }
        ensures { result ≡ slice_index_or self.now.face_anchors face None }
    {
        self.faces[face.index()].adjacent_edge
    }

    /// Replaces the anchor of a face, and nothing else.
    ///
    /// Asks for a number below [`num_faces`](Self::num_faces).
    #[inline]
    pub fn set_face_anchor(
        &mut self,
        face: FixedFaceHandle<PossiblyOuterTag>,
        to: Option<FixedDirectedEdgeHandle>,
    )
        requires { face < length self.old.face_anchors }
        ensures { self.new ≡ record self.old {
          face_anchors = slice_set self.old.face_anchors face to;
        } }
    {
        let entry = &mut self.faces[face.index()];
        entry.adjacent_edge = to;
    }

    /// Returns the next half edge around the face.
    ///
    /// Asks that its edge is below [`num_edges`](Self::num_edges).
    #[inline]
    pub fn next(&self, edge: FixedDirectedEdgeHandle) -> FixedDirectedEdgeHandle
        requires { edge < length self.now.next }
        ensures { result ≡ slice_index self.now.next edge }
    {
        self.next[edge.index()]
    }

    /// Replaces `next` of a half edge, and nothing else.
    ///
    /// Asks what [`next`](Self::next) asks.
    #[inline]
    pub fn set_next(&mut self, edge: FixedDirectedEdgeHandle, to: FixedDirectedEdgeHandle)
        requires { edge < length self.old.next }
        ensures { self.new ≡ record self.old { next = slice_set self.old.next edge to } }
    {
        self.next[edge.index()] = to;
    }

    /// Returns the previous half edge around the face.
    ///
    /// Asks that its edge is below [`num_edges`](Self::num_edges).
    #[inline]
    pub fn prev(&self, edge: FixedDirectedEdgeHandle) -> FixedDirectedEdgeHandle
        requires { edge < length self.now.next }
        ensures { result ≡ slice_index self.now.prev edge }
    {
        self.prev[edge.index()]
    }

    /// Replaces `prev` of a half edge, and nothing else.
    ///
    /// Asks what [`prev`](Self::prev) asks.
    #[inline]
    pub fn set_prev(&mut self, edge: FixedDirectedEdgeHandle, to: FixedDirectedEdgeHandle)
        requires { edge < length self.old.next }
        ensures { self.new ≡ record self.old { prev = slice_set self.old.prev edge to } }
    {
        self.prev[edge.index()] = to;
    }

    /// Returns the vertex where this half edge starts.
    ///
    /// Asks that its edge is below [`num_edges`](Self::num_edges).
    #[inline]
    pub fn origin(&self, edge: FixedDirectedEdgeHandle) -> FixedVertexHandle
        requires { edge < length self.now.next }
        ensures { result ≡ slice_index self.now.origin edge }
    {
        self.origin[edge.index()]
    }

    /// Replaces `origin` of a half edge, and nothing else.
    ///
    /// Asks what [`origin`](Self::origin) asks.
    #[inline]
    pub fn set_origin(&mut self, edge: FixedDirectedEdgeHandle, to: FixedVertexHandle)
        requires { edge < length self.old.next }
        ensures { self.new ≡ record self.old { origin = slice_set self.old.origin edge to } }
    {
        self.origin[edge.index()] = to;
    }

    /// Returns the face of this half edge.
    ///
    /// Asks that its edge is below [`num_edges`](Self::num_edges).
    #[inline]
    pub fn face(&self, edge: FixedDirectedEdgeHandle) -> FixedFaceHandle<PossiblyOuterTag>
        requires { edge < length self.now.next }
        ensures { result ≡ slice_index self.now.face edge }
    {
        self.face[edge.index()]
    }

    /// Replaces `face` of a half edge, and nothing else.
    ///
    /// Asks what [`face`](Self::face) asks.
    #[inline]
    pub fn set_face(&mut self, edge: FixedDirectedEdgeHandle, to: FixedFaceHandle<PossiblyOuterTag>)
        requires { edge < length self.old.next }
        ensures { self.new ≡ record self.old { face = slice_set self.old.face edge to } }
    {
        self.face[edge.index()] = to;
    }
}

// Returns how many items can be pushed without allocating.
#[inline]
fn places_left<T, A: Allocator>(items: &Vec<T, A>) -> usize
    ensures { result ≡ vec_capacity items.now - vec_len items.now }
{
    items.capacity() - items.len()
}

// Returns for how many more edges to reserve memory, when a store of `stored` edges has no room for
// `wanted` more. A growth requests memory six times and may move all that is stored, so many pushes
// should share its cost: a store doubles, and a short one, for which the six requests cost most,
// grows fourfold.
fn room_for_growth(stored: usize, wanted: usize) -> usize
    ensures { wanted ≤ result }
{
    let more = if stored < 4096 { 3 * stored } else { stored };
    wanted.max(more).max(16)
}
