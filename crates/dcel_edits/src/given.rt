//! Writing vertices, edges and faces from lists, with chosen or given anchors.

ghost use Rattle.std.specs.Prelude.{◌≡◌, ◌<◌, ◌≤◌, ◌^◌, None, length, replicate, slice_index, vec_len};
ghost use Rattle.dcel_store.specs.Lists.{HasPlaces};
ghost use Rattle.dcel_edits.specs.Adding.{IsEmpty};
ghost use Rattle.dcel_edits.specs.Given.{AreBelow, AreLists, edges_stored, faces_anchored, faces_stored, last_anchors, mesh_stored, vertices_anchored};

use crate::create::put_vertices;
use crate::links::numbered_links;
use dcel_fixed::{FixedDirectedEdgeHandle, FixedFaceHandle, FixedVertexHandle};
use dcel_store::{EdgeData, HalfEdgeLinks, Store};
use std::alloc::Allocator;

/// Writes vertices, edges and faces into an empty store, with the links of the lists, and the last
/// half edge of each vertex and face as its anchor.
pub fn put_mesh<V: Drop, DE: Drop, UE: Drop, F: Drop, A: Allocator>(
    store: &mut Store<V, DE, UE, F, A>,
    next: &[u32],
    prev: &[u32],
    origin: &[u32],
    face: &[u32],
    vertices: Vec<V, A>,
    edges: Vec<EdgeData<DE, UE>, A>,
    faces: Vec<F, A>,
)
    requires empty { IsEmpty store.old }
    requires places { HasPlaces store.old (vec_len vertices) (vec_len edges) (vec_len faces) }
    requires lists { AreLists next.now prev.now origin.now face.now (vec_len edges) }
    requires few { length next.now ≤ 2 ^ 32 }
    requires vertices_below { AreBelow (vec_len vertices) origin.now }
    requires faces_below { AreBelow (vec_len faces) face.now }
    ensures { store.new ≡ mesh_stored store.old next.now prev.now origin.now face.now
        (last_anchors origin.now (vec_len vertices)) (last_anchors face.now (vec_len faces)) vertices.items edges.items faces.items }
{
    put_without_anchors(store, next, prev, origin, face, vertices, edges, faces);
    anchor_vertices(store, origin);
    anchor_faces(store, face);
}

/// Writes vertices, edges and faces into an empty store, with the links of the lists and these
/// anchors.
pub fn put_anchored_mesh<V: Drop, DE: Drop, UE: Drop, F: Drop, A: Allocator>(
    store: &mut Store<V, DE, UE, F, A>,
    next: &[u32],
    prev: &[u32],
    origin: &[u32],
    face: &[u32],
    vertex_anchors: &[Option<u32>],
    face_anchors: &[Option<u32>],
    vertices: Vec<V, A>,
    edges: Vec<EdgeData<DE, UE>, A>,
    faces: Vec<F, A>,
)
    requires empty { IsEmpty store.old }
    requires places { HasPlaces store.old (vec_len vertices) (vec_len edges) (vec_len faces) }
    requires lists { AreLists next.now prev.now origin.now face.now (vec_len edges) }
    requires vertices_anchored { length vertex_anchors.now ≡ vec_len vertices }
    requires faces_anchored { length face_anchors.now ≡ vec_len faces }
    requires few_vertices { vec_len vertices ≤ 2 ^ 32 }
    requires few_faces { vec_len faces ≤ 2 ^ 32 }
    ensures { store.new ≡ mesh_stored store.old next.now prev.now origin.now face.now vertex_anchors.now face_anchors.now vertices.items edges.items faces.items }
{
    put_without_anchors(store, next, prev, origin, face, vertices, edges, faces);
    set_vertex_anchors(store, vertex_anchors);
    set_face_anchors(store, face_anchors);
}

// Writes vertices, edges and faces into an empty store, and no anchors.
fn put_without_anchors<V: Drop, DE: Drop, UE: Drop, F: Drop, A: Allocator>(
    store: &mut Store<V, DE, UE, F, A>,
    next: &[u32],
    prev: &[u32],
    origin: &[u32],
    face: &[u32],
    vertices: Vec<V, A>,
    edges: Vec<EdgeData<DE, UE>, A>,
    faces: Vec<F, A>,
)
    requires empty { IsEmpty store.old }
    requires places { HasPlaces store.old (vec_len vertices) (vec_len edges) (vec_len faces) }
    requires lists { AreLists next.now prev.now origin.now face.now (vec_len edges) }
    ensures { store.new ≡ mesh_stored store.old next.now prev.now origin.now face.now
        (replicate (vec_len vertices) None) (replicate (vec_len faces) None) vertices.items edges.items faces.items }
{
    put_vertices(store, vertices);
    put_edges(store, next, prev, origin, face, edges);
    put_faces(store, faces);
}

// Appends an edge for each datum, with the links that the lists have for its half edges.
fn put_edges<V, DE: Drop, UE: Drop, F, A: Allocator>(
    store: &mut Store<V, DE, UE, F, A>,
    next: &[u32],
    prev: &[u32],
    origin: &[u32],
    face: &[u32],
    edges: Vec<EdgeData<DE, UE>, A>,
)
    requires lists { AreLists next.now prev.now origin.now face.now (vec_len edges) }
    requires places { vec_len edges ≤ store.old.edge_room }
    ensures { store.new ≡ edges_stored store.old next.now prev.now origin.now face.now edges.items }
{
    let mut half = 0;
    for edge_data in edges {
        store.push_edge(
            links_at(next, prev, origin, face, half),
            links_at(next, prev, origin, face, half + 1),
            edge_data,
        );
        half += 2;
    }
}

// Appends a face without an anchor for each datum.
fn put_faces<V, DE, UE, F: Drop, A: Allocator>(store: &mut Store<V, DE, UE, F, A>, faces: Vec<F, A>)
    requires { vec_len faces ≤ store.old.face_room }
    ensures { store.new ≡ faces_stored store.old faces.items }
{
    for datum in faces {
        store.push_face(datum, None);
    }
}

// Anchors vertices at the half edges that start there, one after another: the last one stays.
fn anchor_vertices<V, DE, UE, F, A: Allocator>(store: &mut Store<V, DE, UE, F, A>, origin: &[u32])
    requires below { AreBelow (length store.old.vertex_anchors) origin.now }
    requires few { length origin.now ≤ 2 ^ 32 }
    ensures { store.new ≡ vertices_anchored store.old origin.now }
{
    for half in 0..origin.len() {
        let vertex = FixedVertexHandle::new(origin[half] as usize);
        store.set_vertex_anchor(vertex, Some(FixedDirectedEdgeHandle::new(half)));
    }
}

// Anchors faces at their half edges, one after another: the last one stays.
fn anchor_faces<V, DE, UE, F, A: Allocator>(store: &mut Store<V, DE, UE, F, A>, face: &[u32])
    requires below { AreBelow (length store.old.face_anchors) face.now }
    requires few { length face.now ≤ 2 ^ 32 }
    ensures { store.new ≡ faces_anchored store.old face.now }
{
    for half in 0..face.len() {
        let number = FixedFaceHandle::new(face[half] as usize);
        store.set_face_anchor(number, Some(FixedDirectedEdgeHandle::new(half)));
    }
}

// Sets the anchor of each vertex.
fn set_vertex_anchors<V, DE, UE, F, A: Allocator>(
    store: &mut Store<V, DE, UE, F, A>,
    anchors: &[Option<u32>],
)
    requires each { length anchors.now ≡ length store.old.vertex_anchors }
    requires few { length anchors.now ≤ 2 ^ 32 }
    ensures { store.new ≡ record store.old { vertex_anchors = anchors.now } }
{
    for number in 0..anchors.len() {
        store.set_vertex_anchor(FixedVertexHandle::new(number), anchor(anchors[number]));
    }
}

// Sets the anchor of each face.
fn set_face_anchors<V, DE, UE, F, A: Allocator>(
    store: &mut Store<V, DE, UE, F, A>,
    anchors: &[Option<u32>],
)
    requires each { length anchors.now ≡ length store.old.face_anchors }
    requires few { length anchors.now ≤ 2 ^ 32 }
    ensures { store.new ≡ record store.old { face_anchors = anchors.now } }
{
    for number in 0..anchors.len() {
        store.set_face_anchor(FixedFaceHandle::new(number), anchor(anchors[number]));
    }
}

// Returns an anchor that is given by number.
#[inline]
fn anchor(half: Option<u32>) -> Option<FixedDirectedEdgeHandle>
    ensures { result ≡ half }
{
    match half {
        Some(half) => Some(FixedDirectedEdgeHandle::new(half as usize)),
        None => None,
    }
}

// Returns the links that the lists have for a half edge.
#[inline]
fn links_at(next: &[u32], prev: &[u32], origin: &[u32], face: &[u32], half: usize) -> HalfEdgeLinks
    requires next_in { half < length next.now }
    requires prev_in { half < length prev.now }
    requires origin_in { half < length origin.now }
    requires face_in { half < length face.now }
    ensures { result ≡ record {
      next = slice_index next.now half;
      prev = slice_index prev.now half;
      face = slice_index face.now half;
      origin = slice_index origin.now half;
    } }
{
    numbered_links(
        next[half] as usize,
        prev[half] as usize,
        face[half] as usize,
        origin[half] as usize,
    )
}
