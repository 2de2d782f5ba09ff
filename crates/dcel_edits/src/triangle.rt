//! Writing a first triangle, and inserting a vertex into a triangle.

ghost use Rattle.std.specs.Prelude.{◌≡◌, ◌<◌, ◌^◌};
ghost use Rattle.dcel_store.specs.Lists as lists;
ghost use Rattle.dcel_maps.specs.edits.DefaultData.{AddsEdgesAndFaces};
ghost use Rattle.dcel_edits.specs.Adding.{IsEmpty};
ghost use Rattle.dcel_edits.specs.Triangle.{CanInsert, insertion_stored, triangle_stored};

use crate::links::numbered_links;
use crate::sectors::{Sector, close_three_sectors, spoke};
use dcel_fixed::{FixedDirectedEdgeHandle, FixedFaceHandle, FixedVertexHandle};
use dcel_store::{EdgeData, HalfEdgeLinks, Store};
use std::alloc::Allocator;

/// Writes a triangle and the outer face into an empty store.
pub fn put_triangle<V, DE: Default, UE: Default, F: Default, A: Allocator>(
    store: &mut Store<V, DE, UE, F, A>,
    vertices: (V, V, V),
)
    requires empty { IsEmpty store.old }
    requires room { lists.HasPlaces store.old 3 3 2 }
    ensures { AddsEdgesAndFaces DE.is_default UE.is_default F.is_default 3 2 store.new (triangle_stored store.old vertices) }
{
    let (first, second, third) = vertices;
    store.push_vertex(first, Some(FixedDirectedEdgeHandle::new(0)));
    store.push_vertex(second, Some(FixedDirectedEdgeHandle::new(2)));
    store.push_vertex(third, Some(FixedDirectedEdgeHandle::new(4)));
    store.push_face(F::default(), Some(FixedDirectedEdgeHandle::new(0)));
    store.push_face(F::default(), Some(FixedDirectedEdgeHandle::new(1)));
    store.push_edge(
        numbered_links(2, 4, 0, 0),
        numbered_links(5, 3, 1, 1),
        EdgeData::default(),
    );
    store.push_edge(
        numbered_links(4, 0, 0, 1),
        numbered_links(1, 5, 1, 2),
        EdgeData::default(),
    );
    store.push_edge(
        numbered_links(0, 2, 0, 2),
        numbered_links(3, 1, 1, 0),
        EdgeData::default(),
    );
}

/// Cuts the triangle of the half edge `first` into three, which meet at the vertex `tip`.
pub fn put_insertion<V, DE: Default, UE: Default, F: Default, A: Allocator>(
    store: &mut Store<V, DE, UE, F, A>,
    first: FixedDirectedEdgeHandle,
    tip: FixedVertexHandle,
)
    requires { CanInsert store.old first tip }
    ensures { AddsEdgesAndFaces DE.is_default UE.is_default F.is_default 3 2 store.new (insertion_stored store.old first tip) }
{
    let edges = store.num_edges();
    let faces = store.num_faces();
    let second = store.next(first);
    let third = store.prev(first);
    let a = Sector::new(store, first, store.face(first), edges, edges + 2);
    let b = Sector::new(store, second, FixedFaceHandle::new(faces), edges + 1, edges);
    let c = Sector::new(
        store,
        third,
        FixedFaceHandle::new(faces + 1),
        edges + 2,
        edges + 1,
    );
    close_three_sectors(store, &a, &b, &c);
    store.push_three_edges(
        spoke(&a, &b, tip, EdgeData::default()),
        spoke(&b, &c, tip, EdgeData::default()),
        spoke(&c, &a, tip, EdgeData::default()),
    );
    store.push_face(F::default(), Some(b.edge));
    store.push_face(F::default(), Some(c.edge));
    store.set_vertex_anchor(tip, Some(b.prev));
}
