//! Names for the iterators over each kind of element.

use crate::iterators::dynamic_handle_iterator::DynamicHandleIterator;
use crate::iterators::fixed_handle_iterator::FixedHandleIterator;
use crate::iterators::live_iterator::LiveIterator;
use dcel_fixed::{
    DirectedEdgeTag, DirectedVoronoiEdgeTag, FaceTag, InnerTag, PossiblyOuterTag,
    UndirectedEdgeTag, UndirectedVoronoiEdgeTag, VertexTag, VoronoiFaceTag,
};
use std::alloc::Global;

/// All vertices of a mesh, borrowed ([`Dcel::vertices`](crate::dcel::Dcel::vertices)).
pub type VertexIterator<'a, V, DE, UE, F, A = Global> = DynamicHandleIterator<
    'a,
    V,
    DE,
    UE,
    F,
    VertexTag,
    InnerTag,
    A,
>;

/// The numbers of all vertices ([`Dcel::fixed_vertices`](crate::dcel::Dcel::fixed_vertices)).
pub type FixedVertexIterator = FixedHandleIterator<VertexTag, InnerTag>;

/// All half edges of a mesh, borrowed
/// ([`Dcel::directed_edges`](crate::dcel::Dcel::directed_edges)).
pub type DirectedEdgeIterator<'a, V, DE, UE, F, A = Global> = DynamicHandleIterator<
    'a,
    V,
    DE,
    UE,
    F,
    DirectedEdgeTag,
    InnerTag,
    A,
>;

/// The numbers of half edges.
pub type FixedDirectedEdgeIterator = FixedHandleIterator<DirectedEdgeTag, InnerTag>;

/// All undirected edges of a mesh, borrowed
/// ([`Dcel::undirected_edges`](crate::dcel::Dcel::undirected_edges)).
pub type UndirectedEdgeIterator<'a, V, DE, UE, F, A = Global> = DynamicHandleIterator<
    'a,
    V,
    DE,
    UE,
    F,
    UndirectedEdgeTag,
    InnerTag,
    A,
>;

/// The numbers of undirected edges.
pub type FixedUndirectedEdgeIterator = FixedHandleIterator<UndirectedEdgeTag, InnerTag>;

/// All faces of the Voronoi diagram, borrowed, one for each vertex of the mesh.
pub type VoronoiFaceIterator<'a, V, DE, UE, F, A = Global> = DynamicHandleIterator<
    'a,
    V,
    DE,
    UE,
    F,
    VoronoiFaceTag,
    PossiblyOuterTag,
    A,
>;

/// All directed edges of the Voronoi diagram, borrowed, one for each half edge of the mesh.
pub type DirectedVoronoiEdgeIterator<'a, V, DE, UE, F, A = Global> = DynamicHandleIterator<
    'a,
    V,
    DE,
    UE,
    F,
    DirectedVoronoiEdgeTag,
    InnerTag,
    A,
>;

/// All undirected edges of the Voronoi diagram, borrowed, one for each undirected edge of the mesh.
pub type UndirectedVoronoiEdgeIterator<'a, V, DE, UE, F, A = Global> = DynamicHandleIterator<
    'a,
    V,
    DE,
    UE,
    F,
    UndirectedVoronoiEdgeTag,
    InnerTag,
    A,
>;

/// All faces of a mesh, borrowed, the outer one first ([`Dcel::faces`](crate::dcel::Dcel::faces)).
pub type FaceIterator<'a, V, DE, UE, F, A = Global> = DynamicHandleIterator<
    'a,
    V,
    DE,
    UE,
    F,
    FaceTag,
    PossiblyOuterTag,
    A,
>;

/// The inner faces of a mesh, borrowed ([`Dcel::inner_faces`](crate::dcel::Dcel::inner_faces)).
///
/// An iterator created by `new` also lists face 0, the outer face.
pub type InnerFaceIterator<'a, V, DE, UE, F, A = Global> = DynamicHandleIterator<
    'a,
    V,
    DE,
    UE,
    F,
    FaceTag,
    InnerTag,
    A,
>;

/// The numbers of all faces ([`Dcel::fixed_faces`](crate::dcel::Dcel::fixed_faces)).
pub type FixedFaceIterator = FixedHandleIterator<FaceTag, PossiblyOuterTag>;

/// The numbers of faces, marked as inner ones.
///
/// An iterator created by `new` also lists face 0, the outer face.
pub type FixedInnerFaceIterator = FixedHandleIterator<FaceTag, InnerTag>;

/// The live vertices of a mesh, borrowed
/// ([`Dcel::live_vertices`](crate::dcel::Dcel::live_vertices)).
pub type LiveVertexIterator<'a, V, DE, UE, F, A = Global> = LiveIterator<
    'a,
    V,
    DE,
    UE,
    F,
    VertexTag,
    InnerTag,
    A,
>;

/// The live half edges of a mesh, borrowed
/// ([`Dcel::live_directed_edges`](crate::dcel::Dcel::live_directed_edges)).
pub type LiveDirectedEdgeIterator<'a, V, DE, UE, F, A = Global> = LiveIterator<
    'a,
    V,
    DE,
    UE,
    F,
    DirectedEdgeTag,
    InnerTag,
    A,
>;

/// The live undirected edges of a mesh, borrowed
/// ([`Dcel::live_undirected_edges`](crate::dcel::Dcel::live_undirected_edges)).
pub type LiveUndirectedEdgeIterator<'a, V, DE, UE, F, A = Global> = LiveIterator<
    'a,
    V,
    DE,
    UE,
    F,
    UndirectedEdgeTag,
    InnerTag,
    A,
>;

/// The live faces of a mesh, borrowed
/// ([`Dcel::live_faces`](crate::dcel::Dcel::live_faces)).
pub type LiveFaceIterator<'a, V, DE, UE, F, A = Global> = LiveIterator<
    'a,
    V,
    DE,
    UE,
    F,
    FaceTag,
    PossiblyOuterTag,
    A,
>;
