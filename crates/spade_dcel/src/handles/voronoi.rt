//! Handles of the Voronoi diagram, the dual of the mesh.
//!
//! Each has the number of the element that it is dual to: directed edges are dual to half edges,
//! undirected edges to edges, faces to vertices, and inner vertices to faces.

mod duals;
mod edges;
mod faces;
mod vertices;

use crate::handles::definitions::DynamicHandleImpl;
use dcel_fixed::{
    DirectedVoronoiEdgeTag, InnerTag, PossiblyOuterTag, UndirectedVoronoiEdgeTag, VoronoiFaceTag,
};
pub use faces::VoronoiFaceEdges;
use std::alloc::Global;
pub use vertices::VoronoiVertex;

/// A borrowed directed edge of the Voronoi diagram, the dual of a half edge.
pub type DirectedVoronoiEdge<'a, V, DE, UE, F, A = Global> = DynamicHandleImpl<
    'a,
    V,
    DE,
    UE,
    F,
    DirectedVoronoiEdgeTag,
    InnerTag,
    A,
>;

/// A borrowed undirected edge of the Voronoi diagram, the dual of an undirected edge.
pub type UndirectedVoronoiEdge<'a, V, DE, UE, F, A = Global> = DynamicHandleImpl<
    'a,
    V,
    DE,
    UE,
    F,
    UndirectedVoronoiEdgeTag,
    InnerTag,
    A,
>;

/// A borrowed face of the Voronoi diagram, the dual of a vertex.
pub type VoronoiFace<'a, V, DE, UE, F, A = Global> = DynamicHandleImpl<
    'a,
    V,
    DE,
    UE,
    F,
    VoronoiFaceTag,
    PossiblyOuterTag,
    A,
>;
