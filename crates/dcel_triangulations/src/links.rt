//! The links of a triangulation's half edges, in a buffer.

ghost use Rattle.std.specs.Prelude.{◌≡◌, ◌≢◌, ◌<◌, ◌*◌, None};
ghost use Rattle.dcel_maps.specs.Removals.{Closed};
ghost use Rattle.dcel_triangulations.specs.Calls.{IsSo, kept_in};
ghost use Rattle.dcel_triangulations.specs.Lists.{IsPut, half_edges_of, links_of, links_told};

use crate::status::{DONE, NO_MESH, SHORT};
use crate::triangulation::DcelTriangulation;
use dcel_planar::EdgeMesh;
use spade_dcel::handles::FixedDirectedEdgeHandle;
use std::alloc::Global;

/// The links of a half edge: the ones after and before it on its face, the vertex that it starts at,
/// and its face. C's `dcel_half_edge`.
#[repr(C)]
#[derive(Clone, Copy)]
pub struct DcelHalfEdge {
    /// The one after it on its face.
    pub next: u32,
    /// The one before it on its face.
    pub prev: u32,
    /// The vertex that it starts at.
    pub origin: u32,
    /// The face that it is on.
    pub face: u32,
}

/// Puts the links of each half edge into the buffer at its number, if they all fit; what is behind
/// them there stays. If they don't, the status is SHORT, and the buffer stays. `needed` is how many
/// half edges there are, 0 if there is no triangulation.
#[unsafe(no_mangle)]
pub extern "C" fn dcel_triangulation_directed_edges(
    triangulation: &mut DcelTriangulation,
    half_edges: &mut [DcelHalfEdge],
    needed: &mut u64,
) -> u32
    ensures links { result ≢ 21 → IsSo (λ t. IsPut (half_edges_of t) half_edges.old half_edges.new needed.new result) (kept_in triangulation.old) }
    ensures none { result ≡ 21 → (kept_in triangulation.old ≡ None) × (half_edges.new ≡ half_edges.old) × (needed.new ≡ 0) }
    ensures same { kept_in triangulation.new ≡ kept_in triangulation.old }
{
    *needed = 0;
    if !triangulation.is_open {
        return NO_MESH;
    }
    put_links(triangulation.held.as_mut().dcel(), half_edges, needed)
}

/// Puts the links of each half edge of a mesh into the buffer, if they all fit.
pub(crate) fn put_links<UE>(
    dcel: &EdgeMesh<UE, Global>,
    half_edges: &mut [DcelHalfEdge],
    needed: &mut u64,
) -> u32
    requires { dcel.now.shape.removal ≡ Closed }
    ensures { IsPut (links_told dcel.now.shape) half_edges.old half_edges.new needed.new result }
{
    let count = dcel.num_directed_edges();
    *needed = count as u64;
    if half_edges.len() < count {
        return SHORT;
    }
    let mut number = 0;
    while number < count {
        half_edges[number] = links(dcel, FixedDirectedEdgeHandle::new(number));
        number += 1;
    }
    DONE
}

/// Returns the links of a half edge.
#[inline]
fn links<UE>(dcel: &EdgeMesh<UE, Global>, number: FixedDirectedEdgeHandle) -> DcelHalfEdge
    requires closed { dcel.now.shape.removal ≡ Closed }
    requires within { number < 2 * dcel.now.shape.edges }
    ensures { result ≡ links_of dcel.now.shape number }
{
    let edge = dcel.directed_edge(number);
    DcelHalfEdge {
        next: edge.next().index() as u32,
        prev: edge.prev().index() as u32,
        origin: edge.from().index() as u32,
        face: edge.face().index() as u32,
    }
}
