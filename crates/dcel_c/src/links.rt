//! The links of half edges, one by one and as an array.

ghost use Rattle.std.specs.Prelude.{◌≡◌, ◌*◌, ◌≤◌, ◌<◌, ◌++◌, length, drop};
ghost use Rattle.dcel_c.specs.Calls.{kept_in, count_in};
ghost use Rattle.dcel_c.specs.HalfEdges.{links_of, links_below, links_filled, fill_links, links_in, links_status};

use crate::held::Numbers;
use crate::mesh::DcelMesh;
use crate::status::{NO_MESH, done_or_short};
use spade_dcel::handles::FixedDirectedEdgeHandle;

/// The links of a half edge: what comes after it and before it on its face, the vertex that it
/// starts at, and its face.
///
/// The other half of the edge `h` has the number `h ^ 1`.
#[repr(C)]
#[derive(Clone, Copy)]
pub struct DcelHalfEdge {
    pub next: u32,
    pub prev: u32,
    pub origin: u32,
    pub face: u32,
}

/// The links of a half edge that isn't live.
///
/// No face has such a number: there are no more than 2^31 edges and two.
const NO_LINKS: DcelHalfEdge = DcelHalfEdge {
    next: u32::MAX,
    prev: u32::MAX,
    origin: u32::MAX,
    face: u32::MAX,
};

/// Returns the links of a half edge.
#[inline]
fn links(dcel: &Numbers, number: FixedDirectedEdgeHandle) -> DcelHalfEdge
    ensures { result ≡ links_of dcel.now.shape number }
{
    if !dcel.is_live_edge(number.as_undirected()) {
        return NO_LINKS;
    }
    let edge = dcel.directed_edge(number);
    DcelHalfEdge {
        next: edge.next().index() as u32,
        prev: edge.prev().index() as u32,
        origin: edge.from().index() as u32,
        face: edge.face().index() as u32,
    }
}

/// Puts the links of this many half edges into the buffer, each at its number.
///
/// Asks for as many half edges, and for a buffer that holds them.
fn put_first(dcel: &Numbers, half_edges: &mut [DcelHalfEdge], count: usize)
    requires few { count ≤ 2 * dcel.now.shape.edges }
    requires room { count ≤ length half_edges.old }
    ensures { half_edges.new ≡ links_below dcel.now.shape count ++ drop count half_edges.old }
{
    prove!(dcel.num_directed_edges() <= 4_294_967_296);
    let mut number = 0;
    while number < count {
        half_edges[number] = links(dcel, FixedDirectedEdgeHandle::new(number));
        number += 1;
    }
}

/// Puts the links of the half edges into the buffer by their numbers, as many as fit.
fn put_links(dcel: &Numbers, half_edges: &mut [DcelHalfEdge])
    ensures { half_edges.new ≡ links_filled dcel.now.shape half_edges.old }
{
    let fitting = dcel.num_directed_edges().min(half_edges.len());
    put_first(dcel, half_edges, fitting);
}

/// Tells the links of a half edge. If it isn't live, each is 2^32 - 1.
#[unsafe(no_mangle)]
pub extern "C" fn dcel_directed_edge(mesh: &mut DcelMesh, edge: u32, half_edge: &mut DcelHalfEdge)
    ensures links { half_edge.new ≡ links_in (kept_in mesh.old) edge }
    ensures same { kept_in mesh.new ≡ kept_in mesh.old }
{
    if !mesh.is_open {
        *half_edge = NO_LINKS;
        return;
    }
    let edge = FixedDirectedEdgeHandle::new(edge as usize);
    *half_edge = links(mesh.held.as_mut(), edge);
}

/// Puts the links of all half edges into the buffer, each at its number.
///
/// As many as fit are put there, from the front, and what lies behind them stays. `needed` is how
/// many half edges there are.
#[unsafe(no_mangle)]
pub extern "C" fn dcel_directed_edges(
    mesh: &mut DcelMesh,
    half_edges: &mut [DcelHalfEdge],
    needed: &mut u64,
) -> u32
    ensures links { half_edges.new ≡ fill_links (kept_in mesh.old) half_edges.old }
    ensures needed { needed.new ≡ count_in (λ shape. 2 * shape.edges) (kept_in mesh.old) }
    ensures status { result ≡ links_status (kept_in mesh.old) needed.new (length half_edges.old) }
    ensures same { kept_in mesh.new ≡ kept_in mesh.old }
{
    *needed = 0;
    if !mesh.is_open {
        return NO_MESH;
    }
    let dcel = mesh.held.as_mut();
    put_links(dcel, half_edges);
    *needed = dcel.num_directed_edges() as u64;
    done_or_short(*needed, half_edges.len())
}
