//! Removing a vertex wherever it lies.

ghost use Rattle.std.specs.Prelude.{ℕ, ◌≡◌, ◌↔◌, ◌<◌, IfErr, IfOk, IsTrue, MatchOption};
ghost use Rattle.dcel_convenience.specs.Anywhere.{IsFirstToCollapse, IsLastEdge, IsThere, Leaves, MayNotLeave, Outcome, Removes, reason_of};
ghost use Rattle.dcel_convenience.specs.Collapsing.{CanCollapse};
ghost use Rattle.dcel_convenience.specs.Surrounding.{IsOnBorder, IsSurrounded};
ghost use Rattle.dcel_maps.specs.Conditions.{IsUnconnected};
ghost use Rattle.dcel_maps.specs.Removals.{Closed};
ghost use Rattle.dcel_maps.specs.Shapes.{IsLive, IsMesh, next_of};
ghost use Rattle.dcel_maps.specs.Strips.{IsStripAround};
ghost use Rattle.dcel_maps.specs.Walking.{IsOutEdge};

use crate::collapsing::{WhyNotCollapsed, can_collapse_edge, collapse_edge};
use crate::cutting_off::cut_off;
use crate::removing::WhyNotRemoved;
use crate::surrounding::{Surroundings, look_around};
use spade_dcel::dcel::{Dcel, RemovalState};
use spade_dcel::handles::{FixedDirectedEdgeHandle, FixedVertexHandle};
use spade_dcel::laws::every_mesh;
use spade_dcel::operations::{RemovalResult, remove_when_degenerate, swap_remove_vertex};
use std::alloc::Allocator;

/// How a vertex can be removed.
#[derive(Clone, Copy, PartialEq, Eq, Debug)]
pub enum WayOut {
    /// No edge meets it, so it alone goes.
    Alone,
    /// All its faces are inner triangles: this half edge, which starts there, is collapsed.
    Inside(FixedDirectedEdgeHandle),
    /// It is on the border, where this half edge starts on the outer face: its triangles go, and
    /// the border then runs along its link.
    Border(FixedDirectedEdgeHandle),
    /// It is an end of the only edge, which goes with it.
    LastEdge,
}

/// Removes a vertex wherever it lies, if what is left is a mesh without new second edges, and
/// returns its datum.
///
/// [`way_out`] finds out how, and whether only numbers or memory can be missing:
///
/// - A vertex without edges goes alone, as by [`swap_remove_vertex`].
/// - Inside triangles, the first of its out edges that can be is collapsed, by [`collapse_edge`].
/// - On the border its edges and triangles go, as by [`cut_off_corner`]; what is left gets no
///   new element. That includes a vertex with one edge or one triangle.
/// - Of a mesh that is a single edge, the edge goes too.
///
/// A vertex with two edges stays if the faces on both sides are inner: no call merges its edges into
/// one. Between two triangles, edges join its neighbors twice already ([`SecondEdge`]); otherwise it
/// is the corner of a long face ([`LongFace`]).
///
/// A simple mesh stays simple. The last edges, faces and vertex get the numbers that become free,
/// and the result says whether a vertex did.
///
/// Any vertex may be given. It is refused for the reason that [`way_out`] returns, or where there is
/// a way, for lack of numbers, or else of memory. Then the mesh is as it was. `alloc` is for the
/// list of half edges around the vertex.
///
/// [`cut_off_corner`]: spade_dcel::operations::cut_off_corner
/// [`SecondEdge`]: WhyNotRemoved::SecondEdge
/// [`LongFace`]: WhyNotRemoved::LongFace
pub fn remove_any_vertex<
    V,
    DE: Default + Drop,
    UE: Default + Drop,
    F: Default + Drop,
    A: Allocator + Clone,
    B: Allocator,
>(
    dcel: &mut Dcel<V, DE, UE, F, A>,
    alloc: B,
    vertex: FixedVertexHandle,
) -> Result<RemovalResult<V>, WhyNotRemoved>
    ensures outcome { Outcome DE.is_default UE.is_default F.is_default dcel.old dcel.new vertex result }
    ensures mesh { IsMesh dcel.new }
{
    every_mesh(dcel);
    match way_out(dcel, vertex) {
        Ok(way) => remove_by(dcel, alloc, vertex, way),
        Err(why) => Err(why),
    }
}

/// Returns how a vertex can be removed by [`remove_any_vertex`], whatever numbers and memory there
/// are, or why it can't be.
///
/// Of several reasons it returns the first of [`NoVertex`](WhyNotRemoved::NoVertex),
/// [`RemovalOpen`](WhyNotRemoved::RemovalOpen), [`LongFace`](WhyNotRemoved::LongFace),
/// [`CutVertex`](WhyNotRemoved::CutVertex), [`ShortBorder`](WhyNotRemoved::ShortBorder) and
/// [`SecondEdge`](WhyNotRemoved::SecondEdge).
///
/// It goes around the vertex and its neighbors as [`can_collapse_edge`] does for each of its edges,
/// up to the first that can be collapsed; for a mesh of one edge it may look at all vertices. It
/// allocates nothing. Any number may be given.
pub fn way_out<V, DE, UE, F, A: Allocator>(
    dcel: &Dcel<V, DE, UE, F, A>,
    vertex: FixedVertexHandle,
) -> Result<WayOut, WhyNotRemoved>
    ensures way { IfOk result (Leaves dcel.now vertex) }
    ensures why { IfErr result (MayNotLeave dcel.now vertex) }
{
    if vertex.index() >= dcel.num_vertices() {
        return Err(WhyNotRemoved::NoVertex);
    }
    if dcel.removal_state() != RemovalState::Closed {
        return Err(WhyNotRemoved::RemovalOpen);
    }
    match look_around(dcel, vertex) {
        Surroundings::Nothing => Ok(WayOut::Alone),
        Surroundings::Triangles => way_inside(dcel, vertex),
        Surroundings::Border(outside) => way_at_border(dcel, vertex, outside),
        Surroundings::CutVertex => Err(WhyNotRemoved::CutVertex),
        Surroundings::LongFace => Err(WhyNotRemoved::LongFace),
    }
}

// Returns how a vertex inside triangles can be removed.
fn way_inside<V, DE, UE, F, A: Allocator>(
    dcel: &Dcel<V, DE, UE, F, A>,
    vertex: FixedVertexHandle,
) -> Result<WayOut, WhyNotRemoved>
    requires there { IsThere dcel.now.shape vertex }
    requires inside { IsSurrounded dcel.now.shape vertex }
    ensures way { IfOk result (Leaves dcel.now vertex) }
    ensures why { IfErr result (MayNotLeave dcel.now vertex) }
{
    match first_to_collapse(dcel, vertex) {
        Some(half) => Ok(WayOut::Inside(half)),
        None => Err(WhyNotRemoved::SecondEdge),
    }
}

// Returns the first out edge of a vertex that can be collapsed.
fn first_to_collapse<V, DE, UE, F, A: Allocator>(
    dcel: &Dcel<V, DE, UE, F, A>,
    vertex: FixedVertexHandle,
) -> Option<FixedDirectedEdgeHandle>
    requires { vertex < dcel.now.shape.vertices }
    ensures { let s = dcel.now.shape in
        MatchOption result ((h : ℕ) → IsOutEdge s vertex h → ¬ CanCollapse s h) (IsFirstToCollapse dcel.now vertex) }
{
    every_mesh(dcel);
    for edge in dcel.vertex(vertex).out_edges() {
        let spoke = edge.fix();
        if can_collapse_edge(dcel, spoke) {
            return Some(spoke);
        }
    }
    None
}

// Returns how a vertex can be removed where this half edge starts on the outer face.
fn way_at_border<V, DE, UE, F, A: Allocator>(
    dcel: &Dcel<V, DE, UE, F, A>,
    vertex: FixedVertexHandle,
    outside: FixedDirectedEdgeHandle,
) -> Result<WayOut, WhyNotRemoved>
    requires there { IsThere dcel.now.shape vertex }
    requires border { IsOnBorder dcel.now.shape vertex outside }
    ensures way { IfOk result (Leaves dcel.now vertex) }
    ensures why { IfErr result (MayNotLeave dcel.now vertex) }
{
    every_mesh(dcel);
    if !comes_back(dcel, outside) {
        return Ok(WayOut::Border(outside));
    }
    if dcel.num_undirected_edges() != 1 {
        return Err(WhyNotRemoved::ShortBorder);
    }
    if !dcel.can_remove_degenerate(vertex) {
        return Err(WhyNotRemoved::ShortBorder);
    }
    Ok(WayOut::LastEdge)
}

// Returns whether two steps along the face of a live half edge lead back to it.
fn comes_back<V, DE, UE, F, A: Allocator>(
    dcel: &Dcel<V, DE, UE, F, A>,
    half: FixedDirectedEdgeHandle,
) -> bool
    requires { IsLive dcel.now.shape half }
    ensures { let s = dcel.now.shape in IsTrue result ↔ (next_of s (next_of s half) ≡ half) }
{
    dcel.directed_edge(half).next().next().fix() == half
}

// Removes a vertex in this way.
fn remove_by<
    V,
    DE: Default + Drop,
    UE: Default + Drop,
    F: Default + Drop,
    A: Allocator + Clone,
    B: Allocator,
>(
    dcel: &mut Dcel<V, DE, UE, F, A>,
    alloc: B,
    vertex: FixedVertexHandle,
    way: WayOut,
) -> Result<RemovalResult<V>, WhyNotRemoved>
    requires { Leaves dcel.old vertex way }
    ensures outcome { Outcome DE.is_default UE.is_default F.is_default dcel.old dcel.new vertex result }
    ensures mesh { IsMesh dcel.new }
{
    every_mesh(dcel);
    match way {
        WayOut::Alone => Ok(remove_alone(dcel, vertex)),
        WayOut::Inside(half) => remove_inside(dcel, alloc, vertex, half),
        WayOut::Border(outside) => remove_at_border(dcel, alloc, vertex, outside),
        WayOut::LastEdge => Ok(remove_last_edge(dcel, vertex)),
    }
}

// Removes a vertex that no edge meets.
fn remove_alone<V, DE: Default, UE: Default, F: Default, A: Allocator>(
    dcel: &mut Dcel<V, DE, UE, F, A>,
    vertex: FixedVertexHandle,
) -> RemovalResult<V>
    requires closed { dcel.old.shape.removal ≡ Closed }
    requires bare { IsUnconnected dcel.old.shape vertex }
    ensures removed { Removes DE.is_default UE.is_default F.is_default dcel.old dcel.new vertex result }
    ensures mesh { IsMesh dcel.new }
{
    every_mesh(dcel);
    swap_remove_vertex(dcel, vertex)
}

// Removes an end of the last edge with this edge.
fn remove_last_edge<V, DE: Default + Drop, UE: Default + Drop, F: Default, A: Allocator>(
    dcel: &mut Dcel<V, DE, UE, F, A>,
    vertex: FixedVertexHandle,
) -> RemovalResult<V>
    requires { IsLastEdge dcel.old.shape vertex }
    ensures removed { Removes DE.is_default UE.is_default F.is_default dcel.old dcel.new vertex result }
    ensures mesh { IsMesh dcel.new }
{
    every_mesh(dcel);
    remove_when_degenerate(dcel, vertex)
}

// Removes a vertex on the border with its triangles.
fn remove_at_border<
    V,
    DE: Default + Drop,
    UE: Default + Drop,
    F: Default + Drop,
    A: Allocator + Clone,
    B: Allocator,
>(
    dcel: &mut Dcel<V, DE, UE, F, A>,
    alloc: B,
    vertex: FixedVertexHandle,
    outside: FixedDirectedEdgeHandle,
) -> Result<RemovalResult<V>, WhyNotRemoved>
    requires closed { dcel.old.shape.removal ≡ Closed }
    requires around { IsStripAround dcel.old.shape vertex outside }
    ensures outcome { Outcome DE.is_default UE.is_default F.is_default dcel.old dcel.new vertex result }
    ensures mesh { IsMesh dcel.new }
{
    let Ok(taken) = cut_off(dcel, alloc, vertex, outside) else {
        return Err(WhyNotRemoved::OutOfMemory);
    };
    Ok(taken)
}

// Removes a vertex by collapsing this edge.
fn remove_inside<
    V,
    DE: Default + Drop,
    UE: Default + Drop,
    F: Default + Drop,
    A: Allocator + Clone,
    B: Allocator,
>(
    dcel: &mut Dcel<V, DE, UE, F, A>,
    alloc: B,
    vertex: FixedVertexHandle,
    half: FixedDirectedEdgeHandle,
) -> Result<RemovalResult<V>, WhyNotRemoved>
    requires { IsFirstToCollapse dcel.old vertex half }
    ensures outcome { Outcome DE.is_default UE.is_default F.is_default dcel.old dcel.new vertex result }
    ensures mesh { IsMesh dcel.new }
{
    match collapse_edge(dcel, alloc, half) {
        Ok(taken) => Ok(taken),
        Err(why) => Err(reason_of(why)),
    }
}

// Returns why a vertex is not removed whose edge is not collapsed for this reason.
fn reason_of(why: WhyNotCollapsed) -> WhyNotRemoved
    ensures { result ≡ reason_of why }
{
    match why {
        WhyNotCollapsed::RemovalOpen => WhyNotRemoved::RemovalOpen,
        WhyNotCollapsed::NotInside => WhyNotRemoved::NotInside,
        WhyNotCollapsed::SecondEdge => WhyNotRemoved::SecondEdge,
        WhyNotCollapsed::NoRoom => WhyNotRemoved::NoRoom,
        WhyNotCollapsed::OutOfMemory => WhyNotRemoved::OutOfMemory,
    }
}
