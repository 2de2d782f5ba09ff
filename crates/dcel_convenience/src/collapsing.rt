//! Collapsing an edge: its start goes, and what met the start then meets its end.

ghost use Rattle.std.specs.Prelude.{ℕ, ◌≡◌, ◌↔◌, ◌<◌, IfErr, IfOk, IfSome, IsTrue, None, OnErr, OnOk};
ghost use Rattle.dcel_convenience.specs.Collapsing.{AreJoinedBesides, CanCollapse, HasRoomToCollapse, MayNotCollapse, MeetsLinkCondition, StartsInDisc, corner_of};
ghost use Rattle.dcel_convenience.specs.Removing.{Returns, TakesOut, border_from};
ghost use Rattle.dcel_convenience.specs.Simple.{IsOnly, IsSimple};
ghost use Rattle.dcel_maps.specs.Shapes.{IsLive, IsMesh, end_of, origin_of};
ghost use Rattle.dcel_maps.specs.Walking.{IsOutEdge};

use crate::edges::{are_joined, is_only};
use crate::surrounding::is_inside;
use crate::taking_out::{border_from, border_length, take_out};
use spade_dcel::dcel::{Dcel, RemovalState};
use spade_dcel::handles::{FixedDirectedEdgeHandle, FixedVertexHandle};
use spade_dcel::laws::every_mesh;
use spade_dcel::operations::{RemovalResult, Room};
use std::alloc::Allocator;
use std::error::Error;
use std::fmt;

/// Why an edge was not collapsed.
#[derive(Clone, Copy, PartialEq, Eq, Debug, Drop)]
pub enum WhyNotCollapsed {
    /// A removal is open.
    RemovalOpen,
    /// There is no such half edge, the faces around its start aren't three or more inner triangles,
    /// or two edges join the start to the same vertex.
    NotInside,
    /// Both ends have another neighbor in common than the two vertices across from the edge. A
    /// second edge would join the end to it.
    SecondEdge,
    /// There are no numbers left for the edges and faces that fill the hole.
    NoRoom,
    /// Memory ran out.
    OutOfMemory,
}

impl fmt::Display for WhyNotCollapsed {
    fn fmt<W: fmt::Write>(&self, f: &mut fmt::Formatter<W>) -> fmt::Result {
        f.write_str(match self {
            WhyNotCollapsed::RemovalOpen => "a removal is open",
            WhyNotCollapsed::NotInside => "the start is not inside three or more triangles",
            WhyNotCollapsed::SecondEdge => "a second edge would join two vertices",
            WhyNotCollapsed::NoRoom => "there are no numbers left",
            WhyNotCollapsed::OutOfMemory => "out of memory",
        })
    }
}

impl Error for WhyNotCollapsed {}

/// Collapses an edge: removes the vertex where the half edge starts, joins what that vertex met to
/// the vertex where the half edge ends, and returns the datum of the start.
///
/// ```text
/// before      c                 after       c
///           / | \                         / | \
///          d -v- b                       d  |  b
///           \ | /                         \ | /
///             a                             a
/// ```
///
/// In the picture the half edge leads from `v` to `a`. This is a removal of its start whose hole is
/// filled from its end: the edges and faces around the start go, and new ones come, with default
/// data, two fewer of the faces and three fewer of the edges. The last edges, faces and vertex get
/// the numbers that become free, and the result says whether a vertex did. A simple mesh stays
/// simple.
///
/// Any half edge may be given. It is refused for the first reason of [`WhyNotCollapsed`] that
/// applies, and then the mesh is as it was. [`can_collapse_edge`] reports whether only numbers or
/// memory can be missing. `alloc` is for the border loop of the start.
pub fn collapse_edge<
    V,
    DE: Default + Drop,
    UE: Default + Drop,
    F: Default + Drop,
    A: Allocator + Clone,
    B: Allocator,
>(
    dcel: &mut Dcel<V, DE, UE, F, A>,
    alloc: B,
    half: FixedDirectedEdgeHandle,
) -> Result<RemovalResult<V>, WhyNotCollapsed>
    ensures can { OnOk result (CanCollapse dcel.old.shape half) }
    ensures room { OnOk result (HasRoomToCollapse dcel.old.shape half) }
    ensures edit { let old = dcel.old.shape in
        OnOk result (TakesOut DE.is_default UE.is_default F.is_default (border_from old half) dcel.old dcel.new (origin_of old half)) }
    ensures simple { IsSimple dcel.old.shape → OnOk result (IsSimple dcel.new.shape) }
    ensures returned { IfOk result (Returns dcel.old (origin_of dcel.old.shape half)) }
    ensures why { IfErr result (MayNotCollapse dcel.old.shape half) }
    ensures refused { OnErr result (dcel.new ≡ dcel.old) }
    ensures mesh { IsMesh dcel.new }
{
    every_mesh(dcel);
    if let Some(why) = why_not(dcel, half) {
        return Err(why);
    }
    if !has_room_to_collapse(dcel, half) {
        return Err(WhyNotCollapsed::NoRoom);
    }
    let vertex = start_of(dcel, half);
    let Ok(border) = border_from(alloc, dcel.directed_edge(half)) else {
        return Err(WhyNotCollapsed::OutOfMemory);
    };
    let Ok(taken) = take_out(dcel, border, vertex) else {
        return Err(WhyNotCollapsed::OutOfMemory);
    };
    Ok(taken)
}

/// Returns whether the edge of a half edge can be collapsed into the vertex where it ends, which
/// removes the one where it starts.
///
/// No removal is open, the half edge is live, and all faces around its start are inner triangles,
/// which make a disc: edges join the start to different vertices, three or more. And the link
/// condition holds: a vertex that edges join to both ends is one of the two across from the edge
/// (Dey, Edelsbrunner, Guha and Nekhayev, "Topology preserving edge contraction", 1999).
///
/// It goes around the start, and for each neighbor around it or around one end, whichever has fewer
/// edges. It allocates nothing. Any number may be given.
pub fn can_collapse_edge<V, DE, UE, F, A: Allocator>(
    dcel: &Dcel<V, DE, UE, F, A>,
    half: FixedDirectedEdgeHandle,
) -> bool
    ensures { IsTrue result ↔ CanCollapse dcel.now.shape half }
{
    why_not(dcel, half).is_none()
}

// Returns why an edge can't be collapsed, whatever numbers and memory there are.
fn why_not<V, DE, UE, F, A: Allocator>(
    dcel: &Dcel<V, DE, UE, F, A>,
    half: FixedDirectedEdgeHandle,
) -> Option<WhyNotCollapsed>
    ensures can { result ≡ None → CanCollapse dcel.now.shape half }
    ensures cannot { IfSome result (λ why. ¬ CanCollapse dcel.now.shape half) }
    ensures why { IfSome result (MayNotCollapse dcel.now.shape half) }
{
    if dcel.removal_state() != RemovalState::Closed {
        return Some(WhyNotCollapsed::RemovalOpen);
    }
    if !starts_in_disc(dcel, half) {
        return Some(WhyNotCollapsed::NotInside);
    }
    if !meets_link_condition(dcel, half) {
        return Some(WhyNotCollapsed::SecondEdge);
    }
    None
}

// Returns whether there are numbers for what fills the hole around the start of a live half edge.
fn has_room_to_collapse<V, DE, UE, F, A: Allocator>(
    dcel: &Dcel<V, DE, UE, F, A>,
    half: FixedDirectedEdgeHandle,
) -> bool
    requires { IsLive dcel.now.shape half }
    ensures { IsTrue result ↔ HasRoomToCollapse dcel.now.shape half }
{
    let count = border_length(dcel.directed_edge(half));
    dcel.has_room_for(Room::filling(count))
}

// Returns whether the faces around the start of a half edge are inner triangles that make a disc.
fn starts_in_disc<V, DE, UE, F, A: Allocator>(
    dcel: &Dcel<V, DE, UE, F, A>,
    half: FixedDirectedEdgeHandle,
) -> bool
    ensures { IsTrue result ↔ StartsInDisc dcel.now.shape half }
{
    if !dcel.is_live_edge(half.as_undirected()) {
        return false;
    }
    let start = start_of(dcel, half);
    if !is_inside(dcel, start) {
        return false;
    }
    if corner_of(dcel, half) == corner_of(dcel, half.rev()) {
        return false;
    }
    has_only_edges(dcel, start)
}

// Returns whether the edges at a vertex join it to different ones.
fn has_only_edges<V, DE, UE, F, A: Allocator>(
    dcel: &Dcel<V, DE, UE, F, A>,
    vertex: FixedVertexHandle,
) -> bool
    requires { vertex < dcel.now.shape.vertices }
    ensures { let s = dcel.now.shape in IsTrue result ↔ ((k : ℕ) → IsOutEdge s vertex k → IsOnly s k) }
{
    every_mesh(dcel);
    for edge in dcel.vertex(vertex).out_edges() {
        if !is_only(dcel, edge.fix()) {
            return false;
        }
    }
    true
}

// Returns whether the common neighbors of both ends of a live half edge are across from its edge.
fn meets_link_condition<V, DE, UE, F, A: Allocator>(
    dcel: &Dcel<V, DE, UE, F, A>,
    half: FixedDirectedEdgeHandle,
) -> bool
    requires { IsLive dcel.now.shape half }
    ensures { IsTrue result ↔ MeetsLinkCondition dcel.now.shape half }
{
    let start = start_of(dcel, half);
    let end = start_of(dcel, half.rev());
    let left = corner_of(dcel, half);
    let right = corner_of(dcel, half.rev());
    shares_only(dcel, start, end, left, right)
}

// Returns whether two vertices have no other neighbor in common than these.
fn shares_only<V, DE, UE, F, A: Allocator>(
    dcel: &Dcel<V, DE, UE, F, A>,
    start: FixedVertexHandle,
    end: FixedVertexHandle,
    left: FixedVertexHandle,
    right: FixedVertexHandle,
) -> bool
    requires start { start < dcel.now.shape.vertices }
    requires end { end < dcel.now.shape.vertices }
    ensures { let s = dcel.now.shape in
        IsTrue result ↔ ((k : ℕ) → IsOutEdge s start k → ¬ AreJoinedBesides s end (end_of s k) left right) }
{
    every_mesh(dcel);
    for edge in dcel.vertex(start).out_edges() {
        let neighbor = edge.to().fix();
        if are_joined_besides(dcel, end, neighbor, left, right) {
            return false;
        }
    }
    true
}

// Returns whether an edge joins two vertices, of which the second is none of these.
fn are_joined_besides<V, DE, UE, F, A: Allocator>(
    dcel: &Dcel<V, DE, UE, F, A>,
    one: FixedVertexHandle,
    other: FixedVertexHandle,
    left: FixedVertexHandle,
    right: FixedVertexHandle,
) -> bool
    requires one { one < dcel.now.shape.vertices }
    requires other { other < dcel.now.shape.vertices }
    ensures { IsTrue result ↔ AreJoinedBesides dcel.now.shape one other left right }
{
    if other == left {
        return false;
    }
    if other == right {
        return false;
    }
    are_joined(dcel, one, other)
}

// Returns where a live half edge starts.
fn start_of<V, DE, UE, F, A: Allocator>(
    dcel: &Dcel<V, DE, UE, F, A>,
    half: FixedDirectedEdgeHandle,
) -> FixedVertexHandle
    requires { IsLive dcel.now.shape half }
    ensures start { result ≡ origin_of dcel.now.shape half }
    ensures within { result < dcel.now.shape.vertices }
{
    dcel.directed_edge(half).from().fix()
}

// Returns the vertex across from the edge of a live half edge, on the face of the half edge.
fn corner_of<V, DE, UE, F, A: Allocator>(
    dcel: &Dcel<V, DE, UE, F, A>,
    half: FixedDirectedEdgeHandle,
) -> FixedVertexHandle
    requires { IsLive dcel.now.shape half }
    ensures { result ≡ corner_of dcel.now.shape half }
{
    dcel.directed_edge(half).prev().from().fix()
}
