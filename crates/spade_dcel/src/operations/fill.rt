//! Filling holes: giving up a vertex with its edges and the triangles around it, or a region of
//! faces with the edges between them.

ghost use Rattle.std.specs.Prelude.{◌≡◌, ◌-◌, ◌^◌, ◌<◌, ◌≤◌, ◌++◌, IfOk, OnErr, OnOk, length};
ghost use Rattle.dcel_maps.specs.Borders.{IsBorderLoop};
ghost use Rattle.dcel_maps.specs.Conditions.{HasRoom};
ghost use Rattle.dcel_maps.specs.EditLists.{EditedBy, ears_cut, filling, vertex_cut_off};
ghost use Rattle.dcel_maps.specs.edits.Fill.{CanFill, FillsHole, border_filled, edges_at, faces_at, hole_filled, ring_remeshed};
ghost use Rattle.dcel_maps.specs.Numbers.{numbers_between};
ghost use Rattle.dcel_maps.specs.Regions.{IsRing, inside};
ghost use Rattle.dcel_maps.specs.Removals.{Closed, opened_with};
ghost use Rattle.dcel_maps.specs.Shapes.{IsMesh};
ghost use Rattle.spade_dcel.specs.Opened.{HasFilled};

use crate::dcel::Dcel;
use crate::laws::every_mesh;
use crate::operations::IsolateVertexResult;
use dcel_edits::fill::{drop_all_anchors, put_ears};
use dcel_fixed::{
    FixedDirectedEdgeHandle, FixedFaceHandle, FixedUndirectedEdgeHandle, FixedVertexHandle,
    InnerTag,
};
use std::alloc::{AllocError, Allocator};

// The edges and the faces that are given up.
type GivenUpLists<A> = (
    Vec<FixedUndirectedEdgeHandle, A>,
    Vec<FixedFaceHandle<InnerTag>, A>,
);

/// Gives up a vertex whose faces are all inner triangles, and fills the hole with new triangles.
///
/// Its edges and the triangles around it are given up too. A loop of `k` half edges is filled with
/// `k - 2` triangles by `k - 3` new edges, which all start where the last half edge of
/// `border_loop` starts, at `a` in the picture.
///
/// ```text
/// before      c                 after       c
///           / | \                         / | \
///          d -v- b                       d  |  b
///           \ | /                         \ | /
///             a                             a
/// ```
///
/// The result has the new edges in ascending order, and the given-up edges and faces in the order
/// of the out edges of the vertex. What is given up is still stored:
/// [`cleanup_isolated_vertex`](super::cleanup_isolated_vertex) takes out the edges and faces, and
/// then [`swap_remove_vertex`](super::swap_remove_vertex) the vertex. Each vertex of the loop gets
/// a new anchor.
///
/// Asks that no removal is open ([`removal_state`](Dcel::removal_state)), that the list is the
/// border loop of the vertex ([`is_border_loop`](Dcel::is_border_loop)), and for room for the new
/// edges and faces ([`has_room`](Dcel::has_room)). If memory runs out it returns `AllocError`, the
/// list is dropped, and the mesh is as it was.
pub fn isolate_vertex_and_fill_hole<
    V,
    DE: Default,
    UE: Default,
    F: Default,
    A: Allocator + Clone,
    B: Allocator,
>(
    dcel: &mut Dcel<V, DE, UE, F, A>,
    border_loop: Vec<FixedDirectedEdgeHandle, B>,
    vertex: FixedVertexHandle,
) -> Result<IsolateVertexResult<A>, AllocError>
    requires closed { dcel.old.shape.removal ≡ Closed }
    requires border { IsBorderLoop dcel.old.shape border_loop.items vertex }
    requires room { HasRoom dcel.old.shape 0 (length border_loop.items - 3) (length border_loop.items - 2) }
    ensures edit { OnOk result (FillsHole DE.is_default UE.is_default F.is_default border_loop.items dcel.new (hole_filled dcel.old vertex border_loop.items)) }
    ensures edits { OnOk result (EditedBy (vertex_cut_off (length border_loop.items) ++ ears_cut (length border_loop.items)) dcel.old dcel.new) }
    ensures answer { IfOk result (HasFilled dcel.old.shape border_loop.items (edges_at dcel.old vertex) (faces_at dcel.old vertex)) }
    ensures refused { OnErr result (dcel.new ≡ dcel.old) }
    ensures mesh { IsMesh dcel.new }
{
    every_mesh(dcel);
    let (edges, faces) = lists_round(dcel, vertex, border_loop.len())?;
    isolate_and_answer(dcel, &border_loop, &Some(vertex), edges, faces)
}

/// Gives up these edges and faces, which are inside a ring, and fills the hole with new triangles.
///
/// If there are as many edges as faces, they are those around a vertex, which is given up too, as
/// [`isolate_vertex_and_fill_hole`] does. Otherwise they are a region: faces with the edges between
/// them, one fewer. Then no vertex is given up, and
/// [`cleanup_isolated_vertex`](super::cleanup_isolated_vertex) alone closes the removal. The new
/// edges start where the last half edge of `border_loop` starts, at `a` in the picture.
///
/// ```text
/// before      c                 after       c
///           /   \                         / | \
///          d --- b                       d  |  b
///           \   /                         \ | /
///             a                             a
/// ```
///
/// The result has the lists as they were given, and the new edges in ascending order. Each vertex
/// of the loop gets a new anchor.
///
/// Asks that no removal is open ([`removal_state`](Dcel::removal_state)), that the half edges are
/// the ring of the edges and faces ([`is_ring`](Dcel::is_ring)), and for room for the new edges and
/// faces ([`has_room`](Dcel::has_room)). If memory runs out it returns `AllocError`, the lists are
/// dropped, and the mesh is as it was.
pub fn remesh_edge_ring<
    V,
    DE: Default,
    UE: Default,
    F: Default,
    A: Allocator + Clone,
    B: Allocator,
>(
    dcel: &mut Dcel<V, DE, UE, F, A>,
    border_loop: Vec<FixedDirectedEdgeHandle, B>,
    edges_to_remove: Vec<FixedUndirectedEdgeHandle, A>,
    faces_to_remove: Vec<FixedFaceHandle<InnerTag>, A>,
) -> Result<IsolateVertexResult<A>, AllocError>
    requires closed { dcel.old.shape.removal ≡ Closed }
    requires ring { IsRing dcel.old.shape border_loop.items edges_to_remove.items faces_to_remove.items }
    requires room { HasRoom dcel.old.shape 0 (length border_loop.items - 3) (length border_loop.items - 2) }
    ensures edit { OnOk result (FillsHole DE.is_default UE.is_default F.is_default border_loop.items
        dcel.new (ring_remeshed dcel.old border_loop.items edges_to_remove.items faces_to_remove.items)) }
    ensures edits { OnOk result (EditedBy (filling border_loop.items edges_to_remove.items faces_to_remove.items) dcel.old dcel.new) }
    ensures answer { IfOk result (HasFilled dcel.old.shape border_loop.items edges_to_remove.items faces_to_remove.items) }
    ensures refused { OnErr result (dcel.new ≡ dcel.old) }
    ensures mesh { IsMesh dcel.new }
{
    every_mesh(dcel);
    let vertex = inside(dcel, &border_loop, &edges_to_remove, &faces_to_remove);
    isolate_and_answer(
        dcel,
        &border_loop,
        &vertex,
        edges_to_remove,
        faces_to_remove,
    )
}

// Returns the vertex inside the ring, or None for a region: around a vertex there are as many edges
// as faces, and a region has one face more.
fn inside<V, DE, UE, F, A: Allocator>(
    dcel: &Dcel<V, DE, UE, F, A>,
    border: &[FixedDirectedEdgeHandle],
    edges: &[FixedUndirectedEdgeHandle],
    faces: &[FixedFaceHandle<InnerTag>],
) -> Option<FixedVertexHandle>
    requires { IsRing dcel.now.shape border.now edges.now faces.now }
    ensures { result ≡ inside dcel.now.shape border.now edges.now faces.now }
{
    every_mesh(dcel);
    if edges.len() != faces.len() {
        return None;
    }
    let Some((&first, _)) = border.split_first() else {
        unreachable!()
    };
    Some(dcel.origin(dcel.prev_edge(first)))
}

// Gives these elements up, fills the hole, and returns the result. The result is created first:
// nothing may be refused once the mesh has changed.
fn isolate_and_answer<V, DE: Default, UE: Default, F: Default, A: Allocator + Clone>(
    dcel: &mut Dcel<V, DE, UE, F, A>,
    border: &[FixedDirectedEdgeHandle],
    vertex: &Option<FixedVertexHandle>,
    edges_to_remove: Vec<FixedUndirectedEdgeHandle, A>,
    faces_to_remove: Vec<FixedFaceHandle<InnerTag>, A>,
) -> Result<IsolateVertexResult<A>, AllocError>
    requires { CanFill dcel.old.shape border.now edges_to_remove.items faces_to_remove.items vertex.now }
    ensures edit { OnOk result (FillsHole DE.is_default UE.is_default F.is_default border.now
        dcel.new (border_filled dcel.old (opened_with edges_to_remove.items faces_to_remove.items vertex.now) border.now)) }
    ensures answer { IfOk result (HasFilled dcel.old.shape border.now edges_to_remove.items faces_to_remove.items) }
    ensures refused { OnErr result (dcel.new ≡ dcel.old) }
    ensures mesh { IsMesh dcel.new }
{
    every_mesh(dcel);
    let begin = dcel.num_undirected_edges();
    let new_edges = edges_between(begin, begin + (border.len() - 3), dcel.allocator().clone()?)?;
    give_up_and_fill(dcel, border, vertex, &edges_to_remove, &faces_to_remove)?;
    Ok(IsolateVertexResult {
        new_edges,
        smallest_new_edge: FixedUndirectedEdgeHandle::new(begin),
        edges_to_remove,
        faces_to_remove,
    })
}

// Gives these elements up and cuts the ring, which is the border read from its end, into ears.
fn give_up_and_fill<V, DE: Default, UE: Default, F: Default, A: Allocator>(
    dcel: &mut Dcel<V, DE, UE, F, A>,
    border: &[FixedDirectedEdgeHandle],
    vertex: &Option<FixedVertexHandle>,
    edges: &[FixedUndirectedEdgeHandle],
    faces: &[FixedFaceHandle<InnerTag>],
) -> Result<(), AllocError>
    requires { CanFill dcel.old.shape border.now edges.now faces.now vertex.now }
    ensures edit { OnOk result (FillsHole DE.is_default UE.is_default F.is_default border.now
        dcel.new (border_filled dcel.old (opened_with edges.now faces.now vertex.now) border.now)) }
    ensures refused { OnErr result (dcel.new ≡ dcel.old) }
    ensures mesh { IsMesh dcel.new }
{
    let Some((&first, others)) = border.split_last() else {
        unreachable!()
    };
    let Some((&second, others)) = others.split_last() else {
        unreachable!()
    };
    let Some((&third, left)) = others.split_last() else {
        unreachable!()
    };
    dcel.store.reserve(0, left.len(), left.len() + 1)?;
    dcel.removal.open(edges, faces, vertex)?;
    put_ears(&mut dcel.store, first, second, third, left);
    drop_all_anchors(&mut dcel.store, vertex, faces);
    Ok(())
}

// Lists the edges with the numbers from `begin` up to `end`, which is left out.
fn edges_between<A: Allocator>(
    begin: usize,
    end: usize,
    alloc: A,
) -> Result<Vec<FixedUndirectedEdgeHandle, A>, AllocError>
    requires ordered { begin ≤ end }
    requires bound { end ≤ 2 ^ 32 }
    ensures { IfOk result (λ edges. edges.items ≡ numbers_between begin end) }
{
    let mut edges = Vec::with_capacity(alloc, end - begin)?;
    for index in begin..end {
        edges.push(FixedUndirectedEdgeHandle::new(index))?;
    }
    Ok(edges)
}

// Walks the out edges once more, though the border loop was walked by the test: the lists come in
// their order, which begins at the anchor, and the loop may begin elsewhere.
#[inline]
fn lists_round<V, DE, UE, F, A: Allocator + Clone>(
    dcel: &Dcel<V, DE, UE, F, A>,
    vertex: FixedVertexHandle,
    count: usize,
) -> Result<GivenUpLists<A>, AllocError>
    requires { vertex < dcel.now.shape.vertices }
    ensures edges { IfOk result (λ lists. lists.0.items ≡ edges_at dcel.now vertex) }
    ensures faces { IfOk result (λ lists. lists.1.items ≡ faces_at dcel.now vertex) }
{
    let mut edges = Vec::with_capacity(dcel.allocator().clone()?, count)?;
    let mut faces = Vec::with_capacity(dcel.allocator().clone()?, count)?;
    for out_edge in dcel.vertex(vertex).out_edges() {
        let out_edge = out_edge.fix();
        edges.push(out_edge.as_undirected())?;
        faces.push(dcel.face_of_edge(out_edge).adjust_inner_outer())?;
    }
    Ok((edges, faces))
}
