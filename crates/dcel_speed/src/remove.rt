//! Vertices inside triangles, removed.

ghost use Rattle.std.specs.Prelude.{◌≤◌, ◌^◌, length};

use crate::fault::{BuildError, Fault};
use crate::measure::{time_editing, timed};
use crate::random::Random;
use crate::round_vertex::least_and_count;
use crate::workloads::{Mesh, Timed, triangulated};
use spade_dcel::dcel::RemovalState;
use spade_dcel::handles::{FixedDirectedEdgeHandle, FixedVertexHandle, VertexHandle};
use spade_dcel::operations::{
    cleanup_isolated_vertex, isolate_vertex_and_fill_hole, swap_remove_vertex,
};
use std::alloc::{AllocError, Global};
use std::rt::Clock;
use std::time::Instant;

/// Offset of its random seed from that of `insert`.
const OWN: u64 = 6;

/// The first vertices are the corners of the first triangle, and all others lie inside.
const CORNERS: usize = 3;

/// Times the removal of the vertices inside a mesh of triangles, in an order drawn beforehand.
pub fn remove<D: Default + Drop + Clone>(
    rt: &(impl Clock + AllocGlobal),
    size: u32,
) -> Result<Timed, Fault> {
    let built = triangulated::<D>(rt.alloc(), size)?;
    remove_from(rt, &built)
}

/// Times the removal of the vertices of a mesh.
fn remove_from<D: Default + Drop + Clone>(
    rt: &(impl Clock + AllocGlobal),
    built: &Mesh<D>,
) -> Result<Timed, Fault> {
    let plan = plan_of(rt.alloc(), built)?;
    time_editing(rt, built, |dcel: &mut Mesh<D>| remove_once(rt, dcel, &plan))
}

/// Times one removal of the vertices of a plan.
fn remove_once<D: Default + Drop>(
    rt: &(impl Clock + AllocGlobal),
    dcel: &mut Mesh<D>,
    plan: &[FixedVertexHandle],
) -> Result<Timed, Fault> {
    let start = Instant::now(rt);
    let sum = remove_all(rt.alloc(), dcel, plan)?;
    timed(rt, start, dcel, plan.len() as u64, Some(sum))
}

/// Removes the vertices of a plan, and returns a hash of their data: each is added to 31 times the
/// hash so far.
fn remove_all<D: Default + Drop>(
    alloc: Global,
    dcel: &mut Mesh<D>,
    plan: &[FixedVertexHandle],
) -> Result<u64, BuildError> {
    let mut sum: u64 = 0;
    for vertex in plan {
        if let Some(datum) = remove_next(alloc, dcel, *vertex)? {
            sum = sum.wrapping_mul(31).wrapping_add(datum.cast_unsigned());
        }
    }
    Ok(sum)
}

/// Removes a vertex, and returns its datum. Returns None, and leaves the mesh as it was, if its
/// border is no border loop.
#[inline]
fn remove_next<D: Default + Drop>(
    alloc: Global,
    dcel: &mut Mesh<D>,
    vertex: FixedVertexHandle,
) -> Result<Option<i64>, BuildError> {
    if dcel.removal_state() != RemovalState::Closed || !dcel.is_live_vertex(vertex) {
        return Ok(None);
    }
    let border = border_of(alloc, dcel.vertex(vertex))?;
    if !dcel.is_border_loop(&border, vertex) {
        return Ok(None);
    }
    if !dcel.has_room(0, border.len() - 3, border.len() - 2) {
        return Err(BuildError::NoRoom);
    }
    let mut opened = isolate_vertex_and_fill_hole(dcel, border, vertex)?;
    cleanup_isolated_vertex(dcel, &mut opened);
    let removal = swap_remove_vertex(dcel, vertex);
    Ok(Some(removal.removed_vertex))
}

/// Lists the half edges after the out edges of a vertex, counted by `ccw` from the least out edge,
/// from the back.
#[inline]
fn border_of<D>(
    alloc: Global,
    vertex: VertexHandle<'_, i64, D, D, D>,
) -> Result<Vec<FixedDirectedEdgeHandle>, AllocError> {
    let Some(out_edge) = vertex.out_edge() else {
        return Ok(Vec::new(alloc));
    };
    let (least, count) = least_and_count(out_edge);
    let mut border = Vec::with_capacity(alloc, count)?;
    let mut edge = least;
    for _ in 0..count {
        edge = edge.cw();
        border.push(edge.next().fix())?;
    }
    Ok(border)
}

/// Draws an order in which vertices can be removed one after another, each under the number that it
/// has by then. Those whose border is no border loop when their turn comes are left out.
fn plan_of<D: Default + Drop + Clone>(
    alloc: Global,
    built: &Mesh<D>,
) -> Result<Vec<FixedVertexHandle>, BuildError> {
    let order = order_of(alloc, built)?;
    plan_in_order(alloc, built, &order)
}

/// Plans the removal of all but the corners in this order of first numbers.
fn plan_in_order<D: Default + Drop + Clone>(
    alloc: Global,
    built: &Mesh<D>,
    order: &[FixedVertexHandle],
) -> Result<Vec<FixedVertexHandle>, BuildError> {
    let mut numbers: Vec<FixedVertexHandle> = built.fixed_vertices().collect(alloc)?;
    plan_on_clone(alloc, built, order, &mut numbers)
}

/// The same, with the present number of each vertex.
fn plan_on_clone<D: Default + Drop + Clone>(
    alloc: Global,
    built: &Mesh<D>,
    order: &[FixedVertexHandle],
    numbers: &mut [FixedVertexHandle],
) -> Result<Vec<FixedVertexHandle>, BuildError> {
    let mut dcel = built.try_clone(alloc)?;
    remove_in_order(alloc, &mut dcel, order, numbers)
}

/// Draws an order of the vertices. The corners stay first.
fn order_of<D>(alloc: Global, dcel: &Mesh<D>) -> Result<Vec<FixedVertexHandle>, AllocError> {
    let mut order: Vec<FixedVertexHandle> = dcel.fixed_vertices().collect(alloc)?;
    let corners = CORNERS.min(order.len());
    let (_, inside) = order.split_at_mut(corners);
    shuffle(inside);
    Ok(order)
}

/// Removes all but the corners in this order of first numbers, and returns the numbers under which
/// they were removed. `numbers` has the present number of each vertex.
fn remove_in_order<D: Default + Drop>(
    alloc: Global,
    dcel: &mut Mesh<D>,
    order: &[FixedVertexHandle],
    numbers: &mut [FixedVertexHandle],
) -> Result<Vec<FixedVertexHandle>, BuildError> {
    let mut plan = Vec::new(alloc);
    for first_number in order.iter().skip(CORNERS) {
        if let Some(vertex) = numbers.get(first_number.index()).copied() {
            if remove_next(alloc, dcel, vertex)?.is_some() {
                plan.push(vertex)?;
                renumber(dcel, numbers, vertex);
            }
        }
    }
    Ok(plan)
}

/// Shuffles vertices.
fn shuffle(vertices: &mut [FixedVertexHandle])
    requires { length vertices.old ≤ 2 ^ 32 }
{
    let count = vertices.len();
    let mut random = Random::new(OWN);
    for done in 1..count {
        let place = count - done;
        vertices.swap(place, random.below(place + 1));
    }
}

/// Notes the present number of a vertex. Its datum is its first number.
fn renumber<D>(dcel: &Mesh<D>, numbers: &mut [FixedVertexHandle], vertex: FixedVertexHandle) {
    if vertex.index() >= dcel.num_vertices() {
        return;
    }
    let Ok(first_number) = usize::try_from(*dcel.vertex_data(vertex)) else {
        return;
    };
    if let Some(number) = numbers.get_mut(first_number) {
        *number = vertex;
    }
}
