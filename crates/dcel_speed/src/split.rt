//! Edges between triangles, each split in its middle.

ghost use Rattle.std.specs.Prelude.{IfSome, IsTrue, OnOk};
ghost use Rattle.dcel_maps.specs.Conditions.{HasRoom};
ghost use Rattle.dcel_maps.specs.Shapes.{IsLive};
ghost use Rattle.dcel_speed.specs.Growth.{IsGrown, IsInside, IsTriangulated};

use crate::fault::{BuildError, Fault};
use crate::measure::{FEWEST_EDITING, least_of, timed};
use crate::random::Random;
use crate::workloads::{Mesh, Timed, triangulated};
use spade_dcel::handles::FixedDirectedEdgeHandle;
use spade_dcel::laws::every_mesh;
use spade_dcel::operations::{append_unconnected_vertex, split_edge};
use std::rt::Clock;
use std::time::Instant;

/// Offset of its random seed from that of `insert`.
const OWN: u64 = 2;

/// It begins with the mesh of `insert` after this many insertions.
const INSERTED: u32 = 1;

/// The most draws until a half edge lies inside. In the first mesh every second one does, and later
/// more do.
const MOST_DRAWS: u32 = 10_000;

/// Times `size` splits of edges drawn at random.
pub fn split<D: Default + Drop>(
    rt: &(impl Clock + AllocGlobal),
    size: u32,
) -> Result<Timed, Fault> {
    least_of(FEWEST_EDITING, || {
        let mut dcel = triangulated::<D>(rt.alloc(), INSERTED)?;
        split_once(rt, &mut dcel, size)
    })
}

/// Times one run of `size` splits.
fn split_once<D: Default>(rt: &impl Clock, dcel: &mut Mesh<D>, size: u32) -> Result<Timed, Fault>
    requires { IsTriangulated dcel.old.shape }
{
    let start = Instant::now(rt);
    let sum = split_edges(dcel, size)?;
    timed(rt, start, dcel, u64::from(size), Some(sum))
}

/// Splits `size` edges, and returns the sum of the numbers of the new half edges that lead on from
/// the middle.
fn split_edges<D: Default>(dcel: &mut Mesh<D>, count: u32) -> Result<u64, BuildError>
    requires { IsTriangulated dcel.old.shape }
{
    let vertices = count as usize;
    if !dcel.has_room(vertices, 3 * vertices, 2 * vertices) {
        return Err(BuildError::NoRoom);
    }
    let mut random = Random::new(OWN);
    let mut sum: u64 = 0;
    for index in 0..count {
        let edge = drawn_inside(dcel, &mut random).ok_or(BuildError::NoEdge)?;
        let second_half = split_next(dcel, edge, i64::from(index) + 4)?;
        sum = sum.wrapping_add(second_half.index() as u64);
    }
    Ok(sum)
}

/// Draws a half edge with an inner face on both sides. Returns None after too many draws.
#[inline]
fn drawn_inside<D>(dcel: &Mesh<D>, random: &mut Random) -> Option<FixedDirectedEdgeHandle>
    requires { IsTriangulated dcel.now.shape }
    ensures { IfSome result (IsInside dcel.now.shape) }
{
    every_mesh(dcel);
    for _ in 0..MOST_DRAWS {
        let edge = FixedDirectedEdgeHandle::new(random.below(dcel.num_directed_edges()));
        if is_inside(dcel, edge) {
            return Some(edge);
        }
    }
    None
}

/// Returns whether a half edge has an inner face on both sides.
#[inline]
fn is_inside<D>(dcel: &Mesh<D>, edge: FixedDirectedEdgeHandle) -> bool
    requires { IsLive dcel.now.shape edge }
    ensures { IsTrue result → IsInside dcel.now.shape edge }
{
    let edge = dcel.directed_edge(edge);
    !edge.face().fix().is_outer() && !edge.rev().face().fix().is_outer()
}

/// Splits an edge by a new vertex, and returns the new half edge that leads on from there.
#[inline]
fn split_next<D: Default>(
    dcel: &mut Mesh<D>,
    edge: FixedDirectedEdgeHandle,
    datum: i64,
) -> Result<FixedDirectedEdgeHandle, BuildError>
    requires triangulated { IsTriangulated dcel.old.shape }
    requires inside { IsInside dcel.old.shape edge }
    requires room { HasRoom dcel.old.shape 1 3 2 }
    ensures triangulated { OnOk result (IsTriangulated dcel.new.shape) }
    ensures grown { OnOk result (IsGrown dcel.old.shape 1 3 2 dcel.new.shape) }
{
    every_mesh(dcel);
    let middle = append_unconnected_vertex(dcel, datum)?;
    let [_, second_half] = split_edge(dcel, edge, middle)?;
    Ok(second_half)
}
