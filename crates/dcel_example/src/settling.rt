//! Edges flipped by a rule of the caller's own, until none is left that the rule wants flipped.
//!
//! Here an edge gives way to the other diagonal of its two triangles if that one is shorter. The
//! points stand in a slice beside the mesh, that of vertex n at place n, since the mesh is lent while
//! edges are flipped.

ghost use Rattle.std.specs.Prelude.{ℕ, Bool, List, IsTrue, IfOk, ◌<◌};
ghost use Rattle.std.specs.Fn.{FnReturnsAt};
ghost use Rattle.dcel_legalize.specs.Flipping.{AnswersAs, NoneDue};
ghost use Rattle.dcel_maps.specs.Words.{count_of};

use crate::editing::{put_into, triangle};
use dcel_legalize::{Legalized, legalize_edges};
use spade_dcel::dcel::Dcel;
use spade_dcel::handles::{FixedFaceHandle, FixedUndirectedEdgeHandle, FixedVertexHandle};
use std::alloc::{AllocError, Global};
use std::io;

/// Flips edges of a mesh until none is left that can be flipped and is wanted. Returns whether it
/// got that far with this many flips and the memory there was.
pub fn settle<V, DE, UE, F, W>(
    dcel: &mut Dcel<V, DE, UE, F>,
    wanted: W,
    max_flips: usize,
    alloc: Global,
) -> Result<bool, AllocError>
where
    W: Fn(&[FixedVertexHandle; 4]) -> bool + Drop,
    requires { W.IsAlwaysCallable wanted }
    ensures { (w : List ℕ → Bool) → AnswersAs (FnReturnsAt W.Fn wanted) w → IfOk result (λ is_settled. IsTrue is_settled → NoneDue w dcel.new) }
{
    let list = all_edges(dcel, alloc)?;
    // Each edge that is wanted is in the list, so `Done` says that none is left in the mesh.
    match legalize_edges(dcel, list, wanted, max_flips) {
        Legalized::Done { .. } => Ok(true),
        Legalized::Stopped { .. } | Legalized::OutOfMemory { .. } => Ok(false),
    }
}

/// Returns the edges of a mesh, also those given up.
fn all_edges<V, DE, UE, F>(
    dcel: &Dcel<V, DE, UE, F>,
    alloc: Global,
) -> Result<Vec<FixedUndirectedEdgeHandle>, AllocError>
    ensures { IfOk result (λ list. (u : ℕ) → u < dcel.now.shape.edges → 0 < count_of u list.items) }
{
    let mut list = Vec::new(alloc);
    for index in 0..dcel.num_undirected_edges() {
        list.push(FixedUndirectedEdgeHandle::new(index))?;
    }
    Ok(list)
}

/// A point with whole-number coordinates.
#[derive(Clone, Copy)]
struct Point {
    x: i16,
    y: i16,
}

/// Returns whether an edge is longer than the other diagonal, which lies inside its triangles too.
///
/// The corners are where it starts and ends, and those opposite on its left and right. The rule
/// wants no edge of a vertex without a point.
fn is_longer(points: &[Point], corners: &[FixedVertexHandle; 4]) -> bool {
    let [from, to, left, right] = corners.map(|corner| points.get(corner.index()).copied());
    let (Some(from), Some(to)) = (from, to) else {
        return false;
    };
    let (Some(left), Some(right)) = (left, right) else {
        return false;
    };
    turns_left(from, right, left)
        && turns_left(right, to, left)
        && square(from, to) > square(left, right)
}

/// Returns the square of the distance of two points.
fn square(from: Point, to: Point) -> i64 {
    let (x, y) = way(from, to);
    x.wrapping_mul(x).wrapping_add(y.wrapping_mul(y))
}

/// Returns whether the way along three points turns left at the second one.
fn turns_left(first: Point, second: Point, third: Point) -> bool {
    let (x, y) = way(first, second);
    let (next_x, next_y) = way(second, third);
    x.wrapping_mul(next_y) > y.wrapping_mul(next_x)
}

/// Returns how far right and up the second point lies from the first. Products of such numbers have
/// 34 bits at most, so none of them wraps.
fn way(from: Point, to: Point) -> (i64, i64) {
    (
        i64::from(to.x) - i64::from(from.x),
        i64::from(to.y) - i64::from(from.y),
    )
}

/// A triangle's corners, clockwise, so that its inner face goes round counterclockwise, and three
/// points one above the other inside it.
const POINTS: [Point; 6] = [
    Point { x: 0, y: 0 },
    Point { x: 0, y: 12 },
    Point { x: 12, y: 0 },
    Point { x: 5, y: 2 },
    Point { x: 5, y: 3 },
    Point { x: 5, y: 4 },
];

/// Puts each of the inner points into the triangle that it lies in.
fn triangulated(alloc: Global) -> Result<Dcel<&'static str>, AllocError> {
    let mut dcel = triangle(alloc)?;
    put_points(&mut dcel)?;
    Ok(dcel)
}

fn put_points(dcel: &mut Dcel<&'static str>) -> Result<(), AllocError> {
    for (datum, face) in [("d", 1), ("e", 3), ("f", 3)] {
        put_into(dcel, datum, FixedFaceHandle::new(face))?;
    }
    Ok(())
}

/// Shows the edges of a triangulation before and after.
pub fn show(rt: &impl Print, alloc: Global) -> io::Result<()> {
    let mut dcel = triangulated(alloc)?;
    show_settling(rt, &mut dcel, alloc)
}

fn show_settling(rt: &impl Print, dcel: &mut Dcel<&'static str>, alloc: Global) -> io::Result<()> {
    show_edges(rt, "before", dcel)?;
    let is_settled = settle(dcel, |corners| is_longer(&POINTS, corners), 100, alloc)?;
    show_edges(rt, if is_settled { "settled" } else { "stopped" }, dcel)
}

fn show_edges(rt: &impl Print, title: &str, dcel: &Dcel<&'static str>) -> io::Result<()> {
    print!(rt; "{title}:")?;
    for edge in dcel.live_undirected_edges() {
        let [from, to] = edge.vertices();
        print!(rt; " {}{}", from.data(), to.data())?;
    }
    println!(rt)
}
