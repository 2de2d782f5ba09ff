//! Two vertices joined by an edge, with each request for memory refused in turn.

ghost use Rattle.std.specs.Prelude.{◌≡◌, ◌<◌, ℕ, IsTrue};
ghost use Rattle.dcel_maps.specs.Shapes.{IsLive, face_of, origin_of};
ghost use Rattle.dcel_plane.specs.Plane.{point_at};
ghost use Rattle.dcel_plane.specs.segments.Segments.{TriangulatesItsHull};

use crate::places::{Ends, KITE, Place, numbered};
use dcel_bench::checks::same;
use dcel_bench::meshes::vertex;
use dcel_bench::refusing::{Memory, Refusals, Refusing};
use dcel_bench::require;
use dcel_constrained::{Joined, join};
use dcel_delaunay::Point;
use dcel_planar::is_delaunay_triangulation;
use spade_dcel::dcel::Dcel;
use spade_dcel::handles::{
    FixedDirectedEdgeHandle, FixedFaceHandle, FixedUndirectedEdgeHandle, FixedVertexHandle,
    InnerTag,
};
use spade_dcel::laws::every_mesh;
use std::alloc::Allocator;
use std::test::Fail;

/// A mesh of points.
type Mesh = Dcel<Point>;

/// Returns whether a vertex has an edge.
fn has_edge(dcel: &Mesh, vertex: FixedVertexHandle) -> bool
    ensures { IsTrue result → (h : ℕ) × IsLive dcel.now.shape h × (origin_of dcel.now.shape h ≡ vertex) }
{
    every_mesh(dcel);
    if vertex.index() >= dcel.num_vertices() {
        return false;
    }
    match dcel.vertex_out_edge(vertex) {
        Some(_) => true,
        None => false,
    }
}

/// Returns whether face 1 is an inner face.
fn has_inner_face(dcel: &Mesh) -> bool
    ensures { IsTrue result → (h : ℕ) × IsLive dcel.now.shape h × (0 < face_of dcel.now.shape h) }
{
    let first: FixedFaceHandle<InnerTag> = FixedFaceHandle::new(1);
    match dcel.get_face(first) {
        Some(face) => {
            let _edge = face.adjacent_edge();
            true
        }
        None => false,
    }
}

/// Returns whether a mesh is a Delaunay triangulation.
fn is_delaunay(dcel: &Mesh) -> bool
    ensures { IsTrue result → TriangulatesItsHull (point_at dcel.now) dcel.now }
{
    every_mesh(dcel);
    is_delaunay_triangulation(dcel)
}

/// Joins two vertices. The result is None if there was no memory.
fn try_join<L: Allocator>(
    dcel: &mut Mesh,
    ends: Ends,
    crossed: &mut Vec<FixedDirectedEdgeHandle, L>,
    due: &mut Vec<FixedUndirectedEdgeHandle, L>,
) -> Result<Option<Joined>, Fail> {
    let (from, to) = (vertex(ends.0), vertex(ends.1));
    require!(from != to);
    if !has_edge(dcel, from) {
        return Err(Fail::new("the first vertex has no edge"));
    }
    if !has_edge(dcel, to) {
        return Err(Fail::new("the second vertex has no edge"));
    }
    require!(has_inner_face(dcel));
    require!(crossed.is_empty());
    require!(is_delaunay(dcel));
    Ok(join(dcel, from, to, crossed, due).ok())
}

/// Points, two vertices of theirs that are joined, the one between them that is reported, if there is
/// one, and how many requests for memory that makes.
type Row = (&'static [Place], Ends, Option<u32>, u64);

/// The long diagonal of a kite, and along the hull, where the first one of two is on the way.
const ROWS: [Row; 2] = [
    (&KITE, (0, 1), None, 2),
    (
        &[(0, 0), (1, 0), (2, 0), (5, 0), (0, 3)],
        (3, 0),
        Some(2),
        0,
    ),
];

/// Joins them with each request refused, and then.
fn check_join(dcel: &mut Mesh, row: Row, memory: Memory) -> Result<(), Fail> {
    let (_, ends, between, requests) = row;
    let mut crossed = Vec::new(memory);
    let mut due = Vec::new(memory);
    for number in 0..requests {
        memory.refuse(Refusals::One(number));
        let joined = try_join(dcel, ends, &mut crossed, &mut due)?;
        memory.refuse(Refusals::None);
        same(joined, None, format_args!("request {number}"))?;
    }
    let wanted = match between {
        Some(number) => Joined::Between(vertex(number)),
        None => Joined::Edge,
    };
    memory.refuse(Refusals::One(requests));
    let joined = try_join(dcel, ends, &mut crossed, &mut due)?;
    memory.refuse(Refusals::None);
    same(joined, Some(wanted), format_args!("{ends:?}"))?;
    same(is_delaunay(dcel), between.is_some(), "nothing has changed")
}

#[test]
fn a_segment_becomes_an_edge(rt: HostRuntime) -> Result<(), Fail> {
    let memory = Refusing::new(rt.alloc());
    for row in &ROWS {
        let mut dcel = numbered(row.0, rt.alloc())?.into_dcel();
        check_join(&mut dcel, *row, &memory)?;
    }
    Ok(())
}
