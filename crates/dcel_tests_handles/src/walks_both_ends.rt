//! Walks, and all elements of a kind, from both ends.

ghost use Rattle.std.specs.Iterator.{IsFinite};

use crate::borrowed::{live_half_edge, vertex_of};
use crate::own_steps::{PrevNextBackFn, RevNextBackFn};
use dcel_bench::checks::{holds, same};
use dcel_bench::lines::{CUT, FIRST_EDGE, LINE, grown};
use dcel_bench::meshes::Mesh;
use dcel_bench::require;
use spade_dcel::handles::{
    DirectedEdgeHandle, FixedDirectedEdgeHandle, FixedFaceHandle, PossiblyOuterTag,
};
use spade_dcel::iterators::{
    CircularIterator, DirectedVoronoiEdgeIterator, FixedDirectedEdgeIterator,
    FixedInnerFaceIterator, FixedUndirectedEdgeIterator, HullIterator, NextBackFn,
    UndirectedVoronoiEdgeIterator, VoronoiFaceIterator,
};
use std::alloc::Global;
use std::test::Fail;

/// The end that an item is taken from.
#[derive(Clone, Copy)]
enum End {
    Front,
    Back,
}

use End::{Back, Front};

/// A vertex or a half edge where a walk begins, the ends to take from, and the half edges taken,
/// one after another, and then none.
type Walk = (u32, &'static [End], &'static [usize]);

/// Takes from these ends of an iterator: they are these half edges, one after another, and then
/// none.
fn check_taken<'a, I: DoubleEndedIterator<Item = DirectedEdgeHandle<'a, i64, i64, i64, i64>>>(
    mut edges: I,
    ends: &[End],
    wanted: &[usize],
) -> Result<(), Fail>
    requires can { (s : I) → I.can_next s × I.can_next_back s }
    requires ends { IsFinite (I.remaining edges) }
{
    for (place, end) in ends.iter().enumerate() {
        let edge = match end {
            Front => edges.next(),
            Back => edges.next_back(),
        };
        same(
            edge.map(|taken| taken.index()),
            wanted.get(place).copied(),
            format_args!("half edge {place} of a walk"),
        )?;
    }
    Ok(())
}

/// Walks out of vertices of a triangle that vertex 3 cuts into three.
const OUT_EDGES: [Walk; 6] = [
    (0, &[Front, Front, Front, Front], &[0, 5, 6]),
    (1, &[Front, Front, Front, Front], &[2, 1, 10]),
    (2, &[Front, Front, Front, Front], &[4, 3, 8]),
    (3, &[Front, Front, Front, Front], &[7, 9, 11]),
    (3, &[Front, Back, Front, Front, Back], &[7, 11, 9]),
    (3, &[Back, Back, Back, Back], &[11, 9, 7]),
];

fn check_out_edges(dcel: &Mesh) -> Result<(), Fail> {
    for (index, ends, wanted) in &OUT_EDGES {
        check_taken(vertex_of(dcel, *index)?.out_edges(), ends, wanted)?;
    }
    Ok(())
}

/// Takes from both ends of the half edges round the face with this number.
fn check_face_edges(dcel: &Mesh, (index, ends, wanted): Walk) -> Result<(), Fail> {
    let face: FixedFaceHandle<PossiblyOuterTag> = FixedFaceHandle::new(index as usize);
    let face = dcel.get_face(face);
    let face = face.ok_or("no such face")?;
    check_taken(face.directed_edges(), ends, wanted)
}

/// Walks from half edges by a step.
fn check_walks<NB: NextBackFn>(dcel: &Mesh, walks: &[Walk]) -> Result<(), Fail> {
    for (start, ends, wanted) in walks {
        let edge = live_half_edge(dcel, *start)?;
        let walk: CircularIterator<'_, i64, i64, i64, i64, NB> = CircularIterator::new(edge);
        check_taken(walk, ends, wanted)?;
    }
    Ok(())
}

/// To the other half and back.
const REV_WALKS: [Walk; 2] = [
    (6, &[Front, Front, Front], &[6, 7]),
    (6, &[Back, Back, Back], &[7, 6]),
];

/// Round a face the other way.
const PREV_WALKS: [Walk; 2] = [
    (1, &[Front, Front, Front, Front], &[1, 11, 6]),
    (1, &[Back, Front, Back, Back], &[6, 1, 11]),
];

fn check_own_steps(dcel: &Mesh) -> Result<(), Fail> {
    check_walks::<RevNextBackFn>(dcel, &REV_WALKS)?;
    check_walks::<PrevNextBackFn>(dcel, &PREV_WALKS)
}

/// Returns the number of inner faces left and the next one from the back, four times; and whether
/// none then comes from the front.
fn inner_faces_from_the_back(dcel: &Mesh) -> ([(usize, Option<usize>); 4], bool) {
    let mut faces = dcel.inner_faces();
    let mut taken = [(0, None); 4];
    for place in &mut taken {
        let left = faces.len();
        *place = (left, faces.next_back().map(|face| face.index()));
    }
    (taken, faces.next().is_none())
}

/// Returns the number of half edges out of a vertex, from the front and from the back.
fn degrees(dcel: &Mesh, index: u32) -> Result<[usize; 2], Fail> {
    let start = vertex_of(dcel, index)?;
    Ok([start.out_edges().count(), start.out_edges().rev().count()])
}

/// Returns the half edge at this place of those that come out of a vertex, from the front.
fn at_place(dcel: &Mesh, index: u32, place: usize) -> Result<Option<usize>, Fail> {
    let edge = vertex_of(dcel, index)?.out_edges().nth(place);
    Ok(edge.map(|edge| edge.index()))
}

/// Returns the half edge at this place of those that come out of a vertex, from the back.
fn at_place_from_the_back(dcel: &Mesh, index: u32, place: usize) -> Result<Option<usize>, Fail> {
    let edge = vertex_of(dcel, index)?.out_edges().nth_back(place);
    Ok(edge.map(|edge| edge.index()))
}

/// Returns the number of the vertex that a half edge comes out of.
fn origin(dcel: &Mesh, index: usize) -> Result<usize, Fail> {
    require!(index < dcel.num_directed_edges());
    let handle = FixedDirectedEdgeHandle::new(index);
    require!(dcel.is_live_edge(handle.as_undirected()));
    Ok(dcel.directed_edge(handle).from().index())
}

/// Checks that the half edges out of a vertex start there, and are listed in reverse from the back.
fn check_places(dcel: &Mesh, index: u32) -> Result<(), Fail> {
    for place in 0..3 {
        let edge = at_place(dcel, index, place)?;
        let from_the_back = at_place_from_the_back(dcel, index, 2 - place)?;
        same(from_the_back, edge, format_args!("half edge {place}"))?;
        let edge = edge.ok_or("no third edge")?;
        let from = origin(dcel, edge)?;
        same(from, index as usize, format_args!("the origin of {edge}"))?;
    }
    Ok(())
}

fn check_both_ways(dcel: &Mesh, index: u32) -> Result<(), Fail> {
    same(degrees(dcel, index)?, [3, 3], "half edges out of a vertex")?;
    check_places(dcel, index)
}

/// The lengths of a mesh's iterators: its vertices, half edges, undirected edges, faces, inner
/// faces, and hull, and the fixed handles of vertices and faces.
type Lengths = [usize; 8];

fn lengths(dcel: &Mesh) -> Lengths {
    [
        dcel.vertices().len(),
        dcel.directed_edges().len(),
        dcel.undirected_edges().len(),
        dcel.faces().len(),
        dcel.inner_faces().len(),
        HullIterator::new(dcel).count(),
        dcel.fixed_vertices().len(),
        dcel.fixed_faces().len(),
    ]
}

/// The lines of a mesh, walks round its faces, and its lengths.
type Row = (&'static str, &'static [Walk], Lengths);

/// A mesh without an edge, one vertex, an edge, the line 2, 0, 1, 3, and a triangle that vertex 3 cuts
/// into three.
const ROWS: [Row; 5] = [
    ("", &[(0, &[Front, Back], &[])], [0, 0, 0, 1, 0, 0, 0, 1]),
    ("append 0", &[], [1, 0, 0, 1, 0, 0, 1, 1]),
    (FIRST_EDGE, &[], [2, 2, 1, 1, 0, 2, 2, 1]),
    (
        LINE,
        &[(
            0,
            &[Front, Back, Front, Front, Front, Front, Front],
            &[0, 2, 5, 4, 1, 3],
        )],
        [4, 6, 3, 1, 0, 6, 4, 1],
    ),
    (
        CUT,
        &[
            (0, &[Front, Front, Front, Front], &[0, 2, 4]),
            (1, &[Front, Front, Front, Front], &[1, 6, 11]),
            (2, &[Back, Front, Back, Back], &[7, 5, 8]),
        ],
        [4, 12, 6, 4, 3, 3, 4, 4],
    ),
];

fn check_walks_round_faces(dcel: &Mesh, walks: &[Walk]) -> Result<(), Fail> {
    for walk in walks {
        check_face_edges(dcel, *walk)?;
    }
    Ok(())
}

fn check_row((lines, walks, wanted): Row, alloc: Global) -> Result<(), Fail> {
    let dcel = grown(alloc, lines)?;
    same(lengths(&dcel), wanted, "lengths")?;
    check_walks_round_faces(&dcel, walks)
}

#[test]
fn faces_and_elements_are_walked_and_counted(rt: HostRuntime) -> Result<(), Fail> {
    for row in ROWS {
        check_row(row, rt.alloc())?;
    }
    Ok(())
}

/// Returns the numbers of faces, half edges and edges that the Voronoi diagram lists.
fn dual_lengths(dcel: &Mesh) -> [usize; 3] {
    [
        VoronoiFaceIterator::new(dcel).len(),
        DirectedVoronoiEdgeIterator::new(dcel).len(),
        UndirectedVoronoiEdgeIterator::new(dcel).len(),
    ]
}

/// Checks inner faces, the hull and the diagram.
fn check_elements(dcel: &Mesh) -> Result<(), Fail> {
    let taken = [(3, Some(3)), (2, Some(2)), (1, Some(1)), (0, None)];
    same(
        inner_faces_from_the_back(dcel),
        (taken, true),
        "inner faces",
    )?;
    check_taken(
        HullIterator::new(dcel),
        &[Back, Front, Back, Front],
        &[4, 0, 2],
    )?;
    same(dual_lengths(dcel), [4, 12, 6], "lengths of the diagram")
}

fn check_cut(dcel: &Mesh) -> Result<(), Fail> {
    check_out_edges(dcel)?;
    check_own_steps(dcel)?;
    check_both_ways(dcel, 0)?;
    check_elements(dcel)
}

#[test]
fn a_cut_triangle_is_walked_from_both_ends(rt: HostRuntime) -> Result<(), Fail> {
    let dcel = grown(rt.alloc(), CUT)?;
    check_cut(&dcel)
}

/// Takes half edges from both ends of the longest list of fixed handles that there is.
fn check_longest(edges: &mut FixedDirectedEdgeIterator) -> Result<(), Fail> {
    let hint = edges.size_hint();
    same(hint, (4_294_967_296, Some(4_294_967_296)), "the hint")?;
    let last = edges.next_back().map(|edge| edge.index());
    let first = edges.next().map(|edge| edge.index());
    let wanted = [Some(4_294_967_295), Some(0)];
    same([last, first], wanted, "the last and the first")?;
    same(edges.len(), 4_294_967_294, "those left")
}

#[test]
fn fixed_handles_are_listed_to_the_last_number() -> Result<(), Fail> {
    check_longest(&mut FixedDirectedEdgeIterator::new(4_294_967_296))?;
    let no_edge = FixedUndirectedEdgeIterator::new(0).next();
    holds(no_edge.is_none(), "no edge")?;
    let faces = FixedInnerFaceIterator::new(2).rev().count();
    same(faces, 2, "inner faces")
}
