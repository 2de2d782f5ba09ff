//! Constrained triangulations with each request for memory refused in turn. What a refusal leaves undone
//! is done afterwards.

use crate::places::{Ends, HUB, KITE, Place, constrained, numbered, points_at};
use dcel_bench::checks::{holds, same};
use dcel_bench::meshes::vertex;
use dcel_bench::refusing::{Memory, Refusals, Refusing};
use dcel_bench::require;
use dcel_constrained::{
    ConstrainedTriangulation, ConstraintError, JoinError, LoadError, Segment, Unjoined,
};
use dcel_delaunay::{InsertionError, Point, RemovalError, Triangulation};
use dcel_refinement::{
    AngleLimit, Refined, RefinedFaces, RefinementParameters, refine, refine_faces,
};
use spade_dcel::handles::{FixedUndirectedEdgeHandle, FixedVertexHandle};
use std::alloc::{AllocError, Allocator, Global};
use std::test::Fail;

/// No call here makes so many requests for memory.
const MANY: u64 = 1000;

/// A constrained triangulation in such memory.
type Watched<'a> = ConstrainedTriangulation<Memory<'a>>;

/// The numbers of vertices, edges, inner faces and marked edges.
type Counts = [usize; 4];

/// What is called.
#[derive(Clone, Copy, Debug)]
enum Call {
    /// Points are inserted one by one, or all at once.
    Insert,
    AllAtOnce,
    /// This segment is made a constraint, or tried.
    Add(Ends),
    Try(Ends),
    /// The edge between these two is freed.
    Free(Ends),
    /// This vertex is removed, and what goes straight through it may be joined.
    Remove(u32),
    Rejoin(u32),
    Refine,
    RefineFaces,
    Regions,
    Positions,
    Clone,
}

/// How a call ended.
#[derive(Clone, Copy, PartialEq, Debug)]
enum End {
    /// It made a list of this length, or a change.
    Done(usize),
    OutOfMemory,
    Unfinished,
    NotJoined(Unjoined),
}

/// Points, and segments that are made constraints.
type Setting = (&'static [Place], &'static [Ends]);

/// What there is before a call, the call, the points that it is given, how long its list is, what there
/// is afterwards, if that is known, and how many requests it makes.
type Row = (Setting, Call, &'static [Place], usize, Option<Counts>, u64);

/// Points of a grid, two apart. The vertex at (2 * x, 2 * y) has the number 4 * x + y.
const GRID: [Place; 16] = [
    (0, 0),
    (0, 2),
    (0, 4),
    (0, 6),
    (2, 0),
    (2, 2),
    (2, 4),
    (2, 6),
    (4, 0),
    (4, 2),
    (4, 4),
    (4, 6),
    (6, 0),
    (6, 2),
    (6, 4),
    (6, 6),
];

/// A strip of triangles from the first point to the second one.
const STRIP: [Place; 13] = [
    (-2, 0),
    (14, 0),
    (1, -1),
    (3, -1),
    (5, -1),
    (7, -1),
    (9, -1),
    (11, -1),
    (2, 1),
    (4, 1),
    (6, 1),
    (8, 1),
    (10, 1),
];

const LINE: [Place; 4] = [(0, 0), (8, 4), (16, 8), (24, 12)];

/// On the long diagonal of a kite, at one of its corners, inside, outside, and one of them again.
const MORE: [Place; 6] = [(3, 0), (4, 2), (6, 0), (4, 1), (20, 9), (3, 0)];

/// What there is before calls: the grid with a side and its diagonal marked, the kite with its long
/// diagonal, the line in part, and none of the strip.
const ON_GRID: Setting = (&GRID, &[(0, 3), (0, 15)]);

const ON_KITE: Setting = (&KITE, &[(0, 1)]);

const ON_LINE: Setting = (&LINE, &[(0, 2)]);

const ON_STRIP: Setting = (&STRIP, &[]);

const ON_HUB: Setting = (&HUB, &[(0, 1), (0, 5), (2, 3)]);

const ON_SQUARE: Setting = (&SQUARE, &[(0, 1), (1, 2), (2, 3), (3, 0)]);

/// A square with a point near its middle and one near a side. Coordinates are multiples of 4096, so that
/// sides can be split.
const SQUARE: [Place; 6] = [
    (0, 0),
    (4_096_000, 0),
    (4_096_000, 4_096_000),
    (0, 4_096_000),
    (2_088_960, 2_048_000),
    (2_048_000, 40_960),
];

/// What is asked of a refinement: 20 degrees, which wants more vertices than may be added, and no area.
const WANTED: RefinementParameters = RefinementParameters {
    angle: AngleLimit {
        rise: 23853,
        run: 65535,
    },
    max_doubled_area: None,
    max_additional_vertices: 6,
    faces: RefinedFaces::Inside,
};

const ROWS: [Row; 35] = [
    // On the marked side, on the diagonal, on edges that aren't marked, at a vertex, and outside.
    (
        ON_GRID,
        Call::Insert,
        &[(0, 3)],
        0,
        Some([17, 35, 19, 7]),
        9,
    ),
    (
        ON_GRID,
        Call::Insert,
        &[(3, 3)],
        0,
        Some([17, 36, 20, 7]),
        9,
    ),
    (
        ON_GRID,
        Call::Insert,
        &[(3, 1)],
        0,
        Some([17, 36, 20, 6]),
        9,
    ),
    (
        ON_GRID,
        Call::Insert,
        &[(2, 2)],
        0,
        Some([16, 33, 18, 6]),
        0,
    ),
    (
        ON_GRID,
        Call::Insert,
        &[(-50, 1)],
        0,
        Some([17, 37, 21, 6]),
        9,
    ),
    (
        ON_GRID,
        Call::Insert,
        &[(60, 60)],
        0,
        Some([17, 40, 24, 6]),
        10,
    ),
    (ON_LINE, Call::Insert, &[(4, 2)], 0, Some([5, 4, 0, 3]), 7),
    (ON_LINE, Call::Insert, &[(32, 16)], 0, Some([5, 4, 0, 2]), 7),
    (ON_LINE, Call::Insert, &[(7, 9)], 0, Some([5, 7, 3, 2]), 11),
    (
        (&[], &[]),
        Call::Insert,
        &[(1, 1)],
        0,
        Some([1, 0, 0, 0]),
        1,
    ),
    (
        (&[(0, 0)], &[]),
        Call::Insert,
        &[(1, 1)],
        0,
        Some([2, 1, 0, 0]),
        7,
    ),
    (ON_KITE, Call::AllAtOnce, &MORE, 0, Some([8, 16, 9, 3]), 13),
    // The whole of a marked segment, a part of one, and what ends on one.
    (
        ON_GRID,
        Call::Add((15, 0)),
        &[],
        0,
        Some([16, 33, 18, 6]),
        0,
    ),
    (
        ON_GRID,
        Call::Add((4, 10)),
        &[],
        0,
        Some([16, 33, 18, 7]),
        1,
    ),
    (ON_LINE, Call::Add((3, 0)), &[], 0, Some([4, 3, 0, 3]), 0),
    // Through one edge, and through eleven, each of which has an end in common with the one before.
    (
        (&KITE, &[]),
        Call::Add((0, 1)),
        &[],
        0,
        Some([4, 5, 2, 1]),
        2,
    ),
    (
        ON_STRIP,
        Call::Add((0, 1)),
        &[],
        0,
        Some([13, 23, 11, 1]),
        8,
    ),
    (
        ON_STRIP,
        Call::Try((1, 0)),
        &[],
        0,
        Some([13, 23, 11, 1]),
        8,
    ),
    // A marked edge is in the way.
    (ON_KITE, Call::Try((2, 3)), &[], 1, Some([4, 5, 2, 1]), 1),
    (
        ON_GRID,
        Call::Free((0, 1)),
        &[],
        0,
        Some([16, 33, 18, 5]),
        0,
    ),
    (ON_LINE, Call::Free((0, 1)), &[], 0, Some([4, 3, 0, 1]), 1),
    (ON_KITE, Call::Free((0, 1)), &[], 0, Some([4, 5, 2, 0]), 0),
    // On the diagonal, on the side, where three constraints end, and of a line.
    (ON_GRID, Call::Remove(5), &[], 0, Some([15, 30, 16, 4]), 9),
    (ON_GRID, Call::Remove(1), &[], 0, Some([15, 31, 17, 4]), 6),
    (ON_HUB, Call::Remove(0), &[], 0, Some([8, 13, 6, 1]), 11),
    (ON_LINE, Call::Remove(1), &[], 0, Some([3, 2, 0, 0]), 1),
    (ON_GRID, Call::Rejoin(5), &[], 0, Some([15, 30, 16, 5]), 9),
    (ON_GRID, Call::Rejoin(1), &[], 0, Some([15, 31, 17, 5]), 6),
    (ON_HUB, Call::Rejoin(0), &[], 0, Some([8, 13, 6, 2]), 12),
    (ON_LINE, Call::Rejoin(1), &[], 0, Some([3, 2, 0, 1]), 1),
    (ON_SQUARE, Call::Refine, &[], 6, None, 39),
    (ON_SQUARE, Call::RefineFaces, &[], 0, None, 26),
    (ON_GRID, Call::Regions, &[], 19, Some([16, 33, 18, 6]), 7),
    (
        ON_GRID,
        Call::Positions,
        &STRIP,
        13,
        Some([16, 33, 18, 6]),
        3,
    ),
    (ON_GRID, Call::Clone, &[], 6, Some([16, 33, 18, 6]), 8),
];

/// Returns how an insertion or a refinement ended.
fn end_of<T: Drop>(inserted: Result<T, InsertionError>) -> End {
    match inserted {
        Ok(_) => End::Done(0),
        Err(InsertionError::Unfinished) => End::Unfinished,
        Err(_) => End::OutOfMemory,
    }
}

/// Returns how it ended to make a list.
fn length<T: Drop, A: Allocator>(list: Result<Vec<T, A>, AllocError>) -> End {
    match list {
        Ok(list) => End::Done(list.len()),
        Err(_) => End::OutOfMemory,
    }
}

/// Inserts points one by one.
fn insert_each(triangulation: &mut Watched, points: &[Point]) -> Result<(), InsertionError> {
    for point in points {
        triangulation.insert(*point)?;
    }
    Ok(())
}

/// Makes a segment a constraint, if it can be one.
fn add(triangulation: &mut Watched, (from, to): Ends) -> End {
    let (from, to) = (vertex(from), vertex(to));
    if !triangulation.is_whole() {
        return End::Unfinished;
    }
    if !triangulation.can_add_constraint(from, to) {
        return End::Unfinished;
    }
    match triangulation.add_constraint(from, to) {
        Ok(_) => End::Done(0),
        Err(_) => End::OutOfMemory,
    }
}

/// Makes segments constraints.
pub fn add_each<A: Allocator>(
    triangulation: &mut ConstrainedTriangulation<A>,
    segments: &[Ends],
) -> Result<(), Fail> {
    for (from, to) in segments {
        let (from, to) = (vertex(*from), vertex(*to));
        require!(triangulation.is_whole());
        require!(triangulation.can_add_constraint(from, to));
        let _ = triangulation.add_constraint(from, to)?;
    }
    Ok(())
}

/// Tries to make a segment a constraint. Returns how many edges are in its way.
fn attempt(triangulation: &mut Watched, (from, to): Ends) -> End {
    match triangulation.try_add_constraint(vertex(from), vertex(to)) {
        Ok(_) => End::Done(0),
        Err(ConstraintError::Blocked(edges)) => End::Done(edges.len()),
        Err(ConstraintError::NoVertex) => End::Unfinished,
        Err(ConstraintError::OutOfMemory) => End::OutOfMemory,
    }
}

/// Returns the edge between two vertices.
fn edge_between(
    triangulation: &Watched,
    from: FixedVertexHandle,
    to: FixedVertexHandle,
) -> Option<FixedUndirectedEdgeHandle> {
    let dcel = triangulation.dcel();
    if from.index() >= dcel.num_vertices() {
        return None;
    }
    match dcel.get_edge_from_neighbors(from, to) {
        Some(edge) => Some(edge.as_undirected().fix()),
        None => None,
    }
}

/// Frees the edge between two vertices.
fn free(triangulation: &mut Watched, (from, to): Ends) -> End {
    let Some(edge) = edge_between(triangulation, vertex(from), vertex(to)) else {
        return End::Unfinished;
    };
    match triangulation.remove_constraint_edge(edge) {
        Ok(_) => End::Done(0),
        Err(_) => End::OutOfMemory,
    }
}

/// Returns how a removal failed.
fn failed(error: RemovalError) -> End {
    match error {
        RemovalError::Unfinished(_) => End::Unfinished,
        _ => End::OutOfMemory,
    }
}

fn remove(triangulation: &mut Watched, number: u32) -> End {
    match triangulation.remove(vertex(number)) {
        Ok(_) => End::Done(0),
        Err(error) => failed(error),
    }
}

fn rejoin(triangulation: &mut Watched, number: u32) -> End {
    match triangulation.remove_and_join(vertex(number)) {
        Ok(_) => End::Done(0),
        Err(JoinError::Removal(error)) => failed(error),
        Err(JoinError::NotJoined(left)) => End::NotJoined(left),
    }
}

/// Refines: faces by their depths, or all of them by their flags.
fn refined<'a>(triangulation: &mut Watched<'a>, memory: Memory<'a>, call: Call) -> End {
    match call {
        Call::RefineFaces => { end_of(refine_faces(triangulation, memory, &WANTED, &[true; 256])) }
        _ => match refine(triangulation, memory, &WANTED) {
            Ok(Refined::Stopped { added, .. }) => End::Done(added),
            refined => end_of(refined),
        },
    }
}

/// Makes something of a triangulation that stays as it is.
fn make<'a>(triangulation: &Watched<'a>, memory: Memory<'a>, asked: &[Point], call: Call) -> End {
    match call {
        Call::Regions => length(triangulation.regions(memory)),
        Call::Clone => match triangulation.try_clone(memory) {
            Ok(clone) => End::Done(clone.num_constraints()),
            Err(_) => End::OutOfMemory,
        },
        _ => {
            if !triangulation.is_whole() {
                return End::Unfinished;
            }
            length(triangulation.locate_all(memory, asked))
        }
    }
}

/// Changes something of constraints.
fn change(triangulation: &mut Watched, call: Call) -> Option<End> {
    match call {
        Call::Add(ends) => Some(add(triangulation, ends)),
        Call::Try(ends) => Some(attempt(triangulation, ends)),
        Call::Free(ends) => Some(free(triangulation, ends)),
        Call::Remove(number) => Some(remove(triangulation, number)),
        Call::Rejoin(number) => Some(rejoin(triangulation, number)),
        _ => None,
    }
}

/// Calls.
fn carry_out<'a>(
    triangulation: &mut Watched<'a>,
    memory: Memory<'a>,
    points: &[Point],
    call: Call,
) -> End {
    if let Some(end) = change(triangulation, call) {
        return end;
    }
    match call {
        Call::Insert => end_of(insert_each(triangulation, points)),
        Call::AllAtOnce => end_of(triangulation.insert_all(memory, points)),
        Call::Refine => refined(triangulation, memory, call),
        Call::RefineFaces => refined(triangulation, memory, call),
        _ => make(triangulation, memory, points, call),
    }
}

fn counts(triangulation: &Watched) -> Counts {
    let dcel = triangulation.dcel();
    [
        dcel.num_vertices(),
        dcel.num_undirected_edges(),
        dcel.num_faces().saturating_sub(1),
        triangulation.num_constraints(),
    ]
}

/// Has each request of `finish` refused in turn, until it is done. Vertices and marked edges stay.
fn finish_refused<'a>(triangulation: &mut Watched<'a>, memory: Memory<'a>) -> Result<(), Fail> {
    let [vertices, _, _, marked] = counts(triangulation);
    for number in 0..MANY {
        memory.refuse(Refusals::One(number));
        let is_done = triangulation.finish().is_ok();
        memory.refuse(Refusals::None);
        same(is_done, triangulation.is_whole(), "all is done")?;
        let [others, _, _, marks] = counts(triangulation);
        same(
            [others, marks],
            [vertices, marked],
            "vertices and marked edges",
        )?;
        if is_done {
            return Ok(());
        }
    }
    Err(Fail::new("more requests than MANY"))
}

/// Does what is left undone, and calls again, unless what is wanted is there.
fn carry_on<'a>(
    triangulation: &mut Watched<'a>,
    memory: Memory<'a>,
    points: &[Point],
    row: &Row,
    end: End,
) -> Result<(), Fail> {
    finish_refused(triangulation, memory)?;
    if let End::NotJoined(left) = end {
        let ends = (left.from.index() as u32, left.to.index() as u32);
        return same(
            add(triangulation, ends),
            End::Done(0),
            "what is joined then",
        );
    }
    if row.4 == Some(counts(triangulation)) {
        return Ok(());
    }
    // A removal that was refused may have freed some.
    add_each(triangulation, row.0.1)?;
    let end = carry_out(triangulation, memory, points, row.1);
    same(end, End::Done(row.3), "once there is memory")
}

/// Calls with the request of this number refused, and then does the rest. Returns whether it came.
fn call_refused<'a>(
    triangulation: &mut Watched<'a>,
    memory: Memory<'a>,
    points: &[Point],
    row: &Row,
    number: u64,
) -> Result<bool, Fail> {
    add_each(triangulation, row.0.1)?;
    memory.refuse(Refusals::One(number));
    let end = carry_out(triangulation, memory, points, row.1);
    let came = memory.requests() > number;
    memory.refuse(Refusals::None);
    let is_done = end == End::Done(row.3);
    holds(
        is_done != came,
        format_args!("{:?}, request {number}: {end:?}", row.1),
    )?;
    if came {
        carry_on(triangulation, memory, points, row, end)?;
    }
    let found = counts(triangulation);
    let is_right = row.4.is_none() || row.4 == Some(found);
    holds(
        is_right,
        format_args!("{:?}, request {number}: {found:?}", row.1),
    )?;
    holds(triangulation.is_whole(), "all is done")?;
    Ok(came)
}

/// The same in a triangulation of its own.
fn refuse(row: &Row, points: &[Point], number: u64, alloc: Global) -> Result<bool, Fail> {
    let memory = Refusing::new(alloc);
    let mut triangulation = constrained(row.0.0, &memory)?;
    call_refused(&mut triangulation, &memory, points, row, number)
}

/// Refuses each request of a row in turn.
fn refuse_each(row: &Row, alloc: Global) -> Result<(), Fail> {
    let points = points_at(row.2, alloc)?;
    for number in 0..MANY {
        if !refuse(row, &points, number, alloc)? {
            return same(number, row.5, format_args!("requests of {:?}", row.1));
        }
    }
    Err(Fail::new("more requests than MANY"))
}

#[test]
fn calls_are_refused_memory(rt: HostRuntime) -> Result<(), Fail> {
    for row in &ROWS {
        refuse_each(row, rt.alloc())?;
    }
    Ok(())
}

/// Two segments, of which one is on the other's line.
const SEGMENTS: [Segment; 2] = [Segment { from: 0, to: 1 }, Segment { from: 2, to: 0 }];

/// Loads points and segments. Returns how many constraints and vertices there are, and None where
/// memory ran out.
fn load(memory: Memory, points: &[Point]) -> Result<Option<usize>, Fail> {
    match ConstrainedTriangulation::bulk_load(memory, points, &SEGMENTS) {
        Ok((made, vertices)) => Ok(Some(made.num_constraints().saturating_add(vertices.len()))),
        Err(LoadError::OutOfMemory) => Ok(None),
        Err(_) => Err(Fail::new("segments cross, or end nowhere")),
    }
}

/// Loads with the request of this number refused. Returns whether it came.
fn load_refused(memory: Memory, points: &[Point], number: u64) -> Result<bool, Fail> {
    memory.refuse(Refusals::One(number));
    let loaded = load(memory, points);
    let came = memory.requests() > number;
    memory.refuse(Refusals::None);
    let wanted = if came { None } else { Some(6) };
    same(loaded?, wanted, format_args!("request {number}"))?;
    Ok(came)
}

#[test]
fn loads_are_refused_memory(rt: HostRuntime) -> Result<(), Fail> {
    let memory = Refusing::new(rt.alloc());
    let points = points_at(&KITE, rt.alloc())?;
    for number in 0..MANY {
        if !load_refused(&memory, &points, number)? {
            return same(number, 14, "requests");
        }
    }
    Err(Fail::new("more requests than MANY"))
}

/// Makes a constrained triangulation of a triangulation's own mesh, with the request of this number
/// refused. Returns whether there was memory, and how many requests came.
fn convert(memory: Memory, number: u64) -> Result<(bool, u64), Fail> {
    let triangulation = numbered(&HUB, memory)?;
    require!(triangulation.is_whole());
    memory.refuse(Refusals::One(number));
    let is_made = ConstrainedTriangulation::convert(triangulation, memory).is_ok();
    let requests = memory.requests();
    memory.refuse(Refusals::None);
    Ok((is_made, requests))
}

/// The marks of the edges take the only request: the mesh isn't copied.
#[test]
fn conversions_are_refused_memory(rt: HostRuntime) -> Result<(), Fail> {
    let memory = Refusing::new(rt.alloc());
    same(convert(&memory, 0)?, (false, 1), "refused")?;
    same(convert(&memory, 1)?, (true, 1), "not refused")
}

/// Returns whether a copy is refused, with the request of this number refused, exactly if that comes.
fn copy_refused<'a>(
    triangulation: &Triangulation<Memory<'a>>,
    memory: Memory<'a>,
    number: u64,
) -> Result<bool, Fail> {
    require!(triangulation.is_whole());
    memory.refuse(Refusals::One(number));
    let is_made = ConstrainedTriangulation::from_triangulation(triangulation, memory).is_ok();
    let came = memory.requests() > number;
    memory.refuse(Refusals::None);
    same(is_made, !came, format_args!("request {number}"))?;
    Ok(came)
}

#[test]
fn copies_are_refused_memory(rt: HostRuntime) -> Result<(), Fail> {
    let memory = Refusing::new(rt.alloc());
    let triangulation = numbered(&HUB, &memory)?;
    for number in 0..MANY {
        if !copy_refused(&triangulation, &memory, number)? {
            return holds(number > 4, "requests were refused");
        }
    }
    Err(Fail::new("more requests than MANY"))
}
