//! Delaunay triangulations with each request for memory refused in turn. What a refusal leaves undone is
//! done afterwards.

use crate::places::{HUB, Place, SQUARE, numbered, points_at};
use dcel_bench::checks::{holds, same};
use dcel_bench::meshes::vertex;
use dcel_bench::refusing::{Memory, Refusals, Refusing};
use dcel_delaunay::lists::{edges, hull, neighbors, points, triangles};
use dcel_delaunay::{
    InsertionError, Point, RemovalError, Triangulation, least_numbers, triangulate,
    triangulate_with,
};
use spade_dcel::handles::FixedVertexHandle;
use std::alloc::{AllocError, Allocator, Global};
use std::test::Fail;

/// No call here makes so many requests for memory.
const MANY: u64 = 200;

/// A triangulation in such memory.
type Watched<'a> = Triangulation<Memory<'a>>;

/// The numbers of vertices, edges and inner faces.
type Counts = [usize; 3];

/// What is called.
#[derive(Clone, Copy, Debug)]
enum Call {
    /// Points are inserted one by one, each by a walk from the one before it, or all at once.
    Insert,
    WithHints,
    AllAtOnce,
    /// This vertex is removed.
    Remove(u32),
    Points,
    Triangles,
    Neighbors,
    Edges,
    Hull,
    Positions,
    Nearest,
    Clone,
}

/// How a call ended.
#[derive(Clone, Copy, PartialEq, Debug)]
enum End {
    /// It made a list of this length, or a change.
    Done(usize),
    /// There was no memory, and all is done that belongs to what is there.
    OutOfMemory,
    /// There was no memory, and something is left undone.
    Unfinished,
}

/// A call, the vertices before it, the points that it is given, how long its list is, what there is
/// afterwards, and how many requests it makes.
type Row = (Call, &'static [Place], &'static [Place], usize, Counts, u64);

/// On one line.
const LINE: [Place; 7] = [(0, 0), (4, 2), (2, 1), (8, 4), (6, 3), (10, 5), (12, 6)];

/// Along a parabola, and at last a point that has them all before it.
const PARABOLA: [Place; 11] = [
    (0, 0),
    (1, 1),
    (2, 4),
    (3, 9),
    (4, 16),
    (5, 25),
    (6, 36),
    (7, 49),
    (8, 64),
    (9, 81),
    (40, -60),
];

/// A square and its middle, and a square with a point between two of its corners, and one inside.
const MIDDLE: [Place; 5] = [(2, 2), (0, 0), (4, 0), (4, 4), (0, 4)];

const BETWEEN: [Place; 6] = [(0, 0), (2, 0), (4, 0), (4, 4), (0, 4), (2, 1)];

/// A vertex of three edges, and one of four, none of which can be flipped.
const THREE: [Place; 4] = [(0, 0), (6, 0), (1, 1), (0, 6)];

const FOUR: [Place; 5] = [(0, 0), (-2, 0), (2, -3), (1, 0), (2, 3)];

/// Four points on a line, and one beside it.
const FAN: [Place; 5] = [(0, 3), (0, 0), (1, 0), (2, 0), (5, 0)];

const ROWS: [Row; 29] = [
    (Call::Insert, &[], &LINE, 0, [7, 6, 0], 8),
    (Call::Insert, &[], &PARABOLA, 0, [11, 27, 17], 23),
    (Call::Insert, &[], &SQUARE, 0, [11, 24, 14], 20),
    (Call::WithHints, &[], &LINE, 0, [7, 6, 0], 8),
    (Call::WithHints, &[], &PARABOLA, 0, [11, 27, 17], 23),
    (Call::WithHints, &[], &SQUARE, 0, [11, 24, 14], 20),
    (Call::AllAtOnce, &[], &LINE, 0, [7, 6, 0], 12),
    (Call::AllAtOnce, &[], &PARABOLA, 0, [11, 27, 17], 14),
    (Call::AllAtOnce, &[], &SQUARE, 0, [11, 24, 14], 15),
    // Inside.
    (Call::Remove(0), &MIDDLE, &[], 0, [4, 5, 2], 9),
    (Call::Remove(2), &THREE, &[], 0, [3, 3, 1], 3),
    (Call::Remove(0), &FOUR, &[], 0, [4, 6, 3], 9),
    (Call::Remove(0), &HUB, &[], 0, [8, 13, 6], 10),
    // A corner of many edges, one whose neighbors are on one line then, and between two corners.
    (Call::Remove(3), &HUB, &[], 0, [8, 14, 7], 7),
    (Call::Remove(1), &MIDDLE, &[], 0, [4, 5, 2], 5),
    (Call::Remove(1), &BETWEEN, &[], 0, [5, 8, 4], 6),
    // After it no triangle is left; of a line.
    (Call::Remove(0), &FAN, &[], 0, [4, 3, 0], 5),
    (Call::Remove(1), &LINE, &[], 0, [6, 5, 0], 0),
    (Call::Remove(9), &HUB, &[], 0, [9, 16, 8], 0),
    (Call::Points, &SQUARE, &[], 11, [11, 24, 14], 1),
    (Call::Triangles, &SQUARE, &[], 14, [11, 24, 14], 1),
    (Call::Neighbors, &SQUARE, &[], 14, [11, 24, 14], 1),
    (Call::Edges, &SQUARE, &[], 24, [11, 24, 14], 1),
    (Call::Hull, &SQUARE, &[], 6, [11, 24, 14], 2),
    (Call::Positions, &SQUARE, &LINE, 7, [11, 24, 14], 3),
    (Call::Nearest, &SQUARE, &LINE, 7, [11, 24, 14], 3),
    (Call::Clone, &SQUARE, &[], 11, [11, 24, 14], 8),
    (Call::Clone, &[], &[], 0, [0, 0, 0], 1),
    (Call::Hull, &LINE, &[], 12, [7, 6, 0], 3),
];

/// Returns how an insertion ended.
fn end_of<T: Drop>(inserted: Result<T, InsertionError>) -> End {
    match inserted {
        Ok(_) => End::Done(0),
        Err(InsertionError::Unfinished) => End::Unfinished,
        Err(_) => End::OutOfMemory,
    }
}

/// Returns how it ended to make a list. It is dropped here alone, since the prover's work grows with each
/// place where a list may be dropped.
fn length<T: Drop, A: Allocator>(list: Result<Vec<T, A>, AllocError>) -> End {
    match list {
        Ok(list) => End::Done(list.len()),
        Err(_) => End::OutOfMemory,
    }
}

/// Inserts points one by one, by walks from the one before, or not.
fn insert_each(
    triangulation: &mut Watched,
    points: &[Point],
    with_hints: bool,
) -> Result<(), InsertionError> {
    // No vertex has this number.
    let mut hint = vertex(100);
    for point in points {
        hint = if with_hints {
            triangulation.insert_with_hint(*point, hint)?
        } else {
            triangulation.insert(*point)?
        };
    }
    Ok(())
}

/// Removes a vertex. One that isn't there counts as removed.
fn remove(triangulation: &mut Watched, number: u32) -> End {
    match triangulation.remove(vertex(number)) {
        Ok(_) => End::Done(0),
        Err(RemovalError::NoVertex) => End::Done(0),
        Err(RemovalError::Unfinished(_)) => End::Unfinished,
        Err(_) => End::OutOfMemory,
    }
}

/// Lists where points are, or what is nearest to them.
fn ask<'a>(triangulation: &Watched<'a>, memory: Memory<'a>, points: &[Point], call: Call) -> End {
    if !triangulation.is_whole() {
        return End::Unfinished;
    }
    match call {
        Call::Positions => length(triangulation.locate_all(memory, points)),
        _ => length(triangulation.nearest_all(memory, points)),
    }
}

/// Makes something of a triangulation that stays as it is.
fn make<'a>(triangulation: &Watched<'a>, memory: Memory<'a>, asked: &[Point], call: Call) -> End {
    let mesh = triangulation.dcel();
    match call {
        Call::Points => length(points(memory, mesh)),
        Call::Triangles => length(triangles(memory, mesh)),
        Call::Neighbors => length(neighbors(memory, mesh)),
        Call::Edges => length(edges(memory, mesh)),
        Call::Hull => length(hull(memory, mesh)),
        Call::Clone => match triangulation.try_clone(memory) {
            Ok(clone) => End::Done(clone.dcel().num_vertices()),
            Err(_) => End::OutOfMemory,
        },
        _ => ask(triangulation, memory, asked, call),
    }
}

/// Calls.
fn carry_out<'a>(
    triangulation: &mut Watched<'a>,
    memory: Memory<'a>,
    points: &[Point],
    call: Call,
) -> End {
    match call {
        Call::Insert => end_of(insert_each(triangulation, points, false)),
        Call::WithHints => end_of(insert_each(triangulation, points, true)),
        Call::AllAtOnce => end_of(triangulation.insert_all(memory, points)),
        Call::Remove(number) => remove(triangulation, number),
        _ => make(triangulation, memory, points, call),
    }
}

fn counts(triangulation: &Watched) -> Counts {
    let mesh = triangulation.dcel();
    [
        mesh.num_vertices(),
        mesh.num_undirected_edges(),
        mesh.num_faces().saturating_sub(1),
    ]
}

/// Has each request of `finish` refused in turn, until it is done.
fn finish_refused<'a>(triangulation: &mut Watched<'a>, memory: Memory<'a>) -> Result<(), Fail> {
    for number in 0..MANY {
        memory.refuse(Refusals::One(number));
        let is_done = triangulation.finish().is_ok();
        memory.refuse(Refusals::None);
        same(is_done, triangulation.is_whole(), "all is done")?;
        if is_done {
            return Ok(());
        }
    }
    Err(Fail::new("more requests than MANY"))
}

/// Does what is left undone, and calls again, unless what is wanted is there.
fn carry_on<'a>(
    triangulation: &mut Watched<'a>,
    memory: Memory<'a>,
    points: &[Point],
    row: &Row,
) -> Result<(), Fail> {
    finish_refused(triangulation, memory)?;
    if counts(triangulation) == row.4 {
        return Ok(());
    }
    let end = carry_out(triangulation, memory, points, row.0);
    same(end, End::Done(row.3), "once there is memory")
}

/// Calls with the request of this number refused, and then does the rest. Returns whether it came.
fn call_refused<'a>(
    triangulation: &mut Watched<'a>,
    memory: Memory<'a>,
    points: &[Point],
    row: &Row,
    number: u64,
) -> Result<bool, Fail> {
    memory.refuse(Refusals::One(number));
    let end = carry_out(triangulation, memory, points, row.0);
    let came = memory.requests() > number;
    memory.refuse(Refusals::None);
    let is_right = if came {
        end != End::Done(row.3)
    } else {
        end == End::Done(row.3)
    };
    holds(
        is_right,
        format_args!("{:?}, request {number}: {end:?}", row.0),
    )?;
    // A removal that is refused may leave edges to be flipped.
    let is_whole = triangulation.is_whole() || matches!(row.0, Call::Remove(_));
    holds(is_whole || end == End::Unfinished, "nothing is left undone")?;
    if came {
        carry_on(triangulation, memory, points, row)?;
    }
    same(
        counts(triangulation),
        row.4,
        "vertices, edges and inner faces",
    )?;
    Ok(came)
}

/// The same in a triangulation of its own, which has no room to spare.
fn refuse(row: &Row, points: &[Point], number: u64, alloc: Global) -> Result<bool, Fail> {
    let memory = Refusing::new(alloc);
    let mut triangulation = numbered(row.1, &memory)?.try_clone(&memory)?;
    call_refused(&mut triangulation, &memory, points, row, number)
}

/// Refuses each request of a row in turn.
fn refuse_each(row: &Row, alloc: Global) -> Result<(), Fail> {
    let points = points_at(row.2, alloc)?;
    for number in 0..MANY {
        if !refuse(row, &points, number, alloc)? {
            return same(number, row.5, format_args!("requests of {:?}", row.0));
        }
    }
    Err(Fail::new("more requests than MANY"))
}

#[test]
fn calls_are_refused_memory(rt: HostRuntime) -> Result<(), Fail> {
    for row in &ROWS {
        refuse_each(row, rt.alloc())?;
    }
    Ok(())
}

/// What is made of points.
#[derive(Clone, Copy, Debug)]
enum Made {
    Nothing,
    Triangles,
    TrianglesWithProgress,
    Numbers,
}

/// What is made of SQUARE, how long its list is, and how many requests that makes.
const MADE: [(Made, usize, u64); 4] = [
    (Made::Nothing, 0, 1),
    (Made::Triangles, 14, 18),
    (Made::TrianglesWithProgress, 14, 18),
    (Made::Numbers, 2, 1),
];

/// Makes it with the request of this number refused. Returns how that ends, and whether it came.
fn make_refused(memory: Memory, points: &[Point], made: Made, number: u64) -> (End, bool) {
    let [first, second] = [FixedVertexHandle::new(0), FixedVertexHandle::new(1)];
    memory.refuse(Refusals::One(number));
    let end = match made {
        Made::Nothing => match Triangulation::new(memory) {
            Ok(_) => End::Done(0),
            Err(_) => End::OutOfMemory,
        },
        Made::Triangles => length(triangulate(memory, points)),
        Made::TrianglesWithProgress => match triangulate_with(memory, points, |_| ()) {
            Ok(list) => End::Done(list.len()),
            Err(_) => End::OutOfMemory,
        },
        Made::Numbers => length(least_numbers(memory, &[second, first, second], 2)),
    };
    let came = memory.requests() > number;
    memory.refuse(Refusals::None);
    (end, came)
}

/// Refuses each request of what is made in turn.
fn refuse_made(
    memory: Memory,
    points: &[Point],
    (made, length, requests): (Made, usize, u64),
) -> Result<(), Fail> {
    for number in 0..MANY {
        let (end, came) = make_refused(memory, points, made, number);
        let wanted = if came {
            End::OutOfMemory
        } else {
            End::Done(length)
        };
        same(end, wanted, format_args!("{made:?}, request {number}"))?;
        if !came {
            return same(number, requests, format_args!("requests of {made:?}"));
        }
    }
    Err(Fail::new("more requests than MANY"))
}

#[test]
fn what_is_made_of_points_is_refused_memory(rt: HostRuntime) -> Result<(), Fail> {
    let memory = Refusing::new(rt.alloc());
    let points = points_at(&SQUARE, rt.alloc())?;
    for row in &MADE {
        refuse_made(&memory, &points, *row)?;
    }
    Ok(())
}
