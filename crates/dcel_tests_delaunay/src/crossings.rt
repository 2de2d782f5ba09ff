//! Which constraints are in the way of a segment, and where it crosses them: exact numbers, and the nearest
//! points. The numbers were computed by Python's.

use crate::constrained::add_each;
use crate::places::{Ends, KITE, Place, constrained};
use dcel_bench::checks::same;
use dcel_bench::meshes::vertex;
use dcel_constrained::{ConstrainedTriangulation, ConstraintError};
use spade_dcel::handles::FixedUndirectedEdgeHandle;
use std::test::Fail;

/// A wide number: `2^112`, `2^56` and 1 times these.
type Parts = (i128, u64, u64);

/// Points, segments that are made constraints, a segment that crosses some of these, and how many. Of
/// the last: where, how far along, and the nearest point.
#[derive(Clone, Copy)]
struct Row {
    places: &'static [Place],
    marked: &'static [Ends],
    segment: Ends,
    count: usize,
    x: Parts,
    y: Parts,
    along: (i128, i128),
    nearest: Place,
}

/// The largest coordinate.
const MOST: i64 = 9_007_199_254_740_992;

const ROWS: [Row; 5] = [
    Row {
        places: &KITE,
        marked: &[(0, 1)],
        segment: (2, 3),
        count: 1,
        x: (0, 0, 128),
        y: (0, 0, 0),
        along: (16, 32),
        nearest: (4, 0),
    },
    // Two edges that are no constraints are in the way too.
    Row {
        places: &[(5, 4), (5, -4), (-3, 0), (21, 0), (13, 3), (13, -3)],
        marked: &[(0, 1)],
        segment: (2, 3),
        count: 1,
        x: (0, 0, 960),
        y: (0, 0, 0),
        along: (64, 192),
        nearest: (5, 0),
    },
    // At (-430 / 121, -43 / 121), with a constraint beside that isn't crossed.
    Row {
        places: &[(0, 0), (-10, -1), (-3, -7), (-4, 5)],
        marked: &[(1, 0), (0, 2)],
        segment: (3, 2),
        count: 1,
        x: (-1, 72_057_594_037_927_935, 72_057_594_037_927_506),
        y: (-1, 72_057_594_037_927_935, 72_057_594_037_927_893),
        along: (54, 121),
        nearest: (-4, 0),
    },
    // In the middle of the largest square, and in a corner of it.
    Row {
        places: &[
            (-MOST, -MOST),
            (MOST, MOST - 1),
            (-MOST, MOST),
            (MOST, -MOST),
        ],
        marked: &[(0, 1)],
        segment: (2, 3),
        count: 1,
        x: (0, 2_251_799_813_685_248, 0),
        y: (-1, 69_805_794_224_242_688, 0),
        along: (
            324_518_553_658_426_726_783_156_020_576_256,
            649_037_107_316_853_435_551_913_531_670_528,
        ),
        nearest: (0, 0),
    },
    Row {
        places: &[
            (MOST, MOST),
            (MOST - 1, MOST - 3),
            (MOST - 5, MOST - 1),
            (MOST, MOST - 2),
        ],
        marked: &[(0, 1)],
        segment: (2, 3),
        count: 1,
        x: (0, 1, 72_057_594_037_927_926),
        y: (0, 1, 72_057_594_037_927_906),
        along: (14, 16),
        nearest: (MOST - 1, MOST - 2),
    },
];

/// Checks where a segment crosses an edge.
fn check_place(
    triangulation: &ConstrainedTriangulation,
    edge: FixedUndirectedEdgeHandle,
    row: Row,
) -> Result<(), Fail> {
    let (from, to) = row.segment;
    let Some(found) = triangulation.crossing(vertex(from), vertex(to), edge) else {
        return Err(Fail::new("it doesn't cross the edge"));
    };
    let x = (found.x.high, found.x.middle, found.x.low);
    let y = (found.y.high, found.y.middle, found.y.low);
    same((x, y), (row.x, row.y), "its coordinates")?;
    let nearest = (found.nearest.x, found.nearest.y);
    let along = (found.along, found.weight);
    same((along, nearest), (row.along, row.nearest), "how far along")
}

/// Returns how many edges a segment crosses.
fn count(triangulation: &ConstrainedTriangulation, (from, to): Ends) -> usize {
    let mut count = 0usize;
    for number in 0..triangulation.dcel().num_undirected_edges() {
        let edge = FixedUndirectedEdgeHandle::new(number);
        if triangulation
            .crossing(vertex(from), vertex(to), edge)
            .is_some()
        {
            count = count.saturating_add(1);
        }
    }
    count
}

/// Checks where a segment crosses constraints, which are those in its way.
fn check_row(triangulation: &mut ConstrainedTriangulation, row: Row) -> Result<(), Fail> {
    add_each(triangulation, row.marked)?;
    let (from, to) = row.segment;
    match triangulation.try_add_constraint(vertex(from), vertex(to)) {
        Err(ConstraintError::Blocked(edges)) => {
            let counts = [count(triangulation, row.segment), edges.len()];
            same(counts, [row.count, row.count], "edges in the way")?;
            for edge in &edges {
                check_place(triangulation, *edge, row)?;
            }
            Ok(())
        }
        _ => Err(Fail::new("nothing is in the way")),
    }
}

#[test]
fn segments_cross_constraints_at_places(rt: HostRuntime) -> Result<(), Fail> {
    for row in &ROWS {
        let mut triangulation = constrained(row.places, rt.alloc())?;
        check_row(&mut triangulation, *row)?;
    }
    Ok(())
}
