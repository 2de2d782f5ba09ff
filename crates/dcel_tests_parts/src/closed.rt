//! Closed surfaces that are refused, and one that isn't.

use crate::meshes::{Faces, vectors_of};
use dcel_bench::checks::same;
use dcel_exchange::ClosedFacesError::{self, NoFace, OtherBorder, Others};
use dcel_exchange::{FacesError, from_closed_faces};
use dcel_regions::Mark;
use spade_dcel::dcel::Dcel;
use spade_dcel::operations::LinksFault;
use std::alloc::Global;
use std::test::Fail;

/// Faces, the place of the one that is to be the outer face, and why they are refused, if they are.
/// They have vertices 0 to 6.
type Row = (Faces, usize, Option<ClosedFacesError>);

const TETRAHEDRON: Faces = &[&[0, 2, 1], &[0, 1, 3], &[1, 2, 3], &[2, 0, 3]];

/// Seven vertices, of which each two are neighbors.
const TORUS: Faces = &[
    &[0, 1, 3],
    &[1, 2, 4],
    &[2, 3, 5],
    &[3, 4, 6],
    &[4, 5, 0],
    &[5, 6, 1],
    &[6, 0, 2],
    &[0, 3, 2],
    &[1, 4, 3],
    &[2, 5, 4],
    &[3, 6, 5],
    &[4, 0, 6],
    &[5, 1, 0],
    &[6, 2, 1],
];

const FIGURE_OF_EIGHT: Faces = &[&[0, 2, 1], &[0, 4, 3], &[0, 1, 2, 0, 3, 4]];

const ROWS: [Row; 15] = [
    (TETRAHEDRON, 4, Some(NoFace)),
    (&[], 0, Some(NoFace)),
    (
        TORUS,
        13,
        Some(Others(FacesError::Links(LinksFault::NotSphere(1)))),
    ),
    // Two spheres.
    (
        &[&[0, 1, 2], &[0, 2, 1], &[3, 4, 5], &[3, 5, 4]],
        1,
        Some(Others(FacesError::NotConnected(6))),
    ),
    // Three sides of a tetrahedron.
    (&[&[0, 2, 1], &[0, 1, 3], &[1, 2, 3]], 0, Some(OtherBorder)),
    // One oriented the other way.
    (
        &[&[0, 1, 2], &[0, 1, 3], &[1, 2, 3], &[2, 0, 3]],
        0,
        Some(OtherBorder),
    ),
    // One that goes round twice.
    (&[&[0, 1, 2], &[0, 2, 1, 0, 2, 1]], 1, Some(OtherBorder)),
    // One whose corner is no vertex.
    (&[&[0, 1, 2], &[0, 2, 7]], 1, Some(OtherBorder)),
    // The others leave no border.
    (&[&[0, 1, 2], &[0, 2, 1], &[0, 1, 2]], 2, Some(OtherBorder)),
    // Behind the outer face, and before it.
    (
        &[&[0, 1, 2], &[3, 4, 5], &[0, 2]],
        1,
        Some(Others(FacesError::FewCorners(2))),
    ),
    (
        &[&[0, 1, 2], &[3, 4, 5], &[0, 1, 1, 2]],
        1,
        Some(Others(FacesError::OneEnd(2, 1))),
    ),
    (
        &[&[0, 1, 7], &[0, 2, 1]],
        1,
        Some(Others(FacesError::NoVertex(0, 7))),
    ),
    (
        &[&[0, 1, 2], &[3, 4, 5], &[0, 1, 3]],
        1,
        Some(Others(FacesError::SideTwice(0, 2, 0, 1))),
    ),
    // Two triangles meet at vertex 0, and the third face goes round both. It is no outer face, and
    // another one is.
    (FIGURE_OF_EIGHT, 0, None),
    (FIGURE_OF_EIGHT, 2, Some(Others(FacesError::BorderTwice(0)))),
];

/// Returns why faces are refused.
fn reason_of(
    faces: &[Vec<u32>],
    outer: usize,
    alloc: Global,
) -> Result<Option<ClosedFacesError>, Fail> {
    let vertices = vec![in alloc; 0; 7]?;
    let made: Result<Dcel<i64, (), Mark, ()>, _> = from_closed_faces(alloc, vertices, faces, outer);
    Ok(made.err().map(|refused| refused.reason))
}

fn check_row(row: &Row, alloc: Global) -> Result<(), Fail> {
    let (faces, outer, reason) = *row;
    let faces = vectors_of(faces, alloc)?;
    same(
        reason_of(&faces, outer, alloc)?,
        reason,
        "why faces are refused",
    )
}

#[test]
fn other_surfaces_are_refused(rt: HostRuntime) -> Result<(), Fail> {
    for row in &ROWS {
        check_row(row, rt.alloc())?;
    }
    Ok(())
}
