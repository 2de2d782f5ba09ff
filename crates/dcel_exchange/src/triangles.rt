//! The faces of a mesh as triangles.

ghost use Rattle.std.specs.Prelude.{◌≡◌, ◌≢◌, IfErr, IfOk, MatchOption, length, map};
ghost use Rattle.dcel_exchange.specs.FaceCorners.{AreCorners, corners_round};
ghost use Rattle.dcel_exchange.specs.Triangles.{MayNotList};
ghost use Rattle.dcel_maps.specs.Numbers.{numbers_between};
ghost use Rattle.dcel_maps.specs.Removals.{Closed};
ghost use Rattle.dcel_maps.specs.Shapes.{face_count};

use crate::corners::{CornerIterator, face_corners};
use spade_dcel::dcel::Dcel;
use spade_dcel::laws::every_mesh;
use std::alloc::Allocator;
use std::error::Error;
use std::fmt;

/// The reason why the faces of a mesh were not listed as triangles.
#[derive(Clone, Copy, PartialEq, Eq, Debug, Drop)]
pub enum TrianglesError {
    /// This inner face is not a triangle ([`is_triangle`](Dcel::is_triangle)), and each before it
    /// is one.
    NoTriangle(usize),
    /// Memory ran out. That can come even before such a face is found.
    OutOfMemory,
}

impl fmt::Display for TrianglesError {
    fn fmt<W: fmt::Write>(&self, f: &mut fmt::Formatter<W>) -> fmt::Result {
        match *self {
            TrianglesError::NoTriangle(face) => write!(f, "face {face} is not a triangle"),
            TrianglesError::OutOfMemory => write!(f, "out of memory"),
        }
    }
}

impl Error for TrianglesError {}

/// Returns the corners of each inner face as triangles, face 1 first, as
/// [`from_triangles`](crate::from_triangles) takes them.
///
/// Those of a face come counterclockwise, first where its anchor starts.
///
/// Asks that no removal is open ([`removal_state`](Dcel::removal_state) is `Closed`). It is refused
/// as [`TrianglesError`] says: if an inner face is not a triangle, or if memory runs out.
pub fn face_triangles<V, DE, UE, F, A: Allocator, B: Allocator>(
    alloc: B,
    dcel: &Dcel<V, DE, UE, F, A>,
) -> Result<Vec<[u32; 3], B>, TrianglesError>
    requires { dcel.now.shape.removal ≡ Closed }
    ensures triangles { IfOk result (λ triangles. triangles.items ≡ map (corners_round dcel.now) (numbers_between 1 (face_count dcel.now.shape))) }
    ensures turns { IfOk result (λ triangles. AreCorners dcel.now.shape triangles.items) }
    ensures why { IfErr result (MayNotList dcel.now.shape) }
{
    every_mesh(dcel);
    let mut triangles = Vec::new(alloc);
    for corners in face_corners(dcel) {
        let Some(triangle) = triangle_of(corners) else {
            return Err(TrianglesError::NoTriangle(triangles.len() + 1));
        };
        let Ok(()) = triangles.push(triangle) else {
            return Err(TrianglesError::OutOfMemory);
        };
    }
    Ok(triangles)
}

// Returns the corners of a face, if there are three.
fn triangle_of<V, DE, UE, F, A: Allocator>(
    corners: CornerIterator<'_, V, DE, UE, F, A>,
) -> Option<[u32; 3]>
    ensures { MatchOption result (length corners.entry ≢ 3) (λ triangle. (triangle ≡ corners.entry) × (length corners.entry ≡ 3)) }
{
    let mut corners = corners;
    let Some(first) = corners.next() else {
        return None;
    };
    let Some(second) = corners.next() else {
        return None;
    };
    let Some(third) = corners.next() else {
        return None;
    };
    match corners.next() {
        None => Some([first, second, third]),
        Some(_) => None,
    }
}
