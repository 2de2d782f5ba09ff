//! The corners of each face, and the faces as lists of corners.

ghost use Rattle.std.specs.Prelude.{◌≡◌, IfOk, map};
ghost use Rattle.std.specs.Iterator.{YieldsFirst, item_count};
ghost use Rattle.dcel_exchange.specs.Corners.{corners_of};
ghost use Rattle.dcel_exchange.specs.FaceCorners.{AreCorners, corners_round};
ghost use Rattle.dcel_maps.specs.Numbers.{numbers_between};
ghost use Rattle.dcel_maps.specs.Removals.{Closed};
ghost use Rattle.dcel_maps.specs.Shapes.{IsLive, face_count, origin_of};
ghost use Rattle.spade_dcel.specs.Handles.{mesh_behind, number_of};

use spade_dcel::dcel::Dcel;
use spade_dcel::handles::{DirectedEdgeHandle, FaceHandle, InnerTag};
use spade_dcel::iterators::{CircularIterator, HullNextBackFn, LiveInnerFaceIterator};
use spade_dcel::laws::every_mesh;
use std::alloc::{AllocError, Allocator, Global};
use std::marker::Model;

/// The corners of a face, by number, counterclockwise.
///
/// The first is where the face's anchor starts. A vertex that the face passes twice comes twice. It
/// does not allocate. Contracts see the corners still to come.
#[derive(Drop)]
pub struct CornerIterator<'a, V, DE, UE, F, A: Allocator = Global> {
    edges: CircularIterator<'a, V, DE, UE, F, HullNextBackFn, A>,
}

impl<'a, V, DE, UE, F, A: Allocator> Model for CornerIterator<'a, V, DE, UE, F, A> {
    ghost use Rattle.std.specs.Prelude.{List, map, ℕ};
    ghost use Rattle.dcel_maps.specs.Shapes.{origin_of};

    ghost Value = { List ℕ };

    ghost view = { λ corners. map (λ edge. origin_of edge.0.shape edge.1) corners.edges.items };
}

impl<'a, V, DE, UE, F, A: Allocator> Iterator for CornerIterator<'a, V, DE, UE, F, A> {
    type Item = u32;

    ghost next_gives = { YieldsFirst (λ corners. corners) };

    ghost remaining = { item_count (λ corners. corners) };

    #[inline]
    fn next(&mut self) -> Option<u32> {
        match self.edges.next() {
            Some(edge) => Some(origin_number(edge)),
            None => None,
        }
    }
}

// Returns the number of the vertex that a live half edge starts at.
#[inline]
fn origin_number<V, DE, UE, F, A: Allocator>(edge: DirectedEdgeHandle<'_, V, DE, UE, F, A>) -> u32
    requires { IsLive (mesh_behind edge).shape (number_of edge) }
    ensures { result ≡ origin_of (mesh_behind edge.entry).shape (number_of edge.entry) }
{
    edge.from().fix().index() as u32
}

/// The corners of each inner face of a mesh, in the order of the faces' numbers.
///
/// It does not allocate. Contracts see the lists of corners still to come.
#[derive(Drop)]
pub struct FaceIterator<'a, V, DE, UE, F, A: Allocator = Global> {
    faces: LiveInnerFaceIterator<'a, V, DE, UE, F, A>,
}

impl<'a, V, DE, UE, F, A: Allocator> Model for FaceIterator<'a, V, DE, UE, F, A> {
    ghost use Rattle.std.specs.Prelude.{List, map, ℕ};
    ghost use Rattle.dcel_exchange.specs.FaceCorners.{corners_round};

    ghost Value = { List (List ℕ) };

    ghost view = { λ inner. map (λ face. corners_round face.0 face.1) inner.faces };
}

impl<'a, V, DE, UE, F, A: Allocator> Iterator for FaceIterator<'a, V, DE, UE, F, A> {
    type Item = CornerIterator<'a, V, DE, UE, F, A>;

    ghost next_gives = { YieldsFirst (λ faces. faces) };

    ghost remaining = { item_count (λ faces. faces) };

    #[inline]
    fn next(&mut self) -> Option<CornerIterator<'a, V, DE, UE, F, A>> {
        match self.faces.next() {
            Some(face) => Some(corners_from_anchor(face)),
            None => None,
        }
    }
}

// Returns the corners of a face, from its anchor on.
#[inline]
fn corners_from_anchor<'a, V, DE, UE, F, A: Allocator>(
    face: FaceHandle<'a, InnerTag, V, DE, UE, F, A>,
) -> CornerIterator<'a, V, DE, UE, F, A>
    ensures { result ≡ corners_round (mesh_behind face.entry) (number_of face.entry) }
{
    CornerIterator {
        edges: face.directed_edges(),
    }
}

/// Returns the corners of each inner face, face 1 first.
///
/// Asks that no removal is open ([`removal_state`](Dcel::removal_state) is `Closed`): then there
/// is an item for each face but the outer one.
#[inline]
pub fn face_corners<V, DE, UE, F, A: Allocator>(
    dcel: &Dcel<V, DE, UE, F, A>,
) -> FaceIterator<'_, V, DE, UE, F, A>
    requires { dcel.now.shape.removal ≡ Closed }
    ensures { result ≡ map (corners_round dcel.now) (numbers_between 1 (face_count dcel.now.shape)) }
{
    FaceIterator {
        faces: dcel.live_inner_faces(),
    }
}

/// Returns the corners of each inner face as lists, as [`from_faces`](crate::from_faces) takes
/// them.
///
/// Asks that no removal is open ([`removal_state`](Dcel::removal_state) is `Closed`). If memory
/// runs out it returns `AllocError`.
pub fn face_lists<V, DE, UE, F, A: Allocator, B: Allocator + Clone>(
    alloc: B,
    dcel: &Dcel<V, DE, UE, F, A>,
) -> Result<Vec<Vec<u32, B>, B>, AllocError>
    requires { dcel.now.shape.removal ≡ Closed }
    ensures lists { IfOk result (λ lists. corners_of lists.items ≡ map (corners_round dcel.now) (numbers_between 1 (face_count dcel.now.shape))) }
    ensures turns { IfOk result (λ lists. AreCorners dcel.now.shape (corners_of lists.items)) }
{
    every_mesh(dcel);
    let mut lists = Vec::new(alloc.clone()?);
    for corners in face_corners(dcel) {
        lists.push(list_corners(alloc.clone()?, corners)?)?;
    }
    Ok(lists)
}

/// Lists the corners of a face.
fn list_corners<V, DE, UE, F, A: Allocator, B: Allocator>(
    alloc: B,
    corners: CornerIterator<'_, V, DE, UE, F, A>,
) -> Result<Vec<u32, B>, AllocError>
    ensures { IfOk result (λ list. list.items ≡ corners.entry) }
{
    let mut list = Vec::new(alloc);
    for corner in corners {
        list.push(corner)?;
    }
    Ok(list)
}
