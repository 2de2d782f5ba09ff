//! Constructing a mesh from a closed surface, one of whose faces becomes the outer one.

ghost use Rattle.std.specs.Prelude.{◌≡◌, ℕ, suc, ◌^◌, ◌<◌, ◌++◌, [], All, IfErr, IfOk, OnOk, length, map, slice_index_or};
ghost use Rattle.dcel_exchange.specs.Closed.{HasAllCorners, IsInRange, LeavesOf, MeansOf, place_in, told_in, without};
ghost use Rattle.dcel_exchange.specs.Corners.{corners_of};
ghost use Rattle.dcel_exchange.specs.Links.{lists_claim};
ghost use Rattle.dcel_exchange.specs.Meshes.{AreLinks, HasFaces};
ghost use Rattle.dcel_exchange.specs.Rounds.{GoesRound};
ghost use Rattle.dcel_exchange.specs.Simple.{IsSimple};
ghost use Rattle.dcel_maps.specs.Removals.{Closed};
ghost use Rattle.dcel_maps.specs.Shapes.{IsMesh};

use crate::faces::{from_face_links, link_faces};
use crate::lists::LinkLists;
use crate::refusal::{FacesError, RefusedFaces};
use crate::rounds::is_border;
use spade_dcel::dcel::Dcel;
use std::alloc::{AllocError, Allocator};
use std::error::Error;
use std::fmt;

/// The reason why the faces of a closed surface were refused.
#[derive(Clone, Copy, PartialEq, Eq, Debug, Drop)]
pub enum ClosedFacesError {
    /// No face of the list has the place that was named.
    NoFace,
    /// The border that the other faces leave is not the face that was named.
    ///
    /// That is so where the surface isn't closed, where the face is oriented the other way, and
    /// where it comes to a vertex twice.
    OtherBorder,
    /// The other faces are refused by [`from_faces`](crate::from_faces). Faces are given by their
    /// places in the whole list.
    Others(FacesError),
}

impl fmt::Display for ClosedFacesError {
    fn fmt<W: fmt::Write>(&self, f: &mut fmt::Formatter<W>) -> fmt::Result {
        match self {
            ClosedFacesError::NoFace => write!(
                f,
                "the list has no face at the place of the outer one"
            ),
            ClosedFacesError::OtherBorder => write!(
                f,
                "the border of the other faces is not the face that is to be the outer one"
            ),
            ClosedFacesError::Others(reason) => write!(f, "{reason}"),
        }
    }
}

impl Error for ClosedFacesError {}

/// Constructs a mesh from a closed surface, whose face at the place `outer` of the list becomes the
/// outer face.
///
/// Each face is the list of its corners, counterclockwise (positively oriented), as
/// [`from_faces`](crate::from_faces) takes them; the outer one too, seen from its own side. Each
/// edge belongs to two faces, and the surface is connected, of genus 0.
///
/// The outer face has number 0. The others keep their order, from number 1 on: a face before the
/// outer one has its place and one as its number, and a face behind it its place. The vertices keep
/// their numbers. The edges are numbered in the order of their first sides, face by face, without
/// the outer one. Data of edges and faces are defaults, and no removal is open.
///
/// Any lists may be given. If they are refused, the data of the vertices are returned with a reason
/// ([`ClosedFacesError`]). Then no mesh in which no two edges join the same two vertices has all
/// these faces, unless memory ran out or there are too many corners. After
/// [`BorderTwice`](FacesError::BorderTwice) such a mesh may have them, but its outer face passes
/// that vertex twice: another one can be named.
///
/// It takes the time of `from_faces`.
pub fn from_closed_faces<
    V: Drop,
    DE: Drop + Default,
    UE: Drop + Default,
    F: Drop + Default,
    A: Allocator + Clone,
    B: Allocator,
>(
    alloc: A,
    vertices: Vec<V, A>,
    faces: &[Vec<u32, B>],
    outer: usize,
) -> Result<Dcel<V, DE, UE, F, A>, RefusedFaces<Vec<V, A>, ClosedFacesError>>
    ensures faces { IfOk result (λ dcel. HasFaces dcel.shape (length vertices.items) (without outer (corners_of faces.now))) }
    ensures vertices { IfOk result (λ dcel. dcel.vertex_data ≡ vertices.items) }
    ensures half_data { IfOk result (λ dcel. All DE.is_default dcel.directed_data) }
    ensures edge_data { IfOk result (λ dcel. All UE.is_default dcel.undirected_data) }
    ensures face_data { IfOk result (λ dcel. All F.is_default dcel.face_data) }
    ensures closed { IfOk result (λ dcel. dcel.shape.removal ≡ Closed) }
    ensures mesh { IfOk result IsMesh }
    ensures corners { IfOk result (λ dcel. HasAllCorners dcel.shape (length vertices.items) (corners_of faces.now) outer) }
    ensures simple { IfOk result (λ dcel. IsSimple dcel.shape) }
    ensures reason { IfErr result (λ refused. MeansOf (length vertices.items) (corners_of faces.now) outer refused.reason) }
    ensures left { IfErr result (λ refused. LeavesOf V DE UE F (length vertices.items) (corners_of faces.now) outer refused.reason) }
    ensures back { IfErr result (λ refused. refused.back ≡ vertices) }
{
    let links = match link_closed(&alloc, vertices.len(), faces, outer) {
        Ok(links) => links,
        Err(reason) => {
            return Err(RefusedFaces {
                reason,
                back: vertices,
            });
        }
    };
    match from_face_links(alloc, vertices, &links, faces.len() - 1) {
        Ok(dcel) => Ok(dcel),
        Err(refused) => Err(RefusedFaces {
            reason: ClosedFacesError::Others(tell_in(outer, refused.reason)),
            back: refused.back,
        }),
    }
}

/// Lists the links of the faces, of which that at the place `outer` is the outer one.
fn link_closed<A: Allocator + Clone, B: Allocator>(
    alloc: &A,
    vertices: usize,
    faces: &[Vec<u32, B>],
    outer: usize,
) -> Result<LinkLists<A>, ClosedFacesError>
    ensures named { OnOk result (outer < length faces.now) }
    ensures links { IfOk result (λ links. AreLinks vertices (without outer (corners_of faces.now)) (lists_claim links vertices (length faces.now))) }
    ensures round { IfOk result (λ links. (start : ℕ) × GoesRound links start (slice_index_or (corners_of faces.now) outer [])) }
    ensures reason { IfErr result (MeansOf vertices (corners_of faces.now) outer) }
{
    if outer >= faces.len() {
        return Err(ClosedFacesError::NoFace);
    }
    let Ok(others) = list_others(alloc, faces, outer) else {
        return Err(ClosedFacesError::Others(FacesError::OutOfMemory));
    };
    match link_faces(alloc, vertices, &others) {
        Ok(links) => {
            if is_border(&links, &faces[outer]) {
                Ok(links)
            } else {
                Err(ClosedFacesError::OtherBorder)
            }
        }
        Err(reason) => Err(ClosedFacesError::Others(tell_in(outer, reason))),
    }
}

/// Lists the corners of each face but the outer one.
fn list_others<'a, A: Allocator + Clone, B: Allocator>(
    alloc: &A,
    faces: &'a [Vec<u32, B>],
    outer: usize,
) -> Result<Vec<&'a [u32], A>, AllocError>
    requires { outer < length faces.now }
    ensures { IfOk result (λ others. map (λ corners. corners.now) others.items ≡ without outer (corners_of faces.now)) }
{
    let mut others = Vec::with_capacity(alloc.clone()?, faces.len() - 1)?;
    add_faces(&mut others, &faces[..outer])?;
    add_faces(&mut others, &faces[outer + 1..])?;
    Ok(others)
}

/// Adds the corners of each of these faces.
fn add_faces<'a, A: Allocator, B: Allocator>(
    list: &mut Vec<&'a [u32], A>,
    faces: &'a [Vec<u32, B>],
) -> Result<(), AllocError>
    ensures { OnOk result (map (λ corners. corners.now) list.new.items ≡ map (λ corners. corners.now) list.old.items ++ corners_of faces.now) }
{
    for face in faces {
        list.push(face.as_slice())?;
    }
    Ok(())
}

/// Returns a reason that speaks of faces by their places in the list without the outer one as one
/// that speaks of them by those in the whole list.
fn tell_in(outer: usize, reason: FacesError) -> FacesError
    requires { IsInRange reason }
    ensures { result ≡ told_in outer reason }
{
    match reason {
        FacesError::FewCorners(face) => FacesError::FewCorners(place_of(outer, face)),
        FacesError::NoVertex(face, corner) => FacesError::NoVertex(number_of(outer, face), corner),
        FacesError::OneEnd(face, corner) => FacesError::OneEnd(number_of(outer, face), corner),
        FacesError::SideTwice(face, other, from, to) => {
            FacesError::SideTwice(number_of(outer, face), number_of(outer, other), from, to)
        }
        other => other,
    }
}

/// Returns the place in the whole list.
fn place_of(outer: usize, place: usize) -> usize
    requires { suc place < 2 ^ 64 }
    ensures { result ≡ place_in outer place }
{
    if place < outer { place } else { place + 1 }
}

/// Returns the place in the whole list, as reasons have it.
fn number_of(outer: usize, place: u32) -> u32
    requires { suc place < 2 ^ 32 }
    ensures { result ≡ place_in outer place }
{
    if (place as usize) < outer {
        place
    } else {
        place + 1
    }
}
