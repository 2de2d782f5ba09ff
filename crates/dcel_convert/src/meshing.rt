//! The mesh of a file, and its lists of corners and of half edges.

ghost use Rattle.std.specs.Prelude.{◌≡◌, ◌+◌, MatchOption};
ghost use Rattle.dcel_maps.specs.Shapes.{face_count};

use crate::fault::{Fault, Wrong, at_all};
use crate::stats::Stats;
use crate::surface::Surface;
use dcel_exchange::{ClosedFacesError, FacesError, from_closed_faces, from_faces};
use spade_dcel::dcel::Dcel;
use spade_dcel::handles::{FaceHandle, FixedFaceHandle, PossiblyOuterTag, VertexHandle};
use spade_dcel::operations::LinksFault;
use std::alloc::{AllocError, Global};
use std::mem;

/// A mesh whose vertices have their coordinates as text, and whose faces have the number of steps
/// from their least half edge to the corner that the file lists first.
pub type Mesh = Dcel<String, (), (), usize>;

/// A face of the mesh.
pub type Face<'a> = FaceHandle<'a, PossiblyOuterTag, String, (), (), usize>;

/// A vertex of the mesh.
pub type Vertex<'a> = VertexHandle<'a, String, (), (), usize>;

/// A mesh, and which face of the file is its outer face.
#[derive(Drop)]
pub struct Solid {
    /// The mesh.
    pub mesh: Mesh,
    /// The place of the outer face among those of the file. There is none where the outer face is
    /// the border.
    pub outer: Option<usize>,
}

impl Solid {
    /// Makes the mesh of a surface, which loses its places. A surface without a border lends the
    /// first face that comes to no vertex twice as the outer one.
    pub fn of(alloc: Global, surface: &mut Surface) -> Result<Solid, Fault> {
        let places = mem::replace(&mut surface.places, Vec::new(alloc));
        match from_faces(alloc, places, &surface.faces) {
            Ok(mesh) => Ok(Solid { mesh, outer: None }),
            Err(refused) if refused.reason == FacesError::Closed => {
                Solid::closed(alloc, refused.back, surface)
            }
            Err(refused) => Err(fault_of(alloc, refused.reason, refused.back.len(), surface)),
        }
    }

    /// Makes the mesh of a surface without a border.
    fn closed(alloc: Global, places: Vec<String>, surface: &Surface) -> Result<Solid, Fault> {
        let outer = match simple_face(alloc, &surface.faces) {
            Ok(Some(outer)) => outer,
            Ok(None) => return Err(at_all(Wrong::NO_BORDER)),
            Err(error) => return Err(Fault::OutOfMemory(error)),
        };
        match from_closed_faces(alloc, places, &surface.faces, outer) {
            Ok(mesh) => Ok(Solid {
                mesh,
                outer: Some(outer),
            }),
            Err(refused) => match refused.reason {
                ClosedFacesError::Others(reason) => {
                    Err(fault_of(alloc, reason, refused.back.len(), surface))
                }
                _ => Err(at_all(Wrong::NO_BORDER)),
            },
        }
    }

    /// Notes at each face where the list of the file begins.
    pub fn mark(&mut self, alloc: Global, faces: &[Vec<u32>]) -> Result<(), AllocError> {
        let mut corners = Vec::new(alloc);
        for (place, listed) in faces.iter().enumerate() {
            mark(
                &mut self.mesh,
                number_at(self.outer, place),
                listed,
                &mut corners,
            )?;
        }
        Ok(())
    }
}

impl Solid {
    /// Counts the edges that have the outer face on both sides.
    pub fn num_edges_outside(&self) -> usize {
        let mut count: usize = 0;
        for edge in self.mesh.live_undirected_edges() {
            let half = edge.as_directed();
            if half.face().is_outer() && half.rev().face().is_outer() {
                count = count.saturating_add(1);
            }
        }
        count
    }

    /// Counts the faces of the surface: those of the mesh, but for the outer one where that is the
    /// border.
    pub fn num_faces(&self) -> usize
        ensures { MatchOption self.now.outer (result + 1 ≡ face_count self.now.mesh.shape) (λ place. result ≡ face_count self.now.mesh.shape) }
    {
        match self.outer {
            Some(_) => self.mesh.num_faces(),
            None => self.mesh.num_faces() - 1,
        }
    }

    /// Returns the face that has this place in the file, if there is one.
    pub fn face(&self, place: usize) -> Option<Face<'_>> {
        let number = number_at(self.outer, place);
        if number < self.mesh.num_faces() {
            self.mesh
                .get_face(FixedFaceHandle::<PossiblyOuterTag>::new(number))
        } else {
            None
        }
    }
}

/// Returns the number of the face that has this place in the file, where the outer face has that one.
fn number_at(outer: Option<usize>, place: usize) -> usize {
    match outer {
        Some(outer) if place == outer => 0,
        Some(outer) if place > outer => place,
        _ => place.saturating_add(1),
    }
}

/// Lists the corners of a face, from the one on that the file lists first.
pub fn list_corners(face: Face<'_>, corners: &mut Vec<usize>) -> Result<(), AllocError> {
    corners.clear();
    let (mut before, mut least) = (0, usize::MAX);
    for edge in face.directed_edges() {
        if edge.index() < least {
            (before, least) = (corners.len(), edge.index());
        }
        corners.push(edge.from().index())?;
    }
    rotate(corners, before);
    rotate(corners, *face.data());
    Ok(())
}

/// Lists the half edges round a face by `next`, from the least on.
pub fn list_word(face: Face<'_>, halves: &mut Vec<usize>) -> Result<(), AllocError> {
    halves.clear();
    for edge in face.directed_edges() {
        halves.push(edge.index())?;
    }
    begin_with_least(halves);
    Ok(())
}

/// Lists the half edges out of a vertex by `ccw`, from the least on.
pub fn list_turn(vertex: Vertex<'_>, halves: &mut Vec<usize>) -> Result<(), AllocError> {
    halves.clear();
    for edge in vertex.out_edges() {
        halves.push(edge.index())?;
    }
    begin_with_least(halves);
    Ok(())
}

/// Rotates half edges so that the least is first.
fn begin_with_least(halves: &mut Vec<usize>) {
    let (mut before, mut least) = (0, usize::MAX);
    for (place, half) in halves.iter().enumerate() {
        if *half < least {
            (before, least) = (place, *half);
        }
    }
    rotate(halves, before);
}

/// Rotates a list so that so many of its first items come last.
fn rotate(list: &mut Vec<usize>, before: usize) {
    if before <= list.len() {
        list.rotate_left(before);
    }
}

/// Notes at a face where the list of the file begins.
fn mark(
    mesh: &mut Mesh,
    number: usize,
    listed: &[u32],
    corners: &mut Vec<usize>,
) -> Result<(), AllocError> {
    if number >= mesh.num_faces() {
        return Ok(());
    }
    let face = FixedFaceHandle::<PossiblyOuterTag>::new(number);
    if let Some(face) = mesh.get_face(face) {
        list_corners(face, corners)?;
    }
    *mesh.face_data_mut(face) = steps_to(listed, corners);
    Ok(())
}

/// Returns after how many of the corners the list begins, if it is all of them in their cyclic
/// order.
fn steps_to(listed: &[u32], corners: &[usize]) -> usize {
    for steps in 0..corners.len() {
        if begins_after(steps, listed, corners) {
            return steps;
        }
    }
    0
}

fn begins_after(steps: usize, listed: &[u32], corners: &[usize]) -> bool {
    for (place, corner) in listed.iter().enumerate() {
        let place = steps.saturating_add(place);
        let found = match corners.get(place) {
            Some(found) => Some(found),
            None => corners.get(place.saturating_sub(corners.len())),
        };
        if found != Some(&(*corner as usize)) {
            return false;
        }
    }
    true
}

/// Returns the place of the first face that comes to no vertex twice.
fn simple_face(alloc: Global, faces: &[Vec<u32>]) -> Result<Option<usize>, AllocError> {
    for (place, corners) in faces.iter().enumerate() {
        if is_simple(alloc, corners)? {
            return Ok(Some(place));
        }
    }
    Ok(None)
}

/// Returns whether no two of the corners are one vertex.
pub fn is_simple<T: Copy + Ord + Drop>(alloc: Global, corners: &[T]) -> Result<bool, AllocError> {
    let mut sorted = Vec::new(alloc);
    sorted.extend_from_slice(corners)?;
    sorted.sort()?;
    Ok(repeated(&sorted).is_none())
}

/// Returns the first item of a list that follows an equal one.
pub fn repeated<T: Copy + Ord>(list: &[T]) -> Option<T> {
    let mut last = None;
    for item in list {
        if last == Some(*item) {
            return last;
        }
        last = Some(*item);
    }
    None
}

/// Returns the reason, with the place of the face that it names, if it names one. If the surface as
/// a whole is none that is taken, tells what it is.
pub fn fault_of(alloc: Global, reason: FacesError, vertices: usize, surface: &Surface) -> Fault {
    let face = match reason {
        FacesError::FewCorners(face) => face,
        FacesError::NoVertex(face, _) | FacesError::OneEnd(face, _) => face as usize,
        FacesError::SideTwice(_, face, _, _) => face as usize,
        _ if is_of_whole(reason) => return fault_of_whole(alloc, vertices, &surface.faces),
        _ => return at_all(Wrong::Faces(reason)),
    };
    surface.at_face(face, Wrong::Faces(reason))
}

/// Returns whether only the surface as a whole has a fault: its parts may be meshes.
pub fn is_of_whole(reason: FacesError) -> bool {
    match reason {
        FacesError::Borders
        | FacesError::NotConnected(_)
        | FacesError::Links(LinksFault::NotSphere(_)) => true,
        _ => false,
    }
}

/// Tells what a surface as a whole is.
fn fault_of_whole(alloc: Global, vertices: usize, faces: &[Vec<u32>]) -> Fault {
    match Stats::of_faces(alloc, vertices, faces) {
        Ok(stats) => at_all(Wrong::Surface(stats)),
        Err(error) => Fault::OutOfMemory(error),
    }
}
