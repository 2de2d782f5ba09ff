//! A reader of the Voronoi diagram of a mesh.

use crate::refining::fine_triangle;
use spade_dcel::dcel::Dcel;
use spade_dcel::handles::{FixedFaceHandle, InnerTag, VoronoiFace};
use std::alloc::{AllocError, Global};
use std::io;

/// The corners of a face of the Voronoi diagram.
#[derive(Drop)]
struct Corners {
    /// The inner faces of the mesh that they are dual to, in their order round the face.
    faces: Vec<FixedFaceHandle<InnerTag>>,

    /// Whether an edge of it comes from the outer face.
    is_open: bool,
}

fn corners_of<V, DE, UE, F>(
    face: VoronoiFace<'_, V, DE, UE, F>,
    alloc: Global,
) -> Result<Corners, AllocError> {
    let mut faces = Vec::new(alloc);
    let mut is_open = false;
    for edge in face.adjacent_edges() {
        match edge.from().as_delaunay_face() {
            Some(corner) => faces.push(corner.fix())?,
            None => is_open = true,
        }
    }
    Ok(Corners { faces, is_open })
}

/// Shows the corners of each face of the diagram.
pub fn show(rt: &impl Print, alloc: Global) -> io::Result<()> {
    let dcel = fine_triangle(alloc)?;
    show_faces(rt, &dcel, alloc)
}

fn show_faces(rt: &impl Print, dcel: &Dcel<&'static str>, alloc: Global) -> io::Result<()> {
    for vertex in dcel.live_vertices() {
        print!(rt; "corners round {} {}:", vertex.index(), vertex.data())?;
        show_corners(rt, vertex.as_voronoi_face(), alloc)?;
    }
    Ok(())
}

fn show_corners<V>(
    rt: &impl Print,
    face: VoronoiFace<'_, V, (), (), ()>,
    alloc: Global,
) -> io::Result<()> {
    let corners = corners_of(face, alloc)?;
    for corner in &corners.faces {
        print!(rt; " {}", corner.index())?;
    }
    println!(rt; "{}", if corners.is_open { ", open" } else { "" })
}
