//! A mesh made finer.

use crate::editing::{put_into, triangle};
use spade_dcel::dcel::Dcel;
use spade_dcel::handles::{FixedFaceHandle, FixedUndirectedEdgeHandle, InnerTag};
use spade_dcel::operations::flip_cw;
use std::alloc::{AllocError, Global};
use std::io;

/// Puts a vertex into each inner triangle, and then flips the edges between those triangles.
///
/// If memory or numbers run out, the mesh is finer as far as that.
pub fn refine<V: Copy + Drop>(
    dcel: &mut Dcel<V>,
    datum: V,
    alloc: Global,
) -> Result<(), AllocError> {
    let edges = inner_edges(dcel, alloc)?;
    put_into_each(dcel, datum, alloc)?;
    for &edge in &edges {
        if dcel.can_flip(edge) {
            flip_cw(dcel, edge);
        }
    }
    Ok(())
}

fn put_into_each<V: Copy + Drop>(
    dcel: &mut Dcel<V>,
    datum: V,
    alloc: Global,
) -> Result<(), AllocError> {
    for &face in inner_faces(dcel, alloc)?.iter() {
        put_into(dcel, datum, face)?;
    }
    Ok(())
}

fn inner_faces<V>(
    dcel: &Dcel<V>,
    alloc: Global,
) -> Result<Vec<FixedFaceHandle<InnerTag>>, AllocError> {
    let mut faces = Vec::new(alloc);
    for face in dcel.live_inner_faces() {
        faces.push(face.fix())?;
    }
    Ok(faces)
}

/// Returns the edges that have an inner face on both sides.
fn inner_edges<V>(
    dcel: &Dcel<V>,
    alloc: Global,
) -> Result<Vec<FixedUndirectedEdgeHandle>, AllocError> {
    let mut edges = Vec::new(alloc);
    for edge in dcel.live_undirected_edges() {
        if !edge.is_part_of_convex_hull() {
            edges.push(edge.fix())?;
        }
    }
    Ok(edges)
}

/// Returns a triangle made finer twice: of a, b and c, with a d in the middle of three e.
pub fn fine_triangle(alloc: Global) -> Result<Dcel<&'static str>, AllocError> {
    let mut dcel = triangle(alloc)?;
    refine_twice(&mut dcel, alloc)?;
    Ok(dcel)
}

fn refine_twice(dcel: &mut Dcel<&'static str>, alloc: Global) -> Result<(), AllocError> {
    refine(dcel, "d", alloc)?;
    refine(dcel, "e", alloc)
}

/// Shows how large a triangle made finer twice is.
pub fn show(rt: &impl Print, alloc: Global) -> io::Result<()> {
    let dcel = fine_triangle(alloc)?;
    show_counts(rt, &dcel)
}

fn show_counts<V>(rt: &impl Print, dcel: &Dcel<V>) -> io::Result<()> {
    println!(rt;
        "finer: {} vertices, {} edges, {} faces, sound: {}",
        dcel.num_vertices(),
        dcel.num_undirected_edges(),
        dcel.num_faces(),
        dcel.sanity_check()
    )
}
