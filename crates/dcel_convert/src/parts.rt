//! The connected parts of a surface, each as a surface of its own.

use crate::fault::{Fault, of_part};
use crate::meshing::{Solid, fault_of, is_of_whole};
use crate::stats::{list_sides, number_parts};
use crate::surface::Surface;
use dcel_exchange::{FacesError, from_faces};
use spade_dcel::dcel::Dcel;
use std::alloc::{AllocError, Global};

/// What is left out where parts are written.
pub const ALONE: &str = "a vertex without a face";

/// Refuses faces that are wrong in any part, with their numbers in the file.
pub fn check_faces(alloc: Global, surface: &Surface) -> Result<(), Fault> {
    let vertices = surface.places.len();
    match reason_of(alloc, surface)? {
        Some(reason) if reason != FacesError::Closed && !is_of_whole(reason) => {
            Err(fault_of(alloc, reason, vertices, surface))
        }
        _ => Ok(()),
    }
}

/// Returns why the faces are no mesh, if they are none.
fn reason_of(alloc: Global, surface: &Surface) -> Result<Option<FacesError>, AllocError> {
    let vertices = vec![in alloc; (); surface.places.len()]?;
    let made: Result<Dcel<(), (), (), ()>, _> = from_faces(alloc, vertices, &surface.faces);
    match made {
        Ok(_) => Ok(None),
        Err(refused) => Ok(Some(refused.reason)),
    }
}

/// Makes a surface of each part, in the order of their least vertices, and returns how many
/// vertices are in none.
pub fn split(
    alloc: Global,
    surface: &Surface,
    parts: &mut Vec<Surface>,
) -> Result<usize, AllocError> {
    let mut part_of = vec![in alloc; None; surface.places.len()]?;
    let (used, count) = number_all(alloc, surface, &mut part_of)?;
    for _ in 0..count {
        parts.push(Surface::like(alloc, surface))?;
    }
    fill(alloc, surface, &part_of, parts)?;
    Ok(surface.places.len().saturating_sub(used))
}

/// Adds the vertices and faces to their parts.
fn fill(
    alloc: Global,
    surface: &Surface,
    part_of: &[Option<usize>],
    parts: &mut [Surface],
) -> Result<(), AllocError> {
    let mut numbers = Vec::new(alloc);
    add_vertices(alloc, surface, part_of, parts, &mut numbers)?;
    add_faces(alloc, surface, part_of, parts, &numbers)
}

/// Notes the part of each vertex, and counts the vertices in parts, and these.
fn number_all(
    alloc: Global,
    surface: &Surface,
    part_of: &mut [Option<usize>],
) -> Result<(usize, usize), AllocError> {
    let mut sides = Vec::new(alloc);
    list_sides(&surface.faces, &mut sides)?;
    sides.sort()?;
    number_parts(alloc, &sides, part_of)
}

/// Adds the vertices to their parts, and lists their numbers there.
fn add_vertices(
    alloc: Global,
    surface: &Surface,
    part_of: &[Option<usize>],
    parts: &mut [Surface],
    numbers: &mut Vec<u32>,
) -> Result<(), AllocError> {
    for (vertex, part) in part_of.iter().enumerate() {
        let mut number = 0;
        if let Some(part) = part {
            if let Some(part) = parts.get_mut(*part) {
                number = add_vertex(alloc, surface, vertex, part)?;
            }
        }
        numbers.push(number)?;
    }
    Ok(())
}

/// Adds a vertex of a surface to a part, and returns its number there.
fn add_vertex(
    alloc: Global,
    surface: &Surface,
    vertex: usize,
    part: &mut Surface,
) -> Result<u32, AllocError> {
    let number = u32::try_from(part.places.len()).unwrap_or(u32::MAX);
    let line = surface.vertex_lines.get(vertex).copied().unwrap_or(0);
    if let Some(place) = surface.places.get(vertex) {
        let place = String::from_str(alloc, place.as_str())?;
        part.add_place(line, place)?;
    }
    Ok(number)
}

/// Adds the faces to their parts, which are those of their first corners.
fn add_faces(
    alloc: Global,
    surface: &Surface,
    part_of: &[Option<usize>],
    parts: &mut [Surface],
    numbers: &[u32],
) -> Result<(), AllocError> {
    for (corners, line) in surface.faces.iter().zip(&surface.lines) {
        if let Some(part) = part_at(corners, part_of, parts) {
            add_face(alloc, *line, corners, numbers, part)?;
        }
    }
    Ok(())
}

/// Returns the part that the first corner is in.
fn part_at<'a>(
    corners: &[u32],
    part_of: &[Option<usize>],
    parts: &'a mut [Surface],
) -> Option<&'a mut Surface> {
    let first = *corners.first()?;
    let part = (*part_of.get(first as usize)?)?;
    parts.get_mut(part)
}

/// Adds a face to a part, with the numbers that its corners have there.
fn add_face(
    alloc: Global,
    line: usize,
    corners: &[u32],
    numbers: &[u32],
    part: &mut Surface,
) -> Result<(), AllocError> {
    let mut renumbered = Vec::new(alloc);
    for corner in corners {
        let number = numbers.get(*corner as usize).copied().unwrap_or(0);
        renumbered.push(number)?;
    }
    part.add_face(line, renumbered)
}

/// Makes the meshes of all parts. They lose their places.
pub fn make_all(
    alloc: Global,
    parts: &mut [Surface],
    solids: &mut Vec<Solid>,
) -> Result<(), Fault> {
    for (number, part) in parts.iter_mut().enumerate() {
        make(alloc, number, part, solids)?;
    }
    mark_all(alloc, parts, solids)?;
    Ok(())
}

/// Makes the mesh of a part.
fn make(
    alloc: Global,
    number: usize,
    part: &mut Surface,
    solids: &mut Vec<Solid>,
) -> Result<(), Fault> {
    match Solid::of(alloc, part) {
        Ok(solid) => {
            push(solids, solid)?;
            Ok(())
        }
        Err(fault) => Err(of_part(number, fault)),
    }
}

fn push(solids: &mut Vec<Solid>, solid: Solid) -> Result<(), AllocError> {
    solids.push(solid)?;
    Ok(())
}

/// Notes at each face where the list of its part begins.
fn mark_all(alloc: Global, parts: &[Surface], solids: &mut [Solid]) -> Result<(), AllocError> {
    for (solid, part) in solids.iter_mut().zip(parts) {
        solid.mark(alloc, &part.faces)?;
    }
    Ok(())
}

/// Returns the name of the file for a part: that of this file, with a hyphen and the part's number
/// before the last point.
pub fn name_of(alloc: Global, file: &str, part: usize) -> Result<String, AllocError> {
    match file.rsplit_once('.') {
        Some((stem, ending)) if !ending.contains('/') => {
            format!(in alloc; "{stem}-{part}.{ending}")
        }
        _ => format!(in alloc; "{file}-{part}"),
    }
}
