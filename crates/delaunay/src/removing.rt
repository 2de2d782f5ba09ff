//! Points removed.

use crate::drawn::{Drawn, Names};
use crate::fault::{Fault, Wrong};
use crate::quoting::Sentence;
use dcel_delaunay::Triangulation;
use dcel_output::Triangulated;
use spade_dcel::handles::FixedVertexHandle;
use std::alloc::{AllocError, Global};

/// Returns what is drawn once points are removed, and with them the vertices at which none is left.
pub fn without_removed(
    alloc: Global,
    inserted: Triangulated,
    is_removed: &[bool],
) -> Result<Drawn, Fault> {
    let mut triangulation = inserted.triangulation;
    let names = remove(alloc, &mut triangulation, &inserted.vertices, is_removed)?;
    Ok(Drawn {
        triangulation,
        names,
    })
}

/// Removes the vertices at which no point is left, and returns which points are.
fn remove(
    alloc: Global,
    triangulation: &mut Triangulation,
    vertices: &[FixedVertexHandle],
    is_removed: &[bool],
) -> Result<Names, Fault> {
    let count = triangulation.dcel().num_vertices();
    let mut numbers = least_left(alloc, vertices, is_removed, count)?;
    let least = least_of_each(alloc, vertices, &numbers)?;
    remove_bare(alloc, triangulation, &mut numbers)?;
    let numbers = all_of(alloc, &numbers)?;
    let vertices = vertices_of_points(alloc, triangulation, &numbers, &least)?;
    Ok(Names { numbers, vertices })
}

/// Returns the least number of a point that isn't to be removed, at each of so many vertices.
fn least_left(
    alloc: Global,
    vertices: &[FixedVertexHandle],
    is_removed: &[bool],
    count: usize,
) -> Result<Vec<Option<u32>>, AllocError> {
    let mut numbers = vec![in alloc; None; count]?;
    for (number, vertex) in vertices.iter().enumerate().rev() {
        if is_removed.get(number) == Some(&true) {
            continue;
        }
        if let Some(least) = numbers.get_mut(vertex.index()) {
            *least = u32::try_from(number).ok();
        }
    }
    Ok(numbers)
}

/// Returns for each point the number of its vertex.
fn least_of_each(
    alloc: Global,
    vertices: &[FixedVertexHandle],
    numbers: &[Option<u32>],
) -> Result<Vec<Option<u32>>, AllocError> {
    let mut least = Vec::with_capacity(alloc, vertices.len())?;
    for vertex in vertices {
        least.push(numbers.get(vertex.index()).copied().flatten())?;
    }
    Ok(least)
}

/// Removes the vertices without a number.
fn remove_bare(
    alloc: Global,
    triangulation: &mut Triangulation,
    numbers: &mut Vec<Option<u32>>,
) -> Result<(), Fault> {
    let bare = bare_vertices(alloc, triangulation, numbers)?;
    // The last vertex gets the number of one that is removed. From behind it is one that stays.
    for vertex in bare.iter().rev() {
        remove_vertex(triangulation, numbers, *vertex).map_err(|wrong| Fault::Input(wrong))?;
    }
    Ok(())
}

/// Returns the vertices without a number.
fn bare_vertices(
    alloc: Global,
    triangulation: &Triangulation,
    numbers: &[Option<u32>],
) -> Result<Vec<FixedVertexHandle>, AllocError> {
    let mut bare = Vec::new(alloc);
    for (vertex, number) in triangulation.dcel().vertices().zip(numbers) {
        if number.is_none() {
            bare.push(vertex.fix())?;
        }
    }
    Ok(bare)
}

/// Removes a vertex.
fn remove_vertex(
    triangulation: &mut Triangulation,
    numbers: &mut Vec<Option<u32>>,
    vertex: FixedVertexHandle,
) -> Result<(), Wrong> {
    let removed = triangulation.remove(vertex)?;
    let last = numbers.pop().flatten();
    if removed.moved.is_some() {
        if let Some(number) = numbers.get_mut(vertex.index()) {
            *number = last;
        }
    }
    Ok(())
}

/// Returns the numbers of all vertices, if each has one.
fn all_of(alloc: Global, numbers: &[Option<u32>]) -> Result<Vec<u32>, Fault> {
    let mut all = Vec::with_capacity(alloc, numbers.len())?;
    for number in numbers {
        let Some(number) = number else {
            return Err(Fault::Input(Wrong::Said(Sentence::NoPointThere)));
        };
        all.push(*number)?;
    }
    Ok(all)
}

/// Returns for each point the vertex of its number.
fn vertices_of_points(
    alloc: Global,
    triangulation: &Triangulation,
    numbers: &[u32],
    least: &[Option<u32>],
) -> Result<Vec<Option<FixedVertexHandle>>, AllocError> {
    let by_number = vertices_by_number(alloc, triangulation, numbers, least.len())?;
    let mut vertices = Vec::with_capacity(alloc, least.len())?;
    for number in least {
        vertices.push(number.and_then(|number| by_number.get(number as usize).copied().flatten()))?;
    }
    Ok(vertices)
}

/// Returns the vertex of each of so many numbers, if one has it.
fn vertices_by_number(
    alloc: Global,
    triangulation: &Triangulation,
    numbers: &[u32],
    count: usize,
) -> Result<Vec<Option<FixedVertexHandle>>, AllocError> {
    let mut vertices = vec![in alloc; None; count]?;
    for (vertex, number) in triangulation.dcel().vertices().zip(numbers) {
        if let Some(place) = vertices.get_mut(*number as usize) {
            *place = Some(vertex.fix());
        }
    }
    Ok(vertices)
}
