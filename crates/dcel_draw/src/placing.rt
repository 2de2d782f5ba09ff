//! Places of vertices, read from a file.

use crate::fault::{Fault, Wrong};
use dcel_programs::{numbered_lines, read_text};
use dcel_replay::Mesh;
use dcel_svg::{Place, Places};
use std::alloc::{AllocError, Global};
use std::rt::Files;

/// Reads the places of a mesh's vertices.
pub fn read_places(
    rt: &(impl Files + Input + AllocGlobal),
    path: &str,
    mesh: &Mesh,
) -> Result<Places, Fault> {
    let text = read_text(rt, Some(path))?;
    let mut places = no_places(rt.alloc(), mesh)?;
    for (line, said) in numbered_lines(&text) {
        set_place(&mut places.vertices, said).map_err(|wrong| Fault::of_line(
            rt.alloc(),
            path,
            line,
            wrong,
        ))?;
    }
    Ok(places)
}

fn no_places(alloc: Global, mesh: &Mesh) -> Result<Places, AllocError> {
    Ok(Places {
        vertices: vec![in alloc; None; mesh.num_vertices()]?,
        bends: Vec::new(alloc),
    })
}

/// Sets the place that a line says, if it says one.
fn set_place(places: &mut [Option<Place>], line: &str) -> Result<(), Wrong> {
    let mut items = line.split_ascii_whitespace();
    let Some(vertex) = items.next() else {
        return Ok(());
    };
    let vertex = vertex.parse::<usize>().map_err(|_| Wrong::NoPlace)?;
    let x = coordinate(items.next())?;
    let y = coordinate(items.next())?;
    if items.next().is_some() {
        return Err(Wrong::NoPlace);
    }
    let place = places.get_mut(vertex).ok_or(Wrong::NoSuchVertex)?;
    *place = Some(Place::new(x, y));
    Ok(())
}

fn coordinate(item: Option<&str>) -> Result<f64, Wrong> {
    let number = item
        .ok_or(Wrong::NoPlace)?
        .parse::<f64>()
        .map_err(|_| Wrong::NoCoordinate)?;
    if number.is_finite() {
        Ok(number)
    } else {
        Err(Wrong::NoCoordinate)
    }
}
