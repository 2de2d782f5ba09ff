//! The elements of a binary file, number after number.

use crate::bytes::{ByteReader, Number, NumberType};
use crate::fault::Wrong;
use crate::ply::header::{Element, Kind, Property, Purpose};
use crate::shortest::read_coordinate;
use crate::surface::{BEHIND_COORDINATES, BEHIND_CORNERS, OTHER_ELEMENT, Surface};
use std::alloc::Global;

/// Reads all elements, the last of the list first, and adds to a surface what they say.
pub fn read_elements(
    alloc: Global,
    reader: &mut ByteReader,
    elements: &[Element],
    surface: &mut Surface,
) -> Result<(), Wrong> {
    for element in elements.iter().rev() {
        read_all(alloc, reader, element, surface)?;
    }
    if reader.pass(1).is_some() {
        return Err(Wrong::MORE_LINES);
    }
    Ok(())
}

/// Reads all elements of a kind.
fn read_all(
    alloc: Global,
    reader: &mut ByteReader,
    element: &Element,
    surface: &mut Surface,
) -> Result<(), Wrong> {
    if element.properties.is_empty() {
        return Ok(());
    }
    for _ in 0..element.count {
        match element.kind {
            Kind::Vertex => read_vertex(alloc, reader, &element.properties, surface)?,
            Kind::Face => read_face(alloc, reader, &element.properties, surface)?,
            Kind::Other => read_other(reader, &element.properties, surface)?,
        }
    }
    Ok(())
}

/// Reads a vertex. Three of its properties are read.
fn read_vertex(
    alloc: Global,
    reader: &mut ByteReader,
    properties: &[Property],
    surface: &mut Surface,
) -> Result<(), Wrong> {
    let byte = reader.place();
    let mut coordinates = [Number::Whole(0); 3];
    for property in properties {
        read_of_vertex(reader, property, &mut coordinates)?;
    }
    surface.add_numbers(alloc, byte, &coordinates)?;
    if properties.len() > 3 {
        surface.left_out.note(BEHIND_COORDINATES)?;
    }
    Ok(())
}

/// Reads a property of a vertex.
fn read_of_vertex(
    reader: &mut ByteReader,
    property: &Property,
    coordinates: &mut [Number; 3],
) -> Result<(), Wrong> {
    let axis = match property.purpose {
        Purpose::X => 0,
        Purpose::Y => 1,
        Purpose::Z => 2,
        _ => return pass_property(reader, property),
    };
    coordinates[axis] = read_coordinate(reader, property.number)?;
    Ok(())
}

/// Reads a face. One of its properties is read.
fn read_face(
    alloc: Global,
    reader: &mut ByteReader,
    properties: &[Property],
    surface: &mut Surface,
) -> Result<(), Wrong> {
    let byte = reader.place();
    let mut corners = Vec::new(alloc);
    read_of_face(reader, properties, &mut corners)?;
    surface.add_face(byte, corners)?;
    if properties.len() > 1 {
        surface.left_out.note(BEHIND_CORNERS)?;
    }
    Ok(())
}

/// Reads the properties of a face.
fn read_of_face(
    reader: &mut ByteReader,
    properties: &[Property],
    corners: &mut Vec<u32>,
) -> Result<(), Wrong> {
    for property in properties {
        if property.purpose == Purpose::Corners {
            read_corners(reader, property, corners)?;
        } else {
            pass_property(reader, property)?;
        }
    }
    Ok(())
}

/// Reads a list of corners: how many there are, and these.
fn read_corners(
    reader: &mut ByteReader,
    property: &Property,
    corners: &mut Vec<u32>,
) -> Result<(), Wrong> {
    for _ in 0..reader.read_whole(property.length)? {
        corners.push(reader.read_whole(property.number)?)?;
    }
    Ok(())
}

/// Passes an element that is no vertex and no face.
fn read_other(
    reader: &mut ByteReader,
    properties: &[Property],
    surface: &mut Surface,
) -> Result<(), Wrong> {
    for property in properties {
        pass_property(reader, property)?;
    }
    surface.left_out.note(OTHER_ELEMENT)?;
    Ok(())
}

/// Passes a property: a number, or a list, which begins with its length.
fn pass_property(reader: &mut ByteReader, property: &Property) -> Result<(), Wrong> {
    let count = if property.is_list {
        reader.read_whole(property.length)? as usize
    } else {
        1
    };
    match reader.pass(count.saturating_mul(property.number.size())) {
        Some(_) => Ok(()),
        None => Err(Wrong::FEWER_LINES),
    }
}
