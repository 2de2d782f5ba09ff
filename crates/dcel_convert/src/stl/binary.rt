//! Binary files of STL: 80 bytes of any kind, a count, and 50 bytes for each triangle.

use crate::bytes::{ByteReader, Number, NumberType, Order};
use crate::fault::Wrong;
use crate::joining::{Corner, Joiner};
use crate::shortest::read_coordinate;
use crate::stl::add_triangle;
use crate::surface::{BEHIND_CORNERS, Surface};
use std::alloc::Global;
use std::num::f32_to_bits_with_nan;

/// How many bytes a file has before its count.
const HEAD: usize = 80;

/// Returns the count of triangles, if the file has one and is as long as it says.
pub fn count_of(bytes: &[u8]) -> Option<u32> {
    let count = said_count(bytes)?;
    if bytes.len() as u64 == length_of(count) {
        Some(count)
    } else {
        None
    }
}

/// Returns what is wrong with the length of a file, and at which byte.
pub fn wrong_length(bytes: &[u8]) -> (usize, Wrong) {
    let length = bytes.len();
    let Some(count) = said_count(bytes) else {
        return (length, Wrong::NO_STL);
    };
    (HEAD, Wrong::StlLength(count, length_of(count), length))
}

/// Returns the count of triangles, if the file is long enough for one.
fn said_count(bytes: &[u8]) -> Option<u32> {
    let mut reader = ByteReader::new(bytes, Order::Little, 0);
    reader.pass(HEAD)?;
    reader.read_whole(NumberType::U32).ok()
}

/// Returns how many bytes a file with so many triangles has.
fn length_of(count: u32) -> u64 {
    u64::from(count) * 50 + 84
}

/// Reads so many triangles, or returns what is wrong with one, and at which byte.
pub fn read_binary(
    alloc: Global,
    bytes: &[u8],
    count: u32,
    surface: &mut Surface,
) -> Result<(), (usize, Wrong)> {
    let mut reader = ByteReader::new(bytes, Order::Little, 0);
    let mut joiner = Joiner::new(alloc);
    match read_triangles(alloc, &mut reader, count, &mut joiner, surface) {
        Ok(()) => Ok(()),
        Err(wrong) => Err((reader.last_place(), wrong)),
    }
}

fn read_triangles(
    alloc: Global,
    reader: &mut ByteReader,
    count: u32,
    joiner: &mut Joiner,
    surface: &mut Surface,
) -> Result<(), Wrong> {
    pass(reader, HEAD + 4)?;
    for _ in 0..count {
        read_triangle(alloc, reader, joiner, surface)?;
    }
    Ok(())
}

/// Reads a triangle: a normal, three corners, and two bytes that mean what a program likes.
fn read_triangle(
    alloc: Global,
    reader: &mut ByteReader,
    joiner: &mut Joiner,
    surface: &mut Surface,
) -> Result<(), Wrong> {
    let byte = reader.place();
    pass(reader, 12)?;
    let corners = read_corners(alloc, reader, joiner, surface)?;
    if reader.read_whole(NumberType::U16)? != 0 {
        surface.left_out.note(BEHIND_CORNERS)?;
    }
    reader.name(byte);
    add_triangle(alloc, byte, corners, surface)
}

/// Reads the corners of a triangle, and returns the numbers of their vertices.
fn read_corners(
    alloc: Global,
    reader: &mut ByteReader,
    joiner: &mut Joiner,
    surface: &mut Surface,
) -> Result<[u32; 3], Wrong> {
    let a = read_corner(alloc, reader, joiner, surface)?;
    let b = read_corner(alloc, reader, joiner, surface)?;
    let c = read_corner(alloc, reader, joiner, surface)?;
    Ok([a, b, c])
}

fn pass(reader: &mut ByteReader, count: usize) -> Result<(), Wrong> {
    match reader.pass(count) {
        Some(_) => Ok(()),
        None => Err(Wrong::FEWER_LINES),
    }
}

/// Reads a corner, and returns the number of its vertex, which the surface has then.
fn read_corner(
    alloc: Global,
    reader: &mut ByteReader,
    joiner: &mut Joiner,
    surface: &mut Surface,
) -> Result<u32, Wrong> {
    let byte = reader.place();
    let x = read_coordinate(reader, NumberType::F32)?;
    let y = read_coordinate(reader, NumberType::F32)?;
    let z = read_coordinate(reader, NumberType::F32)?;
    let corner = Corner::new(bits_of(x), bits_of(y), bits_of(z));
    let (vertex, is_new) = joiner.number_of(corner)?;
    if is_new {
        surface.add_numbers(alloc, byte, &[x, y, z])?;
    }
    Ok(vertex)
}

/// Returns the bits of an `f32`, where the two zeros are one.
fn bits_of(number: Number) -> u64 {
    match number {
        Number::Single(number) if number != 0.0 => u64::from(f32_to_bits_with_nan(number)),
        _ => 0,
    }
}
