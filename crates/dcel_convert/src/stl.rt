//! Files of stereolithography, STL: triangles, each with the coordinates of its corners.

mod binary;
mod text;

use crate::fault::Wrong;
use crate::surface::Surface;
pub use binary::{count_of, read_binary, wrong_length};
use std::alloc::Global;
pub use text::StlReader;

/// What is left out of each triangle: its corners say it.
pub const NORMAL: &str = "a triangle's normal";

/// Returns whether a file begins as one of text does, and has no byte that text has not.
pub fn is_text(bytes: &[u8]) -> bool {
    if bytes.contains(&0) {
        return false;
    }
    let unmarked = bytes.strip_prefix("\u{feff}".as_bytes()).unwrap_or(bytes);
    match unmarked.trim_ascii_start().get(..5) {
        Some(first) => first.eq_ignore_ascii_case(b"solid"),
        None => false,
    }
}

/// Adds a triangle of this line or byte, if its corners differ.
pub fn add_triangle(
    alloc: Global,
    line: usize,
    corners: [u32; 3],
    surface: &mut Surface,
) -> Result<(), Wrong> {
    let [a, b, c] = corners;
    if a == b || b == c || c == a {
        let place = surface.faces.len();
        return Err(Wrong::Degenerate(place));
    }
    let face = vec![in alloc; a, b, c]?;
    surface.add_face(line, face)?;
    surface.left_out.note(NORMAL)?;
    Ok(())
}
