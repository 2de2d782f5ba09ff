//! Faces, as areas.

use crate::frame::Frame;
use crate::svg::colors::colors_of;
use crate::svg::numbers::{At, Tenths};
use crate::svg::strokes::write_way;
use dcel_drawn::{Patch, Picture, State};
use std::alloc::Allocator;
use std::io::{self, Write};

/// Writes the whole page as an area.
pub(crate) fn write_page(frame: &Frame, out: &mut impl Write) -> io::Result<()> {
    let (corner, size) = (frame.corner(), frame.size());
    writeln!(
        out,
        "<rect class=\"page\" x=\"{}\" y=\"{}\" width=\"{}\" height=\"{}\"/>",
        Tenths(corner.x),
        Tenths(-corner.y),
        Tenths(size.x),
        Tenths(size.y)
    )
}

/// Writes the outer face, which is the whole page, and over it the areas of inner faces.
pub(crate) fn write_live_patches<B: Allocator + Copy>(
    picture: &Picture<B>,
    frame: &Frame,
    out: &mut impl Write,
) -> io::Result<()> {
    write_page(frame, out)?;
    let colors = colors_of(picture)?;
    for (patch, color) in picture.patches.iter().zip(&colors).skip(1) {
        if patch.state == State::Live && !patch.outline.is_empty() {
            write!(out, "<path class=\"c{color}\" d=\"")?;
            write_round(patch, frame, out)?;
            writeln!(out, "z\"/>")?;
        }
    }
    Ok(())
}

/// Writes the areas of faces that are given up.
pub(crate) fn write_given_up_patches<B: Allocator>(
    picture: &Picture<B>,
    frame: &Frame,
    out: &mut impl Write,
) -> io::Result<()> {
    for patch in &picture.patches {
        if patch.state == State::GivenUp && !patch.outline.is_empty() {
            write!(out, "<path class=\"hatch\" d=\"")?;
            write_round(patch, frame, out)?;
            writeln!(out, "z\"/>")?;
        }
    }
    Ok(())
}

/// Writes the way round a face.
pub(crate) fn write_round<B: Allocator>(
    patch: &Patch<B>,
    frame: &Frame,
    out: &mut impl Write,
) -> io::Result<()> {
    if let Some(first) = patch.outline.first() {
        write!(out, "M{}", At(frame.shown(first.from)))?;
    }
    for line in &patch.outline {
        write_way(frame.shown_line(*line), out)?;
    }
    Ok(())
}
