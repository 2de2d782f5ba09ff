//! Pictures in the style of edges: what is inside as an area, edges as lines, vertices as dots. The
//! more vertices there are, the smaller are dots and the thinner are lines.

use crate::frame::Frame;
use crate::svg::dots::write_dots;
use crate::svg::numbers::Tenths;
use crate::svg::patches::{write_page, write_round};
use crate::svg::strokes::write_line;
use dcel_drawn::{Line, Patch, Picture, Place, State, Stroke};
use std::alloc::Allocator;
use std::io::{self, Write};
use std::num::nearest_usize_to_f64;

/// How large dots are, at most and at least.
const LARGEST: f64 = 4.0;

const SMALLEST: f64 = 0.4;

/// How large they are where there is no area, so that one sees them alone.
const LARGEST_ALONE: f64 = 6.0;

const SMALLEST_ALONE: f64 = 2.0;

/// How high a digit is.
const DIGIT: f64 = 9.0;

/// How wide a line is, and how wide a border is, where dots are largest.
const WIDTHS: (f64, f64) = (1.2, 3.0);

const STYLE: &str = "\
<style>
.page { fill: #ffffff; }
.inside { fill: #e4ecf6; }
.edge { stroke: #6b7a8f; fill: none; }
.line { stroke: #6b7a8f; fill: none; stroke-dasharray: 6 4; }
.border { stroke: #b3541e; fill: none; stroke-linecap: round; }
.dot { fill: #1b2a41; }
.number { fill: #1b2a41; font: 12px sans-serif; stroke: #ffffff; stroke-opacity: .8; stroke-width: 2; stroke-linejoin: round; paint-order: stroke; }
</style>
";

/// How an edge is drawn.
#[derive(Clone, Copy, PartialEq, Eq)]
enum Look {
    /// The outer face is on neither side.
    Edge,
    /// It is on both.
    Line,
    /// It is on one.
    Border,
}

impl Look {
    /// Returns the look of an edge by its halves.
    fn of(half: &Stroke, other: &Stroke) -> Look {
        match (half.face == Some(0), other.face == Some(0)) {
            (false, false) => Look::Edge,
            (true, true) => Look::Line,
            _ => Look::Border,
        }
    }

    /// Returns the class that has its color.
    fn class(self) -> &'static str {
        match self {
            Look::Edge => "edge",
            Look::Line => "line",
            Look::Border => "border",
        }
    }

    /// Returns how wide it is where dots are largest.
    fn width(self) -> f64 {
        match self {
            Look::Edge | Look::Line => WIDTHS.0,
            Look::Border => WIDTHS.1,
        }
    }
}

/// Writes all of a picture.
pub(crate) fn write_plain<B: Allocator>(
    picture: &Picture<B>,
    frame: &Frame,
    out: &mut impl Write,
) -> io::Result<()> {
    write!(out, "{STYLE}")?;
    write_page(frame, out)?;
    let (radius, thinner) = sizes(picture);
    write_area(picture, frame, out)?;
    for look in [Look::Edge, Look::Line, Look::Border] {
        write_lines(picture, frame, look, look.width() * thinner, out)?;
    }
    write_dots(
        picture,
        frame,
        radius,
        way_to_number(picture, radius + 1.0),
        out,
    )
}

/// Returns how large dots are, and how wide lines are as a part of their widths.
fn sizes<B: Allocator>(picture: &Picture<B>) -> (f64, f64) {
    let count: f64 = nearest_usize_to_f64(picture.dots.len());
    if has_area(picture) {
        let radius = (54.0 / count.sqrt()).min(LARGEST).max(SMALLEST);
        (radius, (radius / LARGEST).sqrt())
    } else {
        let radius = (300.0 / count).min(LARGEST_ALONE).max(SMALLEST_ALONE);
        (radius, 1.0)
    }
}

/// Returns the way from a dot to its number, which stands so far to the right of it: upwards, but
/// downwards if there is only a line that leads up.
fn way_to_number<B: Allocator>(picture: &Picture<B>, right: f64) -> Place {
    let up = if !has_area(picture) && leads_up(picture) {
        -right - DIGIT
    } else {
        right
    };
    Place::new(right, up)
}

/// Returns whether the first edge that is drawn leads up to the right, or down to the left.
fn leads_up<B: Allocator>(picture: &Picture<B>) -> bool {
    for stroke in &picture.strokes {
        if let Some(line) = stroke.line() {
            let way = line.to.minus(line.from);
            return way.x * way.y > 0.0;
        }
    }
    false
}

/// Returns whether an inner face is an area.
fn is_area<B: Allocator>(patch: &Patch<B>) -> bool {
    patch.number > 0 && patch.state == State::Live && !patch.outline.is_empty()
}

/// Returns whether there is an area.
fn has_area<B: Allocator>(picture: &Picture<B>) -> bool {
    picture.patches.iter().any(|patch| is_area(patch))
}

/// Writes the areas of all inner faces as one, which has no seams.
fn write_area<B: Allocator>(
    picture: &Picture<B>,
    frame: &Frame,
    out: &mut impl Write,
) -> io::Result<()> {
    if !has_area(picture) {
        return Ok(());
    }
    writeln!(out, "<path class=\"inside\" d=\"")?;
    for patch in &picture.patches {
        if is_area(patch) {
            write_round(patch, frame, out)?;
            writeln!(out, "z")?;
        }
    }
    writeln!(out, "\"/>")
}

/// Writes all edges of a look.
fn write_lines<B: Allocator>(
    picture: &Picture<B>,
    frame: &Frame,
    look: Look,
    width: f64,
    out: &mut impl Write,
) -> io::Result<()> {
    let mut is_begun = false;
    for halves in picture.strokes.chunks(2) {
        if let Some(line) = line_of(halves, look) {
            if !is_begun {
                let (class, width) = (look.class(), Tenths(width));
                writeln!(out, "<path class=\"{class}\" stroke-width=\"{width}\" d=\"")?;
                is_begun = true;
            }
            write_line(frame.shown_line(line), out)?;
            writeln!(out)?;
        }
    }
    if is_begun {
        writeln!(out, "\"/>")?;
    }
    Ok(())
}

/// Returns the line of an edge by its halves, if it has this look.
fn line_of(halves: &[Stroke], look: Look) -> Option<Line> {
    match halves {
        [half, other] if Look::of(half, other) == look => half.line(),
        _ => None,
    }
}
