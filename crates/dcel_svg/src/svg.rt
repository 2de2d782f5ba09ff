//! Pictures as SVG.

mod arrow;
mod colors;
pub(crate) mod dots;
pub(crate) mod labels;
mod numbers;
mod patches;
mod plain;
mod room;
mod strokes;

use crate::frame::Frame;
use crate::marks::Marks;
use crate::svg::dots::write_circles;
use crate::svg::labels::write_labels;
use crate::svg::numbers::{At, Tenths};
use crate::svg::patches::{write_given_up_patches, write_live_patches};
use crate::svg::plain::write_plain;
use crate::svg::room::Room;
use crate::svg::strokes::{write_edges, write_strokes};
use dcel_drawn::Picture;
use std::alloc::Allocator;
use std::io::{self, Write};

/// What a picture shows.
#[derive(Clone, Copy, PartialEq, Eq, Debug)]
pub enum Style {
    /// Half edges, faces and vertices, all with their numbers.
    HalfEdges {
        /// Whether the anchors of vertices and faces are marked.
        anchors: bool,
    },
    /// Inner faces as one area, edges, and vertices, with their numbers if they are few. Edges are
    /// wider with the outer face on one side, and dashed with it on both. Where vertices are many
    /// they are small, and edges thin; without inner faces vertices are larger.
    Edges,
}

const STYLE: &str = "\
<style>
text { font-family: 'DejaVu Sans', Verdana, sans-serif; text-anchor: middle; }
.page { fill: #eceae4; }
.edge { stroke: #8b8b8b; stroke-width: 1; fill: none; }
.half { stroke: #222222; stroke-width: 1.1; fill: none; }
.number { font-size: 10px; fill: #222222; }
.vertex { fill: #ffffff; stroke: #222222; stroke-width: 1.4; }
.name { font-size: 12px; font-weight: bold; fill: #222222; }
.face { font-size: 13px; font-weight: bold; fill: #0b4f8a; }
.gone { stroke-dasharray: 5 4; stroke: #a23b3b; fill: none; }
.vertex.gone { fill: #ffffff; }
.over { fill: #a23b3b; }
.hatch { fill: url(#hatch); stroke: none; }
.anchor { fill: #222222; stroke: none; }
.c0 { fill: #fbe3c0; } .c1 { fill: #cfe8d5; } .c2 { fill: #d6dcf5; } .c3 { fill: #f6d3d6; }
.c4 { fill: #d3eef2; } .c5 { fill: #f3f0bd; } .c6 { fill: #e6d5ee; }
</style>
<defs>
<marker id=\"tip\" viewBox=\"0 0 8 6\" refX=\"7\" refY=\"3\" markerWidth=\"8\" markerHeight=\"6\" orient=\"auto\"><path d=\"M0 0L8 3L0 6z\" fill=\"#222222\"/></marker>
<marker id=\"tip-gone\" viewBox=\"0 0 8 6\" refX=\"7\" refY=\"3\" markerWidth=\"8\" markerHeight=\"6\" orient=\"auto\"><path d=\"M0 0L8 3L0 6z\" fill=\"#a23b3b\"/></marker>
<pattern id=\"hatch\" width=\"8\" height=\"8\" patternUnits=\"userSpaceOnUse\" patternTransform=\"rotate(45)\"><path d=\"M0 0V8\" stroke=\"#c98b8b\" stroke-width=\"1\"/></pattern>
</defs>
";

/// What is marked.
const STYLE_OF_MARKS: &str = "\
<style>
.changed { stroke: #1f5fd6; stroke-width: 1.6; }
</style>
";

/// Writes a picture as an SVG document.
///
/// In the style of half edges each is an arrow beside its edge, on the side of its face, with its number; faces are
/// areas with their numbers after an F, and the outer face, F0, is all around them. What an open
/// removal has given up is dashed and hatched. Vertices without a place stand below. Opened alone in
/// a browser, the document is no larger than its window.
///
/// Fails if a write fails or memory runs out; a part may be written by then.
pub fn write_svg<B: Allocator + Copy>(
    picture: &Picture<B>,
    style: Style,
    out: &mut impl Write,
) -> io::Result<()> {
    let marks = Marks::none(*picture.strokes.allocator());
    write_marked_svg(picture, &Frame::around(picture, style), &marks, out)
}

/// Does the same in a frame that other pictures may share, and marks half edges and vertices in the
/// style of half edges. A picture that the frame wasn't made for may leave the page.
pub fn write_marked_svg<B: Allocator + Copy>(
    picture: &Picture<B>,
    frame: &Frame,
    marks: &Marks<B>,
    out: &mut impl Write,
) -> io::Result<()> {
    let (corner, size) = (frame.corner(), frame.size());
    writeln!(
        out,
        "<svg xmlns=\"http://www.w3.org/2000/svg\" viewBox=\"{} {} {}\" width=\"{}\" height=\"{}\" style=\"max-width: 100%; max-height: 100%\">",
        At(corner),
        Tenths(size.x),
        Tenths(size.y),
        Tenths(size.x),
        Tenths(size.y)
    )?;
    match frame.style {
        Style::HalfEdges { anchors } => write_half_edges(picture, frame, anchors, marks, out)?,
        Style::Edges => write_plain(picture, frame, out)?,
    }
    writeln!(out, "</svg>")
}

/// Writes all of a picture in the style of half edges.
fn write_half_edges<B: Allocator + Copy>(
    picture: &Picture<B>,
    frame: &Frame,
    anchors: bool,
    marks: &Marks<B>,
    out: &mut impl Write,
) -> io::Result<()> {
    write!(out, "{STYLE}")?;
    if !marks.is_empty() {
        write!(out, "{STYLE_OF_MARKS}")?;
    }
    write_live_patches(picture, frame, out)?;
    write_given_up_patches(picture, frame, out)?;
    write_edges(picture, frame, out)?;
    let mut room = Room::around(picture, frame)?;
    write_strokes(picture, frame, anchors, marks, &mut room, out)?;
    write_labels(picture, frame, &mut room, out)?;
    write_circles(picture, frame, marks, out)
}
