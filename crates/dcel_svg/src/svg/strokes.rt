//! Edges as thin lines, and half edges as arrows beside them, with their numbers.

use crate::frame::Frame;
use crate::marks::Marks;
use crate::svg::arrow::{Arrow, area_of};
use crate::svg::numbers::{At, Tenths};
use crate::svg::room::Room;
use dcel_drawn::{Line, Picture, Place, State, Stroke};
use std::alloc::Allocator;
use std::io::{self, Write};

/// Writes a line for each edge.
pub(crate) fn write_edges<B: Allocator>(
    picture: &Picture<B>,
    frame: &Frame,
    out: &mut impl Write,
) -> io::Result<()> {
    for stroke in picture.strokes.iter().step_by(2) {
        if let Some(line) = stroke.line() {
            let class = match stroke.state {
                State::Live => "edge",
                State::GivenUp => "edge gone",
            };
            write!(out, "<path class=\"{class}\" d=\"")?;
            write_line(frame.shown_line(line), out)?;
            writeln!(out, "\"/>")?;
        }
    }
    Ok(())
}

/// Writes a line from its start to its end.
pub(crate) fn write_line(line: Line, out: &mut impl Write) -> io::Result<()> {
    write!(out, "M{}", At(line.from))?;
    write_way(line, out)
}

/// Writes the way from where a line starts to its end.
pub(crate) fn write_way(line: Line, out: &mut impl Write) -> io::Result<()> {
    if let Some(bend) = line.bend {
        let (first, last) = (bend.turn(line.from), bend.turn(line.to));
        write!(out, "L{}Q{} {}", At(first), At(bend.tip), At(last))?;
    }
    write!(out, "L{}", At(line.to))
}

/// Writes an arrow and a number for each half edge.
pub(crate) fn write_strokes<B: Allocator>(
    picture: &Picture<B>,
    frame: &Frame,
    anchors: bool,
    marks: &Marks<B>,
    room: &mut Room<B>,
    out: &mut impl Write,
) -> io::Result<()> {
    for stroke in &picture.strokes {
        if let Some(line) = stroke.line() {
            let arrow = Arrow::beside(frame.shown_line(line));
            let place = arrow.place_of(stroke.number, stroke.state, room);
            room.take(area_of(place, stroke.number))?;
            let is_marked = marks.has_half_edge(stroke.number);
            write_stroke(stroke, is_marked, arrow, place, out)?;
            if anchors {
                write_anchors(stroke, arrow, out)?;
            }
        }
    }
    Ok(())
}

fn write_stroke(
    stroke: &Stroke,
    is_marked: bool,
    arrow: Arrow,
    place: Place,
    out: &mut impl Write,
) -> io::Result<()> {
    let (class, tip, number) = match stroke.state {
        State::Live => ("half", "tip", "number"),
        State::GivenUp => ("half gone", "tip-gone", "number over"),
    };
    let mark = if is_marked { " changed" } else { "" };
    write!(
        out,
        "<path class=\"{class}{mark}\" marker-end=\"url(#{tip})\" d=\""
    )?;
    write_line(arrow.line, out)?;
    writeln!(
        out,
        "\"/><text class=\"{number}\" x=\"{}\" y=\"{}\">{}</text>",
        Tenths(place.x),
        Tenths(3.6 - place.y),
        stroke.number
    )
}

/// Marks the half edge by a dot where it starts if it is the anchor of its vertex, and by a square
/// if it is the anchor of its face.
fn write_anchors(stroke: &Stroke, arrow: Arrow, out: &mut impl Write) -> io::Result<()> {
    let start = arrow.line.from;
    if stroke.anchors_vertex {
        writeln!(
            out,
            "<circle class=\"anchor\" cx=\"{}\" cy=\"{}\" r=\"3\"/>",
            Tenths(start.x),
            Tenths(-start.y)
        )?;
    }
    if stroke.anchors_face {
        let middle = start
            .plus(arrow.along.times(11.0))
            .plus(arrow.aside.times(2.0));
        writeln!(
            out,
            "<rect class=\"anchor\" x=\"{}\" y=\"{}\" width=\"6\" height=\"6\"/>",
            Tenths(middle.x - 3.0),
            Tenths(-3.0 - middle.y)
        )?;
    }
    Ok(())
}
