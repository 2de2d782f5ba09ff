//! Vertices, as circles with their numbers, or as dots.

use crate::frame::Frame;
use crate::marks::Marks;
use crate::svg::numbers::Tenths;
use dcel_drawn::{Dot, Picture, Place, State};
use std::alloc::Allocator;
use std::io::{self, Write};

/// How large a vertex is.
pub(crate) const RADIUS: f64 = 12.0;

/// Up to how many dots are numbered.
pub(crate) const NUMBERED: usize = 50;

/// Writes all vertices as circles with their numbers: those without a place in rows below the others.
pub(crate) fn write_circles<B: Allocator>(
    picture: &Picture<B>,
    frame: &Frame,
    marks: &Marks<B>,
    out: &mut impl Write,
) -> io::Result<()> {
    let mut aside = 0usize;
    for dot in &picture.dots {
        let place = place_of(*dot, frame, &mut aside);
        write_circle(*dot, marks.has_vertex(dot.number), place, out)?;
    }
    Ok(())
}

/// Writes all vertices as dots of a radius, and, if they are few, their numbers `beside` them.
pub(crate) fn write_dots<B: Allocator>(
    picture: &Picture<B>,
    frame: &Frame,
    radius: f64,
    beside: Place,
    out: &mut impl Write,
) -> io::Result<()> {
    let mut aside = 0usize;
    for dot in &picture.dots {
        write_dot(place_of(*dot, frame, &mut aside), radius, out)?;
    }
    if picture.dots.len() > NUMBERED {
        return Ok(());
    }
    aside = 0;
    for dot in &picture.dots {
        let place = place_of(*dot, frame, &mut aside);
        write_number(dot.number, place.plus(beside), out)?;
    }
    Ok(())
}

/// Returns where a vertex is shown. One without a place is the next of those at the side.
fn place_of(dot: Dot, frame: &Frame, aside: &mut usize) -> Place {
    match dot.place {
        Some(place) => frame.shown(place),
        None => {
            let place = frame.aside(*aside);
            *aside = aside.saturating_add(1);
            place
        }
    }
}

fn write_circle(dot: Dot, is_marked: bool, place: Place, out: &mut impl Write) -> io::Result<()> {
    let class = match dot.state {
        State::Live => "vertex",
        State::GivenUp => "vertex gone",
    };
    let mark = if is_marked { " changed" } else { "" };
    writeln!(
        out,
        "<circle class=\"{class}{mark}\" cx=\"{}\" cy=\"{}\" r=\"{}\"/><text class=\"name\" x=\"{}\" y=\"{}\">{}</text>",
        Tenths(place.x),
        Tenths(-place.y),
        Tenths(RADIUS),
        Tenths(place.x),
        Tenths(4.3 - place.y),
        dot.number
    )
}

fn write_dot(place: Place, radius: f64, out: &mut impl Write) -> io::Result<()> {
    writeln!(
        out,
        "<circle class=\"dot\" cx=\"{}\" cy=\"{}\" r=\"{}\"/>",
        Tenths(place.x),
        Tenths(-place.y),
        Tenths(radius)
    )
}

/// Writes the number of a dot, which starts at a place.
fn write_number(number: usize, place: Place, out: &mut impl Write) -> io::Result<()> {
    writeln!(
        out,
        "<text class=\"number\" x=\"{}\" y=\"{}\">{number}</text>",
        Tenths(place.x),
        Tenths(-place.y)
    )
}
