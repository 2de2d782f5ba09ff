//! The Voronoi diagram, which has a corner for each triangle and an edge for each edge.

ghost use Rattle.std.specs.Prelude.{◌<◌, ◌≤◌, ◌^◌, unsigned_abs};

use crate::fraction::Fraction;
use crate::view::View;
use dcel_predicates::{Point, Wide, circumcenter};
use std::io::{self, Write};

/// Writes the corner of each triangle, and then what belongs to each edge.
pub fn write_voronoi<UE>(writer: &mut impl Write, view: &View<'_, UE>) -> io::Result<()> {
    let Some(divisor) = view.unit.divisor() else {
        return Err(io::Error::other(
            "a Voronoi diagram isn't written on a grid whose step is above 1",
        ));
    };
    write_corners(writer, view, divisor)?;
    write_edges(writer, view, divisor)
}

/// Writes the center of the circle through the corners of each triangle.
fn write_corners<UE>(writer: &mut impl Write, view: &View<'_, UE>, divisor: u128) -> io::Result<()>
    requires some { 0 < divisor }
    requires bound { divisor ≤ 2 ^ 96 }
{
    for triangle in view.mesh.live_inner_faces() {
        let [a, b, c] = triangle.vertices().map(|corner| *corner.data());
        let center = circumcenter(a, b, c);
        // The corners of a triangle aren't on one line, so the weight isn't 0.
        let weight = center.weight.unsigned_abs().max(1);
        let x = Fraction::new(center.x, weight, divisor);
        let y = Fraction::new(center.y, weight, divisor);
        writeln!(writer, "corner {x} {y}")?;
    }
    Ok(())
}

/// Writes for each edge the one between the corners beside it, a ray out of the only one, or a line
/// if there is none.
fn write_edges<UE>(writer: &mut impl Write, view: &View<'_, UE>, divisor: u128) -> io::Result<()>
    requires some { 0 < divisor }
    requires bound { divisor ≤ 2 ^ 96 }
{
    for edge in view.mesh.live_undirected_edges() {
        let half = edge.as_directed();
        let sides = [half.face().index(), half.rev().face().index()];
        let across = Across {
            from: *half.from().data(),
            to: *half.to().data(),
            divisor,
        };
        // The outer face is the first of the mesh.
        match sides.map(|side| side.checked_sub(1)) {
            [Some(left), Some(right)] => writeln!(writer, "edge {left} {right}")?,
            [Some(left), None] => across.write_ray(writer, left)?,
            [None, Some(right)] => across.reversed().write_ray(writer, right)?,
            [None, None] => across.write_line(writer)?,
        }
    }
    Ok(())
}

/// What is across an edge, whose coordinates are to be divided.
#[derive(Clone, Copy)]
struct Across {
    from: Point,
    to: Point,
    divisor: u128,
    ghost some: { 0 < divisor },
    ghost bound: { divisor ≤ 2 ^ 96 },
}

impl Across {
    /// Returns the same, as seen the other way.
    fn reversed(self) -> Self {
        Across {
            from: self.to,
            to: self.from,
            divisor: self.divisor,
        }
    }

    /// Writes the ray out of the corner on the left across the edge.
    fn write_ray(self, writer: &mut impl Write, corner: usize) -> io::Result<()> {
        let [x, y] = self.rightwards();
        writeln!(writer, "ray {corner} {x} {y}")
    }

    /// Writes the line through the middle of the edge across it.
    fn write_line(self, writer: &mut impl Write) -> io::Result<()> {
        let x = self.fraction(self.from.x + self.to.x, 2);
        let y = self.fraction(self.from.y + self.to.y, 2);
        let [right, up] = self.rightwards();
        writeln!(writer, "line {x} {y} {right} {up}")
    }

    /// Returns the direction to the right of the edge, as long as it is.
    fn rightwards(self) -> [Fraction; 2] {
        [
            self.fraction(self.to.y - self.from.y, 1),
            self.fraction(self.from.x - self.to.x, 1),
        ]
    }

    /// Returns a number divided by a weight and the divisor.
    fn fraction(self, number: i64, weight: u128) -> Fraction
        requires number { unsigned_abs number ≤ 2 ^ 54 }
        requires some { 0 < weight }
        requires weight { weight ≤ 2 }
    {
        Fraction::new(Wide::product(number as i128, 1), weight, self.divisor)
    }
}
