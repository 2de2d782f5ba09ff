//! Angles and areas of triangles, in floating point.

use crate::counts::Count;
use crate::unit::Unit;
use crate::view::View;
use dcel_delaunay::Point;
use std::fmt;
use std::io::{self, Write};
use std::num::{nearest_i64_to_f64, nearest_u64_to_f64, saturating_f64_to_usize};

/// How many degrees a class of angles is wide.
const WIDTH: usize = 10;

/// How many classes there are.
const CLASSES: usize = 18;

/// What is measured of triangles.
#[derive(Clone, Copy)]
struct Measures {
    least_angle: f64,
    most_angle: f64,
    least_area: f64,
    most_area: f64,
    /// How many angles are in each class.
    classes: [usize; CLASSES],
}

/// Writes the smallest and the largest angle and area of the triangles that are shown, and how many
/// angles there are in each class of ten degrees.
pub fn write_measures<UE>(writer: &mut impl Write, view: &View<'_, UE>) -> io::Result<()> {
    let measures = Measures::of(view);
    if measures.most_angle > 0.0 {
        measures.write(writer)?;
    }
    Ok(())
}

impl Measures {
    /// Measures the triangles that are shown.
    fn of<UE>(view: &View<'_, UE>) -> Self {
        let mut measures = Measures {
            least_angle: 180.0,
            most_angle: 0.0,
            least_area: f64::INFINITY,
            most_area: 0.0,
            classes: [0; CLASSES],
        };
        for face in view.mesh.live_inner_faces() {
            if view.shows_face(face.index()) {
                let [a, b, c] = face.vertices().map(|corner| *corner.data());
                measures.add(a, b, c, view.unit);
            }
        }
        measures
    }

    /// Adds a triangle.
    fn add(&mut self, a: Point, b: Point, c: Point, unit: Unit) {
        self.add_angle(angle(a, b, c));
        self.add_angle(angle(b, c, a));
        self.add_angle(angle(c, a, b));
        let area = area(a, b, c, unit);
        self.least_area = self.least_area.min(area);
        self.most_area = self.most_area.max(area);
    }

    /// Adds an angle.
    fn add_angle(&mut self, angle: f64) {
        self.least_angle = self.least_angle.min(angle);
        self.most_angle = self.most_angle.max(angle);
        let class = saturating_f64_to_usize(angle) / WIDTH;
        if let Some(count) = self.classes.get_mut(class.min(CLASSES - 1)) {
            *count = count.saturating_add(1);
        }
    }

    /// Writes them.
    fn write(&self, writer: &mut impl Write) -> io::Result<()> {
        writeln!(
            writer,
            "{} degrees is the smallest angle",
            Hundredths(self.least_angle)
        )?;
        writeln!(
            writer,
            "{} degrees is the largest angle",
            Hundredths(self.most_angle)
        )?;
        writeln!(writer, "{} is the smallest area", self.least_area)?;
        writeln!(writer, "{} is the largest area", self.most_area)?;
        for (place, count) in self.classes.iter().enumerate() {
            let from = place.saturating_mul(WIDTH);
            let to = from.saturating_add(WIDTH);
            let angles = Count {
                count: *count,
                one: "angle",
                many: "angles",
            };
            writeln!(writer, "{angles} from {from} to {to} degrees")?;
        }
        Ok(())
    }
}

/// Returns the angle at a corner of a triangle, in degrees.
fn angle(corner: Point, a: Point, b: Point) -> f64 {
    let (x, y) = way(corner, a);
    let (u, v) = way(corner, b);
    direction(x * u + y * v, x * v - y * u)
}

/// Returns the area of a triangle, in squares of the unit of its coordinates as they are written.
fn area(a: Point, b: Point, c: Point, unit: Unit) -> f64 {
    let (x, y) = way(a, b);
    let (u, v) = way(a, c);
    let steps = steps_of(unit);
    (x * v - y * u) * 0.5 / (steps * steps)
}

/// Returns the way from one point to another.
fn way(from: Point, to: Point) -> (f64, f64) {
    (
        nearest_i64_to_f64(to.x - from.x),
        nearest_i64_to_f64(to.y - from.y),
    )
}

/// Returns how many steps of a unit 1 is.
fn steps_of(unit: Unit) -> f64 {
    match unit {
        Unit::Scale(scale) => nearest_u64_to_f64(scale.factor()),
        Unit::Grid(grid) => {
            let mut steps = 1.0 / 1024.0;
            for _halving in 0..grid.halvings {
                steps *= 2.0;
            }
            steps
        }
    }
}

/// Returns the angle from the direction to the right to that of a vector above it, in degrees.
fn direction(x: f64, y: f64) -> f64 {
    if x < 0.0 {
        180.0 - acute(0.0 - x, y)
    } else {
        acute(x, y)
    }
}

/// Returns the same of a vector to the right.
fn acute(x: f64, y: f64) -> f64 {
    if y > x {
        90.0 - arctangent(x / y)
    } else if x > 0.0 {
        arctangent(y / x)
    } else {
        0.0
    }
}

/// Returns the angle whose tangent is a number from 0 to 1, in degrees.
fn arctangent(tangent: f64) -> f64 {
    // The tangent of half the angle, three times, and then the series.
    let mut small = tangent;
    for _half in 0..3 {
        small = small / (1.0 + (1.0 + small * small).sqrt());
    }
    let square = small * small;
    let mut power = small;
    let mut sum = 0.0;
    let mut divisor = 1.0;
    for _term in 0..10 {
        sum += power / divisor;
        power = 0.0 - power * square;
        divisor += 2.0;
    }
    sum * 8.0 * (180.0 / 3.14159265358979323846)
}

/// A number that isn't negative, as it is written: with two places, rounded.
#[derive(Clone, Copy)]
struct Hundredths(f64);

impl fmt::Display for Hundredths {
    fn fmt<W: fmt::Write>(&self, f: &mut fmt::Formatter<W>) -> fmt::Result {
        let all = saturating_f64_to_usize(self.0 * 100.0 + 0.5);
        write!(f, "{}.{:02}", all / 100, all % 100)
    }
}
