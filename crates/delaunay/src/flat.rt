//! Points without a triangle.

use crate::arguments::Arguments;
use crate::task::Task;
use dcel_delaunay::Point;
use dcel_predicates::orientation;
use std::io;

/// What points span.
#[derive(Clone, Copy)]
enum Span {
    /// There is no point.
    Nothing,
    /// All are at this one.
    Point(Point),
    /// All are on the line through these two.
    Line(Point, Point),
    /// Some three of them are the corners of a triangle.
    Plane,
}

/// The points of a task that aren't removed.
#[derive(Clone, Copy)]
struct Left {
    count: usize,
    span: Span,
}

/// Says on standard error that the input has no points, or why there is no triangle where triangles
/// are asked for.
pub fn report_flat(rt: &impl Eprint, arguments: &Arguments, task: &Task) -> io::Result<()> {
    if task.points.is_empty() {
        return eprintln!(rt; "delaunay: the input has no points");
    }
    if arguments.asks_for_triangles() {
        return Left::of(task).report(rt);
    }
    Ok(())
}

impl Left {
    /// Returns those of a task.
    fn of(task: &Task) -> Self {
        let mut left = Left {
            count: 0,
            span: Span::Nothing,
        };
        for (number, point) in task.points.iter().enumerate() {
            if task.is_removed.get(number) != Some(&true) {
                left.count = left.count.saturating_add(1);
                left.span = left.span.with(*point);
            }
        }
        left
    }

    /// Says on standard error why there is no triangle, if there is none.
    fn report(self, rt: &impl Eprint) -> io::Result<()> {
        match self.span {
            Span::Nothing => eprintln!(rt; "delaunay: no triangles: all points are removed"),
            Span::Point(_) => self.report_equal(rt),
            Span::Line(_, _) => {
                eprintln!(rt;
                    "delaunay: no triangles: all {} points are on one line",
                    self.count
                )
            }
            Span::Plane => Ok(()),
        }
    }

    /// Says so of points that are one, or equal.
    fn report_equal(self, rt: &impl Eprint) -> io::Result<()> {
        if self.count == 1 {
            eprintln!(rt; "delaunay: no triangles: there is only one point")
        } else {
            eprintln!(rt;
                "delaunay: no triangles: all {} points are equal",
                self.count
            )
        }
    }
}

impl Span {
    /// Returns what is spanned with another point.
    fn with(self, point: Point) -> Span {
        match self {
            Span::Nothing => Span::Point(point),
            Span::Point(first) => Span::of_two(first, point),
            Span::Line(first, second) => Span::of_three(first, second, point),
            Span::Plane => Span::Plane,
        }
    }

    /// Returns what two points span.
    fn of_two(a: Point, b: Point) -> Span {
        if a == b {
            Span::Point(a)
        } else {
            Span::Line(a, b)
        }
    }

    /// Returns what three points span, of which the first two differ.
    fn of_three(a: Point, b: Point, c: Point) -> Span {
        if orientation(a, b, c).is_on_line() {
            Span::Line(a, b)
        } else {
            Span::Plane
        }
    }
}
