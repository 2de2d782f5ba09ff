//! Vectors in floating point, for what need not be exact.

use dcel_predicates::Point;
use std::num::nearest_isize_to_f64;

/// A vector of the plane.
#[derive(Clone, Copy)]
pub(crate) struct Vector {
    /// To the right.
    pub x: f64,
    /// Up.
    pub y: f64,
}

impl Vector {
    /// Returns the way from one point to another.
    pub(crate) fn between(from: Point, to: Point) -> Vector {
        Vector {
            x: nearest_isize_to_f64((to.x - from.x) as isize),
            y: nearest_isize_to_f64((to.y - from.y) as isize),
        }
    }

    /// Returns the square of the length.
    pub(crate) fn square(self) -> f64 {
        self.dot(self)
    }

    /// Returns the dot product.
    pub(crate) fn dot(self, other: Vector) -> f64 {
        self.x * other.x + self.y * other.y
    }

    /// Returns twice the area of the triangle of the two, positive if the other is on the left.
    pub(crate) fn cross(self, other: Vector) -> f64 {
        self.x * other.y - self.y * other.x
    }
}
