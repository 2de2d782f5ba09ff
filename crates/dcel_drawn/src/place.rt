//! Points of the plane of a picture, in which y goes up.

ghost use Rattle.std.specs.Prelude.{◌≡◌};

/// A point, or the way from one point to another.
#[derive(Clone, Copy, PartialEq, Debug, Drop)]
pub struct Place {
    /// To the right.
    pub x: f64,
    /// Up.
    pub y: f64,
}

impl Place {
    /// Returns the point with these coordinates.
    pub const fn new(x: f64, y: f64) -> Self
        ensures { (result.x ≡ x) × (result.y ≡ y) }
    {
        Place { x, y }
    }

    /// Returns the point at the end of this way and then the other one.
    pub fn plus(self, other: Place) -> Place {
        Place::new(self.x + other.x, self.y + other.y)
    }

    /// Returns the way to here from the other point.
    pub fn minus(self, other: Place) -> Place {
        Place::new(self.x - other.x, self.y - other.y)
    }

    /// Returns the way this many times as long.
    pub fn times(self, factor: f64) -> Place {
        Place::new(self.x * factor, self.y * factor)
    }

    /// Returns the point in the middle.
    pub fn middle(self, other: Place) -> Place {
        self.plus(other).times(0.5)
    }

    /// Returns the way turned to the left by a right angle.
    pub fn left(self) -> Place {
        Place::new(-self.y, self.x)
    }

    /// Returns the scalar product.
    pub fn dot(self, other: Place) -> f64 {
        self.x * other.x + self.y * other.y
    }

    /// Returns twice the area of the triangle of these two ways, positive if the other lies on the
    /// left.
    pub fn cross(self, other: Place) -> f64 {
        self.x * other.y - self.y * other.x
    }

    /// Returns how long the way is.
    pub fn length(self) -> f64 {
        self.dot(self).sqrt()
    }

    /// Returns the way of length one in the same direction, or to the right if this one has no
    /// length.
    pub fn unit(self) -> Place {
        let length = self.length();
        if length > 0.0 {
            self.times(1.0 / length)
        } else {
            Place::new(1.0, 0.0)
        }
    }
}
