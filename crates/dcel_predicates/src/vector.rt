//! Vectors of three numbers, and their dot products.
//!
//! A determinant of three rows is the dot product of its last column and that column's cofactors.

ghost use Rattle.std.specs.Prelude.{◌≡◌, ◌≤◌, ◌^◌, pos, ◌+ℤ◌, ◌*ℤ◌, unsigned_abs};
ghost use Rattle.dcel_predicates.specs.Wide.{number_of};

use crate::wide::{Halves, Wide};

/// A vector of numbers up to 2^61: a dot product of two fits into an `i128`.
#[derive(Clone, Copy)]
pub(crate) struct ShortVector {
    pub x: i64,
    pub y: i64,
    pub z: i64,
    pub ghost x_in_range: { unsigned_abs x ≤ 2 ^ 61 },
    pub ghost y_in_range: { unsigned_abs y ≤ 2 ^ 61 },
    pub ghost z_in_range: { unsigned_abs z ≤ 2 ^ 61 },
}

impl ShortVector {
    // Returns the dot product of two vectors.
    pub(crate) fn dot(self, other: ShortVector) -> i128
        ensures value { result ≡ (self.x *ℤ other.x) +ℤ (self.y *ℤ other.y) +ℤ (self.z *ℤ other.z) }
        ensures bound { unsigned_abs result ≤ 2 ^ 124 }
    {
        self.x as i128 * other.x as i128
            + self.y as i128 * other.y as i128
            + self.z as i128 * other.z as i128
    }
}

/// A vector of numbers up to 2^110.
#[derive(Clone, Copy)]
pub(crate) struct Vector {
    pub x: i128,
    pub y: i128,
    pub z: i128,
    pub ghost x_in_range: { unsigned_abs x ≤ 2 ^ 110 },
    pub ghost y_in_range: { unsigned_abs y ≤ 2 ^ 110 },
    pub ghost z_in_range: { unsigned_abs z ≤ 2 ^ 110 },
}

/// The vector `high * 2^56 + low`.
#[derive(Clone, Copy)]
struct Split {
    high: ShortVector,
    low: ShortVector,
}

impl Vector {
    // Returns the dot product of two vectors.
    //
    // Inlined: products with a 0 that the caller wrote then cost nothing.
    #[inline(always)]
    pub(crate) fn dot(self, other: Vector) -> Wide
        ensures { number_of result ≡ (self.x *ℤ other.x) +ℤ (self.y *ℤ other.y) +ℤ (self.z *ℤ other.z) }
    {
        let p = self.split();
        let q = other.split();
        let high = p.high.dot(q.high);
        let down = p.high.dot(q.low);
        let up = p.low.dot(q.high);
        let low = p.low.dot(q.low);
        Wide::carried(high, down + up, low)
    }

    // Returns the vector in halves.
    fn split(self) -> Split
        ensures x { (result.high.x *ℤ pos (2 ^ 56)) +ℤ result.low.x ≡ self.x }
        ensures y { (result.high.y *ℤ pos (2 ^ 56)) +ℤ result.low.y ≡ self.y }
        ensures z { (result.high.z *ℤ pos (2 ^ 56)) +ℤ result.low.z ≡ self.z }
    {
        let x = Halves::of(self.x);
        let y = Halves::of(self.y);
        let z = Halves::of(self.z);
        Split {
            high: ShortVector {
                x: x.high,
                y: y.high,
                z: z.high,
            },
            low: ShortVector {
                x: x.low,
                y: y.low,
                z: z.low,
            },
        }
    }
}
