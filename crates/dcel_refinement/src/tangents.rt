//! Angles in degrees, and tangents that are no smaller than theirs, in whole numbers.

ghost use Rattle.std.specs.Prelude.{◌≡◌, ◌≤◌, ◌<◌, ◌+◌, ◌*◌, ◌^◌, ◌↔◌, IsTrue, ℕ};
ghost use Rattle.dcel_refinement.specs.Tangents.{Reaches, denominator, eighth, numerator, steps_of};

use dcel_floats::Grid;

/// The denominator of each tangent.
pub(crate) const RUN: u16 = 65535;

/// 45 degrees, in steps of 1/65536 degree.
const EIGHTH: u32 = 45 * 65536;

/// The multiples of 1/65536, which is 2^-16.
const GRID: Grid = Grid { power: 1074 - 16 };

/// In a circle of this radius the arc of a step is shorter than 71.
const RADIUS: u128 = 65536 * 36 * 113;

/// Returns so many degrees in steps of 1/65536 degree, rounded up. Outside of 0 to 45 degrees it
/// returns the nearest of these, and for NaN 0.
pub(crate) fn least_steps(degrees: f64) -> u32
    ensures { result ≡ steps_of degrees }
{
    let mut low = 0;
    let mut high = EIGHTH;
    while low < high {
        let middle = (low + high) / 2;
        if are_below(middle, degrees) {
            low = middle + 1;
        } else {
            high = middle;
        }
    }
    high
}

// Returns whether so many steps are less than an angle in degrees.
fn are_below(steps: u32, degrees: f64) -> bool
    requires { steps < eighth }
    ensures { IsTrue result ↔ (steps < steps_of degrees) }
{
    match GRID.back(steps as i64) {
        Some(angle) => angle < degrees,
        None => false,
    }
}

/// Returns the least number that, divided by `RUN`, is no smaller than the tangent of so many steps.
pub(crate) fn least_rise(steps: u32) -> u16
    requires { steps ≤ eighth }
    ensures reaches { Reaches steps result 65535 }
    ensures least { (rise : ℕ) → Reaches steps rise 65535 → result ≤ rise }
{
    let mut low = 0;
    let mut high = RUN;
    while low < high {
        let middle = low + (high - low) / 2;
        if reaches(steps, middle) {
            high = middle;
        } else {
            low = middle + 1;
        }
    }
    high
}

// Returns whether `rise / RUN` is no smaller than the tangent of so many steps.
fn reaches(steps: u32, rise: u16) -> bool
    requires { steps ≤ eighth }
    ensures { IsTrue result ↔ Reaches steps rise 65535 }
{
    if rise == RUN {
        return true;
    }
    let arc = steps as u128 * 71;
    let bound = Bound::of(arc);
    let least = Product::of(RUN as u128 * arc, bound.numerator);
    least.is_at_most(Product::of(rise as u128 * RADIUS, bound.denominator))
}

/// An upper bound of an angle's tangent, divided by the angle.
#[derive(Clone, Copy)]
struct Bound {
    numerator: u128,
    denominator: u128,
}

impl Bound {
    // Returns the bound for the angle of an arc.
    fn of(arc: u128) -> Bound
        requires { arc ≤ 2 ^ 28 }
        ensures numerator { result.numerator ≡ numerator arc }
        ensures denominator { result.denominator ≡ denominator arc }
        ensures numerator_bound { result.numerator < 2 ^ 124 }
        ensures denominator_bound { result.denominator < 2 ^ 124 }
    {
        let square = arc * arc;
        let whole = RADIUS * RADIUS;
        Bound {
            numerator: (840 * whole - 95 * square) * whole + square * square,
            denominator: (840 * whole - 375 * square) * whole + 14 * (square * square),
        }
    }
}

/// The number `high * 2^64 + low`.
#[derive(Clone, Copy)]
struct Product {
    high: u128,
    low: u128,
    ghost low_in_range: { low < 2 ^ 64 },
}

impl Product {
    // Returns the product of two numbers.
    fn of(factor: u128, number: u128) -> Product
        requires factor { factor < 2 ^ 48 }
        requires number { number < 2 ^ 124 }
        ensures { result.high * 2 ^ 64 + result.low ≡ factor * number }
    {
        let low = factor * (number % (1 << 64));
        Product {
            high: factor * (number / (1 << 64)) + low / (1 << 64),
            low: low % (1 << 64),
        }
    }

    // Returns whether the number is at most another one.
    fn is_at_most(self, other: Product) -> bool
        ensures { IsTrue result ↔ (self.high * 2 ^ 64 + self.low ≤ other.high * 2 ^ 64 + other.low) }
    {
        if self.high == other.high {
            self.low <= other.low
        } else {
            self.high < other.high
        }
    }
}
