//! Decimals times powers of two, rounded down and to the nearest.

ghost use Rattle.std.specs.Prelude.{◌≡◌, ◌+◌, ◌*◌, ◌%◌, ◌^◌, ◌<◌, ◌≤◌, ◌↔◌, ℕ, IsTrue, MatchOption};
ghost use Rattle.dcel_floats.specs.Rounding.{IsRounded};
ghost use Rattle.dcel_decimals.specs.Floors.{GoesUp, IsFloor, IsShift};

/// The most units that a number may have: 2^53 steps of 1024 units.
const MOST_UNITS: u128 = 1 << 63;

/// How many places one division takes: 10^37 leaves room to double what is left.
const FIRST_PLACES: u32 = 37;

/// A number of units, rounded down.
#[derive(Clone, Copy)]
pub struct Floor {
    pub count: u64,
    pub is_exact: bool,
    pub ghost in_range: { count ≤ 2 ^ 63 },
}

/// A number of steps of 1024 units, and how many units it is away, rounded up.
#[derive(Clone, Copy)]
pub struct Rounded {
    pub steps: u64,
    pub shift: u32,
    pub ghost steps_in_range: { steps ≤ 2 ^ 53 },
    pub ghost half: { shift ≤ 512 },
}

impl Floor {
    /// Returns the nearest number of steps, and the even one of two that are equally near.
    pub fn rounded(self) -> Rounded
        ensures value { (n d : ℕ) → IsFloor n d self.count self.is_exact → IsRounded (2 ^ 10 * d) n result.steps }
        ensures shift { (n d : ℕ) → IsFloor n d self.count self.is_exact → IsShift (2 ^ 10 * d) d n result.steps result.shift }
    {
        let whole = self.count / 1024;
        let part = (self.count % 1024) as u32;
        if goes_up(whole, part, self.is_exact) {
            return Rounded {
                steps: whole + 1,
                shift: 1024 - part,
            };
        }
        if self.is_exact {
            return Rounded {
                steps: whole,
                shift: part,
            };
        }
        Rounded {
            steps: whole,
            shift: part + 1,
        }
    }
}

/// Returns whether a number of steps and 1024th parts, and maybe less than another part, is rounded
/// up.
fn goes_up(whole: u64, part: u32, is_exact: bool) -> bool
    ensures { IsTrue result ↔ GoesUp whole part is_exact }
{
    if part == 512 {
        return !is_exact || whole % 2 == 1;
    }
    part > 512
}

/// Returns `size * 2^doublings / 10^places`, rounded down, or `None` if it is above 2^63.
pub fn floor_of(size: u128, places: u32, doublings: u32) -> Option<Floor>
    requires size { size < 10 ^ 25 }
    requires doublings { doublings ≤ 106 }
    ensures floor { MatchOption result (2 ^ 63 * 10 ^ places < size * 2 ^ doublings) (λ floor. IsFloor (size * 2 ^ doublings) (10 ^ places) floor.count floor.is_exact) }
    ensures range { MatchOption result (2 ^ 63 * 10 ^ places < size * 2 ^ doublings) (λ floor. size * 2 ^ doublings ≤ 2 ^ 63 * 10 ^ places) }
{
    if places > 56 {
        return Some(Floor {
            count: 0,
            is_exact: size == 0,
        });
    }
    let first = places.min(FIRST_PLACES);
    let divisor = 10u128.pow(first);
    let second = 10u128.pow(places - first);
    let Some(quotient) = doubled(size, divisor, doublings, MOST_UNITS * second) else {
        return None;
    };
    Some(Floor {
        count: (quotient.whole / second) as u64,
        is_exact: quotient.is_multiple_of(second),
    })
}

/// The number `whole + rest / divisor`.
#[derive(Clone, Copy)]
struct Quotient {
    whole: u128,
    rest: u128,
}

impl Quotient {
    /// Returns whether the number is a multiple of a whole number.
    fn is_multiple_of(self, number: u128) -> bool
        requires { 0 < number }
        ensures { IsTrue result ↔ ((self.rest ≡ 0) × (self.whole % number ≡ 0)) }
    {
        if self.rest > 0 {
            return false;
        }
        self.whole % number == 0
    }

    /// Returns twice the number.
    fn twice(self, divisor: u128) -> Quotient
        requires rest { self.rest < divisor }
        requires divisor { divisor ≤ 10 ^ 37 }
        requires whole { self.whole < 2 ^ 127 }
        ensures value { result.whole * divisor + result.rest ≡ (self.whole * divisor + self.rest) * 2 }
        ensures rest { result.rest < divisor }
    {
        let rest = self.rest * 2;
        if rest < divisor {
            Quotient {
                whole: self.whole * 2,
                rest,
            }
        } else {
            Quotient {
                whole: self.whole * 2 + 1,
                rest: rest - divisor,
            }
        }
    }
}

/// Returns `size * 2^doublings / divisor`, or `None` if it is above a limit.
fn doubled(size: u128, divisor: u128, doublings: u32, limit: u128) -> Option<Quotient>
    requires some { 0 < divisor }
    requires divisor { divisor ≤ 10 ^ 37 }
    requires limit { limit < 2 ^ 127 }
    ensures range { MatchOption result (limit * divisor < size * 2 ^ doublings) (λ q. size * 2 ^ doublings ≤ limit * divisor) }
    ensures value { MatchOption result (limit * divisor < size * 2 ^ doublings) (λ q. q.whole * divisor + q.rest ≡ size * 2 ^ doublings) }
    ensures rest { MatchOption result (limit * divisor < size * 2 ^ doublings) (λ q. q.rest < divisor) }
{
    let mut quotient = Quotient {
        whole: size / divisor,
        rest: size % divisor,
    };
    let mut left = doublings;
    while left > 0 {
        if quotient.whole > limit {
            return None;
        }
        quotient = quotient.twice(divisor);
        left -= 1;
    }
    if quotient.whole > limit {
        return None;
    }
    if quotient.whole == limit && quotient.rest > 0 {
        return None;
    }
    Some(quotient)
}
