//! Floats in binary.

ghost use Rattle.std.specs.Prelude.{◌≡◌, ◌*◌, ◌<◌, ◌≤◌, ◌^◌, ◌⊎◌, MatchOption, ℕ};
ghost use Rattle.std.specs.Float.Ieee.{of_fields, binary64};
ghost use Rattle.dcel_floats.specs.Floats.{IsFinite, IsUnits};

/// A finite float: `mantissa * 2^power` with its sign, in units of 2^-1074, the least float above 0.
///
/// The fields of an `f64` (IEEE 754-2019, 3.4): the mantissa has the hidden bit.
#[derive(Clone, Copy)]
pub(crate) struct Binary {
    /// Whether it has the sign bit.
    pub is_negative: bool,
    /// The significand as a whole number, below 2^53.
    pub mantissa: u64,
    /// The power of two that it is multiplied by.
    pub power: u32,
    pub ghost mantissa_in_range: { mantissa < 2 ^ 53 },
    pub ghost power_in_range: { power < 2046 },
}

const SIGN: u64 = 1 << 63;

const HIDDEN: u64 = 1 << 52;

impl Binary {
    ghost use Rattle.dcel_floats.specs.Binaries.{IsBinary, IsWithin, size_of, value_of};

    // Returns what a float is, or `None` if it is infinite or no number.
    pub(crate) fn of(x: f64) -> Option<Binary>
        ensures { MatchOption result (IsFinite x → ⊥) (IsBinary x) }
    {
        if x != x {
            return None;
        }
        let bits = x.to_bits();
        let is_negative = bits >= SIGN;
        let field = bits % SIGN / HIDDEN;
        let digits = bits % HIDDEN;
        if field == 2047 {
            return None;
        }
        if field == 0 {
            return Some(Binary {
                is_negative,
                mantissa: digits,
                power: 0,
            });
        }
        Some(Binary {
            is_negative,
            mantissa: HIDDEN + digits,
            power: (field - 1) as u32,
        })
    }

    // Returns the float.
    pub(crate) fn float(self) -> f64
        ensures { IsUnits result (value_of self) }
    {
        let normal = self.normal();
        if normal.mantissa < HIDDEN {
            return by_fields(normal.is_negative, 0, normal.mantissa);
        }
        by_fields(
            normal.is_negative,
            normal.power as u64 + 1,
            normal.mantissa - HIDDEN,
        )
    }

    // Returns the power of the finest grid on which the number is within 2^53 steps.
    pub(crate) fn finest(self) -> u32
        ensures bound { result < 2046 }
        ensures within { IsWithin result self }
        ensures finest { (power : ℕ) → IsWithin power self → result ≤ power }
    {
        let normal = self.normal();
        if normal.mantissa == HIDDEN && normal.power > 0 {
            normal.power - 1
        } else {
            normal.power
        }
    }

    // Returns the same number with the least power.
    fn normal(self) -> Binary
        ensures sign { result.is_negative ≡ self.is_negative }
        ensures size { size_of result ≡ size_of self }
        ensures least { (result.power ≡ 0) ⊎ (2 ^ 52 ≤ result.mantissa) }
    {
        let mut mantissa = self.mantissa;
        let mut power = self.power;
        while power > 0 && mantissa < HIDDEN {
            mantissa *= 2;
            power -= 1;
        }
        Binary {
            is_negative: self.is_negative,
            mantissa,
            power,
        }
    }
}

// Returns the float with these fields.
fn by_fields(is_negative: bool, exponent: u64, digits: u64) -> f64
    requires exponent { exponent < 2047 }
    requires digits { digits < 2 ^ 52 }
    ensures { result ≡ of_fields binary64 is_negative exponent digits }
{
    let size = exponent * HIDDEN + digits;
    if is_negative {
        f64::from_bits(SIGN + size)
    } else {
        f64::from_bits(size)
    }
}
