//! Numbers in two parts, the lower of which has 56 bits.

ghost use Rattle.std.specs.Prelude.{◌≡◌, ◌≤◌, ◌<◌, ◌^◌, pos, ◌+ℤ◌, ◌*ℤ◌, unsigned_abs};

const RADIX: i128 = 1 << 56;

/// The number `high * 2^56 + low`, in parts whose products fit into an `i128`.
#[derive(Clone, Copy)]
pub(crate) struct Halves {
    pub high: i64,
    pub low: i64,
    pub ghost high_in_range: { unsigned_abs high ≤ 2 ^ 54 },
    pub ghost low_in_range: { unsigned_abs low ≤ 2 ^ 56 },
}

impl Halves {
    // Returns a number in halves.
    pub(crate) fn of(number: i128) -> Halves
        requires { unsigned_abs number ≤ 2 ^ 110 }
        ensures { (result.high *ℤ pos (2 ^ 56)) +ℤ result.low ≡ number }
    {
        let high = number >> 56;
        Halves {
            high: high as i64,
            low: (number - high * RADIX) as i64,
        }
    }
}

/// The number `carry * 2^56 + digit`.
#[derive(Clone, Copy)]
pub(crate) struct Carried {
    pub carry: i128,
    pub digit: u64,
    pub ghost carry_in_range: { unsigned_abs carry ≤ 2 ^ 70 },
    pub ghost digit_in_range: { digit < 2 ^ 56 },
}

impl Carried {
    // Returns the lowest digit of a number, and the carry.
    pub(crate) fn of(number: i128) -> Carried
        requires { unsigned_abs number ≤ 2 ^ 126 }
        ensures { (result.carry *ℤ pos (2 ^ 56)) +ℤ pos result.digit ≡ number }
    {
        let carry = number >> 56;
        Carried {
            carry,
            digit: (number - carry * RADIX) as u64,
        }
    }
}
