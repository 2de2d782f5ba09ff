//! Numbers times and divided by powers of two.

ghost use Rattle.std.specs.Prelude.{◌≡◌, ◌*◌, ◌^◌, ◌<◌, ◌≤◌, MatchOption};
ghost use Rattle.dcel_floats.specs.Rounding.{IsRounded};

/// Returns a number divided by a power of two, rounded to the nearest whole number, and to the even
/// one of two that are equally near.
pub(crate) fn shifted_down(number: u64, power: u32) -> u64
    requires number { number < 2 ^ 53 }
    requires power { 0 < power }
    ensures value { IsRounded (2 ^ power) number result }
    ensures bound { result ≤ 2 ^ 53 }
{
    if power > 54 {
        return 0;
    }
    let unit = 1u64 << power;
    let whole = number / unit;
    let twice = number % unit * 2;
    if twice > unit || (twice == unit && whole % 2 == 1) {
        whole + 1
    } else {
        whole
    }
}

/// Returns a number times a power of two, if that is at most 2^53.
pub(crate) fn shifted_up(number: u64, power: u32) -> Option<u64>
    requires { number < 2 ^ 53 }
    ensures { MatchOption result (2 ^ 53 < number * 2 ^ power) (λ size. (size ≤ 2 ^ 53) × (size ≡ number * 2 ^ power)) }
{
    if number == 0 {
        return Some(0);
    }
    if power > 53 {
        return None;
    }
    let size = (number as u128) << power;
    if size > 1 << 53 {
        return None;
    }
    Some(size as u64)
}
