//! Numbers read from their decimals.

ghost use Rattle.std.specs.Prelude.{◌≡◌, ◌≢◌, ◌<◌, ◌^◌, ℕ, ℤ, MatchOption};
ghost use Rattle.std.specs.Fmt.{decimal, signed_decimal};
ghost use Rattle.dcel_text.specs.Numbers.{IsDatum};

/// Reads a number below 10^19 from its decimals.
///
/// Returns `None` if the item isn't the decimals of such a number; a leading zero makes it none.
/// Every `u32` is below that, and every sum here fits into a `u64`.
pub fn natural(item: &[u8]) -> Option<u64>
    ensures { MatchOption result ((n : ℕ) → n < 10 ^ 19 → item.now ≢ decimal n) (λ n. item.now ≡ decimal n) }
{
    if item.is_empty() {
        return None;
    }
    if item.len() > 19 {
        return None;
    }
    if item.len() > 1 && item[0] == b'0' {
        return None;
    }
    let mut value = 0u64;
    for digit in item {
        if !digit.is_ascii_digit() {
            return None;
        }
        value = value * 10 + u64::from(*digit - b'0');
    }
    Some(value)
}

/// Reads an `i64` from its decimals.
///
/// Returns `None` if the item isn't the decimals of an `i64`. `-0` is none.
pub fn datum(item: &[u8]) -> Option<i64>
    ensures { MatchOption result ((d : ℤ) → IsDatum d → item.now ≢ signed_decimal d) (λ d. item.now ≡ signed_decimal d) }
{
    if !item.is_empty() && item[0] == b'-' {
        let n = natural(&item[1..])?;
        if n == 0 {
            return None;
        }
        if n > 9_223_372_036_854_775_808 {
            return None;
        }
        return Some(-((n - 1) as i64) - 1);
    }
    let n = natural(item)?;
    if n >= 9_223_372_036_854_775_808 {
        return None;
    }
    Some(n as i64)
}
