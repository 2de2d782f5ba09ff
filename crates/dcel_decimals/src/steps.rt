//! Steps of a grid, as they are written.

ghost use Rattle.std.specs.Prelude.{◌≡◌, ◌+◌, ◌-◌, ◌*◌, ◌%◌, ◌^◌, ◌<◌, ◌≤◌};

use std::fmt;

/// A number of steps of a grid: `whole + rest / 2^places` with its sign.
///
/// It is written as the decimal that is exactly it, which has as many digits behind its point as
/// there are places, and no fewer are possible.
#[derive(Clone, Copy, PartialEq, Eq, Debug)]
pub struct Steps {
    /// Whether it is below 0.
    pub is_negative: bool,
    /// What is in front of the point.
    pub whole: u128,
    /// What is behind the point, times 2^places.
    pub rest: u128,
    /// How many digits are behind the point.
    pub places: u32,
    pub ghost few_places: { places ≤ 106 },
    pub ghost behind: { rest < 2 ^ places },
    pub ghost shortest: { rest % 2 ≡ 0 → places ≡ 0 },
}

impl Steps {
    /// Returns the number `size / 2^places` with a sign.
    pub(crate) fn of(is_negative: bool, size: u128, places: u32) -> Steps
        requires { places ≤ 106 }
        ensures sign { result.is_negative ≡ is_negative }
        ensures value { (result.whole * 2 ^ result.places + result.rest) * 2 ^ places ≡ size * 2 ^ result.places }
    {
        let mut size = size;
        let mut left = places;
        while left > 0 && size % 2 == 0 {
            size /= 2;
            left -= 1;
        }
        let unit = 1u128 << left;
        Steps {
            is_negative,
            whole: size / unit,
            rest: size % unit,
            places: left,
        }
    }
}

/// Nine digits behind the point, and what follows them, times the power of two that is left.
#[derive(Clone, Copy)]
struct Cut {
    digits: u32,
    rest: u128,
}

const FIVE_9: u128 = 1_953_125;

/// Returns the first nine digits of `rest / 2^places` behind the point, and what follows them,
/// times 2^(places - 9).
fn cut_digits(rest: u128, places: u32) -> Cut
    requires few { places ≤ 106 }
    requires more { 9 ≤ places }
    requires behind { rest < 2 ^ places }
    ensures value { result.digits * 2 ^ (places - 9) + result.rest ≡ rest * 5 ^ 9 }
    ensures digits { result.digits < 10 ^ 9 }
    ensures behind { result.rest < 2 ^ (places - 9) }
{
    let unit = 1u128 << (places - 9);
    let size = rest * FIVE_9;
    Cut {
        digits: (size / unit) as u32,
        rest: size % unit,
    }
}

impl fmt::Display for Steps {
    fn fmt<W: fmt::Write>(&self, f: &mut fmt::Formatter<W>) -> fmt::Result {
        if self.is_negative {
            f.write_str("-")?;
        }
        write!(f, "{}", self.whole)?;
        if self.places == 0 {
            return Ok(());
        }
        f.write_str(".")?;
        let mut rest = self.rest;
        let mut places = self.places;
        while places >= 9 {
            let cut = cut_digits(rest, places);
            write!(f, "{:09}", cut.digits)?;
            rest = cut.rest;
            places -= 9;
        }
        if places > 0 {
            let digits = rest * 5u128.pow(places);
            write!(f, "{digits:0width$}", width = places as usize)?;
        }
        Ok(())
    }
}
