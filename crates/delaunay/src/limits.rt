//! What a refinement is to reach, as arguments say it.

use crate::arguments::Arguments;
use crate::fault::Wrong;
use crate::quoting::Sentence;
use crate::unit::Unit;
use dcel_decimals::Decimal;
use dcel_refinement::{AngleLimit, RefinedFaces, RefinementParameters};
use std::num::nearest_i64_to_f64;

/// How many points are added at most, where nothing is asked for.
const MOST_POINTS: usize = 10_000_000;

/// What a refinement is to reach, and where it gives up.
#[derive(Clone, Copy)]
pub struct Limits {
    angle: AngleLimit,
    area: Option<Decimal>,
    most_points: usize,
}

impl Limits {
    /// Returns what the arguments ask for, if they ask for a refinement.
    pub fn of(arguments: &Arguments) -> Result<Option<Limits>, Wrong> {
        let Some(angle) = arguments.refine else {
            return match arguments.max_area.or(arguments.max_points) {
                Some(text) => Err(Wrong::quoting(Sentence::LimitsAlone, text)),
                None => Ok(None),
            };
        };
        Ok(Some(Limits {
            angle: angle_of(angle)?,
            area: area_of(arguments.max_area)?,
            most_points: count_of(arguments.max_points)?,
        }))
    }

    /// Returns the same for points whose coordinates are in this unit.
    pub fn parameters(self, unit: Unit) -> RefinementParameters {
        RefinementParameters {
            angle: self.angle,
            max_doubled_area: match self.area {
                Some(area) => doubled_steps(area, unit),
                None => None,
            },
            max_additional_vertices: self.most_points,
            faces: RefinedFaces::All,
        }
    }
}

/// Returns the smallest angle of so many degrees.
fn angle_of(text: &str) -> Result<AngleLimit, Wrong> {
    match Decimal::read(text) {
        Ok(decimal) => {
            let degrees = float_of(decimal);
            if degrees >= 0.0 && degrees <= 45.0 {
                return Ok(AngleLimit::from_degrees(degrees));
            }
            Err(Wrong::quoting(Sentence::NoAngle, text))
        }
        Err(_) => Err(Wrong::quoting(Sentence::NoAngle, text)),
    }
}

/// Returns the float that is about a decimal.
fn float_of(decimal: Decimal) -> f64 {
    let mut rest = decimal.mantissa;
    let mut places = decimal.places;
    // What is beyond eighteen digits counts for nothing.
    for _digit in 0..25 {
        if rest.unsigned_abs() >= 1_000_000_000_000_000_000 && places > 0 {
            rest /= 10;
            places = places.saturating_sub(1);
        }
    }
    let mut number = nearest_i64_to_f64(i64::try_from(rest).unwrap_or(i64::MAX));
    for _place in 0..places {
        number /= 10.0;
    }
    number
}

/// Returns the largest area, which is above 0.
fn area_of(text: Option<&str>) -> Result<Option<Decimal>, Wrong> {
    let Some(text) = text else {
        return Ok(None);
    };
    match Decimal::read(text) {
        Ok(area) if area.mantissa > 0 => Ok(Some(area)),
        _ => Err(Wrong::quoting(Sentence::NoArea, text)),
    }
}

/// Returns a number of points.
fn count_of(text: Option<&str>) -> Result<usize, Wrong> {
    let Some(text) = text else {
        return Ok(MOST_POINTS);
    };
    match text.parse::<usize>() {
        Ok(count) => Ok(count),
        Err(_) => Err(Wrong::quoting(Sentence::NoMost, text)),
    }
}

/// Returns twice an area, in squares of a unit's step, rounded down; or `None` if it is larger than that
/// of any triangle.
fn doubled_steps(area: Decimal, unit: Unit) -> Option<i128> {
    let twice = area.mantissa.checked_mul(2)?;
    let quotient = Quotient::of(u128::try_from(twice).ok()?, area.places);
    let steps = match unit {
        Unit::Scale(scale) => quotient.times(10, scale.power.saturating_mul(2))?,
        Unit::Grid(grid) => {
            let finer = grid.halvings.saturating_sub(10).saturating_mul(2);
            let coarser = 10u32.saturating_sub(grid.halvings).saturating_mul(2);
            quotient
                .times(2, finer)?
                .checked_div(1u128 << coarser.min(20))?
        }
    };
    i128::try_from(steps).ok()
}

/// A fraction: a whole number and a rest, by a divisor.
#[derive(Clone, Copy)]
struct Quotient {
    whole: u128,
    rest: u128,
    divisor: u128,
}

impl Quotient {
    /// Returns a number divided by a power of ten, or 0 where that is above 10^36.
    fn of(number: u128, places: u32) -> Quotient {
        let divisor = power_of_ten(places);
        match (number.checked_div(divisor), number.checked_rem(divisor)) {
            (Some(whole), Some(rest)) => Quotient {
                whole,
                rest,
                divisor,
            },
            _ => Quotient {
                whole: 0,
                rest: 0,
                divisor: 1,
            },
        }
    }

    /// Returns it times a power of a small number, rounded down, or `None` if that is 2^127 or above.
    fn times(self, factor: u128, power: u32) -> Option<u128> {
        let mut it = self;
        for _power in 0..power {
            let rest = it.rest.checked_mul(factor)?;
            let more = rest.checked_div(it.divisor)?;
            it = Quotient {
                whole: it.whole.checked_mul(factor)?.checked_add(more)?,
                rest: rest.checked_rem(it.divisor)?,
                divisor: it.divisor,
            };
            if it.whole >= 1 << 127 {
                return None;
            }
        }
        Some(it.whole)
    }
}

/// Returns a power of ten, or 0 where it is above 10^36.
fn power_of_ten(power: u32) -> u128 {
    let mut product = 1u128;
    for _power in 0..power.min(37) {
        product = product.saturating_mul(10);
    }
    if power > 36 { 0 } else { product }
}
