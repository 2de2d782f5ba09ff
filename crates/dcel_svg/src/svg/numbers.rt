//! Numbers of an SVG document.

use dcel_drawn::Place;
use std::fmt::{self, Formatter};
use std::num::saturating_f64_to_i64;

/// A number, rounded to tenths.
#[derive(Clone, Copy)]
pub(crate) struct Tenths(pub f64);

impl fmt::Display for Tenths {
    fn fmt<W: fmt::Write>(&self, f: &mut Formatter<W>) -> fmt::Result {
        let tenths = saturating_f64_to_i64((self.0 * 10.0 + 0.5).floor());
        if tenths < 0 {
            write!(f, "-")?;
        }
        let tenths = tenths.unsigned_abs();
        let (whole, part) = (tenths / 10, tenths % 10);
        write!(f, "{whole}")?;
        if part > 0 {
            write!(f, ".{part}")?;
        }
        Ok(())
    }
}

/// A point by its two coordinates, of which the second goes down.
#[derive(Clone, Copy)]
pub(crate) struct At(pub Place);

impl fmt::Display for At {
    fn fmt<W: fmt::Write>(&self, f: &mut Formatter<W>) -> fmt::Result {
        write!(f, "{} {}", Tenths(self.0.x), Tenths(-self.0.y))
    }
}
