//! GeoJSON's points, and what its lines and rings join.

use crate::fault::{Fault, Wrong};
use crate::joins::Join;
use crate::reading::Coordinates;
use dcel_delaunay::Point;
use dcel_geojson::{Path, ReadError, Refusal, read};
use std::alloc::{AllocError, Global};

/// Which paths of a file are joined.
#[derive(Clone, Copy)]
pub enum Which {
    /// Lines.
    Lines,
    /// Rings.
    Rings,
    /// Both.
    All,
}

impl Which {
    /// Returns whether a path is one of them.
    fn has(self, path: Path) -> bool {
        match self {
            Which::Lines => !path.is_ring,
            Which::Rings => path.is_ring,
            Which::All => true,
        }
    }
}

/// Reads the points, lines and rings of a text.
pub fn read_shapes(alloc: Global, text: &str) -> Result<Coordinates, Fault> {
    let text = text.strip_prefix('\u{feff}').unwrap_or(text);
    match read(alloc, text) {
        Ok(shapes) => Ok(Coordinates::of_shapes(shapes)),
        Err(ReadError::Refused(refusal)) => Err(fault_of(text, refusal)),
        Err(ReadError::OutOfMemory(error)) => Err(Fault::OutOfMemory(error)),
    }
}

/// Returns what is wrong with a text, with what its line has there.
fn fault_of(text: &str, refusal: Refusal) -> Fault {
    let rest = text.get(refusal.offset..).unwrap_or("");
    let found = rest.lines().next().unwrap_or("");
    Fault::Line {
        line: refusal.line,
        wrong: Wrong::quoting_geojson(refusal.reason, found),
    }
}

/// Returns the joins along these paths, each of a point to the next one. Equal points aren't joined.
pub fn joins_along(
    alloc: Global,
    coordinates: &Coordinates,
    points: &[Point],
    which: Which,
) -> Result<Vec<Join>, AllocError> {
    let mut joins = Vec::new(alloc);
    for path in coordinates.paths.iter() {
        if which.has(*path) {
            add_joins(&mut joins, *path, coordinates, points)?;
        }
    }
    Ok(joins)
}

/// Adds the joins along a path.
fn add_joins(
    joins: &mut Vec<Join>,
    path: Path,
    coordinates: &Coordinates,
    points: &[Point],
) -> Result<(), AllocError> {
    let run = points.get(path.first..path.end).unwrap_or(&[]);
    for (from, pair) in (path.first..path.end).zip(run.windows(2)) {
        if let &[a, b] = pair
            && (a.x, a.y) != (b.x, b.y)
        {
            joins.push(Join {
                from,
                to: from.saturating_add(1),
                line: coordinates.line(from),
            })?;
        }
    }
    Ok(())
}
