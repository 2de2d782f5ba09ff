//! The corners of a triangle, from the one with the least number on.

ghost use Rattle.std.specs.Prelude.{◌≡◌};
ghost use Rattle.dcel_output.specs.Lines.{corners_from_least, neighbors_from_least};

use dcel_delaunay::Triangle;
use dcel_delaunay::lists::Across;

/// Returns the numbers of a triangle's corners, counterclockwise, the least first.
pub fn corners(triangle: Triangle) -> [u32; 3]
    ensures { result ≡ corners_from_least triangle }
{
    let Triangle {
        first,
        second,
        third,
    } = triangle;
    if first <= second && first <= third {
        [first, second, third]
    } else if second <= third {
        [second, third, first]
    } else {
        [third, first, second]
    }
}

/// Returns what is across from these corners, in the order of [`corners`].
pub(crate) fn across_from_least(triangle: Triangle, across: Across) -> [Option<u32>; 3]
    ensures { result ≡ neighbors_from_least (triangle, across) }
{
    let Triangle {
        first,
        second,
        third,
    } = triangle;
    if first <= second && first <= third {
        [across.first, across.second, across.third]
    } else if second <= third {
        [across.second, across.third, across.first]
    } else {
        [across.third, across.first, across.second]
    }
}
