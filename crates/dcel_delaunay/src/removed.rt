//! What a removal returns.

use dcel_predicates::Point;
use spade_dcel::handles::FixedVertexHandle;

/// A vertex that was removed.
#[derive(Clone, Copy, PartialEq, Eq, Debug, Drop)]
pub struct Removed {
    /// Where it was.
    pub point: Point,
    /// The last vertex, by its number from before, if it got the number of the one that was
    /// removed. All others keep theirs.
    pub moved: Option<FixedVertexHandle>,
}
