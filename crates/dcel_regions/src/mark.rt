//! Whether an edge is marked.

use dcel_legalize::EdgeConstraint;

/// Whether an edge is marked: the data of the edges of a constrained triangulation.
///
/// An edge is free unless it was marked.
#[derive(Clone, Copy, PartialEq, Eq, Debug, Default)]
pub enum Mark {
    /// It may be flipped.
    #[default]
    Free,
    /// It has to stay: a constraint.
    Constraint,
}

/// Marked edges are constraints.
impl EdgeConstraint for Mark {
    ghost use Rattle.dcel_regions.specs.Marked.{is_constraint};

    ghost is_constraint = { is_constraint };

    fn is_constraint(&self) -> bool {
        match *self {
            Mark::Free => false,
            Mark::Constraint => true,
        }
    }
}
