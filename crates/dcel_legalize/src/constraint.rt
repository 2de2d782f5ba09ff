//! Edges that flips leave.

ghost use Rattle.std.specs.Prelude.{◌≡◌, Bool};
/// An edge's datum that tells whether the edge is a constraint.
///
/// Flips leave a constraint where it is.
pub trait EdgeConstraint {
    ghost is_constraint: { Self → Bool };

    /// Returns whether the edge is a constraint.
    fn is_constraint(&self) -> bool
        ensures { result ≡ is_constraint self.now };
}

/// No edge is a constraint.
impl EdgeConstraint for () {
    ghost use Rattle.std.specs.Prelude.{false};

    ghost is_constraint = { λ _. false };

    fn is_constraint(&self) -> bool {
        false
    }
}
