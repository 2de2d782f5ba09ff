//! Data of edges that are free unless they are marked.

ghost use Rattle.std.specs.Prelude.{◌≡◌, false};

use dcel_legalize::EdgeConstraint;
use dcel_regions::Mark;

/// An edge's datum whose default is no constraint: an edge that a removal adds need not stay.
pub trait FreeByDefault: EdgeConstraint + Default {
    ghost default_is_free: { (datum : Self) → Self.is_default datum → Self.is_constraint datum ≡ false };
}

impl FreeByDefault for () {
    ghost use Rattle.std.specs.Prelude.{refl};

    ghost default_is_free = { λ datum is. refl };
}

impl FreeByDefault for Mark {
    ghost use Rattle.std.proofs.Common.{ap};
    ghost use Rattle.dcel_regions.specs.Marked.{is_constraint};

    ghost default_is_free = { λ datum is. ap is_constraint is };
}
