//! What C holds of a constrained triangulation.

ghost use Rattle.std.specs.Prelude.{◌≡◌, is_some};

use crate::constrained::held::Held;

/// A constrained triangulation that is kept across calls, or none: C's `dcel_constrained`.
///
/// Zero bytes are one that isn't open. What C promises: it hands this to each call as the last call
/// left it, writes nothing to it, and uses one of two copies alone.
#[repr(C)]
pub struct DcelConstrained {
    pub(crate) held: Held,
    pub(crate) is_open: bool,
    ghost agrees: { is_open ≡ is_some held.kept },
}

impl Drop for DcelConstrained {
    fn drop(self) {
        let DcelConstrained { held, is_open } = self;
        if is_open {
            drop(held.into_box());
        }
    }
}
