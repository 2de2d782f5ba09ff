//! What C holds of a triangulation.

ghost use Rattle.std.specs.Prelude.{◌≡◌, is_some};

use crate::held::Held;

/// A triangulation that is kept across calls, or none: C's `dcel_triangulation`.
///
/// Zero bytes are one that isn't open. What C promises: it hands this to each call as the last call
/// left it, writes nothing to it, and uses one of two copies alone.
#[repr(C)]
pub struct DcelTriangulation {
    pub(crate) held: Held,
    pub(crate) is_open: bool,
    ghost agrees: { is_open ≡ is_some held.kept },
}

impl Drop for DcelTriangulation {
    fn drop(self) {
        let DcelTriangulation { held, is_open } = self;
        if is_open {
            drop(held.into_box());
        }
    }
}
