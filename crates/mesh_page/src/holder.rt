//! What the host holds of a desk.

ghost use Rattle.std.specs.Prelude.{◌≡◌, is_some};

use crate::held::Held;

/// A desk that is kept across calls, or none: C's `mesh_page_kept`.
///
/// Zero bytes are one that isn't open. What the host promises: it hands this to each call as the last
/// call left it, writes nothing to it, and uses one of two copies alone.
#[repr(C)]
#[derive(Drop)]
pub struct MeshPageKept {
    pub(crate) held: Held,
    pub(crate) is_open: bool,
    ghost agrees: { is_open ≡ is_some held.kept },
}
