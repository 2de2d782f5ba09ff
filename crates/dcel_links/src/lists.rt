//! The links of half edges, as lists.

/// The claimed links of a mesh, with an item for each half edge.
#[derive(Clone, Copy, PartialEq, Eq, Debug)]
pub struct Links<'a> {
    /// The next half edge of each one around its face.
    pub next: &'a [u32],
    /// The vertex where each one starts.
    pub origin: &'a [u32],
    /// The face of each one.
    pub face: &'a [u32],
}
