//! The fault of a read or a write.

/// The error of a read or a write that failed. It doesn't say why.
#[derive(Debug, Drop)]
pub struct Failed;
