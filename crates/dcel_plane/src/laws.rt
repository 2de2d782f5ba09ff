//! Laws of meshes in the plane, by subject. These calls compute nothing: a caller learns what they
//! ensure.

pub mod covering;
pub mod edits;
pub mod hull;
pub mod location;
pub mod removal;
pub mod segments;
pub mod star;
