//! The vertex nearest to a point, where walks begin, and answers for many points.

mod all;
mod start;
mod walk;

pub(crate) use start::start_near;
pub(crate) use walk::nearest;
