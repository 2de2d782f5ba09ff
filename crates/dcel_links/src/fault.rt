//! What can be wrong with claimed links.

use std::error::Error;
use std::fmt;

/// The reason why claimed links are refused. Reasons are tested in this order.
///
/// The three ranges are tested together, half edge by half edge, and so is whether links fit:
/// [`OneEnd`](Self::OneEnd), [`Apart`](Self::Apart) and [`LeavesFace`](Self::LeavesFace). Half
/// edges, vertices and faces are given by their numbers.
#[derive(Clone, Copy, PartialEq, Eq, Debug, Drop)]
pub enum LinksFault {
    /// The lists differ in length, or their length is odd.
    Lengths,
    /// There are more than 2^32 vertices, half edges or faces.
    TooMany,
    /// There is no outer face.
    NoFace,
    /// There are more faces than edges plus two.
    MoreFaces,
    /// The next half edge of this one is out of range.
    NextOutOfRange(usize),
    /// The origin of this half edge is out of range.
    OriginOutOfRange(usize),
    /// The face of this half edge is out of range.
    FaceOutOfRange(usize),
    /// This half edge is the next one of two half edges.
    TwoLeadTo(usize),
    /// This half edge starts and ends at the same vertex.
    OneEnd(usize),
    /// The next half edge doesn't start where this one ends.
    Apart(usize),
    /// The next half edge is on another face than this one.
    LeavesFace(usize),
    /// The half edges of this face are not a single cycle of next half edges.
    FaceInParts(usize),
    /// The half edges out of this vertex are not a single cycle around it.
    VertexInParts(usize),
    /// This face has no half edge.
    UnusedFace(usize),
    /// This half edge isn't connected to half edge 0.
    NotConnected(usize),
    /// The surface has this genus, not 0, by Euler's formula: vertices with an edge, minus edges,
    /// plus faces with one, are two minus twice the genus.
    NotSphere(usize),
}

impl fmt::Display for LinksFault {
    fn fmt<W: fmt::Write>(&self, f: &mut fmt::Formatter<W>) -> fmt::Result {
        match *self {
            LinksFault::Lengths => write!(f, "the lists have no item for each half of each edge"),
            LinksFault::TooMany => write!(
                f,
                "there are more than 2^32 vertices, half edges or faces"
            ),
            LinksFault::NoFace => write!(f, "there is no outer face"),
            LinksFault::MoreFaces => write!(f, "there are more faces than edges and two"),
            LinksFault::NextOutOfRange(half) => write!(
                f,
                "after half edge {half} comes none that there is"
            ),
            LinksFault::OriginOutOfRange(half) => write!(
                f,
                "half edge {half} starts at no vertex that there is"
            ),
            LinksFault::FaceOutOfRange(half) => write!(
                f,
                "half edge {half} lies on no face that there is"
            ),
            LinksFault::TwoLeadTo(half) => write!(f, "two half edges lead to half edge {half}"),
            LinksFault::OneEnd(half) => write!(f, "half edge {half} starts and ends at one vertex"),
            LinksFault::Apart(half) => write!(
                f,
                "what comes after half edge {half} doesn't start where it ends"
            ),
            LinksFault::LeavesFace(half) => write!(
                f,
                "what comes after half edge {half} lies on another face"
            ),
            LinksFault::FaceInParts(0) => write!(
                f,
                "the half edges of the outer face are no single loop"
            ),
            LinksFault::FaceInParts(face) => write!(
                f,
                "the half edges of face {face} are no single loop"
            ),
            LinksFault::VertexInParts(vertex) => write!(
                f,
                "the half edges of vertex {vertex} are no single turn"
            ),
            LinksFault::UnusedFace(0) => write!(f, "no half edge lies on the outer face"),
            LinksFault::UnusedFace(face) => write!(f, "no half edge lies on face {face}"),
            LinksFault::NotConnected(half) => write!(
                f,
                "half edge {half} isn't reached from half edge 0"
            ),
            LinksFault::NotSphere(genus) => write!(
                f,
                "the surface has genus {genus}, so it is not a sphere"
            ),
        }
    }
}

impl Error for LinksFault {}
