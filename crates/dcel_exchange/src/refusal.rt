//! Why faces are refused.

use spade_dcel::operations::LinksFault;
use std::alloc::AllocError;
use std::error::Error;
use std::fmt;

/// The reason why faces were refused.
///
/// Faces are given by their places in the list, from 0 on, and corners by their vertices.
#[derive(Clone, Copy, PartialEq, Eq, Debug, Drop)]
pub enum FacesError {
    /// This face has fewer than three corners.
    FewCorners(usize),
    /// There are more than 2^31 corners.
    TooManyCorners,
    /// This face has this corner, which is not a vertex.
    NoVertex(u32, u32),
    /// A side of this face starts and ends at this vertex.
    OneEnd(u32, u32),
    /// These two faces, or one face twice, have a side from this vertex to that one.
    ///
    /// That is so where three faces meet along an edge, and where two neighbors are oriented in
    /// opposite ways.
    SideTwice(u32, u32, u32, u32),
    /// Two sides with no face on the other side end at this vertex.
    BorderTwice(u32),
    /// Each side has a face on the other side, so none is left for the outer face.
    ///
    /// [`from_closed_faces`](crate::from_closed_faces) makes one of the faces the outer one.
    Closed,
    /// The sides with no face on the other side are more than one border, of one surface or of
    /// several.
    Borders,
    /// This half edge isn't reached from half edge 0: there is one border at most, and the faces
    /// are not connected.
    NotConnected(usize),
    /// With these corners, the first fault of the links of the half edges, another one than the
    /// three above. In it half edges, vertices and faces have the numbers of the mesh: face 0 is
    /// the outer one, and place `k` of the list is face `k + 1`.
    Links(LinksFault),
    /// Memory ran out. That can come at any stage, even before a fault is found.
    OutOfMemory,
}

impl fmt::Display for FacesError {
    fn fmt<W: fmt::Write>(&self, f: &mut fmt::Formatter<W>) -> fmt::Result {
        match *self {
            FacesError::FewCorners(face) => {
                write!(f, "face {face} of the list has fewer than three corners")
            }
            FacesError::TooManyCorners => write!(f, "there are more than 2^31 corners"),
            FacesError::NoVertex(face, corner) => write!(
                f,
                "face {face} of the list has corner {corner}, and there is no such vertex"
            ),
            FacesError::OneEnd(face, corner) => {
                write!(
                    f,
                    "face {face} of the list has corner {corner} twice in a row"
                )
            }
            FacesError::SideTwice(first, second, from, to) => write!(
                f,
                "faces {first} and {second} of the list both have the side from {from} to {to}"
            ),
            FacesError::BorderTwice(vertex) => {
                write!(f, "two sides without a neighbor end at vertex {vertex}")
            }
            FacesError::Closed => write!(f, "no side is left for the outer face"),
            FacesError::Borders => write!(f, "the faces leave more than one border"),
            FacesError::NotConnected(half) => write!(
                f,
                "the faces are not connected: half edge {half} isn't reached from half edge 0"
            ),
            FacesError::Links(fault) => write_fault(f, fault),
            FacesError::OutOfMemory => write!(f, "out of memory"),
        }
    }
}

impl Error for FacesError {}

// Writes what is wrong with the links that faces give.
fn write_fault<W: fmt::Write>(f: &mut fmt::Formatter<W>, fault: LinksFault) -> fmt::Result {
    match fault {
        LinksFault::UnusedFace(_) | LinksFault::FaceInParts(_) => {
            write!(f, "no mesh has these faces: by the mesh's numbers, {fault}")
        }
        _ => write!(f, "no mesh has these faces: {fault}"),
    }
}

impl From<AllocError> for FacesError {
    ghost use Rattle.std.specs.Prelude.{◌≡◌};
    ghost use Rattle.dcel_exchange.specs.declared.refusal.FacesError.TheVariants.{OutOfMemory};

    ghost from_gives = { λ _ error. error ≡ OutOfMemory };

    fn from(_: AllocError) -> Self {
        FacesError::OutOfMemory
    }
}

/// The data of the vertices that were passed in, returned with the reason why there is no mesh.
#[derive(Drop)]
pub struct RefusedFaces<T, R = FacesError> {
    /// The reason.
    pub reason: R,
    /// The value that was passed in.
    pub back: T,
}

impl<T, R: fmt::Debug> fmt::Debug for RefusedFaces<T, R> {
    /// Shows the reason alone, so that the value may be of any type.
    fn fmt<W: fmt::Write>(&self, f: &mut fmt::Formatter<W>) -> fmt::Result {
        f.debug_struct("RefusedFaces")
            .field("reason", &self.reason)
            .finish_non_exhaustive()
    }
}

impl<T, R: fmt::Display> fmt::Display for RefusedFaces<T, R> {
    fn fmt<W: fmt::Write>(&self, f: &mut fmt::Formatter<W>) -> fmt::Result {
        write!(f, "{}", self.reason)
    }
}

impl<T: Drop, R: Error> Error for RefusedFaces<T, R> {}
