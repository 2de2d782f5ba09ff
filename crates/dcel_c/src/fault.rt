//! What is told of links and faces that no mesh is made of.

ghost use Rattle.std.specs.Prelude.{◌≡◌};
ghost use Rattle.dcel_c.specs.Faults.{faces_fault, links_fault, other_count as counts_fault};

use dcel_exchange::FacesError;
use spade_dcel::operations::LinksFault;

/// What is wrong, by its number in the header, and where. What a kind says nothing of is 0.
#[repr(C)]
#[derive(Clone, Copy)]
pub struct DcelFault {
    pub kind: u32,
    /// The half edge, the vertex or the face that it is wrong with, or the genus.
    pub number: u64,
    /// The other face.
    pub other: u64,
    /// Where the side of a face starts and ends.
    pub from: u64,
    pub to: u64,
}

/// Returns that the counts of corners don't add up to the corners.
pub fn other_count() -> DcelFault
    ensures { result ≡ counts_fault }
{
    at_number(17, 0)
}

/// Returns a fault that speaks of one number.
fn at_number(kind: u32, number: usize) -> DcelFault
    ensures { result ≡ record { kind = kind; number = number; other = 0; from = 0; to = 0 } }
{
    DcelFault {
        kind,
        number: number as u64,
        other: 0,
        from: 0,
        to: 0,
    }
}

/// Returns what is told of links.
pub fn tell_links(fault: LinksFault) -> DcelFault
    ensures { result ≡ links_fault fault }
{
    match fault {
        LinksFault::Lengths => at_number(1, 0),
        LinksFault::TooMany => at_number(2, 0),
        LinksFault::NoFace => at_number(3, 0),
        LinksFault::MoreFaces => at_number(4, 0),
        LinksFault::NextOutOfRange(half) => at_number(5, half),
        LinksFault::OriginOutOfRange(half) => at_number(6, half),
        LinksFault::FaceOutOfRange(half) => at_number(7, half),
        LinksFault::TwoLeadTo(half) => at_number(8, half),
        LinksFault::OneEnd(half) => at_number(9, half),
        LinksFault::Apart(half) => at_number(10, half),
        LinksFault::LeavesFace(half) => at_number(11, half),
        LinksFault::FaceInParts(face) => at_number(12, face),
        LinksFault::VertexInParts(vertex) => at_number(13, vertex),
        LinksFault::UnusedFace(face) => at_number(14, face),
        LinksFault::NotConnected(half) => at_number(15, half),
        LinksFault::NotSphere(genus) => at_number(16, genus),
    }
}

/// Returns what is told of faces. Of memory nothing is.
pub fn tell_faces(reason: FacesError) -> DcelFault
    ensures { result ≡ faces_fault reason }
{
    match reason {
        FacesError::FewCorners(face) => at_number(18, face),
        FacesError::TooManyCorners => at_number(19, 0),
        FacesError::NoVertex(face, corner) => side(20, face, corner, 0),
        FacesError::OneEnd(face, corner) => side(21, face, corner, corner),
        FacesError::SideTwice(face, other, from, to) => DcelFault {
            other: other as u64,
            ..side(22, face, from, to)
        },
        FacesError::BorderTwice(vertex) => at_number(23, vertex as usize),
        FacesError::Closed => tell_links(LinksFault::UnusedFace(0)),
        FacesError::Borders => tell_links(LinksFault::FaceInParts(0)),
        FacesError::NotConnected(half) => tell_links(LinksFault::NotConnected(half)),
        FacesError::Links(fault) => tell_links(fault),
        FacesError::OutOfMemory => at_number(0, 0),
    }
}

/// Returns a fault that speaks of a side of a face.
fn side(kind: u32, face: u32, from: u32, to: u32) -> DcelFault
    ensures { result ≡ record { kind = kind; number = face; other = 0; from = from; to = to } }
{
    DcelFault {
        kind,
        number: face as u64,
        other: 0,
        from: from as u64,
        to: to as u64,
    }
}
