//! The refusals, by number and by name.

ghost use Rattle.std.specs.Prelude.{◌≡◌};

/// The reason why a command was refused, in the order in which reasons are tested.
#[derive(Clone, Copy, Debug, PartialEq, Eq)]
pub enum Refusal {
    /// A vertex's number is out of range.
    NoSuchVertex = 1,
    /// An edge's number is out of range.
    NoSuchEdge,
    /// A face's number is out of range, or it is the outer face where an inner one is asked for.
    NoSuchFace,
    /// A removal is open.
    RemovalOpen,
    /// No removal is open that is still to be cleaned up.
    NoRemoval,
    /// An element is given up.
    GivenUp,
    /// Two vertices are the same.
    SameVertex,
    /// A vertex that must be unconnected has an edge.
    VertexInUse,
    /// The mesh has an edge.
    EdgesStand,
    /// The end of the line does not have exactly one out edge.
    NotLineEnd,
    /// The two halves of the edge are on different faces.
    NotBridge,
    /// The half edge isn't on the outer face.
    NotOuter,
    /// A face that must have three half edges doesn't.
    NotTriangle,
    /// An edge would join a vertex to itself.
    WouldLoop,
    /// The half edges aren't the ring that is asked for.
    BadRing,
    /// The half edges aren't the strip of a vertex.
    BadStrip,
    /// The lists aren't those of the open removal.
    WrongLists,
    /// The mesh is neither one vertex nor a path.
    NotPath,
    /// The limit or the range of numbers would be exceeded.
    NoRoom,
    /// Memory ran out.
    OutOfMemory,
}

impl Refusal {
    ghost use Rattle.dcel_commands.specs.Refusal.{refusal_number, name_of};

    /// Returns the number, from 1 to 20.
    pub fn number(self) -> u8
        ensures { result ≡ refusal_number self }
    {
        self as u8
    }

    /// Returns the name, as in the code.
    pub fn name(self) -> &'static str
        ensures { result.now ≡ name_of self }
    {
        match self {
            Refusal::NoSuchVertex => "NoSuchVertex",
            Refusal::NoSuchEdge => "NoSuchEdge",
            Refusal::NoSuchFace => "NoSuchFace",
            Refusal::RemovalOpen => "RemovalOpen",
            Refusal::NoRemoval => "NoRemoval",
            Refusal::GivenUp => "GivenUp",
            Refusal::SameVertex => "SameVertex",
            Refusal::VertexInUse => "VertexInUse",
            Refusal::EdgesStand => "EdgesStand",
            Refusal::NotLineEnd => "NotLineEnd",
            Refusal::NotBridge => "NotBridge",
            Refusal::NotOuter => "NotOuter",
            Refusal::NotTriangle => "NotTriangle",
            Refusal::WouldLoop => "WouldLoop",
            Refusal::BadRing => "BadRing",
            Refusal::BadStrip => "BadStrip",
            Refusal::WrongLists => "WrongLists",
            Refusal::NotPath => "NotPath",
            Refusal::NoRoom => "NoRoom",
            Refusal::OutOfMemory => "OutOfMemory",
        }
    }
}
