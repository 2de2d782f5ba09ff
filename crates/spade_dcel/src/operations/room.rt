//! How many numbers each call that adds elements takes.

ghost use Rattle.std.specs.Prelude.{◌≡◌, ◌-◌};

/// How many elements of each kind a call adds.
///
/// [`has_room_for`](crate::dcel::Dcel::has_room_for) reports whether there are numbers left for
/// them. Each call that adds elements has its constant; for those that fill a hole there is
/// [`filling`](Self::filling).
#[derive(Clone, Copy, PartialEq, Eq, Debug)]
pub struct Room {
    /// How many more vertices.
    pub vertices: usize,

    /// How many more undirected edges.
    pub undirected_edges: usize,

    /// How many more faces.
    pub faces: usize,
}

impl Room {
    /// What [`append_unconnected_vertex`](super::append_unconnected_vertex) adds.
    pub const APPEND_UNCONNECTED_VERTEX: Room = Room {
        vertices: 1,
        undirected_edges: 0,
        faces: 0,
    };

    /// What [`setup_initial_two_vertices`](super::setup_initial_two_vertices) adds.
    pub const SETUP_INITIAL_TWO_VERTICES: Room = Room {
        vertices: 0,
        undirected_edges: 1,
        faces: 0,
    };

    /// What [`extend_line`](super::extend_line) adds.
    pub const EXTEND_LINE: Room = Room {
        vertices: 0,
        undirected_edges: 1,
        faces: 0,
    };

    /// What [`split_edge_when_all_vertices_on_line`](super::split_edge_when_all_vertices_on_line)
    /// adds.
    pub const SPLIT_EDGE_WHEN_ALL_VERTICES_ON_LINE: Room = Room {
        vertices: 0,
        undirected_edges: 1,
        faces: 0,
    };

    /// What [`create_new_face_adjacent_to_edge`](super::create_new_face_adjacent_to_edge) adds.
    pub const CREATE_NEW_FACE_ADJACENT_TO_EDGE: Room = Room {
        vertices: 0,
        undirected_edges: 2,
        faces: 1,
    };

    /// What [`create_single_face_between_edge_and_next`] adds.
    ///
    /// [`create_single_face_between_edge_and_next`]: super::create_single_face_between_edge_and_next
    pub const CREATE_SINGLE_FACE_BETWEEN_EDGE_AND_NEXT: Room = Room {
        vertices: 0,
        undirected_edges: 1,
        faces: 1,
    };

    /// What [`insert_into_triangle`](super::insert_into_triangle) adds.
    pub const INSERT_INTO_TRIANGLE: Room = Room {
        vertices: 0,
        undirected_edges: 3,
        faces: 2,
    };

    /// What [`split_edge`](super::split_edge) adds.
    pub const SPLIT_EDGE: Room = Room {
        vertices: 0,
        undirected_edges: 3,
        faces: 2,
    };

    /// What [`split_half_edge`](super::split_half_edge) adds.
    pub const SPLIT_HALF_EDGE: Room = Room {
        vertices: 0,
        undirected_edges: 2,
        faces: 1,
    };

    /// What [`remove_from_triangle`](super::remove_from_triangle) adds, before it takes out more.
    pub const REMOVE_FROM_TRIANGLE: Room = Room {
        vertices: 0,
        undirected_edges: 0,
        faces: 1,
    };

    /// What [`remove_from_square`](super::remove_from_square) adds, before it takes out more.
    pub const REMOVE_FROM_SQUARE: Room = Room {
        vertices: 0,
        undirected_edges: 1,
        faces: 2,
    };

    /// Returns what a call adds that fills a hole bounded by this many half edges.
    ///
    /// The calls are [`isolate_vertex_and_fill_hole`](super::isolate_vertex_and_fill_hole) and
    /// [`remesh_edge_ring`](super::remesh_edge_ring). They take at least three half edges. For
    /// three they add one face and no edge, for four two faces and one edge.
    pub fn filling(half_edges: usize) -> Room
        ensures vertices { result.vertices ≡ 0 }
        ensures edges { result.undirected_edges ≡ half_edges - 3 }
        ensures faces { result.faces ≡ half_edges - 2 }
    {
        Room {
            vertices: 0,
            undirected_edges: half_edges.saturating_sub(3),
            faces: half_edges.saturating_sub(2),
        }
    }
}
