//! The edits, one for each place where a point can be: a vertex is appended and connected, and the
//! edges of the triangles that are new or changed are listed.
//!
//! If memory runs out before the vertex is connected, it is taken out again.

ghost use Rattle.std.specs.Prelude.{◌≡◌, ◌≢◌, ◌⊎◌, ◌<◌, ◌/◌, [], ◌∷◌, IfErr, IfOk, OnErr, OnOk};
ghost use Rattle.dcel_fixed.specs.HalfEdges.{rev};
ghost use Rattle.dcel_maps.specs.Conditions.{HasRoom, IsTriangle, IsUnconnected};
ghost use Rattle.dcel_maps.specs.edits.Create.{vertex_appended};
ghost use Rattle.dcel_maps.specs.Removals.{Closed};
ghost use Rattle.dcel_maps.specs.Renumbering.{vertex_taken_out};
ghost use Rattle.dcel_maps.specs.Shapes.{IsLive, IsMesh, face_of, next_of, prev_of};
ghost use Rattle.dcel_plane.specs.Edges.{edges_inserted};
ghost use Rattle.dcel_planar.specs.Edges.{IsSplit, KeepsEdgeData, KeepsEdges};
ghost use Rattle.dcel_planar.specs.Growing.{Gains, HasHull, IsOpen, IsInsertionReason};
ghost use Rattle.dcel_planar.specs.Leaving.{IsOutlined, IsNotPut, KeepsCirclesBut, KeepsDue};
ghost use Rattle.dcel_planar.specs.Places.{IsPlace};
ghost use Rattle.dcel_planar.specs.declared.position.PositionInTriangulation.TheVariants.{OnEdge, OnFace, OutsideOfConvexHull};

use crate::errors::InsertionError;
use crate::mesh::EdgeMesh;
use crate::planar::PlanarMesh;
use dcel_predicates::Point;
use spade_dcel::handles::{
    FixedDirectedEdgeHandle, FixedFaceHandle, FixedUndirectedEdgeHandle, FixedVertexHandle,
    InnerTag,
};
use spade_dcel::laws::every_mesh;
use spade_dcel::operations::{
    append_unconnected_vertex, create_new_face_adjacent_to_edge, insert_into_triangle, split_edge,
    split_half_edge, swap_remove_vertex,
};
use std::alloc::Allocator;

/// Appends a vertex, if there is memory for it, and numbers for it and for three edges and two faces.
pub(crate) fn append<UE, A: Allocator>(
    dcel: &mut EdgeMesh<UE, A>,
    point: Point,
) -> Result<FixedVertexHandle, InsertionError>
    requires closed { dcel.old.shape.removal ≡ Closed }
    ensures edit { OnOk result (dcel.new ≡ vertex_appended dcel.old point) }
    ensures answer { IfOk result (λ v. v ≡ dcel.old.shape.vertices) }
    ensures unconnected { IfOk result (λ v. IsUnconnected dcel.new.shape v) }
    ensures room { OnOk result (HasRoom dcel.new.shape 0 3 2) }
    ensures mesh { OnOk result (IsMesh dcel.new) }
    ensures refused { IfErr result (λ e. IsInsertionReason dcel.old.shape e × (dcel.new ≡ dcel.old)) }
{
    every_mesh(dcel);
    if !dcel.has_room(1, 3, 2) {
        return Err(InsertionError::TooManyPoints);
    }
    match append_unconnected_vertex(dcel, point) {
        Ok(vertex) => Ok(vertex),
        Err(_) => Err(InsertionError::OutOfMemory),
    }
}

/// Takes out the vertex that was appended last.
pub(crate) fn take_back<UE, A: Allocator>(
    dcel: &mut EdgeMesh<UE, A>,
    vertex: FixedVertexHandle,
) -> InsertionError
    requires closed { dcel.old.shape.removal ≡ Closed }
    requires unconnected { IsUnconnected dcel.old.shape vertex }
    ensures edit { dcel.new ≡ vertex_taken_out dcel.old vertex }
    ensures answer { result ≡ InsertionError.OutOfMemory }
{
    let _ = swap_remove_vertex(dcel, vertex);
    InsertionError::OutOfMemory
}

/// Returns the edges of a triangle.
pub fn edges_of<UE, A: Allocator>(
    dcel: &EdgeMesh<UE, A>,
    face: FixedFaceHandle<InnerTag>,
) -> [FixedUndirectedEdgeHandle; 3]
    requires inner { 0 < face }
    requires triangle { IsTriangle dcel.now.shape face }
    ensures { result ≡ edges_inserted dcel.now face }
{
    let edge = dcel.face(face).adjacent_edge();
    [
        edge.fix().as_undirected(),
        edge.next().fix().as_undirected(),
        edge.prev().fix().as_undirected(),
    ]
}

/// Returns the edges after and before a half edge.
pub(crate) fn edges_next_to<UE, A: Allocator>(
    dcel: &EdgeMesh<UE, A>,
    edge: FixedDirectedEdgeHandle,
) -> [FixedUndirectedEdgeHandle; 2]
    requires { IsLive dcel.now.shape edge }
    ensures { result ≡ next_of dcel.now.shape edge / 2 ∷ prev_of dcel.now.shape edge / 2 ∷ [] }
{
    let half = dcel.directed_edge(edge);
    [
        half.next().fix().as_undirected(),
        half.prev().fix().as_undirected(),
    ]
}

impl<UE: Default, A: Allocator> PlanarMesh<UE, A> {
    /// Puts a point into the triangle that it is in.
    pub(crate) fn put_in_face(
        &mut self,
        face: FixedFaceHandle<InnerTag>,
        point: Point,
    ) -> Result<FixedVertexHandle, InsertionError>
        requires hull { HasHull self.old.dcel }
        requires place { IsPlace self.old.dcel point (OnFace face) }
        ensures gains { IfOk result (Gains self.old.dcel self.new.dcel point) }
        ensures refused { IfErr result (IsNotPut self.old self.new) }
        ensures lists { KeepsDue self.old self.new }
        ensures edges { OnOk result (KeepsEdges UE.is_default self.old.dcel self.new.dcel) }
        ensures hull { OnOk result (HasHull self.new.dcel) }
        ensures circles { OnOk result (KeepsCirclesBut self.old.dcel self.new.dcel) }
    {
        every_mesh(&self.dcel);
        if self.due.reserve(3).is_err() {
            return Err(InsertionError::OutOfMemory);
        }
        let sides = edges_of(&self.dcel, face);
        let vertex = append(&mut self.dcel, point)?;
        let Ok(_) = insert_into_triangle(&mut self.dcel, vertex, face) else {
            return Err(take_back(&mut self.dcel, vertex));
        };
        self.due.push_reserved(sides[0]);
        self.due.push_reserved(sides[1]);
        self.due.push_reserved(sides[2]);
        Ok(vertex)
    }

    /// Puts a point on an edge between two triangles.
    pub(crate) fn put_on_edge(
        &mut self,
        edge: FixedDirectedEdgeHandle,
        point: Point,
    ) -> Result<FixedVertexHandle, InsertionError>
        requires hull { HasHull self.old.dcel }
        requires place { IsPlace self.old.dcel point (OnEdge edge) }
        requires inner { 0 < face_of self.old.dcel.shape edge }
        requires inner_facing { 0 < face_of self.old.dcel.shape (rev edge) }
        ensures gains { IfOk result (Gains self.old.dcel self.new.dcel point) }
        ensures refused { IfErr result (IsNotPut self.old self.new) }
        ensures lists { KeepsDue self.old self.new }
        ensures edge_data { OnOk result (KeepsEdgeData UE.is_default self.old.dcel self.new.dcel) }
        ensures split { IfOk result (IsSplit self.old.dcel self.new.dcel edge) }
        ensures hull { OnOk result (HasHull self.new.dcel) }
        ensures circles { OnOk result (KeepsCirclesBut self.old.dcel self.new.dcel) }
    {
        every_mesh(&self.dcel);
        if self.due.reserve(8).is_err() {
            return Err(InsertionError::OutOfMemory);
        }
        let near = edges_next_to(&self.dcel, edge);
        let far = edges_next_to(&self.dcel, edge.rev());
        let count = self.dcel.num_undirected_edges();
        let vertex = append(&mut self.dcel, point)?;
        let Ok(_) = split_edge(&mut self.dcel, edge, vertex) else {
            return Err(take_back(&mut self.dcel, vertex));
        };
        self.due.push_reserved(near[0]);
        self.due.push_reserved(near[1]);
        self.due.push_reserved(far[0]);
        self.due.push_reserved(far[1]);
        self.due.push_reserved(edge.as_undirected());
        self.due
            .push_reserved(FixedUndirectedEdgeHandle::new(count));
        self.due
            .push_reserved(FixedUndirectedEdgeHandle::new(count + 1));
        self.due
            .push_reserved(FixedUndirectedEdgeHandle::new(count + 2));
        Ok(vertex)
    }

    /// Puts a point on an edge of the hull, by its inner half.
    pub(crate) fn put_on_hull(
        &mut self,
        edge: FixedDirectedEdgeHandle,
        point: Point,
    ) -> Result<FixedVertexHandle, InsertionError>
        requires hull { HasHull self.old.dcel }
        requires place { IsPlace self.old.dcel point (OnEdge edge) }
        requires outer { face_of self.old.dcel.shape (rev edge) ≡ 0 }
        ensures gains { IfOk result (Gains self.old.dcel self.new.dcel point) }
        ensures refused { IfErr result (IsNotPut self.old self.new) }
        ensures lists { KeepsDue self.old self.new }
        ensures edge_data { OnOk result (KeepsEdgeData UE.is_default self.old.dcel self.new.dcel) }
        ensures split { IfOk result (IsSplit self.old.dcel self.new.dcel edge) }
        ensures hull { OnOk result (HasHull self.new.dcel) }
        ensures circles { OnOk result (KeepsCirclesBut self.old.dcel self.new.dcel) }
    {
        every_mesh(&self.dcel);
        if self.due.reserve(5).is_err() {
            return Err(InsertionError::OutOfMemory);
        }
        let sides = edges_next_to(&self.dcel, edge);
        let count = self.dcel.num_undirected_edges();
        let vertex = append(&mut self.dcel, point)?;
        let Ok(_) = split_half_edge(&mut self.dcel, edge, vertex) else {
            return Err(take_back(&mut self.dcel, vertex));
        };
        self.due.push_reserved(sides[0]);
        self.due.push_reserved(sides[1]);
        self.due.push_reserved(edge.as_undirected());
        self.due
            .push_reserved(FixedUndirectedEdgeHandle::new(count));
        self.due
            .push_reserved(FixedUndirectedEdgeHandle::new(count + 1));
        Ok(vertex)
    }

    /// Puts a point that is outside of the hull, or beside a line, beside one edge of it: the hull
    /// is then still to be closed round the vertex ([`close_hull`](Self::close_hull)).
    pub(crate) fn put_beside(
        &mut self,
        edge: FixedDirectedEdgeHandle,
        point: Point,
    ) -> Result<FixedVertexHandle, InsertionError>
        requires hull { IsOutlined self.old.dcel }
        requires place { IsPlace self.old.dcel point (OutsideOfConvexHull edge) }
        ensures gains { IfOk result (Gains self.old.dcel self.new.dcel point) }
        ensures refused { IfErr result (IsNotPut self.old self.new) }
        ensures lists { KeepsDue self.old self.new }
        ensures edges { OnOk result (KeepsEdges UE.is_default self.old.dcel self.new.dcel) }
        ensures open { IfOk result (IsOpen self.new.dcel) }
        ensures listed { OnOk result (self.new.due.items ≢ []) }
        ensures circles { OnOk result (KeepsCirclesBut self.old.dcel self.new.dcel) }
    {
        every_mesh(&self.dcel);
        if self.due.reserve(3).is_err() {
            return Err(InsertionError::OutOfMemory);
        }
        let count = self.dcel.num_undirected_edges();
        let vertex = append(&mut self.dcel, point)?;
        let Ok(_) = create_new_face_adjacent_to_edge(&mut self.dcel, edge, vertex) else {
            return Err(take_back(&mut self.dcel, vertex));
        };
        self.due.push_reserved(edge.as_undirected());
        self.due
            .push_reserved(FixedUndirectedEdgeHandle::new(count));
        self.due
            .push_reserved(FixedUndirectedEdgeHandle::new(count + 1));
        Ok(vertex)
    }
}
