//! Many edits by one call.

ghost use Rattle.std.specs.Prelude.{◌≡◌, ◌≢◌, ◌<◌, ◌^◌, ◌↔◌, ◌⊎◌, IfNone, IfSome, None, Some, drop, length, take};
ghost use Rattle.dcel_commands.specs.Instructions.{instruction};
ghost use Rattle.dcel_commands.specs.Responses.{response};
ghost use Rattle.dcel_c.specs.Batch.{Answers, AppliesAll, element, instruction_of, moved_told, number_told};
ghost use Rattle.dcel_c.specs.Calls.{kept_in, nowhere};

use crate::edits::edit;
use crate::mesh::DcelMesh;
use crate::status::{DONE, NO_MESH, NO_SUCH_EDIT, NONE, SHORT};
use dcel_commands::commands::{Command, Reply};
use spade_dcel::handles::{
    FixedDirectedEdgeHandle, FixedFaceHandle, FixedUndirectedEdgeHandle, FixedVertexHandle,
};
use std::alloc::Global;

/// An edit: its call, by the place in the header's list, and the numbers that the call takes, in
/// their order. The call ignores those that it doesn't take.
#[repr(C)]
#[derive(Clone, Copy)]
pub struct DcelEdit {
    pub call: u64,
    pub first: u64,
    pub second: u64,
    pub third: u64,
}

/// What the call of an edit returned.
#[repr(C)]
#[derive(Clone, Copy)]
pub struct DcelReply {
    /// The status.
    pub status: u64,
    /// The number that the call tells, the datum of a vertex that was taken out, or 2^64 - 1.
    pub number: u64,
    /// The old number of the vertex that was moved into the place of one that was taken out, or
    /// 2^64 - 1.
    pub moved: u64,
}

/// Returns the command that an edit is, if there is one.
fn command_of(edit: DcelEdit) -> Option<Command<u64, Global>>
    ensures some { IfSome result (λ command. instruction_of edit ≡ Some (instruction command)) }
    ensures none { IfNone result (instruction_of edit ≡ None) }
{
    if edit.call < 8 {
        return Some(growth_of(edit));
    }
    if edit.call < 16 {
        return Some(change_of(edit));
    }
    None
}

/// Returns the number of an element, or of none where no element can have it.
fn element(number: u64) -> usize
    ensures element { result ≡ element number }
    ensures range { result < 2 ^ 32 }
{
    number.min(u32::MAX as u64) as usize
}

/// Returns the command of one of the first eight calls.
fn growth_of(edit: DcelEdit) -> Command<u64, Global>
    requires { edit.call < 8 }
    ensures { instruction_of edit ≡ Some (instruction result) }
{
    let (first, second) = (element(edit.first), element(edit.second));
    let vertex = FixedVertexHandle::new(second);
    match edit.call {
        0 => Command::Append(edit.first),
        1 => Command::Triangle(edit.first, edit.second, edit.third),
        2 => Command::Setup(FixedVertexHandle::new(first), vertex),
        3 => Command::Extend(FixedVertexHandle::new(first), vertex),
        4 => Command::Line(FixedDirectedEdgeHandle::new(first), vertex),
        5 => Command::Close(FixedDirectedEdgeHandle::new(first)),
        6 => Command::Outside(FixedDirectedEdgeHandle::new(first), vertex),
        _ => Command::Insert(FixedVertexHandle::new(first), FixedFaceHandle::new(second)),
    }
}

/// Returns the command of one of the last eight calls.
fn change_of(edit: DcelEdit) -> Command<u64, Global>
    requires most { edit.call < 16 }
    requires least { 7 < edit.call }
    ensures { instruction_of edit ≡ Some (instruction result) }
{
    let (first, second) = (element(edit.first), element(edit.second));
    let vertex = FixedVertexHandle::new(second);
    match edit.call {
        8 => Command::Half(FixedDirectedEdgeHandle::new(first), vertex),
        9 => Command::Split(FixedDirectedEdgeHandle::new(first), vertex),
        10 => Command::Flip(FixedUndirectedEdgeHandle::new(first)),
        11 => Command::Swap(FixedVertexHandle::new(first), vertex),
        12 => Command::Put(FixedVertexHandle::new(first), edit.second),
        13 => Command::Remove(FixedVertexHandle::new(first)),
        14 => Command::Degenerate(FixedVertexHandle::new(first)),
        _ => Command::Clear,
    }
}

/// Returns a reply that tells no number.
fn without_number(status: u64) -> DcelReply
    ensures { result ≡ record { status = status; number = nowhere; moved = nowhere } }
{
    DcelReply {
        status,
        number: NONE,
        moved: NONE,
    }
}

/// Returns the number that is told of a reply.
fn number_in(reply: &Reply<u64, Global>) -> u64
    ensures { result ≡ number_told (response reply.now) }
{
    match reply {
        Reply::Vertex(vertex) => vertex.index() as u64,
        Reply::Half(half) => half.index() as u64,
        Reply::Halves(halves) => {
            let halves = &halves[..];
            halves[1].index() as u64
        }
        Reply::Removed(removed) => removed.removed_vertex,
        _ => NONE,
    }
}

/// Returns the old number of the vertex that was moved, if a reply has one.
fn moved_in(reply: &Reply<u64, Global>) -> u64
    ensures { result ≡ moved_told (response reply.now) }
{
    let Reply::Removed(removed) = reply else {
        return NONE;
    };
    match removed.swapped_in_vertex {
        Some(vertex) => vertex.index() as u64,
        None => NONE,
    }
}

/// Returns what is told of a reply.
fn told(reply: &Reply<u64, Global>) -> DcelReply
    ensures { result ≡ record { status = 0; number = number_told (response reply.now); moved = moved_told (response reply.now) } }
{
    DcelReply {
        status: DONE as u64,
        number: number_in(reply),
        moved: moved_in(reply),
    }
}

/// Carries out an edit, and returns how it ended.
fn apply_one(mesh: &mut DcelMesh, given: DcelEdit) -> DcelReply
    ensures { Answers (kept_in mesh.old) given (kept_in mesh.new) result }
{
    let Some(command) = command_of(given) else {
        return without_number(NO_SUCH_EDIT as u64);
    };
    match edit(mesh, command) {
        Ok(reply) => told(&reply),
        Err(status) => without_number(status as u64),
    }
}

/// Carries out edits in their order, and puts how each ended into the buffer.
///
/// An edit that is refused changes nothing, and the next one follows. The buffer must have a place
/// for each edit; what is behind these stays. If it is short, or there is no mesh, nothing changes.
#[unsafe(no_mangle)]
pub extern "C" fn dcel_apply_all(
    mesh: &mut DcelMesh,
    edits: &[DcelEdit],
    replies: &mut [DcelReply],
) -> u32
    ensures done { result ≡ 0 → AppliesAll (kept_in mesh.old) edits.now (kept_in mesh.new) (take (length edits.now) replies.new) }
    ensures behind { drop (length edits.now) replies.new ≡ drop (length edits.now) replies.old }
    ensures refused { result ≢ 0 → (kept_in mesh.new ≡ kept_in mesh.old) × (replies.new ≡ replies.old) }
    ensures short { (result ≡ 22) ↔ (length replies.old < length edits.now) }
    ensures no_mesh { result ≡ 21 → kept_in mesh.old ≡ None }
    ensures status { (result ≡ 0) ⊎ (result ≡ 21) ⊎ (result ≡ 22) }
{
    if replies.len() < edits.len() {
        return SHORT;
    }
    if !mesh.is_open {
        return NO_MESH;
    }
    let mut at = 0;
    while at < edits.len() {
        replies[at] = apply_one(mesh, edits[at]);
        at += 1;
    }
    DONE
}
