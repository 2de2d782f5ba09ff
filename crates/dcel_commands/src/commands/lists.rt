//! Lists of commands, carried out one after another.

ghost use Rattle.std.specs.Prelude.{◌≡◌, ◌≤◌, ◌^◌, IfOk, IfErr, map};
ghost use Rattle.dcel_commands.specs.Edits.{RunEdits};
ghost use Rattle.dcel_commands.specs.Instructions.{instruction};
ghost use Rattle.dcel_commands.specs.Lists.{Run, Stops};
ghost use Rattle.dcel_commands.specs.Responses.{response};
ghost use Rattle.dcel_commands.specs.Triangles.{TrianglesStay, replies_of};
ghost use Rattle.dcel_maps.specs.Headline.{Headline};
ghost use Rattle.dcel_maps.specs.Shapes.{IsMesh};

use crate::commands::command::{Command, apply};
use crate::commands::reply::{Refused, Reply};
use crate::refusal::Refusal;
use spade_dcel::dcel::Dcel;
use spade_dcel::laws;
use std::alloc::{Allocator, Global};

/// How far a list of commands was carried out before it stopped.
///
/// Either a command was refused, or there was no memory for the replies.
#[derive(Drop)]
pub struct StoppedAt<V, A: Allocator = Global, B: Allocator = Global> {
    /// The replies to the commands that were carried out.
    pub done: Vec<Reply<V, A>, B>,
    /// Their number, which is the index of the command that was refused.
    pub at: usize,
    /// Its refusal, with the data that it carried.
    pub refused: Refused<V>,
}

/// Carries the commands out one after another, up to the first that is refused.
///
/// Asks for a limit of at most 2^31, which applies to each of them as in [`apply`].
///
/// Returns the reply to each command. The memory for the replies is requested first, from the
/// allocator of the list. If there is none, the refusal is [`Refusal::OutOfMemory`] at 0, no data
/// are returned, and the mesh is as it was. If a command is refused, the commands before it stay
/// carried out and their replies are returned; those after it are dropped. In each case the
/// resulting mesh is a connected map on the sphere, as
/// [`the_headline`](spade_dcel::laws::the_headline) says.
///
/// The resulting mesh comes from the one before by elementary edits: those of the commands that
/// were carried out, one after another.
///
/// If each live inner face is a triangle before, it is so afterwards, unless a command that was
/// carried out adds a face beside a half edge of an inner face, or splits one side of an edge whose
/// other half is on an inner face.
pub fn apply_all<
    V: Drop,
    DE: Default + Drop,
    UE: Default + Drop,
    F: Default + Drop,
    A: Allocator + Clone,
    B: Allocator + Copy,
>(
    dcel: &mut Dcel<V, DE, UE, F, A>,
    commands: Vec<Command<V, B>, B>,
    limit: usize,
) -> Result<Vec<Reply<V, A>, B>, StoppedAt<V, A, B>>
    requires { limit ≤ 2 ^ 31 }
    ensures run { IfOk result (λ replies.
        Run DE.is_default UE.is_default F.is_default limit dcel.old (map instruction commands.items) (map response replies.items) dcel.new) }
    ensures stopped { IfErr result (λ stopped.
        Stops DE.is_default UE.is_default F.is_default limit dcel.old (map instruction commands.items) (map response stopped.done.items) stopped.at stopped.refused dcel.new) }
    ensures mesh { IsMesh dcel.new }
    ensures headline { Headline dcel.new }
    ensures triangles { TrianglesStay DE.is_default UE.is_default F.is_default limit dcel.old (map instruction commands.items) (replies_of result) dcel.new }
    ensures edits { RunEdits DE.is_default UE.is_default F.is_default limit dcel.old (map instruction commands.items) (replies_of result) dcel.new }
{
    laws::every_mesh(dcel);
    let alloc = *commands.allocator();
    let mut done = match Vec::with_capacity(alloc, commands.len()) {
        Ok(empty) => empty,
        Err(_) => {
            return Err(StoppedAt {
                done: Vec::new(alloc),
                at: 0,
                refused: Refused::from(Refusal::OutOfMemory),
            });
        }
    };
    for command in commands {
        match apply(dcel, command, limit) {
            Ok(reply) => done.push_reserved(reply),
            Err(refused) => {
                let at = done.len();
                return Err(StoppedAt { done, at, refused });
            }
        }
    }
    Ok(done)
}
