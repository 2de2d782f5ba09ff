//! Answering a line: it is read and carried out, and the reply is written.

ghost use Rattle.std.specs.Prelude.{◌≤◌, ◌^◌};
ghost use Rattle.dcel_commands.specs.Answering.{WritesSome};
ghost use Rattle.dcel_commands.specs.Talk.{Answers};

use crate::commands::{apply, tell};
use crate::reading::read;
use crate::refusal::Refusal;
use crate::replies::{write_refusal, write_reply, write_told};
use crate::request::{LineMesh, Request};
use dcel_text::output::Writer;
use dcel_text::sink::LineSink;
use std::alloc::Allocator;

/// Carries out what a line says, and writes the reply.
///
/// The lists of the line are allocated in `memory`.
pub fn answer<A: Allocator + Clone, B: Allocator + Copy, K: LineSink>(
    out: &mut Writer<'_, K>,
    mesh: &mut LineMesh<A>,
    memory: B,
    limit: usize,
    line: &[u8],
)
    requires { limit ≤ 2 ^ 31 }
    ensures { WritesSome K.has_failed K.contents out.old out.new (λ text. Answers limit mesh.old line.now text mesh.new) }
{
    match read(line, memory) {
        None => out.write(b"bad line\n"),
        Some(Err(_)) => write_refusal(out, Refusal::OutOfMemory),
        Some(Ok(Request::Edit(command))) => match apply(mesh, command, limit) {
            Ok(reply) => write_reply(out, &reply),
            Err(refused) => write_refusal(out, refused.why),
        },
        Some(Ok(Request::Ask(query))) => match tell(mesh, query) {
            Ok(told) => write_told(out, &told),
            Err(why) => write_refusal(out, why),
        },
    }
}
