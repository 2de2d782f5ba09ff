//! What a mesh is told and answers, with what a host passes and gets.

ghost use Rattle.std.specs.Prelude.{◌≡◌, ◌≢◌, ◌⊎◌, ◌≤◌, ◌<◌, ℕ, List, IfOk, OnErr, OnOk, length};
ghost use Rattle.dcel_exports.specs.Answers.{HasAnswer};
ghost use Rattle.mesh_page.specs.Conversing.{Hears, IsBlank, IsReply};

use crate::desk::Conversation;
use crate::picture;
use crate::status::{DONE, NO_MEMORY, UNFINISHED};
use dcel_commands::commands::StdSink;
use dcel_exports::put;
use dcel_replay::Replay;
use dcel_svg::Style;
use lent_heap::Heap;
use std::alloc::AllocError;

impl Conversation {
    /// Starts with an empty mesh, before the first line.
    pub(crate) fn new(heap: &'static Heap) -> Result<Conversation, AllocError>
        ensures { IfOk result IsBlank }
    {
        Ok(Conversation {
            replay: Replay::new(heap)?,
            last: None,
        })
    }

    /// Has the mesh do what a line says, and keeps what that is answered. If there is no memory nothing
    /// changes.
    fn hear(&mut self, line: &[u8]) -> Result<(), AllocError>
        ensures hears { OnOk result (Hears line.now self.old self.new) }
        ensures same { OnErr result (self.new ≡ self.old) }
    {
        let answer = self.replay.answer(line)?;
        self.last = Some(answer);
        Ok(())
    }

    /// Returns the reply to the last line.
    fn reply(&self, heap: &'static Heap) -> Result<Vec<u8, &'static Heap>, AllocError>
        ensures { IfOk result (λ text. IsReply self.now text.items) }
    {
        let Some(answer) = &self.last else {
            return Ok(Vec::new(heap));
        };
        let mut sink = StdSink::new(Vec::new(heap));
        let Ok(()) = self.replay.write(answer, &mut sink) else {
            return Err(AllocError);
        };
        Ok(sink.into_inner())
    }
}

/// Has the mesh do what a line says, and puts the reply into the buffer.
pub(crate) fn answer(
    heap: &'static Heap,
    mesh: &mut Conversation,
    line: &[u8],
    reply: &mut [u8],
    needed: &mut u64,
) -> u32
    ensures hears { (result ≤ 1) ⊎ (result ≡ 5) → Hears line.now mesh.old mesh.new }
    ensures reply { result ≤ 1 → HasAnswer (IsReply mesh.new) reply.old reply.new needed.new }
    ensures done { result ≡ 0 → needed.new ≤ length reply.old }
    ensures short { result ≡ 1 → length reply.old < needed.new }
    ensures same { result ≡ 2 → mesh.new ≡ mesh.old }
    ensures untold { 2 ≤ result → (reply.new ≡ reply.old) × (needed.new ≡ 0) }
    ensures status { (result ≤ 2) ⊎ (result ≡ 5) }
{
    let Ok(()) = mesh.hear(line) else {
        *needed = 0;
        return NO_MEMORY;
    };
    let status = put_last(heap, mesh, reply, needed);
    if status == NO_MEMORY {
        return UNFINISHED;
    }
    status
}

/// Puts the reply to the last line into the buffer.
pub(crate) fn put_last(
    heap: &'static Heap,
    mesh: &Conversation,
    reply: &mut [u8],
    needed: &mut u64,
) -> u32
    ensures reply { result ≤ 1 → HasAnswer (IsReply mesh.now) reply.old reply.new needed.new }
    ensures done { result ≡ 0 → needed.new ≤ length reply.old }
    ensures short { result ≡ 1 → length reply.old < needed.new }
    ensures untold { result ≡ 2 → (reply.new ≡ reply.old) × (needed.new ≡ 0) }
    ensures no_other { result ≤ 2 }
{
    match mesh.reply(heap) {
        Ok(text) => put(&text, reply, needed),
        Err(_) => {
            *needed = 0;
            NO_MEMORY
        }
    }
}

/// Puts the SVG of the mesh into the buffer.
pub(crate) fn draw(
    heap: &'static Heap,
    mesh: &Conversation,
    anchors: bool,
    svg: &mut [u8],
    needed: &mut u64,
) -> u32
    ensures text { result ≤ 1 → HasAnswer (λ (text : List ℕ). Unit {0}) svg.old svg.new needed.new }
    ensures done { result ≡ 0 → needed.new ≤ length svg.old }
    ensures short { result ≡ 1 → length svg.old < needed.new }
    ensures untold { result ≡ 2 → (svg.new ≡ svg.old) × (needed.new ≡ 0) }
    ensures no_other { result ≤ 2 }
{
    match picture::draw(heap, &mesh.replay, Style::HalfEdges { anchors }) {
        Ok(text) => put(&text, svg, needed),
        Err(_) => {
            *needed = 0;
            NO_MEMORY
        }
    }
}
