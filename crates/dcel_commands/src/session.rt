//! A session: it takes the bytes of lines in pieces, and writes the replies to a writer.

ghost use Rattle.std.specs.Prelude.{◌≡◌, ◌≤◌, ◌^◌, ◌++◌, ◌∷◌, ℕ, [], IfOk};
ghost use Rattle.dcel_text.specs.Lines.{HasNoFeed, line_feed};
ghost use Rattle.dcel_commands.specs.Stage.{Stage, Serves, Ends, closing};
ghost use Rattle.dcel_commands.specs.Talk.{start};

use crate::answering::answer;
use crate::request::LineMesh;
use dcel_text::buffer::Buffer;
use dcel_text::lines::split_line;
use dcel_text::output::Writer;
use dcel_text::sink::LineSink;
use spade_dcel::operations;
use std::alloc::{AllocError, Allocator};
use std::marker::Model;

/// One byte more than a line may have: a line that fills the buffer is too long, however it
/// continues.
const FULL: usize = 4097;

/// The mesh, the memory for the lists of lines, and the bytes of an unfinished line.
#[derive(Drop)]
pub struct Session<A: Allocator> {
    mesh: LineMesh<A>,
    alloc: A,
    line: Buffer<FULL>,
}

impl<A: Allocator> Model for Session<A> {
    ghost use Rattle.dcel_commands.specs.Stage.{Stage};

    ghost Value = { Stage };

    ghost view = { λ session. record { mesh = session.mesh; begun = session.line } };
}

impl<A: Allocator + Clone> Session<A> {
    /// Starts with an empty mesh, before anything is read.
    pub fn new(alloc: A) -> Result<Self, AllocError>
        ensures { IfOk result (λ session. session ≡ record { mesh = start; begun = [] }) }
    {
        let mesh = operations::new(alloc.clone()?)?;
        Ok(Session {
            mesh,
            alloc,
            line: Buffer::new(),
        })
    }
}

impl<A: Allocator + Clone> Session<A> {
    /// Takes the last bytes of a line, and answers it.
    fn end_line<K: LineSink>(&mut self, out: &mut Writer<'_, K>, limit: usize, last: &[u8])
        requires no_feed { HasNoFeed last.now }
        requires in_range { limit ≤ 2 ^ 31 }
        ensures serves { Serves K.has_failed K.contents limit self.old self.new (last.now ++ line_feed ∷ []) out.old out.new }
        ensures empty { self.new.begun ≡ [] }
    {
        if self.line.is_empty() {
            // The whole line is in the piece.
            answer(out, &mut self.mesh, &self.alloc, limit, last);
        } else {
            self.line.add_some(last);
            answer(
                out,
                &mut self.mesh,
                &self.alloc,
                limit,
                self.line.as_slice(),
            );
            self.line.clear();
        }
    }

    /// Takes the next bytes, and answers each line that ends in them.
    pub fn feed<K: LineSink>(&mut self, out: &mut Writer<'_, K>, limit: usize, piece: &[u8])
        requires { limit ≤ 2 ^ 31 }
        ensures { Serves K.has_failed K.contents limit self.old self.new piece.now out.old out.new }
    {
        let mut rest = piece;
        while let Some((line, others)) = split_line(rest) {
            self.end_line(out, limit, line);
            rest = others;
        }
        self.line.add_some(rest);
    }

    /// Lends the mesh, as the lines that were answered have left it.
    pub fn mesh(&self) -> &LineMesh<A>
        ensures { result.now ≡ self.now.mesh }
    {
        &self.mesh
    }

    /// Answers a last line that has no line feed, unless it is empty.
    ///
    /// Afterwards no line is unfinished, as if a line feed had ended the last one.
    pub fn finish<K: LineSink>(&mut self, out: &mut Writer<'_, K>, limit: usize)
        requires { limit ≤ 2 ^ 31 }
        ensures ends { Ends K.has_failed K.contents limit self.old out.old out.new }
        ensures serves { Serves K.has_failed K.contents limit self.old self.new (closing self.old.begun) out.old out.new }
        ensures empty { self.new.begun ≡ [] }
    {
        if self.line.is_empty() {
            return;
        }
        self.end_line(out, limit, &[]);
    }
}
