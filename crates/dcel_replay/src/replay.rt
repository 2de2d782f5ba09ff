//! Lines carried out on a mesh.

ghost use Rattle.std.specs.Prelude.{◌≡◌, ◌^◌, ℕ, List, IfErr, IfNone, IfOk, IfSome, MatchOption, None, OnErr, OnOk, Some, false, option_map};
ghost use Rattle.dcel_commands.specs.Answering.{WritesSome};
ghost use Rattle.dcel_commands.specs.Conditions.{AllMet, FirstUnmet};
ghost use Rattle.dcel_commands.specs.Instructions.{Edit, Saying, instruction};
ghost use Rattle.dcel_commands.specs.Queries.{query_asks};
ghost use Rattle.dcel_commands.specs.Responses.{response};
ghost use Rattle.dcel_commands.specs.Spelling.{Spells};
ghost use Rattle.dcel_commands.specs.Talk.{Answers, start};
ghost use Rattle.dcel_replay.specs.Answering.{IsAnswered, IsCarriedOut, IsText, WritesText, lacks_memory};
ghost use Rattle.dcel_replay.specs.Lines.{Does, Echoes, IsWrong, Keeps, KeepsBut, Refuses, Replies, echoed, opens_removal};

use crate::answer::Answer;
use crate::wrong::Wrong;
use dcel_commands::commands::{
    Command, Failed, LineMesh, LineSink, MAX_LIMIT, Query, Refusal, Reply, Request, Writer, apply,
    read, tell, write_refusal, write_reply, write_told,
};
use spade_dcel::dcel::RemovalState;
use spade_dcel::operations;
use std::alloc::{AllocError, Allocator, Global};

/// The mesh that lines are about, whose data are numbers.
pub type Mesh<A = Global> = LineMesh<A>;

/// The mesh that the lines so far have left.
#[derive(Drop)]
pub struct Replay<A: Allocator = Global> {
    alloc: A,
    mesh: Mesh<A>,
    before: Option<Mesh<A>>,
}

impl<A: Allocator + Copy> Replay<A> {
    /// Starts with an empty mesh. If memory runs out it returns `AllocError`.
    pub fn new(alloc: A) -> Result<Self, AllocError>
        ensures mesh { IfOk result (λ replay. replay.mesh ≡ start) }
        ensures before { IfOk result (λ replay. replay.before ≡ None) }
    {
        Ok(Replay {
            alloc,
            mesh: operations::new(alloc)?,
            before: None,
        })
    }

    /// Returns the same once more. If memory runs out it returns `AllocError`.
    pub fn try_clone(&self) -> Result<Self, AllocError>
        ensures mesh { IfOk result (λ replay. replay.mesh ≡ self.now.mesh) }
        ensures before { IfOk result (λ replay. replay.before ≡ self.now.before) }
    {
        let before = match &self.before {
            Some(before) => Some(before.try_clone(self.alloc)?),
            None => None,
        };
        Ok(Replay {
            alloc: self.alloc,
            mesh: self.mesh.try_clone(self.alloc)?,
            before,
        })
    }

    /// Lends the mesh.
    pub fn mesh(&self) -> &Mesh<A>
        ensures { result.now ≡ self.now.mesh }
    {
        &self.mesh
    }

    /// Lends what the mesh was before the removal that is open, as long as the edges and faces that
    /// this has given up are there.
    pub fn before(&self) -> Option<&Mesh<A>>
        ensures some { IfSome result (λ before. self.now.before ≡ Some before.now) }
        ensures none { IfNone result (self.now.before ≡ None) }
    {
        self.before.as_ref()
    }

    /// Does what a line says. One that is bad or refused leaves everything as it was.
    pub fn take(&mut self, line: &[u8]) -> Result<(), Wrong>
        ensures done { OnOk result ((said : Saying) × Spells said line.now
            × Does said self.old.mesh self.old.before self.new.mesh self.new.before) }
        ensures wrong { IfErr result (IsWrong self.old.mesh line.now) }
        ensures same { OnErr result ((self.new.mesh ≡ self.old.mesh)
            × (self.new.before ≡ self.old.before)) }
    {
        match self.hear(line) {
            Ok(Answer::BadLine) => Err(Wrong::BadLine),
            Ok(Answer::Refused(why)) => Err(Wrong::Refused(why)),
            Ok(Answer::Done(_)) => Ok(()),
            Ok(Answer::Asked(_)) => Ok(()),
            Err(error) => Err(Wrong::OutOfMemory(error)),
        }
    }

    /// Does what a line says, and returns what it is answered, which [`write`](Self::write) writes:
    /// a text that may answer it (clause `text`). One that is bad or refused changes nothing.
    ///
    /// If there is no memory for it, or to keep the mesh of before a removal, it returns `AllocError`,
    /// and nothing has changed.
    pub fn answer(&mut self, line: &[u8]) -> Result<Answer<A>, AllocError>
        ensures answered { IfOk result (λ answer. IsAnswered line.now answer self.old.mesh self.old.before self.new.mesh self.new.before) }
        ensures text { IfOk result (λ answer. (text : List ℕ) → IsText self.new.mesh answer text
            → Answers (2 ^ 31) self.old.mesh line.now text self.new.mesh) }
        ensures same { OnErr result (self.new ≡ self.old) }
    {
        let answer = self.hear(line)?;
        if lacks_memory(&answer) {
            return Err(AllocError);
        }
        Ok(answer)
    }

    /// Does what a line says, and returns what it is answered.
    fn hear(&mut self, line: &[u8]) -> Result<Answer<A>, AllocError>
        ensures answered { IfOk result (λ answer. IsAnswered line.now answer self.old.mesh self.old.before self.new.mesh self.new.before) }
        ensures no_memory { OnErr result ((said : Saying) × Spells said line.now) }
        ensures same { OnErr result ((self.new.mesh ≡ self.old.mesh)
            × (self.new.before ≡ self.old.before)) }
        ensures memory { self.new.alloc ≡ self.old.alloc }
    {
        match read(line, self.alloc) {
            None => Ok(Answer::BadLine),
            Some(Err(error)) => Err(error),
            Some(Ok(Request::Edit(command))) => self.carry_out(command),
            Some(Ok(Request::Ask(query))) => match try_telling(&self.mesh, &query) {
                Ok(()) => Ok(Answer::Asked(query)),
                Err(why) => Ok(Answer::Refused(why)),
            },
        }
    }

    /// Writes an answer into a sink, with the line feed at the end of each line. What a query asks is
    /// told of the mesh as it is now.
    ///
    /// Asks for a sink that hasn't failed. If it fails, it returns [`Failed`], and the sink has a
    /// beginning of the text at most.
    pub fn write<K: LineSink>(&self, answer: &Answer<A>, sink: &mut K) -> Result<(), Failed>
        requires { K.has_failed sink.old ≡ false }
        ensures { OnOk result (WritesText self.now.mesh answer.now (K.contents sink.old) (K.contents sink.new)) }
    {
        let mut out = Writer::new(sink);
        self.write_text(answer, &mut out);
        out.flush();
        if out.failed() {
            return Err(Failed);
        }
        Ok(())
    }

    /// Writes an answer to a writer.
    fn write_text<K: LineSink>(&self, answer: &Answer<A>, out: &mut Writer<'_, K>)
        ensures { WritesSome K.has_failed K.contents out.old out.new (IsText self.now.mesh answer.now) }
    {
        match answer {
            Answer::BadLine => out.write(b"bad line\n"),
            Answer::Refused(why) => write_refusal(out, *why),
            Answer::Done(reply) => write_reply(out, reply),
            Answer::Asked(query) => match tell(&self.mesh, *query) {
                Ok(told) => write_told(out, &told),
                Err(why) => write_refusal(out, why),
            },
        }
    }

    /// Carries a command out, and keeps what the mesh was before it if it opens a removal.
    fn carry_out(&mut self, command: Command<i64, A>) -> Result<Answer<A>, AllocError>
        ensures answered { IfOk result (λ answer. IsCarriedOut (instruction command) answer self.old.mesh self.old.before self.new.mesh self.new.before) }
        ensures same { OnErr result ((self.new.mesh ≡ self.old.mesh)
            × (self.new.before ≡ self.old.before)) }
        ensures memory { self.new.alloc ≡ self.old.alloc }
    {
        if !opens_removal(&command) {
            return match self.go_on(command) {
                Ok(reply) => Ok(Answer::Done(reply)),
                Err(why) => Ok(Answer::Refused(why)),
            };
        }
        let before = self.mesh.try_clone(self.alloc)?;
        match edit(&mut self.mesh, command) {
            Ok(reply) => {
                self.before = Some(before);
                Ok(Answer::Done(reply))
            }
            Err(why) => Ok(Answer::Refused(why)),
        }
    }

    /// Carries a command out that opens no removal, also on the mesh of before if it must.
    fn go_on(&mut self, command: Command<i64, A>) -> Result<Reply<i64, A>, Refusal>
        ensures edits { IfOk result (λ reply. Replies self.old.mesh (instruction command) (response reply) self.new.mesh) }
        ensures keeps { OnOk result (Keeps self.new.mesh.shape.removal (instruction command) self.old.before self.new.before) }
        ensures refused { IfErr result (Refuses self.old.mesh (Edit (instruction command))) }
        ensures same { OnErr result ((self.new.mesh ≡ self.old.mesh)
            × (self.new.before ≡ self.old.before)) }
        ensures memory { self.new.alloc ≡ self.old.alloc }
    {
        let echo = echo_of(&command);
        let reply = edit(&mut self.mesh, command)?;
        self.keep_before(echo);
        Ok(reply)
    }

    /// Keeps the mesh of before as long as what a removal has given up is there, and has it carry out
    /// what it must too.
    fn keep_before(&mut self, echo: Option<Command<i64, A>>)
        ensures keeps { KeepsBut self.old.mesh.shape.removal (option_map instruction echo) self.old.before self.new.before }
        ensures mesh { self.new.mesh ≡ self.old.mesh }
        ensures memory { self.new.alloc ≡ self.old.alloc }
    {
        match self.mesh.removal_state() {
            RemovalState::Isolated => self.echo(echo),
            _ => self.before = None,
        }
    }

    /// Has the mesh of before carry out what it must too. If there is no memory for that, nothing is
    /// told of before any more.
    fn echo(&mut self, echo: Option<Command<i64, A>>)
        ensures mesh { self.new.mesh ≡ self.old.mesh }
        ensures before { MatchOption echo (self.new.before ≡ self.old.before)
            (λ command. Echoes (instruction command) self.old.before self.new.before) }
        ensures memory { self.new.alloc ≡ self.old.alloc }
    {
        if let (Some(before), Some(echo)) = (&mut self.before, echo) {
            if edit(before, echo).is_err() {
                self.before = None;
            }
        }
    }
}

/// Tells nothing, but refuses what can't be told.
fn try_telling<A: Allocator>(mesh: &Mesh<A>, query: &Query) -> Result<(), Refusal>
    ensures met { OnOk result (AllMet mesh.now.shape (query_asks query.now)) }
    ensures refused { IfErr result (FirstUnmet mesh.now.shape (query_asks query.now)) }
{
    match tell(mesh, *query) {
        Ok(_) => Ok(()),
        Err(why) => Err(why),
    }
}

/// Carries a command out.
fn edit<A: Allocator + Copy>(
    mesh: &mut Mesh<A>,
    command: Command<i64, A>,
) -> Result<Reply<i64, A>, Refusal>
    ensures done { IfOk result (λ reply. Replies mesh.old (instruction command) (response reply) mesh.new) }
    ensures refused { IfErr result (Refuses mesh.old (Edit (instruction command))) }
    ensures same { OnErr result (mesh.new ≡ mesh.old) }
{
    match apply(mesh, command, MAX_LIMIT) {
        Ok(reply) => Ok(reply),
        Err(refused) => Err(refused.why),
    }
}

/// Returns whether a line was refused for want of memory.
fn lacks_memory<A: Allocator>(answer: &Answer<A>) -> bool
    ensures { result ≡ lacks_memory answer.now }
{
    matches!(answer, Answer::Refused(Refusal::OutOfMemory))
}

fn opens_removal<A: Allocator>(command: &Command<i64, A>) -> bool
    ensures { result ≡ opens_removal (instruction command.now) }
{
    matches!(
        command,
        Command::Isolate(..) | Command::Remesh(..) | Command::Strip(..)
    )
}

/// Returns the command that the mesh of before must carry out too, so that vertices have the same
/// numbers in both.
fn echo_of<A: Allocator>(command: &Command<i64, A>) -> Option<Command<i64, A>>
    ensures { option_map instruction result ≡ echoed (instruction command.now) }
{
    match command {
        Command::Append(datum) => Some(Command::Append(*datum)),
        Command::Swap(first, second) => Some(Command::Swap(*first, *second)),
        _ => None,
    }
}
