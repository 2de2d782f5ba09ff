//! A talk with a mesh: lines, the reply to each, and the mesh after it.

use dcel_commands::commands::{MAX_LIMIT, Refusal, Session, StdSink, Writer};
use dcel_programs::{before_comment, numbered_lines};
use dcel_replay::{Replay, Wrong};
use dcel_svg::{Picture, Places};
use std::alloc::{AllocError, Global};

/// A line of a talk.
#[derive(Drop)]
pub struct Step<'a> {
    /// Which line of the text it is, from 1.
    pub number: usize,
    /// What was said.
    pub line: &'a str,
    /// What was replied.
    pub reply: String,
    /// The mesh that it left.
    pub replay: Replay,
}

impl<'a> Step<'a> {
    /// Returns the picture of the mesh that the line left.
    pub fn picture(&self, alloc: Global, places: &Places) -> Result<Picture, AllocError> {
        Picture::new(alloc, self.replay.mesh(), self.replay.before(), places)
    }
}

/// Carries all lines out that say something. One that is bad or refused has its reply too, and the
/// talk goes on.
pub fn talk_of(alloc: Global, text: &str) -> Result<Vec<Step<'_>>, AllocError> {
    let mut session = Session::new(alloc)?;
    let mut replay = Replay::new(alloc)?;
    steps_of(alloc, &mut session, &mut replay, text)
}

fn steps_of<'a>(
    alloc: Global,
    session: &mut Session<Global>,
    replay: &mut Replay,
    text: &'a str,
) -> Result<Vec<Step<'a>>, AllocError> {
    let mut steps = Vec::new(alloc);
    for (number, said) in numbered_lines(text) {
        let line = before_comment(said).trim_ascii_end();
        if !line.is_empty() {
            steps.push(step_of(alloc, session, replay, number, line)?)?;
        }
    }
    Ok(steps)
}

/// Carries a line out.
fn step_of<'a>(
    alloc: Global,
    session: &mut Session<Global>,
    replay: &mut Replay,
    number: usize,
    line: &'a str,
) -> Result<Step<'a>, AllocError> {
    let reply = reply_to(alloc, session, line)?;
    carry_out(replay, line)?;
    Ok(Step {
        number,
        line,
        reply,
        replay: replay.try_clone()?,
    })
}

/// Has the mesh carry a line out, which changes nothing if it is bad or refused.
fn carry_out(replay: &mut Replay, line: &str) -> Result<(), AllocError> {
    match replay.take(line.as_bytes()) {
        Err(Wrong::OutOfMemory(error)) => Err(error),
        Err(Wrong::Refused(Refusal::OutOfMemory)) => Err(AllocError),
        _ => Ok(()),
    }
}

/// Returns the reply to a line, without the line feed at its end.
fn reply_to(
    alloc: Global,
    session: &mut Session<Global>,
    line: &str,
) -> Result<String, AllocError> {
    let mut sink = StdSink::new(Vec::new(alloc));
    let mut out = Writer::new(&mut sink);
    session.feed(&mut out, MAX_LIMIT, line.as_bytes());
    session.feed(&mut out, MAX_LIMIT, b"\n");
    out.flush();
    if out.failed() {
        return Err(AllocError);
    }
    String::from_str(
        alloc,
        String::from_utf8_lossy(alloc, &sink.into_inner())?.trim_ascii_end(),
    )
}
