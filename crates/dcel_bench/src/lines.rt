//! Lines that say commands, and the meshes that they make.
//!
//! A line is read into a [`Command`], which [`apply`] carries out on a mesh. The lists of a command
//! are in the memory that it is read into, so that requests of the call itself can be counted.

use crate::checks::same;
use crate::meshes::{Mesh, NO_LIMIT};
use dcel_commands::commands::{Command, Handed, Refusal, Refused, Reply, Request, apply, read};
use spade_dcel::operations::{IsolateVertexResult, new};
use std::alloc::Allocator;
use std::test::Fail;

/// An edge from vertex 0 to vertex 1.
pub const FIRST_EDGE: &str = "append 0\nappend 1\nsetup 0 1";

/// The line 2, 0, 1, 3.
pub const LINE: &str = "append 0\nappend 1\nsetup 0 1\nappend 2\nextend 0 2\nappend 3\nextend 1 3";

/// A triangle that vertex 3 cuts into three.
pub const CUT: &str = "triangle 0 1 2\nappend 3\ninsert 3 1";

/// Commands, with their lists in an allocator's memory.
pub type Commands<A> = Vec<Command<i64, A>, A>;

/// Reads a command, with its lists in `memory`, of which there is enough.
pub fn read_command<A: Allocator + Copy>(line: &str, memory: A) -> Result<Command<i64, A>, Fail> {
    match read(line.as_bytes(), memory) {
        Some(Ok(Request::Edit(command))) => Ok(command),
        _ => Err(Fail::new(format_args!("no command, or no memory for it: {line}"))),
    }
}

/// Reads commands, a line each.
pub fn read_commands<A: Allocator + Copy>(lines: &str, memory: A) -> Result<Commands<A>, Fail> {
    let mut commands = Vec::new(memory);
    for line in lines.lines() {
        commands.push(read_command(line, memory)?)?;
    }
    Ok(commands)
}

/// Returns the data that a command carries, as a refusal hands them back.
pub fn carried_by<A: Allocator>(command: &Command<i64, A>) -> Handed<i64> {
    match command {
        Command::Append(datum) | Command::Put(_, datum) => Handed::One(*datum),
        Command::Triangle(first, second, third) => Handed::Three(*first, *second, *third),
        _ => Handed::Nothing,
    }
}

/// Has the mesh carry out the command, and returns whether there was memory.
///
/// Without memory the data that the command carried have come back. Any other refusal fails the
/// test.
pub fn has_memory<A: Allocator + Clone, B: Allocator + Copy>(
    dcel: &mut Mesh<A>,
    command: Command<i64, B>,
) -> Result<bool, Fail> {
    let back = carried_by(&command);
    match apply(dcel, command, NO_LIMIT) {
        Ok(_) => Ok(true),
        Err(refused) => {
            let why = Refusal::OutOfMemory;
            same(refused, Refused { why, back }, "the refusal")?;
            Ok(false)
        }
    }
}

/// Has the mesh carry out the command that a line says.
fn carry_out_line<A: Allocator + Clone, B: Allocator + Copy>(
    dcel: &mut Mesh<A>,
    line: &str,
    memory: B,
) -> Result<(), Fail> {
    let command = read_command(line, memory)?;
    match apply(dcel, command, NO_LIMIT) {
        Ok(_) => Ok(()),
        Err(refused) => Err(Fail::new(format_args!("{line}: {:?}", refused.why))),
    }
}

/// Has the mesh carry out the command of each line. None is refused.
///
/// The lists of the lines are in `memory`.
pub fn carry_out<A: Allocator + Clone, B: Allocator + Copy>(
    dcel: &mut Mesh<A>,
    lines: &str,
    memory: B,
) -> Result<(), Fail> {
    for line in lines.lines() {
        carry_out_line(dcel, line, memory)?;
    }
    Ok(())
}

/// Makes a mesh in `memory` by the commands of these lines.
pub fn grown<A: Allocator + Copy>(memory: A, lines: &str) -> Result<Mesh<A>, Fail> {
    let mut dcel: Mesh<A> = new(memory)?;
    carry_out(&mut dcel, lines, memory)?;
    Ok(dcel)
}

/// Opens a removal by a line. Returns what is given up and put in.
pub fn opened<A: Allocator + Clone, B: Allocator + Copy>(
    dcel: &mut Mesh<A>,
    line: &str,
    memory: B,
) -> Result<IsolateVertexResult<A>, Fail> {
    let command = read_command(line, memory)?;
    match apply(dcel, command, NO_LIMIT) {
        Ok(Reply::Opened(opened)) => Ok(opened),
        _ => Err(Fail::new(format_args!("no removal is opened: {line}"))),
    }
}
