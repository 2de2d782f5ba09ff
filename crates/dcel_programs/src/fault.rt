//! Why a program gives up.

ghost use Rattle.std.specs.Prelude.{◌≡◌, ◌⊎◌, IsTrue, ◌↔◌};
ghost use Rattle.std.specs.String.{string_bytes};
ghost use Rattle.dcel_programs.specs.declared.fault.Fault.TheVariants.{File, LineOfFile, OutOfMemory};
ghost use Rattle.dcel_programs.specs.Endings.{IsEndOfReader};

use std::alloc::{AllocError, Global};
use std::fmt::{Debug, Display};
use std::io::{self, ErrorKind};
use thiserror::Error;

/// Why a program gives up. `W` is what can be wrong with its input.
#[derive(Debug, Drop, Error)]
pub enum Fault<W: Display + Debug + Drop> {
    /// The input as a whole is wrong.
    #[error("{0}")]
    Input(W),
    /// A line of the input is wrong.
    #[error("line {line}: {wrong}")]
    Line {
        /// The line's number, from 1.
        line: usize,
        /// What is wrong with it.
        wrong: W,
    },
    /// A line of another file is wrong.
    #[error("{path}, line {line}: {wrong}")]
    LineOfFile {
        /// The file.
        path: String,
        /// The line's number, from 1.
        line: usize,
        /// What is wrong with it.
        wrong: W,
    },
    /// A file could not be opened, made, read or written.
    #[error("{path}: {error}")]
    File {
        /// The file, or what stands for it.
        path: String,
        /// What the system says.
        error: io::Error,
    },
    /// Standard output could not be written.
    #[error("standard output: {0}")]
    Output(io::Error),
    /// The arguments or the clock could not be read, or standard error could not be written.
    #[error("{0}")]
    System(#[from] io::Error),
    /// There was no memory.
    #[error("out of memory")]
    OutOfMemory(#[from(alloc)] AllocError),
}

impl<W: Display + Debug + Drop> Fault<W> {
    /// Returns what the system says of a file, with the file's name.
    pub fn of_file(alloc: Global, path: &str, error: io::Error) -> Self
        ensures { ((error : _) × (result ≡ OutOfMemory error)) ⊎ ((name : _) × (string_bytes name ≡ path.now) × (result ≡ File name error)) }
    {
        match String::from_str(alloc, path) {
            Ok(path) => Fault::File { path, error },
            Err(error) => Fault::OutOfMemory(error),
        }
    }

    /// Returns what is wrong with a line of a file, with the file's name.
    pub fn of_line(alloc: Global, path: &str, line: usize, wrong: W) -> Self
        ensures { ((error : _) × (result ≡ OutOfMemory error)) ⊎ ((name : _) × (string_bytes name ≡ path.now) × (result ≡ LineOfFile name line wrong)) }
    {
        match String::from_str(alloc, path) {
            Ok(path) => Fault::LineOfFile { path, line, wrong },
            Err(error) => Fault::OutOfMemory(error),
        }
    }

    /// Returns whether nobody reads the output any more, so that nothing is left to do or to tell.
    pub fn is_end_of_reader(&self) -> bool
        ensures { IsTrue result ↔ IsEndOfReader self.now }
    {
        match self {
            Fault::Output(error) => error.kind() == ErrorKind::BrokenPipe,
            _ => false,
        }
    }
}
