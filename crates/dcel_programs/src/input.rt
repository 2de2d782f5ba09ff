//! Texts that are read, line by line.

ghost use Rattle.std.specs.Prelude.{◌≡◌, ◌==◌, IfOk, IsOk, false};
ghost use Rattle.std.specs.List.{before_first};
ghost use Rattle.std.specs.Str.{IsUtf8};
ghost use Rattle.std.specs.Str.Lossy.{utf8_lossy};
ghost use Rattle.std.specs.String.{string_bytes};

use crate::fault::Fault;
use std::alloc::{AllocError, Global};
use std::fmt::{Debug, Display};
use std::fs;
use std::io::{self, Read};
use std::iter::Zip;
use std::ops::Range;
use std::rt::Files;
use std::str::Lines;

/// Reads a file, or standard input. What is no text in it becomes U+FFFD, so it may stand in a
/// comment.
pub fn read_text<W: Display + Debug + Drop>(
    rt: &(impl Files + Input + AllocGlobal),
    file: Option<&str>,
) -> Result<String, Fault<W>> {
    match read_bytes(rt, file) {
        Ok(bytes) => Ok(text_of(rt.alloc(), bytes)?),
        Err(error) => {
            let path = file.unwrap_or("standard input");
            Err(Fault::of_file(rt.alloc(), path, error))
        }
    }
}

/// Says on standard error that somebody is to type standard input, where that is so.
pub fn report_wait(rt: &impl Eprint, name: &str, is_typed: bool) -> io::Result<()>
    ensures { is_typed ≡ false → IsOk result }
{
    if is_typed {
        eprintln!(rt; "{name}: reading standard input; Ctrl-D ends it")?;
    }
    Ok(())
}

/// Reads all bytes.
fn read_bytes(rt: &(impl Files + Input + AllocGlobal), file: Option<&str>) -> io::Result<Vec<u8>> {
    match file {
        Some(path) => fs::read(rt, path),
        None => {
            let mut bytes = Vec::new(rt.alloc());
            rt.reader().read_to_end(&mut bytes)?;
            Ok(bytes)
        }
    }
}

/// Returns bytes as text.
fn text_of(alloc: Global, bytes: Vec<u8>) -> Result<String, AllocError>
    ensures text { IfOk result (λ text. IsUtf8 bytes.items → string_bytes text ≡ bytes.items) }
    ensures other { IfOk result (λ text. ¬ IsUtf8 bytes.items → string_bytes text ≡ utf8_lossy bytes.items) }
{
    match String::from_utf8(bytes) {
        Ok(text) => Ok(text),
        Err(error) => String::from_utf8_lossy(alloc, error.as_bytes()),
    }
}

/// Lines with their numbers, from 1.
pub type NumberedLines<'a> = Zip<Range<usize>, Lines<'a>>;

/// Returns the lines of a text with their numbers, but for the mark of UTF-8 that some programs
/// begin a file with.
pub fn numbered_lines(text: &str) -> NumberedLines<'_> {
    let unmarked = text.strip_prefix('\u{feff}').unwrap_or(text);
    (1..usize::MAX).zip(unmarked.lines())
}

/// Returns what stands before the first `#` of a line.
pub fn before_comment(line: &str) -> &str
    ensures { result.now ≡ before_first (λ byte. byte == 35) line.now }
{
    match line.split_once('#') {
        Some((before, _)) => before,
        None => line,
    }
}
