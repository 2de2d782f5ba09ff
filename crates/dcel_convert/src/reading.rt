//! Files, which are read whole, and then line by line or as bytes.

use crate::arguments::{Arguments, Source};
use crate::claim::Claim;
use crate::fault::{Fault, NO_NUMBER, Wrong, at_byte, at_line};
use crate::obj::ObjReader;
use crate::off::{Layout, OffReader};
use crate::ply::{PlyReader, header_of, is_binary};
use crate::stl::{StlReader, count_of, is_text, read_binary, wrong_length};
use crate::surface::{Counted, Surface};
use crate::words::WordsReader;
use dcel_programs::{Progress, numbered_lines, read_text};
use std::alloc::{AllocError, Global};
use std::fs;
use std::io::{self, Read};
use std::rt::Files;

/// What reads a file line by line, and adds to a target what the lines say.
pub trait LineReader<T> {
    /// Reads a line.
    fn take(&mut self, alloc: Global, line: usize, text: &str, target: &mut T) -> Result<(), Wrong>;

    /// Ends the file, if it may end here.
    fn end(&mut self, alloc: Global, target: &mut T) -> Result<(), Wrong>;
}

/// Reads vertices and faces from the file, or from standard input.
pub fn read_surface(
    rt: &(impl Files + Input + Eprint + AllocGlobal),
    progress: Progress,
    arguments: &Arguments,
    surface: &mut Surface,
) -> Result<(), Fault> {
    match arguments.source {
        Source::Obj => read_obj(rt, progress, arguments, surface),
        Source::Ply => read_ply(rt, progress, arguments, surface),
        Source::Stl => read_stl(rt, progress, arguments, surface),
        _ => {
            let text = read_text(rt, arguments.file)?;
            read_off(rt, progress, text.as_str(), surface)
        }
    }
}

fn read_obj(
    rt: &(impl Files + Input + Eprint + AllocGlobal),
    progress: Progress,
    arguments: &Arguments,
    surface: &mut Surface,
) -> Result<(), Fault> {
    let text = read_text(rt, arguments.file)?;
    let mut reader = ObjReader::new(rt.alloc());
    read_lines(rt, progress, text.as_str(), &mut reader, surface)
}

/// Reads all bytes of a file, or of standard input.
fn read_bytes(
    rt: &(impl Files + Input + AllocGlobal),
    file: Option<&str>,
) -> Result<Vec<u8>, Fault> {
    match try_read(rt, file) {
        Ok(bytes) => Ok(bytes),
        Err(error) => {
            let path = file.unwrap_or("standard input");
            Err(Fault::of_file(rt.alloc(), path, error))
        }
    }
}

fn try_read(rt: &(impl Files + Input + AllocGlobal), file: Option<&str>) -> io::Result<Vec<u8>> {
    match file {
        Some(path) => fs::read(rt, path),
        None => {
            let mut bytes = Vec::new(rt.alloc());
            rt.reader().read_to_end(&mut bytes)?;
            Ok(bytes)
        }
    }
}

/// Returns bytes as text. What is none becomes U+FFFD.
fn text_of(alloc: Global, bytes: Vec<u8>) -> Result<String, AllocError> {
    match String::from_utf8(bytes) {
        Ok(text) => Ok(text),
        Err(error) => String::from_utf8_lossy(alloc, error.as_bytes()),
    }
}

/// Reads lines of bytes.
fn read_text_lines<R: LineReader<Surface>>(
    rt: &(impl Eprint + AllocGlobal),
    progress: Progress,
    bytes: Vec<u8>,
    reader: &mut R,
    surface: &mut Surface,
) -> Result<(), Fault> {
    let text = text_of(rt.alloc(), bytes)?;
    read_lines(rt, progress, text.as_str(), reader, surface)
}

/// Reads PLY, whose header says whether it is text.
fn read_ply(
    rt: &(impl Files + Input + Eprint + AllocGlobal),
    progress: Progress,
    arguments: &Arguments,
    surface: &mut Surface,
) -> Result<(), Fault> {
    let bytes = read_bytes(rt, arguments.file)?;
    let mut reader = PlyReader::new(rt.alloc());
    if !is_binary(&bytes) {
        return read_text_lines(rt, progress, bytes, &mut reader, surface);
    }
    read_binary_ply(rt, progress, &bytes, &mut reader, surface)
}

/// Reads binary PLY: the lines of its header, and then bytes.
fn read_binary_ply(
    rt: &(impl Eprint + AllocGlobal),
    progress: Progress,
    bytes: &[u8],
    reader: &mut PlyReader,
    surface: &mut Surface,
) -> Result<(), Fault> {
    let (header, elements) = header_of(bytes);
    read_header(rt, progress, header, reader, surface)?;
    surface.counted = Counted::Bytes;
    at(reader.take_bytes(rt.alloc(), header.len(), elements, surface))
}

/// Reads the lines of a header.
fn read_header(
    rt: &(impl Eprint + AllocGlobal),
    progress: Progress,
    header: &[u8],
    reader: &mut PlyReader,
    surface: &mut Surface,
) -> Result<(), Fault> {
    let text = String::from_utf8_lossy(rt.alloc(), header)?;
    take_lines(rt, progress, text.as_str(), 0, reader, surface)
}

/// Reads STL, which is binary if it is as long as it says then, and else text.
fn read_stl(
    rt: &(impl Files + Input + Eprint + AllocGlobal),
    progress: Progress,
    arguments: &Arguments,
    surface: &mut Surface,
) -> Result<(), Fault> {
    let bytes = read_bytes(rt, arguments.file)?;
    if let Some(count) = count_of(&bytes) {
        surface.counted = Counted::Bytes;
        return at(read_binary(rt.alloc(), &bytes, count, surface));
    }
    if !is_text(&bytes) {
        return at(Err(wrong_length(&bytes)));
    }
    let mut reader = StlReader::new(rt.alloc());
    read_text_lines(rt, progress, bytes, &mut reader, surface)
}

/// Returns what is wrong at a byte, if anything is.
fn at(read: Result<(), (usize, Wrong)>) -> Result<(), Fault> {
    match read {
        Ok(()) => Ok(()),
        Err((byte, wrong)) => Err(at_byte(byte, wrong)),
    }
}

/// Reads words from the file, or from standard input.
pub fn read_claim(
    rt: &(impl Files + Input + Eprint + AllocGlobal),
    progress: Progress,
    arguments: &Arguments,
    claim: &mut Claim,
) -> Result<(), Fault> {
    let text = read_text(rt, arguments.file)?;
    read_lines(rt, progress, text.as_str(), &mut WordsReader::new(), claim)
}

/// Reads lines that have a vertex or a face each, or else reads number by number. What is wrong is
/// told of the first way.
fn read_off(
    rt: &(impl Eprint + AllocGlobal),
    progress: Progress,
    text: &str,
    surface: &mut Surface,
) -> Result<(), Fault> {
    match read_off_as(rt, progress, Layout::Lines, text, surface) {
        Ok(()) => Ok(()),
        Err(fault) => {
            *surface = Surface::new(rt.alloc());
            match read_off_as(rt, progress, Layout::Numbers, text, surface) {
                Ok(()) => Ok(()),
                Err(_) => Err(fault),
            }
        }
    }
}

/// Reads vertices and faces that lie so on lines.
fn read_off_as(
    rt: &(impl Eprint + AllocGlobal),
    progress: Progress,
    layout: Layout,
    text: &str,
    surface: &mut Surface,
) -> Result<(), Fault> {
    let mut reader = OffReader::new(rt.alloc(), layout);
    read_lines(rt, progress, text, &mut reader, surface)
}

/// Reads all lines.
fn read_lines<T, R: LineReader<T>>(
    rt: &(impl Eprint + AllocGlobal),
    progress: Progress,
    text: &str,
    reader: &mut R,
    target: &mut T,
) -> Result<(), Fault> {
    let all = count_lines(text);
    take_lines(rt, progress, text, all, reader, target)?;
    match reader.end(rt.alloc(), target) {
        Ok(()) => Ok(()),
        Err(wrong) => Err(at_line(all.saturating_add(1), wrong)),
    }
}

/// Reads line after line, and shows how many of all are read.
fn take_lines<T, R: LineReader<T>>(
    rt: &(impl Eprint + AllocGlobal),
    progress: Progress,
    text: &str,
    all: usize,
    reader: &mut R,
    target: &mut T,
) -> Result<(), Fault> {
    for (line, said) in numbered_lines(text) {
        progress.show(rt, line, all, "lines")?;
        if let Err(wrong) = reader.take(rt.alloc(), line, said, target) {
            return Err(at_line(line, wrong));
        }
    }
    progress.clear(rt, all)?;
    Ok(())
}

fn count_lines(text: &str) -> usize {
    let mut all = 0;
    for (line, _) in numbered_lines(text) {
        all = line;
    }
    all
}

/// Returns the number that a word says, which has no sign.
pub fn number(word: &str) -> Result<u32, Wrong> {
    match number_of(word) {
        Some(number) => Ok(number),
        None => Err(Wrong::quoting(NO_NUMBER, word)),
    }
}

/// Returns the number that a word says, which has no sign, if it says one.
pub fn number_of(word: &str) -> Option<u32> {
    if word.starts_with('+') {
        return None;
    }
    word.parse::<u32>().ok()
}
