//! Files in the Polygon File Format: a header that says which numbers each element has, and then
//! these, as text, wherever lines end, or as bytes.

mod binary;
mod header;

use crate::bytes::ByteReader;
use crate::fault::Wrong;
use crate::ply::binary::read_elements;
use crate::ply::header::{
    Element, Encoding, Kind, Property, Purpose, element_of, encoding_of, is_complete, is_typed,
    property_of,
};
use crate::reading::{LineReader, number};
use crate::surface::{BEHIND_COORDINATES, BEHIND_CORNERS, OTHER_ELEMENT, Surface};
pub use header::{header_of, is_binary};
use std::alloc::{AllocError, Global};
use std::mem;
use std::str::SplitAsciiWhitespace;

/// What the next line of a file should be.
#[derive(Clone, Copy, Drop)]
enum Stage {
    /// The word `ply`.
    Word,
    /// A line of the header.
    Header,
    /// Numbers of elements.
    Elements,
}

/// A file in the Polygon File Format that is read line by line.
#[derive(Drop)]
pub struct PlyReader {
    stage: Stage,
    /// How the elements are written, once the header says it.
    encoding: Option<Encoding>,
    /// The elements that are still to come, the next one last.
    elements: Vec<Element>,
    /// How many of the last element are complete.
    complete: u32,
    /// How many properties of the next one are.
    place: usize,
    /// How many numbers of a list are still to come, if one is begun.
    missing: Option<u32>,
    x: String,
    y: String,
    z: String,
    corners: Vec<u32>,
}

impl PlyReader {
    /// Makes a reader at the beginning of a file.
    pub fn new(alloc: Global) -> Self {
        PlyReader {
            stage: Stage::Word,
            encoding: None,
            elements: Vec::new(alloc),
            complete: 0,
            place: 0,
            missing: None,
            x: String::new(alloc),
            y: String::new(alloc),
            z: String::new(alloc),
            corners: Vec::new(alloc),
        }
    }
}

impl LineReader<Surface> for PlyReader {
    fn take(
        &mut self,
        alloc: Global,
        line: usize,
        text: &str,
        surface: &mut Surface,
    ) -> Result<(), Wrong> {
        let words = text.split_ascii_whitespace();
        match self.stage {
            Stage::Elements => self.take_numbers(alloc, line, words, surface),
            Stage::Word => self.take_word(words),
            Stage::Header => self.take_header(alloc, words),
        }
    }

    fn end(&mut self, _: Global, _: &mut Surface) -> Result<(), Wrong> {
        if !matches!(self.stage, Stage::Elements) || !self.elements.is_empty() {
            return Err(Wrong::FEWER_LINES);
        }
        Ok(())
    }
}

impl PlyReader {
    /// Reads the elements of a binary file, whose header has so many bytes and was read. Returns what
    /// is wrong with them, and at which byte.
    pub fn take_bytes(
        &self,
        alloc: Global,
        header: usize,
        bytes: &[u8],
        surface: &mut Surface,
    ) -> Result<(), (usize, Wrong)> {
        let (Stage::Elements, Some(Encoding::Binary(order))) = (self.stage, self.encoding) else {
            return Err((header, Wrong::FEWER_LINES));
        };
        let mut reader = ByteReader::new(bytes, order, header);
        match read_elements(alloc, &mut reader, &self.elements, surface) {
            Ok(()) => Ok(()),
            Err(wrong) => Err((reader.last_place(), wrong)),
        }
    }

    /// Reads the first word of a file.
    fn take_word(&mut self, mut words: SplitAsciiWhitespace) -> Result<(), Wrong> {
        match words.next() {
            Some("ply") => {
                self.stage = Stage::Header;
                Ok(())
            }
            Some(other) => Err(Wrong::beginning(other, "not with ply")),
            None => Ok(()),
        }
    }

    /// Reads a line of the header.
    fn take_header(&mut self, alloc: Global, mut words: SplitAsciiWhitespace) -> Result<(), Wrong> {
        match words.next() {
            Some("format") => self.take_format(words),
            Some("element") => self.take_element(alloc, words),
            Some("property") => self.take_property(words),
            Some("end_header") => self.end_header(),
            Some("comment") | Some("obj_info") | None => Ok(()),
            _ => Err(Wrong::NO_HEADER),
        }
    }

    /// Reads whether the numbers are text. It is said once.
    fn take_format(&mut self, mut words: SplitAsciiWhitespace) -> Result<(), Wrong> {
        let Some(name) = words.next() else {
            return Err(Wrong::NO_HEADER);
        };
        let encoding = encoding_of(name);
        if encoding.is_none() || self.encoding.is_some() {
            return Err(Wrong::NO_HEADER);
        }
        self.encoding = encoding;
        Ok(())
    }

    /// Reads the name and the count of elements.
    fn take_element(&mut self, alloc: Global, words: SplitAsciiWhitespace) -> Result<(), Wrong> {
        let element = element_of(alloc, words)?;
        self.elements.push(element)?;
        Ok(())
    }

    /// Reads a property of the last element.
    fn take_property(&mut self, words: SplitAsciiWhitespace) -> Result<(), Wrong> {
        let Some(element) = self.elements.last_mut() else {
            return Err(Wrong::NO_HEADER);
        };
        let Some(property) = property_of(element.kind, words) else {
            return Err(Wrong::NO_HEADER);
        };
        element.properties.push(property)?;
        Ok(())
    }

    /// Ends the header: vertices need three coordinates, faces their corners.
    fn end_header(&mut self) -> Result<(), Wrong> {
        let Some(encoding) = self.encoding else {
            return Err(Wrong::PARTIAL_HEADER);
        };
        if !self.elements.iter().all(is_complete) {
            return Err(Wrong::PARTIAL_HEADER);
        }
        if !matches!(encoding, Encoding::Text) && !self.elements.iter().all(is_typed) {
            return Err(Wrong::NO_TYPE);
        }
        self.elements.reverse();
        self.stage = Stage::Elements;
        self.pass_complete();
        Ok(())
    }

    /// Passes elements of which all are complete.
    fn pass_complete(&mut self) {
        for _ in 0..self.elements.len() {
            match self.elements.last() {
                Some(element) if self.complete >= element.count || element.properties.is_empty() =>
                    {
                        let _ = self.elements.pop();
                        self.complete = 0;
                    }
                _ => return,
            }
        }
    }

    /// Reads numbers.
    fn take_numbers(
        &mut self,
        alloc: Global,
        line: usize,
        words: SplitAsciiWhitespace,
        surface: &mut Surface,
    ) -> Result<(), Wrong> {
        for word in words {
            self.take_number(alloc, line, word, surface)?;
        }
        Ok(())
    }

    /// Reads a number.
    fn take_number(
        &mut self,
        alloc: Global,
        line: usize,
        word: &str,
        surface: &mut Surface,
    ) -> Result<(), Wrong> {
        let Some(element) = self.elements.last() else {
            return Err(Wrong::MORE_LINES);
        };
        let (kind, count) = (element.kind, element.properties.len());
        let Some(property) = element.properties.get(self.place).copied() else {
            return Err(Wrong::MORE_LINES);
        };
        self.take_of(property, word)?;
        if self.missing.is_none() {
            self.place = self.place.saturating_add(1);
        }
        if self.place >= count {
            return self.end_element(alloc, kind, line, surface);
        }
        Ok(())
    }

    /// Reads a number of a property.
    fn take_of(&mut self, property: Property, word: &str) -> Result<(), Wrong> {
        if property.is_list {
            return self.take_of_list(property.purpose, word);
        }
        let text = match property.purpose {
            Purpose::X => &mut self.x,
            Purpose::Y => &mut self.y,
            Purpose::Z => &mut self.z,
            _ => return Ok(()),
        };
        text.clear();
        text.push_str(word)?;
        Ok(())
    }

    /// Reads the length of a list, or one of its numbers.
    fn take_of_list(&mut self, purpose: Purpose, word: &str) -> Result<(), Wrong> {
        let missing = match self.missing {
            None => number(word)?,
            Some(missing) => {
                if purpose == Purpose::Corners {
                    self.corners.push(number(word)?)?;
                }
                missing.saturating_sub(1)
            }
        };
        self.missing = if missing > 0 { Some(missing) } else { None };
        Ok(())
    }

    /// Adds an element that is complete to the surface.
    fn end_element(
        &mut self,
        alloc: Global,
        kind: Kind,
        line: usize,
        surface: &mut Surface,
    ) -> Result<(), Wrong> {
        match kind {
            Kind::Vertex => self.add_vertex(alloc, line, surface)?,
            Kind::Face => self.add_face(alloc, line, surface)?,
            Kind::Other => surface.left_out.note(OTHER_ELEMENT)?,
        }
        self.place = 0;
        self.complete = self.complete.saturating_add(1);
        self.pass_complete();
        Ok(())
    }

    /// Adds a vertex. Three of its properties are read.
    fn add_vertex(&self, alloc: Global, line: usize, surface: &mut Surface) -> Result<(), Wrong> {
        let place = [self.x.as_str(), self.y.as_str(), self.z.as_str()];
        surface.add_vertex(alloc, line, place)?;
        if self.place > 3 {
            surface.left_out.note(BEHIND_COORDINATES)?;
        }
        Ok(())
    }

    /// Adds a face. One of its properties is read.
    fn add_face(
        &mut self,
        alloc: Global,
        line: usize,
        surface: &mut Surface,
    ) -> Result<(), AllocError> {
        let corners = mem::replace(&mut self.corners, Vec::new(alloc));
        surface.add_face(line, corners)?;
        if self.place > 1 {
            surface.left_out.note(BEHIND_CORNERS)?;
        }
        Ok(())
    }
}
