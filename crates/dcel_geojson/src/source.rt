//! The tokens of a text, with their places.

use crate::refusal::{Reason, Refusal};
use json::{MAX_DEPTH, Reader, Scratch, Token};
use std::alloc::AllocError;

/// The tokens of a text, one after another.
#[derive(Drop)]
pub struct Source<'a> {
    reader: Reader<'a>,
    text: &'a str,
    /// Where the token begins that was read last.
    at: usize,
    /// A place before it, and the line there.
    counted: usize,
    line: usize,
}

impl<'a> Source<'a> {
    /// Returns those of a text, before the first one.
    pub fn of(text: &'a str, scratch: &'a mut Scratch) -> Result<Self, AllocError> {
        Ok(Source {
            reader: Reader::new(text, scratch)?,
            text,
            at: 0,
            counted: 0,
            line: 1,
        })
    }

    /// Returns more than the number of all tokens, each of which takes a byte at least.
    pub fn limit(&self) -> usize {
        self.text.len().saturating_add(1)
    }

    /// Returns the next token, which has to be there.
    pub fn next(&mut self) -> Result<Token<'a>, Refusal> {
        self.at = self.reader.offset();
        match self.reader.next() {
            Some(Token::Bad) | None => Err(self.refused_here(Reason::NotJson)),
            Some(token) => Ok(token),
        }
    }

    /// Passes the next value, whatever it is.
    pub fn skip(&mut self) -> Result<(), Refusal> {
        match self.reader.skip_value(MAX_DEPTH) {
            Ok(()) => Ok(()),
            Err(_) => Err(self.refused_here(Reason::NotJson)),
        }
    }

    /// Refuses a text that goes on.
    pub fn end(&mut self) -> Result<(), Refusal> {
        self.at = self.reader.offset();
        match self.reader.next() {
            None => Ok(()),
            Some(_) => Err(self.refused(Reason::More)),
        }
    }

    /// Returns where the token begins that was read last.
    pub fn place(&self) -> usize {
        self.at
    }

    /// Returns the line of that place.
    pub fn line(&mut self) -> usize {
        let passed = self.text.as_bytes().get(self.counted..self.at);
        let feeds = passed.unwrap_or(&[]).iter().filter(|byte| **byte == b'\n');
        self.line = self.line.saturating_add(feeds.count());
        self.counted = self.at;
        self.line
    }

    /// Returns that the text is refused for the token that was read last.
    pub fn refused(&mut self, reason: Reason) -> Refusal {
        Refusal {
            line: self.line(),
            offset: self.at,
            reason,
        }
    }

    /// Returns that it is refused for what the reader stopped at.
    fn refused_here(&mut self, reason: Reason) -> Refusal {
        self.at = self.at.max(self.reader.offset());
        self.refused(reason)
    }
}
