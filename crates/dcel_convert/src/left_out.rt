//! What a file has and a mesh has no place for.

use crate::shown::{Excerpt, beginning};
use std::alloc::{AllocError, Global};
use std::fmt::Display;
use std::io;

/// How many words of a file are named.
const NAMED: usize = 10;

/// What is left out of a file, and in how many lines.
#[derive(Drop)]
pub struct LeftOut {
    /// Words of the file that nothing is known of, the first ones.
    words: Vec<(String, usize)>,
    /// How many lines have other words.
    others: usize,
    /// What else is left out.
    kinds: Vec<(&'static str, usize)>,
}

impl LeftOut {
    /// Makes it empty.
    pub fn new(alloc: Global) -> Self {
        LeftOut {
            words: Vec::new(alloc),
            others: 0,
            kinds: Vec::new(alloc),
        }
    }

    /// Notes a line that begins with a word that nothing is known of.
    pub fn note_word(&mut self, alloc: Global, word: &str) -> Result<(), AllocError> {
        let word = beginning(word);
        for (known, lines) in self.words.iter_mut() {
            if known.as_str() == word {
                *lines = lines.saturating_add(1);
                return Ok(());
            }
        }
        if self.words.len() < NAMED {
            self.words.push((String::from_str(alloc, word)?, 1))?;
        } else {
            self.others = self.others.saturating_add(1);
        }
        Ok(())
    }

    /// Notes that there is one thing of a kind.
    pub fn note(&mut self, what: &'static str) -> Result<(), AllocError> {
        for (known, times) in self.kinds.iter_mut() {
            if *known == what {
                *times = times.saturating_add(1);
                return Ok(());
            }
        }
        self.kinds.push((what, 1))?;
        Ok(())
    }

    /// Names on standard error what is left out, and how often.
    pub fn tell(&self, rt: &impl Eprint) -> io::Result<()> {
        self.tell_words(rt)?;
        tell_left_out(rt, "lines that begin with still other words", self.others)?;
        for (what, times) in &self.kinds {
            tell_left_out(rt, *what, *times)?;
        }
        Ok(())
    }

    /// Names the words that nothing is known of.
    fn tell_words(&self, rt: &impl Eprint) -> io::Result<()> {
        for (word, lines) in &self.words {
            tell_left_out(rt, Excerpt::of(word.as_str()), *lines)?;
        }
        Ok(())
    }
}

/// Names what is left out, and how often.
pub fn tell_left_out(rt: &impl Eprint, what: impl Display + Drop, times: usize) -> io::Result<()> {
    if times > 0 {
        eprintln!(rt; "dcel_convert: left out: {what} ({times})")?;
    }
    Ok(())
}
