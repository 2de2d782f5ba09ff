//! Words of a file as messages show them.

use std::alloc::{AllocError, Global};
use std::fmt::{self, Display, Formatter};

/// How many characters of a word are shown.
const MOST: usize = 40;

/// Returns the beginning of a word, so long as is shown of it.
pub fn beginning(word: &str) -> &str {
    for (number, (end, _)) in word.char_indices().enumerate() {
        if number == MOST {
            return word.get(..end).unwrap_or(word);
        }
    }
    word
}

/// The beginning of a word, which is shown with nothing in it that a terminal would act on.
#[derive(Clone, Copy)]
pub struct Excerpt {
    characters: [char; MOST],
    count: usize,
}

impl Excerpt {
    /// Returns the beginning of a word.
    pub fn of(word: &str) -> Self {
        let mut characters = [' '; MOST];
        let mut count: usize = 0;
        for (place, character) in characters.iter_mut().zip(word.chars()) {
            *place = character;
            count = count.saturating_add(1);
        }
        Excerpt { characters, count }
    }
}

impl Display for Excerpt {
    fn fmt<W: fmt::Write>(&self, f: &mut Formatter<W>) -> fmt::Result {
        for character in self.characters.iter().take(self.count) {
            write!(f, "{}", character.escape_debug())?;
        }
        Ok(())
    }
}
