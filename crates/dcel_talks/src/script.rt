//! A talk: its lines with their replies, and how these are compared with what `run` writes.

use anyhow::{Context, Result, bail, ensure};
use dcel_bench::talks::{PLENTY, answers, push_line};
use dcel_commands::commands::{MAX_LIMIT, RunFault};
use std::alloc::{AllocError, Global};

/// The lines of a talk with their replies.
#[derive(Drop)]
pub struct Script {
    name: String,
    limit: usize,

    /// Whether each read and each write fails in turn.
    with_faults: bool,

    /// The line that has no reply yet.
    asked: Option<String>,
    lines: Vec<u8>,
    replies: Vec<u8>,

    /// For each number of bytes of the lines but all, the length of the replies to the lines that
    /// end within them.
    due: Vec<usize>,

    /// The lines with `words` in the place of each that is refused or bad.
    spared: Vec<u8>,

    /// The lines with `words` after each that is refused or bad.
    watched: Vec<u8>,
}

impl Script {
    /// Returns a talk without a line.
    pub fn new(alloc: Global, name: &str) -> Result<Script, AllocError> {
        Ok(Script {
            name: format!(in alloc; "{name}")?,
            limit: MAX_LIMIT,
            with_faults: false,
            asked: None,
            lines: Vec::new(alloc),
            replies: Vec::new(alloc),
            due: Vec::new(alloc),
            spared: Vec::new(alloc),
            watched: Vec::new(alloc),
        })
    }

    /// Reads a line of the file.
    pub fn take(&mut self, alloc: Global, text: &str) -> Result<()> {
        if let Some(line) = text.strip_prefix("> ") {
            // The reply is due by the line feed, and not before it.
            for _ in 0..=line.len() {
                self.due.push(self.replies.len())?;
            }
            push_line(&mut self.lines, line)?;
            self.asked = Some(format!(in alloc; "{line}")?);
        } else if let Some(limit) = text.strip_prefix("limit ") {
            self.limit = limit.parse().context("a limit")?;
        } else if text == "faults" {
            self.with_faults = true;
        } else if !text.is_empty() {
            self.take_reply(text)?;
        }
        Ok(())
    }

    /// Reads a reply, or a further line of one.
    fn take_reply(&mut self, reply: &str) -> Result<(), AllocError> {
        push_line(&mut self.replies, reply)?;
        let Some(line) = self.asked.take() else {
            return Ok(());
        };
        push_line(&mut self.watched, line.as_str())?;
        if is_turned_down(reply) {
            push_line(&mut self.watched, "words")?;
            push_line(&mut self.spared, "words")
        } else {
            push_line(&mut self.spared, line.as_str())
        }
    }

    /// Compares the replies in reads of one, three and all bytes, and the text of `words` before
    /// and after each line that is refused or bad.
    pub fn check(&self, alloc: Global) -> Result<()> {
        for chunk in [1, 3, PLENTY] {
            let written = self.written(alloc, &self.lines, chunk)?;
            self.compare(alloc, &written, &self.replies)?;
            if self.with_faults {
                self.check_reads(alloc, chunk)?;
                self.check_writes(alloc, chunk)?;
            }
        }
        let before = self.written(alloc, &self.spared, PLENTY)?;
        let after = self.written(alloc, &self.watched, PLENTY)?;
        self.compare(alloc, &without_turned_down(alloc, &after)?, &before)
    }

    /// Makes each read of `chunk` bytes fail in turn, also the last one, which finds no byte left:
    /// the lines that are read whole get their replies.
    fn check_reads(&self, alloc: Global, chunk: usize) -> Result<()> {
        let mut bytes = 0usize;
        for reads in 0..PLENTY {
            let (ended, written) = self.run(alloc, &self.lines, chunk, reads, PLENTY)?;
            let Err(RunFault::Read) = ended else {
                bail!("{}: read {reads} fails unseen", self.name);
            };
            let due = self.due.get(bytes).copied().unwrap_or(self.replies.len());
            let wanted = self.replies.get(..due).unwrap_or(&[]);
            self.compare(alloc, &written, wanted)?;
            if bytes == self.lines.len() {
                break;
            }
            bytes = bytes.saturating_add(chunk).min(self.lines.len());
        }
        Ok(())
    }

    /// Makes a write fail after each number of bytes, in writes of `chunk` bytes: that many are
    /// written.
    fn check_writes(&self, alloc: Global, chunk: usize) -> Result<()> {
        for room in 0..self.replies.len() {
            let (ended, written) = self.run(alloc, &self.lines, chunk, PLENTY, room)?;
            let Err(RunFault::Write) = ended else {
                bail!("{}: a write fails after {room} bytes unseen", self.name);
            };
            self.compare(alloc, &written, self.replies.get(..room).unwrap_or(&[]))?;
        }
        Ok(())
    }

    /// Returns the replies to these lines in reads of `chunk` bytes.
    fn written(&self, alloc: Global, lines: &[u8], chunk: usize) -> Result<Vec<u8>> {
        let (ended, written) = self.run(alloc, lines, chunk, PLENTY, PLENTY)?;
        ended?;
        Ok(written)
    }

    /// Runs the lines under the limit, as `answers` does.
    fn run(
        &self,
        alloc: Global,
        lines: &[u8],
        chunk: usize,
        reads: usize,
        room: usize,
    ) -> Result<(Result<(), RunFault>, Vec<u8>)> {
        let limit = self.limit;
        ensure!(limit <= MAX_LIMIT, "{}: a limit above 2^31", self.name);
        Ok(answers(alloc, limit, lines, chunk, reads, room))
    }

    /// Fails at the first line in which the texts differ, or if one of them ends before the other.
    fn compare(&self, alloc: Global, found: &[u8], wanted: &[u8]) -> Result<()> {
        let found = String::from_utf8_lossy(alloc, found)?;
        let wanted = String::from_utf8_lossy(alloc, wanted)?;
        for (found, wanted) in found.split('\n').zip(wanted.split('\n')) {
            if found != wanted {
                bail!("{}: '{found}', and not '{wanted}'", self.name);
            }
        }
        ensure!(
            found.len() == wanted.len(),
            "{}: a text ends early",
            self.name
        );
        Ok(())
    }
}

/// Returns whether a reply says that its line changed nothing.
fn is_turned_down(reply: &str) -> bool {
    reply.starts_with("refused ") || reply == "bad line"
}

/// Returns the replies without those to lines that are refused or bad.
fn without_turned_down(alloc: Global, replies: &[u8]) -> Result<Vec<u8>> {
    let replies = String::from_utf8_lossy(alloc, replies)?;
    let mut left = Vec::new(alloc);
    for reply in replies.split('\n') {
        if !reply.is_empty() && !is_turned_down(reply) {
            push_line(&mut left, reply)?;
        }
    }
    Ok(left)
}
