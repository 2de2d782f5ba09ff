//! Texts that are written.

use crate::fault::Fault;
use std::alloc::Global;
use std::fmt::{Debug, Display};
use std::fs;
use std::io::{self, BufWriter, Write};
use std::rt::Files;

/// What can be written.
pub trait Text {
    /// Writes it.
    fn write_to(&self, alloc: Global, writer: &mut impl Write) -> io::Result<()>;
}

/// Writes a text into a file, or to standard output.
pub fn write_out<W: Display + Debug + Drop>(
    rt: &(impl Files + Print + AllocGlobal),
    target: Option<&str>,
    text: &impl Text,
) -> Result<(), Fault<W>> {
    match target {
        None => match write_all(rt.alloc(), io::writer(rt), text) {
            Ok(()) => Ok(()),
            Err(error) => Err(Fault::Output(error)),
        },
        Some(path) => match write_file(rt, path, text) {
            Ok(()) => Ok(()),
            Err(error) => Err(Fault::of_file(rt.alloc(), path, error)),
        },
    }
}

fn write_file(rt: &(impl Files + AllocGlobal), path: &str, text: &impl Text) -> io::Result<()> {
    let file = fs::create(rt, path)?;
    write_all(rt.alloc(), file, text)
}

fn write_all(alloc: Global, output: impl Write + Drop, text: &impl Text) -> io::Result<()> {
    let mut writer = BufWriter::new(alloc, output)?;
    text.write_to(alloc, &mut writer)?;
    writer.flush()
}
