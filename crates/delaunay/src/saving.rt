//! Outputs that are written into files.

use crate::arguments::{Arguments, FILES};
use crate::fault::Fault;
use crate::picture::Svg;
use crate::view::View;
use crate::writing::write_output;
use dcel_programs::Text;
use std::alloc::{AllocError, Global};
use std::rt::Files;
use std::{fs, io};

/// The texts of files, one behind the other.
#[derive(Drop)]
struct Texts {
    bytes: Vec<u8>,
    /// Where each of them ends.
    ends: Vec<usize>,
}

/// Writes what is asked for of a triangulation into files, once all of it is there.
pub fn save<UE>(
    rt: &(impl Files + AllocGlobal),
    arguments: &Arguments,
    view: &View<'_, UE>,
) -> Result<(), Fault> {
    let mut texts = Texts {
        bytes: Vec::new(rt.alloc()),
        ends: Vec::new(rt.alloc()),
    };
    texts.fill(rt.alloc(), arguments, view)?;
    texts.write(rt, arguments)
}

impl Texts {
    /// Makes the text of each file that is asked for, and that of the picture.
    fn fill<UE>(
        &mut self,
        alloc: Global,
        arguments: &Arguments,
        view: &View<'_, UE>,
    ) -> io::Result<()> {
        for (path, row) in arguments.files.iter().zip(FILES.iter()) {
            if path.is_some() {
                write_output(alloc, &mut self.bytes, row.1, view)?;
            }
            self.end()?;
        }
        if arguments.svg.is_some() {
            let picture = Svg { view: &*view };
            picture.write_to(alloc, &mut self.bytes)?;
        }
        self.end()?;
        Ok(())
    }

    /// Ends a text.
    fn end(&mut self) -> Result<(), AllocError> {
        self.ends.push(self.bytes.len())?;
        Ok(())
    }

    /// Writes the files.
    fn write(&self, rt: &(impl Files + AllocGlobal), arguments: &Arguments) -> Result<(), Fault> {
        let mut start = 0;
        let picture = [arguments.svg];
        let paths = arguments.files.iter().chain(picture.iter());
        for (path, end) in paths.zip(self.ends.iter()) {
            if let Some(path) = path {
                write_file(rt, path, self.bytes.get(start..*end).unwrap_or(&[]))?;
            }
            start = *end;
        }
        Ok(())
    }
}

/// Writes a file.
fn write_file(rt: &(impl Files + AllocGlobal), path: &str, bytes: &[u8]) -> Result<(), Fault> {
    match fs::write(rt, path, bytes) {
        Ok(()) => Ok(()),
        Err(error) => Err(Fault::of_file(rt.alloc(), path, error)),
    }
}
