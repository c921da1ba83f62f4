//! Writes a page to its file.

use std::fs::File;
use std::io;
use std::io::Write;
use std::rt::Files;
use typst_shown::Problem;

/// How many bytes of a page are made before they are written.
const PIECE: usize = 1 << 16;

/// A page on its way to its file, or to standard output if the file is `-`.
#[derive(Drop)]
pub struct PageWriter<'r, 'a, R: Files + Print> {
    rt: &'r R,
    page: &'a str,
    /// The file, once something is written to it.
    file: Option<R::File>,
    /// What is made and isn't written yet.
    pub text: String,
    /// How many bytes are written.
    written: usize,
    /// How many steps are made.
    pub(crate) steps: usize,
    /// How many bytes are made before they are written.
    most: usize,
}

impl<'r, 'a, R: Files + Print + AllocGlobal> PageWriter<'r, 'a, R> {
    /// A page that is written in pieces of 64 KiB while it is made, so that it takes little memory.
    pub fn in_pieces(rt: &'r R, page: &'a str) -> Self {
        PageWriter::with_most(rt, page, PIECE)
    }

    /// A page of which nothing is written before all of it is made.
    pub fn whole(rt: &'r R, page: &'a str) -> Self {
        PageWriter::with_most(rt, page, usize::MAX)
    }

    /// A page that is written in pieces of this size or a little more.
    fn with_most(rt: &'r R, page: &'a str, most: usize) -> Self {
        PageWriter {
            rt,
            page,
            file: None,
            text: String::new(rt.alloc()),
            written: 0,
            steps: 0,
            most,
        }
    }
}

impl<'r, 'a, R: Files + Print> PageWriter<'r, 'a, R> {
    /// How many bytes of the page are made.
    pub(crate) fn made(&self) -> usize {
        self.written.saturating_add(self.text.len())
    }

    /// Writes what is made if it is a whole piece.
    pub(crate) fn pass_on(&mut self) -> Result<(), Problem<'a>> {
        if self.text.len() < self.most {
            return Ok(());
        }
        self.write()
    }

    /// Writes what is made, and keeps its room. The first call makes the file, or empties one that is there. It fails if the
    /// file can't be made or written. Then what is made stays in `text`, and a part of it may be written.
    pub fn write(&mut self) -> Result<(), Problem<'a>> {
        if self.page == "-" {
            io::writer(self.rt).write_all(self.text.as_bytes())?;
        } else {
            self.write_to_file()?;
        }
        self.written = self.made();
        self.text.clear();
        Ok(())
    }

    /// Writes what is made to the file, which is emptied first if nothing was written to it.
    fn write_to_file(&mut self) -> Result<(), Problem<'a>> {
        let mut file = match self.file.take() {
            Some(file) => file,
            None => match File::create(self.rt, self.page) {
                Ok(file) => file,
                Err(error) => return Err(Problem::of_saving(self.page, error)),
            },
        };
        let written = file.write_all(self.text.as_bytes());
        self.file = Some(file);
        match written {
            Ok(()) => Ok(()),
            Err(error) => Err(Problem::of_saving(self.page, error)),
        }
    }
}
