//! A text that is shown, at first and again after each edit.

use crate::asked::{Asked, Manner, Wanted};
use crate::edits::{NumberedEdit, parse_edits, range_of};
use crate::problem::Problem;
use crate::reading::read;
use crate::report::EditReport;
use crate::shown::Shown;
use std::alloc::Global;
use std::rt::Files;
use typst_base::FileId;
use typst_language::Typst;
use typst_source::Source;

/// A text with its tree, and the names of its file and of the file with its edits.
#[derive(Drop)]
pub struct Text<'a> {
    file: &'a str,
    edits_file: &'a str,
    wanted: Wanted,
    manner: Manner,
    source: Source<Typst>,
}

impl<'a> Text<'a> {
    /// Reads the text and the edits that are asked for. The text becomes file 1.
    pub fn read<R: Files + Input + AllocGlobal>(
        rt: &R,
        asked: &Asked<'a>,
    ) -> Result<(Text<'a>, Vec<NumberedEdit>), Problem<'a>> {
        let alloc = rt.alloc();
        let file = asked.file;
        if file == "-" && asked.edits == Some("-") {
            return Err(Problem::TwoInputs);
        }
        let text = read(rt, file)?;
        let edits = match asked.edits {
            None => Vec::new(alloc),
            Some(file) => parse_edits(alloc, file, &read(rt, file)?)?,
        };
        match Source::new(alloc, FileId::FIRST, &text, Typst) {
            Ok(source) => Ok((
                Text {
                    file,
                    edits_file: asked.edits.unwrap_or("-"),
                    wanted: asked.wanted,
                    manner: asked.manner,
                    source,
                },
                edits,
            )),
            Err(error) => Err(Problem::of_source(file, error)),
        }
    }

    /// The text with its tree.
    pub fn shown(&self) -> Shown<'_> {
        Shown {
            file: self.file,
            text: self.source.text(),
            root: self.source.root(),
            wanted: self.wanted,
            manner: self.manner,
        }
    }

    /// Does an edit, and reports what it did.
    pub fn edit(
        &mut self,
        alloc: Global,
        numbered: &NumberedEdit,
    ) -> Result<EditReport, Problem<'a>> {
        let NumberedEdit { line, edit } = numbered;
        let range = match range_of(alloc, self.source.text(), edit)? {
            Ok(range) => range,
            Err(misfit) => {
                return Err(Problem::Misfit {
                    file: self.edits_file,
                    line: *line,
                    misfit,
                });
            }
        };
        match self.source.edit(alloc, range, &edit.with) {
            Ok(done) => Ok(EditReport::of(self.source.root(), done)),
            Err(error) => Err(Problem::of_source(self.file, error)),
        }
    }
}
