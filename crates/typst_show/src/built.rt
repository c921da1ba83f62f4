//! Trees that scripts and looks build.

use crate::bad_line::{BadLine, State};
use crate::language::Language;
use crate::levels::{Levels, MOST_LEVELS};
use crate::problem::ShowProblem;
use std::alloc::Global;
use std::io;
use typst_answers::looker::numbered;
use typst_answers::{Look, Looker};
use typst_script::Fault;
use typst_script::script::Obey;
use typst_shown::Problem;
use typst_tree::NumberedTree;

/// Builds a tree, line by line.
#[derive(Drop)]
struct Builder {
    looker: Looker,
    levels: Levels,
}

impl Builder {
    /// A builder that has built nothing.
    fn new(alloc: Global) -> Builder {
        Builder {
            looker: Looker::new(alloc),
            levels: Levels::new(alloc),
        }
    }

    /// What the script has.
    fn state(&self) -> State {
        State {
            nodes: self.looker.script.stack.len(),
            has_tree: self.looker.script.tree.is_some(),
        }
    }

    /// Carries out a line of a script or of a look. What the line prints is dropped.
    fn obey(
        &mut self,
        alloc: Global,
        language: Language,
        number: u64,
        line: &str,
    ) -> Result<(), Fault> {
        match language {
            _ if line == "run" => self.obey_run(alloc, number)?,
            Language::Look => self.obey_look(alloc, number, line)?,
            _ => self
                .looker
                .script
                .obey(alloc, number, line, &mut io::sink())?,
        }
        self.levels.count(line)?;
        Ok(())
    }

    /// Serves the queue. A script goes on after a request that was refused memory, but its tree then isn't the tree
    /// that the script asks for.
    fn obey_run(&mut self, alloc: Global, number: u64) -> Result<(), Fault> {
        let mut replies: Vec<u8> = Vec::new(alloc);
        self.looker.script.obey(alloc, number, "run", &mut replies)?;
        let is_refused = match String::from_utf8(replies) {
            Ok(replies) => replies.lines().any(|reply| reply == "no memory"),
            Err(_) => false,
        };
        if is_refused {
            Err(Fault::Memory)
        } else {
            Ok(())
        }
    }

    /// Carries out a line of a look, unless the line asks for answers.
    fn obey_look(&mut self, alloc: Global, number: u64, line: &str) -> Result<(), Fault> {
        if Look::parse(line).is_some() {
            return Ok(());
        }
        if line == "new" {
            self.levels = Levels::new(alloc);
        }
        self.looker.obey_line(alloc, number, line, &mut io::sink())?;
        self.looker.verdict()
    }
}

/// The tree that a script or a look ends with. It has the script's numbers, or else numbers for file 1.
pub(crate) fn build<'a>(
    alloc: Global,
    file: &'a str,
    language: Language,
    text: &str,
) -> Result<NumberedTree, ShowProblem<'a>> {
    let mut builder = Builder::new(alloc);
    let mut number = 0u64;
    for line in text.split('\n') {
        number = number.saturating_add(1);
        let state = builder.state();
        if let Err(fault) = builder.obey(alloc, language, number, line) {
            return Err(problem_of(file, number, fault, BadLine::of(language, line, state)));
        }
        if !builder.levels.fit() {
            return Err(ShowProblem::TooDeep {
                file,
                line: number,
                most: MOST_LEVELS,
            });
        }
    }
    let Some(tree) = builder.looker.script.tree.take() else {
        return Err(ShowProblem::NoTree { file });
    };
    match numbered(tree) {
        Ok(tree) => Ok(tree),
        Err(_) => Err(ShowProblem::TooManyNodes { file }),
    }
}

/// The problem that reports the fault of a line. Nothing is read or written while a tree is built.
fn problem_of<'a>(file: &'a str, line: u64, fault: Fault, bad: BadLine) -> ShowProblem<'a> {
    match fault {
        Fault::BadCommand { .. } => ShowProblem::BadLine { file, line, bad },
        Fault::Memory | Fault::Read | Fault::Write => ShowProblem::Shared(Problem::Memory),
        Fault::Overflow => ShowProblem::TooManyNodes { file },
    }
}
