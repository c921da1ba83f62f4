//! Shows the syntax tree of a text, a script or a look to a person: as a drawing in the terminal with errors and warnings
//! below it, with what the view of each node answers or without, or as a page for a browser. The tree of a text is shown
//! again after each of a list of edits.
//!
//! `clap` reads the words. `typst_shown` has what is read, and drawings, and `typst_page` has what views answer, and pages.
//! This crate builds the trees of scripts and looks by `typst_answers`, and says what is wrong with a line of theirs.
#![tactic(auto)]

mod bad_line;
mod built;
mod language;
mod levels;
mod problem;
mod script;
mod text_page;
mod words;

use crate::language::Language;
use crate::problem::ShowProblem;
use crate::script::show_script;
use crate::text_page::save_page;
use crate::words::{asked_by, matches_of};
use clap::error::ErrorKind;
use clap::{ArgMatches, Error};
use std::alloc::Global;
use std::io::Write;
use std::process::ExitCode;
use std::{env, io};
use typst_page::draw_with_answers;
use typst_shown::terminal::{Branches, Drawing, show_text};
use typst_shown::{EditReport, Form, Problem, Shown, Status};

/// Shows what the words ask for.
fn main(rt: HostRuntime) -> ExitCode {
    let status = match arguments(&rt) {
        Ok(words) => answer(&rt, &words),
        Err(problem) => report(&rt, &ShowProblem::Shared(problem)),
    };
    ExitCode::from(status.code())
}

/// The words of the command line. The first is the name of the program.
fn arguments(rt: &HostRuntime) -> Result<Vec<String>, Problem<'static>> {
    let unread = |error| Problem::of_reading("the command line", error);
    Ok(env::args(rt).map_err(unread)?.collect(rt.alloc())?)
}

/// Shows what the words ask for, or explains them.
fn answer(rt: &HostRuntime, words: &[String]) -> Status {
    let matches = match matches_of(rt.alloc(), words) {
        Ok(matches) => matches,
        Err(error) => return explain(rt, &error),
    };
    match show(rt, &matches) {
        Ok(status) => status,
        Err(problem) => report(rt, &problem),
    }
}

/// Whether the terminal shows colours. By these two variables a caller says so, or forbids them.
fn is_coloured(rt: &HostRuntime) -> bool {
    let is_asked = env::var(rt, "CLICOLOR_FORCE").is_ok_and(|value| value.as_str() != "0"
        && !value.is_empty());
    let is_forbidden = env::var(rt, "NO_COLOR").is_ok_and(|value| !value.is_empty());
    is_asked && !is_forbidden
}

/// Shows what is asked.
fn show<'a>(rt: &HostRuntime, matches: &ArgMatches<'a>) -> Result<Status, ShowProblem<'a>> {
    let asked = &asked_by(rt.alloc(), matches, is_coloured(rt))?;
    if let Some(language) = Language::of(asked.file) {
        return show_script(rt, asked, language);
    }
    let shown = match asked.form {
        Form::Tree | Form::Plain | Form::Kind(_) => show_text::<Branches, _>(rt, asked)?,
        Form::Views => show_text::<WithAnswers, _>(rt, asked)?,
        Form::Page(page) => save_page(rt, asked, page)?,
    };
    Ok(shown)
}

/// The drawing with what views answer.
pub(crate) struct WithAnswers;

impl Drawing for WithAnswers {
    fn draw<W: Write>(
        alloc: Global,
        out: &mut W,
        shown: &Shown<'_>,
        report: Option<&EditReport>,
    ) -> io::Result<()> {
        draw_with_answers(alloc, out, shown, report)
    }
}

/// Reports a problem on standard error.
fn report(rt: &HostRuntime, problem: &ShowProblem<'_>) -> Status {
    let _ = eprintln!(rt; "{problem}");
    problem.status()
}

/// Prints what `clap` says of words that ask for help, or that are wrong.
fn explain(rt: &HostRuntime, error: &Error) -> Status {
    if error.kind() == ErrorKind::OutOfMemory {
        return report(rt, &ShowProblem::Shared(Problem::Memory));
    }
    match error.print(rt) {
        Err(_) => Status::Failed,
        Ok(()) if error.use_stderr() => Status::Wrong,
        Ok(()) => Status::Sound,
    }
}
