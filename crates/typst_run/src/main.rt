//! Carries out scripts and looks: the files that its words name after `script` or `look`, one by one, or else standard input.
//!
//! A script builds, numbers, edits, searches and shows syntax trees. A look shows what a program sees in one: what every
//! accessor of every view, every walk and every diagnostic answers. It has trees as lines of the script language:
//!
//! ```text
//! leaf 6 Hi
//! leaf 11 --
//! leaf 6 you
//! inner 5 3
//! root
//! look views
//! ```
//!
//! `look views` prints an answer a line: the path of the node, its kind, the accessor, and what it answers.
//!
//! ```text
//! - Markup.exprs [0, 1, 2]
//! 0 Text.hash false
//! 0 Text.is_literal false
//! 0 Text.bindings []
//! 0 Text.get "Hi"
//! ```
//!
//! The library crate `typst_script` has the lines of scripts, and `typst_answers` has the other lines of looks and what is
//! answered. A script or a look that can't be carried out ends with the fault on standard error and a status of its own.
#![tactic(auto)]

mod problem;
mod task;

use crate::problem::RunProblem;
use crate::task::Task;
use std::process::ExitCode;
use std::{env, fs, io};
use typst_answers::Looker;
use typst_script::input::MOST_BYTES;
use typst_script::{Fault, script};

/// Carries out what the words ask for.
fn main(rt: HostRuntime) -> ExitCode {
    match carry_out_all(&rt) {
        Ok(()) => ExitCode::SUCCESS,
        Err(problem) => {
            let _ = eprintln!(rt; "{problem}");
            ExitCode::from(problem.exit_status())
        }
    }
}

/// Carries out each file that is named after the task, or where none is named, standard input.
fn carry_out_all(rt: &HostRuntime) -> Result<(), RunProblem> {
    let mut words = env::args(rt).map_err(Fault::of_reading)?.skip(1);
    let task = words
        .next()
        .and_then(|word| Task::named(word.as_str()))
        .ok_or(RunProblem::NoTask)?;
    let mut is_named = false;
    for name in words {
        let file = fs::open(rt, name.as_str()).map_err(Fault::of_reading)?;
        carry_out(rt, task, file)?;
        is_named = true;
    }
    if !is_named {
        carry_out(rt, task, rt.reader())?;
    }
    Ok(())
}

/// Carries out the lines of a reader. The first line of a script that can't be carried out ends it. In a look it is the
/// fault at the end.
fn carry_out<R: io::Read + Drop>(rt: &HostRuntime, task: Task, reader: R) -> Result<(), Fault> {
    match task {
        Task::Script => script::run(rt.alloc(), reader, io::writer(rt)),
        Task::Look => {
            let mut looker = Looker::new(rt.alloc());
            script::run_by(rt.alloc(), &mut looker, reader, io::writer(rt), MOST_BYTES)?;
            looker.verdict()
        }
    }
}
