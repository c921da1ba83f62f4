//! Why a line of a script can't be done, and what to do.

use crate::language::Language;
use thiserror::Error;
use typst_answers::remark::Remark;
use typst_script::{Command, words};

/// What is wrong with a line.
#[derive(Clone, Copy, Debug, PartialEq, Eq, Error)]
pub(crate) enum BadLine {
    #[error("this line ends with a carriage return: remove all carriage returns, since a line feed alone ends a line")]
    CarriageReturn,
    #[error("the first word of this line is unknown: {page} lists the words that begin a line")]
    Word { page: &'static str },
    #[error("expected `{form}`")]
    Form { form: &'static str },
    #[error("the stack has too few nodes for this line ({there} of {needed}): add the others before it")]
    TooFew { needed: u64, there: usize },
    #[error("`root` needs a single node on the stack, but the stack has {there}: put `inner K {there}` before it")]
    TooMany { there: usize },
    #[error("there is no tree yet: put `root` before this line")]
    NoTree,
    #[error("the tree isn't numbered yet: put `number 1 2 140737488355328` before this line")]
    NotNumbered,
    #[error("the last node can't have this remark: a hint needs an error or a warning, and A..B must be bytes of the node's text")]
    Remark,
}

/// What a script has before a line.
#[derive(Clone, Copy)]
pub(crate) struct State {
    pub(crate) nodes: usize,
    pub(crate) has_tree: bool,
}

impl BadLine {
    /// Why a line can't be done.
    pub(crate) fn of(language: Language, line: &str, state: State) -> BadLine {
        if line.ends_with('\r') {
            return BadLine::CarriageReturn;
        }
        if let Some(command) = Command::parse(line) {
            return BadLine::of_command(&command, state);
        }
        if language == Language::Look && Remark::parse(line).is_some() {
            return match state.nodes {
                0 => too_few(1, state),
                _ => BadLine::Remark,
            };
        }
        BadLine::of_words(language, line)
    }

    /// Why a command can't be done.
    fn of_command(command: &Command<'_>, state: State) -> BadLine {
        match command {
            Command::Inner { count, .. } | Command::Replace { count, .. } => too_few(*count, state),
            Command::Root if state.nodes > 1 => BadLine::TooMany { there: state.nodes },
            Command::Run if state.has_tree => BadLine::NotNumbered,
            Command::Run | Command::Number { .. } | Command::Show => BadLine::NoTree,
            _ => too_few(1, state),
        }
    }

    /// Why a line isn't a line of the language.
    fn of_words(language: Language, line: &str) -> BadLine {
        let word = words::first_word(line).map_or(line, |parts| parts.0);
        match form_of(language, word) {
            Some(form) => BadLine::Form { form },
            None => BadLine::Word {
                page: match language {
                    Language::Look => "docs/LOOK.md",
                    _ => "docs/SCRIPT.md",
                },
            },
        }
    }
}

/// Says that a line takes more nodes than there are.
fn too_few(needed: u64, state: State) -> BadLine {
    BadLine::TooFew {
        needed,
        there: state.nodes,
    }
}

/// The form of the lines that begin with a word.
fn form_of(language: Language, word: &str) -> Option<&'static str> {
    match word {
        "leaf" => Some(
            "leaf K TEXT` with a kind from 0 to 136 but 1, and a blank before the text, as in `leaf 6 ab",
        ),
        "error" => Some(
            "error MESSAGE<tab>TEXT` with a tab between message and text, as in `error wrong<tab>ab",
        ),
        "inner" => Some(
            "inner K N` with a kind from 0 to 136 but 1, and a number of nodes, as in `inner 5 2",
        ),
        "warn" => Some("warn MESSAGE` with a blank before the message, as in `warn careful"),
        "root" | "run" | "show" => Some("root`, `run` or `show` alone in its line, as in `root"),
        "number" => Some(
            "number F LO HI` with F from 1 to 65535, and LO..HI in 2..140737488355328, as in `number 1 2 100",
        ),
        "replace" => Some(
            "replace PATH A B N` with a path as - or 0.2, and three numbers, as in `replace - 0 1 1",
        ),
        "find" => Some(
            "find F NUM` with F from 1 to 65535, and NUM in 2..140737488355328, as in `find 1 6",
        ),
        "hintat" if language == Language::Look => Some(
            "hintat A B TEXT` with two bytes, as in `hintat 0 2 careful",
        ),
        "warnat" if language == Language::Look => Some(
            "warnat A B MESSAGE` with two bytes, as in `warnat 0 2 careful",
        ),
        "hint" if language == Language::Look => Some(
            "hint TEXT` with a blank before the text, as in `hint careful",
        ),
        "look" if language == Language::Look => Some("look views`, `look walks` or `look blank"),
        _ => None,
    }
}
