//! The forms in which answers are written.
ghost use Rattle.std.specs.Prelude.{◌≡◌, take};
ghost use Rattle.typst_answers.specs.declared.form.Form.TheVariants.{Paths, Ranges};

use std::alloc::{AllocError, Global};
use typst_tree::LinkedNode;

/// How many characters of a text are written if a form cuts it.
const MOST_CHARS: usize = 60;

/// How many entries of a list are written if a form cuts it.
const MOST_ENTRIES: usize = 8;

/// How answers are written.
#[derive(Clone, Copy, Debug, PartialEq, Eq)]
pub enum Form {
    /// `PATH KIND.ACCESSOR ANSWER`, with nodes by their paths. Each line makes sense by itself.
    Paths,
    /// `ACCESSOR: ANSWER`, with nodes by their kinds and bytes, and with long texts and lists cut. This form is for a
    /// person who sees which node the lines are about.
    Ranges,
}

impl Form {
    /// What stands between the name of an accessor and its answer.
    pub fn separator(self) -> &'static str {
        match self {
            Form::Paths => " ",
            Form::Ranges => ": ",
        }
    }

    /// Adds a text in quotes.
    pub fn push_text(self, out: &mut String, text: &str) -> Result<(), AllocError> {
        let cut = match self {
            Form::Ranges if text.len() > MOST_CHARS => text.char_indices().nth(MOST_CHARS),
            _ => None,
        };
        match cut {
            Some((end, _)) => {
                let beginning = text.get(..end).unwrap_or("");
                write!(out, "{beginning:?}…")
            }
            None => write!(out, "{text:?}"),
        }
    }

    /// The entries of a list that are written.
    pub fn entries<T>(self, list: &[T]) -> &[T]
        ensures whole { self ≡ Paths → result.now ≡ list.now }
        ensures cut { self ≡ Ranges → result.now ≡ take 8 list.now }
    {
        match self {
            Form::Paths => list,
            Form::Ranges => list.get(..MOST_ENTRIES).unwrap_or(list),
        }
    }
}

/// `-` for the root, or the child indices joined by dots.
pub fn path_of(alloc: Global, node: &LinkedNode) -> Result<String, AllocError> {
    let path = node.path(alloc)?;
    let Some((first, rest)) = path.split_first() else {
        return String::from_str(alloc, "-");
    };
    let mut text = format!(in alloc; "{first}")?;
    for index in rest {
        write!(text, ".{index}")?;
    }
    Ok(text)
}
