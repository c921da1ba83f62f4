//! The languages of the files that build trees.

/// What a file is written in.
#[derive(Clone, Copy, Debug, PartialEq, Eq)]
pub(crate) enum Language {
    /// A script, which builds a tree.
    Script,
    /// A look, which builds a tree as scripts do, with remarks.
    Look,
}

impl Language {
    /// The language of a file, by the end of its name. None for a text.
    pub(crate) fn of(file: &str) -> Option<Language> {
        if file.ends_with(".look") {
            Some(Language::Look)
        } else if file.ends_with(".script") {
            Some(Language::Script)
        } else {
            None
        }
    }
}
