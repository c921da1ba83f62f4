//! What is asked of `./show`.

use typst_base::SyntaxKind;

/// How a tree is shown.
#[derive(Clone, Copy, Debug, PartialEq, Eq)]
pub enum Form<'a> {
    /// A drawing in the terminal.
    Tree,
    /// Kinds and texts alone.
    Plain,
    /// A drawing in the terminal with what views answer.
    Views,
    /// The nodes of a kind, a line each.
    Kind(SyntaxKind),
    /// A page for a browser, with the file that it is written to; `-` for standard output.
    Page(&'a str),
}

/// Which nodes are shown.
#[derive(Clone, Copy, Debug, PartialEq, Eq)]
pub struct Wanted {
    /// How many nodes may be above a node, or none if there may be any number.
    pub depth: Option<usize>,
    /// The first and the last line of the text whose nodes are shown, from 1, or none for all lines.
    pub lines: Option<(usize, usize)>,
}

/// What is told of each node in the terminal.
#[derive(Clone, Copy, Debug, PartialEq, Eq)]
pub struct Manner {
    /// Whether its line and column are told.
    pub has_places: bool,
    /// Whether kinds, numbers and errors have colours.
    pub is_coloured: bool,
}

/// What is shown, and how.
#[derive(Clone, Copy, Debug, PartialEq, Eq)]
pub struct Asked<'a> {
    /// The file with the text or the script; `-` for a text on standard input.
    pub file: &'a str,
    /// The file with the edits; `-` for standard input.
    pub edits: Option<&'a str>,
    pub form: Form<'a>,
    pub wanted: Wanted,
    pub manner: Manner,
}
