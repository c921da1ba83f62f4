//! The modes in which a parser reads, and the rules for the mode after a node.

/// How a piece of source text is read.
#[derive(Clone, Copy, Debug, PartialEq, Eq, Hash)]
pub enum SyntaxMode {
    /// Text and markup, as at the top level of a file.
    Markup,
    /// An equation, as between two dollar signs.
    Math,
    /// Keywords, literals and operators, as after a hash.
    Code,
}

/// How the mode directly after a node follows from the node's kind.
///
/// "Its parent's" is the mode after the node's parent. Without a parent there is no mode.
#[derive(Clone, Copy, Debug, PartialEq, Eq)]
pub enum ModeAfter {
    /// This mode, wherever the node is.
    Known(SyntaxMode),
    /// The parent's mode.
    Parent,
    /// No mode: nothing is read after the node.
    None,
    /// No mode below a `Raw`, and otherwise markup.
    Text,
    /// No mode for the first child, and otherwise its parent's.
    RawDelim,
    /// Math for the first child, and otherwise its parent's.
    Dollar,
    /// Math below an `Equation`, and otherwise its parent's.
    Space,
    /// Code directly after a `Hash`, and otherwise its parent's.
    Embeddable,
}
