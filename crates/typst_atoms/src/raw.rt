//! Raw texts.
ghost use Rattle.std.specs.Prelude.{◌≡◌, ◌<◌, ◌⊎◌, [], ◌∷◌, ◌++◌, length, true, false, MatchBool, MatchOption, IfSome};
ghost use Rattle.std.specs.List.{AllByRecursion};
ghost use Rattle.std.specs.Str.{chars};
ghost use Rattle.typst_node.specs.Children.{all_children, children_in};
ghost use Rattle.typst_node.specs.Items.{nodes_ahead, nodes_left};
ghost use Rattle.typst_atoms.specs.Kinds.{is_kind};
ghost use Rattle.typst_atoms.specs.Raws.{is_fenced, lang_node, trimmed_chars, trimmed_in, AnyByRecursion, IsBlock, IsInline};
ghost use Rattle.typst_atoms.specs.Texts.{text_in};
ghost use Rattle.typst_atoms.specs.View.{atom_node, IsOptionalView};
ghost use Rattle.typst_base.specs.declared.kind.SyntaxKind.TheVariants as kinds;

use crate::casts::{cast_all, try_cast_first};
use crate::nodes::{children, first_of_kind};
use crate::views::{Raw, RawLang, Text};
use typst_base::SyntaxKind;
use typst_node::{Items, SyntaxNode};

/// The first character, and the text after it.
fn split_first_char(text: &str) -> Option<(char, &str)>
    ensures chars { MatchOption result (chars text.now ≡ [])
        (λ parts. chars text.now ≡ parts.0 ∷ chars parts.1.now) }
    ensures shorter { IfSome result (λ parts. length parts.1.now < length text.now) }
{
    let mut chars = text.chars();
    let first = chars.next()?;
    Some((first, chars.as_str()))
}

/// Whether the test answers true for some character of the text.
fn any_char<F: Fn(char) -> bool>(text: &str, test: &F) -> bool
    requires { F.IsAlwaysCallable test.now }
    ensures { MatchBool result
        (AnyByRecursion (λ c. F.post test.now c true) (chars text.now))
        (AllByRecursion (λ c. F.post test.now c false) (chars text.now)) }
{
    let mut rest = text;
    while let Some((first, more)) = split_first_char(rest) {
        if test(first) {
            return true;
        }
        rest = more;
    }
    false
}

/// The text of the first of these nodes that was trimmed off a raw text, and the nodes after it.
fn split_first_trimmed(nodes: &[SyntaxNode]) -> Option<(&str, &[SyntaxNode])>
    ensures chars { MatchOption result (trimmed_in nodes.now ≡ [])
        (λ parts. trimmed_in nodes.now ≡ chars parts.0.now ++ trimmed_in parts.1.now) }
    ensures shorter { IfSome result (λ parts. length parts.1.now < length nodes.now) }
{
    let mut rest = nodes;
    while let [first, more @ ..] = rest {
        if first.kind() == SyntaxKind::RawTrimmed {
            return Some((first.leaf_text(), more));
        }
        rest = more;
    }
    None
}

/// Whether the test answers true for some character that was trimmed off a raw text, in one of these nodes.
fn any_trimmed_char<F: Fn(char) -> bool>(nodes: &[SyntaxNode], test: &F) -> bool
    requires { F.IsAlwaysCallable test.now }
    ensures { MatchBool result
        (AnyByRecursion (λ c. F.post test.now c true) (trimmed_in nodes.now))
        (AllByRecursion (λ c. F.post test.now c false) (trimmed_in nodes.now)) }
{
    let mut rest = nodes;
    while let Some((text, more)) = split_first_trimmed(rest) {
        if any_char(text, test) {
            return true;
        }
        rest = more;
    }
    false
}

impl<'a> Raw<'a> {
    /// The lines of the text. They can be read from both ends.
    pub fn lines(self) -> Items<'a, Text<'a>>
        ensures left { nodes_left (is_kind kinds.Text) result
            ≡ all_children (is_kind kinds.Text) (atom_node self.entry) }
        ensures ahead { nodes_ahead result ≡ children_in (atom_node self.entry) }
    {
        cast_all(self.node())
    }

    /// Whether the delimiter has at least three bytes.
    fn is_fenced(self) -> bool
        ensures { result ≡ is_fenced (atom_node self.entry) }
    {
        let delimiter = first_of_kind(self.node(), SyntaxKind::RawDelim);
        delimiter.is_some_and(|delimiter| delimiter.len() >= 3)
    }

    /// The language tag, which only a text between delimiters of at least three backticks can have.
    pub fn lang(self) -> Option<RawLang<'a>>
        ensures { IsOptionalView (lang_node (atom_node self.entry)) result }
    {
        if self.is_fenced() {
            try_cast_first(self.node())
        } else {
            None
        }
    }

    /// Whether the text is a block: its delimiters have at least three backticks, and a newline was trimmed off.
    /// `is_newline` tells which characters are newlines.
    pub fn block<F: Fn(char) -> bool>(self, is_newline: F) -> bool
        requires { F.IsAlwaysCallable is_newline }
        ensures { MatchBool result (IsBlock (λ c b. F.post is_newline c b) (atom_node self.entry))
            (IsInline (λ c b. F.post is_newline c b) (atom_node self.entry)) }
    {
        self.is_fenced() && any_trimmed_char(children(self.node()), &is_newline)
    }
}

impl<'a> RawLang<'a> {
    /// The language tag.
    pub fn get(self) -> &'a str
        ensures { result.now ≡ text_in (atom_node self.entry) }
    {
        self.leaf_text()
    }
}
