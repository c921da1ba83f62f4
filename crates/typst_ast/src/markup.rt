//! Accessors of markup.
ghost use Rattle.std.specs.Prelude.{◌≡◌, ◌==◌};
ghost use Rattle.typst_ast.specs.Headings.{heading_depth};
ghost use Rattle.typst_ast.specs.Refs.{ref_target};
ghost use Rattle.typst_ast.specs.View.{IsOptionalView, node_of};
ghost use Rattle.typst_node.specs.Children.{first_child, last_child};
ghost use Rattle.typst_atoms.specs.Kinds.{is_kind};
ghost use Rattle.typst_atoms.specs.Trims.{without_leading};
ghost use Rattle.typst_base.specs.declared.kind.SyntaxKind.TheVariants as kinds;

use crate::views::{ContentBlock, Emph, Heading, ListItem, Markup, Ref, Strong, TermItem};
use std::num::NonZeroUsize;
use typst_atoms::nodes::{first_of_kind, leaf_text};
use typst_atoms::{cast_first, cast_last, try_cast_last};
use typst_base::SyntaxKind;

impl<'a> Strong<'a> {
    /// The strong content.
    pub fn body(self) -> Markup<'a>
        ensures { node_of result ≡ first_child (is_kind kinds.Markup) (node_of self.entry) }
    {
        cast_first(self.node())
    }
}

impl<'a> Emph<'a> {
    /// The emphasized content.
    pub fn body(self) -> Markup<'a>
        ensures { node_of result ≡ first_child (is_kind kinds.Markup) (node_of self.entry) }
    {
        cast_first(self.node())
    }
}

impl<'a> ContentBlock<'a> {
    /// The block's content.
    pub fn body(self) -> Markup<'a>
        ensures { node_of result ≡ first_child (is_kind kinds.Markup) (node_of self.entry) }
    {
        cast_first(self.node())
    }
}

impl<'a> ListItem<'a> {
    /// The item's content.
    pub fn body(self) -> Markup<'a>
        ensures { node_of result ≡ first_child (is_kind kinds.Markup) (node_of self.entry) }
    {
        cast_first(self.node())
    }
}

impl<'a> TermItem<'a> {
    /// The term that is described.
    pub fn term(self) -> Markup<'a>
        ensures { node_of result ≡ first_child (is_kind kinds.Markup) (node_of self.entry) }
    {
        cast_first(self.node())
    }

    /// The description of the term.
    pub fn description(self) -> Markup<'a>
        ensures { node_of result ≡ last_child (is_kind kinds.Markup) (node_of self.entry) }
    {
        cast_last(self.node())
    }
}

impl<'a> Heading<'a> {
    /// The heading's content.
    pub fn body(self) -> Markup<'a>
        ensures { node_of result ≡ first_child (is_kind kinds.Markup) (node_of self.entry) }
    {
        cast_first(self.node())
    }

    /// The section depth: the number of bytes of the marker, or 1 if the marker is empty or missing.
    pub fn depth(self) -> NonZeroUsize
        ensures { result.value ≡ heading_depth (first_child (is_kind kinds.HeadingMarker) (node_of self.entry)) }
    {
        match first_of_kind(self.node(), SyntaxKind::HeadingMarker) {
            Some(marker) => NonZeroUsize::new(marker.len()).unwrap_or(NonZeroUsize::MIN),
            None => NonZeroUsize::MIN,
        }
    }
}

/// The text without all `@` at its beginning.
fn without_at_signs(text: &str) -> &str
    ensures { result.now ≡ without_leading (λ b. b == 64) text.now }
{
    text.trim_start_matches('@')
}

impl<'a> Ref<'a> {
    /// The target of the reference: the marker's text without all `@` at its beginning.
    pub fn target(self) -> &'a str
        ensures { result.now ≡ ref_target (first_child (is_kind kinds.RefMarker) (node_of self.entry)) }
    {
        without_at_signs(leaf_text(first_of_kind(self.node(), SyntaxKind::RefMarker)))
    }

    /// The supplement: the last content block, if there is one.
    pub fn supplement(self) -> Option<ContentBlock<'a>>
        ensures { IsOptionalView kinds.ContentBlock
            (last_child (is_kind kinds.ContentBlock) (node_of self.entry)) result }
    {
        try_cast_last(self.node())
    }
}
