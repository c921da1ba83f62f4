//! Items of numbered lists.
ghost use Rattle.std.specs.Prelude.{◌≡◌, ◌==◌, [], ◌∷◌};
ghost use Rattle.std.specs.Option.{SomeIff};
ghost use Rattle.std.specs.Str.Parse.{digits_value};
ghost use Rattle.typst_ast.specs.EnumNumbers.{HasNumber, IsFirstNumber, marker_digits};
ghost use Rattle.typst_ast.specs.View.{node_of};
ghost use Rattle.typst_node.specs.Children.{all_children, all_in, first_child};
ghost use Rattle.typst_atoms.specs.Kinds.{is_kind};
ghost use Rattle.typst_atoms.specs.Trims.{without_trailing};
ghost use Rattle.typst_base.specs.declared.kind.SyntaxKind.TheVariants as kinds;

use crate::views::{EnumItem, Markup};
use typst_atoms::cast_first;
use typst_atoms::nodes::children;
use typst_base::SyntaxKind;
use typst_node::SyntaxNode;

/// The text without all `.` at its end.
fn without_dots(text: &str) -> &str
    ensures { result.now ≡ without_trailing (λ b. b == 46) text.now }
{
    text.trim_end_matches('.')
}

/// The number in a marker's text, if there is one.
fn marker_number(text: &str) -> Option<u64>
    ensures { SomeIff result (HasNumber text.now) (digits_value 10 (marker_digits text.now)) }
{
    match u64::from_str_radix(without_dots(text), 10) {
        Ok(number) => Some(number),
        Err(_) => None,
    }
}

/// The number of the node, if it is a marker that has one.
fn number_of(node: &SyntaxNode) -> Option<u64>
    ensures { IsFirstNumber (all_in (is_kind kinds.EnumMarker) (node.now ∷ [])) result }
{
    match node.kind() {
        SyntaxKind::EnumMarker => marker_number(node.leaf_text()),
        _ => None,
    }
}

impl<'a> EnumItem<'a> {
    /// The number that the source gives to the item, if it gives one: the number of its first marker that has one.
    ///
    /// A marker has a number if its text is an optional `+`, decimal digits, and any number of `.` after them, and if a
    /// `u64` holds the value.
    pub fn number(self) -> Option<u64>
        ensures { IsFirstNumber (all_children (is_kind kinds.EnumMarker) (node_of self.entry)) result }
    {
        children(self.node()).iter().find_map(number_of)
    }

    /// The item's content.
    pub fn body(self) -> Markup<'a>
        ensures { node_of result ≡ first_child (is_kind kinds.Markup) (node_of self.entry) }
    {
        cast_first(self.node())
    }
}
