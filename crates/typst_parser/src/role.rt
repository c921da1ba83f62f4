//! What is looked at in the children of a tree, in search of names that come again.
ghost use Rattle.std.specs.Prelude.{◌≡◌};
ghost use Rattle.typst_parser.specs.Roles.{first_role, list_role, others_role, pattern_role, root_role};

use typst_base::SyntaxKind;
use typst_grammar::Unique;

/// What is looked at in a tree. A number is that of the list that the tree is in.
#[derive(Clone, Copy, Debug, PartialEq, Eq)]
pub enum Role {
    /// Nothing.
    Nothing,
    /// Its children, which are arguments.
    Arguments,
    /// The name of an argument.
    Argument,
    /// It, if it is a name.
    Name,
    /// Its pairs, if it is a list.
    Keys,
    /// Its key, if it is a pair, and else what is in it.
    Item(usize),
    /// It, if it is a key.
    Key(usize),
    /// The names that a pattern binds.
    Pattern,
    /// The same, of an element of a pattern.
    Element(usize),
    /// The same, of a parameter.
    Parameter(usize),
}

/// The role of the tree in which names are looked for.
pub(crate) fn root_role(what: Unique) -> Role
    ensures { result ≡ root_role what }
{
    match what {
        Unique::Argument => Role::Arguments,
        Unique::Key => Role::Keys,
        Unique::Parameter | Unique::Binding | Unique::Sink => Role::Pattern,
    }
}

/// The role of the items of a list, which has this number.
fn list_role(kind: SyntaxKind, number: usize) -> Role
    ensures { result ≡ list_role kind number }
{
    match kind {
        SyntaxKind::Array | SyntaxKind::Dict | SyntaxKind::Parenthesized => Role::Item(number),
        _ => Role::Nothing,
    }
}

/// The role of the elements of a pattern, which has this number.
fn pattern_role(kind: SyntaxKind, number: usize) -> Role
    ensures { result ≡ pattern_role kind number }
{
    match kind {
        SyntaxKind::Params => Role::Parameter(number),
        SyntaxKind::Destructuring | SyntaxKind::Parenthesized => Role::Element(number),
        _ => Role::Nothing,
    }
}

/// The role of the first child of a tree, which has this number.
pub(crate) fn first_role(role: Role, kind: SyntaxKind, number: usize) -> Role
    ensures { result ≡ first_role role kind number }
{
    match (role, kind) {
        (Role::Nothing | Role::Name, _) => Role::Nothing,
        (Role::Arguments, _) => Role::Argument,
        (Role::Argument, SyntaxKind::Named) => Role::Name,
        (Role::Argument, _) => Role::Nothing,
        (Role::Item(list), SyntaxKind::Named | SyntaxKind::Keyed) => Role::Key(list),
        (Role::Keys | Role::Item(_) | Role::Key(_), _) => list_role(kind, number),
        (Role::Element(_), SyntaxKind::Named) => Role::Nothing,
        (Role::Element(_) | Role::Parameter(_), SyntaxKind::Spread) => Role::Pattern,
        (Role::Parameter(_), SyntaxKind::Named) => Role::Pattern,
        (Role::Pattern | Role::Element(_) | Role::Parameter(_), _) => pattern_role(kind, number),
    }
}

/// The role of the other children of a tree, which has this number.
pub(crate) fn others_role(role: Role, kind: SyntaxKind, number: usize) -> Role
    ensures { result ≡ others_role role kind number }
{
    match (role, kind) {
        (Role::Item(_), SyntaxKind::Named | SyntaxKind::Keyed) => Role::Keys,
        (Role::Argument, SyntaxKind::Named) => Role::Nothing,
        (Role::Element(_), SyntaxKind::Named) => Role::Pattern,
        (Role::Parameter(_), SyntaxKind::Named) => Role::Nothing,
        _ => first_role(role, kind, number),
    }
}
