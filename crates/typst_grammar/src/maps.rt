// Written by bench/grammar_crate.py from crates/grammar.table: change that and run it.
//! The maps that give nodes other kinds.
ghost use Rattle.std.specs.Prelude.{◌≡◌};
ghost use Rattle.typst_grammar.specs.Maps.{changes, entry, item, member, mistaken, param, params, part, pattern, place, sink, target, value};

use crate::change::{Change, Effect, Relabel, Test};
use crate::expectation::Expectation;
use typst_base::SyntaxKind;

/// How a node gets other kinds.
#[derive(Clone, Copy, Debug, PartialEq, Eq, Hash)]
pub enum Map {
    /// A parenthesis that is a value.
    Value,
    /// An item of an array.
    Item,
    /// A pair of a dictionary.
    Entry,
    /// A key or a value.
    Part,
    /// A parenthesis that holds parameters.
    Params,
    /// A parameter.
    Param,
    /// What is in the parentheses of a pattern.
    Member,
    /// A pattern.
    Pattern,
    /// The name of a sink.
    Sink,
    /// A key that has to be a name.
    Mistaken,
    /// What is in the parentheses of a target.
    Place,
    /// What a value is assigned to.
    Target,
}

const CHANGE_0: Change = Change {
    test: Test::Always,
    effect: Effect::Become(Relabel {
        kind: Some(SyntaxKind::Parenthesized),
        first: Some(Map::Item),
        others: Some(Map::Item),
    }),
};

const CHANGE_1: Change = Change {
    test: Test::Always,
    effect: Effect::Become(Relabel {
        kind: Some(SyntaxKind::Array),
        first: Some(Map::Item),
        others: Some(Map::Item),
    }),
};

const CHANGE_2: Change = Change {
    test: Test::Always,
    effect: Effect::Become(Relabel {
        kind: Some(SyntaxKind::Dict),
        first: Some(Map::Entry),
        others: Some(Map::Entry),
    }),
};

const CHANGE_3: Change = Change {
    test: Test::Always,
    effect: Effect::Wrong(Expectation::Expression),
};

const CHANGE_4: Change = Change {
    test: Test::Alone,
    effect: Effect::Expected(Expectation::Expression),
};

const CHANGE_5: Change = Change {
    test: Test::Always,
    effect: Effect::Wrong(Expectation::NamedOrKeyedPair),
};

const CHANGE_6: Change = Change {
    test: Test::Always,
    effect: Effect::Become(Relabel {
        kind: None,
        first: Some(Map::Part),
        others: Some(Map::Part),
    }),
};

const CHANGE_7: Change = Change {
    test: Test::Expr,
    effect: Effect::Wrong(Expectation::NamedOrKeyedPair),
};

const CHANGE_8: Change = Change {
    test: Test::Always,
    effect: Effect::Become(Relabel {
        kind: Some(SyntaxKind::Params),
        first: Some(Map::Param),
        others: Some(Map::Param),
    }),
};

const CHANGE_9: Change = Change {
    test: Test::Always,
    effect: Effect::Wrong(Expectation::Pattern),
};

const CHANGE_10: Change = Change {
    test: Test::Always,
    effect: Effect::Become(Relabel {
        kind: None,
        first: None,
        others: None,
    }),
};

const CHANGE_11: Change = Change {
    test: Test::Always,
    effect: Effect::Become(Relabel {
        kind: None,
        first: Some(Map::Pattern),
        others: Some(Map::Pattern),
    }),
};

const CHANGE_12: Change = Change {
    test: Test::Always,
    effect: Effect::Become(Relabel {
        kind: Some(SyntaxKind::Destructuring),
        first: Some(Map::Member),
        others: Some(Map::Member),
    }),
};

const CHANGE_13: Change = Change {
    test: Test::Always,
    effect: Effect::Become(Relabel {
        kind: Some(SyntaxKind::Named),
        first: Some(Map::Mistaken),
        others: Some(Map::Part),
    }),
};

const CHANGE_14: Change = Change {
    test: Test::Always,
    effect: Effect::Become(Relabel {
        kind: None,
        first: Some(Map::Sink),
        others: Some(Map::Sink),
    }),
};

const CHANGE_15: Change = Change {
    test: Test::Expr,
    effect: Effect::Wrong(Expectation::Pattern),
};

const CHANGE_16: Change = Change {
    test: Test::Always,
    effect: Effect::Become(Relabel {
        kind: Some(SyntaxKind::Named),
        first: Some(Map::Mistaken),
        others: Some(Map::Pattern),
    }),
};

const CHANGE_17: Change = Change {
    test: Test::Always,
    effect: Effect::Become(Relabel {
        kind: None,
        first: Some(Map::Target),
        others: Some(Map::Target),
    }),
};

const CHANGE_18: Change = Change {
    test: Test::Always,
    effect: Effect::Become(Relabel {
        kind: Some(SyntaxKind::Destructuring),
        first: Some(Map::Place),
        others: Some(Map::Place),
    }),
};

const CHANGE_19: Change = Change {
    test: Test::Always,
    effect: Effect::Become(Relabel {
        kind: Some(SyntaxKind::Named),
        first: Some(Map::Mistaken),
        others: Some(Map::Target),
    }),
};

/// A parenthesis that is a value.
fn value(kind: SyntaxKind) -> &'static [Change]
    ensures { result.now ≡ value kind }
{
    match kind {
        SyntaxKind::Parenthesized => &[CHANGE_0],
        SyntaxKind::Array => &[CHANGE_1],
        SyntaxKind::Dict => &[CHANGE_2],
        _ => &[],
    }
}

/// An item of an array.
fn item(kind: SyntaxKind) -> &'static [Change]
    ensures { result.now ≡ item kind }
{
    match kind {
        SyntaxKind::Underscore | SyntaxKind::Named | SyntaxKind::Keyed => &[CHANGE_3],
        SyntaxKind::Parenthesized => &[CHANGE_0],
        SyntaxKind::Array => &[CHANGE_1],
        SyntaxKind::Dict => &[CHANGE_2],
        SyntaxKind::Spread => &[CHANGE_4],
        _ => &[],
    }
}

/// A pair of a dictionary.
fn entry(kind: SyntaxKind) -> &'static [Change]
    ensures { result.now ≡ entry kind }
{
    match kind {
        SyntaxKind::Underscore => &[CHANGE_5],
        SyntaxKind::Named | SyntaxKind::Keyed => &[CHANGE_6],
        SyntaxKind::Spread => &[CHANGE_4],
        _ => &[CHANGE_7],
    }
}

/// A key or a value.
fn part(kind: SyntaxKind) -> &'static [Change]
    ensures { result.now ≡ part kind }
{
    match kind {
        SyntaxKind::Underscore => &[CHANGE_3],
        SyntaxKind::Parenthesized => &[CHANGE_0],
        SyntaxKind::Array => &[CHANGE_1],
        SyntaxKind::Dict => &[CHANGE_2],
        _ => &[],
    }
}

/// A parenthesis that holds parameters.
fn params(kind: SyntaxKind) -> &'static [Change]
    ensures { result.now ≡ params kind }
{
    match kind {
        SyntaxKind::Parenthesized | SyntaxKind::Array | SyntaxKind::Dict => &[CHANGE_8],
        _ => &[],
    }
}

/// A parameter.
fn param(kind: SyntaxKind) -> &'static [Change]
    ensures { result.now ≡ param kind }
{
    match kind {
        SyntaxKind::Colon => &[CHANGE_9],
        SyntaxKind::Underscore | SyntaxKind::Ident => &[CHANGE_10],
        SyntaxKind::Parenthesized => &[CHANGE_11],
        SyntaxKind::Array | SyntaxKind::Dict => &[CHANGE_12],
        SyntaxKind::Named => &[CHANGE_6],
        SyntaxKind::Keyed => &[CHANGE_13],
        SyntaxKind::Spread => &[CHANGE_14],
        _ => &[CHANGE_15],
    }
}

/// What is in the parentheses of a pattern.
fn member(kind: SyntaxKind) -> &'static [Change]
    ensures { result.now ≡ member kind }
{
    match kind {
        SyntaxKind::Colon => &[CHANGE_9],
        SyntaxKind::Underscore | SyntaxKind::Ident => &[CHANGE_10],
        SyntaxKind::Parenthesized | SyntaxKind::Named => &[CHANGE_11],
        SyntaxKind::Array | SyntaxKind::Dict => &[CHANGE_12],
        SyntaxKind::Keyed => &[CHANGE_16],
        SyntaxKind::Spread => &[CHANGE_14],
        _ => &[CHANGE_15],
    }
}

/// A pattern.
fn pattern(kind: SyntaxKind) -> &'static [Change]
    ensures { result.now ≡ pattern kind }
{
    match kind {
        SyntaxKind::Underscore | SyntaxKind::Ident => &[CHANGE_10],
        SyntaxKind::Parenthesized | SyntaxKind::Named => &[CHANGE_11],
        SyntaxKind::Array | SyntaxKind::Dict => &[CHANGE_12],
        SyntaxKind::Keyed => &[CHANGE_16],
        SyntaxKind::Spread => &[CHANGE_14],
        _ => &[CHANGE_15],
    }
}

/// The name of a sink.
fn sink(kind: SyntaxKind) -> &'static [Change]
    ensures { result.now ≡ sink kind }
{
    match kind {
        SyntaxKind::Underscore => &[CHANGE_9],
        SyntaxKind::Ident => &[CHANGE_10],
        _ => &[CHANGE_15],
    }
}

/// A key that has to be a name.
fn mistaken(kind: SyntaxKind) -> &'static [Change]
    ensures { result.now ≡ mistaken kind }
{
    match kind {
        SyntaxKind::Underscore => &[CHANGE_9],
        _ => &[CHANGE_15],
    }
}

/// What is in the parentheses of a target.
fn place(kind: SyntaxKind) -> &'static [Change]
    ensures { result.now ≡ place kind }
{
    match kind {
        SyntaxKind::Colon
        | SyntaxKind::Unary
        | SyntaxKind::Binary
        | SyntaxKind::Closure
        | SyntaxKind::DestructAssignment => &[CHANGE_9],
        SyntaxKind::Parenthesized | SyntaxKind::Named => &[CHANGE_17],
        SyntaxKind::Array | SyntaxKind::Dict => &[CHANGE_18],
        SyntaxKind::Keyed => &[CHANGE_19],
        _ => &[],
    }
}

/// What a value is assigned to.
fn target(kind: SyntaxKind) -> &'static [Change]
    ensures { result.now ≡ target kind }
{
    match kind {
        SyntaxKind::Parenthesized | SyntaxKind::Named => &[CHANGE_17],
        SyntaxKind::Array | SyntaxKind::Dict => &[CHANGE_18],
        SyntaxKind::Keyed => &[CHANGE_19],
        SyntaxKind::Unary
        | SyntaxKind::Binary
        | SyntaxKind::Closure
        | SyntaxKind::DestructAssignment => &[CHANGE_9],
        _ => &[],
    }
}

/// The changes of a map for a kind. The first one that fits is done.
#[tactic(auto, unfolding(crate::specs::Maps::changes))]
pub fn changes(map: Map, kind: SyntaxKind) -> &'static [Change]
    ensures { result.now ≡ changes map kind }
{
    match map {
        Map::Value => value(kind),
        Map::Item => item(kind),
        Map::Entry => entry(kind),
        Map::Part => part(kind),
        Map::Params => params(kind),
        Map::Param => param(kind),
        Map::Member => member(kind),
        Map::Pattern => pattern(kind),
        Map::Sink => sink(kind),
        Map::Mistaken => mistaken(kind),
        Map::Place => place(kind),
        Map::Target => target(kind),
    }
}
