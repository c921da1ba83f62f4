// Written by bench/grammar_crate.py from crates/grammar.table: change that and run it.
//! What the machine may expect.
ghost use Rattle.std.specs.Prelude.{◌≡◌};
ghost use Rattle.typst_grammar.specs.Expectations.{expectation_text, expectation_what};

/// What a row or a map expects where something else is.
#[derive(Clone, Copy, Debug, PartialEq, Eq, Hash)]
pub enum Expectation {
    /// Colon.
    Colon,
    /// Expression.
    Expression,
    /// Semicolon or line break.
    SemicolonOrLineBreak,
    /// Keyword `in`.
    KeywordIn,
    /// Identifier.
    Identifier,
    /// Comma.
    Comma,
    /// Pattern.
    Pattern,
    /// Equals sign.
    EqualsSign,
    /// Argument list.
    ArgumentList,
    /// Block.
    Block,
    /// Named or keyed pair.
    NamedOrKeyedPair,
}

impl Expectation {
    /// The text of the error where it is missing.
    pub fn text(self) -> &'static str
        ensures { result.now ≡ expectation_text self }
    {
        match self {
            Expectation::Colon => "expected colon",
            Expectation::Expression => "expected expression",
            Expectation::SemicolonOrLineBreak => "expected semicolon or line break",
            Expectation::KeywordIn => "expected keyword `in`",
            Expectation::Identifier => "expected identifier",
            Expectation::Comma => "expected comma",
            Expectation::Pattern => "expected pattern",
            Expectation::EqualsSign => "expected equals sign",
            Expectation::ArgumentList => "expected argument list",
            Expectation::Block => "expected block",
            Expectation::NamedOrKeyedPair => "expected named or keyed pair",
        }
    }

    /// What is expected.
    pub fn what(self) -> &'static str
        ensures { result.now ≡ expectation_what self }
    {
        match self {
            Expectation::Colon => "colon",
            Expectation::Expression => "expression",
            Expectation::SemicolonOrLineBreak => "semicolon or line break",
            Expectation::KeywordIn => "keyword `in`",
            Expectation::Identifier => "identifier",
            Expectation::Comma => "comma",
            Expectation::Pattern => "pattern",
            Expectation::EqualsSign => "equals sign",
            Expectation::ArgumentList => "argument list",
            Expectation::Block => "block",
            Expectation::NamedOrKeyedPair => "named or keyed pair",
        }
    }
}
