// Written by bench/accessors.py from crates/accessors.txt: change that and run it.
//! The accessors of views, by their numbers.
ghost use Rattle.std.specs.Prelude.{◌≡◌};
ghost use Rattle.typst_accessors.specs.Accessors.{accessor_number, accessor_view, flag_number, flag_view, natural_number, natural_view, integer_number, integer_view, character_number, character_view, text_number, text_view, string_number, string_view};
ghost use Rattle.typst_accessors.specs.Numbered.{IsNumbered};

use crate::node_accessor::NodeAccessor;
use crate::nodes_accessor::NodesAccessor;
use typst_base::SyntaxKind;

/// An accessor of a view, by the form of what it answers.
#[derive(Clone, Copy, Debug, PartialEq, Eq)]
pub enum Accessor {
    /// An accessor that answers a boolean.
    Flag(FlagAccessor),
    /// An accessor that answers a natural number, or none.
    Natural(NaturalAccessor),
    /// An accessor that answers an integer with a sign.
    Integer(IntegerAccessor),
    /// An accessor that answers a character.
    Character(CharacterAccessor),
    /// An accessor that answers a text of the tree.
    Text(TextAccessor),
    /// An accessor that answers a text that the call makes.
    String(StringAccessor),
    /// An accessor that answers another node, or none.
    Node(NodeAccessor),
    /// An accessor that answers other nodes, by an index.
    Nodes(NodesAccessor),
}

impl Accessor {
    /// The accessor with a number, if there is one.
    pub fn of_number(number: u32) -> Option<Accessor>
        ensures { IsNumbered accessor_number number result }
    {
        if let Some(accessor) = FlagAccessor::of_number(number) {
            return Some(Accessor::Flag(accessor));
        }
        if let Some(accessor) = NaturalAccessor::of_number(number) {
            return Some(Accessor::Natural(accessor));
        }
        if let Some(accessor) = IntegerAccessor::of_number(number) {
            return Some(Accessor::Integer(accessor));
        }
        if let Some(accessor) = CharacterAccessor::of_number(number) {
            return Some(Accessor::Character(accessor));
        }
        if let Some(accessor) = TextAccessor::of_number(number) {
            return Some(Accessor::Text(accessor));
        }
        if let Some(accessor) = StringAccessor::of_number(number) {
            return Some(Accessor::String(accessor));
        }
        if let Some(accessor) = NodeAccessor::of_number(number) {
            return Some(Accessor::Node(accessor));
        }
        if let Some(accessor) = NodesAccessor::of_number(number) {
            return Some(Accessor::Nodes(accessor));
        }
        None
    }

    /// The kind of the nodes that have the accessor.
    pub fn view(self) -> SyntaxKind
        ensures { result ≡ accessor_view self }
    {
        match self {
            Accessor::Flag(accessor) => accessor.view(),
            Accessor::Natural(accessor) => accessor.view(),
            Accessor::Integer(accessor) => accessor.view(),
            Accessor::Character(accessor) => accessor.view(),
            Accessor::Text(accessor) => accessor.view(),
            Accessor::String(accessor) => accessor.view(),
            Accessor::Node(accessor) => accessor.view(),
            Accessor::Nodes(accessor) => accessor.view(),
        }
    }
}

/// An accessor that answers a boolean.
#[derive(Clone, Copy, Debug, PartialEq, Eq)]
pub enum FlagAccessor {
    /// Whether it is a double quote.
    SmartQuoteDouble,
    /// Whether it is a number: its first character is one by Unicode's general categories.
    MathTextIsNumber,
    /// The value: whether the text is `true`.
    BoolGet,
    /// Whether these are the contents of parens that were removed.
    MathWasDeparenthesized,
    /// Whether the equation is a block: its second child and its last child but one are spaces.
    EquationBlock,
    /// Whether the operator groups from the right, as assignments do.
    BinaryIsRight,
    /// Whether a comma comes after the last argument.
    ArgsTrailingComma,
}

impl FlagAccessor {
    /// The accessor of this form with a number.
    fn of_number(number: u32) -> Option<FlagAccessor>
        ensures { IsNumbered flag_number number result }
    {
        match number {
            10 => Some(FlagAccessor::SmartQuoteDouble),
            13 => Some(FlagAccessor::MathTextIsNumber),
            15 => Some(FlagAccessor::BoolGet),
            21 => Some(FlagAccessor::MathWasDeparenthesized),
            25 => Some(FlagAccessor::EquationBlock),
            31 => Some(FlagAccessor::BinaryIsRight),
            32 => Some(FlagAccessor::ArgsTrailingComma),
            _ => None,
        }
    }

    /// The kind of the nodes that have the accessor.
    fn view(self) -> SyntaxKind
        ensures { result ≡ flag_view self }
    {
        match self {
            FlagAccessor::SmartQuoteDouble => SyntaxKind::SmartQuote,
            FlagAccessor::MathTextIsNumber => SyntaxKind::MathText,
            FlagAccessor::BoolGet => SyntaxKind::Bool,
            FlagAccessor::MathWasDeparenthesized => SyntaxKind::Math,
            FlagAccessor::EquationBlock => SyntaxKind::Equation,
            FlagAccessor::BinaryIsRight => SyntaxKind::Binary,
            FlagAccessor::ArgsTrailingComma => SyntaxKind::Args,
        }
    }
}

/// An accessor that answers a natural number, or none.
#[derive(Clone, Copy, Debug, PartialEq, Eq)]
pub enum NaturalAccessor {
    /// The number of primes.
    MathPrimesCount,
    /// The section depth: the number of bytes of the marker, or 1 if it is empty or missing.
    HeadingDepth,
    /// The number that the text gives to the item, if it gives one.
    EnumItemNumber,
    /// The index of a root by its sign: 3 or 4, if it has one.
    MathRootIndex,
    /// The precedence of the operator, from 4 to 7. An operator with a larger number binds tighter.
    UnaryPrecedence,
    /// The precedence of the operator, from 1 to 6. An operator with a larger number binds tighter.
    BinaryPrecedence,
}

impl NaturalAccessor {
    /// The accessor of this form with a number.
    fn of_number(number: u32) -> Option<NaturalAccessor>
        ensures { IsNumbered natural_number number result }
    {
        match number {
            14 => Some(NaturalAccessor::MathPrimesCount),
            22 => Some(NaturalAccessor::HeadingDepth),
            23 => Some(NaturalAccessor::EnumItemNumber),
            26 => Some(NaturalAccessor::MathRootIndex),
            28 => Some(NaturalAccessor::UnaryPrecedence),
            30 => Some(NaturalAccessor::BinaryPrecedence),
            _ => None,
        }
    }

    /// The kind of the nodes that have the accessor.
    fn view(self) -> SyntaxKind
        ensures { result ≡ natural_view self }
    {
        match self {
            NaturalAccessor::MathPrimesCount => SyntaxKind::MathPrimes,
            NaturalAccessor::HeadingDepth => SyntaxKind::Heading,
            NaturalAccessor::EnumItemNumber => SyntaxKind::EnumItem,
            NaturalAccessor::MathRootIndex => SyntaxKind::MathRoot,
            NaturalAccessor::UnaryPrecedence => SyntaxKind::Unary,
            NaturalAccessor::BinaryPrecedence => SyntaxKind::Binary,
        }
    }
}

/// An accessor that answers an integer with a sign.
#[derive(Clone, Copy, Debug, PartialEq, Eq)]
pub enum IntegerAccessor {
    /// The value. It is 0 if the text is no integer, or one that 64 bits with a sign don't hold.
    IntGet,
}

impl IntegerAccessor {
    /// The accessor of this form with a number.
    fn of_number(number: u32) -> Option<IntegerAccessor>
        ensures { IsNumbered integer_number number result }
    {
        match number {
            16 => Some(IntegerAccessor::IntGet),
            _ => None,
        }
    }

    /// The kind of the nodes that have the accessor.
    fn view(self) -> SyntaxKind
        ensures { result ≡ integer_view self }
    {
        match self {
            IntegerAccessor::IntGet => SyntaxKind::Int,
        }
    }
}

/// An accessor that answers a character.
#[derive(Clone, Copy, Debug, PartialEq, Eq)]
pub enum CharacterAccessor {
    /// The escaped character. It is U+0000 if the text names no character.
    EscapeGet,
    /// The character that the signs stand for. It is U+0000 if the text is no shorthand.
    ShorthandGet,
    /// The character that the signs stand for. It is U+0000 if the text is no shorthand.
    MathShorthandGet,
}

impl CharacterAccessor {
    /// The accessor of this form with a number.
    fn of_number(number: u32) -> Option<CharacterAccessor>
        ensures { IsNumbered character_number number result }
    {
        match number {
            7 => Some(CharacterAccessor::EscapeGet),
            8 => Some(CharacterAccessor::ShorthandGet),
            9 => Some(CharacterAccessor::MathShorthandGet),
            _ => None,
        }
    }

    /// The kind of the nodes that have the accessor.
    fn view(self) -> SyntaxKind
        ensures { result ≡ character_view self }
    {
        match self {
            CharacterAccessor::EscapeGet => SyntaxKind::Escape,
            CharacterAccessor::ShorthandGet => SyntaxKind::Shorthand,
            CharacterAccessor::MathShorthandGet => SyntaxKind::MathShorthand,
        }
    }
}

/// An accessor that answers a text of the tree.
#[derive(Clone, Copy, Debug, PartialEq, Eq)]
pub enum TextAccessor {
    /// The content of the comment: its text without a leading `//`.
    LineCommentText,
    /// The content of the comment: the text between its two marks, or the whole text if one is missing.
    BlockCommentText,
    /// The text.
    TextGet,
    /// The language tag.
    RawLangGet,
    /// The address.
    LinkGet,
    /// The identifier.
    IdentGet,
    /// The identifier.
    MathIdentGet,
    /// The name: the text without all `<` at its beginning and all `>` at its end.
    LabelGet,
    /// The character or the number, as it is written.
    MathTextGet,
    /// The number, as it is written.
    FloatGet,
    /// The number without its unit, as it is written.
    NumericNumber,
    /// The unit: `pt`, `mm`, `cm`, `in`, `rad`, `deg`, `em` or `fr`, or `%` also for any other one.
    NumericUnit,
    /// The target: the marker's text without all `@` at its beginning.
    RefTarget,
    /// The operator, as it is written: that of the first child that is a unary operator, or else `+`.
    UnaryOp,
    /// The operator, as it is written: that of the first child that is a binary operator, or else `+`.
    BinaryOp,
}

impl TextAccessor {
    /// The accessor of this form with a number.
    fn of_number(number: u32) -> Option<TextAccessor>
        ensures { IsNumbered text_number number result }
    {
        match number {
            0 => Some(TextAccessor::LineCommentText),
            1 => Some(TextAccessor::BlockCommentText),
            2 => Some(TextAccessor::TextGet),
            3 => Some(TextAccessor::RawLangGet),
            4 => Some(TextAccessor::LinkGet),
            5 => Some(TextAccessor::IdentGet),
            6 => Some(TextAccessor::MathIdentGet),
            11 => Some(TextAccessor::LabelGet),
            12 => Some(TextAccessor::MathTextGet),
            17 => Some(TextAccessor::FloatGet),
            18 => Some(TextAccessor::NumericNumber),
            19 => Some(TextAccessor::NumericUnit),
            24 => Some(TextAccessor::RefTarget),
            27 => Some(TextAccessor::UnaryOp),
            29 => Some(TextAccessor::BinaryOp),
            _ => None,
        }
    }

    /// The kind of the nodes that have the accessor.
    fn view(self) -> SyntaxKind
        ensures { result ≡ text_view self }
    {
        match self {
            TextAccessor::LineCommentText => SyntaxKind::LineComment,
            TextAccessor::BlockCommentText => SyntaxKind::BlockComment,
            TextAccessor::TextGet => SyntaxKind::Text,
            TextAccessor::RawLangGet => SyntaxKind::RawLang,
            TextAccessor::LinkGet => SyntaxKind::Link,
            TextAccessor::IdentGet => SyntaxKind::Ident,
            TextAccessor::MathIdentGet => SyntaxKind::MathIdent,
            TextAccessor::LabelGet => SyntaxKind::Label,
            TextAccessor::MathTextGet => SyntaxKind::MathText,
            TextAccessor::FloatGet => SyntaxKind::Float,
            TextAccessor::NumericNumber => SyntaxKind::Numeric,
            TextAccessor::NumericUnit => SyntaxKind::Numeric,
            TextAccessor::RefTarget => SyntaxKind::Ref,
            TextAccessor::UnaryOp => SyntaxKind::Unary,
            TextAccessor::BinaryOp => SyntaxKind::Binary,
        }
    }
}

/// An accessor that answers a text that the call makes.
#[derive(Clone, Copy, Debug, PartialEq, Eq)]
pub enum StringAccessor {
    /// The value: the text without its quotes, with each escape sequence read.
    StrGet,
}

impl StringAccessor {
    /// The accessor of this form with a number.
    fn of_number(number: u32) -> Option<StringAccessor>
        ensures { IsNumbered string_number number result }
    {
        match number {
            20 => Some(StringAccessor::StrGet),
            _ => None,
        }
    }

    /// The kind of the nodes that have the accessor.
    fn view(self) -> SyntaxKind
        ensures { result ≡ string_view self }
    {
        match self {
            StringAccessor::StrGet => SyntaxKind::Str,
        }
    }
}
