// Written by bench/grammar_crate.py from crates/grammar.table: change that and run it.
//! The rows of the syntax.
ghost use Rattle.std.specs.Prelude.{◌≡◌};
ghost use Rattle.typst_grammar.specs.Row.{rows_of};
ghost use Rattle.typst_grammar.specs.Table.{rows};

pub use crate::modes::mode_of;
use crate::row::Row;
use crate::{
    arguments_rows, blocks_rows, code_rows, control_rows, delimiters_rows, groups_rows,
    imports_rows, lists_rows, markup_rows, math_rows, operators_rows, parameters_rows,
    patterns_rows, scripts_rows, statements_rows, structure_rows,
};

/// What the machine asks of a token.
#[derive(Clone, Copy, Debug, PartialEq, Eq, Hash)]
pub enum Class {
    /// No token, or one before which a line feed ends what is open.
    End,
    /// What the lexer rejects.
    Error,
    /// Anything but an operator, where only an operator may come.
    Other,
    /// Text, a shorthand, a quote or a link.
    Text,
    /// A backslash before white space.
    Linebreak,
    /// A backslash with the character that it escapes.
    Escape,
    /// A name between `<` and `>`.
    Label,
    /// An at sign with a name.
    RefMarker,
    /// Raw text.
    Raw,
    /// Signs of equality before a blank.
    HeadingMarker,
    /// A minus before a blank.
    ListMarker,
    /// A plus, or a number with a dot, before a blank.
    EnumMarker,
    /// A slash before a blank.
    TermMarker,
    /// A hash.
    Hash,
    /// A dollar.
    Dollar,
    /// A hash or a dollar, for a parser that reads markup alone.
    Plain,
    /// An opening brace.
    LeftBrace,
    /// A closing brace.
    RightBrace,
    /// An opening bracket.
    LeftBracket,
    /// A closing bracket.
    RightBracket,
    /// An opening parenthesis.
    LeftParen,
    /// A closing parenthesis.
    RightParen,
    /// A comma.
    Comma,
    /// A semicolon.
    Semicolon,
    /// A colon.
    Colon,
    /// A dot that isn't directly before a name.
    Dot,
    /// A dot directly before a name, which isn't `_` alone.
    Field,
    /// Two dots.
    Dots,
    /// An arrow.
    Arrow,
    /// A star.
    Star,
    /// A slash.
    Slash,
    /// An underscore.
    Underscore,
    /// A sign of equality.
    Eq,
    /// A plus or a minus.
    Sign,
    /// `==`, `!=`, `<`, `<=`, `>` or `>=`.
    Comparison,
    /// `+=`, `-=`, `*=` or `/=`.
    Assignment,
    /// A name.
    Ident,
    /// A string.
    Str,
    /// A number, with or without a unit, or a boolean.
    Literal,
    /// `none` or `auto`.
    Constant,
    /// The keyword `not`.
    Not,
    /// The keyword `and`.
    And,
    /// The keyword `or`.
    Or,
    /// The keyword `let`.
    Let,
    /// The keyword `set`.
    Set,
    /// The keyword `show`.
    Show,
    /// The keyword `context`.
    Context,
    /// The keyword `if`.
    If,
    /// The keyword `else`.
    Else,
    /// The keyword `for`.
    For,
    /// The keyword `in`.
    In,
    /// The keyword `while`.
    While,
    /// The keyword `break`.
    Break,
    /// The keyword `continue`.
    Continue,
    /// The keyword `return`.
    Return,
    /// The keyword `import`.
    Import,
    /// The keyword `include`.
    Include,
    /// The keyword `as`.
    As,
    /// A name of two letters or more in math.
    MathIdent,
    /// A letter in math.
    MathLetter,
    /// A number, a shorthand, an alignment point or another character in math.
    MathText,
    /// Primes.
    MathPrimes,
    /// An opening delimiter in math other than a parenthesis or a brace.
    Opening,
    /// A closing delimiter in math other than a parenthesis or a brace.
    Closing,
    /// A hat.
    Hat,
    /// An exclamation mark.
    Bang,
    /// The sign of a root.
    Root,
    /// A name directly before the colon of an argument in math.
    ArgumentName,
    /// An underscore directly before the colon of an argument in math.
    ArgumentBlank,
}

/// Where in the syntax a frame is.
#[derive(Clone, Copy, Debug, PartialEq, Eq, Hash)]
pub enum State {
    /// The nodes of the text.
    Document,
    /// A hash with the code behind it.
    Hash,
    /// Strong content with its delimiters.
    Strong,
    /// Strong content.
    StrongBody,
    /// Emphasized content with its delimiters.
    Emph,
    /// Emphasized content.
    EmphBody,
    /// A heading with its marker.
    Heading,
    /// The content of a heading.
    HeadingBody,
    /// An item of a list with its marker.
    Item,
    /// The content of an item.
    ItemBody,
    /// An item of a term list.
    Term,
    /// The marker of a term with the term.
    TermHead,
    /// A term that is described.
    TermName,
    /// The colon behind a term, with the description.
    TermColon,
    /// A reference.
    Reference,
    /// What may follow the marker of a reference.
    ReferenceSupplement,
    /// A block of content.
    Content,
    /// The content of a block.
    ContentBody,
    /// The code behind a hash.
    Embedded,
    /// The end of a statement behind a hash.
    EmbeddedStatement,
    /// The end of an expression behind a hash.
    EmbeddedExpr,
    /// An expression.
    Expr,
    /// An expression of a block of code.
    Statement,
    /// What may follow an expression.
    ExprAfter,
    /// What has to follow `not` behind an expression.
    ExprNot,
    /// What may follow a name.
    ExprName,
    /// What may follow an underscore.
    ExprBlank,
    /// What may follow a parenthesis.
    ExprGroup,
    /// A name.
    Name,
    /// A block of code.
    Braces,
    /// The expressions of a block of code.
    Code,
    /// The end of an expression of a block of code.
    CodeEnd,
    /// A parenthesis, an array or a dictionary.
    Group,
    /// The first item, or the colon of a dictionary.
    GroupFirst,
    /// What may follow the first item.
    GroupOne,
    /// What may follow the first item if no comma does.
    GroupMore,
    /// The end of a parenthesis.
    GroupClose,
    /// An item behind items that are spread.
    Loose,
    /// What the first item that isn't spread makes of the list.
    LooseItem,
    /// The comma behind an item that is spread.
    LooseComma,
    /// An item of an array.
    Array,
    /// The comma behind an item of an array.
    ArrayComma,
    /// The end of an array.
    ArrayClose,
    /// A pair of a dictionary.
    Dict,
    /// The comma behind a pair.
    DictComma,
    /// The end of a dictionary.
    DictClose,
    /// An item that is spread.
    Spread,
    /// What is spread, which a pattern needn't have.
    SpreadValue,
    /// An item: a value, or a key with its value.
    Pair,
    /// The colon behind a key.
    PairColon,
    /// The arguments of a call.
    Args,
    /// Blocks of content behind arguments.
    ArgsContent,
    /// An argument, if another one comes.
    Arguments,
    /// The comma behind an argument.
    ArgumentsComma,
    /// What may follow an expression of one token.
    ArgumentValue,
    /// What may follow a name.
    ArgumentName,
    /// The value of an argument with a name.
    Named,
    /// What may follow a value of one token.
    NamedValue,
    /// What may follow a value that is a name.
    NamedName,
    /// The end of an argument with a name.
    NamedEnd,
    /// An argument that is spread.
    SpreadArgument,
    /// An argument: a value, or a name with its value.
    Argument,
    /// The colon behind what is no name.
    ArgumentColon,
    /// The parameters of a function that has a name.
    Params,
    /// A parameter, if another one comes.
    ParamsItem,
    /// The comma behind a parameter.
    ParamsComma,
    /// What may follow a name.
    ParamName,
    /// The end of parameters.
    ParamsClose,
    /// A parameter.
    Param,
    /// The name of a sink, if it has one.
    Sink,
    /// A pattern that is a name.
    Leaf,
    /// Whether a pattern is a name.
    LeafCheck,
    /// A pattern.
    Pattern,
    /// A pattern in a parenthesis.
    Tuple,
    /// The first item of a pattern.
    TupleFirst,
    /// What may follow the first item of a pattern.
    TupleOne,
    /// What may follow the first item of a pattern if no comma does.
    TupleMore,
    /// An item of a pattern, if another one comes.
    TupleItem,
    /// The comma behind an item of a pattern.
    TupleComma,
    /// The end of a pattern.
    TupleClose,
    /// An item of a pattern: a pattern, a key with a pattern, or a sink.
    Element,
    /// The colon behind a key of a pattern.
    ElementColon,
    /// What `let` binds.
    Binding,
    /// What may follow a name that is bound.
    BindingName,
    /// The body of a function that has a name.
    BindingClosure,
    /// The end of a function that has a name.
    BindingEnd,
    /// The value of a pattern.
    BindingValue,
    /// The function of a set rule.
    Target,
    /// The fields of such a function.
    TargetField,
    /// The arguments of a set rule.
    SetArguments,
    /// The condition of a set rule.
    SetCondition,
    /// The selector of a show rule.
    ShowSelector,
    /// The colon of a show rule.
    ShowColon,
    /// The value that `return` may have.
    ReturnValue,
    /// The block of a loop or a conditional.
    Body,
    /// A conditional.
    Conditional,
    /// Whether a conditional has another branch.
    ConditionalElse,
    /// The other branch of a conditional.
    ConditionalBranch,
    /// What follows the pattern of a loop.
    ForIn,
    /// A second pattern that isn't in a parenthesis.
    ForMore,
    /// What follows the source of an import.
    ImportAs,
    /// The colon of an import.
    ImportColon,
    /// What is imported.
    ImportWhat,
    /// Items of an import in a parenthesis.
    ImportList,
    /// The end of such items.
    ImportClose,
    /// The items of an import.
    Imports,
    /// The comma behind an item of an import.
    ImportsComma,
    /// An item of an import.
    Imported,
    /// The path of an item, and the name that it gets.
    ImportedPath,
    /// An equation.
    Equation,
    /// The content of an equation.
    Math,
    /// What may follow a token of the content.
    MathLeaf,
    /// What may follow a letter or a string of the content.
    MathLetter,
    /// What may follow a name of the content.
    MathName,
    /// An expression in math.
    MathExpr,
    /// What may follow a name in math directly.
    MathIdent,
    /// The name of a field in math.
    Field,
    /// A delimiter directly behind a name, a letter or a string.
    MathJoined,
    /// Parentheses of an operand.
    MathGroup,
    /// Whether parentheses stay.
    MathParen,
    /// What may follow an expression in math.
    MathAfter,
    /// What may follow primes.
    MathPrimed,
    /// Whether a script above follows the one below.
    MathBelow,
    /// Whether a script below follows the one above.
    MathAbove,
    /// Delimiters with what is between them.
    Delimited,
    /// What is between delimiters.
    DelimitedBody,
    /// The arguments of a call in math.
    MathArgs,
    /// An argument, if another one comes.
    MathArgsItem,
    /// The comma or semicolon behind an argument.
    MathArgsComma,
    /// The end of the arguments.
    MathArgsClose,
    /// An argument: a value, a name with its value, or values that are spread.
    MathArg,
    /// The colon behind the name of an argument.
    MathArgColon,
    /// The value of an argument with a name.
    MathNamed,
    /// The value of an argument.
    MathValue,
    /// Whether one expression is the value.
    MathValueOne,
    /// The value of an argument from the second expression on.
    MathValueMore,
    /// The rest of a row of `hash`, once the frame that it opened has returned.
    HashRest,
    /// The rest of a row of `item`, once the frame that it opened has returned.
    ItemRest1,
    /// The rest of a row of `item`, once the frame that it opened has returned.
    ItemRest2,
    /// The rest of a row of `term.head`, once the frame that it opened has returned.
    TermHeadRest,
    /// The rest of a row of `term.colon`, once the frame that it opened has returned.
    TermColonRest1,
    /// The rest of a row of `term.colon`, once the frame that it opened has returned.
    TermColonRest2,
    /// The rest of a row of `reference.supplement`, once the frame that it opened has returned.
    ReferenceSupplementRest,
    /// The rest of a row of `expr`, once the frame that it opened has returned.
    ExprRest1,
    /// The rest of a row of `expr`, once the frame that it opened has returned.
    ExprRest2,
    /// The rest of a row of `expr`, once the frame that it opened has returned.
    ExprRest3,
    /// The rest of a row of `expr`, once the frame that it opened has returned.
    ExprRest4,
    /// The rest of a row of `expr`, once the frame that it opened has returned.
    ExprRest5,
    /// The rest of a row of `expr.rest5`, once the frame that it opened has returned.
    ExprRest5Rest,
    /// The rest of a row of `expr`, once the frame that it opened has returned.
    ExprRest6,
    /// The rest of a row of `expr`, once the frame that it opened has returned.
    ExprRest7,
    /// The rest of a row of `expr.after`, once the frame that it opened has returned.
    ExprAfterRest1,
    /// The rest of a row of `expr.after`, once the frame that it opened has returned.
    ExprAfterRest2,
    /// The rest of a row of `expr.after`, once the frame that it opened has returned.
    ExprAfterRest3,
    /// The rest of a row of `expr.after`, once the frame that it opened has returned.
    ExprAfterRest4,
    /// The rest of a row of `expr.after`, once the frame that it opened has returned.
    ExprAfterRest5,
    /// The rest of a row of `expr.after`, once the frame that it opened has returned.
    ExprAfterRest6,
    /// The rest of a row of `expr.after`, once the frame that it opened has returned.
    ExprAfterRest7,
    /// The rest of a row of `expr.after`, once the frame that it opened has returned.
    ExprAfterRest8,
    /// The rest of a row of `expr.after`, once the frame that it opened has returned.
    ExprAfterRest9,
    /// The rest of a row of `expr.not`, once the frame that it opened has returned.
    ExprNotRest,
    /// The rest of a row of `expr.name`, once the frame that it opened has returned.
    ExprNameRest,
    /// The rest of a row of `expr.blank`, once the frame that it opened has returned.
    ExprBlankRest1,
    /// The rest of a row of `expr.blank`, once the frame that it opened has returned.
    ExprBlankRest2,
    /// The rest of a row of `expr.group`, once the frame that it opened has returned.
    ExprGroupRest1,
    /// The rest of a row of `expr.group`, once the frame that it opened has returned.
    ExprGroupRest2,
    /// The rest of a row of `spread.value`, once the frame that it opened has returned.
    SpreadValueRest,
    /// The rest of a row of `pair.colon`, once the frame that it opened has returned.
    PairColonRest1,
    /// The rest of a row of `pair.colon`, once the frame that it opened has returned.
    PairColonRest2,
    /// The rest of a row of `named`, once the frame that it opened has returned.
    NamedRest,
    /// The rest of a row of `spread.argument`, once the frame that it opened has returned.
    SpreadArgumentRest,
    /// The rest of a row of `argument.colon`, once the frame that it opened has returned.
    ArgumentColonRest,
    /// The rest of a row of `param.name`, once the frame that it opened has returned.
    ParamNameRest,
    /// The rest of a row of `sink`, once the frame that it opened has returned.
    SinkRest,
    /// The rest of a row of `pattern`, once the frame that it opened has returned.
    PatternRest,
    /// The rest of a row of `element.colon`, once the frame that it opened has returned.
    ElementColonRest1,
    /// The rest of a row of `element.colon`, once the frame that it opened has returned.
    ElementColonRest2,
    /// The rest of a row of `binding`, once the frame that it opened has returned.
    BindingRest,
    /// The rest of a row of `binding.name`, once the frame that it opened has returned.
    BindingNameRest,
    /// The rest of a row of `binding.closure`, once the frame that it opened has returned.
    BindingClosureRest,
    /// The rest of a row of `binding.value`, once the frame that it opened has returned.
    BindingValueRest,
    /// The rest of a row of `target.field`, once the frame that it opened has returned.
    TargetFieldRest,
    /// The rest of a row of `set.condition`, once the frame that it opened has returned.
    SetConditionRest,
    /// The rest of a row of `show.colon`, once the frame that it opened has returned.
    ShowColonRest,
    /// The rest of a row of `return.value`, once the frame that it opened has returned.
    ReturnValueRest,
    /// The rest of a row of `body`, once the frame that it opened has returned.
    BodyRest1,
    /// The rest of a row of `body`, once the frame that it opened has returned.
    BodyRest2,
    /// The rest of a row of `conditional`, once the frame that it opened has returned.
    ConditionalRest,
    /// The rest of a row of `conditional.branch`, once the frame that it opened has returned.
    ConditionalBranchRest1,
    /// The rest of a row of `conditional.branch`, once the frame that it opened has returned.
    ConditionalBranchRest2,
    /// The rest of a row of `for.in`, once the frame that it opened has returned.
    ForInRest1,
    /// The rest of a row of `for.in.rest1`, once the frame that it opened has returned.
    ForInRest1Rest,
    /// The rest of a row of `for.in`, once the frame that it opened has returned.
    ForInRest2,
    /// The rest of a row of `for.in.rest2`, once the frame that it opened has returned.
    ForInRest2Rest,
    /// The rest of a row of `import.what`, once the frame that it opened has returned.
    ImportWhatRest1,
    /// The rest of a row of `import.what`, once the frame that it opened has returned.
    ImportWhatRest2,
    /// The rest of a row of `imported.path`, once the frame that it opened has returned.
    ImportedPathRest,
    /// The rest of a row of `math.leaf`, once the frame that it opened has returned.
    MathLeafRest,
    /// The rest of a row of `math.letter`, once the frame that it opened has returned.
    MathLetterRest,
    /// The rest of a row of `math.name`, once the frame that it opened has returned.
    MathNameRest1,
    /// The rest of a row of `math.name`, once the frame that it opened has returned.
    MathNameRest2,
    /// The rest of a row of `math.expr`, once the frame that it opened has returned.
    MathExprRest1,
    /// The rest of a row of `math.expr`, once the frame that it opened has returned.
    MathExprRest2,
    /// The rest of a row of `math.expr`, once the frame that it opened has returned.
    MathExprRest3,
    /// The rest of a row of `math.expr`, once the frame that it opened has returned.
    MathExprRest4,
    /// The rest of a row of `math.expr`, once the frame that it opened has returned.
    MathExprRest5,
    /// The rest of a row of `math.expr`, once the frame that it opened has returned.
    MathExprRest6,
    /// The rest of a row of `math.ident`, once the frame that it opened has returned.
    MathIdentRest1,
    /// The rest of a row of `math.ident`, once the frame that it opened has returned.
    MathIdentRest2,
    /// The rest of a row of `math.joined`, once the frame that it opened has returned.
    MathJoinedRest,
    /// The rest of a row of `math.paren`, once the frame that it opened has returned.
    MathParenRest,
    /// The rest of a row of `math.after`, once the frame that it opened has returned.
    MathAfterRest,
    /// The rest of a row of `math.below`, once the frame that it opened has returned.
    MathBelowRest,
    /// The rest of a row of `math.above`, once the frame that it opened has returned.
    MathAboveRest,
    /// The rest of a row of `delimited`, once the frame that it opened has returned.
    DelimitedRest1,
    /// The rest of a row of `delimited`, once the frame that it opened has returned.
    DelimitedRest2,
    /// The rest of a row of `math.arg`, once the frame that it opened has returned.
    MathArgRest,
    /// The rest of a row of `math.arg.colon`, once the frame that it opened has returned.
    MathArgColonRest,
}

/// The rows of a state for a class of tokens. The first one that fits is done.
#[tactic(auto, unfolding(crate::specs::Table::rows))]
pub fn rows(state: State, class: Class) -> &'static [Row]
    ensures { rows_of result.now ≡ rows state class }
{
    match state {
        State::Document => markup_rows::document(class),
        State::Hash => markup_rows::hash(class),
        State::Strong => markup_rows::strong(class),
        State::StrongBody => markup_rows::strong_body(class),
        State::Emph => markup_rows::emph(class),
        State::EmphBody => markup_rows::emph_body(class),
        State::Heading => structure_rows::heading(class),
        State::HeadingBody => structure_rows::heading_body(class),
        State::Item => structure_rows::item(class),
        State::ItemBody => structure_rows::item_body(class),
        State::Term => structure_rows::term(class),
        State::TermHead => structure_rows::term_head(class),
        State::TermName => structure_rows::term_name(class),
        State::TermColon => structure_rows::term_colon(class),
        State::Reference => structure_rows::reference(class),
        State::ReferenceSupplement => structure_rows::reference_supplement(class),
        State::Content => structure_rows::content(class),
        State::ContentBody => structure_rows::content_body(class),
        State::Embedded => code_rows::embedded(class),
        State::EmbeddedStatement => code_rows::embedded_statement(class),
        State::EmbeddedExpr => code_rows::embedded_expr(class),
        State::Expr => code_rows::expr(class),
        State::Statement => code_rows::statement(class),
        State::ExprAfter => operators_rows::expr_after(class),
        State::ExprNot => operators_rows::expr_not(class),
        State::ExprName => operators_rows::expr_name(class),
        State::ExprBlank => operators_rows::expr_blank(class),
        State::ExprGroup => operators_rows::expr_group(class),
        State::Name => blocks_rows::name(class),
        State::Braces => blocks_rows::braces(class),
        State::Code => blocks_rows::code(class),
        State::CodeEnd => blocks_rows::code_end(class),
        State::Group => groups_rows::group(class),
        State::GroupFirst => groups_rows::group_first(class),
        State::GroupOne => groups_rows::group_one(class),
        State::GroupMore => groups_rows::group_more(class),
        State::GroupClose => groups_rows::group_close(class),
        State::Loose => groups_rows::loose(class),
        State::LooseItem => groups_rows::loose_item(class),
        State::LooseComma => groups_rows::loose_comma(class),
        State::Array => lists_rows::array(class),
        State::ArrayComma => lists_rows::array_comma(class),
        State::ArrayClose => lists_rows::array_close(class),
        State::Dict => lists_rows::dict(class),
        State::DictComma => lists_rows::dict_comma(class),
        State::DictClose => lists_rows::dict_close(class),
        State::Spread => lists_rows::spread(class),
        State::SpreadValue => lists_rows::spread_value(class),
        State::Pair => lists_rows::pair(class),
        State::PairColon => lists_rows::pair_colon(class),
        State::Args => arguments_rows::args(class),
        State::ArgsContent => arguments_rows::args_content(class),
        State::Arguments => arguments_rows::arguments(class),
        State::ArgumentsComma => arguments_rows::arguments_comma(class),
        State::ArgumentValue => arguments_rows::argument_value(class),
        State::ArgumentName => arguments_rows::argument_name(class),
        State::Named => arguments_rows::named(class),
        State::NamedValue => arguments_rows::named_value(class),
        State::NamedName => arguments_rows::named_name(class),
        State::NamedEnd => arguments_rows::named_end(class),
        State::SpreadArgument => arguments_rows::spread_argument(class),
        State::Argument => arguments_rows::argument(class),
        State::ArgumentColon => arguments_rows::argument_colon(class),
        State::Params => parameters_rows::params(class),
        State::ParamsItem => parameters_rows::params_item(class),
        State::ParamsComma => parameters_rows::params_comma(class),
        State::ParamName => parameters_rows::param_name(class),
        State::ParamsClose => parameters_rows::params_close(class),
        State::Param => parameters_rows::param(class),
        State::Sink => parameters_rows::sink(class),
        State::Leaf => patterns_rows::leaf(class),
        State::LeafCheck => patterns_rows::leaf_check(class),
        State::Pattern => patterns_rows::pattern(class),
        State::Tuple => patterns_rows::tuple(class),
        State::TupleFirst => patterns_rows::tuple_first(class),
        State::TupleOne => patterns_rows::tuple_one(class),
        State::TupleMore => patterns_rows::tuple_more(class),
        State::TupleItem => patterns_rows::tuple_item(class),
        State::TupleComma => patterns_rows::tuple_comma(class),
        State::TupleClose => patterns_rows::tuple_close(class),
        State::Element => patterns_rows::element(class),
        State::ElementColon => patterns_rows::element_colon(class),
        State::Binding => statements_rows::binding(class),
        State::BindingName => statements_rows::binding_name(class),
        State::BindingClosure => statements_rows::binding_closure(class),
        State::BindingEnd => statements_rows::binding_end(class),
        State::BindingValue => statements_rows::binding_value(class),
        State::Target => statements_rows::target(class),
        State::TargetField => statements_rows::target_field(class),
        State::SetArguments => statements_rows::set_arguments(class),
        State::SetCondition => statements_rows::set_condition(class),
        State::ShowSelector => statements_rows::show_selector(class),
        State::ShowColon => statements_rows::show_colon(class),
        State::ReturnValue => statements_rows::return_value(class),
        State::Body => control_rows::body(class),
        State::Conditional => control_rows::conditional(class),
        State::ConditionalElse => control_rows::conditional_else(class),
        State::ConditionalBranch => control_rows::conditional_branch(class),
        State::ForIn => control_rows::for_in(class),
        State::ForMore => control_rows::for_more(class),
        State::ImportAs => imports_rows::import_as(class),
        State::ImportColon => imports_rows::import_colon(class),
        State::ImportWhat => imports_rows::import_what(class),
        State::ImportList => imports_rows::import_list(class),
        State::ImportClose => imports_rows::import_close(class),
        State::Imports => imports_rows::imports(class),
        State::ImportsComma => imports_rows::imports_comma(class),
        State::Imported => imports_rows::imported(class),
        State::ImportedPath => imports_rows::imported_path(class),
        State::Equation => math_rows::equation(class),
        State::Math => math_rows::math(class),
        State::MathLeaf => math_rows::math_leaf(class),
        State::MathLetter => math_rows::math_letter(class),
        State::MathName => math_rows::math_name(class),
        State::MathExpr => math_rows::math_expr(class),
        State::MathIdent => scripts_rows::math_ident(class),
        State::Field => scripts_rows::field(class),
        State::MathJoined => scripts_rows::math_joined(class),
        State::MathGroup => scripts_rows::math_group(class),
        State::MathParen => scripts_rows::math_paren(class),
        State::MathAfter => scripts_rows::math_after(class),
        State::MathPrimed => scripts_rows::math_primed(class),
        State::MathBelow => scripts_rows::math_below(class),
        State::MathAbove => scripts_rows::math_above(class),
        State::Delimited => delimiters_rows::delimited(class),
        State::DelimitedBody => delimiters_rows::delimited_body(class),
        State::MathArgs => delimiters_rows::math_args(class),
        State::MathArgsItem => delimiters_rows::math_args_item(class),
        State::MathArgsComma => delimiters_rows::math_args_comma(class),
        State::MathArgsClose => delimiters_rows::math_args_close(class),
        State::MathArg => delimiters_rows::math_arg(class),
        State::MathArgColon => delimiters_rows::math_arg_colon(class),
        State::MathNamed => delimiters_rows::math_named(class),
        State::MathValue => delimiters_rows::math_value(class),
        State::MathValueOne => delimiters_rows::math_value_one(class),
        State::MathValueMore => delimiters_rows::math_value_more(class),
        State::HashRest => markup_rows::hash_rest(class),
        State::ItemRest1 => structure_rows::item_rest1(class),
        State::ItemRest2 => structure_rows::item_rest2(class),
        State::TermHeadRest => structure_rows::term_head_rest(class),
        State::TermColonRest1 => structure_rows::term_colon_rest1(class),
        State::TermColonRest2 => structure_rows::term_colon_rest2(class),
        State::ReferenceSupplementRest => structure_rows::reference_supplement_rest(class),
        State::ExprRest1 => code_rows::expr_rest1(class),
        State::ExprRest2 => code_rows::expr_rest2(class),
        State::ExprRest3 => code_rows::expr_rest3(class),
        State::ExprRest4 => code_rows::expr_rest4(class),
        State::ExprRest5 => code_rows::expr_rest5(class),
        State::ExprRest5Rest => code_rows::expr_rest5_rest(class),
        State::ExprRest6 => code_rows::expr_rest6(class),
        State::ExprRest7 => code_rows::expr_rest7(class),
        State::ExprAfterRest1 => operators_rows::expr_after_rest1(class),
        State::ExprAfterRest2 => operators_rows::expr_after_rest2(class),
        State::ExprAfterRest3 => operators_rows::expr_after_rest3(class),
        State::ExprAfterRest4 => operators_rows::expr_after_rest4(class),
        State::ExprAfterRest5 => operators_rows::expr_after_rest5(class),
        State::ExprAfterRest6 => operators_rows::expr_after_rest6(class),
        State::ExprAfterRest7 => operators_rows::expr_after_rest7(class),
        State::ExprAfterRest8 => operators_rows::expr_after_rest8(class),
        State::ExprAfterRest9 => operators_rows::expr_after_rest9(class),
        State::ExprNotRest => operators_rows::expr_not_rest(class),
        State::ExprNameRest => operators_rows::expr_name_rest(class),
        State::ExprBlankRest1 => operators_rows::expr_blank_rest1(class),
        State::ExprBlankRest2 => operators_rows::expr_blank_rest2(class),
        State::ExprGroupRest1 => operators_rows::expr_group_rest1(class),
        State::ExprGroupRest2 => operators_rows::expr_group_rest2(class),
        State::SpreadValueRest => lists_rows::spread_value_rest(class),
        State::PairColonRest1 => lists_rows::pair_colon_rest1(class),
        State::PairColonRest2 => lists_rows::pair_colon_rest2(class),
        State::NamedRest => arguments_rows::named_rest(class),
        State::SpreadArgumentRest => arguments_rows::spread_argument_rest(class),
        State::ArgumentColonRest => arguments_rows::argument_colon_rest(class),
        State::ParamNameRest => parameters_rows::param_name_rest(class),
        State::SinkRest => parameters_rows::sink_rest(class),
        State::PatternRest => patterns_rows::pattern_rest(class),
        State::ElementColonRest1 => patterns_rows::element_colon_rest1(class),
        State::ElementColonRest2 => patterns_rows::element_colon_rest2(class),
        State::BindingRest => statements_rows::binding_rest(class),
        State::BindingNameRest => statements_rows::binding_name_rest(class),
        State::BindingClosureRest => statements_rows::binding_closure_rest(class),
        State::BindingValueRest => statements_rows::binding_value_rest(class),
        State::TargetFieldRest => statements_rows::target_field_rest(class),
        State::SetConditionRest => statements_rows::set_condition_rest(class),
        State::ShowColonRest => statements_rows::show_colon_rest(class),
        State::ReturnValueRest => statements_rows::return_value_rest(class),
        State::BodyRest1 => control_rows::body_rest1(class),
        State::BodyRest2 => control_rows::body_rest2(class),
        State::ConditionalRest => control_rows::conditional_rest(class),
        State::ConditionalBranchRest1 => control_rows::conditional_branch_rest1(class),
        State::ConditionalBranchRest2 => control_rows::conditional_branch_rest2(class),
        State::ForInRest1 => control_rows::for_in_rest1(class),
        State::ForInRest1Rest => control_rows::for_in_rest1_rest(class),
        State::ForInRest2 => control_rows::for_in_rest2(class),
        State::ForInRest2Rest => control_rows::for_in_rest2_rest(class),
        State::ImportWhatRest1 => imports_rows::import_what_rest1(class),
        State::ImportWhatRest2 => imports_rows::import_what_rest2(class),
        State::ImportedPathRest => imports_rows::imported_path_rest(class),
        State::MathLeafRest => math_rows::math_leaf_rest(class),
        State::MathLetterRest => math_rows::math_letter_rest(class),
        State::MathNameRest1 => math_rows::math_name_rest1(class),
        State::MathNameRest2 => math_rows::math_name_rest2(class),
        State::MathExprRest1 => math_rows::math_expr_rest1(class),
        State::MathExprRest2 => math_rows::math_expr_rest2(class),
        State::MathExprRest3 => math_rows::math_expr_rest3(class),
        State::MathExprRest4 => math_rows::math_expr_rest4(class),
        State::MathExprRest5 => math_rows::math_expr_rest5(class),
        State::MathExprRest6 => math_rows::math_expr_rest6(class),
        State::MathIdentRest1 => scripts_rows::math_ident_rest1(class),
        State::MathIdentRest2 => scripts_rows::math_ident_rest2(class),
        State::MathJoinedRest => scripts_rows::math_joined_rest(class),
        State::MathParenRest => scripts_rows::math_paren_rest(class),
        State::MathAfterRest => scripts_rows::math_after_rest(class),
        State::MathBelowRest => scripts_rows::math_below_rest(class),
        State::MathAboveRest => scripts_rows::math_above_rest(class),
        State::DelimitedRest1 => delimiters_rows::delimited_rest1(class),
        State::DelimitedRest2 => delimiters_rows::delimited_rest2(class),
        State::MathArgRest => delimiters_rows::math_arg_rest(class),
        State::MathArgColonRest => delimiters_rows::math_arg_colon_rest(class),
    }
}
