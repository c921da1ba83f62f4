// Written by bench/kinds.py from crates/kinds.txt: change that and run it.
//! The classes of kinds.
ghost use Rattle.std.specs.Prelude.{◌≡◌};
ghost use Rattle.typst_base.specs.KindClasses.{is_block_kind, is_grouping_kind, is_keyword_kind, is_stmt_kind, is_terminator_kind, is_trivia_kind};

use crate::kind::SyntaxKind;

/// # Classes
impl SyntaxKind {
    /// Whether it is a bracket of any shape, opening or closing.
    pub fn is_grouping(self) -> bool
        ensures { result ≡ is_grouping_kind self }
    {
        matches!(
            self,
            SyntaxKind::LeftBrace
                | SyntaxKind::RightBrace
                | SyntaxKind::LeftBracket
                | SyntaxKind::RightBracket
                | SyntaxKind::LeftParen
                | SyntaxKind::RightParen
        )
    }

    /// Whether it is what ends an expression: the end of the tokens, a semicolon or a closing bracket.
    pub fn is_terminator(self) -> bool
        ensures { result ≡ is_terminator_kind self }
    {
        matches!(
            self,
            SyntaxKind::End
                | SyntaxKind::RightBrace
                | SyntaxKind::RightBracket
                | SyntaxKind::RightParen
                | SyntaxKind::Semicolon
        )
    }

    /// Whether it is a block of code or of content.
    pub fn is_block(self) -> bool
        ensures { result ≡ is_block_kind self }
    {
        matches!(self, SyntaxKind::CodeBlock | SyntaxKind::ContentBlock)
    }

    /// Whether it is a statement.
    pub fn is_stmt(self) -> bool
        ensures { result ≡ is_stmt_kind self }
    {
        matches!(
            self,
            SyntaxKind::LetBinding
                | SyntaxKind::SetRule
                | SyntaxKind::ShowRule
                | SyntaxKind::ModuleImport
                | SyntaxKind::ModuleInclude
        )
    }

    /// Whether it is a keyword.
    pub fn is_keyword(self) -> bool
        ensures { result ≡ is_keyword_kind self }
    {
        matches!(
            self,
            SyntaxKind::Not
                | SyntaxKind::And
                | SyntaxKind::Or
                | SyntaxKind::None
                | SyntaxKind::Auto
                | SyntaxKind::Let
                | SyntaxKind::Set
                | SyntaxKind::Show
                | SyntaxKind::Context
                | SyntaxKind::If
                | SyntaxKind::Else
                | SyntaxKind::For
                | SyntaxKind::In
                | SyntaxKind::While
                | SyntaxKind::Break
                | SyntaxKind::Continue
                | SyntaxKind::Return
                | SyntaxKind::Import
                | SyntaxKind::Include
                | SyntaxKind::As
        )
    }

    /// Whether it is what a parser passes over: white space, comments and paragraph breaks.
    pub fn is_trivia(self) -> bool
        ensures { result ≡ is_trivia_kind self }
    {
        matches!(
            self,
            SyntaxKind::Shebang
                | SyntaxKind::LineComment
                | SyntaxKind::BlockComment
                | SyntaxKind::Space
                | SyntaxKind::Parbreak
        )
    }
}
