// Written by bench/kinds.py from crates/kinds.txt: change that and run it.
//! The mode rule of each kind.
ghost use Rattle.std.specs.Prelude.{◌≡◌};
ghost use Rattle.typst_base.specs.KindMode.{mode_after_of};

use crate::kind::SyntaxKind;
use crate::mode::{ModeAfter, SyntaxMode};

/// # Modes
impl SyntaxKind {
    /// How the mode after a node of this kind is found.
    #[tactic(auto, unfolding(crate::specs::KindMode::mode_after_of))]
    pub fn mode_after(self) -> ModeAfter
        ensures { result ≡ mode_after_of self }
    {
        match self {
            SyntaxKind::Markup
            | SyntaxKind::Parbreak
            | SyntaxKind::Shorthand
            | SyntaxKind::SmartQuote
            | SyntaxKind::Strong
            | SyntaxKind::Emph
            | SyntaxKind::Link
            | SyntaxKind::Ref
            | SyntaxKind::RefMarker
            | SyntaxKind::Heading
            | SyntaxKind::HeadingMarker
            | SyntaxKind::ListItem
            | SyntaxKind::ListMarker
            | SyntaxKind::EnumItem
            | SyntaxKind::EnumMarker
            | SyntaxKind::TermItem
            | SyntaxKind::TermMarker
            | SyntaxKind::LeftBracket => ModeAfter::Known(SyntaxMode::Markup),
            SyntaxKind::Math
            | SyntaxKind::MathText
            | SyntaxKind::MathIdent
            | SyntaxKind::MathFieldAccess
            | SyntaxKind::MathShorthand
            | SyntaxKind::MathAlignPoint
            | SyntaxKind::MathCall
            | SyntaxKind::MathArgs
            | SyntaxKind::MathDelimited
            | SyntaxKind::MathAttach
            | SyntaxKind::MathPrimes
            | SyntaxKind::MathFrac
            | SyntaxKind::MathRoot
            | SyntaxKind::Hat
            | SyntaxKind::Root
            | SyntaxKind::Bang => ModeAfter::Known(SyntaxMode::Math),
            SyntaxKind::End
            | SyntaxKind::Shebang
            | SyntaxKind::LineComment
            | SyntaxKind::BlockComment
            | SyntaxKind::RawLang
            | SyntaxKind::RawTrimmed => ModeAfter::None,
            SyntaxKind::Error
            | SyntaxKind::Linebreak
            | SyntaxKind::Escape
            | SyntaxKind::RightBracket
            | SyntaxKind::LeftParen
            | SyntaxKind::RightParen
            | SyntaxKind::Comma
            | SyntaxKind::Semicolon
            | SyntaxKind::Colon
            | SyntaxKind::Star
            | SyntaxKind::Underscore
            | SyntaxKind::Slash
            | SyntaxKind::Dot
            | SyntaxKind::Dots
            | SyntaxKind::Named
            | SyntaxKind::Spread => ModeAfter::Parent,
            SyntaxKind::Text => ModeAfter::Text,
            SyntaxKind::RawDelim => ModeAfter::RawDelim,
            SyntaxKind::Dollar => ModeAfter::Dollar,
            SyntaxKind::Space => ModeAfter::Space,
            SyntaxKind::Raw
            | SyntaxKind::Label
            | SyntaxKind::Equation
            | SyntaxKind::Ident
            | SyntaxKind::Str
            | SyntaxKind::ContentBlock => ModeAfter::Embeddable,
            _ => ModeAfter::Known(SyntaxMode::Code),
        }
    }
}
