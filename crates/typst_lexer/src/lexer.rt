//! The tokens of a text, one after the other.
ghost use Rattle.std.specs.Prelude.{ℕ, ◌≡◌, ◌∷◌, ◌++◌, [], List, MatchOption};
ghost use Rattle.typst_lexer.specs.declared.mode.Mode.{Mode};
ghost use Rattle.typst_lexer.specs.declared.place.Behind.{Behind};
ghost use Rattle.typst_lexer.specs.Tokens.{AreFilled, joined, tokens};

use crate::head::first_token;
use crate::mode::Mode;
use crate::place::Behind;
use crate::token::Token;

/// What is left of a text whose tokens are read one after the other.
#[derive(Clone, Copy, Debug)]
pub struct Lexer<'a> {
    text: &'a str,
    mode: Mode,
    behind: Behind,
}

impl<'a> Lexer<'a> {
    ghost use Rattle.typst_lexer.specs.Left.{after_first, left, tokens_left, whole};
    ghost use Rattle.typst_lexer.specs.Tokens.{piece_of};

    /// A whole text, which is read in a mode from its beginning.
    pub fn new(text: &'a str, mode: Mode) -> Self
        ensures { left result ≡ whole mode text.now }
    {
        Lexer {
            text,
            mode,
            behind: Behind::Start,
        }
    }

    /// Reads what is left in this mode from here on.
    pub fn set_mode(&mut self, mode: Mode)
        ensures { left self.new ≡ record (left self.old) { mode = mode } }
    {
        self.mode = mode;
    }

    /// The next token, or `None` at the end of the text, where nothing changes, so that `None` comes again. It takes a
    /// step for each byte that is looked at.
    pub fn next(&mut self) -> Option<Token<'a>>
        ensures tokens { MatchOption result (tokens_left (left self.old) ≡ [])
            (λ token. tokens_left (left self.old) ≡ piece_of token ∷ tokens_left (left self.new)) }
        ensures text { MatchOption result ((left self.old).text ≡ [])
            (λ token. (left self.old).text ≡ token.text.now ++ (left self.new).text) }
        ensures left { MatchOption result (left self.new ≡ left self.old)
            (λ token. left self.new ≡ after_first (left self.old)) }
    {
        if self.text.is_empty() {
            return None;
        }
        let first = first_token(self.mode, self.behind, self.text);
        let (text, rest) = self.text.split_at(first.len);
        self.text = rest;
        self.behind = first.behind;
        Some(Token {
            kind: first.kind,
            text,
        })
    }
}

/// The tokens of a text that is read in one mode make up the text, and none of them is empty.
#[tactic(auto, using(crate::proofs::Tokens::text_joined, crate::proofs::Tokens::text_filled))]
pub fn tokens_make_up_texts()
    ensures lossless { (mode : Mode) (behind : Behind) (text : List ℕ) → joined (tokens mode behind text) ≡ text }
    ensures some { (mode : Mode) (behind : Behind) (text : List ℕ) → AreFilled (tokens mode behind text) }
{}
