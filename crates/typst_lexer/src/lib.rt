//! The tokens of Typst, in the modes of its syntax.
//!
//! [`Lexer`] cuts a text into tokens. [`first_token`] finds the first one: what it is, how long it is, and how many bytes
//! were looked at for it; the parser reads by it. The machine of the mode goes over a text byte by byte and sees ten bytes
//! at once. `specs/Markup.antt`, `specs/Code.antt` and `specs/Math.antt` say which token begins at a byte, and how it goes
//! on.
//!
//! This writes the tokens of `= Title` as `HeadingMarker[=]Space[ ]Text[Title]`:
//!
//! ```text
//! let mut lexer = Lexer::new(text, Mode::Markup);
//! while let Some(token) = lexer.next() {
//!     write!(shown, "{:?}[{}]", token.kind, token.text)?;
//! }
//! ```
#![tactic(auto)]

pub use characters::begins_inside_char;
pub use classes::begins_newline;
pub use head::{
    FirstToken, blanks_are_the_longest_run, first_token, first_tokens_are_local,
    first_tokens_are_looked_at, first_tokens_are_within, token_of_bytes,
    white_space_is_the_longest_run,
};
pub use laws::{
    block_comments_balance, line_comments_end_before_newlines, raw_texts_end_with_their_backticks,
};
pub use lexer::{Lexer, tokens_make_up_texts};
pub use mode::Mode;
pub use place::Behind;
pub use token::{Token, TokenKind};
pub use white::{begins_white, lone_blank};

mod arguments;
mod bytes;
mod characters;
mod classes;
mod cluster;
mod code;
mod escapes;
pub mod head;
pub mod laws;
pub mod lexer;
mod machine;
mod markup;
mod math;
pub mod mode;
mod names;
mod numbers;
pub mod place;
mod quick;
mod quick_math;
mod shared;
pub mod token;
pub mod white;
mod window;
mod words;

/// How many bytes the machine sees at once: as many as `\u{123456}` has.
const AHEAD: usize = 10;
