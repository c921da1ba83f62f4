//! The first token of a text, in each mode.
ghost use Rattle.std.specs.Prelude.{true, false, if◌then◌else◌, nat_le, ℕ, ◌≡◌, ◌+◌, ◌^◌, ◌<◌, ◌≤◌, List, length, take, drop, slice_index};
ghost use Rattle.std.specs.Str.{IsCharBoundary};
ghost use Rattle.typst_lexer.specs.declared.mode.Mode.{Mode};
ghost use Rattle.typst_lexer.specs.declared.place.Behind.{Behind};
ghost use Rattle.std.specs.Char.{is_whitespace};
ghost use Rattle.typst_lexer.specs.declared.token.TokenKind.{TokenKind};
ghost use Rattle.typst_lexer.specs.Bytes.{easy_len, ends_at};
ghost use Rattle.typst_lexer.specs.Characters.{begins, goes_on};
ghost use Rattle.typst_lexer.specs.Classes.{begins_char, is_blank};
ghost use Rattle.typst_lexer.specs.Spaces.{is_markup, newlines, run_len};
ghost use Rattle.typst_lexer.specs.FirstToken.{first, run_of};
ghost use Rattle.typst_lexer.specs.Machine.{accepts};
ghost use Rattle.typst_lexer.specs.Runs.{grown, leapt};

use crate::AHEAD;
use crate::bytes::{behind_byte, easy_len, ends_at};
use crate::machine::{accepts, begin, kind_of, stay};
use crate::mode::Mode;
use crate::place::{Behind, Place, Reading};
use crate::quick::quick_token;
use crate::token::TokenKind;
use crate::window::window;

/// The first token of a text.
#[derive(Clone, Copy, Debug, PartialEq, Eq, Hash)]
pub struct FirstToken {
    /// What it is.
    pub kind: TokenKind,
    /// Its length in bytes, which is never 0.
    pub len: usize,
    /// How many bytes from its beginning were looked at. It can be more than the text has: then the token also depends
    /// on where the text ends.
    pub look: usize,
    /// What is directly before the next token.
    pub behind: Behind,
}

/// How far the machine went over a text.
#[derive(Clone, Copy)]
pub struct Run {
    /// How many bytes it went over.
    pub passed: usize,
    /// How many bytes the longest beginning has that it accepts.
    pub len: usize,
    /// Its state after that beginning.
    pub last: Reading,
}

/// The run with one more byte, after which the machine is in this state.
fn grown(run: Run, state: Reading) -> Run
    requires { run.passed + 1 < 2 ^ 64 }
    ensures { result ≡ grown accepts run state }
{
    let passed = run.passed + 1;
    if accepts(state) {
        Run {
            passed,
            len: passed,
            last: state,
        }
    } else {
        Run {
            passed,
            len: run.len,
            last: run.last,
        }
    }
}

/// Whether a token inside of this ends before the byte at a place in any case.
fn ends_here(inside: Place, at: usize, bytes: &[u8]) -> bool
    requires { at < length bytes.now }
    ensures { result ≡ ends_at inside (slice_index bytes.now at) }
{
    ends_at(inside, bytes[at])
}

/// How many bytes from a place on a token inside of this goes over, without a change.
fn easy_from(inside: Place, at: usize, bytes: &[u8]) -> usize
    requires { at ≤ length bytes.now }
    ensures value { result ≡ easy_len inside (drop at bytes.now) }
    ensures within { at + result ≤ length bytes.now }
{
    easy_len(inside, &bytes[at..])
}

/// The run over so many bytes, of which a token inside of this went over the last one without a change.
fn leapt(passed: usize, inside: Place, bytes: &[u8]) -> Run
    requires some { 0 < passed }
    requires within { passed ≤ length bytes.now }
    ensures { result ≡ leapt passed inside bytes.now }
{
    Run {
        passed,
        len: passed,
        last: Reading {
            place: inside,
            behind: behind_byte(bytes[passed - 1]),
        },
    }
}

/// Goes over a text as long as the machine finds a next state.
fn run_of(mode: Mode, behind: Behind, bytes: &[u8]) -> Run
    requires { 0 < length bytes.now }
    ensures run { result ≡ run_of mode behind bytes.now }
    ensures within { result.passed ≤ length bytes.now }
    ensures len { result.len ≤ length bytes.now }
{
    let mut state = begin(mode, behind, window(bytes, 0, AHEAD));
    let mut run = Run {
        passed: 1,
        len: 1,
        last: state,
    };
    while run.passed < bytes.len() {
        if ends_here(state.place, run.passed, bytes) {
            return run;
        }
        let easy = easy_from(state.place, run.passed, bytes);
        if easy > 0 {
            run = leapt(run.passed + easy, state.place, bytes);
            state = run.last;
        } else {
            match stay(state, window(bytes, run.passed, AHEAD)) {
                Some(next) => state = next,
                None => return run,
            }
            run = grown(run, state);
        }
    }
    run
}

/// The first token of bytes of which there is one at least, as the machine finds it.
fn token_by_run(mode: Mode, behind: Behind, bytes: &[u8]) -> FirstToken
    requires { 0 < length bytes.now }
    ensures { result ≡ first mode behind bytes.now }
{
    let run = run_of(mode, behind, bytes);
    FirstToken {
        kind: kind_of(run.last.place, &bytes[..run.len]),
        len: run.len,
        look: run.passed + AHEAD,
        behind: run.last.behind,
    }
}

/// The first token of bytes of which there is one at least, in a mode, given what is directly before them. It takes a
/// step for each byte that is looked at.
pub fn token_of_bytes(mode: Mode, behind: Behind, bytes: &[u8]) -> FirstToken
    requires { 0 < length bytes.now }
    ensures { result ≡ first mode behind bytes.now }
{
    let quick = quick_token(mode, behind, bytes);
    if quick.len > 0 {
        return FirstToken {
            kind: quick.kind,
            len: quick.len,
            look: quick.len + AHEAD,
            behind: behind_byte(bytes[quick.len - 1]),
        };
    }
    token_by_run(mode, behind, bytes)
}

#[tactic(auto, using(crate::proofs::FirstTokens::first_boundary, crate::proofs::FirstTokens::first_looks))]
/// The first token of a text that isn't empty, in a mode, given what is directly before the text. It takes a step for
/// each byte that is looked at.
pub fn first_token(mode: Mode, behind: Behind, text: &str) -> FirstToken
    requires { 0 < length text.now }
    ensures token { result ≡ first mode behind text.now }
    ensures boundary { IsCharBoundary text.now result.len }
    ensures look { result.look ≤ length text.now + 10 }
{
    token_of_bytes(mode, behind, text.as_bytes())
}

/// The first token of a text that isn't empty has at least one byte, and ends within the text.
#[tactic(auto, using(crate::proofs::FirstTokens::first_within))]
pub fn first_tokens_are_within()
    ensures { (mode : Mode) (behind : Behind) (text : List ℕ) → 0 < length text
        → (0 < (first mode behind text).len) × ((first mode behind text).len ≤ length text) }
{}

/// The first token was looked at.
#[tactic(auto, using(crate::proofs::FirstTokens::first_looked))]
pub fn first_tokens_are_looked_at()
    ensures { (mode : Mode) (behind : Behind) (text : List ℕ)
        → (first mode behind text).len ≤ (first mode behind text).look }
{}

/// Texts that are the same as far as the first token was looked at have the same first token.
#[tactic(auto, using(crate::proofs::FirstTokens::first_local))]
pub fn first_tokens_are_local()
    ensures { (mode : Mode) (behind : Behind) (text other : List ℕ)
        → take (first mode behind text).look text ≡ take (first mode behind text).look other
        → first mode behind text ≡ first mode behind other }
{}

/// White space of code and math is the longest run.
pub fn white_space_is_the_longest_run()
    ensures { (mode : Mode) (behind : Behind) (text : List ℕ) → is_markup mode ≡ false
        → begins_char is_whitespace text ≡ true
        → ((first mode behind text).kind ≡ TokenKind.Space)
        × ((first mode behind text).len ≡ run_len is_whitespace text) }
{}

/// White space of markup is the longest run of blanks, and a `Parbreak` exactly if it has two newlines or more.
pub fn blanks_are_the_longest_run()
    ensures { (behind : Behind) (text : List ℕ) → begins goes_on text ≡ false → begins_char is_blank text ≡ true
        → ((first Mode.Markup behind text).kind ≡ (if nat_le 2 (newlines 0 text) then TokenKind.Parbreak else TokenKind.Space))
        × ((first Mode.Markup behind text).len ≡ run_len is_blank text) }
{}
