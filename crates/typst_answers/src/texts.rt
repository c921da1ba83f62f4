//! What leaves answer.

use crate::answers::Answers;
use crate::names::is_newline;
use crate::subject::Subject;
use typst_tree::SyntaxKind;
use typst_tree::ast::{
    BlockComment, Bool, Escape, Float, Ident, Int, Label, LineComment, Link, MathIdent, MathPrimes,
    MathShorthand, MathText, Numeric, Raw, RawLang, Shorthand, SmartQuote, Str, Text,
};

/// What the accessors of a node or a placeholder answer. For a kind of another module, or for a leaf with a reading,
/// there is no answer.
pub fn answer(out: &mut Answers, subject: Subject) {
    match subject.kind() {
        SyntaxKind::LineComment => out.text("text", subject.view::<LineComment>().text()),
        SyntaxKind::BlockComment => out.text("text", subject.view::<BlockComment>().text()),
        SyntaxKind::Text => out.text("get", subject.view::<Text>().get()),
        SyntaxKind::RawLang => out.text("get", subject.view::<RawLang>().get()),
        SyntaxKind::Link => out.text("get", subject.view::<Link>().get()),
        SyntaxKind::Label => out.text("get", subject.view::<Label>().get()),
        SyntaxKind::Float => out.text("get", subject.view::<Float>().get()),
        SyntaxKind::Ident => ident(out, subject.view()),
        SyntaxKind::MathIdent => math_ident(out, subject.view()),
        SyntaxKind::Raw => raw(out, subject.view()),
        _ => {}
    }
}

/// The same for leaves that are read as something other than their text.
pub fn answer_reading(out: &mut Answers, subject: Subject) {
    match subject.kind() {
        SyntaxKind::Escape => out.debugged("get", subject.view::<Escape>().get()),
        SyntaxKind::Shorthand => out.debugged("get", subject.view::<Shorthand>().get()),
        SyntaxKind::MathShorthand => out.debugged("get", subject.view::<MathShorthand>().get()),
        SyntaxKind::SmartQuote => out.flag("double", subject.view::<SmartQuote>().double()),
        SyntaxKind::MathText => out.debugged("get", subject.view::<MathText>().get()),
        SyntaxKind::MathPrimes => out.shown("count", subject.view::<MathPrimes>().count()),
        SyntaxKind::Bool => out.flag("get", subject.view::<Bool>().get()),
        SyntaxKind::Int => out.shown("get", subject.view::<Int>().get()),
        SyntaxKind::Numeric => out.debugged("get", subject.view::<Numeric>().get()),
        SyntaxKind::Str => out.owned("get", subject.view::<Str>().get(out.alloc)),
        _ => {}
    }
}

/// What a name answers.
fn ident(out: &mut Answers, ident: Ident) {
    out.text("get", ident.get());
    out.text("as_str", ident.as_str());
}

/// What a name in math answers.
fn math_ident(out: &mut Answers, ident: MathIdent) {
    out.text("get", ident.get());
    out.text("as_str", ident.as_str());
}

/// What raw text answers.
fn raw(out: &mut Answers, raw: Raw) {
    out.items("lines", raw.lines());
    out.option("lang", raw.lang());
    out.flag("block", raw.block(is_newline));
}
