//! What collections, patterns and their parts answer.

use crate::answers::Answers;
use crate::subject::Subject;
use typst_tree::SyntaxKind;
use typst_tree::ast::{
    Array, DestructAssignment, Destructuring, Dict, Keyed, LetBinding, LetBindingKind, Named,
    Spread,
};

/// What the accessors of a node or a placeholder answer. For a kind of another module there is no answer.
pub fn answer(out: &mut Answers, subject: Subject) {
    match subject.kind() {
        SyntaxKind::Array => out.items("items", subject.view::<Array>().items()),
        SyntaxKind::Dict => out.items("items", subject.view::<Dict>().items()),
        SyntaxKind::Destructuring => destructuring(out, subject.view()),
        SyntaxKind::Named => named(out, subject.view()),
        SyntaxKind::Keyed => keyed(out, subject.view()),
        SyntaxKind::Spread => spread(out, subject.view()),
        SyntaxKind::LetBinding => let_binding(out, subject.view()),
        SyntaxKind::DestructAssignment => destruct_assignment(out, subject.view()),
        _ => {}
    }
}

/// What a pattern with parts answers.
fn destructuring(out: &mut Answers, parts: Destructuring) {
    out.items("items", parts.items());
    out.names("own bindings", parts.bindings(out.alloc));
}

/// What a named pair answers.
fn named(out: &mut Answers, named: Named) {
    out.view("name", named.name());
    out.expr_view("expr", named.expr());
    out.pattern_view("pattern", named.pattern());
}

/// What a keyed pair answers.
fn keyed(out: &mut Answers, keyed: Keyed) {
    out.expr_view("key", keyed.key());
    out.expr_view("expr", keyed.expr());
}

/// What a spread answers.
fn spread(out: &mut Answers, spread: Spread) {
    out.expr_view("expr", spread.expr());
    out.option("sink_ident", spread.sink_ident());
    out.expr_option("sink_expr", spread.sink_expr());
}

/// What a binding answers.
fn let_binding(out: &mut Answers, binding: LetBinding) {
    let_kind(out, binding.kind());
    out.names("kind().bindings", binding.kind().bindings(out.alloc));
    out.expr_option("init", binding.init());
}

/// What a binding binds.
fn let_kind(out: &mut Answers, kind: LetBindingKind) {
    match kind {
        LetBindingKind::Normal(pattern) => out.wrapped("kind", "Normal", pattern),
        LetBindingKind::Closure(name) => out.wrapped("kind", "Closure", name),
    }
}

/// What an assignment to a pattern answers.
fn destruct_assignment(out: &mut Answers, assignment: DestructAssignment) {
    out.pattern_view("pattern", assignment.pattern());
    out.expr_view("value", assignment.value());
}
