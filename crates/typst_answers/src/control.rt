//! What rules, conditionals and loops answer.

use crate::answers::Answers;
use crate::subject::Subject;
use typst_tree::SyntaxKind;
use typst_tree::ast::{Conditional, Contextual, ForLoop, FuncReturn, SetRule, ShowRule, WhileLoop};

/// What the accessors of a node or a placeholder answer. For a kind of another module there is no answer.
pub fn answer(out: &mut Answers, subject: Subject) {
    match subject.kind() {
        SyntaxKind::SetRule => set_rule(out, subject.view()),
        SyntaxKind::ShowRule => show_rule(out, subject.view()),
        SyntaxKind::Contextual => out.expr_view("body", subject.view::<Contextual>().body()),
        SyntaxKind::Conditional => conditional(out, subject.view()),
        SyntaxKind::WhileLoop => while_loop(out, subject.view()),
        SyntaxKind::ForLoop => for_loop(out, subject.view()),
        SyntaxKind::FuncReturn => out.expr_option("body", subject.view::<FuncReturn>().body()),
        _ => {}
    }
}

/// What a set rule answers.
fn set_rule(out: &mut Answers, rule: SetRule) {
    out.expr_view("target", rule.target());
    out.view("args", rule.args());
    out.expr_option("condition", rule.condition());
}

/// What a show rule answers.
fn show_rule(out: &mut Answers, rule: ShowRule) {
    out.expr_option("selector", rule.selector());
    out.expr_view("transform", rule.transform());
}

/// What a choice answers.
fn conditional(out: &mut Answers, conditional: Conditional) {
    out.expr_view("condition", conditional.condition());
    out.expr_view("if_body", conditional.if_body());
    out.expr_option("else_body", conditional.else_body());
}

/// What a loop on a condition answers.
fn while_loop(out: &mut Answers, while_loop: WhileLoop) {
    out.expr_view("condition", while_loop.condition());
    out.expr_view("body", while_loop.body());
}

/// What a loop over items answers.
fn for_loop(out: &mut Answers, for_loop: ForLoop) {
    out.pattern_view("pattern", for_loop.pattern());
    out.expr_view("iterable", for_loop.iterable());
    out.expr_view("body", for_loop.body());
}
