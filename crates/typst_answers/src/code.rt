//! What blocks, operations and calls answer.

use crate::answers::Answers;
use crate::subject::Subject;
use typst_tree::SyntaxKind;
use typst_tree::ast::{
    Args, Binary, Closure, Code, CodeBlock, FieldAccess, FuncCall, Params, Parenthesized, Unary,
};

/// What the accessors of a node or a placeholder answer. For a kind of another module there is no answer.
pub fn answer(out: &mut Answers, subject: Subject) {
    match subject.kind() {
        SyntaxKind::Code => out.items("exprs", subject.view::<Code>().exprs()),
        SyntaxKind::CodeBlock => out.view("body", subject.view::<CodeBlock>().body()),
        SyntaxKind::Parenthesized => parenthesized(out, subject.view()),
        SyntaxKind::Unary => unary(out, subject.view()),
        SyntaxKind::Binary => binary(out, subject.view()),
        SyntaxKind::FieldAccess => field_access(out, subject.view()),
        SyntaxKind::FuncCall => func_call(out, subject.view()),
        SyntaxKind::Args => args(out, subject.view()),
        SyntaxKind::Closure => closure(out, subject.view()),
        SyntaxKind::Params => out.items("children", subject.view::<Params>().children()),
        _ => {}
    }
}

/// What a group answers.
fn parenthesized(out: &mut Answers, parenthesized: Parenthesized) {
    out.expr_view("expr", parenthesized.expr());
    out.pattern_view("pattern", parenthesized.pattern());
}

/// What an operator before its operand answers.
fn unary(out: &mut Answers, unary: Unary) {
    out.debugged("op", unary.op());
    out.expr_view("expr", unary.expr());
}

/// What an operator between its operands answers.
fn binary(out: &mut Answers, binary: Binary) {
    out.debugged("op", binary.op());
    out.expr_view("lhs", binary.lhs());
    out.expr_view("rhs", binary.rhs());
}

/// What a field answers.
fn field_access(out: &mut Answers, access: FieldAccess) {
    out.expr_view("target", access.target());
    out.view("field", access.field());
}

/// What a call answers.
fn func_call(out: &mut Answers, call: FuncCall) {
    out.expr_view("callee", call.callee());
    out.view("args", call.args());
}

/// What the arguments of a call answers.
fn args(out: &mut Answers, args: Args) {
    out.items("items", args.items());
    out.flag("trailing_comma", args.trailing_comma());
}

/// What a closure answers.
fn closure(out: &mut Answers, closure: Closure) {
    out.option("name", closure.name());
    out.view("params", closure.params());
    out.expr_view("body", closure.body());
}
