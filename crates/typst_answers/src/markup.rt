//! What markup answers.

use crate::answers::Answers;
use crate::subject::Subject;
use typst_tree::SyntaxKind;
use typst_tree::ast::{
    ContentBlock, Emph, EnumItem, Equation, Heading, ListItem, Markup, Ref, Strong, TermItem,
};

/// What the accessors of a node or a placeholder answer. For a kind of another module there is no answer.
pub fn answer(out: &mut Answers, subject: Subject) {
    match subject.kind() {
        SyntaxKind::Markup => markup(out, subject.view()),
        SyntaxKind::Strong => out.view("body", subject.view::<Strong>().body()),
        SyntaxKind::Emph => out.view("body", subject.view::<Emph>().body()),
        SyntaxKind::ListItem => out.view("body", subject.view::<ListItem>().body()),
        SyntaxKind::ContentBlock => out.view("body", subject.view::<ContentBlock>().body()),
        SyntaxKind::Heading => heading(out, subject.view()),
        SyntaxKind::EnumItem => enum_item(out, subject.view()),
        SyntaxKind::TermItem => term_item(out, subject.view()),
        SyntaxKind::Ref => reference(out, subject.view()),
        SyntaxKind::Equation => equation(out, subject.view()),
        _ => {}
    }
}

/// What markup answers.
fn markup(out: &mut Answers, markup: Markup) {
    out.expr_list(markup.exprs(), markup.exprs(), markup.exprs());
}

/// What a heading answers.
fn heading(out: &mut Answers, heading: Heading) {
    out.view("body", heading.body());
    out.shown("depth", heading.depth());
}

/// What a numbered item answers.
fn enum_item(out: &mut Answers, item: EnumItem) {
    out.number("number", item.number());
    out.view("body", item.body());
}

/// What a term answers.
fn term_item(out: &mut Answers, item: TermItem) {
    out.view("term", item.term());
    out.view("description", item.description());
}

/// What a reference answers.
fn reference(out: &mut Answers, reference: Ref) {
    out.text("target", reference.target());
    out.option("supplement", reference.supplement());
}

/// What an equation answers.
fn equation(out: &mut Answers, equation: Equation) {
    out.view("body", equation.body());
    out.flag("block", equation.block());
}
