//! The text that is printed about a tree, one answer per line.
ghost use Rattle.std.specs.Prelude.{ℕ, ◌≡◌, List, [], IfOk, IsErr, string_bytes};
ghost use Rattle.typst_answers.specs.Written.{Adds, IsRefused, IsWritten};
ghost use Rattle.typst_answers.specs.declared.form.Form.TheVariants.{Paths};

use crate::form::{Form, path_of};
use crate::lists::{Ends, both, both_of, collected, exprs_in, views_in};
use crate::place::Place;
use std::alloc::{AllocError, Global};
use std::fmt::{Debug, Display};
use std::ops::Range;
use typst_atoms::same_views::Parts;
use typst_tree::ast::{AstNode, Expr, Exprs, Ident, Items, Pattern};
use typst_tree::{DiagSpan, LinkedNode, SyntaxKind, SyntaxNode, place_of};

/// The answers about one numbered tree.
///
/// If memory is refused, nothing more is written, and [`Answers::finish`] reports it, as the builders of `fmt` do. So
/// the code that writes answers needs no test after each answer.
#[derive(Drop)]
pub struct Answers<'t> {
    pub alloc: Global,
    pub tree: &'t SyntaxNode,
    pub form: Form,
    /// The beginning of each line: the place that the line is about, and its kind. For nodes by their bytes it is empty.
    head: String,
    /// What has been written, unless memory was refused.
    text: Result<String, AllocError>,
}

/// # From the beginning to the end
impl<'t> Answers<'t> {
    /// Makes answers about this tree, with nodes by their paths. Nothing is written yet.
    pub fn new(alloc: Global, tree: &'t SyntaxNode) -> Self
        ensures empty { IsWritten [] result }
        ensures form { result.form ≡ Paths }
    {
        Answers::in_form(alloc, tree, Form::Paths)
    }

    /// Makes answers about this tree, in a form. Nothing is written yet.
    pub fn in_form(alloc: Global, tree: &'t SyntaxNode, form: Form) -> Self
        ensures empty { IsWritten [] result }
        ensures form { result.form ≡ form }
    {
        Answers {
            alloc,
            tree,
            form,
            head: String::new(alloc),
            text: Ok(String::new(alloc)),
        }
    }

    /// The whole text, unless memory was refused.
    pub fn finish(self) -> Result<String, AllocError>
        ensures whole { IfOk result (λ text. IsWritten (string_bytes text) self.entry) }
        ensures refused { IsErr result → IsRefused self.entry }
    {
        self.text
    }

    /// What has been written, unless memory was refused.
    pub fn written(&self) -> Result<&str, AllocError>
        ensures whole { IfOk result (λ text. IsWritten text.now self.now) }
        ensures refused { IsErr result → IsRefused self.now }
    {
        match &self.text {
            Ok(text) => Ok(text.as_str()),
            Err(_) => Err(AllocError),
        }
    }

    /// Removes what has been written, and keeps its room. It stays known that memory was refused.
    pub fn clear(&mut self)
        ensures empty { (bytes : List ℕ) → IsWritten bytes self.old → IsWritten [] self.new }
        ensures refused { IsRefused self.old → IsRefused self.new }
        ensures form { self.new.form ≡ self.old.form }
    {
        if let Ok(written) = &mut self.text {
            written.clear();
        }
    }

    /// Records that memory was refused.
    pub fn refuse(&mut self)
        ensures { IsRefused self.new }
    {
        self.text = Err(AllocError);
    }

    /// Makes this the place that the following lines are about.
    pub fn turn_to(&mut self, place: Place)
        ensures { Adds [] self.old self.new }
    {
        if self.form == Form::Paths {
            match self.head_of(place) {
                Ok(head) => self.head = head,
                Err(_) => self.refuse(),
            }
        }
    }

    /// The beginning of the lines about a place, for nodes by their paths.
    fn head_of(&self, place: Place) -> Result<String, AllocError> {
        let alloc = self.alloc;
        let kind = place.kind;
        let name = self.path_at(place)?;
        format!(in alloc; "{name} {kind:?}.")
    }

    /// The path of a node, or `~KIND` for a placeholder.
    fn path_at(&self, place: Place) -> Result<String, AllocError> {
        let alloc = self.alloc;
        let kind = place.kind;
        match LinkedNode::new(self.tree).find(alloc, place.span)? {
            Some(node) => path_of(alloc, &node),
            None => format!(in alloc; "~{kind:?}"),
        }
    }
}

/// # Pieces
impl<'t> Answers<'t> {
    /// Writes a text.
    pub fn put(&mut self, text: &str)
        ensures { Adds text.now self.old self.new }
    {
        if let Ok(written) = &mut self.text
            && written.push_str(text).is_err()
        {
            self.text = Err(AllocError);
        }
    }

    /// Writes a text that was made for this, or records that memory was refused for it.
    pub fn put_made(&mut self, text: Result<String, AllocError>)
        ensures made { IfOk text (λ made. Adds (string_bytes made) self.old self.new) }
        ensures refused { IsErr text → IsRefused self.new }
    {
        match text {
            Ok(text) => self.put(text.as_str()),
            Err(_) => self.refuse(),
        }
    }

    /// Writes a text in quotes.
    fn put_quoted(&mut self, text: &str) {
        if let Ok(written) = &mut self.text
            && self.form.push_text(written, text).is_err()
        {
            self.text = Err(AllocError);
        }
    }

    /// Writes the beginning of an answer's line.
    pub fn begin(&mut self, what: &str) {
        self.start_line(what, "");
    }

    /// Writes the beginning of an answer's line and of the answer.
    fn start_line(&mut self, what: &str, answer: &str) {
        let separator = self.form.separator();
        if let Ok(written) = &mut self.text
            && push_line(written, &self.head, what, separator, answer).is_err()
        {
            self.text = Err(AllocError);
        }
    }

    /// Ends a line.
    pub fn end(&mut self) {
        self.put("\n");
    }

    /// Writes the name of a node or a placeholder.
    pub fn put_place(&mut self, place: Place) {
        match self.form {
            Form::Paths => {
                let path = self.path_at(place);
                self.put_made(path);
            }
            Form::Ranges => {
                let span = DiagSpan::from(place.span);
                self.put_range(place.kind, place_of(self.tree, &span));
            }
        }
    }

    /// Writes the kind and the bytes of a node, or `placeholder KIND` where there are no bytes.
    fn put_range(&mut self, kind: SyntaxKind, range: Option<Range<usize>>) {
        if let Ok(written) = &mut self.text {
            let done = match range {
                Some(Range { start, end }) => write!(written, "{kind:?} {start}..{end}"),
                None => write!(written, "placeholder {kind:?}"),
            };
            if done.is_err() {
                self.text = Err(AllocError);
            }
        }
    }

    /// Writes the name of the node or the placeholder of a view.
    pub fn put_view<'v, T: AstNode<'v>>(&mut self, view: T) {
        self.put_place(Place::of(view));
    }

    /// Writes ` VIEW`.
    pub fn put_next<'v, T: AstNode<'v>>(&mut self, view: T) {
        self.put(" ");
        self.put_view(view);
    }

    /// Writes `NAME(VIEW)`.
    pub fn put_wrapped<'v, T: AstNode<'v>>(&mut self, name: &str, view: T) {
        self.put_wrapped_place(name, Place::of(view));
    }

    /// Writes `NAME(PLACE)`.
    fn put_wrapped_place(&mut self, name: &str, place: Place) {
        self.put(name);
        self.put("(");
        self.put_place(place);
        self.put(")");
    }

    /// Writes what separates the entry with this index from the one before it.
    pub fn put_comma(&mut self, index: usize) {
        if index > 0 {
            self.put(", ");
        }
    }

    /// Writes how many entries of a list are left out, if any are.
    fn put_more(&mut self, count: usize) {
        if count > 0 {
            let alloc = self.alloc;
            self.put_made(format!(in alloc; ", and {count} more"));
        }
    }
}

/// # Lines
impl<'t> Answers<'t> {
    /// Writes a line whose answer was made for this.
    fn line(&mut self, what: &str, answer: Result<String, AllocError>) {
        self.begin(what);
        self.put_made(answer);
        self.end();
    }

    /// Writes a line whose answer is a text, in quotes.
    pub fn text(&mut self, what: &str, text: &str) {
        self.begin(what);
        self.put_quoted(text);
        self.end();
    }

    /// Writes a line whose answer is a text that was made for this, in quotes.
    pub fn owned(&mut self, what: &str, text: Result<String, AllocError>) {
        match text {
            Ok(text) => self.text(what, text.as_str()),
            Err(_) => self.refuse(),
        }
    }

    /// Writes a line whose answer is a value, as `{}` prints it.
    pub fn shown<D: Display + Drop>(&mut self, what: &str, value: D) {
        let alloc = self.alloc;
        self.line(what, format!(in alloc; "{value}"));
    }

    /// Writes a line whose answer is a value, as `{:?}` prints it.
    pub fn debugged<D: Debug + Drop>(&mut self, what: &str, value: D) {
        let alloc = self.alloc;
        self.line(what, format!(in alloc; "{value:?}"));
    }

    /// Writes a line whose answer is a word.
    pub fn word(&mut self, what: &str, word: &str) {
        self.start_line(what, word);
        self.end();
    }

    /// Writes a line whose answer is `true` or `false`.
    pub fn flag(&mut self, what: &str, flag: bool) {
        self.word(what, if flag { "true" } else { "false" });
    }

    /// Writes a line whose answer is a number, or `none`.
    pub fn number<D: Display + Drop>(&mut self, what: &str, number: Option<D>) {
        match number {
            Some(number) => self.shown(what, number),
            None => self.word(what, "none"),
        }
    }

    /// Writes a line whose answer is the place of a view.
    fn place(&mut self, what: &str, place: Place) {
        self.begin(what);
        self.put_place(place);
        self.end();
    }

    /// Writes a line whose answer is a view.
    pub fn view<'v, T: AstNode<'v>>(&mut self, what: &str, view: T) {
        self.place(what, Place::of(view));
    }

    /// Writes a line whose answer is a view, or `none`.
    pub fn option<'v, T: AstNode<'v>>(&mut self, what: &str, view: Option<T>) {
        match view {
            Some(view) => self.view(what, view),
            None => self.word(what, "none"),
        }
    }

    /// [`Answers::view`] of an expression. It is a function of its own, so that the facts about expressions are looked
    /// up only here.
    pub fn expr_view(&mut self, what: &str, expr: Expr) {
        self.view(what, expr);
    }

    /// Writes a line whose answer is an expression, or `none`.
    pub fn expr_option(&mut self, what: &str, expr: Option<Expr>) {
        self.option(what, expr);
    }

    /// [`Answers::view`] of a pattern.
    pub fn pattern_view(&mut self, what: &str, pattern: Pattern) {
        self.view(what, pattern);
    }

    /// Writes a line whose answer is a view, in parentheses after a name.
    pub fn wrapped<'v, T: AstNode<'v>>(&mut self, what: &str, name: &str, view: T) {
        self.wrapped_place(what, name, Place::of(view));
    }

    /// Writes a line whose answer is the place of a view, in parentheses after a name.
    fn wrapped_place(&mut self, what: &str, name: &str, place: Place) {
        self.begin(what);
        self.put_wrapped_place(name, place);
        self.end();
    }

    /// Writes a line with the names that a pattern binds.
    pub fn names(&mut self, what: &str, names: Result<Vec<Ident>, AllocError>) {
        match names {
            Ok(names) => self.list_once(what, collected(self.alloc, &names)),
            Err(_) => self.refuse(),
        }
    }

    /// Writes a line whose answer is a list that was read once.
    fn list_once(&mut self, what: &str, views: Result<Vec<Parts>, AllocError>) {
        match views {
            Ok(views) => self.listed(what, &views),
            Err(_) => self.refuse(),
        }
    }

    /// Writes a line whose answer is a list of views, in brackets.
    fn listed(&mut self, what: &str, views: &[Parts]) {
        if views.is_empty() {
            return self.word(what, "[]");
        }
        self.begin(what);
        self.put("[");
        let entries = self.form.entries(views);
        for (index, view) in entries.iter().enumerate() {
            self.put_comma(index);
            self.put_place(Place::of_parts(*view));
        }
        self.put_more(views.len().saturating_sub(entries.len()));
        self.put("]");
        self.end();
    }

    /// Writes a line whose answer is a list of the views of one class. A person is not told of the ends, so the list is
    /// read only once then.
    pub fn items<'v, T: AstNode<'v>>(&mut self, what: &str, items: Items<'v, T>) {
        match self.form {
            Form::Paths => self.list(what, both_of(self.alloc, items)),
            Form::Ranges => self.list_once(what, views_in(self.alloc, items)),
        }
    }

    /// Writes a line with the expressions of markup or of math, which are passed three times. For a person they are read
    /// only once.
    pub fn expr_list(&mut self, front: Exprs, back: Exprs, mixed: Exprs) {
        let alloc = self.alloc;
        match self.form {
            Form::Paths => self.list("exprs", both(alloc, front, back, mixed, parts_of_expr)),
            Form::Ranges => self.list_once("exprs", exprs_in(alloc, front)),
        }
    }

    /// Writes a list, and whether it differs when it is read from the back, or from both ends in turn.
    fn list(&mut self, what: &str, ends: Result<Ends, AllocError>) {
        match ends {
            Ok(ends) => {
                self.listed(what, &ends.items);
                self.warn_of(ends.agree);
            }
            Err(_) => self.refuse(),
        }
    }

    /// Writes a line if a list differs when it is read from the back, or from both ends in turn.
    pub fn warn_of_ends(&mut self, ends: &Result<Ends, AllocError>) {
        match ends {
            Ok(ends) => self.warn_of(ends.agree),
            Err(_) => self.refuse(),
        }
    }

    /// Writes a line if a list differs when it is read from another end.
    fn warn_of(&mut self, ends_agree: bool) {
        if !ends_agree {
            self.put("THE ENDS DIFFER\n");
        }
    }
}

/// Adds the beginning of an answer's line and of the answer.
fn push_line(
    out: &mut String,
    head: &str,
    what: &str,
    separator: &str,
    answer: &str,
) -> Result<(), AllocError> {
    out.push_str(head)?;
    out.push_str(what)?;
    out.push_str(separator)?;
    out.push_str(answer)
}

/// The kind and the node of an expression.
fn parts_of_expr<'t>(expr: Expr<'t>) -> Parts<'t> {
    Parts {
        kind: expr.kind(),
        node: expr.to_untyped(),
    }
}
