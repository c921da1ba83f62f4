//! The table, and which of its rows is done.
ghost use Rattle.std.specs.Prelude.{◌≡◌};
ghost use Rattle.typst_parser.specs.Rows.{as_markup, class_of_next, first_row, goes_on, holds, is_context, is_last, is_stopped, lexer_mode, row_for, seen, stops};
ghost use Rattle.typst_parser.specs.View.{found_of, stack_of, table_of};
ghost use Rattle.typst_grammar.specs.Row.{rows_of};

use crate::class::class_of;
use crate::event::Event;
use crate::stack::Stack;
use typst_base::SyntaxKind;
use typst_grammar::rows::rows;
use typst_grammar::{Class, Condition, Mode as RowMode, Newline, Row};
use typst_lexer::{Mode, TokenKind};

/// What is read, and the bounds of the machine.
#[derive(Clone, Copy, Debug)]
pub struct Table {
    /// Whether a hash begins code and a dollar an equation. Otherwise both are text.
    pub embeds: bool,
    /// How many deep frames may be open at once.
    pub most_deep: usize,
    /// How often a token is looked at. It has to suffice for the ends of all open frames.
    pub most_looks: usize,
    /// How many levels a tree may have.
    pub most_levels: usize,
}

/// How the lexer reads in a mode of the table.
pub(crate) fn lexer_mode(mode: RowMode) -> Mode
    ensures { result ≡ lexer_mode mode }
{
    match mode {
        RowMode::Markup => Mode::Markup,
        RowMode::Code => Mode::Code,
        RowMode::Math => Mode::Math,
        RowMode::Operator => Mode::Operator,
        RowMode::Argument => Mode::Argument,
    }
}

/// The class of a token, or of the end of the text.
fn class_of_next(kind: Option<TokenKind>) -> Class
    ensures { result ≡ class_of_next kind }
{
    match kind {
        Some(kind) => class_of(kind),
        None => Class::End,
    }
}

/// The class as which a token reads where markup stands alone.
fn as_markup(class: Class) -> Class
    ensures { result ≡ as_markup class }
{
    match class {
        Class::Hash | Class::Dollar => Class::Plain,
        _ => class,
    }
}

/// Whether the class is that of `else` or of a dot.
fn goes_on(class: Class) -> bool
    ensures { result ≡ goes_on class }
{
    matches!(class, Class::Else | Class::Dot | Class::Field)
}

/// Whether what a line feed does depends on the token behind it.
fn is_context(newline: Newline) -> bool
    ensures { result ≡ is_context newline }
{
    matches!(newline, Newline::Context)
}

/// Whether the last of some events is a tree of this kind.
pub(crate) fn is_last(kind: SyntaxKind, events: &[Event]) -> bool
    ensures { result ≡ is_last kind events.now }
{
    match events.last() {
        Some(event) => event.kind() == kind,
        None => false,
    }
}

impl Stack {
    /// Whether the white space before the next token ends what is open in a frame, whatever the token is.
    fn stops(&self, newline: Newline, column: usize) -> bool
        ensures { result ≡ stops newline column (stack_of self.now) }
    {
        match newline {
            Newline::Go | Newline::Context => false,
            Newline::Stop => self.next.line,
            Newline::Par => self.next.blank,
            Newline::Column => self.next.line && self.next.place.column <= column,
        }
    }

    /// Whether the next token reads as the end, whatever it is.
    pub(crate) fn is_stopped(&self) -> bool
        ensures { result ≡ is_stopped (stack_of self.now) }
    {
        let frame = self.judging();
        self.stops(frame.newline, frame.column)
    }

    /// The class as which the next token reads.
    pub(crate) fn seen(&self) -> Class
        ensures { result ≡ seen (stack_of self.now) }
    {
        let class = class_of_next(self.next.kind);
        if self.next.line && is_context(self.judging().newline) && !goes_on(class) {
            Class::End
        } else {
            class
        }
    }

    /// Whether a condition holds.
    fn holds(&self, condition: Condition) -> bool
        ensures { result ≡ holds condition (stack_of self.now) }
    {
        match condition {
            Condition::Always => true,
            Condition::Newline => self.next.line,
            Condition::Direct => self.next.place.at == self.from.at,
            Condition::Empty => self.top.trees == 0,
            Condition::Is(number) => self.top.number == number,
            Condition::UpTo(number) => self.top.number <= number,
            Condition::Only(kind) => self.top.trees == 1 && is_last(kind, &self.events),
            Condition::Last(kind) => self.top.trees > 0 && is_last(kind, &self.events),
        }
    }

    /// The first of some rows that fits.
    fn first_row(&self, rows: &'static [Row]) -> Option<&'static Row>
        ensures { found_of result ≡ first_row (rows_of rows.now) (stack_of self.now) }
    {
        for row in rows {
            // Most rows have no condition, and are found without a jump.
            if matches!(row.condition, Condition::Always) || self.holds(row.condition) {
                return Some(row);
            }
        }
        None
    }

    /// The row for a class.
    pub(crate) fn row_for(&self, table: &Table, class: Class) -> Option<&'static Row>
        ensures { found_of result ≡ row_for (table_of table.now) class (stack_of self.now) }
    {
        let class = if table.embeds {
            class
        } else {
            as_markup(class)
        };
        self.first_row(rows(self.top.state, class))
    }
}
