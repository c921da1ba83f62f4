//! What the machine does with the next token.
ghost use Rattle.std.specs.Prelude.{◌≡◌, ◌+◌, OnOk, length};
ghost use Rattle.typst_parser.specs.Columns.{column_after};
ghost use Rattle.typst_parser.specs.Frames.{is_looking, is_taken};
ghost use Rattle.typst_parser.specs.Steps.{advanced, after_row, between, eaten, followed, forgotten, is_between, is_over, is_too_deep, looked, looked_at, looked_in, looks, put, refused, step, steps, taken, token_bytes};
ghost use Rattle.typst_parser.specs.Tokens.{events_for};
ghost use Rattle.typst_parser.specs.View.{found_of, stack_of, table_of};
ghost use Rattle.typst_grammar.specs.Row.{row_of};

use crate::column::column_after;
use crate::event::Event;
use crate::fault::Fault;
use crate::next::{Next, Place};
use crate::read::{part, rest_at};
use crate::stack::{Phase, Stack};
use crate::table::{Table, lexer_mode};
use crate::token::push_token;
use std::alloc::{AllocError, Global};
use typst_grammar::rows::mode_of;
use typst_grammar::{Call, Class, Row, Take};
use typst_lexer::{Mode, TokenKind};

/// The bytes of the next token.
fn token_bytes(text: &[u8], next: Next) -> &[u8]
    ensures { result.now ≡ token_bytes text.now next }
{
    part(text, next.place.at, next.end.saturating_sub(next.place.at))
}

/// Whether the next token is still looked at.
fn is_looking(phase: Phase) -> bool
    ensures { result ≡ is_looking phase }
{
    matches!(phase, Phase::Looking)
}

/// Whether the next token was taken.
fn is_taken(phase: Phase) -> bool
    ensures { result ≡ is_taken phase }
{
    matches!(phase, Phase::Taken)
}

impl Stack {
    /// Goes behind the next token, which has these bytes and was taken.
    fn advance(&mut self, bytes: &[u8])
        ensures { stack_of self.new ≡ advanced bytes.now (stack_of self.old) }
    {
        self.from = Place {
            at: self.next.end,
            behind: self.next.behind,
            column: column_after(self.next.place.column, bytes),
        };
        self.next = Next::unread(self.from);
        self.phase = Phase::Taken;
        self.judge = self.below.len();
    }

    /// Forgets an expectation before a token that isn't expected.
    fn forget(&mut self, take: Take)
        ensures { stack_of self.new ≡ forgotten take (stack_of self.old) }
    {
        match take {
            Take::Unexpected | Take::Mistake(_) => self.missing = None,
            _ => {}
        }
    }

    /// Makes the next token, which has this kind and these bytes, a tree, as a row says.
    fn put(
        &mut self,
        alloc: Global,
        take: Take,
        kind: TokenKind,
        bytes: &[u8],
    ) -> Result<(), AllocError>
        ensures { OnOk result
            (stack_of self.new ≡ put bytes.now (events_for take kind bytes.now) (stack_of self.old)) }
    {
        self.settle()?;
        self.place()?;
        push_token(alloc, &mut self.events, take, kind, bytes)?;
        self.top.grow(1);
        self.advance(bytes);
        Ok(())
    }

    /// Takes the next token, as a row says, or ends the block at the end of the text.
    fn eat(&mut self, alloc: Global, text: &[u8], take: Take) -> Result<(), AllocError>
        ensures { OnOk result (stack_of self.new ≡ eaten text.now take (stack_of self.old)) }
    {
        match self.next.kind {
            Some(kind) => {
                let bytes = token_bytes(text, self.next);
                self.forget(take);
                self.put(alloc, take, kind, bytes)
            }
            None => self.end(),
        }
    }

    /// Takes the next token, if a row says so.
    fn take(&mut self, alloc: Global, text: &[u8], take: Take) -> Result<(), AllocError>
        ensures { OnOk result (stack_of self.new ≡ taken text.now take (stack_of self.old)) }
    {
        match take {
            Take::Nothing => Ok(()),
            _ => {
                self.know(text);
                self.eat(alloc, text, take)
            }
        }
    }

    /// Makes the next token an error, or ends the block at the end of the text.
    fn refuse(&mut self, text: &[u8], fault: Fault) -> Result<(), AllocError>
        ensures { OnOk result (stack_of self.new ≡ refused text.now fault (stack_of self.old)) }
    {
        self.know(text);
        if self.next.kind.is_none() {
            return self.end();
        }
        let bytes = token_bytes(text, self.next);
        let len = bytes.len();
        self.settle()?;
        self.place()?;
        self.push(Event::Error { fault, len })?;
        self.advance(bytes);
        Ok(())
    }

    /// Does what a row says. Most rows have no actions, and then no call is made.
    fn run(
        &mut self,
        alloc: Global,
        table: &Table,
        text: &[u8],
        row: &Row,
    ) -> Result<(), AllocError>
        ensures { OnOk result
            (stack_of self.new ≡ after_row (table_of table.now) text.now (row_of row.now) (stack_of self.old)) }
    {
        if !row.before.is_empty() {
            self.acts(alloc, text, row.before, table.most_levels)?;
        }
        self.take(alloc, text, row.take)?;
        if !row.after.is_empty() {
            self.acts(alloc, text, row.after, table.most_levels)?;
        }
        if let Some(call) = row.call {
            self.call(call)?;
        }
        Ok(())
    }

    /// Whether a call opens a deep frame, and as many as may be are open.
    fn is_too_deep(&self, call: Option<Call>) -> bool
        ensures { result ≡ is_too_deep call (stack_of self.now) }
    {
        match call {
            Some(call) => call.is_deep && self.top.room == 0,
            None => false,
        }
    }

    /// Does what the row says that was found for the next token.
    fn follow(
        &mut self,
        alloc: Global,
        table: &Table,
        text: &[u8],
        row: Option<&'static Row>,
    ) -> Result<(), AllocError>
        ensures { OnOk result
            (stack_of self.new ≡ followed (table_of table.now) text.now (found_of row.entry) (stack_of self.old)) }
    {
        match row {
            Some(row) if self.is_too_deep(row.call) => self.refuse(text, Fault::TooDeep),
            Some(row) => self.run(alloc, table, text, row),
            None => self.refuse(text, Fault::NoRow),
        }
    }

    /// Whether a newline is before the next token, and only the outermost frame is open.
    fn is_between(&self) -> bool
        ensures { result ≡ is_between (stack_of self.now) }
    {
        self.next.line && self.below.is_empty()
    }

    /// Whether the block ends before the next token.
    fn is_over(&self, text: &[u8]) -> bool
        ensures { result ≡ is_over text.now (stack_of self.now) }
    {
        self.is_between()
            && self.next.place.column == 0
            && self.top.number == 0
            && !rest_at(text, self.next.place.at).starts_with(b"#!")
    }

    /// Looks at the next token, and reads it in a mode if need be.
    fn look_at(
        &mut self,
        alloc: Global,
        table: &Table,
        text: &[u8],
        mode: Mode,
    ) -> Result<(), AllocError>
        ensures { OnOk result
            (stack_of self.new ≡ looked_at (table_of table.now) text.now mode (stack_of self.old)) }
    {
        if self.is_stopped() {
            let row = self.row_for(table, Class::End);
            return self.follow(alloc, table, text, row);
        }
        self.read(mode, text);
        let row = self.row_for(table, self.seen());
        self.follow(alloc, table, text, row)
    }

    /// Looks at what comes next in a mode, once white space was read.
    fn look_in(
        &mut self,
        alloc: Global,
        table: &Table,
        text: &[u8],
        mode: Mode,
    ) -> Result<(), AllocError>
        ensures { OnOk result
            (stack_of self.new ≡ looked_in (table_of table.now) text.now mode (stack_of self.old)) }
    {
        if self.is_over(text) {
            return self.end();
        }
        if self.is_between() {
            self.settle()?;
        }
        self.look_at(alloc, table, text, mode)
    }

    /// Looks at what comes next once.
    fn look(&mut self, alloc: Global, table: &Table, text: &[u8]) -> Result<(), AllocError>
        ensures { OnOk result (stack_of self.new ≡ looked (table_of table.now) text.now (stack_of self.old)) }
    {
        match mode_of(self.top.state) {
            Some(mode) => {
                let mode = lexer_mode(mode);
                self.space(mode, text)?;
                self.look_in(alloc, table, text, mode)
            }
            None => {
                let row = self.row_for(table, Class::End);
                self.follow(alloc, table, text, row)
            }
        }
    }

    /// Looks at the next token until a row takes it, or the block ends before it.
    fn step(&mut self, alloc: Global, table: &Table, text: &[u8]) -> Result<(), AllocError>
        ensures { OnOk result (stack_of self.new ≡ step (table_of table.now) text.now (stack_of self.old)) }
    {
        self.phase = Phase::Looking;
        for _ in 0..table.most_looks {
            self.look(alloc, table, text)?;
            if !is_looking(self.phase) {
                return Ok(());
            }
        }
        self.refuse(text, Fault::NoRow)?;
        Ok(())
    }

    /// Takes tokens up to the end of the block.
    pub(crate) fn steps(
        &mut self,
        alloc: Global,
        table: &Table,
        text: &[u8],
    ) -> Result<(), AllocError>
        ensures { OnOk result
            (stack_of self.new ≡ steps (length text.now + 1) (table_of table.now) text.now (stack_of self.old)) }
    {
        for _ in 0..text.len() + 1 {
            self.step(alloc, table, text)?;
            if !is_taken(self.phase) {
                return Ok(());
            }
        }
        Ok(())
    }
}
