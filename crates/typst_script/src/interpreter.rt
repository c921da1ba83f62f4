//! Carries out the commands of a script.
ghost use Rattle.std.specs.Prelude.{ℕ, ◌≡◌, ◌≢◌, ◌<◌, ◌≤◌, ◌^◌, ◌↔◌, List, [], length, OnOk, IfErr, IsErrOf, IsNone, IsSomeAnd, IsOk, Err};
ghost use Rattle.typst_base.specs.declared.kind.SyntaxKind.TheVariants.{Error as ErrorKind};
ghost use Rattle.typst_node.specs.Numbered.{IsNumbered};
ghost use Rattle.typst_script.specs.Command.{IsLineOf};
ghost use Rattle.typst_script.specs.declared.command.Command.{Command};
ghost use Rattle.typst_script.specs.declared.command.Command.TheVariants.{Leaf, Error, Warn, Inner, Root, Number, Replace, Find, Run};
ghost use Rattle.typst_script.specs.declared.command_error.CommandError.TheVariants.{Bad};
ghost use Rattle.typst_script.specs.declared.fault.Fault.TheVariants.{BadCommand};

use crate::command::Command;
use crate::command_error::CommandError;
use crate::fault::Fault;
use crate::path::Path;
use crate::reply::print_replies;
use crate::show::show;
use crate::tree::ScriptTree;
use std::alloc::Global;
use std::io::Write;
use typst_tree::session::{Request, Slot};
use typst_tree::{FileId, Span, SpanNumber, SyntaxKind, SyntaxNode};

/// The nodes that a script has built, its tree, and its queue of requests for the tree.
#[derive(Drop)]
pub struct Interpreter {
    /// The newest node is the last.
    pub stack: Vec<SyntaxNode>,
    pub tree: Option<ScriptTree>,
    /// The requests that the next `run` serves.
    pub queue: Vec<Slot>,
}

impl Interpreter {
    ghost use Rattle.typst_script.specs.Done.{IsDone, CanBeDone};
    ghost use Rattle.typst_script.specs.Fails.{IsErrorOf, IsFaultIn};

    /// An empty stack, no tree, and an empty queue.
    pub fn new(alloc: Global) -> Interpreter
        ensures stack { result.stack.items ≡ [] }
        ensures tree { IsNone result.tree }
        ensures queue { result.queue.items ≡ [] }
    {
        Interpreter {
            stack: Vec::new(alloc),
            tree: None,
            queue: Vec::new(alloc),
        }
    }

    /// Carries out the line with this number, given without its end. An empty line is skipped.
    pub fn obey<W: Write>(
        &mut self,
        alloc: Global,
        line: u64,
        text: &str,
        out: &mut W,
    ) -> Result<(), Fault>
        ensures skipped { text.now ≡ [] → IsOk result × (self.new.stack.items ≡ self.old.stack.items)
            × (self.new.tree ≡ self.old.tree) × (self.new.queue.items ≡ self.old.queue.items) }
        ensures done { OnOk result (text.now ≢ []
            → (command : Command) × IsLineOf command text.now × IsDone command self.old self.new) }
        ensures bad { text.now ≢ []
            → ((command : Command) → IsLineOf command text.now → ¬ (CanBeDone command self.old))
            → result ≡ Err (BadCommand line) }
        ensures err { IfErr result (IsFaultIn line text.now self.old) }
    {
        if text.is_empty() {
            return Ok(());
        }
        let Some(command) = Command::parse(text) else {
            return Err(Fault::BadCommand { line });
        };
        if let Err(error) = self.carry_out(alloc, &command, out) {
            return Err(error.at(line));
        }
        Ok(())
    }

    /// Carries out a command.
    fn carry_out<W: Write>(
        &mut self,
        alloc: Global,
        command: &Command<'_>,
        out: &mut W,
    ) -> Result<(), CommandError>
        requires { (line : List ℕ) × IsLineOf command.now line }
        ensures done { OnOk result (IsDone command.now self.old self.new) }
        ensures bad { IsErrOf result Bad ↔ ¬ (CanBeDone command.now self.old) }
        ensures err { IfErr result (IsErrorOf command.now self.old) }
    {
        match *command {
            Command::Leaf { kind, text } => self.leaf(alloc, kind, text),
            Command::Error { message, text } => self.error(alloc, message, text),
            Command::Warn { message } => self.warn(alloc, message),
            Command::Inner { kind, count } => self.inner(alloc, kind, count),
            Command::Root => self.root(),
            Command::Number { file, low, high } => self.number(out, file, low, high),
            Command::Replace {
                path,
                start,
                end,
                count,
            } => self.replace(alloc, path, start, end, count),
            Command::Find { file, number } => self.find(file, number),
            Command::Run => self.run(alloc, out),
            Command::Show => Ok(show(out, self.tree.as_ref().ok_or(CommandError::Bad)?.root())?),
        }
    }

    /// Pushes a leaf.
    fn leaf(&mut self, alloc: Global, kind: SyntaxKind, text: &str) -> Result<(), CommandError>
        requires { kind ≢ ErrorKind }
        ensures done { OnOk result (IsDone (Leaf kind text.entry) self.old self.new) }
        ensures err { IfErr result (IsErrorOf (Leaf kind text.entry) self.old) }
    {
        self.stack.push(SyntaxNode::leaf(alloc, kind, text)?)?;
        Ok(())
    }

    /// Pushes an error.
    fn error(&mut self, alloc: Global, message: &str, text: &str) -> Result<(), CommandError>
        ensures done { OnOk result (IsDone (Error message.entry text.entry) self.old self.new) }
        ensures err { IfErr result (IsErrorOf (Error message.entry text.entry) self.old) }
    {
        self.stack.push(SyntaxNode::error(alloc, message, text)?)?;
        Ok(())
    }

    /// Puts a warning around the top node.
    fn warn(&mut self, alloc: Global, message: &str) -> Result<(), CommandError>
        ensures done { OnOk result (IsDone (Warn message.entry) self.old self.new) }
        ensures bad { IsErrOf result Bad ↔ (self.old.stack.items ≡ []) }
        ensures err { IfErr result (IsErrorOf (Warn message.entry) self.old) }
    {
        let Some(mut node) = self.stack.pop() else {
            return Err(CommandError::Bad);
        };
        node.warn(alloc, message)?;
        self.stack.push(node)?;
        Ok(())
    }

    /// Pops this many nodes, and pushes their parent.
    fn inner(&mut self, alloc: Global, kind: SyntaxKind, count: u64) -> Result<(), CommandError>
        requires { kind ≢ ErrorKind }
        ensures done { OnOk result (IsDone (Inner kind count) self.old self.new) }
        ensures bad { IsErrOf result Bad ↔ (length self.old.stack.items < count) }
        ensures err { IfErr result (IsErrorOf (Inner kind count) self.old) }
    {
        let start = self
            .stack
            .len()
            .checked_sub(count as usize)
            .ok_or(CommandError::Bad)?;
        let children = self.stack.split_off(start)?;
        self.stack.push(SyntaxNode::inner(alloc, kind, children)?)?;
        Ok(())
    }

    /// Makes the only node of the stack the tree.
    fn root(&mut self) -> Result<(), CommandError>
        ensures done { OnOk result (IsDone Root self.old self.new) }
        ensures bad { IsErrOf result Bad ↔ (length self.old.stack.items ≢ 1) }
        ensures err { IfErr result (IsErrorOf Root self.old) }
    {
        if self.stack.len() != 1 {
            return Err(CommandError::Bad);
        }
        self.tree = self.stack.pop().map(ScriptTree::from);
        Ok(())
    }

    /// Numbers the tree, or prints `refused` if the range is too short.
    fn number<W: Write>(
        &mut self,
        out: &mut W,
        file: FileId,
        low: u64,
        high: u64,
    ) -> Result<(), CommandError>
        requires low { 2 ≤ low }
        requires high { high ≤ 2 ^ 47 }
        ensures done { OnOk result (IsDone (Number file low high) self.old self.new) }
        ensures bad { IsErrOf result Bad ↔ IsNone self.old.tree }
        ensures err { IfErr result (IsErrorOf (Number file low high) self.old) }
    {
        let Some(tree) = self.tree.take() else {
            return Err(CommandError::Bad);
        };
        match tree.number(file, low..high) {
            Ok(tree) => {
                self.tree = Some(tree);
                Ok(())
            }
            Err(tree) => {
                self.tree = Some(tree);
                Ok(out.write_all(b"refused\n")?)
            }
        }
    }

    /// Pops this many nodes, and queues a replacement by them.
    fn replace(
        &mut self,
        alloc: Global,
        path: Path<'_>,
        start: u64,
        end: u64,
        count: u64,
    ) -> Result<(), CommandError>
        ensures done { OnOk result (IsDone (Replace path.entry start end count) self.old self.new) }
        ensures bad { IsErrOf result Bad ↔ (length self.old.stack.items < count) }
        ensures err { IfErr result (IsErrorOf (Replace path.entry start end count) self.old) }
    {
        let rest = self
            .stack
            .len()
            .checked_sub(count as usize)
            .ok_or(CommandError::Bad)?;
        let request = Request::Replace {
            path: path.indices(alloc)?,
            range: start as usize..end as usize,
            replacement: self.stack.split_off(rest)?,
        };
        self.queue.push(Slot::Ask(request))?;
        Ok(())
    }

    /// Queues a search.
    fn find(&mut self, file: FileId, number: u64) -> Result<(), CommandError>
        requires low { 2 ≤ number }
        requires high { number < 2 ^ 47 }
        ensures done { OnOk result (IsDone (Find file number) self.old self.new) }
        ensures err { IfErr result (IsErrorOf (Find file number) self.old) }
    {
        let span = Span::from_number(file, SpanNumber(number));
        self.queue.push(Slot::Ask(Request::Find(span)))?;
        Ok(())
    }

    /// Serves the queue, and prints the replies.
    fn run<W: Write>(&mut self, alloc: Global, out: &mut W) -> Result<(), CommandError>
        ensures done { OnOk result (IsDone Run self.old self.new) }
        ensures bad { IsErrOf result Bad ↔ ¬ (IsSomeAnd self.old.tree IsNumbered) }
        ensures err { IfErr result (IsErrorOf Run self.old) }
    {
        let Some(tree) = self.tree.take() else {
            return Err(CommandError::Bad);
        };
        let mut tree = match tree.into_numbered() {
            Ok(tree) => tree,
            Err(tree) => {
                self.tree = Some(tree);
                return Err(CommandError::Bad);
            }
        };
        tree.run(alloc, &mut self.queue);
        self.tree = Some(tree.into());
        print_replies(out, &self.queue)?;
        self.queue.clear();
        Ok(())
    }
}
