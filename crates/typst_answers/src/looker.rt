//! Carries out the lines of its input.
ghost use Rattle.std.specs.Prelude.{◌≡◌, ◌≢◌, [], IfErr, IfOk, IfSome, IsNone, IsOk, IsSomeAnd, OnOk, Err, Some, codes, false, true};
ghost use Rattle.typst_answers.specs.Looked.{IsBad, IsLookLine};
ghost use Rattle.typst_answers.specs.Remark.{IsBuilt, IsRemarked};
ghost use Rattle.typst_answers.specs.declared.looker.Look.{Look};
ghost use Rattle.typst_answers.specs.declared.looker.Look.TheVariants.{Views, Walks, Blank};
ghost use Rattle.typst_node.specs.Numbered.{IsNumbered};
ghost use Rattle.typst_node.specs.Plain.{plain};
ghost use Rattle.typst_script.specs.Fault.{IsWriteFault};
ghost use Rattle.typst_script.specs.declared.fault.Fault.TheVariants.{BadCommand};

use crate::answers::Answers;
use crate::diagnostics::diagnostics;
use crate::remark::Remark;
use crate::views::{blanks, views};
use crate::walks::walks;
use std::alloc::{AllocError, Global};
use std::io;
use std::io::Write;
use typst_script::script::Obey;
use typst_script::{Fault, Interpreter, ScriptTree};
use typst_tree::{FileId, NumberedTree, Span, SyntaxNode};

/// What a line asks to look at.
#[derive(Clone, Copy)]
pub enum Look {
    /// Every accessor of every view of every node.
    Views,
    /// The walks of linked nodes, and what the tree reports.
    Walks,
    /// Every accessor of every placeholder.
    Blank,
}

impl Look {
    /// The look that a line, without its end, asks for, if it asks for one.
    pub fn parse(line: &str) -> Option<Look>
        ensures reads { IfSome result (λ look. IsLookLine look line.now) }
        ensures views { line.now ≡ codes "look views" → result ≡ Some Views }
        ensures walks { line.now ≡ codes "look walks" → result ≡ Some Walks }
        ensures blank { line.now ≡ codes "look blank" → result ≡ Some Blank }
    {
        match line {
            "look views" => Some(Look::Views),
            "look walks" => Some(Look::Walks),
            "look blank" => Some(Look::Blank),
            _ => None,
        }
    }
}

/// Builds trees, and prints what is asked of them.
///
/// | line | does |
/// |---|---|
/// | a line of a script | does the same as in a script, but prints nothing |
/// | `hint TEXT` | gives the newest node a hint |
/// | `hintat A B TEXT`, `warnat A B MESSAGE` | gives it a hint or a warning about the bytes A..B of its text |
/// | `look views`, `look walks`, `look blank` | prints answers, or `no tree` |
/// | `mark LABEL` | prints `#LABEL` |
/// | `new` | forgets the tree, the stack and the queue |
///
/// A line that can't be done takes the tree away. All lines that build are then skipped up to the next `new`.
#[derive(Drop)]
pub struct Looker {
    pub script: Interpreter,
    /// Whether a line after the last `new` couldn't be done.
    is_spoilt: bool,
    /// The first line that couldn't be done.
    fault: Option<Fault>,
}

impl Looker {
    /// A looker that has built nothing and met no bad line.
    pub fn new(alloc: Global) -> Looker
        ensures stack { result.script.stack.items ≡ [] }
        ensures tree { IsNone result.script.tree }
        ensures queue { result.script.queue.items ≡ [] }
        ensures sound { result.is_spoilt ≡ false }
        ensures fault { IsNone result.fault }
    {
        Looker {
            script: Interpreter::new(alloc),
            is_spoilt: false,
            fault: None,
        }
    }

    /// Fails with the fault of the first line that couldn't be done, if there is one.
    pub fn verdict(&self) -> Result<(), Fault>
        ensures sound { IsNone self.now.fault → IsOk result }
        ensures fault { IfSome self.now.fault (λ fault. result ≡ Err fault) }
    {
        match self.fault {
            Some(fault) => Err(fault),
            None => Ok(()),
        }
    }

    /// Forgets the tree, the stack and the queue.
    fn start_anew(&mut self, alloc: Global)
        ensures stack { self.new.script.stack.items ≡ [] }
        ensures tree { IsNone self.new.script.tree }
        ensures queue { self.new.script.queue.items ≡ [] }
        ensures sound { self.new.is_spoilt ≡ false }
        ensures fault { self.new.fault ≡ self.old.fault }
    {
        self.script = Interpreter::new(alloc);
        self.is_spoilt = false;
    }

    /// Carries out a line that builds. A bad line is noted, and spoils what was built.
    fn build(&mut self, alloc: Global, line: u64, text: &str) -> Result<(), Fault>
        ensures passed { self.old.is_spoilt ≡ true → IsOk result × (self.new ≡ self.old) }
        ensures first { IfSome self.old.fault (λ fault. self.new.fault ≡ Some fault) }
        ensures sound { self.new.is_spoilt ≡ false → self.new.fault ≡ self.old.fault }
        ensures spoilt { self.old.is_spoilt ≡ false → self.new.is_spoilt ≡ true
            → (self.new.script.stack.items ≡ []) × IsNone self.new.script.tree × (self.new.script.queue.items ≡ []) }
        ensures told { self.old.is_spoilt ≡ false → self.new.is_spoilt ≡ true → IsNone self.old.fault
            → self.new.fault ≡ Some (BadCommand line) }
        ensures built { self.old.is_spoilt ≡ false → self.new.is_spoilt ≡ false → text.now ≢ []
            → OnOk result (IsBuilt text.now self.old.script self.new.script) }
        ensures err { IfErr result (λ fault. ¬ (IsBad fault)) }
    {
        if self.is_spoilt {
            return Ok(());
        }
        match self.carry_out(alloc, line, text) {
            Err(Fault::BadCommand { line }) => {
                self.script = Interpreter::new(alloc);
                self.is_spoilt = true;
                self.fault = Some(self.fault.unwrap_or(Fault::BadCommand { line }));
                Ok(())
            }
            done => done,
        }
    }

    /// Carries out a line of a script, or puts a remark on the newest node.
    #[tactic(auto, using(crate::proofs::Faults::bad_at_line))]
    fn carry_out(&mut self, alloc: Global, line: u64, text: &str) -> Result<(), Fault>
        ensures built { text.now ≢ [] → OnOk result (IsBuilt text.now self.old.script self.new.script) }
        ensures bad { IfErr result (λ fault. IsBad fault → fault ≡ BadCommand line) }
        ensures fault { self.new.fault ≡ self.old.fault }
        ensures sound { self.new.is_spoilt ≡ self.old.is_spoilt }
    {
        match Remark::parse(text) {
            Some(remark) => self.remark(alloc, line, remark),
            None => self.script.obey(alloc, line, text, &mut io::sink()),
        }
    }

    /// Puts a remark on the newest node.
    fn remark(&mut self, alloc: Global, line: u64, remark: Remark<'_>) -> Result<(), Fault>
        ensures put { OnOk result (IsRemarked remark.entry self.old.script self.new.script) }
        ensures bad { IfErr result (λ fault. IsBad fault → fault ≡ BadCommand line) }
        ensures bare { self.old.script.stack.items ≡ [] → result ≡ Err (BadCommand line) }
        ensures fault { self.new.fault ≡ self.old.fault }
        ensures sound { self.new.is_spoilt ≡ self.old.is_spoilt }
    {
        let Some(mut node) = self.script.stack.pop() else {
            return Err(Fault::BadCommand { line });
        };
        if !remark.put_on(alloc, &mut node)? {
            return Err(Fault::BadCommand { line });
        }
        self.script.stack.push(node)?;
        Ok(())
    }

    /// Prints what is looked at.
    fn look<W: Write>(&mut self, alloc: Global, look: Look, out: &mut W) -> Result<(), Fault>
        ensures tree { IfSome self.old.script.tree
            (λ old. IsSomeAnd self.new.script.tree (λ new. plain new ≡ plain old)) }
        ensures none { IsNone self.old.script.tree → IsNone self.new.script.tree }
        ensures stack { self.new.script.stack.items ≡ self.old.script.stack.items }
        ensures queue { self.new.script.queue.items ≡ self.old.script.queue.items }
        ensures fault { self.new.fault ≡ self.old.fault }
        ensures sound { self.new.is_spoilt ≡ self.old.is_spoilt }
    {
        let Some(tree) = self.script.tree.take() else {
            return print(out, "no tree\n");
        };
        match numbered(tree) {
            Ok(tree) => {
                let answers = answers(alloc, tree.root(), look);
                self.script.tree = Some(tree.into());
                print(out, answers?.as_str())
            }
            Err(tree) => {
                self.script.tree = Some(tree);
                Err(Fault::Overflow)
            }
        }
    }
}

impl Obey for Looker {
    fn obey_line<W: Write>(
        &mut self,
        alloc: Global,
        line: u64,
        text: &str,
        out: &mut W,
    ) -> Result<(), Fault>
        ensures first { IfSome self.old.fault (λ fault. self.new.fault ≡ Some fault) }
        ensures queue { (look : Look) → IsLookLine look text.now
            → self.new.script.queue.items ≡ self.old.script.queue.items }
        ensures anew { text.now ≡ codes "new" → (self.new.script.stack.items ≡ [])
            × IsNone self.new.script.tree × (self.new.script.queue.items ≡ []) × (self.new.is_spoilt ≡ false) }
    {
        if let Some(look) = Look::parse(text) {
            return self.look(alloc, look, out);
        }
        if let Some(label) = text.strip_prefix("mark ") {
            print(out, "#")?;
            print(out, label)?;
            return print(out, "\n");
        }
        if text == "new" {
            self.start_anew(alloc);
            return Ok(());
        }
        self.build(alloc, line, text)
    }
}

/// Numbers the tree for file 1, unless it is numbered. The tree comes back as it was if it has more nodes than there
/// are numbers.
pub fn numbered(tree: ScriptTree) -> Result<NumberedTree, ScriptTree>
    ensures plain { IfOk result (λ new. plain new ≡ plain tree) }
    ensures kept { IsNumbered tree → IfOk result (λ same. same ≡ tree) }
    ensures back { IfErr result (λ same. same ≡ tree) }
{
    let tree = match tree.into_numbered() {
        Ok(tree) => return Ok(tree),
        Err(tree) => tree,
    };
    tree.number(FileId::FIRST, Span::FULL)?.into_numbered()
}

/// The answers about a numbered tree.
fn answers(alloc: Global, tree: &SyntaxNode, look: Look) -> Result<String, AllocError> {
    let mut out = Answers::new(alloc, tree);
    match look {
        Look::Views => views(&mut out, tree)?,
        Look::Walks => {
            walks(&mut out, tree)?;
            diagnostics(&mut out, tree)?;
        }
        Look::Blank => blanks(&mut out),
    }
    out.finish()
}

/// Writes a text.
fn print<W: Write>(out: &mut W, text: &str) -> Result<(), Fault>
    ensures { IfErr result IsWriteFault }
{
    out.write_all(text.as_bytes()).map_err(Fault::of_writing)
}
