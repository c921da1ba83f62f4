//! Runs of replacements and searches on one tree.
ghost use Rattle.std.specs.Prelude.{◌≡◌, ◌≢◌, ◌↔◌, ℕ, List, Some, IsTrue, MatchOption};
ghost use Rattle.typst_linked.specs.Search.{with_number};
ghost use Rattle.typst_node.specs.Labels.{number};
ghost use Rattle.typst_node.specs.Numbered.{IsNumbered, IsNumberedFor};
ghost use Rattle.typst_node.specs.Outside.{KeepsLabel};
ghost use Rattle.typst_node.specs.Paths.{IsPath, tree_at};
ghost use Rattle.typst_node.specs.Plain.{plain};
ghost use Rattle.typst_tree.specs.Step.{Step};
ghost use Rattle.typst_tree.specs.Found.{TellsPlace};
ghost use Rattle.typst_tree.specs.Kept.{StaysThrough};
ghost use Rattle.typst_tree.specs.Reads.{ReadsAs};
ghost use Rattle.typst_tree.specs.Run.{Answers, Run, edited_by};
ghost use Rattle.typst_tree.specs.declared.session.Request.TheVariants.{Find, Replace};
ghost use Rattle.typst_tree.specs.declared.session.Slot.TheVariants.{Told};

use std::alloc::Global;
use std::mem;
use std::ops::Range;
use typst_base::Span;
use typst_linked::{LinkedNode, Looks};
use typst_node::{Renumbered, ReplaceError, SyntaxNode};

/// What is asked of a tree.
#[derive(Debug, Drop)]
pub enum Request {
    /// Replace a range of the children of the inner node that the path leads to.
    Replace {
        /// Child indices from the root down.
        path: Vec<usize>,
        /// The range, in child indices of the edited node.
        range: Range<usize>,
        /// The nodes that replace them. They are dropped unless the reply is `Renumbered`.
        replacement: Vec<SyntaxNode>,
    },
    /// Find the node with this span.
    Find(Span),
}

/// What became of a request.
#[derive(Clone, Debug, PartialEq, Eq, Drop)]
pub enum Reply {
    /// The children were replaced, and this window was numbered anew.
    Renumbered(Renumbered),
    /// The path leads to no inner node, or the range doesn't fit its children. Nothing changed.
    Misfit,
    /// The replacement was refused. Nothing changed.
    Refused(ReplaceError),
    /// A node with the span.
    Found {
        /// Child indices from the root down.
        path: Vec<usize>,
        /// Where its text begins, in bytes.
        offset: usize,
        /// How many numbers the search read.
        looks: u64,
    },
    /// There is no node with the span.
    NotFound {
        /// How many numbers the search read.
        looks: u64,
    },
    /// The search was refused memory, or the path of its answer was. Nothing changed.
    NoMemory,
}

/// A request, or the reply to it.
#[derive(Debug, Drop)]
pub enum Slot {
    /// A request that waits.
    Ask(Request),
    /// The reply to a request that was served.
    Told(Reply),
}

impl Slot {
    /// The reply, or `None` as long as the request waits.
    pub fn reply(&self) -> Option<&Reply>
        ensures { MatchOption result ((reply : _) → self.now ≢ Told reply) (λ reply. self.now ≡ Told reply.now) }
    {
        match self {
            Slot::Ask(_) => None,
            Slot::Told(reply) => Some(reply),
        }
    }
}

/// Serves the requests in order. Each `Ask` becomes the `Told` of its reply, and a `Told` stays as it is.
///
/// A refused replacement doesn't end the run. Memory is taken from `alloc`; if it is refused, a reply says so. The test
/// of the condition is `SyntaxNode::is_numbered`.
pub fn run(alloc: Global, root: &mut SyntaxNode, slots: &mut [Slot])
    requires numbered_ask_is_numbered { IsNumbered root.old }
    ensures run { Run root.old slots.old slots.new root.new }
    ensures numbered { IsNumberedFor root.old.label.span.file root.new }
    ensures plain { plain root.new ≡ plain (edited_by slots.old slots.new root.old) }
    ensures reads { ReadsAs root.new (edited_by slots.old slots.new root.old) }
    ensures kept { (p q : List ℕ) → IsPath p root.old
        → StaysThrough root.old slots.old slots.new root.new p q
        → KeepsLabel p q root.old root.new }
    ensures found_again { (p q : List ℕ) → IsPath p root.old
        → StaysThrough root.old slots.old slots.new root.new p q
        → with_number (number (tree_at p root.old).label) root.new ≡ Some q }
{
    for slot in slots.iter_mut() {
        answer(alloc, root, slot);
    }
}

/// Serves one slot.
fn answer(alloc: Global, root: &mut SyntaxNode, slot: &mut Slot)
    requires { IsNumbered root.old }
    ensures { Answers root.old slot.old slot.new root.new }
{
    if let Slot::Ask(request) = slot {
        let reply = serve(alloc, root, request);
        *slot = Slot::Told(reply);
    }
}

/// Serves one request: changes the tree, and answers the reply. The nodes of a replacement are taken out of the request.
#[tactic(auto, using(crate::proofs::Runs::step_numbered))]
pub(crate) fn serve(alloc: Global, root: &mut SyntaxNode, request: &mut Request) -> Reply
    requires { IsNumbered root.old }
    ensures step { Step root.old request.old result root.new }
    ensures numbered { IsNumberedFor root.old.label.span.file root.new }
{
    match request {
        Request::Replace {
            path,
            range,
            replacement,
        } => {
            let replacement = mem::replace(replacement, Vec::new(alloc));
            replace(alloc, root, path, range.start..range.end, replacement)
        }
        Request::Find(span) => find(alloc, root, *span),
    }
}

/// Serves a replacement: changes the tree, and answers the reply.
fn replace(
    alloc: Global,
    root: &mut SyntaxNode,
    path: &Vec<usize>,
    range: Range<usize>,
    replacement: Vec<SyntaxNode>,
) -> Reply
    requires { IsNumbered root.old }
    ensures { Step root.old (Replace path.now range replacement) result root.new }
{
    match root.try_replace_at(alloc, path, range, replacement) {
        Some(Ok(renumbered)) => Reply::Renumbered(renumbered),
        Some(Err(error)) => Reply::Refused(error),
        None => Reply::Misfit,
    }
}

/// Serves a search.
pub(crate) fn find(alloc: Global, root: &SyntaxNode, span: Span) -> Reply
    ensures { Step root.now (Find span) result root.now }
{
    let mut looks = Looks::new();
    let start = LinkedNode::new(root);
    match start.find_counted(alloc, span, &mut looks) {
        Ok(found) => found_reply(alloc, found, looks.count()),
        Err(_) => Reply::NoMemory,
    }
}

/// The reply that tells where a node was found.
fn found_reply(alloc: Global, found: Option<LinkedNode>, looks: u64) -> Reply
    ensures { TellsPlace found.entry looks result }
{
    let Some(found) = found else {
        return Reply::NotFound { looks };
    };
    let offset = found.offset();
    match found.path(alloc) {
        Ok(path) => Reply::Found {
            path,
            offset,
            looks,
        },
        Err(_) => Reply::NoMemory,
    }
}
