//! Trees of events.
ghost use Rattle.std.specs.Prelude.{◌≡◌, ◌≢◌, [], IfOk, OnOk, IsErrOf};
ghost use Rattle.typst_base.specs.declared.kind.SyntaxKind.TheVariants.{Error};
ghost use Rattle.typst_node.specs.Count.{SumsFit};
ghost use Rattle.typst_node.specs.declared.node.build.InnerError.TheVariants.{Overflow};
ghost use Rattle.typst_parser.specs.Events.{CanBeCut};
ghost use Rattle.typst_parser.specs.Growth.{grown, node_tree, proper, with_event};

use crate::event::Event;
use crate::message::error_of;
use crate::warning::{warned_by, warning_for};
use std::alloc::Global;
use typst_base::SyntaxKind;
use typst_node::{InnerError, SyntaxNode};

/// The kind of a leaf or a node. No row makes one of the kind `Error`.
fn proper(kind: SyntaxKind) -> SyntaxKind
    ensures kind { result ≡ proper kind }
    ensures leaf { result ≢ Error }
{
    if kind.is_error() {
        SyntaxKind::Text
    } else {
        kind
    }
}

/// The node of a kind over these children, with its warning.
fn node_of(
    alloc: Global,
    kind: SyntaxKind,
    children: Vec<SyntaxNode>,
) -> Result<SyntaxNode, InnerError>
    requires { kind ≢ Error }
    ensures node { IfOk result (λ t. t ≡ node_tree kind children.items) }
    ensures overflow { IsErrOf result Overflow → ¬ (SumsFit children.items) }
{
    let warning = warning_for(kind, &children);
    let node = SyntaxNode::inner(alloc, kind, children)?;
    Ok(warned_by(alloc, warning, node)?)
}

/// Makes the last trees the children of a node.
fn join(
    alloc: Global,
    kind: SyntaxKind,
    children: usize,
    trees: &mut Vec<SyntaxNode>,
) -> Result<(), InnerError>
    ensures trees { OnOk result (trees.new.items ≡ with_event (Event.Node kind children) [] trees.old.items) }
    ensures overflow { IsErrOf result Overflow → ¬ (SumsFit (with_event (Event.Node kind children) [] trees.old.items)) }
{
    let at = trees.len().saturating_sub(children);
    let children = trees.split_off(at)?;
    trees.push(node_of(alloc, proper(kind), children)?)?;
    Ok(())
}

/// Adds the tree of an event with its piece of the text.
fn add_tree(
    alloc: Global,
    event: Event,
    piece: &str,
    trees: &mut Vec<SyntaxNode>,
) -> Result<(), InnerError>
    ensures trees { OnOk result (trees.new.items ≡ with_event event piece.now trees.old.items) }
    ensures overflow { IsErrOf result Overflow → ¬ (SumsFit (with_event event piece.now trees.old.items)) }
{
    match event {
        Event::Leaf { kind, .. } => trees.push(SyntaxNode::leaf(alloc, proper(kind), piece)?)?,
        Event::Error { fault, .. } => trees.push(error_of(alloc, fault, piece)?)?,
        Event::Node { kind, children } => join(alloc, kind, children, trees)?,
    }
    Ok(())
}

/// The trees of events, which take their pieces from the front of the text. `Overflow` comes only if the bytes or the
/// nodes of the trees are more than a usize counts, and `Memory` only if memory is refused.
///
/// It takes time in proportion to the events and to the text.
pub(crate) fn grow(
    alloc: Global,
    text: &str,
    events: &[Event],
) -> Result<Vec<SyntaxNode>, InnerError>
    requires { CanBeCut text.now events.now }
    ensures trees { IfOk result (λ trees. trees.items ≡ grown text.now events.now) }
    ensures overflow { IsErrOf result Overflow → ¬ (SumsFit (grown text.now events.now)) }
{
    let mut trees = Vec::with_capacity(alloc, events.len())?;
    let mut rest = text;
    for event in events {
        let (piece, more) = rest.split_at(event.len());
        add_tree(alloc, *event, piece, &mut trees)?;
        rest = more;
    }
    Ok(trees)
}
