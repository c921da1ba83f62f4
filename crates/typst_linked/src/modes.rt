//! The mode of the parser after a node.
ghost use Rattle.std.specs.Prelude.{◌≡◌, Option, unwrap_or};
ghost use Rattle.typst_base.specs.declared.mode.SyntaxMode.{SyntaxMode};
ghost use Rattle.typst_linked.specs.Siblings.{before_it, sibling_kind};
ghost use Rattle.typst_linked.specs.Modes.{mode_behind, mode_behind_parent, mode_from};

use crate::node::LinkedNode;
use typst_base::{ModeAfter, SyntaxKind, SyntaxMode};

/// # Modes
///
/// They take no memory.
impl<'a> LinkedNode<'a> {
    /// The mode in which the text directly after this node is read, or `None` if no mode is known.
    ///
    /// It follows from the node's kind by the rule in [`SyntaxKind::mode_after`]. It takes at most one step for each
    /// ancestor.
    pub fn mode_after(&self) -> Option<SyntaxMode>
        ensures { result ≡ mode_behind self.now }
    {
        if let Some(mode) = self.own_mode() {
            return mode;
        }
        self.parent()?.mode_after()
    }

    /// The mode in which the text directly after the parent is read, or `None` for a root.
    pub fn parent_mode(&self) -> Option<SyntaxMode>
        ensures { result ≡ mode_behind_parent self.now }
    {
        let parent = self.parent()?;
        parent.mode_after()
    }

    /// The mode after this node, or `None` if the node takes the mode after its parent.
    fn own_mode(&self) -> Option<Option<SyntaxMode>>
        ensures { (outer : Option SyntaxMode) → unwrap_or result outer ≡ mode_from outer self.now }
    {
        match self.get().kind().mode_after() {
            ModeAfter::Known(mode) => Some(Some(mode)),
            ModeAfter::Parent => None,
            ModeAfter::None => Some(None),
            ModeAfter::Text if self.parent_kind() == Some(SyntaxKind::Raw) => Some(None),
            ModeAfter::Text => Some(Some(SyntaxMode::Markup)),
            ModeAfter::RawDelim if self.index() == 0 => Some(None),
            ModeAfter::Dollar if self.index() == 0 => Some(Some(SyntaxMode::Math)),
            ModeAfter::Space if self.parent_kind() == Some(SyntaxKind::Equation) => {
                Some(Some(SyntaxMode::Math))
            }
            ModeAfter::Embeddable if self.kind_before() == Some(SyntaxKind::Hash) => {
                Some(Some(SyntaxMode::Code))
            }
            ModeAfter::RawDelim | ModeAfter::Dollar | ModeAfter::Space | ModeAfter::Embeddable => {
                None
            }
        }
    }

    /// The kind of the sibling directly before this node, trivia or not.
    fn kind_before(&self) -> Option<SyntaxKind>
        ensures { result ≡ sibling_kind before_it self.now }
    {
        let siblings = self.siblings();
        let before = self.index().checked_sub(1)?;
        Some(siblings[before].kind())
    }
}
