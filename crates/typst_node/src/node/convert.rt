//! Nodes of another kind, and errors in place of nodes.
ghost use Rattle.std.specs.Prelude.{◌≡◌, ◌≢◌, ◌&&◌, [], map, option_to_list, string_bytes, IfOk, OnErr, OnOk};
ghost use Rattle.typst_base.specs.declared.kind.SyntaxKind.TheVariants.{Error};
ghost use Rattle.typst_base.specs.KindClasses.{is_keyword_kind};
ghost use Rattle.typst_node.specs.Tree.{kind_of};
ghost use Rattle.typst_node.specs.Diagnosis.{is_error};
ghost use Rattle.typst_node.specs.Text.{text};
ghost use Rattle.typst_node.specs.Converted.{as_error, as_expected, expected_message, keyword_hints, keyword_message, of_kind, unexpected_message, wants_name};
ghost use Rattle.typst_node.specs.Hints.{error_tree, hinted};
ghost use Rattle.typst_node.specs.View.{hint_text};

use crate::node::{Hint, Node, SyntaxNode};
use std::alloc::{AllocError, Global};
use typst_base::SyntaxKind;

/// # Conversions
///
/// These calls change the node in place. If memory is refused, nothing has changed.
impl SyntaxNode {
    /// Gives the node another kind. Its text or its children, its span and its warnings stay.
    ///
    /// Neither the old nor the new kind is `Error`. The test of this is `SyntaxKind::is_error`. It takes no memory.
    pub fn convert_to_kind(&mut self, kind: SyntaxKind)
        requires node_not_error_ask_is_error { kind_of self.old.label.content ≢ Error }
        requires kind_not_error_ask_is_error { kind ≢ Error }
        ensures { self.new ≡ of_kind kind self.old }
    {
        match &mut self.node {
            Node::Short(old, ..) => *old = kind,
            Node::Long(old, _) => *old = kind,
            Node::Leaf(old, _) => *old = kind,
            Node::Inner(old, _, _) => *old = kind,
            Node::Error(_) => unreachable!(),
        }
    }

    /// Replaces the node by a detached error with a copy of the message. The error's text is the node's whole text. The
    /// node's warnings and children go. An error stays as it is.
    pub fn convert_to_error(&mut self, alloc: Global, message: &str) -> Result<(), AllocError>
        ensures ok { OnOk result (self.new ≡ as_error message.now [] self.old) }
        ensures err { OnErr result (self.new ≡ self.old) }
    {
        if self.is_error() {
            return Ok(());
        }
        let message = String::from_str(alloc, message)?;
        self.become_error(alloc, message, None)
    }

    /// Replaces the node by an error that says what was expected and what kind of node was found. It works as
    /// `convert_to_error` does. If an identifier or a pattern was expected and the node is a keyword, a hint says that
    /// keywords aren't allowed there. An error stays as it is.
    pub fn expected(&mut self, alloc: Global, what: &str) -> Result<(), AllocError>
        ensures ok { OnOk result (self.new ≡ as_expected what.now self.old) }
        ensures err { OnErr result (self.new ≡ self.old) }
    {
        if self.is_error() {
            return Ok(());
        }
        let message = say_expected(alloc, what, self.kind())?;
        let hint = self.keyword_hint(alloc, what)?;
        self.become_error(alloc, message, hint)
    }

    /// Replaces the node by an error that says that a node of its kind was not expected. It works as `convert_to_error`
    /// does. An error stays as it is.
    pub fn unexpected(&mut self, alloc: Global) -> Result<(), AllocError>
        ensures ok { OnOk result
            (self.new ≡ as_error (unexpected_message (kind_of self.old.label.content)) [] self.old) }
        ensures err { OnErr result (self.new ≡ self.old) }
    {
        if self.is_error() {
            return Ok(());
        }
        let name = self.kind().name();
        let message = format!(in alloc; "unexpected {name}")?;
        self.become_error(alloc, message, None)
    }

    /// Replaces the node by a detached error with the node's whole text.
    fn become_error(
        &mut self,
        alloc: Global,
        message: String,
        hint: Option<Hint>,
    ) -> Result<(), AllocError>
        ensures ok { OnOk result (self.new
            ≡ hinted (map hint_text (option_to_list hint)) (error_tree (string_bytes message) (text self.old))) }
        ensures err { OnErr result (self.new ≡ self.old) }
    {
        let mut error = SyntaxNode::error_of(alloc, message, self.full_text(alloc)?)?;
        if let Some(hint) = hint {
            error.push_hint(hint)?;
        }
        *self = error;
        Ok(())
    }

    /// Whether this is an error, with or without warnings.
    fn is_error(&self) -> bool
        ensures { result ≡ is_error self.now.label }
    {
        matches!(&self.node, Node::Error(_))
    }

    /// The hint at a keyword, if an identifier or a pattern was expected.
    #[tactic(auto, using(crate::proofs::ConvertedLemmas::no_hint, crate::proofs::ConvertedLemmas::one_hint))]
    fn keyword_hint(&self, alloc: Global, what: &str) -> Result<Option<Hint>, AllocError>
        ensures { IfOk result (λ hint. map hint_text (option_to_list hint)
            ≡ keyword_hints what.now (kind_of self.now.label.content) (text self.now)) }
    {
        if !misses_name(self.kind(), what) {
            return Ok(None);
        }
        let text = self.full_text(alloc)?;
        let text = say_keyword(alloc, text.as_str())?;
        Ok(Some(Hint {
            text,
            sub_range: None,
        }))
    }
}

/// Whether a name was expected in place of a keyword.
fn misses_name(kind: SyntaxKind, what: &str) -> bool
    ensures { result ≡ (is_keyword_kind kind && wants_name what.now) }
{
    kind.is_keyword() && (what == "identifier" || what == "pattern")
}

/// What was expected, and what was found.
fn say_expected(alloc: Global, what: &str, found: SyntaxKind) -> Result<String, AllocError>
    ensures { IfOk result (λ s. string_bytes s ≡ expected_message what.now found) }
{
    let name = found.name();
    format!(in alloc; "expected {what}, found {name}")
}

/// The suggestion for fixing a keyword that is used as a name.
fn say_keyword(alloc: Global, text: &str) -> Result<String, AllocError>
    ensures { IfOk result (λ s. string_bytes s ≡ keyword_message text.now) }
{
    format!(in alloc; "keyword `{text}` is not allowed as an identifier; try `{text}_` instead")
}
