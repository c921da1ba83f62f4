//! Calls that make a value.
use crate::end::{End, Fault, Stop};
use crate::requests::Requests;
use crate::trees::{ALL_FORMS, ELEVEN, LETTERS};
use std::alloc::Global;
use typst_base::{RangeMapper, SyntaxKind};
use typst_drawn::{drawn, drawn_all};
use typst_node::SyntaxNode;

/// A call that makes a node.
#[derive(Clone, Copy)]
pub enum Making {
    /// `SyntaxNode::leaf` of a text that the node holds.
    Leaf,
    /// `SyntaxNode::leaf` of a text that is too long for that.
    LongLeaf,
    /// `SyntaxNode::error`
    Error,
    /// `SyntaxNode::inner`
    Inner,
    /// `SyntaxNode::inner` over eleven letters.
    InnerOfEleven,
    /// The clone of a node.
    Clone,
    /// The clone of a node of eleven letters.
    CloneOfEleven,
}

/// Two leaves.
const TWO: &str = "Text:ab Text:c";

impl Making {
    /// Makes the call. Its answer must be that of the same call before.
    pub fn run(self, alloc: Global, requests: Requests) -> Result<End, Stop> {
        let lent = drawn(alloc, self.lent())?;
        let kept = lent.clone()?;
        let made_before = self.make(alloc, &lent, self.parts(alloc)?)?;
        let parts = self.parts(alloc)?;
        requests.make(alloc)?;
        Ok(match self.make(alloc, &lent, parts) {
            Ok(made) => End::answered(made == made_before),
            Err(fault) => End::failed(fault, lent == kept),
        })
    }

    /// The drawing of the nodes that the call reads.
    fn lent(self) -> &'static str {
        match self {
            Making::CloneOfEleven => ELEVEN,
            _ => ALL_FORMS,
        }
    }

    /// The parts of an inner node: two leaves, or eleven letters.
    fn parts(self, alloc: Global) -> Result<Vec<SyntaxNode>, Stop> {
        let drawing = match self {
            Making::InnerOfEleven => LETTERS,
            _ => TWO,
        };
        Ok(drawn_all(alloc, drawing)?)
    }

    /// Makes the node.
    fn make(
        self,
        alloc: Global,
        lent: &SyntaxNode,
        parts: Vec<SyntaxNode>,
    ) -> Result<SyntaxNode, Fault> {
        match self {
            Making::Leaf => Ok(SyntaxNode::leaf(alloc, SyntaxKind::Text, "ab")?),
            Making::LongLeaf => Ok(SyntaxNode::leaf(
                alloc,
                SyntaxKind::Text,
                "a text of 22 bytes....",
            )?),
            Making::Error => Ok(SyntaxNode::error(alloc, "m", "#")?),
            Making::Inner | Making::InnerOfEleven => {
                Ok(SyntaxNode::inner(alloc, SyntaxKind::Markup, parts)?)
            }
            Making::Clone | Making::CloneOfEleven => Ok(lent.clone()?),
        }
    }
}

/// `RangeMapper::new` over two segments.
pub fn make_mapper(alloc: Global, requests: Requests) -> Result<End, Stop> {
    let segments = [2..5, 9..10];
    requests.make(alloc)?;
    Ok(match RangeMapper::new(alloc, &segments) {
        Ok(mapper) => End::answered(mapper.total_len() == 4 && mapper.map(2..4) == (4..10)),
        Err(error) => End::failed(Fault::from(error), segments == [2..5, 9..10]),
    })
}

/// `SyntaxNode::wrap` over eleven letters.
pub fn wrap(alloc: Global, requests: Requests) -> Result<End, Stop> {
    let mut parts = drawn_all(alloc, LETTERS)?;
    let kept = drawn_all(alloc, LETTERS)?;
    let wanted = SyntaxNode::inner(alloc, SyntaxKind::Markup, drawn_all(alloc, LETTERS)?)?;
    requests.make(alloc)?;
    Ok(
        match SyntaxNode::wrap(alloc, SyntaxKind::Markup, &mut parts) {
            Ok(made) => End::answered(made == wanted && parts.is_empty()),
            Err(error) => End::failed(Fault::from(error), parts == kept),
        },
    )
}

/// The clone of a diagnostic with a hint.
pub fn clone_diagnostic(alloc: Global, requests: Requests) -> Result<End, Stop> {
    let (mut errors, _) = drawn(alloc, ALL_FORMS)?.errors_and_warnings(alloc)?;
    let lent = errors.pop().ok_or(Stop::Early)?;
    let kept = lent.clone()?;
    requests.make(alloc)?;
    Ok(match lent.clone() {
        Ok(copy) => End::answered(copy == kept),
        Err(error) => End::failed(Fault::from(error), lent == kept),
    })
}
