//! What an inner node keeps about its children.
ghost use Rattle.std.specs.Prelude.{◌≡◌, ◌↔◌, [], length, MatchOption, IfSome, IfOk, OnOk, IsErrOf};
ghost use Rattle.typst_node.specs.Text.{text};
ghost use Rattle.typst_node.specs.Count.{count, SumsFit};
ghost use Rattle.typst_node.specs.Diagnosis.{has_error, has_warning};
ghost use Rattle.typst_node.specs.Sums.{AreSums};
ghost use Rattle.typst_node.specs.ChildEnds.{ends_from, AreEnds};
ghost use Rattle.typst_node.specs.declared.node.build.InnerError.TheVariants.{Overflow};

use crate::diagnosis::Diagnosis;
use crate::ends::low;
use crate::node::build::InnerError;
use crate::node::child_ends::FEW;
use crate::node::extras::Extras;
use crate::node::{Node, SyntaxNode};
use crate::short_text::len_in;
use std::alloc::{AllocError, Global};

/// The sums of a tree, or of several adjacent trees.
#[derive(Drop)]
pub(crate) struct Sums {
    // The length of the text in bytes.
    pub(crate) len: usize,
    // The number of nodes.
    pub(crate) descendants: usize,
    pub(crate) diagnosis: Diagnosis,
}

impl SyntaxNode {
    /// The length, the node count and the diagnosis, all read by one match.
    #[inline(always)]
    pub(crate) fn measures(&self) -> Sums
        ensures len { result.len ≡ length (text self.now) }
        ensures descendants { result.descendants ≡ count self.now }
        ensures errors { result.diagnosis.errors ≡ has_error self.now }
        ensures warnings { result.diagnosis.warnings ≡ has_warning self.now }
    {
        let (len, descendants, errors, warnings) = match &self.node {
            Node::Short(_, len, bytes) => (len_in(*len, bytes), 1, false, false),
            Node::Long(_, text) => (text.len(), 1, false, false),
            Node::Leaf(_, leaf) => (leaf.text.len(), 1, false, !leaf.warnings.is_empty()),
            Node::Inner(_, len, inner) => {
                let below = inner.extras.diagnosis();
                let warned = !inner.extras.warnings().is_empty();
                (
                    *len,
                    inner.descendants,
                    below.errors,
                    below.warnings || warned,
                )
            }
            Node::Error(error) => (error.text.len(), 1, true, !error.warnings.is_empty()),
        };
        Sums {
            len,
            descendants,
            diagnosis: Diagnosis { errors, warnings },
        }
    }
}

/// Adds up the children. It answers `None` if the sums, with the parent counted in, don't fit a usize.
#[inline(always)]
pub(crate) fn sums_of(children: &[SyntaxNode]) -> Option<Sums>
    ensures { MatchOption result (¬ (SumsFit children.now))
        (λ sums. SumsFit children.now × AreSums sums children.now) }
{
    let mut len = 0usize;
    let mut descendants = 1usize;
    let mut diagnosis = Diagnosis {
        errors: false,
        warnings: false,
    };
    for child in children {
        let own = child.measures();
        len = len.checked_add(own.len)?;
        descendants = descendants.checked_add(own.descendants)?;
        diagnosis = diagnosis.or(own.diagnosis);
    }
    Some(Sums {
        len,
        descendants: descendants - 1,
        diagnosis,
    })
}

/// Adds up the children, and writes the end of each text. It answers `None` if the sums, with the parent counted in,
/// don't fit a usize.
pub(super) fn measure(children: &[SyntaxNode], ends: &mut [u32]) -> Option<Sums>
    requires { length ends.old ≡ length children.now }
    ensures sums { MatchOption result (¬ (SumsFit children.now))
        (λ sums. SumsFit children.now × AreSums sums children.now) }
    ensures ends { IfSome result (λ _. ends.new ≡ ends_from 0 children.now) }
{
    let mut len = 0usize;
    let mut descendants = 1usize;
    let mut diagnosis = Diagnosis {
        errors: false,
        warnings: false,
    };
    for i in 0..children.len() {
        let own = children[i].measures();
        len = len.checked_add(own.len)?;
        descendants = descendants.checked_add(own.descendants)?;
        diagnosis = diagnosis.or(own.diagnosis);
        ends[i] = low(len);
    }
    Some(Sums {
        len,
        descendants: descendants - 1,
        diagnosis,
    })
}

/// A list of zeros.
fn zeros(alloc: Global, count: usize) -> Result<Vec<u32>, AllocError>
    ensures { IfOk result (λ v. length v.items ≡ count) }
{
    let mut zeros = Vec::with_capacity(alloc, count)?;
    zeros.resize(count, 0)?;
    Ok(zeros)
}

/// The sums of the children and the ends of their texts, in one walk. For few children it gives the sums alone. If
/// memory is refused, the sums alone tell which error it is.
pub(crate) fn measured(alloc: Global, children: &[SyntaxNode]) -> Result<(Sums, Extras), InnerError>
    ensures sums { IfOk result (λ both. AreSums both.0 children.now) }
    ensures diagnosis { IfOk result (λ both. both.1.diagnosis ≡ both.0.diagnosis) }
    ensures ends { IfOk result (λ both. AreEnds both.1.ends children.now) }
    ensures warnings { IfOk result (λ both. both.1.warnings ≡ []) }
    ensures fits { OnOk result (SumsFit children.now) }
    ensures overflow { IsErrOf result Overflow ↔ ¬ (SumsFit children.now) }
{
    let count = children.len();
    if count <= FEW {
        let sums = sums_of(children).ok_or(InnerError::Overflow)?;
        let extras = Extras::plain(sums.diagnosis);
        return Ok((sums, extras));
    }
    let Ok(mut ends) = zeros(alloc, count) else {
        return Err(match sums_of(children) {
            Some(_) => InnerError::Memory,
            None => InnerError::Overflow,
        });
    };
    let sums = measure(children, &mut ends).ok_or(InnerError::Overflow)?;
    let extras = Extras::with_ends(alloc, sums.diagnosis, ends)?;
    Ok((sums, extras))
}
