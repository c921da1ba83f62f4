//! The correction of what an inner node keeps about its children, after some of them were exchanged.
ghost use Rattle.std.specs.Prelude.{◌≡◌, ◌+◌, ◌<◌, ◌≤◌, ◌||◌, ◌++◌, ◌↔◌, true, length, take, drop, slice_range, IsTrue};
ghost use Rattle.typst_node.specs.Text.{text_of_all};
ghost use Rattle.typst_node.specs.Count.{SumsFit};
ghost use Rattle.typst_node.specs.Diagnosis.{any_has_error, any_has_warning};
ghost use Rattle.typst_node.specs.View.{IsMeasured};
ghost use Rattle.typst_node.specs.Sums.{AreSums};
ghost use Rattle.typst_node.specs.Stale.{IsStale};

use crate::diagnosis::Diagnosis;
use crate::node::inner::Sums;
use crate::node::{InnerNode, SyntaxNode};

/// A change of children: those from the index `from` up to `to` go, and `many` come in their place.
#[derive(Drop)]
pub(super) struct Change {
    pub(super) from: usize,
    pub(super) to: usize,
    pub(super) many: usize,
    // The sums of the children that go, and of those that come.
    pub(super) gone: Sums,
    pub(super) added: Sums,
}

/// The joined diagnosis of the nodes.
fn diagnosis_of(nodes: &[SyntaxNode]) -> Diagnosis
    ensures errors { result.errors ≡ any_has_error nodes.now }
    ensures warnings { result.warnings ≡ any_has_warning nodes.now }
{
    let mut diagnosis = Diagnosis {
        errors: false,
        warnings: false,
    };
    for node in nodes {
        diagnosis = diagnosis.or(node.diagnosis());
    }
    diagnosis
}

/// Whether the added nodes hold each kind of entry that the gone nodes held.
fn is_covered(gone: Diagnosis, added: Diagnosis) -> bool
    ensures { IsTrue result ↔ ((gone.errors ≡ true → added.errors ≡ true)
        × (gone.warnings ≡ true → added.warnings ≡ true)) }
{
    (!gone.errors || added.errors) && (!gone.warnings || added.warnings)
}

/// The diagnosis of the children after a change. Before it, the diagnosis was `had`. It looks at the children only if
/// an entry may have gone.
#[tactic(auto, using(crate::proofs::Settled::had_or_added_all))]
fn diagnosis_after(children: &[SyntaxNode], had: Diagnosis, change: &Change) -> Diagnosis
    requires errors { had.errors ≡ (change.now.gone.diagnosis.errors || any_has_error
        (take change.now.from children.now ++ drop (change.now.from + change.now.many) children.now)) }
    requires warnings { had.warnings ≡ (change.now.gone.diagnosis.warnings || any_has_warning
        (take change.now.from children.now ++ drop (change.now.from + change.now.many) children.now)) }
    requires added { AreSums change.now.added (slice_range children.now change.now.from
        (change.now.from + change.now.many)) }
    ensures errors { result.errors ≡ any_has_error children.now }
    ensures warnings { result.warnings ≡ any_has_warning children.now }
{
    if is_covered(change.gone.diagnosis, change.added.diagnosis) {
        had.or(change.added.diagnosis)
    } else {
        diagnosis_of(children)
    }
}

impl InnerNode {
    /// Corrects the node count, the diagnosis and the ends after a change of the children.
    #[tactic(auto, using(crate::proofs::Opens::part_count, crate::proofs::Opens::part_text))]
    #[inline(never)]
    pub(super) fn settle(&mut self, change: &Change)
        requires window { change.now.from ≤ change.now.to }
        requires inside { change.now.from + change.now.many ≤ length self.old.children.items }
        requires stale { IsStale change.now.from change.now.to change.now.many change.now.gone self.old }
        requires added { AreSums change.now.added
            (slice_range self.old.children.items change.now.from (change.now.from + change.now.many)) }
        requires fits { SumsFit self.old.children.items }
        ensures measured { IsMeasured self.new }
        ensures upper { self.new.upper ≡ self.old.upper }
        ensures warnings { self.new.extras.warnings ≡ self.old.extras.warnings }
        ensures children { self.new.children ≡ self.old.children }
    {
        self.descendants = self.descendants - change.gone.descendants + change.added.descendants;
        let held = diagnosis_after(&self.children, self.extras.diagnosis(), change);
        self.extras.set_diagnosis(held);
        self.extras.settle_ends(&self.children, change);
    }
}
