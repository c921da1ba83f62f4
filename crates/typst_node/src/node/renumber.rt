//! The renumbering of a window of children.
ghost use Rattle.std.specs.Prelude.{◌≡◌, ◌+◌, ◌*◌, ◌^◌, ◌≤◌, map, length, take, drop, slice_range};
ghost use Rattle.typst_node.specs.Tree.{forest};
ghost use Rattle.typst_node.specs.Count.{count_of_all};
ghost use Rattle.typst_node.specs.Plain.{plain};
ghost use Rattle.typst_node.specs.View.{IsMeasured};
ghost use Rattle.typst_node.specs.Interval.{IsWithin};

use crate::node::InnerNode;
use crate::node::number::number_all;
use crate::node::window::Numbering;
use std::ops::Range;
use typst_base::FileId;

impl InnerNode {
    /// Numbers the children of a window anew, from the start of the numbering on. Each child gets its node count times
    /// the stride.
    #[inline(always)]
    pub(super) fn renumber(&mut self, id: FileId, window: Range<usize>, numbering: Numbering)
        requires measured { IsMeasured self.old }
        requires window { window.start ≤ window.end }
        requires inside { window.end ≤ length self.old.children.items }
        requires low { 2 ≤ numbering.start }
        requires positive { 1 ≤ numbering.stride }
        requires high { numbering.start
            + numbering.stride * count_of_all (slice_range self.old.children.items window.start window.end) ≤ 2 ^ 47 }
        ensures measured { IsMeasured self.new }
        ensures upper { self.new.upper ≡ self.old.upper }
        ensures warnings { self.new.extras.warnings ≡ self.old.extras.warnings }
        ensures before { take window.start self.new.children.items ≡ take window.start self.old.children.items }
        ensures behind { drop window.end self.new.children.items ≡ drop window.end self.old.children.items }
        ensures plain { map plain self.new.children.items ≡ map plain self.old.children.items }
        ensures within { IsWithin id numbering.start (numbering.start
            + numbering.stride * count_of_all (slice_range self.old.children.items window.start window.end))
            (forest (slice_range self.new.children.items window.start window.end)) }
    {
        let nodes = &mut self.children[window.start..window.end];
        number_all(nodes, id, numbering.start, numbering.stride);
    }
}
