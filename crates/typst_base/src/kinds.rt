//! The kinds of a set, one after the other.
ghost use Rattle.std.specs.Prelude.{◌≡◌, ◌≤◌, IfSome, Some, length};
ghost use Rattle.std.specs.Iterator.{UpTo, YieldsFirst, at_most, item_count};
ghost use Rattle.std.specs.Iterator.SizeHint.{IsWithinCount};
ghost use Rattle.typst_base.specs.KindList.{kinds_in};

use crate::kind::SyntaxKind;
use crate::set::SyntaxSet;
use std::iter::FusedIterator;
use std::marker::Model;

/// The kinds of a set, in the order of their numbers.
///
/// The iterator takes no memory, and each step takes constant time.
#[derive(Clone, Debug, Drop)]
pub struct SyntaxKinds {
    left: SyntaxSet,
}

impl Model for SyntaxKinds {
    ghost use Rattle.std.specs.Prelude.{List};
    ghost use Rattle.typst_base.specs.KindList.{kinds_in};
    ghost use Rattle.typst_base.specs.declared.kind.SyntaxKind.{SyntaxKind};

    ghost Value = { List SyntaxKind };

    ghost view = { λ kinds. kinds_in kinds.left };
}

impl SyntaxSet {
    /// The kinds of the set, in the order of their numbers.
    #[tactic(auto, using(crate::proofs::KindListLemmas::at_most_137_kinds))]
    pub fn kinds(self) -> SyntaxKinds
        ensures all { result ≡ kinds_in self }
        ensures few { length result ≤ 137 }
    {
        SyntaxKinds { left: self }
    }
}

impl IntoIterator for SyntaxSet {
    type Item = SyntaxKind;

    type IntoIter = SyntaxKinds;

    ghost into_iter_gives = { λ set kinds. kinds ≡ kinds_in set };

    fn into_iter(self) -> SyntaxKinds {
        self.kinds()
    }
}

impl Iterator for SyntaxKinds {
    type Item = SyntaxKind;

    ghost next_gives = { YieldsFirst (λ left. left) };

    ghost remaining = { item_count (λ left. left) };

    fn next(&mut self) -> Option<SyntaxKind> {
        let kind = self.left.first()?;
        self.left = self.left.remove(kind);
        Some(kind)
    }

    fn size_hint(&self) -> (usize, Option<usize>)
        ensures lower { IsWithinCount result.0 (at_most (length self.now)) }
        ensures upper { IfSome result.1 (UpTo (at_most (length self.now))) }
        ensures exact_lower { result.0 ≡ length self.now }
        ensures exact_upper { result.1 ≡ Some (length self.now) }
    {
        let left = self.left.len();
        (left, Some(left))
    }
}

impl ExactSizeIterator for SyntaxKinds {
    fn len(&self) -> usize {
        self.left.len()
    }
}

impl FusedIterator for SyntaxKinds {}
