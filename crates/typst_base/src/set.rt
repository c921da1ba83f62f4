//! Sets of kinds.
ghost use Rattle.std.specs.Prelude.{◌≡◌, ◌<◌, ◌||◌, ◌&&◌, IfNone, IfSome, IsTrue, false, length, not};
ghost use Rattle.typst_base.specs.Flags.{flags};
ghost use Rattle.typst_base.specs.KindList.{kinds_in};
ghost use Rattle.typst_base.specs.KindNumber.{number_of};
ghost use Rattle.typst_base.specs.KindSet.{holds, is_kind};
ghost use Rattle.typst_base.specs.declared.kind.SyntaxKind.{SyntaxKind};

use crate::kind::SyntaxKind;
use std::fmt;
use std::marker::Model;

/// A set of kinds, in two words.
///
/// A set takes no memory, and each call takes constant time.
#[derive(Clone, Copy)]
pub struct SyntaxSet {
    low: u128,
    high: u16,
}

impl Model for SyntaxSet {
    ghost use Rattle.std.specs.Prelude.{ℕ, ◌/◌, ◌%◌, ◌^◌, ◌+◌, ◌*◌, ◌<◌, List, Bool};
    ghost use Rattle.typst_base.specs.Flags.{flags, flags_number, high_word, low_word};

    ghost Value = { List Bool };

    ghost view = { λ a. flags 137 (a.high * 2 ^ 128 + a.low) };

    ghost invariant = { λ a. (a.low < 2 ^ 128) × (a.high < 2 ^ 9) };

    ghost inverse = { λ s. record { low = flags_number s % 2 ^ 128; high = flags_number s / 2 ^ 128 } };

    ghost inverse_ok = { λ a h. Prim.rw (low_word a.low a.high h.0 h.1, high_word a.low a.high h.0 h.1) };
}

/// # Making a set
impl SyntaxSet {
    /// The number of the first kind that the high word holds.
    const LOW_BITS: u32 = 128;

    /// The empty set.
    pub fn new() -> SyntaxSet
        ensures { (k : SyntaxKind) → holds result k ≡ false }
    {
        SyntaxSet { low: 0, high: 0 }
    }

    /// The set of the kinds below 128 whose bits are set in this word.
    pub(crate) fn from_low_word(low: u128) -> SyntaxSet
        ensures { result ≡ flags 137 low }
    {
        SyntaxSet { low, high: 0 }
    }

    /// The set of only this kind.
    fn only(kind: SyntaxKind) -> SyntaxSet
        ensures { (k : SyntaxKind) → holds result k ≡ is_kind kind k }
    {
        let number = u32::from(kind.to_u8());
        if number < Self::LOW_BITS {
            SyntaxSet {
                low: 1 << number,
                high: 0,
            }
        } else {
            SyntaxSet {
                low: 0,
                high: 1 << (number - Self::LOW_BITS),
            }
        }
    }

    /// The set with this kind added.
    pub fn add(self, kind: SyntaxKind) -> SyntaxSet
        ensures { (k : SyntaxKind) → holds result k ≡ (holds self k || is_kind kind k) }
    {
        self.union(SyntaxSet::only(kind))
    }

    /// The set without this kind.
    pub fn remove(self, kind: SyntaxKind) -> SyntaxSet
        ensures { (k : SyntaxKind) → holds result k ≡ (holds self k && not (is_kind kind k)) }
    {
        let only = SyntaxSet::only(kind);
        SyntaxSet {
            low: self.low & !only.low,
            high: self.high & !only.high,
        }
    }

    /// The set of the kinds that are in at least one of the two sets.
    pub fn union(self, other: SyntaxSet) -> SyntaxSet
        ensures { (k : SyntaxKind) → holds result k ≡ (holds self k || holds other k) }
    {
        SyntaxSet {
            low: self.low | other.low,
            high: self.high | other.high,
        }
    }
}

/// # Reading a set
impl SyntaxSet {
    /// Whether the set contains this kind.
    pub fn contains(self, kind: SyntaxKind) -> bool
        ensures { result ≡ holds self kind }
    {
        let number = u32::from(kind.to_u8());
        if number < Self::LOW_BITS {
            self.low >> number & 1 == 1
        } else {
            self.high >> (number - Self::LOW_BITS) & 1 == 1
        }
    }

    /// The kind with the lowest number.
    pub(crate) fn first(self) -> Option<SyntaxKind>
        ensures none { IfNone result ((k : SyntaxKind) → holds self k ≡ false) }
        ensures held { IfSome result (λ first. IsTrue (holds self first)) }
        ensures lowest { IfSome result (λ first. (k : SyntaxKind) → number_of k < number_of first
            → holds self k ≡ false) }
    {
        let number = if self.low != 0 {
            self.low.trailing_zeros()
        } else {
            Self::LOW_BITS + self.high.trailing_zeros()
        };
        SyntaxKind::from_u8(number as u8)
    }

    /// How many kinds the set contains.
    pub(crate) fn len(self) -> usize
        ensures { result ≡ length (kinds_in self) }
    {
        (self.low.count_ones() + self.high.count_ones()) as usize
    }

    /// Whether a set can hold this kind. It can hold every kind.
    pub fn fits(_kind: SyntaxKind) -> bool
        ensures { IsTrue result }
    {
        true
    }
}

/// Sets are equal if they hold the same kinds.
impl PartialEq for SyntaxSet {
    ghost use Rattle.std.specs.Prelude.{◌≡◌, ◌↔◌, IsTrue};
    ghost use Rattle.typst_base.specs.Equal.{set_eq, set_eq_laws};

    ghost eq = { set_eq };

    ghost laws = { set_eq_laws };

    fn eq(&self, other: &SyntaxSet) -> bool
        ensures is { result ≡ set_eq self.now other.now }
        ensures same { IsTrue result ↔ (self.now ≡ other.now) }
    {
        self.low == other.low && self.high == other.high
    }
}

impl Eq for SyntaxSet {
    ghost use Rattle.typst_base.specs.Equal.{set_eq_equivalence};

    ghost laws = { set_eq_equivalence };
}

impl Default for SyntaxSet {
    ghost use Rattle.std.specs.Prelude.{◌≡◌, false};
    ghost use Rattle.typst_base.specs.KindSet.{holds};
    ghost use Rattle.typst_base.specs.declared.kind.SyntaxKind.{SyntaxKind};

    ghost is_default = { λ s. (k : SyntaxKind) → holds s k ≡ false };

    fn default() -> SyntaxSet {
        SyntaxSet::new()
    }
}

impl fmt::Debug for SyntaxSet {
    /// Writes the kinds of the set in the order of their numbers: `{Text, Space}`.
    fn fmt<W: fmt::Write>(&self, f: &mut fmt::Formatter<W>) -> fmt::Result {
        f.debug_set().entries(self.kinds()).finish()
    }
}
