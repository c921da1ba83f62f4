//! What an inner node keeps apart from its children, their number and its bound.
ghost use Rattle.std.specs.Prelude.{◌≡◌, ◌+◌, ◌-◌, ◌^◌, ◌<◌, ◌≤◌, ◌∷◌, ◌++◌, [], None, Some, length, map, slice_index, slice_range, IfOk, IfSome, IsOk, MatchOption, OnErr, OnOk};
ghost use Rattle.typst_node.specs.Text.{text_of_all};
ghost use Rattle.typst_node.specs.Count.{SumsFit};
ghost use Rattle.typst_node.specs.ChildEnds.{AreEnds, HavePlace, AreStale};
ghost use Rattle.typst_base.specs.SubRange.{interval};
ghost use Rattle.typst_node.specs.Hints.{hint_outermost};
ghost use Rattle.typst_node.specs.MappedForest.{mapped_warnings};
ghost use Rattle.typst_node.specs.Synthesized.{whole_warning};
ghost use Rattle.typst_node.specs.View.{hint_text, shown_warnings, warning_text};

use crate::diagnosis::Diagnosis;
use crate::ends::Ends;
use crate::node::child_ends::{first_ends, settle_ends};
use crate::node::copy::copy_warnings;
use crate::node::mapped::map_parts;
use crate::node::settle::Change;
use crate::node::synthesize::make_whole;
use crate::node::warn::{hint_last, only};
use crate::node::{Hint, SyntaxNode, Warning};
use std::alloc::{AllocError, Global};
use std::marker::Model;
use typst_base::RangeMapper;

/// The diagnosis of an inner node's children, the ends of their texts, unless there are few children, and the warnings
/// about the node, from the innermost to the outermost. In contracts it is these three.
#[derive(Drop)]
pub(crate) struct Extras {
    kept: Kept,
}

/// One box holds both lists, once there is one of them. The diagnosis is next to the tag, where there is room for it.
#[derive(Drop)]
enum Kept {
    Plain(Diagnosis),
    Listed(Diagnosis, Box<Lists>),
}

/// What only few inner nodes have: ends and warnings.
#[derive(Drop)]
struct Lists {
    // The lower 32 bits of each end of the children's texts. A list that grew past a few and shrinks again stays.
    ends: Option<Ends>,
    warnings: Vec<Warning>,
}

impl Model for Extras {
    ghost use Rattle.typst_node.specs.Extras.{ExtraParts, extras_seen};

    ghost Value = { ExtraParts };

    ghost view = { λ a. extras_seen a.kept };
}

/// # All three
impl Extras {
    /// A diagnosis without ends, as for few children, and without warnings.
    pub(crate) fn plain(diagnosis: Diagnosis) -> Extras
        ensures diagnosis { result.diagnosis ≡ diagnosis }
        ensures ends { result.ends ≡ None }
        ensures warnings { result.warnings ≡ [] }
    {
        Extras {
            kept: Kept::Plain(diagnosis),
        }
    }

    /// A diagnosis and these ends, without warnings.
    pub(crate) fn with_ends(
        alloc: Global,
        diagnosis: Diagnosis,
        ends: Vec<u32>,
    ) -> Result<Extras, AllocError>
        ensures diagnosis { IfOk result (λ e. e.diagnosis ≡ diagnosis) }
        ensures ends { IfOk result (λ e. e.ends ≡ Some ends.items) }
        ensures warnings { IfOk result (λ e. e.warnings ≡ []) }
    {
        let lists = Lists {
            ends: Some(Ends::new(ends)?),
            warnings: Vec::new(alloc),
        };
        Ok(Extras {
            kept: Kept::Listed(diagnosis, Box::new(alloc, lists)?),
        })
    }

    /// The same diagnosis and ends, and warnings with the same content.
    pub(super) fn copy(&self, alloc: Global) -> Result<Extras, AllocError>
        ensures diagnosis { IfOk result (λ e. e.diagnosis ≡ self.now.diagnosis) }
        ensures ends { IfOk result (λ e. e.ends ≡ self.now.ends) }
        ensures warnings { IfOk result (λ e. map warning_text e.warnings ≡ map warning_text self.now.warnings) }
    {
        let kept = match &self.kept {
            Kept::Plain(diagnosis) => Kept::Plain(*diagnosis),
            Kept::Listed(diagnosis, lists) => {
                Kept::Listed(*diagnosis, Box::new(alloc, lists.copy(alloc)?)?)
            }
        };
        Ok(Extras { kept })
    }
}

impl Lists {
    fn copy(&self, alloc: Global) -> Result<Lists, AllocError>
        ensures ends { IfOk result (λ l. l.ends ≡ self.now.ends) }
        ensures warnings { IfOk result (λ l. map warning_text l.warnings.items
            ≡ map warning_text self.now.warnings.items) }
    {
        let ends = match &self.ends {
            Some(ends) => Some(ends.copy()?),
            None => None,
        };
        Ok(Lists {
            ends,
            warnings: copy_warnings(alloc, &self.warnings)?,
        })
    }
}

/// # The diagnosis
impl Extras {
    /// The diagnosis of the children.
    pub(super) fn diagnosis(&self) -> Diagnosis
        ensures { result ≡ self.now.diagnosis }
    {
        match &self.kept {
            Kept::Plain(diagnosis) => *diagnosis,
            Kept::Listed(diagnosis, _) => *diagnosis,
        }
    }

    /// Writes the diagnosis of the children.
    pub(super) fn set_diagnosis(&mut self, held: Diagnosis)
        ensures diagnosis { self.new.diagnosis ≡ held }
        ensures ends { self.new.ends ≡ self.old.ends }
        ensures warnings { self.new.warnings ≡ self.old.warnings }
    {
        match &mut self.kept {
            Kept::Plain(diagnosis) => *diagnosis = held,
            Kept::Listed(diagnosis, _) => *diagnosis = held,
        }
    }
}

/// # Warnings
impl Extras {
    /// The warnings as a slice.
    pub(super) fn warnings(&self) -> &[Warning]
        ensures { result.now ≡ self.now.warnings }
    {
        match &self.kept {
            Kept::Plain(_) => &[],
            Kept::Listed(_, lists) => &lists.warnings,
        }
    }

    /// Adds a warning after the others, outside them.
    pub(super) fn push_warning(&mut self, alloc: Global, warning: Warning) -> Result<(), AllocError>
        ensures diagnosis { self.new.diagnosis ≡ self.old.diagnosis }
        ensures ends { self.new.ends ≡ self.old.ends }
        ensures ok { OnOk result (self.new.warnings ≡ self.old.warnings ++ warning ∷ []) }
        ensures err { OnErr result (self.new.warnings ≡ self.old.warnings) }
    {
        match &mut self.kept {
            Kept::Plain(diagnosis) => {
                let diagnosis = *diagnosis;
                let lists = Lists {
                    ends: None,
                    warnings: only(alloc, warning)?,
                };
                self.kept = Kept::Listed(diagnosis, Box::new(alloc, lists)?);
            }
            Kept::Listed(_, lists) => lists.warnings.push(warning)?,
        }
        Ok(())
    }

    /// Adds a hint after those of the last warning, which is the outermost one.
    pub(super) fn hint_last(&mut self, hint: Hint) -> Result<(), AllocError>
        requires { 0 < length self.old.warnings }
        ensures diagnosis { self.new.diagnosis ≡ self.old.diagnosis }
        ensures ends { self.new.ends ≡ self.old.ends }
        ensures ok { OnOk result (shown_warnings self.new.warnings
            ≡ hint_outermost (hint_text hint ∷ []) (shown_warnings self.old.warnings)) }
        ensures err { OnErr result (shown_warnings self.new.warnings ≡ shown_warnings self.old.warnings) }
    {
        match &mut self.kept {
            Kept::Plain(_) => unreachable!(),
            Kept::Listed(_, lists) => hint_last(&mut lists.warnings, hint),
        }
    }

    /// Maps the sub-ranges of the warnings and their hints.
    pub(super) fn map_parts(&mut self, mapper: &RangeMapper, at: usize, end: usize)
        requires ordered { at ≤ end }
        requires inside { end ≤ length mapper.now.positions }
        ensures diagnosis { self.new.diagnosis ≡ self.old.diagnosis }
        ensures ends { self.new.ends ≡ self.old.ends }
        ensures warnings { shown_warnings self.new.warnings ≡ mapped_warnings mapper.now (interval at end)
            self.old.warnings }
    {
        if let Kept::Listed(_, lists) = &mut self.kept {
            map_parts(&mut lists.warnings, mapper, at, end);
        }
    }

    /// Removes the sub-ranges of the warnings and their hints.
    pub(super) fn make_whole(&mut self)
        ensures diagnosis { self.new.diagnosis ≡ self.old.diagnosis }
        ensures ends { self.new.ends ≡ self.old.ends }
        ensures warnings { shown_warnings self.new.warnings ≡ map whole_warning (shown_warnings self.old.warnings) }
    {
        if let Kept::Listed(_, lists) = &mut self.kept {
            make_whole(&mut lists.warnings);
        }
    }
}

/// # Ends
impl Extras {
    /// The lower 32 bits of the end at an index, if the ends are kept. It takes one addition for each layer of blocks.
    pub(super) fn end(&self, index: usize) -> Option<u32>
        requires { IfSome self.now.ends (λ ends. index < length ends) }
        ensures { MatchOption self.now.ends (result ≡ None) (λ ends. result ≡ Some (slice_index ends index)) }
    {
        match &self.kept {
            Kept::Plain(_) => None,
            Kept::Listed(_, lists) => match &lists.ends {
                Some(ends) => Some(ends.get(index)),
                None => None,
            },
        }
    }

    /// Makes room for the ends of the children that come in a change. The ends before and after them stay. It takes
    /// memory only if there are more children then. If memory is refused, the ends are unchanged.
    #[tactic(auto, using(crate::proofs::Trees::length_of_ends))]
    pub(super) fn make_place(
        &mut self,
        alloc: Global,
        children: &[SyntaxNode],
        change: &Change,
    ) -> Result<(), AllocError>
        requires ends { AreEnds self.old.ends children.now }
        requires sums { SumsFit children.now }
        requires window { change.now.from ≤ change.now.to }
        requires inside { change.now.to ≤ length children.now }
        requires fits { length children.now + change.now.many < 2 ^ 64 }
        ensures diagnosis { self.new.diagnosis ≡ self.old.diagnosis }
        ensures warnings { self.new.warnings ≡ self.old.warnings }
        ensures ok { OnOk result (HavePlace change.now.from change.now.to change.now.many self.new.ends children.now) }
        ensures err { OnErr result (self.new.ends ≡ self.old.ends) }
        ensures succeeds { change.now.many ≤ change.now.to - change.now.from → IsOk result }
    {
        match &mut self.kept {
            Kept::Plain(diagnosis) => {
                let diagnosis = *diagnosis;
                if let Some(ends) = first_ends(alloc, children, change)? {
                    let lists = Lists {
                        ends: Some(ends),
                        warnings: Vec::new(alloc),
                    };
                    self.kept = Kept::Listed(diagnosis, Box::new(alloc, lists)?);
                }
            }
            Kept::Listed(_, lists) => match &mut lists.ends {
                Some(ends) => ends.make_place(change.from, change.to, change.many)?,
                None => lists.ends = first_ends(alloc, children, change)?,
            },
        }
        Ok(())
    }

    /// Corrects the ends after a change of the children.
    pub(super) fn settle_ends(&mut self, children: &[SyntaxNode], change: &Change)
        requires window { change.now.from ≤ change.now.to }
        requires inside { change.now.from + change.now.many ≤ length children.now }
        requires stale { AreStale change.now.from change.now.to change.now.many change.now.gone.len
            self.old.ends children.now }
        requires added { change.now.added.len ≡ length (text_of_all
            (slice_range children.now change.now.from (change.now.from + change.now.many))) }
        ensures diagnosis { self.new.diagnosis ≡ self.old.diagnosis }
        ensures ends { AreEnds self.new.ends children.now }
        ensures warnings { self.new.warnings ≡ self.old.warnings }
    {
        if let Kept::Listed(_, lists) = &mut self.kept {
            if let Some(ends) = &mut lists.ends {
                settle_ends(ends, children, change);
            }
        }
    }
}
