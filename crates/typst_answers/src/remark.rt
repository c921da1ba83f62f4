//! The lines that put a hint on the newest node, or a warning or a hint on a part of it.
ghost use Rattle.std.specs.Prelude.{◌≡◌, ◌++◌, ℕ, List, IfOk, IfSome, IsSome, IsTrue, OnErr, codes, false};
ghost use Rattle.typst_answers.specs.Remark.{WritesPart, IsRemarkLine, TakesRemark, remarked};
ghost use Rattle.typst_answers.specs.declared.remark.Remark.{Remark};

use std::alloc::{AllocError, Global};
use typst_script::words;
use typst_tree::SyntaxNode;

/// A hint or a warning that is put on the newest node. A part is a range of bytes of the node's text.
#[derive(Clone, Copy)]
pub enum Remark<'a> {
    /// `hint TEXT`
    Hint {
        text: &'a str,
    },
    /// `hintat A B TEXT`
    HintAt {
        start: u64,
        end: u64,
        text: &'a str,
    },
    /// `warnat A B MESSAGE`
    WarnAt {
        start: u64,
        end: u64,
        message: &'a str,
    },
}

impl<'a> Remark<'a> {
    /// The remark that a line, without its end, asks for. None if it asks for no remark.
    pub fn parse(line: &'a str) -> Option<Remark<'a>>
        ensures reads { IfSome result (λ remark. IsRemarkLine remark line.now) }
        ensures every { (remark : Remark) → IsRemarkLine remark line.now → IsSome result }
    {
        let (word, rest) = words::first_word(line)?;
        match word {
            "hint" => Some(Remark::Hint { text: rest }),
            "hintat" => Remark::hint_at(rest),
            "warnat" => Remark::warn_at(rest),
            _ => None,
        }
    }

    /// Reads what follows `hintat` as a remark.
    fn hint_at(rest: &'a str) -> Option<Remark<'a>>
        ensures reads { IfSome result (λ remark. IsRemarkLine remark (codes "hintat " ++ rest.now)) }
        ensures every { (remark : Remark) → IsRemarkLine remark (codes "hintat " ++ rest.now) → IsSome result }
    {
        let (start, end, text) = part(rest)?;
        Some(Remark::HintAt { start, end, text })
    }

    /// Reads what follows `warnat` as a remark.
    fn warn_at(rest: &'a str) -> Option<Remark<'a>>
        ensures reads { IfSome result (λ remark. IsRemarkLine remark (codes "warnat " ++ rest.now)) }
        ensures every { (remark : Remark) → IsRemarkLine remark (codes "warnat " ++ rest.now) → IsSome result }
    {
        let (start, end, message) = part(rest)?;
        Some(Remark::WarnAt {
            start,
            end,
            message,
        })
    }

    /// Puts the remark on the node. Returns false, with nothing changed, if the node takes no hints or has no such
    /// part. This fails only if memory runs out, and then nothing has changed either.
    pub fn put_on(self, alloc: Global, node: &mut SyntaxNode) -> Result<bool, AllocError>
        ensures put { IfOk result (λ is_put. IsTrue is_put
            → TakesRemark self.entry node.old × (node.new ≡ remarked self.entry node.old)) }
        ensures refused { IfOk result (λ is_put. is_put ≡ false
            → (¬ (TakesRemark self.entry node.old)) × (node.new ≡ node.old)) }
        ensures err { OnErr result (node.new ≡ node.old) }
    {
        match self {
            Remark::Hint { text } => {
                if !node.can_hint() {
                    return Ok(false);
                }
                node.hint(alloc, text)?;
                Ok(true)
            }
            Remark::HintAt { start, end, text } => {
                let range = start as usize..end as usize;
                if !node.can_hint() || !node.range_fits(start as usize..end as usize) {
                    return Ok(false);
                }
                node.hint_at(alloc, range, text)?;
                Ok(true)
            }
            Remark::WarnAt {
                start,
                end,
                message,
            } => {
                let range = start as usize..end as usize;
                if !node.range_fits(start as usize..end as usize) {
                    return Ok(false);
                }
                node.warn_at(alloc, range, message)?;
                Ok(true)
            }
        }
    }
}

/// The ends of a part, and the text after them.
fn part(rest: &str) -> Option<(u64, u64, &str)>
    ensures reads { IfSome result (λ parts. WritesPart rest.now parts.0 parts.1 parts.2.now) }
    ensures every { (start end : ℕ) (last : List ℕ) → WritesPart rest.now start end last → IsSome result }
{
    let (start, rest) = words::first_word(rest)?;
    let (end, text) = words::first_word(rest)?;
    let start = words::number(start)?;
    let end = words::number(end)?;
    Some((start, end, text))
}
