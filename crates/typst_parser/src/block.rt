//! The first block of a text.
ghost use Rattle.std.specs.Prelude.{ℕ, ◌≡◌, ◌≤◌, ◌<◌, List, length, take, IfOk, IsErrOf};
ghost use Rattle.std.specs.Str.{IsUtf8, IsCharBoundary};
ghost use Rattle.typst_node.specs.Count.{SumsFit};
ghost use Rattle.typst_node.specs.Text.{text_of_all};
ghost use Rattle.typst_node.specs.declared.node.build.InnerError.TheVariants.{Overflow};
ghost use Rattle.typst_node.specs.Depth.{AreWithin};
ghost use Rattle.typst_parser.specs.FirstBlock.{first_block};
ghost use Rattle.typst_parser.specs.Rows.{Table as AnyTable};
ghost use Rattle.typst_parser.specs.View.{IsBlock, table_of};

use crate::grow::grow;
use crate::stack::Stack;
use crate::table::Table;
use std::alloc::Global;
use typst_node::{InnerError, SyntaxNode};

/// The first block of a text.
#[derive(Drop)]
pub struct FirstBlock {
    /// How many bytes it has.
    pub len: usize,
    /// How many bytes from its beginning were looked at. Where that is past the end of the text, the end was seen.
    pub reach: usize,
    /// Its nodes, side by side.
    pub nodes: Vec<SyntaxNode>,
}

/// Parses the first block of a text by a table. The text may be empty, and then the block is.
///
/// It takes each token once, and looks at it no more often than the table allows. `Overflow` comes only if the bytes or
/// the nodes of the block are more than a usize counts, and `Memory` only if memory is refused.
#[tactic(auto, using(crate::proofs::FirstBlocks::block_cut))]
pub fn first_block(alloc: Global, table: &Table, text: &str) -> Result<FirstBlock, InnerError>
    ensures block { IfOk result (IsBlock (first_block (table_of table.now) text.now)) }
    ensures overflow { IsErrOf result Overflow → ¬ (SumsFit (first_block (table_of table.now) text.now).trees) }
{
    let mut stack = Stack::new(alloc, table.most_deep)?;
    stack.steps(alloc, table, text.as_bytes())?;
    let nodes = grow(alloc, text, &stack.events)?;
    Ok(FirstBlock {
        len: stack.from.at,
        reach: stack.far,
        nodes,
    })
}

/// Laws of every table: what a `typst_source::BlockParser` must keep, and that no node has more levels than the table
/// allows.
#[tactic(auto, using(crate::proofs::FirstBlocks::block_positive, crate::proofs::FirstBlocks::block_within, crate::proofs::FirstBlocks::block_boundary, crate::proofs::FirstBlocks::block_text, crate::proofs::FirstBlocks::block_looked, crate::proofs::FirstBlocks::block_local, crate::proofs::FirstBlocks::block_levels))]
pub fn tables_keep_texts()
    ensures positive { (table : AnyTable) (text : List ℕ) → 0 < length text → 0 < (first_block table text).len }
    ensures within { (table : AnyTable) (text : List ℕ) → (first_block table text).len ≤ length text }
    ensures boundary { (table : AnyTable) (text : List ℕ) → IsUtf8 text
        → IsCharBoundary text (first_block table text).len }
    ensures text { (table : AnyTable) (text : List ℕ)
        → text_of_all (first_block table text).trees ≡ take (first_block table text).len text }
    ensures looked { (table : AnyTable) (text : List ℕ) → (first_block table text).len ≤ (first_block table text).reach }
    ensures local { (table : AnyTable) (text other : List ℕ)
        → take (first_block table text).reach text ≡ take (first_block table text).reach other
        → first_block table text ≡ first_block table other }
    ensures levels { (table : AnyTable) (text : List ℕ) → 2 ≤ table.most_levels
        → AreWithin table.most_levels (first_block table text).trees }
{}
