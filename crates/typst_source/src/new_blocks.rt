//! Blocks, parsed until they meet old ones.
ghost use Rattle.std.specs.Prelude.{ℕ, ◌≡◌, ◌+◌, ◌^◌, ◌<◌, ◌≤◌, length, drop, IfOk, IsErrOf};
ghost use Rattle.typst_node.specs.declared.node.build.InnerError.TheVariants.{Overflow};
ghost use Rattle.typst_source.specs.Extents.{bytes_in, nodes_in, AreSums};
ghost use Rattle.typst_source.specs.Source.{IsTooLarge};
ghost use Rattle.typst_source.specs.NewBlocks.{AreNewBlocks};

use crate::extents::{Extent, Sums};
use crate::parser::BlockParser;
use std::alloc::Global;
use typst_node::{InnerError, SyntaxNode};

/// The old blocks that new ones may meet, and the number of their bytes.
#[derive(Clone, Copy, Debug)]
pub(crate) struct Olds<'a> {
    /// Their extents.
    pub(crate) extents: &'a [Extent],
    /// How many bytes they have.
    pub(crate) bytes: usize,
}

/// Blocks that were parsed, and the old ones that they replace.
#[derive(Drop)]
pub(crate) struct NewBlocks {
    /// The nodes of the new blocks, side by side.
    pub(crate) nodes: Vec<SyntaxNode>,
    /// The extents of the new blocks.
    pub(crate) extents: Vec<Extent>,
    /// The sums of the old blocks that are replaced.
    pub(crate) passed: Sums,
    /// How many bytes come after the place where they meet.
    pub(crate) left: usize,
}

/// Passes over old blocks while more than `left` bytes of them are left.
fn pass(olds: &Olds<'_>, passed: Sums, left: usize) -> Sums
    requires bytes { bytes_in olds.now.extents.now ≡ olds.now.bytes }
    requires nodes { nodes_in olds.now.extents.now < 2 ^ 64 }
    requires passed { AreSums olds.now.extents.now passed }
    ensures sums { AreSums olds.now.extents.now result }
    ensures left { bytes_in (drop result.blocks olds.now.extents.now) ≤ left }
    ensures skipped { (k : ℕ) → passed.blocks ≤ k → k < result.blocks → left < bytes_in (drop k olds.now.extents.now) }
{
    let mut now = passed;
    while olds.bytes - now.bytes > left {
        let old = olds.extents[now.blocks];
        now.blocks += 1;
        now.bytes += old.bytes;
        now.nodes += old.nodes;
    }
    now
}

/// Parses blocks of a text until as many bytes are left as the last of the old blocks have, and at most `tail`.
pub(crate) fn parse_until<P: BlockParser>(
    alloc: Global,
    parser: &P,
    text: &str,
    olds: &Olds<'_>,
    tail: usize,
) -> Result<NewBlocks, InnerError>
    requires bytes { bytes_in olds.now.extents.now ≡ olds.now.bytes }
    requires nodes { nodes_in olds.now.extents.now < 2 ^ 64 }
    requires within { tail ≤ length text.now }
    requires old { tail ≤ olds.now.bytes }
    ensures blocks { IfOk result (AreNewBlocks P.first text.now olds.now.extents.now tail) }
    ensures overflow { IsErrOf result Overflow → IsTooLarge P.first text.now }
{
    let mut nodes = Vec::new(alloc);
    let mut extents = Vec::new(alloc);
    let mut rest = text;
    let mut passed = Sums::NONE;
    loop {
        passed = pass(olds, passed, rest.len());
        if rest.len() <= tail && olds.bytes - passed.bytes == rest.len() {
            return Ok(NewBlocks {
                nodes,
                extents,
                passed,
                left: rest.len(),
            });
        }
        let mut block = parser.parse_block(alloc, rest)?;
        extents.push(Extent {
            bytes: block.len,
            nodes: block.nodes.len(),
            reach: block.reach,
        })?;
        let (_, behind) = rest.split_at(block.len);
        nodes.append(&mut block.nodes)?;
        rest = behind;
    }
}
