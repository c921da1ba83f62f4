//! What a parser must keep so that a part of a text can be parsed anew.
ghost use Rattle.std.specs.Prelude.{ℕ, suc, ◌≡◌, ◌<◌, ◌≤◌, List, [], ◌∷◌, ◌↔◌, length, take, IfOk, IsErrOf};
ghost use Rattle.std.specs.Str.{IsUtf8, IsCharBoundary};
ghost use Rattle.typst_node.specs.Count.{SumsFit};
ghost use Rattle.typst_node.specs.Text.{text_of_all};
ghost use Rattle.typst_node.specs.declared.node.build.InnerError.TheVariants.{Overflow};
ghost use Rattle.typst_source.specs.Blocks.{Block, blocks, document, AreBlocks};
ghost use Rattle.typst_node.specs.Depth.{AreWithin};
ghost use Rattle.typst_source.specs.Parsed.{IsParsedBlock};

use std::alloc::Global;
use typst_node::{InnerError, SyntaxNode};

/// The first block of a text.
#[derive(Drop)]
pub struct ParsedBlock {
    /// How many bytes the block has, at least 1.
    pub len: usize,
    /// How many bytes from the beginning of the block the parser looked at; at least `len`. A parser that saw where the
    /// text ends has looked past the last byte. Then the reach is greater than the length of the text.
    pub reach: usize,
    /// The block's nodes, side by side. Their texts make up the block's bytes.
    pub nodes: Vec<SyntaxNode>,
}

/// A parser that cuts a text into blocks, one after the other, and parses each by itself.
///
/// `first` is the first block of a text. What follows a block is parsed as a text of its own. So a block may depend on
/// bytes after its end, but on none before its beginning. The laws say the rest:
///
/// - `positive`, `within`, `boundary`: a block has at least one byte, and ends in the text, between characters.
/// - `keeps_text`: the texts of a block's trees make up its bytes.
/// - `looked`: the reach of a block includes its own bytes.
/// - `local`: a text that is the same up to the reach has the same first block. So a block that depends on where the
///   text ends has a reach past that end.
pub trait BlockParser {
    ghost first: { List ℕ → Block };

    /// Parses the first block of a text. The text must not be empty. `Overflow` comes only if the bytes or the nodes of
    /// the block are more than a usize counts, and `Memory` only if memory is refused.
    fn parse_block(&self, alloc: Global, text: &str) -> Result<ParsedBlock, InnerError>
        requires { 0 < length text.now }
        ensures parsed { IfOk result (IsParsedBlock (first text.now)) }
        ensures overflow { IsErrOf result Overflow → ¬ (SumsFit (first text.now).trees) };

    ghost positive: { (text : List ℕ) → 0 < length text → 0 < (first text).len };

    ghost within: { (text : List ℕ) → (first text).len ≤ length text };

    ghost boundary: { (text : List ℕ) → IsUtf8 text → IsCharBoundary text (first text).len };

    ghost keeps_text: { (text : List ℕ) → text_of_all (first text).trees ≡ take (first text).len text };

    ghost looked: { (text : List ℕ) → (first text).len ≤ (first text).reach };

    ghost local: { (text other : List ℕ) → take (first text).reach text ≡ take (first text).reach other
        → first text ≡ first other };
}

/// A text has exactly one list of blocks: its first block, and then the blocks of the text after that.
pub fn blocks_are_determined<P: BlockParser>()
    ensures { (text : List ℕ) (bs : List Block) → AreBlocks P.first text bs ↔ (bs ≡ blocks P.first text) }
{}

/// A law of all texts: if the trees of each block nest at most so deep, a whole tree nests at most one level deeper, since
/// its root has the trees of all blocks as its children.
pub fn documents_are_shallow<P: BlockParser>()
    ensures { (depth : ℕ) → ((text : List ℕ) → AreWithin depth (P.first text).trees)
        → (text : List ℕ) → AreWithin (suc depth) (document P.first text ∷ []) }
{}
