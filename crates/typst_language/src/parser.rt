//! The parsers of blocks: of all of Typst's syntax, and of markup alone.
ghost use Rattle.std.specs.Prelude.{ℕ, ◌≡◌, List, IfOk, IsErrOf};
ghost use Rattle.typst_node.specs.Count.{SumsFit};
ghost use Rattle.typst_node.specs.declared.node.build.InnerError.TheVariants.{Overflow};
ghost use Rattle.typst_node.specs.Depth.{AreWithin};
ghost use Rattle.typst_parser.specs.View.{table_of};
ghost use Rattle.typst_language.specs.Block.{first, first_by, first_of_markup, language, markup};
ghost use Rattle.typst_source.specs.Parsed.{IsParsedBlock};

use std::alloc::Global;
use typst_node::InnerError;
use typst_parser::{Table, first_block};
use typst_source::{BlockParser, ParsedBlock};

/// The parser of all of Typst's syntax. A block ends before a line that nothing open goes on to.
#[derive(Clone, Copy, Debug, Drop)]
pub struct Typst;

/// The parser of markup alone: a hash and a dollar are text, so a text has neither code nor equations. All else is as
/// [`Typst`] has it.
#[derive(Clone, Copy, Debug, Drop)]
pub struct MarkupOnly;

/// The bounds of the machine. At the end of a block rows end each of the frames that are open.
#[tactic(auto, unfolding(crate::specs::Block::language))]
fn bounds() -> Table
    ensures { table_of result ≡ language }
{
    Table {
        embeds: true,
        most_deep: 64,
        most_looks: 1024,
        most_levels: 255,
    }
}

/// The same bounds, where nothing is embedded in markup.
#[tactic(auto, unfolding(crate::specs::Block::markup))]
fn bounds_of_markup() -> Table
    ensures { table_of result ≡ markup }
{
    Table {
        embeds: false,
        most_deep: 64,
        most_looks: 1024,
        most_levels: 255,
    }
}

/// The first block of a text by a table.
fn parse_by(alloc: Global, table: &Table, text: &str) -> Result<ParsedBlock, InnerError>
    ensures parsed { IfOk result (IsParsedBlock (first_by (table_of table.now) text.now)) }
    ensures overflow { IsErrOf result Overflow → ¬ (SumsFit (first_by (table_of table.now) text.now).trees) }
{
    let block = first_block(alloc, table, text)?;
    Ok(ParsedBlock {
        len: block.len,
        reach: block.reach,
        nodes: block.nodes,
    })
}

impl BlockParser for Typst {
    ghost use Rattle.typst_language.specs.Block.{first, language};
    ghost use Rattle.typst_language.specs.Laws.{positive_by, within_by, boundary_by, keeps_text_by, looked_by, local_by};

    ghost first = { first };

    /// It takes a step for each token of the block, and as many looks at a token as its frames need.
    fn parse_block(&self, alloc: Global, text: &str) -> Result<ParsedBlock, InnerError> {
        parse_by(alloc, &bounds(), text)
    }

    ghost positive = { positive_by language };

    ghost within = { within_by language };

    ghost boundary = { boundary_by language };

    ghost keeps_text = { keeps_text_by language };

    ghost looked = { looked_by language };

    ghost local = { local_by language };
}

impl BlockParser for MarkupOnly {
    ghost use Rattle.typst_language.specs.Block.{first_of_markup, markup};
    ghost use Rattle.typst_language.specs.Laws.{positive_by, within_by, boundary_by, keeps_text_by, looked_by, local_by};

    ghost first = { first_of_markup };

    /// It takes as many steps and looks as [`Typst`] does.
    fn parse_block(&self, alloc: Global, text: &str) -> Result<ParsedBlock, InnerError> {
        parse_by(alloc, &bounds_of_markup(), text)
    }

    ghost positive = { positive_by markup };

    ghost within = { within_by markup };

    ghost boundary = { boundary_by markup };

    ghost keeps_text = { keeps_text_by markup };

    ghost looked = { looked_by markup };

    ghost local = { local_by markup };
}

/// A law of all texts: the trees of blocks are at most 255 levels deep. So no text can exhaust the stack of what walks
/// over them.
#[tactic(auto, using(crate::proofs::Levels::first_within_depth, crate::proofs::Levels::markup_within_depth))]
pub fn blocks_are_shallow()
    ensures whole { (text : List ℕ) → AreWithin 255 (first text).trees }
    ensures markup { (text : List ℕ) → AreWithin 255 (first_of_markup text).trees }
{}
