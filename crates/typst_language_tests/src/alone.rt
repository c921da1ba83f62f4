//! The parser of markup alone.
use crate::shown::shown;
use anyhow::{Result, ensure};
use std::alloc::Global;
use typst_base::FileId;
use typst_language::MarkupOnly;
use typst_source::Source;

/// A text with a hash or a dollar at each place of markup.
const TEXT: &str = "= Costs $5\n*Due #now* $x$ @fig[#y]\n/ a#b: $c$";

/// Its tree.
const TREE: &str = "Markup
  Heading
    HeadingMarker \"=\"
    Space \" \"
    Markup
      Text \"Costs\"
      Space \" \"
      Text \"$\"
      Text \"5\"
  Space \"\\n\"
  Strong
    Star \"*\"
    Markup
      Text \"Due\"
      Space \" \"
      Text \"#\"
      Text \"now\"
    Star \"*\"
  Space \" \"
  Text \"$\"
  Text \"x\"
  Text \"$\"
  Space \" \"
  Ref
    RefMarker \"@fig\"
    ContentBlock
      LeftBracket \"[\"
      Markup
        Text \"#\"
        Text \"y\"
      RightBracket \"]\"
  Space \"\\n\"
  TermItem
    TermMarker \"/\"
    Space \" \"
    Markup
      Text \"a\"
      Text \"#\"
      Text \"b\"
    Colon \":\"
    Space \" \"
    Markup
      Text \"$\"
      Text \"c\"
      Text \"$\"
";

/// What replaces the beginning of the first line.
const EDITED: &str = "#let";

/// How the tree begins then.
const EDITED_TREE: &str = "Markup
  Text \"#\"
  Text \"let\"
  Space \" \"
  Text \"$\"
  Text \"5\"
  Space \"\\n\"
  Strong
";

/// Parses a text of markup alone, and edits it.
pub(crate) fn check(alloc: Global) -> Result<()> {
    let mut source = Source::new(alloc, FileId::FIRST, TEXT, MarkupOnly)?;
    let tree = shown(alloc, source.root())?;
    ensure!(
        tree.as_str() == TREE,
        "markup alone: the tree is another one:\n{tree}"
    );
    let range = 0.."= Costs".len();
    ensure!(source.fits(&range), "the range doesn't fit");
    source.edit(alloc, range, EDITED)?;
    let tree = shown(alloc, source.root())?;
    ensure!(
        tree.starts_with(EDITED_TREE),
        "markup alone: the edited tree is another one:\n{tree}"
    );
    Ok(())
}
