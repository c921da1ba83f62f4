//! Compares the trees of texts with trees that were worked out without the library. Then it turns each text into each
//! other text by an edit. It types a letter in some texts, and looks which bytes are parsed anew. At last it parses and
//! edits a text of markup alone.
//!
//! Its arguments are names. The file `NAME.typ` has a text, and `NAME.tree` has its tree, one node a line, with two
//! blanks a level. A leaf has its text as `{:?}` prints it, and an error has its text and its message. Below a node its
//! warnings and hints have a line each.
#![tactic(auto)]

mod alone;
mod blocks;
mod shown;

use crate::shown::shown;
use anyhow::{Context, Result, ensure};
use std::alloc::Global;
use std::{env, fs};
use typst_base::FileId;
use typst_language::Typst;
use typst_source::Source;

/// A text, and its tree as it is written down.
#[derive(Drop)]
struct Case {
    name: String,
    text: String,
    tree: String,
}

/// Reads the cases that the arguments name.
fn read_cases(rt: &HostRuntime) -> Result<Vec<Case>> {
    let alloc = rt.alloc();
    let mut cases = Vec::new(alloc);
    for name in env::args(rt)?.skip(1) {
        let text = fs::read_to_string(rt, format!(in alloc; "{name}.typ")?)?;
        let tree = fs::read_to_string(rt, format!(in alloc; "{name}.tree")?)?;
        cases.push(Case { name, text, tree })?;
    }
    Ok(cases)
}

/// The number of the first line in which two texts differ, counted from 1.
fn differing_line(one: &str, other: &str) -> usize {
    one.bytes()
        .zip(other.bytes())
        .take_while(|(a, b)| a == b)
        .filter(|(a, _)| *a == b'\n')
        .count()
        .saturating_add(1)
}

/// Fails if the text or the tree of a source isn't that of a case.
fn check(alloc: Global, source: &Source<Typst>, case: &Case) -> Result<()> {
    let name = &case.name;
    ensure!(
        source.text() == case.text.as_str(),
        "{name}: the text is another one"
    );
    let tree = shown(alloc, source.root())?;
    let line = differing_line(&tree, &case.tree);
    ensure!(
        tree.as_str() == case.tree.as_str(),
        "{name}: line {line} of the tree is another one:\n{tree}"
    );
    Ok(())
}

/// How many bytes the common beginning of two texts has. It ends between characters.
fn common_beginning(old: &str, new: &str) -> usize {
    let alike = old
        .bytes()
        .zip(new.bytes())
        .take_while(|(a, b)| a == b)
        .count();
    (0..=alike)
        .rev()
        .find(|place| old.is_char_boundary(*place))
        .unwrap_or(0)
}

/// How many bytes the common end of two texts has. It begins between characters.
fn common_end(old: &str, new: &str) -> usize {
    let alike = old
        .bytes()
        .rev()
        .zip(new.bytes().rev())
        .take_while(|(a, b)| a == b)
        .count();
    (0..=alike)
        .rev()
        .find(|len| old.is_char_boundary(old.len().saturating_sub(*len)))
        .unwrap_or(0)
}

/// Turns the text of a source into another one, by an edit of the text between their common beginning and end.
fn turn_into(alloc: Global, source: &mut Source<Typst>, new: &str) -> Result<()> {
    let old = source.text();
    let start = common_beginning(old, new);
    let rest = old.get(start..).context("no place in the old text")?;
    let new_rest = new.get(start..).context("no place in the new text")?;
    let end = common_end(rest, new_rest);
    let with = new_rest
        .get(..new_rest.len().saturating_sub(end))
        .context("no end in the new text")?;
    let range = start..old.len().saturating_sub(end);
    ensure!(source.fits(&range), "the range doesn't fit");
    source.edit(alloc, range, with)?;
    Ok(())
}

/// Parses the text of each case, turns it into each other one and back, and returns the number of edits.
fn check_all(alloc: Global, cases: &[Case]) -> Result<usize> {
    let mut edits = 0usize;
    for case in cases {
        let mut source = Source::new(alloc, FileId::FIRST, &case.text, Typst)?;
        check(alloc, &source, case)?;
        for other in cases {
            turn_into(alloc, &mut source, &other.text)?;
            check(alloc, &source, other)?;
            turn_into(alloc, &mut source, &case.text)?;
            check(alloc, &source, case)?;
            edits = edits.saturating_add(2);
        }
    }
    Ok(edits)
}

fn main(rt: HostRuntime) -> Result<()> {
    let alloc = rt.alloc();
    let cases = read_cases(&rt)?;
    let edits = check_all(alloc, &cases)?;
    let count = cases.len();
    println!(rt; "{count} trees, {edits} edits")?;
    let letters = blocks::check(alloc)?;
    println!(rt; "{letters} letters")?;
    alone::check(alloc)?;
    Ok(())
}
