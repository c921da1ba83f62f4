//! Lines of a text that follow its edits.
ghost use Rattle.std.specs.Prelude.{◌++◌, ◌-◌, ◌<◌, ◌^◌, OnOk, length};
ghost use Rattle.typst_lines.specs.LineTable.{AreLines};

use crate::asked::Asked;
use crate::stopwatch::Stopwatch;
use crate::texts::{middle, text, typed};
use anyhow::{Context, Result, ensure};
use std::alloc::{AllocError, Global};
use typst_lines::Lines;

/// In each round, makes an edit in the middle of a text and takes it back, and makes the lines of the text follow.
/// Returns how many lines there are.
pub fn made(alloc: Global, watch: &mut Stopwatch<'_>, asked: Asked<'_>) -> Result<Option<usize>> {
    let edit = typed(asked.shape).context("there is no edit of this name")?;
    let text = text(alloc, asked.size)?;
    let at = middle(asked.size).saturating_add(edit.at);
    ensure!(text.is_char_boundary(at), "byte {at} isn't one of the text");
    ensure!(
        text.len() < 1 << 40 && edit.with.len() < 1 << 40,
        "the text is too long"
    );
    let (front, back) = text.split_at(at);
    let mut lines = Lines::new(alloc, &text)?;
    watch.start()?;
    follow_often(&mut lines, front, edit.with, back, asked.rounds)?;
    watch.stop()?;
    Ok(Some(lines.len_lines()))
}

/// Makes lines follow an edit between two texts and the edit that takes it back, `rounds` times.
fn follow_often(
    lines: &mut Lines,
    front: &str,
    with: &str,
    back: &str,
    rounds: usize,
) -> Result<(), AllocError>
    requires lines { AreLines lines.old (front.now ++ back.now) }
    requires fits { length (front.now ++ (with.now ++ back.now)) < 2 ^ 64 - 1 }
{
    for _ in 0..rounds {
        follow(lines, front, with, back)?;
    }
    Ok(())
}

/// Makes lines follow an edit between two texts, and the edit that takes it back.
fn follow(lines: &mut Lines, front: &str, with: &str, back: &str) -> Result<(), AllocError>
    requires lines { AreLines lines.old (front.now ++ back.now) }
    requires fits { length (front.now ++ (with.now ++ back.now)) < 2 ^ 64 - 1 }
    ensures { OnOk result (AreLines lines.new (front.now ++ back.now)) }
{
    lines.replace(front, "", with, back)?;
    lines.replace(front, with, "", back)
}
