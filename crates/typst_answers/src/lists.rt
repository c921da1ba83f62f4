//! Lists that are read from both ends.
ghost use Rattle.std.specs.Iterator.{IsFinite};

use crate::place::parts_of;
use std::alloc::{AllocError, Global};
use typst_atoms::same_views::Parts;
use typst_tree::ast::{AstNode, Exprs, Ident, Items};

/// The items of a list, and whether reading from the back, and from both ends in turn, gives the same ones.
#[derive(Drop)]
pub struct Ends<'t> {
    /// The kinds and the nodes of the items.
    pub items: Vec<Parts<'t>>,
    pub agree: bool,
}

/// The views of one class.
///
/// A function that is passed to [`both`] may have no bound with a lifetime, as the one of all views has. So this
/// function reads the list itself.
pub fn both_of<'t, T: AstNode<'t>>(
    alloc: Global,
    views: Items<'t, T>,
) -> Result<Ends<'t>, AllocError> {
    let items = views_in(alloc, views.clone()?)?;
    let mut reversed = Reading::of(&items);
    for view in views.clone()?.rev() {
        reversed.meet_last(parts_of(view));
    }
    let mut turned = Reading::of(&items);
    turn_about_views(&mut turned, views);
    let agree = reversed.is_whole() && turned.is_whole();
    Ok(Ends { items, agree })
}

/// Reads views from both ends in turn, at most two more than are expected.
fn turn_about_views<'t, T: AstNode<'t>>(reading: &mut Reading<'_, 't>, views: Items<'t, T>) {
    let mut views = views;
    let turns = reading.items.len() / 2 + 1;
    for _turn in 0..turns {
        if let Some(view) = views.next() {
            reading.meet_first(parts_of(view));
        }
        if let Some(view) = views.next_back() {
            reading.meet_last(parts_of(view));
        }
    }
}

/// The items of a list, which is passed three times.
///
/// Only the functions that read a list are compiled for each type of items.
pub fn both<'t, T, I, F>(
    alloc: Global,
    front: I,
    back: I,
    mixed: I,
    parts: F,
) -> Result<Ends<'t>, AllocError>
where
    I: DoubleEndedIterator<Item = T>,
    F: Fn(T) -> Parts<'t>,
    requires next { (state : I) → I.can_next state }
    requires back { (state : I) → I.can_next_back state }
    requires ends { (state : I) → IsFinite (I.remaining state) }
    requires parts { F.IsAlwaysCallable parts }
{
    let mut items = Vec::new(alloc);
    for item in front {
        items.push(parts(item))?;
    }
    let mut reversed = Reading::of(&items);
    for item in back.rev() {
        reversed.meet_last(parts(item));
    }
    let mut turned = Reading::of(&items);
    turn_about(&mut turned, mixed, parts);
    let agree = reversed.is_whole() && turned.is_whole();
    Ok(Ends { items, agree })
}

/// The kinds and the nodes of the views of one class.
pub(crate) fn views_in<'t, T: AstNode<'t>>(
    alloc: Global,
    views: Items<'t, T>,
) -> Result<Vec<Parts<'t>>, AllocError> {
    let mut items = Vec::new(alloc);
    for view in views {
        items.push(parts_of(view))?;
    }
    Ok(items)
}

/// The kinds and the nodes of expressions.
pub(crate) fn exprs_in<'t>(alloc: Global, exprs: Exprs<'t>) -> Result<Vec<Parts<'t>>, AllocError> {
    let mut items = Vec::new(alloc);
    for expr in exprs {
        items.push(parts_of(expr))?;
    }
    Ok(items)
}

/// The kinds and the nodes of names.
pub(crate) fn collected<'t>(
    alloc: Global,
    names: &[Ident<'t>],
) -> Result<Vec<Parts<'t>>, AllocError> {
    let mut items = Vec::new(alloc);
    for name in names {
        items.push(parts_of(*name))?;
    }
    Ok(items)
}

/// Reads a list from both ends in turn, at most two items more than are expected.
fn turn_about<'t, T, I, F>(reading: &mut Reading<'_, 't>, items: I, parts: F)
where
    I: DoubleEndedIterator<Item = T>,
    F: Fn(T) -> Parts<'t>,
    requires next { (state : I) → I.can_next state }
    requires back { (state : I) → I.can_next_back state }
    requires ends { (state : I) → IsFinite (I.remaining state) }
    requires parts { F.IsAlwaysCallable parts }
{
    let mut items = items;
    let turns = reading.items.len() / 2 + 1;
    for _turn in 0..turns {
        if let Some(item) = items.next() {
            reading.meet_first(parts(item));
        }
        if let Some(item) = items.next_back() {
            reading.meet_last(parts(item));
        }
    }
}

/// A reading of a list whose items are known.
#[derive(Drop)]
struct Reading<'r, 't> {
    items: &'r [Parts<'t>],
    /// The items from the first index up to the second are left.
    from: usize,
    to: usize,
    /// Whether each item that it met was the one that was expected.
    agrees: bool,
}

impl<'r, 't> Reading<'r, 't> {
    /// A reading that has all these items before it.
    fn of(items: &'r [Parts<'t>]) -> Self {
        Reading {
            items,
            from: 0,
            to: items.len(),
            agrees: true,
        }
    }

    /// Meets an item from the front.
    fn meet_first(&mut self, met: Parts<'t>) {
        if self.from < self.to {
            self.meet(self.from, met);
            self.from = self.from.saturating_add(1);
        } else {
            self.agrees = false;
        }
    }

    /// Meets an item from the back.
    fn meet_last(&mut self, met: Parts<'t>) {
        if self.from < self.to {
            self.to = self.to.saturating_sub(1);
            self.meet(self.to, met);
        } else {
            self.agrees = false;
        }
    }

    /// Meets the item with this index.
    fn meet(&mut self, index: usize, met: Parts<'t>) {
        let is_same = match self.items.get(index) {
            Some(expected) => expected.are_same(met),
            None => false,
        };
        self.agrees = self.agrees && is_same;
    }

    /// Whether it met all items, each in its place.
    fn is_whole(&self) -> bool {
        self.agrees && self.from == self.to
    }
}
