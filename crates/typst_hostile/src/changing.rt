//! Calls that change a node.
use crate::end::{End, Fault, Stop};
use crate::requests::Requests;
use crate::trees::{ELEVEN, NESTED, ONE, STRONG, TEN, TEXTS, TWO_IN_MARKUP};
use std::alloc::Global;
use typst_drawn::{drawn, drawn_all, numbered};
use typst_node::{Renumbered, SyntaxNode};

/// A call that changes a node with a text.
#[derive(Clone, Copy)]
pub enum Change {
    /// `warn`
    Warn,
    /// `warn_at`
    WarnAt,
    /// `hint`, of an error.
    Hint,
    /// `hint`, of a warned node.
    HintWarned,
    /// `hint_at`
    HintAt,
    /// `convert_to_error`
    ConvertToError,
    /// `expected`, of a keyword in place of a name.
    Expected,
    /// `unexpected`
    Unexpected,
}

/// The keyword `let`.
const KEYWORD: &str = "Let:let";

/// An error.
const ERROR: &str = "!m:let";

/// A warned keyword.
const WARNED: &str = "Let:let ^m";

impl Change {
    /// Makes the call. Its answer must be that of the same call before.
    pub fn run(self, alloc: Global, requests: Requests) -> Result<End, Stop> {
        let kept = drawn(alloc, self.lent())?;
        let mut changed = kept.clone()?;
        self.make(alloc, &mut changed)?;
        let mut node = kept.clone()?;
        requests.make(alloc)?;
        Ok(match self.make(alloc, &mut node) {
            Ok(()) => End::answered(node == changed && node != kept),
            Err(fault) => End::failed(fault, node == kept),
        })
    }

    /// The drawing of the node that the call changes.
    fn lent(self) -> &'static str {
        match self {
            Change::Hint | Change::HintAt => ERROR,
            Change::HintWarned => WARNED,
            _ => KEYWORD,
        }
    }

    /// Makes the change.
    fn make(self, alloc: Global, node: &mut SyntaxNode) -> Result<(), Fault> {
        match self {
            Change::Warn => node.warn(alloc, "message")?,
            Change::WarnAt if node.range_fits(1..2) => node.warn_at(alloc, 1..2, "message")?,
            Change::Hint | Change::HintWarned if node.can_hint() => node.hint(alloc, "hint")?,
            Change::HintAt if node.can_hint() && node.range_fits(1..2) => {
                node.hint_at(alloc, 1..2, "hint")?
            }
            Change::ConvertToError => node.convert_to_error(alloc, "message")?,
            Change::Expected => node.expected(alloc, "identifier")?,
            Change::Unexpected => node.unexpected(alloc)?,
            _ => return Err(Fault::Other),
        }
        Ok(())
    }
}

/// `with_hints`, which consumes what it changes.
pub fn hint_all(alloc: Global, requests: Requests) -> Result<End, Stop> {
    let node = drawn(alloc, ERROR)?;
    let mut hinted = node.clone()?;
    if !hinted.can_hint() {
        return Err(Stop::Early);
    }
    hinted.hint(alloc, "one")?;
    if !hinted.can_hint() || !node.can_hint() {
        return Err(Stop::Early);
    }
    hinted.hint(alloc, "two")?;
    let one = String::from_str(alloc, "one")?;
    let two = String::from_str(alloc, "two")?;
    let texts = vec![in alloc; one, two]?;
    requests.make(alloc)?;
    Ok(match node.with_hints(alloc, texts) {
        Ok(node) => End::answered(node == hinted),
        Err(error) => End::failed(Fault::from(error), true),
    })
}

/// A replacement.
#[derive(Clone, Copy)]
pub enum Replacing {
    /// `replace_children`: a leaf between two nodes.
    Children,
    /// `replace_children`, of a node of ten letters.
    ChildrenOfTen,
    /// `replace_children`, of a node of eleven letters.
    ChildrenOfEleven,
    /// `replace_children`: a text between two, in narrow bounds.
    Between,
    /// `replace_at`, of a node two levels below the root.
    Below,
    /// `replace_at`, of one child by another below the root, in narrow bounds.
    OneByOne,
}

/// What a replacement needs: a tree, the end of its numbers, a path to a node, the range of children to replace, and
/// the nodes that replace them.
#[derive(Clone, Copy)]
struct Site {
    tree: &'static str,
    end: u64,
    path: &'static [usize],
    start: usize,
    past: usize,
    others: &'static str,
}

impl Replacing {
    /// Makes the call. Its answer must be that of the same call before.
    pub fn run(self, alloc: Global, requests: Requests) -> Result<End, Stop> {
        let site = self.site();
        let kept = numbered(alloc, site.tree, 2..site.end)?;
        let mut replaced = kept.clone()?;
        let told = site.replace(alloc, &mut replaced, drawn_all(alloc, site.others)?)?;
        let mut tree = kept.clone()?;
        let others = drawn_all(alloc, site.others)?;
        requests.make(alloc)?;
        Ok(match site.replace(alloc, &mut tree, others) {
            Ok(again) => End::answered(again == told && tree == replaced && tree != kept),
            Err(fault) => End::failed(fault, tree == kept),
        })
    }

    /// The tree, and what is replaced where in it.
    fn site(self) -> Site {
        let (tree, end, path, range, others): (_, _, &[usize], _, _) = match self {
            Replacing::Children => (NESTED, 1 << 20, &[], (1, 1), ONE),
            Replacing::ChildrenOfTen => (TEN, 1 << 20, &[], (1, 1), ONE),
            Replacing::ChildrenOfEleven => (ELEVEN, 1 << 20, &[], (1, 1), ONE),
            Replacing::Between => (TEXTS, 14, &[], (1, 1), ONE),
            Replacing::Below => (NESTED, 1 << 20, &[1, 1], (1, 1), ONE),
            Replacing::OneByOne => (STRONG, 30, &[0], (1, 2), TWO_IN_MARKUP),
        };
        let (start, past) = range;
        Site {
            tree,
            end,
            path,
            start,
            past,
            others,
        }
    }
}

impl Site {
    /// Makes the replacement.
    fn replace(
        &self,
        alloc: Global,
        tree: &mut SyntaxNode,
        others: Vec<SyntaxNode>,
    ) -> Result<Renumbered, Fault> {
        let range = self.start..self.past;
        if !tree.is_numbered() || !tree.edit_fits(self.path, self.start..self.past) {
            return Err(Fault::Other);
        }
        if self.path.is_empty() && tree.edit_fits(&[], self.start..self.past) {
            Ok(tree.replace_children(alloc, range, others)?)
        } else {
            Ok(tree.replace_at(alloc, self.path, range, others)?)
        }
    }
}
