//! Walks of linked nodes.
use crate::end::{End, Fault, Stop};
use crate::requests::Requests;
use std::alloc::{AllocError, Global};
use typst_base::SyntaxKind;
use typst_drawn::numbered;
use typst_linked::{LinkedNode, Looks, Side};
use typst_node::SyntaxNode;

/// A walk, made from each node of a tree.
#[derive(Clone, Copy)]
pub enum Walk {
    /// `prev_sibling`
    PrevSibling,
    /// `next_sibling`
    NextSibling,
    /// `prev_sibling_with_trivia`
    PrevSiblingWithTrivia,
    /// `next_sibling_with_trivia`
    NextSiblingWithTrivia,
    /// `leftmost_leaf`
    LeftmostLeaf,
    /// `rightmost_leaf`
    RightmostLeaf,
    /// `prev_leaf`
    PrevLeaf,
    /// `next_leaf`
    NextLeaf,
    /// `leaf_at` the beginning of the node.
    LeafAt,
    /// `leaf_at_counted` at the end of the node.
    LeafAtCounted,
    /// `find`, by the span of the last node below this one.
    Find,
    /// `find_counted`, by the same.
    FindCounted,
    /// `find_range`, by the range of the last node below this one.
    FindRange,
    /// `children`, from the front.
    Children,
    /// `children`, from the back.
    ChildrenBack,
    /// `preorder`
    Preorder,
    /// `path`
    Path,
}

/// The capacity of a list of answers, which is large enough that no answer takes memory of its own.
const ROOM: usize = 1024;

/// The number in place of an answer that isn't a node.
const NOTHING: usize = usize::MAX;

impl Walk {
    /// Walks from each node of a tree. The answers must be those of the same walks before. Where memory was refused,
    /// the walk is made again.
    pub fn run(self, drawing: &str, alloc: Global, requests: Requests) -> Result<End, Stop> {
        let tree = numbered(alloc, drawing, 2..1 << 20)?;
        let kept = tree.clone()?;
        let nodes = linked(alloc, &tree)?;
        let mut seen_before = Vec::with_capacity(alloc, ROOM)?;
        self.from_each(alloc, &nodes, &mut seen_before)?;
        let mut seen = Vec::with_capacity(alloc, ROOM)?;
        requests.make(alloc)?;
        let refused = self.from_each(alloc, &nodes, &mut seen)?;
        let right = seen == seen_before;
        Ok(match refused {
            None => End::answered(right),
            Some(error) => End::failed(Fault::from(error), right && tree == kept),
        })
    }

    /// Walks from each node, and answers the last refusal. After a refusal the same walk is made again.
    fn from_each(
        self,
        alloc: Global,
        nodes: &[LinkedNode],
        seen: &mut Vec<usize>,
    ) -> Result<Option<AllocError>, AllocError> {
        let mut refused = None;
        for index in 0..nodes.len() {
            let before = seen.len();
            if let Err(error) = self.walk(alloc, nodes, index, seen) {
                refused = Some(error);
                seen.truncate(before);
                self.walk(alloc, nodes, index, seen)?;
            }
        }
        Ok(refused)
    }

    /// Walks from the node with this index, and adds what is seen.
    fn walk(
        self,
        alloc: Global,
        nodes: &[LinkedNode],
        index: usize,
        seen: &mut Vec<usize>,
    ) -> Result<(), AllocError> {
        let (Some(node), Some(last)) = (nodes.get(index), last_below(nodes, index)) else {
            return Ok(());
        };
        match self {
            Walk::Children | Walk::ChildrenBack | Walk::Preorder | Walk::Path => {
                self.list(alloc, node, seen)
            }
            Walk::LeafAtCounted | Walk::Find | Walk::FindCounted | Walk::FindRange => {
                self.search(alloc, node, last, seen)
            }
            _ => see(self.step(alloc, node)?, seen),
        }
    }

    /// A walk to one node.
    fn step<'a>(
        self,
        alloc: Global,
        node: &LinkedNode<'a>,
    ) -> Result<Option<LinkedNode<'a>>, AllocError> {
        match self {
            Walk::PrevSibling => node.prev_sibling(),
            Walk::NextSibling => node.next_sibling(),
            Walk::PrevSiblingWithTrivia => node.prev_sibling_with_trivia(),
            Walk::NextSiblingWithTrivia => node.next_sibling_with_trivia(),
            Walk::LeftmostLeaf => node.leftmost_leaf(alloc),
            Walk::RightmostLeaf => node.rightmost_leaf(alloc),
            Walk::PrevLeaf => node.prev_leaf(alloc),
            Walk::NextLeaf => node.next_leaf(alloc),
            Walk::LeafAt => node.leaf_at(alloc, node.offset(), Side::After),
            _ => Ok(None),
        }
    }

    /// A search for the last node below this one, and how much it read.
    fn search(
        self,
        alloc: Global,
        node: &LinkedNode,
        last: &LinkedNode,
        seen: &mut Vec<usize>,
    ) -> Result<(), AllocError> {
        let mut looks = Looks::new();
        let range = last.range();
        let found = match self {
            Walk::LeafAtCounted => {
                node.leaf_at_counted(alloc, range.end, Side::Before, &mut looks)?
            }
            Walk::FindRange => node.find_range(alloc, range.start, range.end)?,
            Walk::FindCounted => node.find_counted(alloc, last.get().span(), &mut looks)?,
            _ => node.find(alloc, last.get().span())?,
        };
        see(found, seen)?;
        seen.push(looks.count() as usize)?;
        Ok(())
    }

    /// A walk to several nodes, or the path to one.
    fn list(
        self,
        alloc: Global,
        node: &LinkedNode,
        seen: &mut Vec<usize>,
    ) -> Result<(), AllocError> {
        match self {
            Walk::Children => see_children(alloc, node, seen),
            Walk::ChildrenBack => see_children_back(alloc, node, seen),
            Walk::Preorder => see_all_below(alloc, node, seen),
            _ => see_path(alloc, node, seen),
        }
    }
}

/// Adds where the children are.
fn see_children(alloc: Global, node: &LinkedNode, seen: &mut Vec<usize>) -> Result<(), AllocError> {
    for child in node.children(alloc)? {
        see(Some(child?), seen)?;
    }
    Ok(())
}

/// Adds where the children are, the last first.
fn see_children_back(
    alloc: Global,
    node: &LinkedNode,
    seen: &mut Vec<usize>,
) -> Result<(), AllocError> {
    for child in node.children(alloc)?.rev() {
        see(Some(child?), seen)?;
    }
    Ok(())
}

/// Adds where the node is and all nodes below it are.
fn see_all_below(
    alloc: Global,
    node: &LinkedNode,
    seen: &mut Vec<usize>,
) -> Result<(), AllocError> {
    for below in node.preorder(alloc)? {
        see(Some(below?), seen)?;
    }
    Ok(())
}

/// Adds the steps of the path to the node.
fn see_path(alloc: Global, node: &LinkedNode, seen: &mut Vec<usize>) -> Result<(), AllocError> {
    for index in node.path(alloc)? {
        seen.push(index)?;
    }
    Ok(())
}

/// All nodes of a tree, in preorder.
fn linked(alloc: Global, tree: &SyntaxNode) -> Result<Vec<LinkedNode<'_>>, AllocError> {
    let mut nodes = Vec::new(alloc);
    for node in LinkedNode::new(tree).preorder(alloc)? {
        nodes.push(node?)?;
    }
    Ok(nodes)
}

/// The last node of the subtree of the one with this index, among nodes in preorder.
fn last_below<'n, 'a>(nodes: &'n [LinkedNode<'a>], index: usize) -> Option<&'n LinkedNode<'a>> {
    let count = nodes.get(index)?.get().descendants();
    nodes.get(index.saturating_add(count).saturating_sub(1))
}

/// Adds where a found node is and how many nodes it has.
fn see(found: Option<LinkedNode>, seen: &mut Vec<usize>) -> Result<(), AllocError> {
    match found {
        Some(node) => {
            seen.push(node.offset())?;
            seen.push(node.index())?;
            seen.push(node.get().descendants())?;
        }
        None => seen.push(NOTHING)?,
    }
    Ok(())
}

/// `leaf_at_counted` at 1001 of a thousand texts of two bytes. It must read one to ten ends. It asks for memory after
/// it has read them. Where that memory is refused, `looks` must hold what the whole search reads.
pub fn find_among_thousand(alloc: Global, requests: Requests) -> Result<End, Stop> {
    let mut leaves = Vec::with_capacity(alloc, 1000)?;
    for _ in 0..1000 {
        leaves.push(SyntaxNode::leaf(alloc, SyntaxKind::Text, "ab")?)?;
    }
    let tree = SyntaxNode::inner(alloc, SyntaxKind::Markup, leaves)?;
    let kept = tree.clone()?;
    let root = LinkedNode::new(&tree);
    let mut looks = Looks::new();
    requests.make(alloc)?;
    let found = root.leaf_at_counted(alloc, 1001, Side::Before, &mut looks);
    let few = 1 <= looks.count() && looks.count() <= 10;
    Ok(match found {
        Ok(Some(leaf)) => End::answered(few && leaf.index() == 500 && leaf.offset() == 1000),
        Ok(None) => End::Wrong,
        Err(error) => {
            let mut all = Looks::new();
            let is_found = root
                .leaf_at_counted(alloc, 1001, Side::Before, &mut all)
                .is_ok();
            let told = is_found && looks.count() == all.count();
            End::failed(Fault::from(error), few && told && tree == kept)
        }
    })
}
