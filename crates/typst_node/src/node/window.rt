//! The first window of children that has room for new numbers.
ghost use Rattle.std.specs.Prelude.{◌≡◌, ◌+◌, ◌*◌, ◌-◌, ◌^◌, ◌<◌, ◌≤◌, ◌↔◌, IfSome, MatchOption, IsTrue};
ghost use Rattle.typst_node.specs.Count.{count_of_all};
ghost use Rattle.typst_node.specs.OpenNumbers.{open_from, open_to};
ghost use Rattle.typst_node.specs.Room.{HasRoom, Suffice, new_count};
ghost use Rattle.typst_node.specs.FirstWindow.{HoldsAll, HasNoFirst};
ghost use Rattle.typst_node.specs.Window.{trees_in};
ghost use Rattle.typst_node.specs.Sites.{recorded, AreNumbersFor, IsFound};

use crate::node::SyntaxNode;
use crate::node::trim::count_nodes;

/// A site: the nodes that may be numbered anew, which are the changed children and their neighbours, and the numbers
/// for them.
#[derive(Drop)]
pub(super) struct Site<'a> {
    pub(super) before: &'a [SyntaxNode],
    pub(super) changed: &'a [SyntaxNode],
    pub(super) behind: &'a [SyntaxNode],
    // The numbers run from `first` up to `end`.
    pub(super) first: u64,
    pub(super) end: u64,
    // The node count of the changed children.
    pub(super) added: usize,
    // The node count of the whole edited node, itself included.
    pub(super) total: usize,
}

/// New numbers for a window. They begin at `start`, and each node gets `stride` of them.
#[derive(Clone, Copy)]
pub(super) struct Numbering {
    pub(super) start: u64,
    pub(super) stride: u64,
}

/// The first window with room. It has at most `width` neighbours on each side, and `tried` windows were tried.
#[derive(Clone, Copy)]
pub(super) struct Found {
    pub(super) tried: usize,
    pub(super) width: usize,
    pub(super) numbering: Numbering,
}

/// The first open number after the nodes.
pub(super) fn open_behind(nodes: &[SyntaxNode], first: u64) -> u64
    ensures { result ≡ open_from first nodes.now }
{
    if nodes.is_empty() {
        first
    } else {
        nodes[nodes.len() - 1].upper()
    }
}

/// The end of the open numbers before the nodes.
pub(super) fn open_before(nodes: &[SyntaxNode], end: u64) -> u64
    ensures { result ≡ open_to end nodes.now }
{
    match nodes.first() {
        Some(node) => node.span().number(),
        None => end,
    }
}

/// How many of `space` open numbers each node of the window gets, if they are enough.
fn window_stride(space: u64, nodes: u64, total: u64) -> Option<u64>
    requires { nodes < total }
    ensures enough { MatchOption result (¬ (Suffice space nodes total)) (λ stride. Suffice space nodes total) }
    ensures stride { IfSome result (λ stride. (1 ≤ stride) × (stride * nodes ≤ space)
        × (2 * nodes ≤ space → 2 * (stride * nodes) ≤ space)) }
{
    if nodes == 0 {
        Some(1)
    } else if nodes <= space / 2 {
        Some(space / (2 * nodes))
    } else if total <= space {
        Some(space / total)
    } else {
        None
    }
}

/// The numbers for the window of `nodes` nodes that has at most `width` neighbours on each side, if it has room. It
/// reads only the two nodes beside the window.
fn room(site: &Site<'_>, width: usize, nodes: usize) -> Option<Numbering>
    requires nodes { nodes ≡ count_of_all (trees_in (recorded site.now) width) }
    requires total { site.now.total ≡ new_count (recorded site.now) }
    ensures { MatchOption result (¬ (HasRoom (recorded site.now) width)) (AreNumbersFor (recorded site.now) width) }
{
    let (ahead, _) = site
        .before
        .split_at(site.before.len().saturating_sub(width));
    let (_, rest) = site.behind.split_at(width.min(site.behind.len()));
    let start = open_behind(ahead, site.first);
    let end = open_before(rest, site.end);
    match window_stride(end.saturating_sub(start), nodes as u64, site.total as u64) {
        Some(stride) => Some(Numbering { start, stride }),
        None => None,
    }
}

/// Whether the window with at most `width` neighbours on each side holds all children.
fn holds_all(site: &Site<'_>, width: usize) -> bool
    ensures { IsTrue result ↔ HoldsAll (recorded site.now) width }
{
    site.before.len() <= width && site.behind.len() <= width
}

/// The next width: 0, 1, 2, 4, 8 and so on.
fn wider(width: usize) -> usize
    requires { width < 2 ^ 63 }
    ensures first { width ≡ 0 → result ≡ 1 }
    ensures later { 0 < width → result ≡ 2 * width }
    ensures more { width < result }
{
    if width == 0 { 1 } else { 2 * width }
}

/// The number of nodes that the window gains when it grows from `width` to `next` neighbours on each side at most. It
/// reads only those neighbours.
fn count_gained(site: &Site<'_>, width: usize, next: usize) -> usize
    requires wider { width ≤ next }
    requires fits { new_count (recorded site.now) < 2 ^ 64 }
    ensures { count_of_all (trees_in (recorded site.now) width) + result ≡ count_of_all (trees_in (recorded site.now) next) }
{
    let len = site.before.len();
    let ahead = &site.before[len.saturating_sub(next)..len.saturating_sub(width)];
    let most = site.behind.len();
    let behind = &site.behind[width.min(most)..next.min(most)];
    count_nodes(ahead) + count_nodes(behind)
}

/// The first window with room, among the windows up to the first that holds all children.
///
/// It counts each neighbour once, up to the widest window that is tried. It reads no other child.
pub(super) fn find(site: &Site<'_>) -> Option<Found>
    requires added { site.now.added ≡ count_of_all site.now.changed.now }
    requires total { site.now.total ≡ new_count (recorded site.now) }
    ensures { MatchOption result (HasNoFirst (recorded site.now)) (IsFound (recorded site.now)) }
{
    // Read for the proof: the count of all nodes after the edit is a usize, so the count of a window is one, too.
    let _total = site.total;
    let mut width = 0;
    let mut tried = 1;
    let mut nodes = site.added;
    loop {
        if let Some(numbering) = room(site, width, nodes) {
            return Some(Found {
                tried,
                width,
                numbering,
            });
        }
        if holds_all(site, width) {
            return None;
        }
        let next = wider(width);
        nodes += count_gained(site, width, next);
        width = next;
        tried += 1;
    }
}
