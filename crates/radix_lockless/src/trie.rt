//! The trie, and the way down to a prefix.
ghost use Rattle.std.specs.Prelude.{◌≡◌, ◌⊎◌, ℕ, ◌+◌, ◌≤◌, List, [], Some, IfSome, IsSome};
ghost use Rattle.prefix_width.specs.Prefix.{Block, IsBlock};
ghost use Rattle.module_trait.specs.Nodes.{node_at};
ghost use Rattle.radix_lockless.specs.Trie.{StandsFor};
ghost use Rattle.radix_lockless.specs.Spot.{IsChange, IsLittle, IsSpot, IsLinkSet, linked, leads_to, parted, sibling};

use crate::key::Key;
use crate::node::Node;
use crate::store::NodeStore;
use module_trait::Steps;
use prefix_width::Prefix;
use std::alloc::Global;
use std::sync::ledger::Ledger;

/// Nodes that may be written to, and the key of the root.
#[derive(Drop)]
pub(crate) struct Trie<const W: u32> {
    pub(crate) nodes: NodeStore<W>,
    pub(crate) root: Option<Key>,
}

impl<const W: u32> Trie<W> {
    ghost use Rattle.radix_lockless.specs.Trie.{StandsFor};

    /// No node at all.
    pub(crate) fn new(alloc: Global) -> Trie<W>
        ensures stands { StandsFor (node_at result.nodes.slots) result.root [] }
        ensures spare { result.nodes.spare ≡ 0 }
    {
        Trie {
            nodes: NodeStore::new(alloc),
            root: None,
        }
    }
}

/// A node and its key.
#[derive(Clone, Copy)]
pub(crate) struct Entry<const W: u32> {
    pub(crate) key: Key,
    pub(crate) node: Node<W>,
}

/// A node, its key, and the side on which it links to what is below.
#[derive(Clone, Copy)]
pub(crate) struct Link<const W: u32> {
    pub(crate) key: Key,
    pub(crate) node: Node<W>,
    pub(crate) right: bool,
}

/// Where the way down to a prefix ends: the node there, the one above it, and the one above that.
#[derive(Clone, Copy)]
pub(crate) struct Spot<const W: u32> {
    pub(crate) grand: Option<Link<W>>,
    pub(crate) parent: Option<Link<W>>,
    pub(crate) here: Option<Entry<W>>,
}

/// Whether the way down to q goes on below p.
fn leads_to<const W: u32>(p: &Prefix<W>, q: &Prefix<W>) -> bool
    ensures { result ≡ leads_to W p.now q.now }
{
    p.len() < q.len() && p.contains(&q.addr())
}

/// Goes down to the prefix, past each shorter one that covers it.
pub(crate) fn spot_of<const W: u32, L: Ledger>(
    nodes: &NodeStore<W>,
    root: Option<Key>,
    prefix: &Prefix<W>,
    steps: &mut Steps<L>,
) -> Spot<W>
    requires block { IsBlock W prefix.now }
    requires trie { (rows : List (Block × ℕ)) × StandsFor (node_at nodes.now.slots) root rows }
    ensures { IsSpot (node_at nodes.now.slots) root prefix.now result }
{
    let mut grand = None;
    let mut parent: Option<Link<W>> = None;
    let mut at = root;
    while let Some(key) = at {
        let node = nodes.at(key, steps);
        if !leads_to(&node.prefix, prefix) {
            let here = Some(Entry { key, node });
            return Spot {
                grand,
                parent,
                here,
            };
        }
        let right = prefix.addr().bit(node.prefix.len());
        grand = parent;
        parent = Some(Link { key, node, right });
        at = if right { node.right } else { node.left };
    }
    Spot {
        grand,
        parent,
        here: None,
    }
}

/// The node with its link set to another key.
fn linked<const W: u32>(link: &Link<W>, at: Option<Key>) -> Node<W>
    ensures { result ≡ linked link.now at }
{
    if link.right {
        Node {
            right: at,
            ..link.node
        }
    } else {
        Node {
            left: at,
            ..link.node
        }
    }
}

/// The key on the other side of a link.
pub(crate) fn sibling<const W: u32>(link: &Link<W>) -> Option<Key>
    ensures { result ≡ sibling link.now }
{
    if link.right {
        link.node.left
    } else {
        link.node.right
    }
}

/// A node with a child on the side of a bit, and another on the other side.
pub(crate) fn parted<const W: u32>(
    prefix: &Prefix<W>,
    index: Option<u16>,
    right: bool,
    on_side: Option<Key>,
    beside: Option<Key>,
) -> Node<W>
    ensures { result ≡ parted prefix.now index right on_side beside }
{
    if right {
        Node {
            prefix: *prefix,
            index,
            left: beside,
            right: on_side,
        }
    } else {
        Node {
            prefix: *prefix,
            index,
            left: on_side,
            right: beside,
        }
    }
}

/// Lets the node above, or the root, lead to another key.
pub(crate) fn relink<const W: u32>(trie: &mut Trie<W>, above: &Option<Link<W>>, at: Option<Key>)
    requires { IfSome above.now (λ link. IsSome (node_at trie.old.nodes.slots link.key)) }
    ensures link { IsLinkSet trie.old trie.new above.now at }
    ensures spare { trie.new.nodes.spare ≡ trie.old.nodes.spare }
    ensures pages { trie.new.nodes.unsettled ≤ trie.old.nodes.unsettled + 1 }
{
    match above {
        None => trie.root = at,
        Some(link) => trie.nodes.set(link.key, &linked(link, at)),
    }
}

/// Gives the node at a spot another index. Without one, it is to have two children.
pub(crate) fn set_index<const W: u32>(
    trie: &mut Trie<W>,
    spot: &Spot<W>,
    entry: &Entry<W>,
    index: Option<u16>,
)
    requires spot { IsSpot (node_at trie.old.nodes.slots) trie.old.root entry.now.node.prefix spot.now }
    requires here { spot.now.here ≡ Some entry.now }
    requires justified { IsSome index ⊎ (IsSome entry.now.node.left × IsSome entry.now.node.right) }
    ensures change { IsChange trie.old trie.new entry.now.node.prefix index }
    ensures little { IsLittle trie.old trie.new }
{
    let node = Node {
        index,
        ..entry.node
    };
    trie.nodes.set(entry.key, &node);
}
