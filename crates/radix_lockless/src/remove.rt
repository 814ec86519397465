//! A row is taken out of a trie.
ghost use Rattle.std.specs.Prelude.{◌≡◌, ◌⊎◌, ◌≤◌, Some, None, IsSome};
ghost use Rattle.std.specs.Option.{option_or};
ghost use Rattle.prefix_width.specs.Prefix.{IsBlock};
ghost use Rattle.module_trait.specs.Nodes.{node_at};
ghost use Rattle.radix_lockless.specs.Spot.{IsChange, IsFreeAbove, IsLittle, IsSpot};

use crate::key::Key;
use crate::trie::{Entry, Link, Spot, Trie, relink, set_index, sibling};
use prefix_width::Prefix;

/// Takes a prefix's index away at the spot where the way down to it ends, with the nodes that are
/// then there for nothing. Where the prefix has no node, nothing changes.
pub(crate) fn remove<const W: u32>(trie: &mut Trie<W>, spot: &Spot<W>, prefix: &Prefix<W>)
    requires spot { IsSpot (node_at trie.old.nodes.slots) trie.old.root prefix.now spot.now }
    requires block { IsBlock W prefix.now }
    ensures change { IsChange trie.old trie.new prefix.now None }
    ensures little { IsLittle trie.old trie.new }
{
    match &spot.here {
        None => {}
        Some(entry) => {
            if entry.node.prefix != *prefix {
                return;
            }
            remove_entry(trie, spot, entry);
        }
    }
}

/// Takes the index of a node away. A node with two children stays.
fn remove_entry<const W: u32>(trie: &mut Trie<W>, spot: &Spot<W>, entry: &Entry<W>)
    requires spot { IsSpot (node_at trie.old.nodes.slots) trie.old.root entry.now.node.prefix spot.now }
    requires here { spot.now.here ≡ Some entry.now }
    ensures change { IsChange trie.old trie.new entry.now.node.prefix None }
    ensures little { IsLittle trie.old trie.new }
{
    match entry.node.left {
        None => match entry.node.right {
            None => remove_leaf(trie, spot, entry),
            Some(child) => splice(trie, spot, entry, Some(child)),
        },
        Some(child) => match entry.node.right {
            None => splice(trie, spot, entry, Some(child)),
            Some(_) => set_index(trie, spot, entry, None),
        },
    }
}

/// Takes a leaf out. The node above goes with it, if it is there only to part two children.
fn remove_leaf<const W: u32>(trie: &mut Trie<W>, spot: &Spot<W>, entry: &Entry<W>)
    requires spot { IsSpot (node_at trie.old.nodes.slots) trie.old.root entry.now.node.prefix spot.now }
    requires here { spot.now.here ≡ Some entry.now }
    requires no_left { entry.now.node.left ≡ None }
    requires no_right { entry.now.node.right ≡ None }
    ensures change { IsChange trie.old trie.new entry.now.node.prefix None }
    ensures little { IsLittle trie.old trie.new }
{
    match &spot.parent {
        None => splice(trie, spot, entry, None),
        Some(link) => {
            if link.node.index.is_some() {
                splice(trie, spot, entry, None);
                return;
            }
            prune(trie, spot, entry, link);
        }
    }
}

/// Takes a node with at most one child out, and puts the child in its place.
fn splice<const W: u32>(trie: &mut Trie<W>, spot: &Spot<W>, entry: &Entry<W>, child: Option<Key>)
    requires spot { IsSpot (node_at trie.old.nodes.slots) trie.old.root entry.now.node.prefix spot.now }
    requires here { spot.now.here ≡ Some entry.now }
    requires child { child ≡ option_or entry.now.node.left entry.now.node.right }
    requires lone { (entry.now.node.left ≡ None) ⊎ (entry.now.node.right ≡ None) }
    requires free { IsSome child ⊎ IsFreeAbove spot.now.parent }
    ensures change { IsChange trie.old trie.new entry.now.node.prefix None }
    ensures little { IsLittle trie.old trie.new }
{
    trie.nodes.take(entry.key);
    relink(trie, &spot.parent, child);
}

/// Takes a leaf and the node above it out, and puts the other child in their place.
fn prune<const W: u32>(trie: &mut Trie<W>, spot: &Spot<W>, entry: &Entry<W>, link: &Link<W>)
    requires spot { IsSpot (node_at trie.old.nodes.slots) trie.old.root entry.now.node.prefix spot.now }
    requires here { spot.now.here ≡ Some entry.now }
    requires above { spot.now.parent ≡ Some link.now }
    requires bare { link.now.node.index ≡ None }
    requires no_left { entry.now.node.left ≡ None }
    requires no_right { entry.now.node.right ≡ None }
    ensures change { IsChange trie.old trie.new entry.now.node.prefix None }
    ensures little { IsLittle trie.old trie.new }
{
    trie.nodes.take(entry.key);
    trie.nodes.take(link.key);
    relink(trie, &spot.grand, sibling(link));
}
