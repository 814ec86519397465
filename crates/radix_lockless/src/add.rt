//! A row is added to a trie.
ghost use Rattle.std.specs.Prelude.{◌≡◌, ◌≢◌, ◌<◌, ◌≤◌, Some, None, true};
ghost use Rattle.prefix_width.specs.Prefix.{IsBlock, IsCommonLen, contains};
ghost use Rattle.module_trait.specs.Nodes.{node_at};
ghost use Rattle.radix_lockless.specs.Spot.{IsChange, IsLittle, IsSpot};

use crate::node::Node;
use crate::trie::{Entry, Spot, Trie, parted, relink, set_index};
use prefix_width::Prefix;

/// Gives a prefix an index at the spot where the way down to it ends. There is room for two nodes.
pub(crate) fn add<const W: u32>(trie: &mut Trie<W>, spot: &Spot<W>, prefix: &Prefix<W>, index: u16)
    requires spot { IsSpot (node_at trie.old.nodes.slots) trie.old.root prefix.now spot.now }
    requires block { IsBlock W prefix.now }
    requires room { 2 ≤ trie.old.nodes.spare }
    ensures change { IsChange trie.old trie.new prefix.now (Some index) }
    ensures little { IsLittle trie.old trie.new }
{
    match &spot.here {
        None => add_leaf(trie, spot, prefix, index),
        Some(entry) => {
            if entry.node.prefix == *prefix {
                set_index(trie, spot, entry, Some(index));
                return;
            }
            let len = entry.node.prefix.common_len(prefix);
            if len == prefix.len() {
                add_over(trie, spot, entry, prefix, index);
                return;
            }
            add_beside(trie, spot, entry, prefix, index, len);
        }
    }
}

/// Puts the prefix's node where none is.
fn add_leaf<const W: u32>(trie: &mut Trie<W>, spot: &Spot<W>, prefix: &Prefix<W>, index: u16)
    requires spot { IsSpot (node_at trie.old.nodes.slots) trie.old.root prefix.now spot.now }
    requires none { spot.now.here ≡ None }
    requires block { IsBlock W prefix.now }
    requires room { 2 ≤ trie.old.nodes.spare }
    ensures change { IsChange trie.old trie.new prefix.now (Some index) }
    ensures little { IsLittle trie.old trie.new }
{
    let key = trie.nodes.put(&Node {
        prefix: *prefix,
        index: Some(index),
        left: None,
        right: None,
    });
    relink(trie, &spot.parent, Some(key));
}

/// Puts the prefix's node above that of a longer one.
fn add_over<const W: u32>(
    trie: &mut Trie<W>,
    spot: &Spot<W>,
    entry: &Entry<W>,
    prefix: &Prefix<W>,
    index: u16,
)
    requires spot { IsSpot (node_at trie.old.nodes.slots) trie.old.root prefix.now spot.now }
    requires here { spot.now.here ≡ Some entry.now }
    requires shorter { prefix.now.len < entry.now.node.prefix.len }
    requires covering { contains W prefix.now entry.now.node.prefix.base ≡ true }
    requires block { IsBlock W prefix.now }
    requires room { 2 ≤ trie.old.nodes.spare }
    ensures change { IsChange trie.old trie.new prefix.now (Some index) }
    ensures little { IsLittle trie.old trie.new }
{
    let _longest = entry.node.prefix.len();
    let right = entry.node.prefix.addr().bit(prefix.len());
    let node = parted(prefix, Some(index), right, Some(entry.key), None);
    let key = trie.nodes.put(&node);
    relink(trie, &spot.parent, Some(key));
}

/// Puts the prefix's node beside that of another, and above both the node of the `len` bits that
/// they share.
fn add_beside<const W: u32>(
    trie: &mut Trie<W>,
    spot: &Spot<W>,
    entry: &Entry<W>,
    prefix: &Prefix<W>,
    index: u16,
    len: u8,
)
    requires spot { IsSpot (node_at trie.old.nodes.slots) trie.old.root prefix.now spot.now }
    requires here { spot.now.here ≡ Some entry.now }
    requires common { IsCommonLen W entry.now.node.prefix prefix.now len }
    requires first { len < entry.now.node.prefix.len }
    requires second { len < prefix.now.len }
    requires block { IsBlock W prefix.now }
    requires room { 2 ≤ trie.old.nodes.spare }
    ensures change { IsChange trie.old trie.new prefix.now (Some index) }
    ensures little { IsLittle trie.old trie.new }
{
    let shared = match Prefix::masked(prefix.addr(), len) {
        Some(shared) => shared,
        None => unreachable!(),
    };
    let right = prefix.addr().bit(len);
    let leaf = trie.nodes.put(&Node {
        prefix: *prefix,
        index: Some(index),
        left: None,
        right: None,
    });
    let node = parted(&shared, None, right, Some(leaf), Some(entry.key));
    let key = trie.nodes.put(&node);
    relink(trie, &spot.parent, Some(key));
}
