//! A node in few bytes.
ghost use Rattle.std.specs.Prelude.{◌≡◌, ◌≤◌, if◌then◌else◌};
ghost use Rattle.prefix_width.specs.Prefix.{IsBlock, contains};
ghost use Rattle.radix_lockless.specs.declared.node.Node.{Node};

use crate::OutOfMemory;
use crate::key::{Key, child_key, child_number};
use crate::node::Node;
use crate::word::Word;
use prefix_width::{Addr, Prefix};
use std::marker::Model;

/// A node as a lookup sees it.
pub(crate) trait NodeView<const W: u32> {
    /// The node.
    ghost node: { Self → Node W };

    /// Whether its prefix contains the address.
    fn contains(&self, addr: &Addr<W>) -> bool
        ensures { result ≡ contains W (node self.now).prefix addr.now };

    /// The length of its prefix.
    fn len(&self) -> u8
        ensures value { result ≡ (node self.now).prefix.len }
        ensures block { IsBlock W (node self.now).prefix };

    /// The index of its row, if it has one.
    fn index(&self) -> Option<u16>
        ensures { result ≡ (node self.now).index };

    /// The key of the node below it on a side.
    fn child(&self, right: bool) -> Option<Key>
        ensures { result ≡ (if right then (node self.now).right else (node self.now).left) };
}

/// A node as it is kept, in 16 bytes where its address takes 32 bits, and in 32 where it takes 128.
#[derive(Drop)]
pub(crate) struct Packed<const W: u32, A: Word> {
    addr: A,
    left: u32,
    right: u32,
    index: u16,
    // Whether there is an index.
    indexed: bool,
    len: u8,
}

impl<const W: u32, A: Word> Model for Packed<W, A> {
    ghost use Rattle.std.specs.Prelude.{◌≤◌};
    ghost use Rattle.prefix_width.specs.Prefix.{IsBlock};
    ghost use Rattle.radix_lockless.specs.declared.node.Node.{Node};
    ghost use Rattle.radix_lockless.specs.Packed.{child_of, index_if};

    ghost Value = { Node W };

    ghost view = { λ p. record {
      prefix = record { base = A.number p.addr; len = p.len };
      index = index_if p.indexed p.index;
      left = child_of p.left;
      right = child_of p.right;
    } };

    ghost invariant = { λ p. IsBlock W (record { base = A.number p.addr; len = p.len }) × (W ≤ A.width) };
}

impl<const W: u32, A: Word> Clone for Packed<W, A> {
    ghost use Rattle.std.specs.Prelude.{◌≡◌};

    ghost is_clone = { λ node copy. copy ≡ node };

    fn clone(&self) -> Result<Self, OutOfMemory> {
        Ok(Packed {
            addr: self.addr,
            left: self.left,
            right: self.right,
            index: self.index,
            indexed: self.indexed,
            len: self.len,
        })
    }
}

impl<const W: u32, A: Word> Packed<W, A> {
    /// Keeps a node.
    pub(crate) fn of(node: &Node<W>) -> Packed<W, A>
        requires { W ≤ A.width }
        ensures { result ≡ node.now }
    {
        let len = node.prefix.len();
        Packed {
            addr: A::of(node.prefix.addr().value()),
            left: child_number(node.left),
            right: child_number(node.right),
            index: node.index.unwrap_or(0),
            indexed: node.index.is_some(),
            len,
        }
    }

    /// The node that is kept.
    pub(crate) fn node(&self) -> Node<W>
        ensures { result ≡ self.now }
    {
        Node {
            prefix: self.prefix(),
            index: self.index(),
            left: child_key(self.left),
            right: child_key(self.right),
        }
    }

    fn prefix(&self) -> Prefix<W>
        ensures { result ≡ self.now.prefix }
    {
        let addr = match Addr::new(self.addr.get()) {
            Some(addr) => addr,
            None => unreachable!(),
        };
        match Prefix::masked(addr, self.len) {
            Some(prefix) => prefix,
            None => unreachable!(),
        }
    }
}

impl<const W: u32, A: Word> NodeView<W> for Packed<W, A> {
    ghost node = { λ node. node };

    fn contains(&self, addr: &Addr<W>) -> bool {
        self.addr.agrees(addr.value(), W - u32::from(self.len))
    }

    fn len(&self) -> u8 {
        self.len
    }

    fn index(&self) -> Option<u16> {
        if self.indexed { Some(self.index) } else { None }
    }

    fn child(&self, right: bool) -> Option<Key> {
        child_key(if right { self.right } else { self.left })
    }
}
