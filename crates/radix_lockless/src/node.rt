use crate::key::Key;
use prefix_width::Prefix;

/// A node: a prefix, its index if it has a row, and the keys of the nodes below it on the two sides
/// of its next bit.
#[derive(Clone, Copy)]
pub struct Node<const W: u32> {
    pub(crate) prefix: Prefix<W>,
    pub(crate) index: Option<u16>,
    pub(crate) left: Option<Key>,
    pub(crate) right: Option<Key>,
}
