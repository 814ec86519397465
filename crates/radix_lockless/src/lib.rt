//! A path-compressed binary trie. After FreeBSD's radix4_lockless and radix6_lockless
//! (`sys/netinet/in_fib_algo.c`, `sys/netinet6/in6_fib_algo.c`), whose tries are those of
//! `sys/net/radix.c`.
//!
//! To read it, begin with `node` and `trie`: what a node is, and the way down to a prefix. Then come
//! `find`, `add` and `remove`, each for one row, and on these `fill`, a trie of all rows, and
//! `edits`, a batch. `store` and `frozen_store` keep the nodes, in the few bytes that `packed`,
//! `key` and `word` say. `table` makes a module of it.
#![tactic(auto)]

mod add;
mod edits;
mod fill;
mod find;
mod frozen_store;
mod key;
mod node;
mod packed;
mod remove;
mod store;
mod table;
mod trie;
mod word;

pub use node::Node;
pub use std::alloc::AllocError as OutOfMemory;
pub use table::RadixTable;

#[cfg(test)]
mod tests;
