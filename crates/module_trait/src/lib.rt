//! The interface of the lookup modules, and the plain one, which looks at every row.
//!
//! A [`Module`] stands for rows, each a prefix and an index of 1 or more, and answers an address
//! with the index of the longest row that contains it. How many reads a lookup makes is part of the
//! contract: the cells of a module are behind [`Cells`] and [`SharedCells`] and its nodes behind
//! [`Nodes`] and [`FrozenNodes`], whose one reader counts in a [`Steps`]. None of these, nor a
//! [`Boxed`] value, gives an allocator to a lookup. Copies of nodes share the pages that did not
//! change. The starts of rows are the addresses at which the longest row may change, and
//! [`cells_of`] makes one cell for each.
//! After the modules of FreeBSD's `sys/net/route/fib_algo.c`.
#![tactic(auto)]

mod apart;
mod boxed;
mod cell_reads;
mod cells;
mod edit;
mod frozen;
mod module;
mod node_reads;
mod nodes;
mod pages;
mod scan;
mod shared_cells;
mod steps;
mod sweep;
mod view;

pub use apart::{Counting, run_apart};
pub use boxed::Boxed;
pub use cell_reads::CellReads;
pub use cells::Cells;
pub use edit::{Edit, Verdict, read_edits};
pub use frozen::FrozenNodes;
pub use module::Module;
pub use node_reads::NodeReads;
pub use nodes::{KEYS_MAX, Nodes};
pub use scan::ScanTable;
pub use shared_cells::SharedCells;
pub use std::alloc::AllocError as OutOfMemory;
pub use steps::Steps;
pub use sweep::cells_of;
pub use view::RouteView;

#[cfg(test)]
mod node_tests;
#[cfg(test)]
mod sweep_tests;
#[cfg(test)]
mod tests;
