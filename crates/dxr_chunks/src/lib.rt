//! Direct cells and shared chunks.
#![tactic(auto)]

mod apply;
mod bisect;
mod cell;
mod find;
mod form;
mod made;
mod making;
mod pieces;
mod run;
mod store;
mod table;
mod touched;

pub use bisect::index_in_run;
pub use run::{add_run, pass_border};
pub use std::alloc::AllocError as OutOfMemory;
pub use table::ChunkTable;

#[cfg(test)]
mod tests;
