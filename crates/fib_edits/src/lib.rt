//! What changes from one version of a route table to the next: an edit for each prefix whose index
//! differs, or that only one of the two versions has. Commands say which prefixes they touch, so
//! that a version costs a time that grows with the number of touched routes and not with the table.
#![tactic(auto)]

mod laws;
mod touched;
mod version_view;

pub use laws::{law_indexes_are_kept, law_rows_are_named};
pub use std::alloc::AllocError as OutOfMemory;
pub use touched::Touched;
pub use version_view::{follow, view_of};

#[cfg(test)]
mod tests;
