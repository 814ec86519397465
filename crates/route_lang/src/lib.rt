//! Scripts of route(8) commands, read from bytes and written.
//!
//! A script is a text of lines. [`read_script`] reads the whole grammar for both families, and
//! [`write_profile`] and [`write_line`] write each line in its one canonical spelling. [`generate`] makes scripts of
//! drawn numbers.
#![tactic(auto)]

mod asked;
mod fault;
mod generator;
mod laws;
mod line;
mod read_line;
mod script;
mod spelling;
mod text;
mod verb;
mod walk;

pub use fault::{LineFault, Reason, ScriptError};
pub use generator::generate;
pub use laws::{law_first_fault_decides, law_lines_before_agree, law_skipped_line_is_none};
pub use line::{Line, Lines};
pub use script::{INPUT_MAX, LINE_MAX, LINES_MAX, Script, read_script};
pub use spelling::{law_shown_text_reads_back, write_line, write_profile};
pub use std::alloc::AllocError as OutOfMemory;
pub use text::line_count;

#[cfg(test)]
mod tests;
