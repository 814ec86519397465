//! Address texts of IPv4 and IPv6, read and written.
//!
//! A text is read as the grammar has it (IPv6: RFC 4291 section 2.2), and an address is written as
//! one text alone (IPv6: RFC 5952 section 4, with no dotted tail). Reading takes no memory.
#![tactic(auto)]

mod digits;
mod laws;
mod number;
mod read;
mod write;

pub use laws::{
    law_ipv4_grammar, law_ipv4_read_back, law_ipv6_grammar, law_ipv6_read_back, law_prefix_grammar,
    law_prefix_read_back,
};
pub use number::read_number;
pub use read::{read_addr, read_prefix, read_v4, read_v6};
pub use std::alloc::AllocError as OutOfMemory;
pub use write::{write_addr, write_number, write_prefix};

#[cfg(test)]
mod tests;
