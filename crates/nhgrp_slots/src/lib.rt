//! Weighted groups of paths: kept once each with a count of their uses, and compiled into slots,
//! after FreeBSD's `sys/net/route/nhgrp.c` and `nhgrp_ctl.c`.
#![tactic(auto)]

mod divisor;
mod groups;
mod laws;
mod layouts;
mod path_facts;
mod paths;
mod slots;
mod target;

pub use groups::GroupTable;
pub use laws::{
    law_keep_moves_no_slot_that_stays, law_kept_is_layout, law_layout_picks_as_slots,
    law_left_are_spreads, law_shares_are_all, law_slots_are_filled, law_slots_hold_picked,
    law_small_shares_are_exact, law_spreads_are_of_paths,
};
pub use layouts::keep;
pub use paths::Paths;
pub use slots::{Slots, compile, pick};
pub use std::alloc::AllocError as OutOfMemory;
pub use target::Target;

#[cfg(test)]
mod layout_tests;
#[cfg(test)]
mod tests;
