//! Commands, plans and the route table of one address family.
//!
//! The table is seen as the list of its rows in prefix order, and what a command does to it is
//! said on that list. Beside the routes it counts how often they use each nexthop and each group,
//! as FreeBSD's `nhop_ctl.c` and `nhgrp_ctl.c` do, so that one command takes a time that grows as
//! the logarithm of the number of routes. A plan is seen as the list of its commands and numbers
//! the nexthops that they name.
#![tactic(auto)]

mod command;
mod laws;
mod links;
mod plan;
mod rib;
mod routes;
mod rows;

pub use command::{Command, Refusal, Reply};
pub use laws::{
    law_limits_are_tried, law_live_targets_are_counted, law_numbers_differ, law_numbers_lead_back,
    law_tables_are_in_order, law_tables_are_spread, law_tables_are_within,
};
pub use plan::{PLAN_MAX, Plan, PushError};
pub use rib::Rib;
pub use routes::ROUTES_MAX;
pub use rows::Rows;
pub use std::alloc::AllocError as OutOfMemory;

#[cfg(test)]
mod plan_tests;
#[cfg(test)]
mod tests;
