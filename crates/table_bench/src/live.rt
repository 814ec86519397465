//! A table of many live targets.
ghost use Rattle.std.specs.Prelude.{◌≡◌, ◌+◌, ◌≤◌, IfOk, OnOk};
ghost use Rattle.prefix_width.specs.Limits.{AreTargets};
ghost use Rattle.table_bench.specs.Live.{link_on, linked, live_table, moved};

use crate::OutOfMemory;
use crate::routes::{address_of, path_by, prefix_of};
use crate::table::apply;
use rib_store::{Command, Rib};
use std::alloc::Global;

/// How many live targets a table has room for.
pub(crate) const TARGETS_MAX: u32 = 4_095;

/// What a command does to the route of a number.
#[derive(Clone, Copy)]
pub(crate) enum Link {
    /// It is added, by the gateway of its number.
    Own,
    /// The gateway behind that joins, which makes a group.
    Next,
    /// It is changed, to a gateway that no other route has.
    Far,
}

/// A table with so many live targets: a quarter of them groups, the others nexthops. Its gateways
/// are numbered from `first` on.
pub(crate) fn table_of<const LIVE: u32>(
    alloc: Global,
    live: u32,
    first: u32,
) -> Result<Rib<32, LIVE>, OutOfMemory>
    requires targets { AreTargets LIVE }
    requires live { live ≤ 4095 }
    requires first { first ≤ 8192 }
    ensures profile { IfOk result (λ table. table.profile ≡ 1) }
    ensures rows { IfOk result (λ table. table.rows ≡ live_table LIVE live first) }
{
    let groups = live / 4;
    let mut table = Rib::new(alloc);
    link_all(&mut table, alloc, Link::Own, first, 0, live - groups)?;
    link_all(&mut table, alloc, Link::Next, first, 0, groups)?;
    Ok(table)
}

/// Leads the last three routes of such a table to new nexthops.
pub(crate) fn move_three<const LIVE: u32>(
    table: &mut Rib<32, LIVE>,
    alloc: Global,
    live: u32,
    first: u32,
) -> Result<(), OutOfMemory>
    requires profile { table.old.profile ≡ 1 }
    requires live { (8 ≤ live) × (live ≤ 4095) }
    requires first { first ≤ 8192 }
    ensures profile { table.new.profile ≡ 1 }
    ensures rows { OnOk result (table.new.rows ≡ moved LIVE live first table.old.rows) }
{
    link_all(table, alloc, Link::Far, first, live - live / 4 - 3, 3)
}

/// Does the command to so many routes, from a number on.
#[tactic(auto, unfolding(crate::specs::Live::linked))]
fn link_all<const LIVE: u32>(
    table: &mut Rib<32, LIVE>,
    alloc: Global,
    link: Link,
    first: u32,
    from: u32,
    count: u32,
) -> Result<(), OutOfMemory>
    requires profile { table.old.profile ≡ 1 }
    requires first { first ≤ 8192 }
    requires few { from + count ≤ 4095 }
    ensures profile { table.new.profile ≡ 1 }
    ensures rows { OnOk result (table.new.rows ≡ linked LIVE link first from table.old.rows count) }
{
    for i in 0..count {
        apply(table, alloc, &command_of(link, first, from + i))?;
    }
    Ok(())
}

/// The command to the route of a number.
fn command_of(link: Link, first: u32, number: u32) -> Command<32>
    requires first { first ≤ 8192 }
    requires number { number ≤ 4095 }
    ensures { result ≡ link_on link first number }
{
    let Some(addr) = address_of(u64::from(number)) else {
        unreachable!()
    };
    let prefix = prefix_of(addr);
    let gateway = first + number;
    match link {
        Link::Own => Command::Add {
            prefix,
            path: path_by(gateway),
        },
        Link::Next => Command::Add {
            prefix,
            path: path_by(gateway + 1),
        },
        Link::Far => Command::Change {
            prefix,
            path: path_by(gateway + 4_096),
        },
    }
}
