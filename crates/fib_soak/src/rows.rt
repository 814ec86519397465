//! What a row has come to after so many changes of it.
//!
//! The changes of a row follow one another in fours: another gateway, a second one beside it, none at all, and a new
//! row. So what the row holds after any number of changes is known without making them.
ghost use Rattle.std.specs.Prelude.{◌≡◌, ◌≤◌};
ghost use Rattle.fib_soak.specs.Rows.{change_of, changes_of, hop_by, hop_of, host_of, path_by, row_of, slot_of};

use prefix_width::{Addr, Nexthop, Path, Prefix};
use rib_store::Command;

/// How many gateways there are.
const HOSTS: u64 = 64;

/// 192.0.2.0, where they begin.
const NET: u128 = 0xc000_0200;

/// The paths of a row, each by one of the [`HOSTS`].
#[derive(Clone, Copy, Debug, PartialEq, Eq)]
pub(crate) enum Row {
    /// One path.
    One(u64),
    /// Two paths, of which the second has twice the weight.
    Two {
        /// The host of weight 1.
        first: u64,
        /// The host of weight 2.
        second: u64,
    },
}

/// The host that a change of this number brings the row at a place to.
fn host_of(place: u64, change: u64) -> u64
    ensures { result ≡ host_of place change }
{
    (place % HOSTS + change % HOSTS) % HOSTS
}

/// How often the row at a place has changed after so many turns. Turn 0 changes the row at place 0,
/// and each turn the next one of so many rows.
pub(crate) fn changes_after(turns: u64, place: u64, rows: u64) -> u64
    ensures { result ≡ changes_of turns place rows }
{
    turns.saturating_sub(place).div_ceil(rows.max(1))
}

/// The row at a place after so many changes of it. `None` where there is none.
pub(crate) fn row_after(place: u64, changes: u64) -> Option<Row>
    ensures { result ≡ row_of place changes }
{
    match changes % 4 {
        2 => Some(Row::Two {
            first: host_of(place, changes - 1),
            second: host_of(place, changes),
        }),
        3 => None,
        _ => Some(Row::One(host_of(place, changes))),
    }
}

/// The command that makes a row's change of this number. Number 0 adds the row first.
pub(crate) fn command_of(prefix: Prefix<32>, place: u64, change: u64) -> Command<32>
    ensures { result ≡ change_of prefix place change }
{
    let host = host_of(place, change);
    match change % 4 {
        1 => Command::Change {
            prefix,
            path: path_by(host, 1),
        },
        2 => Command::Add {
            prefix,
            path: path_by(host, 2),
        },
        3 => Command::Delete {
            prefix,
            gateway: None,
        },
        _ => Command::Add {
            prefix,
            path: path_by(host, 1),
        },
    }
}

/// The nexthop by one of the hosts of 192.0.2.0/26.
fn hop_by(host: u64) -> Nexthop<32>
    ensures { result ≡ hop_by host }
{
    match Addr::new(NET + u128::from(host % HOSTS)) {
        Some(gateway) => Nexthop::via(gateway, 0, 0),
        None => unreachable!(),
    }
}

/// The path by a host.
fn path_by(host: u64, weight: u32) -> Path<32>
    requires least { 1 ≤ weight }
    requires most { weight ≤ 16777215 }
    ensures { result ≡ path_by host weight }
{
    match Path::new(hop_by(host), weight) {
        Some(path) => path,
        None => unreachable!(),
    }
}

/// The nexthop that a row gives a flow. Two paths have three slots, in the order of their gateways.
pub(crate) fn hop_of(row: Row, flow: u32) -> Nexthop<32>
    ensures { result ≡ hop_of row flow }
{
    match row {
        Row::One(host) => hop_by(host),
        Row::Two { first, second } => hop_by(host_in_slot(first, second, flow % 3)),
    }
}

/// The host in one of three slots, of which the first host has one and the second has two.
fn host_in_slot(first: u64, second: u64, slot: u32) -> u64
    ensures { result ≡ slot_of first second slot }
{
    let of_first = if first < second { 0 } else { 2 };
    if slot == of_first { first } else { second }
}
