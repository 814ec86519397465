//! Drawn routes.
ghost use Rattle.std.specs.Prelude.{◌≡◌, ◌+◌, ◌*◌, ◌<◌, ◌^◌, IfOk, Some, length};
ghost use Rattle.prefix_width.specs.Prefix.{masked_block};
ghost use Rattle.table_bench.specs.Phases.{command_on, next_number, path_by};

use crate::OutOfMemory;
use prefix_width::{Addr, Nexthop, Path, Prefix};
use rib_store::Command;
use std::alloc::Global;

/// How many prefixes there are: as many as routes of a table.
const NUMBERS: u64 = 262_144;

/// How many gateways there are.
const GATEWAYS: u32 = 16;

/// 16.0.0.0, where the prefixes begin.
const FIRST: u32 = 0x1000_0000;

/// 192.0.2.0, whose hosts from 1 on are the gateways.
const NET: u32 = 0xc000_0200;

/// What is asked for each prefix.
#[derive(Clone, Copy)]
pub(crate) enum Phase {
    /// It is added.
    Adds,
    /// Its path is changed.
    Changes,
    /// It is deleted.
    Deletes,
}

/// The commands of a phase, on so many prefixes. Each prefix comes once.
pub(crate) fn commands_of(
    alloc: Global,
    phase: Phase,
    count: u32,
) -> Result<Vec<Command<32>>, OutOfMemory>
    ensures { IfOk result (λ commands. length commands.items ≡ count) }
{
    let mut commands = Vec::with_capacity(alloc, count as usize)?;
    let mut number = 1u64;
    for place in 0..count {
        if let Some(addr) = address_of(number) {
            commands.push(command_of(phase, prefix_of(addr), place))?;
        }
        number = next_number(number);
    }
    Ok(commands)
}

/// The command of a phase on a prefix. A change leads to the gateway behind that of the add.
fn command_of(phase: Phase, prefix: Prefix<32>, place: u32) -> Command<32>
    ensures { result ≡ command_on phase prefix place }
{
    match phase {
        Phase::Adds => Command::Add {
            prefix,
            path: path_by(place % GATEWAYS),
        },
        Phase::Changes => Command::Change {
            prefix,
            path: path_by((place % GATEWAYS + 1) % GATEWAYS),
        },
        Phase::Deletes => Command::Delete {
            prefix,
            gateway: None,
        },
    }
}

/// The /24 that holds the address.
pub(crate) fn prefix_of(addr: Addr<32>) -> Prefix<32>
    ensures { result ≡ masked_block 32 addr 24 }
{
    match Prefix::masked(addr, 24) {
        Some(prefix) => prefix,
        None => unreachable!(),
    }
}

/// The first address of the /24 of a number.
pub(crate) fn address_of(number: u64) -> Option<Addr<32>>
    requires { number < 2 ^ 18 }
    ensures { result ≡ Some (2 ^ 28 + number * 256) }
{
    Addr::new(u128::from(FIRST) + u128::from(number) * 256)
}

/// The path by the gateway of a number.
pub(crate) fn path_by(gateway: u32) -> Path<32>
    requires { gateway < 2 ^ 16 }
    ensures { result ≡ path_by gateway }
{
    let Some(addr) = Addr::new(u128::from(NET + 1 + gateway)) else {
        unreachable!()
    };
    match Path::new(Nexthop::via(addr, 0, 0), 1) {
        Some(path) => path,
        None => unreachable!(),
    }
}

/// The number behind a number, by the linear congruential generator of the project. It runs
/// through all numbers below 2^18.
fn next_number(number: u64) -> u64
    ensures value { result ≡ next_number number }
    ensures small { result < 2 ^ 18 }
{
    let product = number.wrapping_mul(6_364_136_223_846_793_005);
    product.wrapping_add(1_442_695_040_888_963_407) % NUMBERS
}
