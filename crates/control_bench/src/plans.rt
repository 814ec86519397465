//! Plans of drawn commands, of both families.
ghost use Rattle.std.specs.Prelude.{◌≡◌, ◌≤◌, length, IfOk};
ghost use Rattle.std.specs.Arc.{arc_value};

use crate::fib::push;
use bench_kit::{Draws, Fault};
use prefix_width::{Addr, Kind, Nexthop, Path, Prefix, Setting};
use rib_store::{Command, Plan};
use std::alloc::Global;
use std::sync::Arc;

/// What a byte of a drawn address is, so that prefixes nest and end beside one another.
const BYTES: [u128; 6] = [0, 1, 10, 127, 128, 255];

/// The lengths of drawn prefixes. At more than 32 bits some have 96 more.
const LENGTHS: [u8; 16] = [0, 1, 7, 8, 9, 15, 16, 17, 20, 23, 24, 25, 30, 31, 32, 32];

/// What a plan of any family sets.
const SETTINGS: [Setting; 4] = [
    Setting::Auto,
    Setting::Fixed(Kind::Scan),
    Setting::Fixed(Kind::Range),
    Setting::Fixed(Kind::Radix),
];

/// One of the numbers below a bound.
fn below(draws: &mut Draws, bound: u32) -> u32 {
    draws.draw() % bound.max(1)
}

/// An address whose first 32 bits are drawn byte by byte, and whose other bits are 0.
fn draw_addr<const W: u32>(draws: &mut Draws) -> Option<Addr<W>>
    requires { (1 ≤ W) × (W ≤ 128) }
{
    let mut value = 0u128;
    for _ in 0..4 {
        let byte = BYTES[draws.draw() as usize % BYTES.len()];
        value = value.wrapping_mul(256).wrapping_add(byte);
    }
    Addr::new(value << W.saturating_sub(32))
}

/// A prefix of a drawn address.
fn draw_prefix<const W: u32>(draws: &mut Draws) -> Option<Prefix<W>>
    requires { (1 ≤ W) × (W ≤ 128) }
{
    let len = LENGTHS[draws.draw() as usize % LENGTHS.len()];
    let more = if W > 32 && draws.draw() % 4 == 0 {
        96
    } else {
        0
    };
    Prefix::masked(draw_addr(draws)?, len.saturating_add(more))
}

/// One of seven gateways.
fn draw_gateway<const W: u32>(draws: &mut Draws) -> Option<Addr<W>>
    requires { (1 ≤ W) × (W ≤ 128) }
{
    Addr::new(u128::from(below(draws, 7).saturating_add(0x0a00_0001)))
}

/// A path by a gateway in most cases, of a weight from 1 to 4.
fn draw_path<const W: u32>(draws: &mut Draws) -> Option<Path<W>>
    requires { (1 ≤ W) × (W ≤ 128) }
{
    match below(draws, 16) {
        0 => Path::new(Nexthop::blackhole(), 1),
        1 => Path::new(Nexthop::reject(), 1),
        2 => Path::new(Nexthop::direct(1, 0)?, 1),
        _ => {
            let gateway = draw_gateway(draws)?;
            Path::new(
                Nexthop::via(gateway, 0, 0),
                below(draws, 4).saturating_add(1),
            )
        }
    }
}

/// An add in half of the cases.
fn draw_command<const W: u32>(draws: &mut Draws) -> Option<Command<W>>
    requires { (1 ≤ W) × (W ≤ 128) }
{
    match below(draws, 24) {
        0 => Some(Command::Sync),
        1 => Some(Command::Tick {
            ms: below(draws, 80),
        }),
        2 => Some(Command::Flush),
        3 | 4 => Some(Command::Algo {
            setting: draw_setting::<W>(draws),
        }),
        5..=8 => draw_delete(draws),
        9..=11 => Some(Command::Change {
            prefix: draw_prefix(draws)?,
            path: draw_path(draws)?,
        }),
        _ => Some(Command::Add {
            prefix: draw_prefix(draws)?,
            path: draw_path(draws)?,
        }),
    }
}

/// A delete of a route, or of its paths by a gateway.
fn draw_delete<const W: u32>(draws: &mut Draws) -> Option<Command<W>>
    requires { (1 ≤ W) × (W ≤ 128) }
{
    let prefix = draw_prefix(draws)?;
    let gateway = if draws.draw() % 2 == 0 {
        None
    } else {
        Some(draw_gateway(draws)?)
    };
    Some(Command::Delete { prefix, gateway })
}

/// A setting that the family takes.
fn draw_setting<const W: u32>(draws: &mut Draws) -> Setting {
    if W == 32 && draws.draw() % 5 == 0 {
        return Setting::Fixed(Kind::Dxr);
    }
    SETTINGS[draws.draw() as usize % SETTINGS.len()]
}

/// A plan of so many commands, of which the first sets a module.
pub(crate) fn drawn_plan<const W: u32>(
    alloc: Global,
    draws: &mut Draws,
    commands: u32,
) -> Result<Arc<Plan<W>>, Fault>
    requires width { (1 ≤ W) × (W ≤ 128) }
    requires some { 1 ≤ commands }
    ensures { IfOk result (λ plan. length (arc_value plan).commands ≡ commands) }
{
    let mut plan = Plan::new(alloc);
    let setting = draw_setting::<W>(draws);
    push(&mut plan, Command::Algo { setting })?;
    for _number in 1..commands {
        let command = draw_command(draws).ok_or(Fault::Unmade)?;
        push(&mut plan, command)?;
    }
    Ok(Arc::new(alloc, plan)?)
}

/// So many drawn addresses, each with a flow.
pub(crate) fn drawn_flows<const W: u32>(
    alloc: Global,
    draws: &mut Draws,
    count: usize,
) -> Result<Vec<(Addr<W>, u32)>, Fault>
    requires { (1 ≤ W) × (W ≤ 128) }
    ensures { IfOk result (λ flows. length flows.items ≡ count) }
{
    let mut flows = Vec::with_capacity(alloc, count)?;
    for _number in 0..count {
        let addr = draw_addr(draws).ok_or(Fault::Unmade)?;
        flows.push((addr, draws.draw()))?;
    }
    Ok(flows)
}
