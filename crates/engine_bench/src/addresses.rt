//! The addresses that are looked up.
ghost use Rattle.std.specs.Prelude.{◌≤◌};

use crate::OutOfMemory;
use crate::family::{draw_host, draw_uniform};
use bench_kit::Draws;
use prefix_width::{Addr, Prefix};
use std::alloc::Global;

/// How many addresses are looked up.
pub(crate) const ADDRESSES: usize = 1_048_576;

/// Addresses inside the prefixes, each of which is drawn with its host bits.
pub(crate) fn inside<const W: u32>(
    alloc: Global,
    prefixes: &[Prefix<W>],
) -> Result<Vec<Addr<W>>, OutOfMemory> {
    let mut draws = Draws::new(3);
    let mut addrs = Vec::with_capacity(alloc, ADDRESSES)?;
    if prefixes.is_empty() {
        return Ok(addrs);
    }
    for _ in 0..ADDRESSES {
        let place = draws.draw() as usize % prefixes.len();
        addrs.push(with_host(&prefixes[place], draw_host::<W>(&mut draws)))?;
    }
    Ok(addrs)
}

/// The prefix's first address, with the host bits of a number where that gives an address.
fn with_host<const W: u32>(prefix: &Prefix<W>, host: u128) -> Addr<W> {
    let first = prefix.first();
    let mask = prefix.last().value() - first.value();
    Addr::new(first.value() | (host & mask)).unwrap_or(first)
}

/// Addresses from the whole family.
pub(crate) fn uniform<const W: u32>(alloc: Global) -> Result<Vec<Addr<W>>, OutOfMemory>
    requires { (1 ≤ W) × (W ≤ 128) }
{
    let mut draws = Draws::new(2);
    let mut addrs = Vec::with_capacity(alloc, ADDRESSES)?;
    for _ in 0..ADDRESSES {
        if let Some(addr) = Addr::new(draw_uniform::<W>(&mut draws)) {
            addrs.push(addr)?;
        }
    }
    Ok(addrs)
}
