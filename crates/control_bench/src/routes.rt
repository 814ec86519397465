//! Drawn routes.
use crate::OutOfMemory;
use bench_kit::Draws;
use prefix_width::{Addr, Prefix};
use std::alloc::Global;
use std::collections::BTreeSet;

/// Below which thousandth a prefix has which length.
const LENGTHS: [(u32, u8); 14] = [
    (600, 24),
    (700, 23),
    (810, 22),
    (860, 21),
    (910, 20),
    (940, 19),
    (960, 18),
    (970, 17),
    (990, 16),
    (994, 15),
    (996, 14),
    (997, 13),
    (998, 12),
    (999, 10),
];

/// Draws so many distinct prefixes. There may be fewer in the end where one is drawn often again.
pub(crate) fn draw_prefixes(alloc: Global, count: u32) -> Result<Vec<Prefix<32>>, OutOfMemory> {
    let mut draws = Draws::new(1);
    let mut seen = BTreeSet::new(alloc);
    let mut prefixes = Vec::new(alloc);
    for _ in 0..count.saturating_mul(64) {
        if prefixes.len() >= count as usize {
            break;
        }
        let (len, value) = draw_block(&mut draws);
        if let Some(prefix) = prefix_of(value, len) {
            if seen.insert(prefix)? {
                prefixes.push(prefix)?;
            }
        }
    }
    Ok(prefixes)
}

/// The prefix of this length that contains the address.
fn prefix_of(value: u128, len: u8) -> Option<Prefix<32>> {
    Prefix::masked(Addr::new(value)?, len)
}

/// A prefix's length, and an address in it below `2^32`. Long prefixes lie in every third block of
/// 16 bits.
fn draw_block(draws: &mut Draws) -> (u8, u128) {
    let len = length_at(draws.draw() % 1000);
    let draw = u128::from(draws.draw());
    let value = if len >= 16 {
        (256 + 3 * (draw / 65_536 % 16_384)) * 65_536 + draw % 65_536
    } else {
        (1 + draw / 16_777_216 % 223) * 16_777_216 + draw % 16_777_216
    };
    (len, value)
}

/// The length at a thousandth: that of the first bound above it, or the greatest.
fn length_at(thousandth: u32) -> u8 {
    for (below, len) in &LENGTHS {
        if thousandth < *below {
            return *len;
        }
    }
    32
}
