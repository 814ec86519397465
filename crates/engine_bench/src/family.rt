//! How routes and hosts of each family are drawn.
ghost use Rattle.std.specs.Prelude.{◌≤◌};

use bench_kit::Draws;

/// A route as it is drawn, before its host bits are cleared.
#[derive(Clone, Copy)]
pub(crate) struct Drawn {
    /// The address.
    pub(crate) value: u128,
    /// How many leading bits the prefix fixes.
    pub(crate) len: u8,
    /// The index, 1 to 64.
    pub(crate) index: u16,
}

/// Below which thousandth an IPv4 prefix has which length.
const INET_LENGTHS: [(u32, u8); 14] = [
    (600, 24),
    (700, 23),
    (810, 22),
    (860, 21),
    (910, 20),
    (940, 19),
    (960, 18),
    (970, 17),
    (990, 16),
    (994, 15),
    (996, 14),
    (997, 13),
    (998, 12),
    (999, 10),
];

/// Below which thousandth an IPv6 prefix has which length.
const INET6_LENGTHS: [(u32, u8); 14] = [
    (470, 48),
    (620, 32),
    (720, 44),
    (810, 40),
    (860, 36),
    (890, 46),
    (920, 47),
    (940, 42),
    (950, 33),
    (960, 34),
    (980, 29),
    (985, 28),
    (995, 64),
    (996, 24),
];

/// The leading 16 bits of IPv6 routes.
const INET6_TOPS: [u16; 8] = [
    0x2001, 0x2400, 0x2600, 0x2604, 0x2800, 0x2a00, 0x2a02, 0x2c0f,
];

/// The name of the family of a width.
pub(crate) fn family_name<const W: u32>() -> &'static str {
    if W == 32 { "inet" } else { "inet6" }
}

/// Draws a route of the family of a width.
pub(crate) fn draw_route<const W: u32>(draws: &mut Draws) -> Drawn
    ensures least { 1 ≤ result.index }
    ensures most { result.index ≤ 64 }
{
    if W == 32 {
        draw_inet_route(draws)
    } else {
        draw_inet6_route(draws)
    }
}

/// Draws an address below `2^W`, of which a caller takes the host bits.
pub(crate) fn draw_host<const W: u32>(draws: &mut Draws) -> u128 {
    let first = draws.draw();
    if W == 32 {
        u128::from(first)
    } else {
        draw_behind(first, draws)
    }
}

/// Draws an address from all of IPv4, or from the eighth of IPv6 that begins with the bits 001.
pub(crate) fn draw_uniform<const W: u32>(draws: &mut Draws) -> u128 {
    let first = draws.draw();
    if W == 32 {
        u128::from(first)
    } else {
        draw_behind(0x2000_0000 + first % 0x2000_0000, draws)
    }
}

fn draw_inet_route(draws: &mut Draws) -> Drawn
    ensures least { 1 ≤ result.index }
    ensures most { result.index ≤ 64 }
{
    let len = length_at(&INET_LENGTHS, 32, draws.draw() % 1000);
    let value = inet_value(len, draws.draw());
    let index = index_of(draws.draw());
    Drawn { value, len, index }
}

fn draw_inet6_route(draws: &mut Draws) -> Drawn
    ensures least { 1 ≤ result.index }
    ensures most { result.index ≤ 64 }
{
    let len = length_at(&INET6_LENGTHS, 128, draws.draw() % 1000);
    let first = inet6_first(draws.draw());
    let value = draw_behind(first, draws);
    let index = index_of(draws.draw());
    Drawn { value, len, index }
}

/// The length at a thousandth: that of the first bound above it, or the last length.
fn length_at(lengths: &[(u32, u8)], last: u8, thousandth: u32) -> u8 {
    for (below, len) in lengths {
        if thousandth < *below {
            return *len;
        }
    }
    last
}

/// An IPv4 address of a draw. Long prefixes lie in every third block of 16 bits.
fn inet_value(len: u8, draw: u32) -> u128 {
    let draw = u128::from(draw);
    if len >= 16 {
        (256 + 3 * (draw / 65_536 % 16_384)) * 65_536 + draw % 65_536
    } else {
        (1 + draw / 16_777_216 % 223) * 16_777_216 + draw % 16_777_216
    }
}

/// The leading 32 bits of an IPv6 route.
fn inet6_first(draw: u32) -> u32 {
    let top = INET6_TOPS[(draw / 65_536 % 8) as usize];
    u32::from(top) * 65_536 + draw % 16_384
}

/// An IPv6 address of its leading 32 bits and three draws.
fn draw_behind(first: u32, draws: &mut Draws) -> u128 {
    let (second, third, fourth) = (draws.draw(), draws.draw(), draws.draw());
    (u128::from(first) << 96)
        | (u128::from(second) << 64)
        | (u128::from(third) << 32)
        | u128::from(fourth)
}

/// The index of a draw.
fn index_of(draw: u32) -> u16
    ensures least { 1 ≤ result }
    ensures most { result ≤ 64 }
{
    1 + (draw % 64) as u16
}
