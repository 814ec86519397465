//! Scripts that are drawn.
ghost use Rattle.std.specs.Prelude.{◌≡◌, ◌≤◌, IfOk};
ghost use Rattle.route_lang.specs.Reader.Asked.{IsOfForm};
ghost use Rattle.route_lang.specs.Generator.{next_state, state_after, draw, drawn_prefix, drawn_path, generated};
ghost use Rattle.route_lang.specs.Limits.{lines_limit};
ghost use Rattle.route_lang.specs.Reader.Draws.{asked_line};

use crate::OutOfMemory;
use crate::asked::{Asked, Shared};
use crate::script::{Plans, Script, take_asked};
use prefix_width::{Addr, Nexthop, Path, Prefix};
use rib_store::Command;
use std::alloc::Global;

/// 10.0.0.0, where the addresses begin.
const FIRST_ADDRESS: u32 = 0x0a00_0000;

/// 192.0.2.1, the first of the gateways.
const FIRST_GATEWAY: u32 = 0xc000_0201;

/// The script of `count` lines that a seed gives, the same at every call. `count` is from 1 to
/// [`LINES_MAX`](crate::LINES_MAX). Want of memory is the only error.
///
/// Numbers of 32 bits are drawn one after another from a state of 64 bits, which is the seed at
/// first. For each number the state is multiplied by 6364136223846793005, and 1442695040888963407
/// is added, modulo 2^64; the number is the upper half of the new state.
///
/// The lines are numbered from 1. For each line a number is drawn, whose remainder by 16 says what
/// the line is, and then the numbers that it needs:
///
/// - 0 to 7: an `add`, by three numbers. The prefix is as long as 12 plus the remainder of the
///   first by 9, and its address, of which that many bits are kept, is 10.0.0.0 plus 4096 times
///   the remainder of the second by 4096. The gateway is 192.0.2.1 plus the remainder of the third
///   by 8, and the weight is 1 plus the remainder by 4 of its eighth, rounded down. Interface and
///   MTU are not given.
/// - 8: a `change`, made like an `add`.
/// - 9: a `delete` without a gateway, by two numbers, which give the prefix as in an `add`.
/// - 10: a `tick` of 10 milliseconds, by none.
/// - 11 to 15: a `get`, by two numbers. The address is 10.0.0.0 plus the remainder of the first by
///   2^24, and the flow is the second.
///
/// A `tick` is of both families, and every other line is of IPv4. The profile is 1.
pub fn generate(alloc: Global, seed: u32, count: u32) -> Result<Script, OutOfMemory>
    requires { (1 ≤ count) × (count ≤ lines_limit) }
    ensures { IfOk result (λ script. script ≡ generated seed count) }
{
    let mut draws = Draws::new(seed);
    let mut plans = Plans::new(alloc);
    let mut lines = Vec::new(alloc);
    'lines: for before in 0..count {
        let asked = drawn_line(&mut draws);
        take_asked(&mut plans, &mut lines, before + 1, asked)?;
    }
    Script::of(alloc, plans, lines)
}

/// Draws what a line asks for.
fn drawn_line(draws: &mut Draws) -> Asked
    ensures asked { result ≡ (asked_line draws.old.state).asked }
    ensures form { IsOfForm result }
    ensures state { draws.new.state ≡ state_after (asked_line draws.old.state).draws draws.old.state }
{
    match draws.draw() % 16 {
        0..=7 => {
            let prefix = drawn_prefix(draws);
            let path = drawn_path(draws);
            Asked::Inet(Command::Add { prefix, path })
        }
        8 => {
            let prefix = drawn_prefix(draws);
            let path = drawn_path(draws);
            Asked::Inet(Command::Change { prefix, path })
        }
        9 => Asked::Inet(Command::Delete {
            prefix: drawn_prefix(draws),
            gateway: None,
        }),
        10 => Asked::Both(Shared::Tick { ms: 10 }),
        _ => {
            let place = draws.draw();
            let flow = draws.draw();
            let addr = address_of(FIRST_ADDRESS + place % 16_777_216);
            Asked::Get4 { addr, flow }
        }
    }
}

/// Draws a prefix.
fn drawn_prefix(draws: &mut Draws) -> Prefix<32>
    ensures prefix { result ≡ drawn_prefix (draw 1 draws.old.state) (draw 2 draws.old.state) }
    ensures state { draws.new.state ≡ state_after 2 draws.old.state }
{
    let length = draws.draw();
    let place = draws.draw();
    let addr = address_of(FIRST_ADDRESS + place % 4096 * 4096);
    Prefix::masked(addr, 12 + (length % 9) as u8).unwrap()
}

/// Draws a path.
fn drawn_path(draws: &mut Draws) -> Path<32>
    ensures path { result ≡ drawn_path (draw 1 draws.old.state) }
    ensures state { draws.new.state ≡ state_after 1 draws.old.state }
{
    let number = draws.draw();
    let gateway = address_of(FIRST_GATEWAY + number % 8);
    let weight = 1 + number / 8 % 4;
    Path::new(Nexthop::via(gateway, 0, 0), weight).unwrap()
}

/// The address of a number.
fn address_of(number: u32) -> Addr<32>
    ensures { result ≡ number }
{
    Addr::new(u128::from(number)).unwrap()
}

/// A linear congruential generator of 64 bits, of which a draw gives the upper half.
#[derive(Drop)]
struct Draws {
    state: u64,
}

impl Draws {
    /// The generator that begins at a seed.
    fn new(seed: u32) -> Draws
        ensures { result.state ≡ seed }
    {
        Draws {
            state: u64::from(seed),
        }
    }

    /// The next number.
    fn draw(&mut self) -> u32
        ensures value { result ≡ draw 1 self.old.state }
        ensures state { self.new.state ≡ next_state self.old.state }
    {
        self.state = self
            .state
            .wrapping_mul(6_364_136_223_846_793_005)
            .wrapping_add(1_442_695_040_888_963_407);
        (self.state >> 32) as u32
    }
}
