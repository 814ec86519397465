//! The gets of a script, as workers make them.
ghost use Rattle.std.specs.Prelude.{◌≡◌, ◌++◌, ◌+◌, ◌<◌, ◌≤◌, IfOk, IfSome, OnOk, Some, length, drop};
ghost use Rattle.threaded_replay.specs.Asked.{AreWithin, positions};
ghost use Rattle.threaded_replay.specs.Legal.{gets_from, gets_of, is_sync, synced_behind};

use crate::OutOfMemory;
use prefix_width::Addr;
use rib_store::{Command, Plan};
use route_lang::{Line, Script};
use std::alloc::Global;
use std::marker::Model;

/// The address that a get looks up, which tells its family.
#[derive(Clone, Copy, Debug, PartialEq, Eq)]
pub enum Address {
    /// Of IPv4.
    Inet(Addr<32>),
    /// Of IPv6.
    Inet6(Addr<128>),
}

/// A get of a script: its address and flow, its line, and how many commands of its family come
/// before it and up to the last sync line before it.
#[derive(Debug, Drop)]
pub struct Ask {
    address: Address,
    flow: u32,
    line: u32,
    at: u32,
    synced: u32,
}

impl Model for Ask {
    ghost use Rattle.threaded_replay.specs.Asked.{family_of, number_of};
    ghost use Rattle.threaded_replay.specs.Legal.{Get};

    ghost Value = { Get };

    ghost view = { λ a. record { family = family_of a.address; addr = number_of a.address; flow = a.flow; line = a.line; at = a.at; synced = a.synced } };
}

impl Ask {
    ghost use Rattle.std.specs.Prelude.{◌≡◌};
    ghost use Rattle.threaded_replay.specs.Asked.{family_of, number_of};

    /// The address that it looks up.
    pub(crate) fn address(&self) -> Address
        ensures family { family_of result ≡ self.now.family }
        ensures addr { number_of result ≡ self.now.addr }
    {
        self.address
    }

    /// The flow that it looks up.
    pub(crate) fn flow(&self) -> u32
        ensures { result ≡ self.now.flow }
    {
        self.flow
    }

    /// How many commands of its family come up to and with the last sync line before it.
    pub(crate) fn synced(&self) -> u32
        ensures { result ≡ self.now.synced }
    {
        self.synced
    }
}

/// How many commands of each family come up to and with the last sync line.
#[derive(Clone, Copy)]
struct Synced {
    inet: u32,
    inet6: u32,
}

/// The gets of a script in their order, 1,048,576 at most. `OutOfMemory` where memory is wanting.
pub fn asks_of(alloc: Global, script: &Script) -> Result<Vec<Ask>, OutOfMemory>
    ensures gets { IfOk result (λ asks. asks.items ≡ gets_of script.now) }
    ensures few { IfOk result (λ asks. length asks.items ≤ 1048576) }
    ensures within { IfOk result (λ asks. AreWithin script.now asks.items) }
{
    let mut asks = Vec::new(alloc);
    let mut synced = Synced { inet: 0, inet6: 0 };
    for i in 0..script.lines().len() {
        take_line(script, i, &mut synced, &mut asks)?;
    }
    Ok(asks)
}

/// Takes the line of a number, counted from 0.
fn take_line(
    script: &Script,
    i: usize,
    synced: &mut Synced,
    asks: &mut Vec<Ask>,
) -> Result<(), OutOfMemory>
    requires { i < length script.now.lines }
    ensures { OnOk result (asks.new.items ++ gets_from script.now (positions synced.new) (drop (i + 1) script.now.lines)
        ≡ asks.old.items ++ gets_from script.now (positions synced.old) (drop i script.now.lines)) }
{
    match *script.lines().get(i) {
        Line::Change { .. } => Ok(()),
        Line::Quiet {
            line: _,
            inet,
            inet6,
        } => {
            synced.inet = synced_behind(script.inet(), synced.inet, inet);
            synced.inet6 = synced_behind(script.inet6(), synced.inet6, inet6);
            Ok(())
        }
        Line::Get4 {
            line,
            addr,
            flow,
            at,
        } => {
            asks.push(Ask {
                address: Address::Inet(addr),
                flow,
                line,
                at,
                synced: synced.inet,
            })?;
            Ok(())
        }
        Line::Get6 {
            line,
            addr,
            flow,
            at,
        } => {
            asks.push(Ask {
                address: Address::Inet6(addr),
                flow,
                line,
                at,
                synced: synced.inet6,
            })?;
            Ok(())
        }
    }
}

/// How many commands of a plan come up to and with the last sync line, where a line with this
/// position in the plan, if it has one, comes next.
fn synced_behind<const W: u32>(plan: &Plan<W>, synced: u32, position: Option<u32>) -> u32
    requires { IfSome position (λ pos. pos < length plan.now.commands) }
    ensures { result ≡ synced_behind plan.now synced position }
{
    match position {
        Some(pos) if is_sync(plan.command(pos)) => pos + 1,
        _ => synced,
    }
}

fn is_sync<const W: u32>(command: &Command<W>) -> bool
    ensures { result ≡ is_sync (Some command.now) }
{
    matches!(command, Command::Sync)
}
