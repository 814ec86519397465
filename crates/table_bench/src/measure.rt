//! The times of commands.
ghost use Rattle.std.specs.Prelude.{◌≡◌, IfOk, OnOk, length};
ghost use Rattle.std.specs.List.{count_by};
ghost use Rattle.table_bench.specs.Phases.{replies, table_from, is_done, map_from};

use crate::map::put_all;
use crate::routes::Phase;
use crate::table::apply_all;
use bench_kit::{Fault, cpu_time};
use prefix_width::{Path, Prefix};
use rib_store::{Command, Rib};
use std::collections::BTreeMap;
use std::time::{CpuClock, Duration};

/// What a phase comes to.
#[derive(Clone, Copy)]
pub(crate) struct Figures {
    /// How many commands the table answers as the phase asks.
    pub(crate) done: usize,
    /// The processor time that the table takes.
    pub(crate) table: Duration,
    /// The processor time that the map takes.
    pub(crate) map: Duration,
}

/// What rounds of the same come to.
#[derive(Clone, Copy)]
pub(crate) struct Rounds {
    /// How many elements come of the last.
    pub(crate) count: usize,
    /// The processor time of the round that takes the least.
    pub(crate) least: Duration,
    /// How often a round does it.
    pub(crate) times: u32,
}

/// Does the commands of a phase on the table, which is of profile 1, and what they ask on the bare map.
pub(crate) fn measure<R: CpuClock + AllocGlobal, const LIVE: u32>(
    rt: &R,
    table: &mut Rib<32, LIVE>,
    map: &mut BTreeMap<Prefix<32>, Path<32>>,
    phase: Phase,
    commands: &[Command<32>],
) -> Result<Figures, Fault>
    requires { table.old.profile ≡ 1 }
    ensures profile { table.new.profile ≡ 1 }
    ensures done { IfOk result (λ figures. figures.done ≡ count_by (is_done phase) (replies LIVE table.old.rows commands.now)) }
    ensures table { OnOk result (table.new.rows ≡ table_from LIVE table.old.rows commands.now) }
    ensures map { OnOk result (map.new.entries ≡ map_from map.old.entries commands.now) }
{
    let start = cpu_time(rt)?;
    let done = apply_all(table, rt.alloc(), phase, commands)?;
    let middle = cpu_time(rt)?;
    put_all(map, commands)?;
    let end = cpu_time(rt)?;
    Ok(Figures {
        done,
        table: middle.saturating_sub(start),
        map: end.saturating_sub(middle),
    })
}
