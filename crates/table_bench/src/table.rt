ghost use Rattle.std.specs.Prelude.{◌≡◌, IfOk, OnOk};
ghost use Rattle.std.specs.List.{count_by};
ghost use Rattle.rib_store.specs.Table.{apply};
ghost use Rattle.table_bench.specs.Phases.{replies, table_from, is_done};

use crate::OutOfMemory;
use crate::routes::Phase;
use rib_store::{Command, Reply, Rib};
use std::alloc::Global;

/// Applies the commands to a table of profile 1 in turn. Gives how many are answered as the phase asks.
pub(crate) fn apply_all<const LIVE: u32>(
    table: &mut Rib<32, LIVE>,
    alloc: Global,
    phase: Phase,
    commands: &[Command<32>],
) -> Result<usize, OutOfMemory>
    requires { table.old.profile ≡ 1 }
    ensures profile { table.new.profile ≡ 1 }
    ensures table { OnOk result (table.new.rows ≡ table_from LIVE table.old.rows commands.now) }
    ensures count { IfOk result (λ count. count ≡ count_by (is_done phase) (replies LIVE table.old.rows commands.now)) }
{
    let mut count = 0;
    for command in commands {
        if is_done(phase, apply(table, alloc, command)?) {
            count += 1;
        }
    }
    Ok(count)
}

/// Applies a command to a table of profile 1.
pub(crate) fn apply<const LIVE: u32>(
    table: &mut Rib<32, LIVE>,
    alloc: Global,
    command: &Command<32>,
) -> Result<Reply, OutOfMemory>
    requires { table.old.profile ≡ 1 }
    ensures profile { table.new.profile ≡ 1 }
    ensures table { OnOk result (table.new.rows ≡ (apply 1 LIVE table.old.rows command.now).table) }
    ensures reply { IfOk result (λ reply. reply ≡ (apply 1 LIVE table.old.rows command.now).reply) }
{
    table.apply(alloc, command)
}

/// Whether a command of the phase that is answered so has done what it asks.
fn is_done(phase: Phase, reply: Reply) -> bool
    ensures { result ≡ is_done phase reply }
{
    match (phase, reply) {
        (Phase::Adds, Reply::Added) => true,
        (Phase::Changes, Reply::Changed) => true,
        (Phase::Deletes, Reply::Deleted) => true,
        _ => false,
    }
}
